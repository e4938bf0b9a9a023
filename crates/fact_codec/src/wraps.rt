//! What a function does with a format.
ghost use Rattle.std.specs.Prelude.{◌≡◌, Bool};
ghost use Rattle.fact_codec.specs.Kinds.{kind_name, has_kind, wraps_number, wraps_numbered, wraps_text, of_kind, wraps_at};
ghost use Rattle.fact_codec.specs.Kinds.{wraps_spelling};
ghost use Rattle.fact_codec.specs.WrapLaws.{wraps_read};

use crate::kind::FactKind;
use gv_base::NoMemory;
use gv_bytes::{put_num, split_natural};

/// A way in which a function prints what it is given.
#[derive(Clone, Copy, Debug, PartialEq, Eq, Drop)]
pub enum WrapKind {
    /// Operands, as `fmt.Print`.
    Print,
    /// A format and its operands, as `fmt.Printf`.
    Printf,
    /// A format that makes an error, as `fmt.Errorf`.
    Errorf,
}

impl WrapKind {
    /// Its name, as it is printed.
    pub fn text(self) -> &'static str
        ensures { result.now ≡ kind_name self }
    {
        match self {
            WrapKind::Print => "print",
            WrapKind::Printf => "printf",
            WrapKind::Errorf => "errorf",
        }
    }
}

/// The kinds of a function that has one at least.
#[derive(Clone, Copy, Debug, PartialEq, Eq, Drop)]
pub enum Wraps {
    Print,
    Printf,
    PrintPrintf,
    Errorf,
    PrintErrorf,
    PrintfErrorf,
    Each,
}

impl Wraps {
    /// This kind alone.
    pub fn of_kind(kind: WrapKind) -> Wraps
        ensures { result ≡ of_kind kind }
    {
        match kind {
            WrapKind::Print => Wraps::Print,
            WrapKind::Printf => Wraps::Printf,
            WrapKind::Errorf => Wraps::Errorf,
        }
    }

    /// Its number, from 1 to 7: 1 for print, 2 for printf and 4 for errorf, added.
    pub fn number(self) -> u8
        ensures { result ≡ wraps_number self }
    {
        match self {
            Wraps::Print => 1,
            Wraps::Printf => 2,
            Wraps::PrintPrintf => 3,
            Wraps::Errorf => 4,
            Wraps::PrintErrorf => 5,
            Wraps::PrintfErrorf => 6,
            Wraps::Each => 7,
        }
    }

    /// The kinds of this number. `None` exactly for a number that is none of 1 to 7.
    pub fn of_number(number: u64) -> Option<Wraps>
        ensures { result ≡ wraps_numbered number }
    {
        match number {
            1 => Some(Wraps::Print),
            2 => Some(Wraps::Printf),
            3 => Some(Wraps::PrintPrintf),
            4 => Some(Wraps::Errorf),
            5 => Some(Wraps::PrintErrorf),
            6 => Some(Wraps::PrintfErrorf),
            7 => Some(Wraps::Each),
            _ => None,
        }
    }

    /// Whether this kind is among them.
    pub fn has(self, kind: WrapKind) -> bool
        ensures { result ≡ has_kind self kind }
    {
        match kind {
            WrapKind::Print => matches!(
                self,
                Wraps::Print | Wraps::PrintPrintf | Wraps::PrintErrorf | Wraps::Each
            ),
            WrapKind::Printf => matches!(
                self,
                Wraps::Printf | Wraps::PrintPrintf | Wraps::PrintfErrorf | Wraps::Each
            ),
            WrapKind::Errorf => matches!(
                self,
                Wraps::Errorf | Wraps::PrintErrorf | Wraps::PrintfErrorf | Wraps::Each
            ),
        }
    }

    /// The names of the kinds, in the order print, printf, errorf, joined by `+`.
    pub fn text(self) -> &'static str
        ensures { result.now ≡ wraps_text self }
    {
        match self {
            Wraps::Print => "print",
            Wraps::Printf => "printf",
            Wraps::PrintPrintf => "print+printf",
            Wraps::Errorf => "errorf",
            Wraps::PrintErrorf => "print+errorf",
            Wraps::PrintfErrorf => "printf+errorf",
            Wraps::Each => "print+printf+errorf",
        }
    }
}

impl FactKind for Wraps {
    ghost spelling = { wraps_spelling };

    ghost fact_at = { wraps_at };

    ghost is_read = { wraps_read };

    #[tactic(auto, unfolding(crate::specs::Kinds::wraps_spelling))]
    fn encode(&self, out: &mut Vec<u8>) -> Result<(), NoMemory> {
        put_num(out, self.number() as i128)?;
        Ok(())
    }

    #[tactic(auto, unfolding(crate::specs::Kinds::wraps_at))]
    fn decode(bytes: &[u8]) -> Option<(Self, usize)> {
        let (number, rest) = split_natural(bytes, 7)?;
        let wraps = Wraps::of_number(number)?;
        Some((wraps, bytes.len() - rest.len()))
    }
}
