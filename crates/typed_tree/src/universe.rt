//! What the predeclared names mean.
ghost use Rattle.std.specs.Prelude.{◌≡◌, slice_get};
ghost use Rattle.typed_tree.specs.Basics.{Says};
ghost use Rattle.typed_tree.specs.Universe.{meaning_of, predeclared_mark};

use crate::basics::error_type;
use crate::constants::{basic_mark, constant_mark};
use crate::mark::{Facts, Mark, Mode};
use crate::rule::Limit;
use gv_base::{Const, Kind};

/// What a predeclared name means (Go 1.17, "Predeclared identifiers").
#[derive(Clone, Copy, Debug, PartialEq, Eq, Drop)]
pub enum Predeclared {
    /// A basic type.
    Basic(Kind),
    /// The interface type `error`.
    Error,
    /// `true`
    True,
    /// `false`
    False,
    /// `iota`
    Iota,
    /// `nil`
    Nil,
    /// A built-in function.
    Function,
    /// A type or function outside the profile.
    Out(Limit),
}

/// What each predeclared name means, in byte order of the names.
const MEANINGS: [Predeclared; 39] = [
    Predeclared::Function,
    Predeclared::Basic(Kind::Bool),
    Predeclared::Basic(Kind::Uint8),
    Predeclared::Function,
    Predeclared::Function,
    Predeclared::Out(Limit::Complex),
    Predeclared::Out(Limit::Complex),
    Predeclared::Out(Limit::Complex),
    Predeclared::Function,
    Predeclared::Function,
    Predeclared::Error,
    Predeclared::False,
    Predeclared::Out(Limit::Float),
    Predeclared::Out(Limit::Float),
    Predeclared::Out(Limit::Complex),
    Predeclared::Basic(Kind::Int),
    Predeclared::Basic(Kind::Int16),
    Predeclared::Basic(Kind::Int32),
    Predeclared::Basic(Kind::Int64),
    Predeclared::Basic(Kind::Int8),
    Predeclared::Iota,
    Predeclared::Function,
    Predeclared::Function,
    Predeclared::Function,
    Predeclared::Nil,
    Predeclared::Function,
    Predeclared::Function,
    Predeclared::Function,
    Predeclared::Out(Limit::Complex),
    Predeclared::Function,
    Predeclared::Basic(Kind::Int32),
    Predeclared::Basic(Kind::Text),
    Predeclared::True,
    Predeclared::Basic(Kind::Uint),
    Predeclared::Basic(Kind::Uint16),
    Predeclared::Basic(Kind::Uint32),
    Predeclared::Basic(Kind::Uint64),
    Predeclared::Basic(Kind::Uint8),
    Predeclared::Basic(Kind::Uintptr),
];

fn error_mark() -> Mark
    ensures { Says result (meaning_of 0 Predeclared.Error) }
{
    Mark::Good(Facts {
        mode: Mode::TypeName,
        of: error_type(),
        value: None,
    })
}

/// The meaning of this number.
fn meaning_at(table: &[Predeclared], number: usize) -> Option<Predeclared>
    ensures { result ≡ slice_get table.now number }
{
    table.get(number).copied()
}

fn mark_of_meaning(iota: u64, of: Predeclared) -> Mark
    ensures { Says result (meaning_of iota of) }
{
    match of {
        Predeclared::Basic(kind) => basic_mark(Mode::TypeName, kind),
        Predeclared::Error => error_mark(),
        Predeclared::True => constant_mark(Kind::UntypedBool, Const::Truth(true)),
        Predeclared::False => constant_mark(Kind::UntypedBool, Const::Truth(false)),
        Predeclared::Iota => constant_mark(Kind::UntypedInt, Const::Int(iota as i128)),
        Predeclared::Nil => basic_mark(Mode::Nil, Kind::UntypedNil),
        Predeclared::Function => basic_mark(Mode::Builtin, Kind::UntypedNil),
        Predeclared::Out(limit) => Mark::Outside(limit),
    }
}

/// The mark of a use of a predeclared name, by its number in byte order of the names from 0; `iota` is the number of
/// the specification in its constant declaration (Go 1.17, "Iota").
pub fn judge_predeclared(number: u8, iota: u64) -> Mark
    ensures { Says result (predeclared_mark iota number) }
{
    match meaning_at(&MEANINGS, number as usize) {
        Some(of) => mark_of_meaning(iota, of),
        None => Mark::Silent,
    }
}
