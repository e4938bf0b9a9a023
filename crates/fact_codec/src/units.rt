//! Kinds with one fact.
ghost use Rattle.std.specs.Prelude.{[], ◌∷◌, refl};
ghost use Rattle.fact_codec.specs.Kinds.{byte_at};
ghost use Rattle.fact_codec.specs.UnitLaws.{one_byte_read};

use crate::kind::FactKind;
use gv_base::NoMemory;

/// The fact of analyzers that keep none.
#[derive(Clone, Copy, Debug, PartialEq, Eq, Drop)]
pub struct NoFact;

/// The fact that a function never returns.
#[derive(Clone, Copy, Debug, PartialEq, Eq, Drop)]
pub struct Never;

impl FactKind for NoFact {
    ghost spelling = { λ fact. 122 ∷ [] };

    ghost fact_at = { byte_at 122 (record {}) };

    ghost is_read = { one_byte_read 122 (record {}) (λ fact. refl) };

    fn encode(&self, out: &mut Vec<u8>) -> Result<(), NoMemory> {
        out.push(b'z')?;
        Ok(())
    }

    fn decode(bytes: &[u8]) -> Option<(Self, usize)> {
        match bytes {
            [b'z', ..] => Some((NoFact, 1)),
            _ => None,
        }
    }
}

impl FactKind for Never {
    ghost spelling = { λ fact. 110 ∷ [] };

    ghost fact_at = { byte_at 110 (record {}) };

    ghost is_read = { one_byte_read 110 (record {}) (λ fact. refl) };

    fn encode(&self, out: &mut Vec<u8>) -> Result<(), NoMemory> {
        out.push(b'n')?;
        Ok(())
    }

    fn decode(bytes: &[u8]) -> Option<(Self, usize)> {
        match bytes {
            [b'n', ..] => Some((Never, 1)),
            _ => None,
        }
    }
}
