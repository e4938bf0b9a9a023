//! Facts of one kind, as bytes.
ghost use Rattle.std.specs.Prelude.{◌≡◌, ◌++◌, ◌≤◌, ℕ, List, Option, OnOk, OnErr, IfSome, length, drop};
ghost use Rattle.gv_bytes.specs.Spelling.{Extends};
ghost use Rattle.gv_bytes.specs.Reading.{Answers, Reads};

use gv_base::NoMemory;

/// A kind of fact. A fact has one spelling; what begins with the spelling of a fact is read as this fact,
/// and nothing else is read.
pub trait FactKind: Sized + Drop {
    /// How a fact is spelled.
    ghost spelling: { Self → List ℕ };

    /// What stands at the front of bytes: a fact, and the bytes after it.
    ghost fact_at: { List ℕ → Option (Self × List ℕ) };

    /// Adds the fact's spelling. Where memory is wanting, a part of it may have been added.
    fn encode(&self, out: &mut Vec<u8>) -> Result<(), NoMemory>
        ensures written { OnOk result (out.new.items ≡ out.old.items ++ spelling self.now) }
        ensures kept { OnErr result (Extends out.old.items out.new.items) };

    /// The fact at the front of the bytes, and how many bytes its spelling has. `None` exactly where no fact
    /// is spelled there.
    fn decode(bytes: &[u8]) -> Option<(Self, usize)>
        ensures value { Answers (λ x. (x.0, drop x.1 bytes.now)) result (fact_at bytes.now) }
        ensures size { IfSome result (λ x. x.1 ≤ length bytes.now) };

    /// What is read is spelled, and what is spelled is read.
    ghost is_read: { Reads (λ fact. Unit {0}) spelling fact_at };
}
