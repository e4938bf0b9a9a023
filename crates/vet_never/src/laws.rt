//! Laws of the functions that never return.
ghost use Rattle.std.specs.Prelude.{◌≡◌, ℕ, List};
ghost use Rattle.handed_facts.specs.Handed.{Named};
ghost use Rattle.typed_marks.specs.declared.item.Item.{Item};
ghost use Rattle.typed_marks.specs.Meanings.{Meaning};
ghost use Rattle.unit_read.specs.Units.{Unit};
ghost use Rattle.vet_never.specs.Never.{IsNeverText};

/// A package has one text of these facts, over those of other packages.
pub fn one_never_text()
    ensures { (u : Unit) (marks : Item → Meaning) (given : List Named) (a b : List ℕ) → IsNeverText u marks given a → IsNeverText u marks given b → a ≡ b }
{}
