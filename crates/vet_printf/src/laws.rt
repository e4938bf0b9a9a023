//! Laws of the functions that print.
ghost use Rattle.std.specs.Prelude.{◌≡◌, ℕ, List};
ghost use Rattle.handed_facts.specs.Handed.{Named};
ghost use Rattle.typed_marks.specs.declared.item.Item.{Item};
ghost use Rattle.typed_marks.specs.Meanings.{Meaning};
ghost use Rattle.unit_read.specs.Units.{Unit};
ghost use Rattle.analysis_core.specs.declared.diagnostic.Diagnostic.{Diagnostic as ADiagnostic};
ghost use Rattle.vet_printf.specs.Wraps.{IsWrapsText, ArePrintfFindings};

/// A package has one text of these facts, over those of other packages.
pub fn one_wraps_text()
    ensures { (u : Unit) (marks : Item → Meaning) (given : List Named) (a b : List ℕ) → IsWrapsText u marks given a → IsWrapsText u marks given b → a ≡ b }
{}

/// A package has one list of findings, over the facts of other packages.
pub fn one_list_found()
    ensures { (u : Unit) (marks : Item → Meaning) (given : List Named) (a b : List ADiagnostic) → ArePrintfFindings u marks given a → ArePrintfFindings u marks given b → a ≡ b }
{}
