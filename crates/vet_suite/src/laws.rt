//! Laws of what the analyzers find.
ghost use Rattle.std.specs.Prelude.{◌≡◌, ℕ, All, List};
ghost use Rattle.analysis_core.specs.Findings.{IsOwn};
ghost use Rattle.analysis_core.specs.declared.diagnostic.Diagnostic.{Diagnostic};
ghost use Rattle.handed_facts.specs.Handed.{Named};
ghost use Rattle.typed_marks.specs.declared.item.Item.{Item};
ghost use Rattle.typed_marks.specs.Meanings.{Meaning};
ghost use Rattle.unit_read.specs.Units.{Unit};
ghost use Rattle.vet_suite.specs.Standing.{NodesStand, Stands};
ghost use Rattle.vet_suite.specs.Suite.{FoundBy, FactsBy};

use analysis_core::analyzers_are_told;

/// The analyzer of a number has one list of findings over a package.
pub fn one_found()
    ensures { (number : ℕ) (u : Unit) (marks : Item → Meaning) (paths : List (List ℕ)) (given : List Named) (xs ys : List Diagnostic) → FoundBy number u marks paths given xs → FoundBy number u marks paths given ys → xs ≡ ys }
{}

/// The analyzer of a number has one text of facts of a package.
pub fn one_facts()
    ensures { (number : ℕ) (u : Unit) (marks : Item → Meaning) (given : List Named) (a b : List ℕ) → FactsBy number u marks given a → FactsBy number u marks given b → a ≡ b }
{}

/// The fix of each diagnostic lies in its own file.
pub fn fixes_are_own()
    ensures { (number : ℕ) (u : Unit) (marks : Item → Meaning) (paths : List (List ℕ)) (given : List Named) (found : List Diagnostic) → FoundBy number u marks paths given found → All IsOwn found }
{}

/// What the analyzer of a number finds is its own, stands in the package's files, and a fix can be made there: its edits lie in the file and
/// apart.
pub fn findings_stand()
    ensures { (number : ℕ) (u : Unit) (marks : Item → Meaning) (paths : List (List ℕ)) (given : List Named) (found : List Diagnostic) → NodesStand u → FoundBy number u marks paths given found → All (Stands u number) found }
{
    analyzers_are_told();
}
