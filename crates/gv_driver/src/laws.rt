//! Laws of trees and caches. Their bodies are empty: the contracts are the laws.
ghost use Rattle.std.specs.Prelude.{◌≡◌, ◌<◌, ◌^◌, ℕ, Bool, true, false, List, [], length};
ghost use Rattle.analysis_core.specs.declared.diagnostic.Diagnostic.{Diagnostic};
ghost use Rattle.fact_cache.specs.declared.list.Entry.{Entry};
ghost use Rattle.fact_cache.specs.declared.texts.Input.{Input};
ghost use Rattle.fact_cache.specs.Caches.{is_within};
ghost use Rattle.gv_driver.specs.declared.reply.Verdict.{Verdict};
ghost use Rattle.gv_driver.specs.declared.tree.PackageTexts.{PackageTexts};
ghost use Rattle.action_graph.specs.Judging.{IsLawful, Judged};
ghost use Rattle.gv_driver.specs.Below.{Typed};
ghost use Rattle.gv_driver.specs.Caches.{IsCacheAfter, IsHonest};
ghost use Rattle.gv_driver.specs.Existence.{AllHaveOutcomes, AllRunsHaveOutcomes, HasRun};
ghost use Rattle.action_graph.specs.Analyzing.{IsRunLawful, IsRunOutcome};
ghost use Rattle.action_graph.specs.Outcomes.{facts_of};
ghost use Rattle.action_graph.specs.Work.{IsAnalyzer, has_facts};
ghost use Rattle.action_graph.specs.declared.kit.RunInput.{RunInput};
ghost use Rattle.std.specs.List.{Contains};
ghost use Rattle.gv_driver.specs.Analyzers.{analyzers_of};
ghost use Rattle.gv_driver.specs.Facts.{HasFacts};
ghost use Rattle.gv_driver.specs.Loads.{IsRunOf, IsPlan};
ghost use Rattle.gv_driver.specs.Reports.{IsFactReport, IsReport, IsRunReport};
ghost use Rattle.gv_driver.specs.Trees.{IsTree};
ghost use Rattle.gv_driver.specs.Whole.{Checked, HasStuck};

/// A tree has one plan.
pub fn one_plan()
    ensures { (tree : List PackageTexts) (only : ℕ) (a b : List (List Input)) → IsPlan tree only a → IsPlan tree only b → a ≡ b }
{}

/// A tree has one report.
pub fn one_report()
    ensures verdicts { (tree : List PackageTexts) (a b : List Verdict) → IsReport tree a → IsReport tree b → a ≡ b }
    ensures facts { (tree : List PackageTexts) (only : ℕ) (verdicts : List Verdict) (a b : List (List (ℕ × List ℕ))) → IsReport tree verdicts → IsFactReport tree only verdicts a → IsFactReport tree only verdicts b → a ≡ b }
    ensures found { (tree : List PackageTexts) (only : ℕ) (verdicts : List Verdict) (a b : List (List Diagnostic)) → IsReport tree verdicts → IsRunReport tree only verdicts a → IsRunReport tree only verdicts b → a ≡ b }
{}

/// A run of an analyzer over a package has one input, and the package has one list of the analyzer's facts; an analyzer without facts reads none,
/// and one with facts runs over every package, if it runs over one.
pub fn one_run_of_a_package()
    ensures input { (tree : List PackageTexts) (a p : ℕ) (r s : RunInput) → IsRunOf tree a p r → IsRunOf tree a p s → r ≡ s }
    ensures facts { (tree : List PackageTexts) (a p : ℕ) (facts more : List ℕ) → HasFacts tree a p facts → HasFacts tree a p more → facts ≡ more }
    ensures everywhere { (only a : ℕ) (stub other : Bool) → Contains (analyzers_of only stub) a → has_facts a ≡ true → Contains (analyzers_of only other) a }
    ensures without { (tree : List PackageTexts) (a p : ℕ) (r : RunInput) → has_facts a ≡ false → IsRunOf tree a p r → r.facts ≡ [] }
{}

/// What comes of the run of an analyzer that has facts tells those of its package; and over a lawful load the run is lawful.
pub fn an_outcome_has_the_facts()
    ensures lawful { (tree : List PackageTexts) (a p : ℕ) (run : RunInput) → IsTree tree → IsLawful run.load → IsAnalyzer a → IsRunOf tree a p run → IsRunLawful run }
    ensures told { (tree : List PackageTexts) (a p : ℕ) (run : RunInput) (text : List ℕ) → IsRunOf tree a p run → has_facts a ≡ true → IsRunOutcome run text → length text < 2 ^ 64 → HasFacts tree a p (facts_of text) }
{}

/// A run leaves one cache, within its limits, and from an honest one an honest one.
pub fn one_cache()
    ensures one { (before a b : List Entry) (inputs : List Input) → IsCacheAfter before a inputs → IsCacheAfter before b inputs → a ≡ b }
    ensures honest { (before after : List Entry) (inputs : List Input) → IsHonest before → IsCacheAfter before after inputs → IsHonest after }
    ensures within { (before after : List Entry) (inputs : List Input) → IsCacheAfter before after inputs → is_within after ≡ true }
{}

/// Where no lawful load but a stuck one and no lawful run is without an outcome, no tree in which no package is stuck is without verdicts,
/// what the analyzers find, their facts, inputs of its nodes, and a cache that a run leaves.
pub fn a_tree_has_a_report()
    ensures { AllHaveOutcomes → AllRunsHaveOutcomes → (tree : List PackageTexts) (only : ℕ) → IsTree tree → (HasStuck tree → ⊥) → (before : List Entry) → HasRun tree only before }
{}

/// What is found of a package over its environment by mentions is what is found over all packages below it: findings stay as more is seen of packages.
pub fn an_environment_is_enough()
    ensures { (tree : List PackageTexts) → IsTree tree → (p : ℕ) (judged : Judged) → Checked tree p judged → Typed tree p judged }
{}
