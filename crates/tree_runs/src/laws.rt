//! What follows from the definitions alone.
ghost use Rattle.std.specs.Prelude.{◌≡◌, ◌<◌, ◌^◌, ◌↔◌, List, ℕ, [], length};
ghost use Rattle.gv_base.specs.Files.{AreInOrder};
ghost use Rattle.tree_runs.specs.Cutting.{CutsNothingSeen, read_cut, read_whole};
ghost use Rattle.tree_runs.specs.Existence.{AllCanBeRead, AllHaveOutcomes, AllRunsHaveOutcomes, HasRun};
ghost use Rattle.tree_runs.specs.Reports.{Tree, Entries, HasCircle, HasText, IsHonest, Reports, CacheSpelled};
ghost use Rattle.tree_runs.specs.declared.report.Task.{Task};
ghost use Rattle.tree_runs.specs.declared.report.TreeReport.{TreeReport};

use analysis_core::one_json;
use fact_cache::one_cache_of_a_text;
use readable::{each_text_has_a_verdict, each_tree_has_packages};
use tree_report::a_tree_that_is_read_has_a_report;

/// Over one cache a tree has one report to each task, and leaves one cache; from an honest one an honest one. A cache has one text, and a text that memory holds is of one
/// cache. A cache without entries is honest.
pub fn one_report_of_a_tree()
    ensures report { (tree : Tree) (task : Task) (before after other : Entries) (a b : TreeReport) → Reports tree task before after a → Reports tree task before other b → a ≡ b }
    ensures cache { (tree : Tree) (task : Task) (before after other : Entries) (a b : TreeReport) → Reports tree task before after a → Reports tree task before other b → after ≡ other }
    ensures fresh { IsHonest [] }
    ensures honest { (tree : Tree) (task : Task) (before after : Entries) (a : TreeReport) → IsHonest before → Reports tree task before after a → IsHonest after }
    ensures text { (cache : Entries) (a b : List ℕ) → CacheSpelled cache a → CacheSpelled cache b → a ≡ b }
    ensures value { (c d : Entries) (bytes : List ℕ) → length bytes < 2 ^ 64 → CacheSpelled c bytes → CacheSpelled d bytes → c ≡ d }
{
    tree_report::one_report_of_a_tree();
    one_json();
    one_cache_of_a_text();
}

/// No tree is without verdicts and heads of its files, and packages.
pub fn each_tree_can_be_read()
    ensures { AllCanBeRead }
{
    each_text_has_a_verdict();
    each_tree_has_packages();
}

/// Of a tree from outside a run reads each file up to one byte more than a file may have. Nothing is cut by that, or the tree is over the same limit first, cut and whole: so its
/// report, in whatever form, is that of the whole.
pub fn a_cut_is_not_seen()
    ensures seen { (files : Tree) → CutsNothingSeen files }
    ensures report { (files : Tree) (task : Task) (before after : Entries) (report : TreeReport) → Reports (read_cut files) task before after report ↔ Reports (read_whole files) task before after report }
{}

/// Where no lawful load but a stuck one and no lawful run of an analyzer is without an outcome, no tree in which no package is stuck is without a report over a cache that has a text, in whatever form
/// it is asked for; it leaves one that has a text.
pub fn each_tree_has_a_report()
    ensures { AllHaveOutcomes → AllRunsHaveOutcomes → (tree : Tree) (task : Task) (before : Entries) → AreInOrder tree → HasText before → (HasCircle tree → ⊥) → HasRun tree task before }
{
    a_tree_that_is_read_has_a_report();
    each_tree_can_be_read();
}
