//! What follows from the definitions alone. The bodies are empty: the contracts are the laws.
ghost use Rattle.std.specs.Prelude.{◌≡◌, ℕ, List, [], true, false};
ghost use Rattle.gv_base.specs.Files.{AreInOrder, Entry};
ghost use Rattle.analysis_core.specs.declared.command.Command.{Command};
ghost use Rattle.analysis_core.specs.declared.reply.Reply.{Reply};
ghost use Rattle.typed_tree.specs.RuleTexts.{rule_text, limit_text};
ghost use Rattle.typed_tree.specs.declared.rule.Limit.{Limit};
ghost use Rattle.typed_tree.specs.declared.rule.Rule.{Rule};
ghost use Rattle.gv_driver.specs.Faults.{limit_number};
ghost use Rattle.fact_cache.specs.declared.list.Entry.{Entry as Kept};
ghost use Rattle.tree_report.specs.Existence.{AllHaveOutcomes, AllRunsHaveOutcomes, HasReport};
ghost use Rattle.tree_report.specs.Form.{HasReading};
ghost use Rattle.tree_report.specs.Lines.{mark_text};
ghost use Rattle.tree_report.specs.Reports.{IsHonest, Reports};

use gv_driver::{a_tree_has_a_report, one_report};

/// Over one cache a tree has one reply to each command and leaves one cache, and from an honest one an honest one; a cache without
/// entries is honest. A tree that has a reply can be read.
pub fn one_report_of_a_tree()
    ensures report { (asked : Command) (only : ℕ) (tree : List Entry) (before after other : List Kept) (a b : Reply) → Reports asked only tree before after a → Reports asked only tree before other b → a ≡ b }
    ensures cache { (asked : Command) (only : ℕ) (tree : List Entry) (before after other : List Kept) (a b : Reply) → Reports asked only tree before after a → Reports asked only tree before other b → after ≡ other }
    ensures read { (asked : Command) (only : ℕ) (tree : List Entry) (before after : List Kept) (a : Reply) → Reports asked only tree before after a → HasReading tree }
    ensures fresh { IsHonest [] }
    ensures honest { (asked : Command) (only : ℕ) (tree : List Entry) (before after : List Kept) (a : Reply) → IsHonest before → Reports asked only tree before after a → IsHonest after }
{
    one_report();
}

/// The line of a mark says the text of the rule or of the limit that has its number.
pub fn each_mark_has_its_text()
    ensures rule { (rule : Rule) → mark_text false rule.0 ≡ rule_text rule }
    ensures limit { (limit : Limit) → mark_text true (limit_number limit) ≡ limit_text limit }
{}

/// Where no lawful load but a stuck one and no lawful run of an analyzer is without an outcome, no tree that can be read and in which no package is stuck is without a reply, over any cache.
pub fn a_tree_that_is_read_has_a_report()
    ensures { AllHaveOutcomes → AllRunsHaveOutcomes → (asked : Command) (only : ℕ) (tree : List Entry) → AreInOrder tree → (before : List Kept) → HasReport asked only tree before }
{
    a_tree_has_a_report();
}
