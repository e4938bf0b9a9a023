//! What follows from the definitions alone. The bodies do nothing: the contracts are the laws.
ghost use Rattle.std.specs.Prelude.{◌≡◌, List, ℕ, Option, Some, ◌++◌};
ghost use Rattle.analysis_core.specs.declared.command.Command.{Command as Kind};
ghost use Rattle.gv_base.specs.Files.{Entry};
ghost use Rattle.scripts.specs.declared.halt.Halt.{Halt};
ghost use Rattle.top_calls.specs.declared.options.ToolOptions.{ToolOptions};
ghost use Rattle.top_calls.specs.declared.stop.Stop.{Stop};
ghost use Rattle.top_calls.specs.Due.{IsLawfulKept, Due, GoesOut};
ghost use Rattle.top_calls.specs.Existence.{HasDue, MeetsCircle};
ghost use Rattle.top_calls.specs.Outcome.{Opens, Seen, Outcome};
ghost use Rattle.tree_runs.specs.Existence.{AllHaveOutcomes, AllRunsHaveOutcomes};
ghost use Rattle.tree_runs.specs.Reports.{Entries, HasText};
ghost use Rattle.top_calls.specs.Single.{SeenRun, RunOutcome, DueRun, IsWithinRun};
ghost use Rattle.top_calls.specs.Workers.{with_workers};

use scripts::each_script_is_read_to_its_end;
use tree_runs::{each_tree_has_a_report, one_report_of_a_tree};

/// Over a lawful keeper a script has one due output, and over any it halts for one reason.
pub fn one_due_of_a_script()
    ensures halt { (options : ToolOptions) (kept : Option (List ℕ)) (script : List ℕ) (a b : Seen) (h k : Halt) → Due options kept script a h → Due options kept script b k → h ≡ k }
    ensures seen { (options : ToolOptions) (kept : Option (List ℕ)) (script : List ℕ) (a b : Seen) (h k : Halt) → IsLawfulKept kept → Due options kept script a h → Due options kept script b k → a ≡ b }
{
    one_report_of_a_tree();
}

/// What is seen of a session is what is due, or the beginning of it; and what is kept stays lawful.
pub fn an_outcome_is_within_what_is_due()
    ensures goes { (options : ToolOptions) (kept : Option (List ℕ)) (given rest : List ℕ) (seen : Seen) (stop : Stop) → Outcome options kept given (Some rest) seen stop → GoesOut options kept (given ++ rest) seen stop }
    ensures lawful { (options : ToolOptions) (kept : Option (List ℕ)) (given : List ℕ) (left : Option (List ℕ)) (seen : Seen) (stop : Stop) → IsLawfulKept kept → Outcome options kept given left seen stop → IsLawfulKept seen.kept }
{
    one_report_of_a_tree();
}

/// A single run has one due output, over a lawful keeper; what is seen of it is the beginning of that; and what is kept stays lawful.
pub fn one_due_of_a_run()
    ensures single { (options : ToolOptions) (kind : Kind) (kept : Option (List ℕ)) (files : List Entry) (a b : SeenRun) → IsLawfulKept kept → DueRun options kind kept files a → DueRun options kind kept files b → a ≡ b }
    ensures within { (options : ToolOptions) (kind : Kind) (kept : Option (List ℕ)) (files : List Entry) (got whole : SeenRun) (stop : Stop) → IsLawfulKept kept → RunOutcome options kind kept files got stop → (due : DueRun options kind kept files whole) → IsWithinRun files got whole.seen due.whole.0.changed }
    ensures lawful { (options : ToolOptions) (kind : Kind) (kept : Option (List ℕ)) (files : List Entry) (got : SeenRun) (stop : Stop) → IsLawfulKept kept → RunOutcome options kind kept files got stop → IsLawfulKept got.seen.kept }
{
    one_report_of_a_tree();
}

/// Where no lawful load but a stuck one and no lawful run of an analyzer is without an outcome, no script that comes to no stuck package is without a due output, over each keeper whose bytes were
/// looked at and whose cache has a text. There is one at most (`one_due_of_a_script`).
pub fn each_script_has_a_due_output(script: &[u8])
    ensures { AllHaveOutcomes → AllRunsHaveOutcomes → (options : ToolOptions) (kept : Option (List ℕ)) (cache : Entries) (greeting : List ℕ) → Opens kept cache greeting → HasText cache → (MeetsCircle options cache kept script.now → ⊥) → HasDue options kept script.now }
{
    each_script_is_read_to_its_end(script);
    each_tree_has_a_report();
}

/// What is due for a script, and for a single run, is the same for any number of workers.
pub fn workers_change_nothing()
    ensures script { (options : ToolOptions) (workers : ℕ) (kept : Option (List ℕ)) (script : List ℕ) (seen : Seen) (halt : Halt) → Due options kept script seen halt → Due (with_workers workers options) kept script seen halt }
    ensures single { (options : ToolOptions) (workers : ℕ) (kind : Kind) (kept : Option (List ℕ)) (files : List Entry) (got : SeenRun) → DueRun options kind kept files got → DueRun (with_workers workers options) kind kept files got }
{}
