//! What follows from the definitions alone. The bodies are empty: each contract is a law.
ghost use Rattle.std.specs.Prelude.{◌≡◌, ◌<◌, ◌≤◌, ◌^◌, ◌%◌, ◌∷◌, [], ℕ, List, Option, length, map, slice_index, sum_by};
ghost use Rattle.atomic_table.specs.Table.{State};
ghost use Rattle.wave_run.specs.declared.view.View.{View};
ghost use Rattle.wave_run.specs.Numbers.{AreBelow, Among, below, times};
ghost use Rattle.wave_run.specs.Dealing.{IsDealt, IsInOneView, draws};
ghost use Rattle.wave_run.specs.Waves.{AreAnswered, Costs, IsOneAnswer, cost_in};
ghost use Rattle.wave_run.specs.Schedules.{Core, Event, Runs, IsStart, IsComplete, all_drawn, all_noted, views_of};

use crate::step::Step;

/// A list that has the numbers below n once has each of them once, and none from n on.
pub fn each_number_once()
    ensures once { (n x : ℕ) (numbers : List ℕ) → AreBelow n numbers → x < n → times x numbers ≡ 1 }
    ensures none { (n x : ℕ) (numbers : List ℕ) → AreBelow n numbers → n ≤ x → times x numbers ≡ 0 }
{}

/// Under the rule, while fewer than 2^64 draws were made, each number below the word stands in one live view, once, and in no
/// other view; a number from the word on stands in none.
pub fn each_number_in_one_view()
    ensures one { (parts number : ℕ) (s : State (Unit {0}) View) → IsDealt parts s → draws s.views < 2 ^ 64 → number < slice_index s.words 0 → IsInOneView number s.views }
    ensures none { (parts number : ℕ) (s : State (Unit {0}) View) (v : View) → IsDealt parts s → draws s.views < 2 ^ 64 → slice_index s.words 0 ≤ number → Among v s.views → times number v.drawn ≡ 0 }
{}

/// Whatever the schedule, the numbers drawn so far are those below the next number, each once; and where it is complete,
/// the jobs noted are all jobs, each once.
pub fn each_job_once()
    ensures drawn { (jobs : ℕ) (c d : Core) (events : List Event) → IsStart c → Runs jobs c events d → (f : ℕ → ℕ) → all_drawn f d ≡ below f d.next }
    ensures noted { (jobs : ℕ) (c d : Core) (events : List Event) → IsStart c → Runs jobs c events d → IsComplete jobs d → 0 < length d.workers → (f : ℕ → ℕ) → all_noted f d ≡ below f jobs }
{}

/// Each state of a schedule meets the rule of a board: the word shows the next number, and a view each worker's list.
pub fn schedules_are_dealt()
    ensures { (jobs : ℕ) (c d : Core) (events : List Event) → IsStart c → Runs jobs c events d → IsDealt (length d.workers) (record { words = d.next % 2 ^ 64 ∷ []; homes = []; views = views_of d }) }
{}

/// Where each job has at most one right answer, the answers of a wave are one list, however many workers there were and
/// whatever they did.
pub fn one_list_of_answers<W, J, D, S: Step<W, J, D>>()
    ensures { (step : S) (jobs : List J) (b c : List (Option Costs)) (d e : List D) → IsOneAnswer (S.right step) → AreAnswered (S.right step) jobs b d → AreAnswered (S.right step) jobs c e → d ≡ e }
{}

/// Where each job takes one of a count, a wave with answers takes as many as there are jobs.
pub fn each_job_counts_once<W, J, D, S: Step<W, J, D>>()
    ensures { (step : S) (jobs : List J) (costs : List (Option Costs)) (answers : List D) (i : ℕ) → ((job : J) (c : Costs) (d : D) → S.right step job c d → c i ≡ 1) → AreAnswered (S.right step) jobs costs answers → sum_by (cost_in i) costs ≡ length jobs }
{}
