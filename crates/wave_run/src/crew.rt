//! A wave of jobs by some of the workers, with a board of its own.
ghost use Rattle.std.specs.Prelude.{◌≡◌, ◌<◌, ◌≤◌, ◌+◌, ◌^◌, ℕ, List, Option, IfOk, length, map, sum_by};
ghost use Rattle.wave_run.specs.Waves.{AllCan, AreLawful, AreAnswered, AreServed, AreSpent, Costs, cost_in};

use crate::board::Board;
use crate::step::Step;
use crate::wave::run_wave;
use gv_base::NoMemory;
use std::alloc::Global;
use std::thread::Threads;

/// How many workers are needed for so many jobs: at least one and at most 64, and no more than there are jobs.
fn crew_of(workers: usize, jobs: usize) -> usize
    requires { 0 < workers }
    ensures some { 0 < result }
    ensures few { result ≤ 64 }
    ensures within { result ≤ workers }
{
    if jobs < 2 {
        return 1;
    }
    if workers > 64 && jobs > 64 {
        return 64;
    }
    if jobs < workers {
        return jobs;
    }
    workers
}

/// The jobs by all of these workers.
fn crew_done<W: Send, J: Sync, D: Send + Drop, S: Step<W, J, D> + Sync, R: Threads + Sync>(
    rt: &R,
    alloc: Global,
    step: &S,
    workers: &mut [W],
    jobs: &Vec<J>,
) -> Result<Vec<D>, NoMemory>
    requires workers { (0 < length workers.old) × (length workers.old ≤ 64) }
    requires few { length jobs.now.items < 2 ^ 32 }
    requires lawful { AreLawful (S.lawful step.now) jobs.now.items }
    requires room { AllCan S.can (length jobs.now.items + 1) workers.old }
    ensures counted { (costs : List (Option Costs)) × AreSpent (S.spent step.now) jobs.now.items costs × ((i : ℕ) → sum_by (S.count i) workers.new ≡ sum_by (S.count i) workers.old + sum_by (cost_in i) costs) × IfOk result (λ v. AreAnswered (S.right step.now) jobs.now.items costs v.items) }
    ensures served { AreServed S.can S.count (length jobs.now.items + 1) workers.old workers.new }
    ensures rest { map S.rest workers.new ≡ map S.rest workers.old }
{
    let (board, pass) = Board::new(alloc, jobs.as_slice().len() as u32, workers.len() as u32)?;
    let (pass, answers) = run_wave(rt, alloc, step, &board, pass, workers, jobs);
    let _drawn = board.close(pass);
    answers
}

/// Does each job once, as `run_wave` does, from a board of its own. Of the workers at most 64 do the jobs, and no more than there are jobs; the
/// others have done nothing.
pub fn all_done<W: Send, J: Sync, D: Send + Drop, S: Step<W, J, D> + Sync, R: Threads + Sync>(
    rt: &R,
    alloc: Global,
    step: &S,
    workers: &mut [W],
    jobs: &Vec<J>,
) -> Result<Vec<D>, NoMemory>
    requires some { 0 < length workers.old }
    requires few { length jobs.now.items < 2 ^ 32 }
    requires lawful { AreLawful (S.lawful step.now) jobs.now.items }
    requires room { AllCan S.can (length jobs.now.items + 1) workers.old }
    ensures counted { (costs : List (Option Costs)) × AreSpent (S.spent step.now) jobs.now.items costs × ((i : ℕ) → sum_by (S.count i) workers.new ≡ sum_by (S.count i) workers.old + sum_by (cost_in i) costs) × IfOk result (λ v. AreAnswered (S.right step.now) jobs.now.items costs v.items) }
    ensures served { AreServed S.can S.count (length jobs.now.items + 1) workers.old workers.new }
    ensures rest { map S.rest workers.new ≡ map S.rest workers.old }
{
    let count = crew_of(workers.len(), jobs.as_slice().len());
    let (crew, _resting) = workers.split_at_mut(count);
    let answers = crew_done(rt, alloc, step, crew, jobs)?;
    Ok(answers)
}
