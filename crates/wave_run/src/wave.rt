//! Each job of a wave, done once by one of the workers.
ghost use Rattle.std.specs.Prelude.{◌≡◌, ◌<◌, ◌≤◌, ◌+◌, ◌^◌, ◌++◌, ◌∷◌, [], ℕ, List, Option, IfOk, OnOk, length, map, sum_by, IsOk};
ghost use Rattle.std.specs.Thread.{IsSync, IsSend};
ghost use Rattle.wave_run.specs.Numbers.{AreBelow};
ghost use Rattle.wave_run.specs.Views.{hand};
ghost use Rattle.wave_run.specs.Passes.{IsPassOf, IsSamePass, view, parts_of, jobs_of};
ghost use Rattle.wave_run.specs.Waves.{AllCan, AreLawful, AreAnswered, AreServed, AreSpent, Costs, cost_in};
ghost use Rattle.wave_run.specs.Turns.{HasTurned, HasWorked};
ghost use Rattle.wave_run.specs.Forks.{MayFork, IsForked};

use crate::board::{Board, Pass};
use crate::both::both;
use crate::place::ordered;
use crate::step::Step;
use gv_base::NoMemory;
use std::alloc::Global;
use std::thread::Threads;

/// One draw, and the step of the job that was drawn.
fn turn<W, J, D, S: Step<W, J, D>>(
    step: &S,
    board: &Board,
    jobs: &Vec<J>,
    pass: &mut Pass,
    worker: &mut W,
) -> Result<Option<(u32, D)>, NoMemory>
    requires board { jobs_of board.now ≡ length jobs.now.items }
    requires pass { IsPassOf board.now pass.old }
    requires lawful { AreLawful (S.lawful step.now) jobs.now.items }
    requires can { (n : ℕ) × S.can (n + 1) worker.old }
    ensures of { IsSamePass pass.old pass.new }
    ensures rest { S.rest worker.new ≡ S.rest worker.old }
    ensures drawn { (n : ℕ) × (view pass.new ≡ hand (view pass.old).parts ((view pass.old).drawn ++ n ∷ [])) × HasTurned (S.right step.now) (S.spent step.now) S.can S.count jobs.now.items n worker.old worker.new result }
{
    match board.draw(pass) {
        None => Ok(None),
        Some(ticket) => {
            let number = ticket.number();
            let answer = step.step(worker, ticket, &jobs[number as usize])?;
            Ok(Some((number, answer)))
        }
    }
}

/// What one worker does: it draws and steps until a number is no job's. It stops where memory is wanting; the other workers
/// go on.
fn work<W, J, D: Drop, S: Step<W, J, D>>(
    alloc: Global,
    step: &S,
    board: &Board,
    jobs: &Vec<J>,
    pass: &mut Pass,
    worker: &mut W,
) -> Result<Vec<(u32, D)>, NoMemory>
    requires board { jobs_of board.now ≡ length jobs.now.items }
    requires pass { IsPassOf board.now pass.old }
    requires lawful { AreLawful (S.lawful step.now) jobs.now.items }
    requires can { S.can (length jobs.now.items + 1) worker.old }
    ensures of { IsSamePass pass.old pass.new }
    ensures rest { S.rest worker.new ≡ S.rest worker.old }
    ensures worked { HasWorked (S.right step.now) (S.spent step.now) S.can S.count jobs.now.items (view pass.old) (view pass.new) worker.old worker.new result }
{
    let mut found = Vec::new(alloc);
    for _turn in 0..board.jobs() as u64 + 1 {
        let next = turn(step, board, jobs, pass, worker)?;
        match next {
            None => return Ok(found),
            Some(answer) => found.push(answer)?,
        }
    }
    Ok(found)
}

/// Both lists, where memory was wanting for neither.
fn joined<D: Drop>(
    a: Result<Vec<(u32, D)>, NoMemory>,
    b: Result<Vec<(u32, D)>, NoMemory>,
) -> Result<Vec<(u32, D)>, NoMemory>
    ensures { IfOk result (λ v. IfOk a (λ x. IfOk b (λ y. v.items ≡ x.items ++ y.items)) × IsOk a × IsOk b) }
{
    let mut all = a?;
    let mut more = b?;
    all.append(&mut more)?;
    Ok(all)
}

/// What the workers do, forked by halves, each half with as many parts of the board as it has workers.
fn fork<W: Send, J: Sync, D: Send + Drop, S: Step<W, J, D> + Sync, R: Threads + Sync>(
    rt: &R,
    alloc: Global,
    step: &S,
    board: &Board,
    jobs: &Vec<J>,
    pass: &mut Pass,
    workers: &mut [W],
) -> Result<Vec<(u32, D)>, NoMemory>
    requires { MayFork (S.lawful step.now) S.can board.now jobs.now.items pass.old workers.old }
    ensures { IsForked (S.right step.now) (S.spent step.now) S.can S.count S.rest jobs.now.items pass.old pass.new workers.old workers.new result }
{
    if workers.len() == 1 {
        return work(alloc, step, board, jobs, pass, &mut workers[0]);
    }
    let half = workers.len() / 2;
    let mut other = board.split_off(pass, half as u32);
    let (left, right) = workers.split_at_mut(workers.len() - half);
    let each = |pass: &mut Pass, part: &mut [W]| -> Result<Vec<(u32, D)>, NoMemory>
        requires { IsSync R.row × IsSync S.row × IsSync J.row × IsSend W.row × IsSend D.row × MayFork (S.lawful step.now) S.can board.now jobs.now.items pass.now part.now }
        ensures { IsForked (S.right step.entry.now) (S.spent step.entry.now) S.can S.count S.rest jobs.entry.now.items pass.entry.now pass.exit.now part.entry.now part.exit.now result }
    { fork(rt, alloc, step, board, jobs, pass, part) };
    let (a, b) = both(rt, &each, pass, left, &mut other, right);
    board.absorb(pass, other);
    joined(a, b)
}

/// Does each job once. Each worker draws numbers of jobs from the board and does what it drew, until there are no more. The
/// answers stand by the jobs' numbers, whichever worker did which job. At `NoMemory` all workers have come to their end as
/// well, and the answers that there were are dropped.
///
/// There are from 1 to 64 workers and fewer than 2^32 jobs; the board was made for the number of jobs, with as many parts as
/// there are workers, and the pass has all parts and has drawn nothing. A thread more is started for each worker but the first;
/// where none can be made its work is done by another.
pub fn run_wave<W: Send, J: Sync, D: Send + Drop, S: Step<W, J, D> + Sync, R: Threads + Sync>(
    rt: &R,
    alloc: Global,
    step: &S,
    board: &Board,
    pass: Pass,
    workers: &mut [W],
    jobs: &Vec<J>,
) -> (Pass, Result<Vec<D>, NoMemory>)
    requires workers { (0 < length workers.old) × (length workers.old ≤ 64) }
    requires few { length jobs.now.items < 2 ^ 32 }
    requires lawful { AreLawful (S.lawful step.now) jobs.now.items }
    requires room { AllCan S.can (length jobs.now.items + 1) workers.old }
    requires board { (jobs_of board.now ≡ length jobs.now.items) × (parts_of board.now ≡ length workers.old) }
    requires pass { IsPassOf board.now pass × (view pass ≡ hand (length workers.old) []) }
    // The pass comes back with all parts.
    ensures pass { IsPassOf board.now result.0 × ((view result.0).parts ≡ length workers.old) }
    // It has drawn the numbers below the count of its draws, each once.
    ensures once { AreBelow (length (view result.0).drawn) (view result.0).drawn }
    // With answers these are the jobs' numbers, and one number more for each worker.
    ensures drawn { OnOk result.1 (AreBelow (length jobs.now.items + length workers.old) (view result.0).drawn) }
    // Each job was begun at most once, and the counts rose by what the begun ones took, also at NoMemory. With answers all were.
    ensures counted { (costs : List (Option Costs)) × AreSpent (S.spent step.now) jobs.now.items costs × ((i : ℕ) → sum_by (S.count i) workers.new ≡ sum_by (S.count i) workers.old + sum_by (cost_in i) costs) × IfOk result.1 (λ v. AreAnswered (S.right step.now) jobs.now.items costs v.items) }
    // Each worker has done at most that many jobs and one, has lost no count, and can do all others still.
    ensures served { AreServed S.can S.count (length jobs.now.items + 1) workers.old workers.new }
    ensures rest { map S.rest workers.new ≡ map S.rest workers.old }
{
    let mut pass = pass;
    let found = fork(rt, alloc, step, board, jobs, &mut pass, workers);
    let _drawn = board.look(&mut pass);
    let answers = ordered(alloc, jobs.as_slice().len(), found);
    (pass, answers)
}
