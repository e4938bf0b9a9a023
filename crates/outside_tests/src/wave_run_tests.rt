ghost use Rattle.std.specs.Prelude.{◌≡◌, ◌+◌, ◌<◌, ◌≤◌, ◌^◌, ℕ, IfOk, length, Some, slice_get};

use gv_base::NoMemory;
use std::alloc::Global;
use std::sync::atomic::AtomicU64;
use std::sync::atomic::Ordering::SeqCst;
use std::test::Fail;
use std::thread::Threads;
use wave_run::{Board, Step, Ticket, run_wave};

/// A worker that counts its jobs, and was given a number.
#[derive(Drop)]
struct Worker {
    done: u64,
    given: u64,
}

/// A job that has its number.
#[derive(Drop)]
struct Job {
    number: u32,
}

/// Twice a job's number, and whether those came for whom the job waited.
#[derive(Drop)]
struct Doubled {
    value: u64,
    met: bool,
}

/// For whom jobs wait.
#[derive(Drop)]
enum Gate {
    /// For nobody.
    Open,
    /// Each job, until so many have begun.
    Meet(u64),
    /// One job, until so many have ended.
    Wait { job: u64, ended: u64 },
    /// For nobody, but memory is wanting for one job.
    Refuse(u64),
}

/// Doubles the numbers of jobs.
#[derive(Drop)]
struct Doubling {
    begun: AtomicU64,
    ended: AtomicU64,
    gate: Gate,
}

impl Doubling {
    fn behind(gate: Gate) -> Doubling {
        Doubling {
            begun: AtomicU64::new(0),
            ended: AtomicU64::new(0),
            gate,
        }
    }

    /// Whether those came for whom the job of this number waits.
    fn meets(&self, number: u64) -> bool {
        match &self.gate {
            Gate::Open => true,
            Gate::Meet(count) => comes_to(&self.begun, *count),
            Gate::Wait { job, ended } => number != *job || comes_to(&self.ended, *ended),
            Gate::Refuse(_) => true,
        }
    }

    fn refuses(&self, number: u64) -> bool {
        match &self.gate {
            Gate::Refuse(job) => number == *job,
            _ => false,
        }
    }
}

/// Whether the word comes to a number within 100 million turns.
fn comes_to(word: &AtomicU64, least: u64) -> bool {
    for turn in 0..100_000_000u64 {
        let _ = turn;
        if word.load(SeqCst) >= least {
            return true;
        }
    }
    false
}

impl Step<Worker, Job, Doubled> for Doubling {
    ghost lawful = { λ s number job. job.number ≡ number };

    ghost spent = { λ s job costs. costs 0 ≤ 1 };

    ghost right = { λ s job costs d. (costs 0 ≡ 1) × (d.value ≡ job.number + job.number) };

    ghost can = { λ jobs w. w.done + jobs < 2 ^ 63 };

    ghost count = { λ i w. w.done };

    ghost rest = { λ w. w.given };

    fn step(&self, worker: &mut Worker, ticket: Ticket, job: &Job) -> Result<Doubled, NoMemory> {
        let number = ticket.number() as u64;
        self.begun.fetch_add(1, SeqCst);
        if self.refuses(number) {
            return Err(NoMemory);
        }
        let met = self.meets(number);
        self.ended.fetch_add(1, SeqCst);
        worker.done += 1;
        let value = job.number as u64 + number;
        Ok(Doubled { value, met })
    }
}

/// So many workers, each given its place.
fn crew(alloc: Global, count: u32) -> Result<Vec<Worker>, NoMemory>
    ensures size { IfOk result (λ v. length v.items ≡ count) }
    ensures idle { IfOk result (λ v. (k : ℕ) (w : Worker) → slice_get v.items k ≡ Some w → w.done ≡ 0) }
{
    let mut workers = Vec::new(alloc);
    for place in 0..count {
        workers.push(Worker {
            done: 0,
            given: place as u64,
        })?;
    }
    Ok(workers)
}

fn numbered(alloc: Global, count: u32) -> Result<Vec<Job>, NoMemory>
    ensures size { IfOk result (λ v. length v.items ≡ count) }
    ensures each { IfOk result (λ v. (k : ℕ) (job : Job) → slice_get v.items k ≡ Some job → job.number ≡ k) }
{
    let mut jobs = Vec::new(alloc);
    for number in 0..count {
        jobs.push(Job { number })?;
    }
    Ok(jobs)
}

/// How many jobs the workers did, or none where one has not what it was given.
fn done_by(workers: &[Worker]) -> Option<u64> {
    let mut done = 0u64;
    for (place, worker) in workers.iter().enumerate() {
        if worker.given != place as u64 {
            return None;
        }
        done = done.wrapping_add(worker.done);
    }
    Some(done)
}

/// Whether each place has twice its number, and all met for whom they waited.
fn are_doubled(answers: &[Doubled]) -> bool {
    for (number, answer) in answers.iter().enumerate() {
        if answer.value != 2 * number as u64 || !answer.met {
            return false;
        }
    }
    true
}

/// Whether so many workers double the numbers below a count, each once, and each worker draws one number more.
fn doubles<R: Threads + Sync>(
    rt: &R,
    alloc: Global,
    gate: Gate,
    workers: u32,
    count: u32,
) -> Result<bool, NoMemory>
    requires { (0 < workers) × (workers ≤ 64) }
{
    let step = Doubling::behind(gate);
    let mut crew = crew(alloc, workers)?;
    let jobs = numbered(alloc, count)?;
    let (board, pass) = Board::new(alloc, count, workers)?;
    let (pass, answers) = run_wave(rt, alloc, &step, &board, pass, crew.as_mut_slice(), &jobs);
    let answers = answers?;
    let drawn = board.close(pass);
    Ok(
        answers.len() == count as usize
            && are_doubled(&answers)
            && done_by(&crew) == Some(count as u64)
            && drawn == count as u64 + workers as u64,
    )
}

/// Whether a wave ends without answers where memory is wanting for one job. The worker that drew it stops, and the others do all
/// other jobs; where there are no others, it has done those before.
fn ends_without<R: Threads + Sync>(
    rt: &R,
    alloc: Global,
    job: u32,
    workers: u32,
    count: u32,
) -> Result<bool, NoMemory>
    requires { (0 < workers) × (workers ≤ 64) × (job < count) }
{
    let step = Doubling::behind(Gate::Refuse(job as u64));
    let mut crew = crew(alloc, workers)?;
    let jobs = numbered(alloc, count)?;
    let (board, pass) = Board::new(alloc, count, workers)?;
    let (pass, answers) = run_wave(rt, alloc, &step, &board, pass, crew.as_mut_slice(), &jobs);
    let drawn = board.close(pass);
    let done = if workers == 1 { job } else { count - 1 };
    Ok(
        answers.is_err()
            && done_by(&crew) == Some(done as u64)
            && drawn == done as u64 + workers as u64,
    )
}

#[test]
fn each_job_is_done_once(rt: HostRuntime) -> Result<(), Fail> {
    for workers in [1u32, 2, 8, 64] {
        for count in [0u32, 1, 63, 64, 65, 100_000] {
            assert!(rt; doubles(&rt, rt.alloc(), Gate::Open, workers, count)?);
        }
    }
    Ok(())
}

#[test]
fn two_jobs_meet(rt: HostRuntime) -> Result<(), Fail> {
    assert!(rt; doubles(&rt, rt.alloc(), Gate::Meet(2), 2, 2)?);
    Ok(())
}

#[test]
fn one_job_waits(rt: HostRuntime) -> Result<(), Fail> {
    for job in 0..3u64 {
        assert!(rt; doubles(&rt, rt.alloc(), Gate::Wait { job, ended: 2 }, 2, 3)?);
    }
    Ok(())
}

#[test]
fn memory_is_wanting_for_one_worker(rt: HostRuntime) -> Result<(), Fail> {
    for workers in [1u32, 2, 8, 64] {
        for job in [0u32, 31, 63] {
            assert!(rt; ends_without(&rt, rt.alloc(), job, workers, 64)?);
        }
    }
    Ok(())
}

/// The number of a ticket.
fn number_in(ticket: Option<Ticket>) -> Option<u32> {
    let ticket = ticket?;
    Some(ticket.number())
}

#[test]
fn passes_are_cut_and_meet(rt: HostRuntime) -> Result<(), Fail> {
    let (board, first) = Board::new(rt.alloc(), 3, 3)?;
    let (mut first, mut second) = board.split(first, 1);
    assert!(rt; number_in(board.draw(&mut second)) == Some(0));
    assert!(rt; number_in(board.draw(&mut first)) == Some(1));
    let (mut first, mut third) = board.split(first, 1);
    assert!(rt; number_in(board.draw(&mut third)) == Some(2));
    assert!(rt; number_in(board.draw(&mut first)).is_none());
    let all = board.meet(second, first);
    let mut all = board.meet(third, all);
    assert!(rt; board.jobs() == 3 && board.look(&mut all) == 4);
    assert!(rt; number_in(board.draw(&mut all)).is_none());
    assert!(rt; board.close(all) == 5);
    Ok(())
}
