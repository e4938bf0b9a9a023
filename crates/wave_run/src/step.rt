//! What workers do with jobs.
ghost use Rattle.std.specs.Prelude.{◌≡◌, ◌+◌, ℕ, IfOk};
ghost use Rattle.wave_run.specs.Passes.{number_of};
ghost use Rattle.wave_run.specs.Waves.{Costs};

use crate::board::Ticket;
use gv_base::NoMemory;

/// How a worker `W` does a job `J`, of which comes an answer `D`. The first three ghost members may read the step itself, which
/// all workers share.
pub trait Step<W, J, D> {
    ghost use Rattle.wave_run.specs.Waves.{Costs};

    /// For which number a job is lawful.
    ghost lawful: { Self → ℕ → J → Type 0 };

    /// How much a job may take of each count, whether memory is wanting or not.
    ghost spent: { Self → J → Costs → Type 0 };

    /// Which answers of a job are right, where it took so much.
    ghost right: { Self → J → Costs → D → Type 0 };

    /// A worker can do so many jobs more.
    ghost can: { ℕ → W → Type 0 };

    /// What a worker has counted, by the number of the count.
    ghost count: { ℕ → W → ℕ };

    /// What else a worker has, which no step changes.
    ghost rest: { W → ℕ };

    /// Does the job of the ticket's number, and spends the ticket. The worker's counts rise by what the job took; its rest stays.
    fn step(&self, worker: &mut W, ticket: Ticket, job: &J) -> Result<D, NoMemory>
        requires lawful { lawful self.now (number_of ticket) job.now }
        requires can { (n : ℕ) × can (n + 1) worker.old }
        ensures can { (n : ℕ) → can (n + 1) worker.old → can n worker.new }
        ensures took { (costs : Costs) × spent self.now job.now costs × ((i : ℕ) → count i worker.new ≡ count i worker.old + costs i) × IfOk result (λ d. right self.now job.now costs d) }
        ensures rest { rest worker.new ≡ rest worker.old };
}
