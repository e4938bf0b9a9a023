//! The kit of packages by the rules of Go.
ghost use Rattle.std.specs.Prelude.{◌≡◌, ◌+◌, ◌<◌, ◌^◌, Err, IfOk, OnOk, OnErr, length};
ghost use Rattle.action_graph.specs.Analyzing.{AreGivenOnce, AreRunOutcomes};
ghost use Rattle.action_graph.specs.Judging.{IfAccepted, IsLawful, IsReadable, IsOutcome, IsStuck, load_text};
ghost use Rattle.go_kit.specs.Keeping.{IsStore};
ghost use Rattle.go_kit.specs.Loading.{IsKeeping, IsLoadOf};
ghost use Rattle.go_kit.specs.Reading.{IsUnread, RefusesUnmarked};

use crate::analyzing::analyzed;
use crate::kept::Kept;
use crate::loaded::Loaded;
use crate::loading::load_package;
use crate::storing::{chosen, released, stored};
use action_graph::{Kit, Load, LoadInput, RunOf, RunOutcome, Trees, Unloaded};
use gv_base::NoMemory;
use std::alloc::Global;

/// Loads packages by the typing rules of Go and runs analyzers over them, and counts both. It takes any texts, and what comes of those that it can
/// read is their outcome. Where a file is too long or doesn't parse, where there are 2^32 files or more, where an export text spells nothing that is
/// seen of a package of the path beside it, or where the types of these can't all be declared, the package is refused with no mark. What it has
/// read of a path it keeps for the next load that has the same text there, so that each text is read once as long as it stays; an accepted package
/// has it meanwhile, until it is given back. What comes of a load or a run doesn't depend on that.
#[derive(Drop)]
pub struct GoKit {
    alloc: Global,
    loads: u64,
    runs: u64,
    kept: Option<Kept>,
}

impl GoKit {
    /// A kit that has loaded nothing.
    pub fn new(alloc: Global) -> Self
        ensures loads { result.loads ≡ 0 }
        ensures runs { result.runs ≡ 0 }
        ensures kept { IsStore result.kept }
    {
        GoKit {
            alloc,
            loads: 0,
            runs: 0,
            kept: None,
        }
    }

    /// How many loads it has done.
    pub fn loads(&self) -> u64
        ensures { result ≡ self.now.loads }
    {
        self.loads
    }

    /// How many runs of analyzers it has done.
    pub fn runs(&self) -> u64
        ensures { result ≡ self.now.runs }
    {
        self.runs
    }
}

impl Kit for GoKit {
    type Loaded = Loaded;

    ghost loads = { λ k. k.loads };

    ghost runs = { λ k. k.runs };

    ghost holds = { λ k. IsStore k.kept };

    ghost is_of = { λ l input. IsLoadOf l input };

    ghost keeps = { λ l. IsKeeping l };

    fn clear(&mut self)
        ensures holds { IsStore self.new.kept }
        ensures loads { self.new.loads ≡ self.old.loads }
        ensures runs { self.new.runs ≡ self.old.runs }
    {
        self.kept = None;
    }

    fn load(&mut self, input: &LoadInput, trees: Option<Trees>) -> Result<Load<Loaded>, Unloaded>
        requires loads { self.old.loads < 2 ^ 63 }
        requires holds { IsStore self.old.kept }
        ensures holds { IsStore self.new.kept }
        ensures right { IsLawful input.now → IfOk result (λ load. IsOutcome input.now (load_text load)) }
        ensures read { IsReadable input.now → IfOk result (λ load. IsOutcome input.now (load_text load)) }
        ensures unread { IsUnread input.now → IfOk result (λ load. RefusesUnmarked (load_text load)) }
        ensures is_of { IfOk result (λ load. IfAccepted load (λ l. IsLoadOf l input.now)) }
        ensures keeps { IfOk result (λ load. IfAccepted load IsKeeping) }
        ensures circle { result ≡ Err Unloaded.Stuck → IsStuck input.now }
        ensures counted { OnOk result (self.new.loads ≡ self.old.loads + 1) }
        ensures refused { OnErr result (self.new.loads ≡ self.old.loads) }
        ensures runs { self.new.runs ≡ self.old.runs }
    {
        let (before, aside) = chosen(self.kept.take(), input.env.as_slice());
        let (load, after) = load_package(self.alloc, before, input, trees)?;
        self.kept = stored(aside, after);
        self.loads += 1;
        Ok(load)
    }

    fn analyze(
        &mut self,
        loaded: &Loaded,
        load: &LoadInput,
        asked: &[RunOf],
    ) -> Result<Vec<RunOutcome>, NoMemory>
        requires runs { self.old.runs + length asked.now < 2 ^ 63 }
        requires holds { IsStore self.old.kept }
        requires is_of { IsLoadOf loaded.now load.now }
        requires apart { AreGivenOnce asked.now }
        ensures holds { IsStore self.new.kept }
        ensures size { IfOk result (λ outcomes. length outcomes.items ≡ length asked.now) }
        ensures right { IfOk result (λ outcomes. AreRunOutcomes load.now asked.now outcomes.items) }
        ensures counted { OnOk result (self.new.runs ≡ self.old.runs + length asked.now) }
        ensures refused { OnErr result (self.new.runs ≡ self.old.runs) }
        ensures loads { self.new.loads ≡ self.old.loads }
    {
        let outcomes = analyzed(self.alloc, loaded, load, asked)?;
        self.runs += asked.len() as u64;
        Ok(outcomes)
    }

    fn release(&mut self, loaded: Loaded)
        requires holds { IsStore self.old.kept }
        requires keeps { IsKeeping loaded }
        ensures holds { IsStore self.new.kept }
        ensures loads { self.new.loads ≡ self.old.loads }
        ensures runs { self.new.runs ≡ self.old.runs }
    {
        let after = released(self.alloc, loaded);
        self.kept = stored(self.kept.take(), after);
    }
}
