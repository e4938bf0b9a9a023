//! Two packages that don't import each other, loaded side by side: the load that begins first waits until the other has begun.
ghost use Rattle.std.specs.Prelude.{◌≡◌};
ghost use Rattle.go_kit.specs.Keeping.{IsStore};
ghost use Rattle.go_kit.specs.Loading.{IsKeeping, IsLoadOf};

use go_kit::{GoKit, Kit, Load, LoadInput, Loaded, RunOf, RunOutcome, Trees, Unloaded};
use gv_base::{MemSink, NoMemory, SureKeeper, SureSource};
use std::alloc::Global;
use std::random::RandomSource;
use std::sync::atomic::AtomicU64;
use std::sync::atomic::Ordering::SeqCst;
use std::test::Fail;
use std::thread::Threads;
use top_calls::call::session;
use top_calls::key::key_of;
use top_calls::options::ToolOptions;

/// A kit whose loads wait until two have begun, and that notes whether these came.
#[derive(Drop)]
struct Meeting<'a> {
    kit: GoKit,
    begun: &'a AtomicU64,
    met: bool,
}

impl<'a> Meeting<'a> {
    fn new(alloc: Global, begun: &'a AtomicU64) -> Self
        ensures loads { result.kit.loads ≡ 0 }
        ensures runs { result.kit.runs ≡ 0 }
    {
        Meeting {
            kit: GoKit::new(alloc),
            begun,
            met: true,
        }
    }
}

/// Whether two have begun within 100 million turns.
fn two_came(begun: &AtomicU64) -> bool {
    for turn in 0..100_000_000u64 {
        let _ = turn;
        if begun.load(SeqCst) >= 2 {
            return true;
        }
    }
    false
}

impl<'a> Kit for Meeting<'a> {
    type Loaded = Loaded;

    ghost loads = { λ m. m.kit.loads };

    ghost runs = { λ m. m.kit.runs };

    ghost holds = { λ m. IsStore m.kit.kept };

    ghost is_of = { λ l input. IsLoadOf l input };

    ghost keeps = { λ l. IsKeeping l };

    fn clear(&mut self) {
        self.kit.clear();
    }

    fn load(&mut self, input: &LoadInput, trees: Option<Trees>) -> Result<Load<Loaded>, Unloaded> {
        self.begun.fetch_add(1, SeqCst);
        self.met &= two_came(self.begun);
        self.kit.load(input, trees)
    }

    fn analyze(
        &mut self,
        loaded: &Loaded,
        load: &LoadInput,
        asked: &[RunOf],
    ) -> Result<Vec<RunOutcome>, NoMemory> {
        self.kit.analyze(loaded, load, asked)
    }

    fn release(&mut self, loaded: Loaded) {
        self.kit.release(loaded);
    }
}

/// Whether the kit did one load, and the other came meanwhile.
fn met_at_its_load(meeting: &Meeting<'_>) -> bool {
    meeting.met && meeting.kit.loads() == 1
}

const TWO_PACKAGES: &[u8] = b"put a/a.go 10\npackage a\n\nput b/b.go 10\npackage b\n\ncheck\n";

/// Whether the loads of a check by two workers meet.
fn meet<R: Threads + Sync + RandomSource>(rt: &R, alloc: Global) -> Result<bool, Fail> {
    let begun = AtomicU64::new(0);
    let mut kits = [Meeting::new(alloc, &begun), Meeting::new(alloc, &begun)];
    let mut keeper = SureKeeper::new(alloc, None);
    let mut input = SureSource::new(TWO_PACKAGES.to_vec(alloc)?);
    let mut output = MemSink::new(Vec::new(alloc), Vec::new(alloc), Vec::new(alloc));
    let options = ToolOptions {
        workers: 2,
        ..ToolOptions::PLAIN
    };
    let status = session(
        rt,
        alloc,
        key_of(rt),
        &options,
        &mut keeper,
        &mut input,
        &mut output,
        &mut kits,
    );
    Ok(status == 0 && met_at_its_load(&kits[0]) && met_at_its_load(&kits[1]))
}

#[test]
fn two_jobs_meet(rt: HostRuntime) -> Result<(), Fail> {
    assert!(rt; meet(&rt, rt.alloc())?);
    Ok(())
}
