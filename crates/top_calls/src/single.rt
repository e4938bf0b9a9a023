//! A single run over a tree outside.
ghost use Rattle.std.specs.Prelude.{◌≡◌, ◌≢◌, ◌<◌, ◌^◌, ◌↔◌, length, sum_by, true};
ghost use Rattle.folder.specs.Folders.{AreAtPaths, OnlyWhereRose};
ghost use Rattle.top_calls.specs.Headline.{keeper_faults};
ghost use Rattle.top_calls.specs.Single.{RunsOn, SingleRuns};
ghost use Rattle.top_calls.specs.Workers.{DidAtMost};
ghost use Rattle.tree_runs.specs.Reports.{work};

use crate::desk::task_of;
use crate::folders::{read_files, write_changed};
use crate::keep::{keep, open};
use crate::lines::say;
use crate::options::ToolOptions;
use crate::stop::{Cut, Stop};
use crate::top::greeting;
use analysis_core::Command as Kind;
use fact_cache::{Cache, Key};
use gv_base::{Files, Keeper, Sink, Tree};
use scripts::Halt;
use std::alloc::Global;
use std::thread::Threads;
use tree_runs::{Kit, Unloaded, nothing_heard, one_report_of_a_tree, run};

/// Whether a cache of so many entries before and after a run is as it was: it has as many, and nothing was missing. Of one without entries it isn't
/// said, since the keeper may hold nothing, or bytes that spell no cache.
fn is_still(before: usize, after: usize, missing: u32) -> bool
    ensures { (result ≡ true) ↔ (0 < before) × (after ≡ before) × (missing ≡ 0) }
{
    if before == 0 {
        return false;
    }
    if after != before {
        return false;
    }
    if missing > 0 {
        return false;
    }
    true
}

/// Runs over files that were read: writes the changed files, then the reply, and then stores the cache, unless it is as it was found: the
/// keeper holds its text.
pub(crate) fn run_on<T: Tree, K: Keeper, O: Sink, W: Kit + Send, R: Threads + Sync>(
    rt: &R,
    alloc: Global,
    options: &ToolOptions,
    kind: Kind,
    files: &Files,
    cache: &mut Cache,
    tree: &mut T,
    keeper: &mut K,
    output: &mut O,
    kits: &mut [W],
) -> Stop
where
    W::Loaded: Send,
    requires some { 0 < length kits.old }
    requires room { DidAtMost W.loads W.runs (2 ^ 61) kits.old }
    requires paths { AreAtPaths files.now }
    ensures size { length kits.new ≡ length kits.old }
    ensures runs_on { RunsOn options.now kind (O.view output.old) (O.view output.new) (T.view tree.old).files (T.view tree.new).files (K.view keeper.old).kept (K.view keeper.new).kept (work (sum_by W.loads kits.old) (sum_by W.runs kits.old)) (work (sum_by W.loads kits.new) (sum_by W.runs kits.new)) files.now cache.old result }
    ensures tree_fault { OnlyWhereRose (T.view tree.old).faults (T.view tree.new).faults (result ≡ Stop.Broken Cut.Tree) }
    ensures keeper_fault { OnlyWhereRose (keeper_faults (K.view keeper.old)) (keeper_faults (K.view keeper.new)) (result ≡ Stop.Broken Cut.Keeper) }
    ensures sink_fault { OnlyWhereRose (O.view output.old).faults (O.view output.new).faults (result ≡ Stop.Broken Cut.Sink) }
    ensures stalled { OnlyWhereRose (O.view output.old).stalls (O.view output.new).stalls (result ≡ Stop.Broken Cut.Stalled) }
    ensures not_source { result ≢ Stop.Broken Cut.Source }
{
    one_report_of_a_tree();
    let task = task_of(options, kind);
    let mut heard = nothing_heard(alloc);
    let before = cache.count();
    match run(rt, alloc, files, task, &mut heard, cache, kits) {
        Err(Unloaded::NoMemory) => Stop::Broken(Cut::Memory),
        Err(Unloaded::Stuck) => Stop::Broken(Cut::Circle),
        Ok(report) => match write_changed(tree, report.changed.as_slice()) {
            Err(cut) => Stop::Broken(cut),
            Ok(()) => match say(report.text.as_slice(), output) {
                Err(cut) => Stop::Broken(cut),
                Ok(()) => {
                    let after = cache.count();
                    if is_still(before, after, report.counts.missing) {
                        return Stop::Halted(Halt::Ended, report.found);
                    }
                    match keep(cache, keeper) {
                        Err(cut) => Stop::Broken(cut),
                        Ok(()) => Stop::Halted(Halt::Ended, report.found),
                    }
                }
            },
        },
    }
}

/// One run over the tree, with the cache that the keeper has. The cache is of this key, on which no answer depends.
pub fn single<T: Tree, K: Keeper, O: Sink, W: Kit + Send, R: Threads + Sync>(
    rt: &R,
    alloc: Global,
    key: Key,
    options: &ToolOptions,
    kind: Kind,
    tree: &mut T,
    keeper: &mut K,
    output: &mut O,
    kits: &mut [W],
) -> Stop
where
    W::Loaded: Send,
    requires some { 0 < length kits.old }
    requires room { DidAtMost W.loads W.runs (2 ^ 61) kits.old }
    ensures size { length kits.new ≡ length kits.old }
    ensures runs { SingleRuns options.now kind (O.view output.old) (O.view output.new) (T.view tree.old).files (T.view tree.new).files (K.view keeper.old).kept (K.view keeper.new).kept (work (sum_by W.loads kits.old) (sum_by W.runs kits.old)) (work (sum_by W.loads kits.new) (sum_by W.runs kits.new)) result }
    ensures tree_fault { OnlyWhereRose (T.view tree.old).faults (T.view tree.new).faults (result ≡ Stop.Broken Cut.Tree) }
    ensures keeper_fault { OnlyWhereRose (keeper_faults (K.view keeper.old)) (keeper_faults (K.view keeper.new)) (result ≡ Stop.Broken Cut.Keeper) }
    ensures sink_fault { OnlyWhereRose (O.view output.old).faults (O.view output.new).faults (result ≡ Stop.Broken Cut.Sink) }
    ensures stalled { OnlyWhereRose (O.view output.old).stalls (O.view output.new).stalls (result ≡ Stop.Broken Cut.Stalled) }
    ensures not_source { result ≢ Stop.Broken Cut.Source }
{
    match open(alloc, key, keeper) {
        Err(cut) => Stop::Broken(cut),
        Ok(opening) => match say(greeting(opening.ignored), output) {
            Err(cut) => Stop::Broken(cut),
            Ok(()) => match read_files(alloc, tree) {
                Err(cut) => Stop::Broken(cut),
                Ok(files) => {
                    let mut cache = opening.cache;
                    run_on(
                        rt, alloc, options, kind, &files, &mut cache, tree, keeper, output, kits,
                    )
                }
            },
        },
    }
}
