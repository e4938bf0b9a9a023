//! The calls of a session and of a single run.
ghost use Rattle.std.specs.Prelude.{◌≡◌, ◌⊎◌, ◌^◌, ℕ, List, Option, Some};
ghost use Rattle.top_calls.specs.Due.{IsLawfulKept};
ghost use Rattle.top_calls.specs.Headline.{Causes, IsComplete, IsLawfulHeld, IsLeftOff, NothingRose, Session as Sessions};
ghost use Rattle.top_calls.specs.RunHeadline.{IsRunDone, NoneRose, RunCauses, Single};
ghost use Rattle.top_calls.specs.Workers.{CanWork, DidAtMost, OthersStay, work_of};

use crate::options::ToolOptions;
use crate::single::single;
use crate::top::run;
use analysis_core::Command as Kind;
use fact_cache::Key;
use gv_base::{Keeper, Sink, Source, Tree};
use std::alloc::Global;
use std::thread::Threads;
use tree_runs::{Kit, one_report_of_a_tree};

/// Reads a script from the source, and answers each of its commands on the sink, as soon as the command has been
/// read whole. The cache comes from the keeper, and is stored after each run; it is of this key, on which no answer
/// depends. The first `options.workers` of the kits do the work, and the others stay as they are. The result is the
/// number of a status.
pub fn session<K: Keeper, I: Source, O: Sink, W: Kit + Send, R: Threads + Sync>(
    rt: &R,
    alloc: Global,
    key: Key,
    options: &ToolOptions,
    keeper: &mut K,
    input: &mut I,
    output: &mut O,
    kits: &mut [W],
) -> u8
where
    W::Loaded: Send,
    requires workers { CanWork options.now.workers kits.old }
    requires room { DidAtMost W.loads W.runs (2 ^ 61) kits.old }
    ensures session { Sessions options.now (I.view input.old) (I.view input.new) (O.view output.old) (O.view output.new) (K.view keeper.old) (K.view keeper.new) (work_of W.loads W.runs options.now.workers kits.old) (work_of W.loads W.runs options.now.workers kits.new) result }
    ensures causes { Causes (I.view input.old) (I.view input.new) (O.view output.old) (O.view output.new) (K.view keeper.old) (K.view keeper.new) result }
    ensures lawful { (kept : Option (List ℕ)) → (K.view keeper.old).kept ≡ Some kept → IsLawfulKept kept → IsLawfulHeld (K.view keeper.new).kept }
    ensures complete { (script : List ℕ) → (I.view input.old).left ≡ Some script → NothingRose (I.view input.old) (I.view input.new) (O.view output.old) (O.view output.new) (K.view keeper.old) (K.view keeper.new) → IsComplete options.now script (I.view input.old) (I.view input.new) (O.view output.old) (O.view output.new) (K.view keeper.old) (K.view keeper.new) (work_of W.loads W.runs options.now.workers kits.old) (work_of W.loads W.runs options.now.workers kits.new) result ⊎ IsLeftOff result }
    ensures others { OthersStay options.now.workers kits.old kits.new }
{
    one_report_of_a_tree();
    let (crew, _others) = kits.split_at_mut(options.workers as usize);
    run(rt, alloc, key, options, keeper, input, output, crew).number()
}

/// Runs once over the files of the tree: writes the files that change, then the reply, and stores the cache where it isn't as
/// it was found. The first `options.workers` of the kits do the work, and the others stay as they are. The result is the number of a status.
pub fn one_run<T: Tree, K: Keeper, O: Sink, W: Kit + Send, R: Threads + Sync>(
    rt: &R,
    alloc: Global,
    key: Key,
    options: &ToolOptions,
    kind: Kind,
    tree: &mut T,
    keeper: &mut K,
    output: &mut O,
    kits: &mut [W],
) -> u8
where
    W::Loaded: Send,
    requires workers { CanWork options.now.workers kits.old }
    requires room { DidAtMost W.loads W.runs (2 ^ 61) kits.old }
    ensures single { Single options.now kind (O.view output.old) (O.view output.new) (T.view tree.old) (T.view tree.new) (K.view keeper.old) (K.view keeper.new) (work_of W.loads W.runs options.now.workers kits.old) (work_of W.loads W.runs options.now.workers kits.new) result }
    ensures causes { RunCauses (O.view output.old) (O.view output.new) (T.view tree.old) (T.view tree.new) (K.view keeper.old) (K.view keeper.new) result }
    ensures lawful { (kept : Option (List ℕ)) → (K.view keeper.old).kept ≡ Some kept → IsLawfulKept kept → IsLawfulHeld (K.view keeper.new).kept }
    ensures complete { NoneRose (O.view output.old) (O.view output.new) (T.view tree.old) (T.view tree.new) (K.view keeper.old) (K.view keeper.new) → IsRunDone options.now kind (O.view output.old) (O.view output.new) (T.view tree.old) (T.view tree.new) (K.view keeper.old) (K.view keeper.new) (work_of W.loads W.runs options.now.workers kits.old) (work_of W.loads W.runs options.now.workers kits.new) result ⊎ IsLeftOff result }
    ensures others { OthersStay options.now.workers kits.old kits.new }
{
    one_report_of_a_tree();
    let (crew, _others) = kits.split_at_mut(options.workers as usize);
    single(rt, alloc, key, options, kind, tree, keeper, output, crew).number()
}
