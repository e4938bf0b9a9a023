//! The loop of a session.
ghost use Rattle.std.specs.Prelude.{◌≡◌, ◌≢◌, ◌+◌, ◌*◌, ◌^◌, ◌<◌, ◌≤◌, Some, None, Err, IfOk, [], length, sum_by};
ghost use Rattle.top_calls.specs.Desk.{IsReady, greeting_of};
ghost use Rattle.top_calls.specs.Workers.{DidAtMost};
ghost use Rattle.tree_runs.specs.Reports.{work};
ghost use Rattle.scripts.specs.Script.{IsBeginning};
ghost use Rattle.folder.specs.Folders.{OnlyWhereRose};
ghost use Rattle.top_calls.specs.Headline.{keeper_faults};
ghost use Rattle.top_calls.specs.Turn.{Turns, Finishes, Begins, Runs, work_left};

use crate::keep::open;
use crate::lines::{hand_out, refuse, say};
use crate::options::ToolOptions;
use crate::pieces::{Taken, take_piece};
use crate::session::Session;
use crate::stop::{Cut, Stop};
use fact_cache::Key;
use gv_base::{Keeper, Sink, Source};
use scripts::{Halt, Next, next_command};
use std::alloc::Global;
use std::thread::Threads;
use tree_runs::{Kit, Unloaded, one_report_of_a_tree};

/// Ends the session at the end of the input.
fn finish<O: Sink>(alloc: Global, session: &Session, output: &mut O) -> Stop
    requires { IsBeginning session.now.pending }
    ensures finishes { Finishes (O.view output.old) (O.view output.new) session.now result }
    ensures sink_fault { OnlyWhereRose (O.view output.old).faults (O.view output.new).faults (result ≡ Stop.Broken Cut.Sink) }
    ensures stalled { OnlyWhereRose (O.view output.old).stalls (O.view output.new).stalls (result ≡ Stop.Broken Cut.Stalled) }
    ensures others { (result ≢ Stop.Broken Cut.Source) × (result ≢ Stop.Broken Cut.Keeper) }
{
    if session.pending.count() == 0 {
        Stop::Halted(Halt::Ended, session.desk.found)
    } else {
        refuse(alloc, session, output)
    }
}

/// Answers the next command, or takes a piece of the script. A command does at most 16,384 loads and runs of analyzers together, and has a byte.
fn turn<K: Keeper, I: Source, O: Sink, W: Kit + Send, R: Threads + Sync>(
    rt: &R,
    alloc: Global,
    options: &ToolOptions,
    session: &mut Session,
    kits: &mut [W],
    keeper: &mut K,
    input: &mut I,
    output: &mut O,
) -> Option<Stop>
where
    W::Loaded: Send,
    requires some { 0 < length kits.old }
    requires room { DidAtMost W.loads W.runs (2 ^ 61 + 16384 * session.old.offset) kits.old }
    requires ready { IsReady session.old.desk }
    ensures size { length kits.new ≡ length kits.old }
    ensures room { result ≡ None → DidAtMost W.loads W.runs (2 ^ 61 + 16384 * session.new.offset) kits.new }
    ensures ready { result ≡ None → IsReady session.new.desk }
    ensures turns { Turns options.now (I.view input.old) (I.view input.new) (O.view output.old) (O.view output.new) (work (sum_by W.loads kits.old) (sum_by W.runs kits.old)) (work (sum_by W.loads kits.new) (sum_by W.runs kits.new)) (K.view keeper.old).kept (K.view keeper.new).kept session.old session.new result }
    ensures source_fault { OnlyWhereRose (I.view input.old).faults (I.view input.new).faults (result ≡ Some (Stop.Broken Cut.Source)) }
    ensures keeper_fault { OnlyWhereRose (keeper_faults (K.view keeper.old)) (keeper_faults (K.view keeper.new)) (result ≡ Some (Stop.Broken Cut.Keeper)) }
    ensures sink_fault { OnlyWhereRose (O.view output.old).faults (O.view output.new).faults (result ≡ Some (Stop.Broken Cut.Sink)) }
    ensures stalled { OnlyWhereRose (O.view output.old).stalls (O.view output.new).stalls (result ≡ Some (Stop.Broken Cut.Stalled)) }
    ensures progress { result ≡ None → work_left session.new < work_left session.old }
{
    one_report_of_a_tree();
    match next_command(session.pending.as_slice()) {
        Next::Whole(command, len) => {
            if command.is_end() {
                return Some(Stop::Halted(Halt::Ended, session.desk.found));
            }
            match session.desk.apply(rt, alloc, options, command, kits) {
                Ok(answer) => hand_out(session, len, &answer, keeper, output),
                Err(Unloaded::NoMemory) => Some(Stop::Broken(Cut::Memory)),
                Err(Unloaded::Stuck) => Some(Stop::Broken(Cut::Circle)),
            }
        }
        Next::Refused => Some(refuse(alloc, session, output)),
        Next::NeedMore => match take_piece(session, input) {
            Taken::More => None,
            Taken::AtEnd => Some(finish(alloc, session, output)),
            Taken::Over => Some(Stop::Halted(Halt::TooLong, session.desk.found)),
            Taken::Fault => Some(Stop::Broken(Cut::Source)),
            Taken::Full => Some(Stop::Broken(Cut::Memory)),
        },
    }
}

/// The line that goes out first.
pub(crate) fn greeting(ignored: bool) -> &'static [u8]
    ensures { result.now ≡ greeting_of ignored }
{
    if ignored { b"cache ignored\n" } else { b"" }
}

/// Fetches the cache, and tells where there is none in the bytes that were fetched.
fn begin<K: Keeper, O: Sink>(
    alloc: Global,
    key: Key,
    keeper: &mut K,
    output: &mut O,
) -> Result<Session, Cut>
    ensures begins { Begins (O.view output.old) (O.view output.new) (K.view keeper.old).kept (K.view keeper.new).kept result }
    ensures ready { IfOk result (λ session. session.offset + length session.pending ≡ 0) }
    ensures able { IfOk result (λ session. IsReady session.desk) }
    ensures keeper_fault { OnlyWhereRose (keeper_faults (K.view keeper.old)) (keeper_faults (K.view keeper.new)) (result ≡ Err Cut.Keeper) }
    ensures sink_fault { OnlyWhereRose (O.view output.old).faults (O.view output.new).faults (result ≡ Err Cut.Sink) }
    ensures stalled { OnlyWhereRose (O.view output.old).stalls (O.view output.new).stalls (result ≡ Err Cut.Stalled) }
    ensures others { result ≢ Err Cut.Source }
{
    match open(alloc, key, keeper) {
        Err(cut) => Err(cut),
        Ok(opening) => match say(greeting(opening.ignored), output) {
            Err(cut) => Err(cut),
            Ok(()) => Ok(Session::new(alloc, opening.cache)),
        },
    }
}

/// Answers the commands of a script, as they come, to its end.
fn converse<K: Keeper, I: Source, O: Sink, W: Kit + Send, R: Threads + Sync>(
    rt: &R,
    alloc: Global,
    options: &ToolOptions,
    session: &mut Session,
    kits: &mut [W],
    keeper: &mut K,
    input: &mut I,
    output: &mut O,
) -> Stop
where
    W::Loaded: Send,
    requires some { 0 < length kits.old }
    requires room { DidAtMost W.loads W.runs (2 ^ 61 + 16384 * session.old.offset) kits.old }
    requires ready { IsReady session.old.desk }
    ensures size { length kits.new ≡ length kits.old }
    ensures turns { Turns options.now (I.view input.old) (I.view input.new) (O.view output.old) (O.view output.new) (work (sum_by W.loads kits.old) (sum_by W.runs kits.old)) (work (sum_by W.loads kits.new) (sum_by W.runs kits.new)) (K.view keeper.old).kept (K.view keeper.new).kept session.old session.new (Some result) }
    ensures source_fault { OnlyWhereRose (I.view input.old).faults (I.view input.new).faults (result ≡ Stop.Broken Cut.Source) }
    ensures keeper_fault { OnlyWhereRose (keeper_faults (K.view keeper.old)) (keeper_faults (K.view keeper.new)) (result ≡ Stop.Broken Cut.Keeper) }
    ensures sink_fault { OnlyWhereRose (O.view output.old).faults (O.view output.new).faults (result ≡ Stop.Broken Cut.Sink) }
    ensures stalled { OnlyWhereRose (O.view output.old).stalls (O.view output.new).stalls (result ≡ Stop.Broken Cut.Stalled) }
{
    'script: loop {
        if let Some(stop) = turn(rt, alloc, options, session, kits, keeper, input, output) {
            return stop;
        }
    }
}

/// Reads a script, and answers each of its commands. The cache is of this key, on which no answer depends.
pub fn run<K: Keeper, I: Source, O: Sink, W: Kit + Send, R: Threads + Sync>(
    rt: &R,
    alloc: Global,
    key: Key,
    options: &ToolOptions,
    keeper: &mut K,
    input: &mut I,
    output: &mut O,
    kits: &mut [W],
) -> Stop
where
    W::Loaded: Send,
    requires some { 0 < length kits.old }
    requires room { DidAtMost W.loads W.runs (2 ^ 61) kits.old }
    ensures size { length kits.new ≡ length kits.old }
    ensures runs { Runs options.now (I.view input.old) (I.view input.new) (O.view output.old) (O.view output.new) (work (sum_by W.loads kits.old) (sum_by W.runs kits.old)) (work (sum_by W.loads kits.new) (sum_by W.runs kits.new)) (K.view keeper.old).kept (K.view keeper.new).kept result }
    ensures source_fault { OnlyWhereRose (I.view input.old).faults (I.view input.new).faults (result ≡ Stop.Broken Cut.Source) }
    ensures keeper_fault { OnlyWhereRose (keeper_faults (K.view keeper.old)) (keeper_faults (K.view keeper.new)) (result ≡ Stop.Broken Cut.Keeper) }
    ensures sink_fault { OnlyWhereRose (O.view output.old).faults (O.view output.new).faults (result ≡ Stop.Broken Cut.Sink) }
    ensures stalled { OnlyWhereRose (O.view output.old).stalls (O.view output.new).stalls (result ≡ Stop.Broken Cut.Stalled) }
{
    match begin(alloc, key, keeper, output) {
        Err(cut) => Stop::Broken(cut),
        Ok(session) => {
            let mut session = session;
            converse(
                rt,
                alloc,
                options,
                &mut session,
                kits,
                keeper,
                input,
                output,
            )
        }
    }
}
