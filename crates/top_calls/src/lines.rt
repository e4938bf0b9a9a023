//! What goes out: replies and lines.
ghost use Rattle.std.specs.Prelude.{◌≡◌, ◌≤◌, ◌+◌, None, Some, Err, drop, length};
ghost use Rattle.top_calls.specs.Ends.{refusal};
ghost use Rattle.folder.specs.Folders.{OnlyWhereRose};
ghost use Rattle.top_calls.specs.Headline.{keeper_faults};
ghost use Rattle.top_calls.specs.Turn.{Says, HandsOut, SaysLast};

use crate::desk::Answer;
use crate::keep::keep;
use crate::session::Session;
use crate::stop::{Cut, Stop};
use gv_base::{Keeper, Sink, Unwritten, write_all};
use scripts::Halt;
use std::alloc::Global;

/// Writes a text.
pub(crate) fn say<O: Sink>(text: &[u8], output: &mut O) -> Result<(), Cut>
    ensures says { Says (O.view output.old) (O.view output.new) text.now result }
    ensures sink_fault { OnlyWhereRose (O.view output.old).faults (O.view output.new).faults (result ≡ Err Cut.Sink) }
    ensures stalled { OnlyWhereRose (O.view output.old).stalls (O.view output.new).stalls (result ≡ Err Cut.Stalled) }
{
    match write_all(output, text) {
        Ok(()) => Ok(()),
        Err(Unwritten::Failed) => Err(Cut::Sink),
        Err(Unwritten::Stuck) => Err(Cut::Stalled),
    }
}

/// Writes the reply to the command of the first `len` pending bytes, stores the cache after a run, and passes
/// over the command.
pub(crate) fn hand_out<K: Keeper, O: Sink>(
    session: &mut Session,
    len: usize,
    answer: &Answer,
    keeper: &mut K,
    output: &mut O,
) -> Option<Stop>
    requires { len ≤ length session.old.pending }
    ensures hands { HandsOut (O.view output.old) (O.view output.new) len answer.now.reply answer.now.ran session.old session.new (K.view keeper.old).kept (K.view keeper.new).kept result }
    ensures step { result ≡ None → (session.new.offset ≡ session.old.offset + len) × (session.new.pending ≡ drop len session.old.pending) × (session.new.desk ≡ session.old.desk) }
    ensures keeper_fault { OnlyWhereRose (keeper_faults (K.view keeper.old)) (keeper_faults (K.view keeper.new)) (result ≡ Some (Stop.Broken Cut.Keeper)) }
    ensures sink_fault { OnlyWhereRose (O.view output.old).faults (O.view output.new).faults (result ≡ Some (Stop.Broken Cut.Sink)) }
    ensures stalled { OnlyWhereRose (O.view output.old).stalls (O.view output.new).stalls (result ≡ Some (Stop.Broken Cut.Stalled)) }
{
    if let Err(cut) = say(answer.reply.as_slice(), output) {
        return Some(Stop::Broken(cut));
    }
    if answer.ran {
        if let Err(cut) = keep(&session.desk.cache, keeper) {
            return Some(Stop::Broken(cut));
        }
    }
    session.skip(len);
    None
}

/// Writes the line of a halt, and ends so.
fn say_last<O: Sink>(line: &[u8], halt: Halt, found: bool, output: &mut O) -> Stop
    ensures says { SaysLast (O.view output.old) (O.view output.new) line.now halt found result }
    ensures sink_fault { OnlyWhereRose (O.view output.old).faults (O.view output.new).faults (result ≡ Stop.Broken Cut.Sink) }
    ensures stalled { OnlyWhereRose (O.view output.old).stalls (O.view output.new).stalls (result ≡ Stop.Broken Cut.Stalled) }
{
    match say(line, output) {
        Ok(()) => Stop::Halted(halt, found),
        Err(cut) => Stop::Broken(cut),
    }
}

/// Refuses the command that the pending bytes are in the place of.
pub(crate) fn refuse<O: Sink>(alloc: Global, session: &Session, output: &mut O) -> Stop
    ensures says { SaysLast (O.view output.old) (O.view output.new) (refusal session.now.offset) Halt.Refused session.now.desk.found result }
    ensures sink_fault { OnlyWhereRose (O.view output.old).faults (O.view output.new).faults (result ≡ Stop.Broken Cut.Sink) }
    ensures stalled { OnlyWhereRose (O.view output.old).stalls (O.view output.new).stalls (result ≡ Stop.Broken Cut.Stalled) }
{
    let offset = session.offset;
    match format!(in alloc; "script refused at {offset}\n") {
        Ok(line) => say_last(line.as_bytes(), Halt::Refused, session.desk.found, output),
        Err(_) => Stop::Broken(Cut::Memory),
    }
}
