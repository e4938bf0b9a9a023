//! The whole text of a run's reply.
ghost use Rattle.std.specs.Prelude.{◌≡◌, ◌+◌, ◌++◌, ◌∷◌, [], length, codes, IfOk, OnOk, string_bytes};
ghost use Rattle.std.specs.Fmt.{decimal};
ghost use Rattle.std.specs.Option.{option_map_or};
ghost use Rattle.analysis_core.specs.Replies.{limit_line, last_line, within_limits, reply_text, counted, ending, is_applied, applied, skipped};
ghost use Rattle.report_text.specs.ReplyStanding.{ReplyStands};

use crate::lines::push_middle;
use crate::print::push_errors;
use analysis_core::{Command, Reply, TreeLimit};
use fix_apply::Choice;
use gv_base::{Bytes, Files, NoMemory};
use std::alloc::Global;

fn is_applied(choice: Choice) -> bool
    ensures { result ≡ is_applied choice }
{
    match choice {
        Choice::Applied => true,
        Choice::Overlaps(_) => false,
    }
}

fn count_applied(choices: &[Choice]) -> usize
    ensures { result ≡ applied choices.now }
{
    let mut rest = choices;
    let mut count = 0;
    while let [choice, more @ ..] = rest {
        if is_applied(*choice) {
            count += 1;
        }
        rest = more;
    }
    count
}

fn count_skipped(choices: &[Choice]) -> usize
    ensures { result ≡ skipped choices.now }
{
    let mut rest = choices;
    let mut count = 0;
    while let [choice, more @ ..] = rest {
        if !is_applied(*choice) {
            count += 1;
        }
        rest = more;
    }
    count
}

fn push_counted(alloc: Global, out: &mut Vec<u8>, name: &[u8], n: usize) -> Result<(), NoMemory>
    ensures { OnOk result (out.new.items ≡ out.old.items ++ counted name.now n) }
{
    let digits = format!(in alloc; "{n}")?;
    out.extend_from_slice(name)?;
    out.extend_from_slice(digits.as_bytes())?;
    Ok(())
}

fn push_ending(
    alloc: Global,
    out: &mut Vec<u8>,
    asked: Command,
    reply: &Reply,
) -> Result<(), NoMemory>
    ensures { OnOk result (out.new.items ≡ out.old.items ++ ending asked reply.now) }
{
    match asked {
        Command::Check => Ok(()),
        Command::Report => {
            let count = reply.diagnostics.as_slice().len();
            push_counted(alloc, out, b", diagnostics ", count)?;
            Ok(())
        }
        Command::Facts => {
            let count = reply.facts.as_slice().len();
            push_counted(alloc, out, b", facts ", count)?;
            Ok(())
        }
        Command::Fix => {
            let applied = count_applied(reply.choices.as_slice());
            push_counted(alloc, out, b", fixes ", applied)?;
            let skipped = count_skipped(reply.choices.as_slice());
            push_counted(alloc, out, b", skipped ", skipped)?;
            Ok(())
        }
    }
}

fn push_last(
    alloc: Global,
    out: &mut Vec<u8>,
    asked: Command,
    reply: &Reply,
) -> Result<(), NoMemory>
    ensures { OnOk result (out.new.items ≡ out.old.items ++ last_line asked reply.now) }
{
    push_counted(alloc, out, b"packages ", reply.packages as usize)?;
    let count = reply.errors.as_slice().len();
    push_counted(alloc, out, b", errors ", count)?;
    push_ending(alloc, out, asked, reply)?;
    out.push(b'\n')?;
    Ok(())
}

fn push_within(
    alloc: Global,
    files: &Files,
    out: &mut Vec<u8>,
    asked: Command,
    reply: &Reply,
) -> Result<(), NoMemory>
    requires { ReplyStands files.now asked reply.now }
    ensures { OnOk result (out.new.items ≡ out.old.items ++ within_limits files.now asked reply.now) }
{
    push_errors(alloc, files, out, reply.errors.as_slice())?;
    push_middle(alloc, files, out, asked, reply)?;
    push_last(alloc, out, asked, reply)?;
    Ok(())
}

pub(crate) fn push_limit(out: &mut Vec<u8>, limit: TreeLimit) -> Result<(), NoMemory>
    ensures { OnOk result (out.new.items ≡ out.old.items ++ limit_line limit) }
{
    out.extend_from_slice(b"limit: ")?;
    out.extend_from_slice(limit.text().as_bytes())?;
    out.push(b'\n')?;
    Ok(())
}

/// The bytes of a run's reply to a command: the limit line alone, or the error lines, the lines that the command asks
/// for, and the last line. The places of the reply stand in files of at most 2^31 bytes; for `fix` there is a choice for each
/// fix, and a fix that is overlapped is one of them.
pub fn text(alloc: Global, reply: &Reply, files: &Files, asked: Command) -> Result<Bytes, NoMemory>
    requires stand { ReplyStands files.now asked reply.now }
    ensures { IfOk result (λ bytes. bytes ≡ reply_text files.now asked reply.now) }
{
    let mut out = Vec::new(alloc);
    match reply.limit {
        Some(limit) => {
            push_limit(&mut out, limit)?;
            Ok(Bytes::new(out))
        }
        None => {
            push_within(alloc, files, &mut out, asked, reply)?;
            Ok(Bytes::new(out))
        }
    }
}

/// The last line of a run's reply to a command, or its limit line.
pub fn last(alloc: Global, asked: Command, reply: &Reply) -> Result<Bytes, NoMemory>
    ensures { IfOk result (λ bytes. bytes ≡ option_map_or limit_line reply.now.limit (last_line asked reply.now)) }
{
    let mut out = Vec::new(alloc);
    match reply.limit {
        Some(limit) => {
            push_limit(&mut out, limit)?;
            Ok(Bytes::new(out))
        }
        None => {
            push_last(alloc, &mut out, asked, reply)?;
            Ok(Bytes::new(out))
        }
    }
}
