//! The bytes of a reply, in the form that is asked for.
ghost use Rattle.std.specs.Prelude.{IfOk};
ghost use Rattle.report_text.specs.ReplyStanding.{ReplyStands};
ghost use Rattle.tree_runs.specs.Reports.{IsPrinted, IsPrintedJson};

use crate::report::Form;
use analysis_core::{Command, Reply};
use gv_base::{Bytes, Files, NoMemory};
use report_text::{json, last, text};
use std::alloc::Global;

/// JSON where the command is `report`, else the lines.
fn printed_json(
    alloc: Global,
    files: &Files,
    asked: Command,
    reply: &Reply,
) -> Result<Bytes, NoMemory>
    requires { ReplyStands files.now asked reply.now }
    ensures { IfOk result (IsPrintedJson files.now asked reply.now) }
{
    match asked {
        Command::Check => text(alloc, reply, files, Command::Check),
        Command::Report => json(alloc, reply, files),
        Command::Facts => text(alloc, reply, files, Command::Facts),
        Command::Fix => text(alloc, reply, files, Command::Fix),
    }
}

/// The bytes of a reply to a command in a form.
pub(crate) fn printed(
    alloc: Global,
    files: &Files,
    form: Form,
    asked: Command,
    reply: &Reply,
) -> Result<Bytes, NoMemory>
    requires { ReplyStands files.now asked reply.now }
    ensures { IfOk result (IsPrinted form files.now asked reply.now) }
{
    match form {
        Form::Text => text(alloc, reply, files, asked),
        Form::Json => printed_json(alloc, files, asked, reply),
        Form::Last => last(alloc, asked, reply),
    }
}
