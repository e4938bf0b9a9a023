//! Whether a run's reply can be printed.
ghost use Rattle.std.specs.Prelude.{◌≡◌, ◌<◌, IsTrue, All, ◌↔◌, length, slice_index_or};
ghost use Rattle.analysis_core.specs.declared.command.Command.TheVariants.{Fix};
ghost use Rattle.analysis_core.specs.Replies.{fix_spots};
ghost use Rattle.report_text.specs.Standing.{LiesIn};
ghost use Rattle.report_text.specs.ReplyStanding.{FoundStands, Earlier, is_fixed, FixesStand, ReplyStands};

use crate::stand::{all_stand, lies};
use analysis_core::{Command, FoundLine, Reply};
use fix_apply::Choice;
use gv_base::Files;

fn found_stands(files: &Files, line: &FoundLine) -> bool
    ensures { IsTrue result ↔ FoundStands files.now line.now }
{
    lies(files, line.diagnostic.place)
}

fn all_found_stand(files: &Files, found: &[FoundLine]) -> bool
    ensures { IsTrue result ↔ All (FoundStands files.now) found.now }
{
    for line in found {
        if !found_stands(files, line) {
            return false;
        }
    }
    true
}

fn is_earlier(count: usize, choice: Choice) -> bool
    ensures { IsTrue result ↔ Earlier count choice }
{
    match choice {
        Choice::Applied => true,
        Choice::Overlaps(first) => (first as usize) < count,
    }
}

fn choice_numbered(choices: &[Choice], n: usize) -> Choice
    requires { n < length choices.now }
    ensures { result ≡ slice_index_or choices.now n result }
{
    choices[n]
}

fn are_earlier(count: usize, choices: &[Choice]) -> bool
    ensures { IsTrue result ↔ All (Earlier count) choices.now }
{
    for n in 0..choices.len() {
        let choice = choice_numbered(choices, n);
        if !is_earlier(count, choice) {
            return false;
        }
    }
    true
}

fn is_fixed(line: &FoundLine) -> bool
    ensures { result ≡ is_fixed line.now.diagnostic.fix }
{
    match &line.diagnostic.fix {
        None => false,
        Some(_) => true,
    }
}

fn count_fixes(found: &[FoundLine]) -> usize
    ensures { result ≡ length (fix_spots found.now) }
{
    let mut rest = found;
    let mut count = 0;
    while let [line, more @ ..] = rest {
        if is_fixed(line) {
            count += 1;
        }
        rest = more;
    }
    count
}

fn fixes_stand(reply: &Reply) -> bool
    ensures { IsTrue result ↔ FixesStand reply.now }
{
    let choices = reply.choices.as_slice();
    let count = count_fixes(reply.diagnostics.as_slice());
    if choices.len() != count {
        return false;
    }
    are_earlier(count, choices)
}

/// Tells whether the reply can be printed for this command: the places of its lines stand in the files, as `all_stand`
/// tells of error lines, and for `fix` there is a choice for each fix, and each fix that is overlapped is one of them.
pub fn reply_stands(files: &Files, asked: Command, reply: &Reply) -> bool
    ensures { IsTrue result ↔ ReplyStands files.now asked reply.now }
{
    if !all_stand(files, reply.errors.as_slice()) {
        return false;
    }
    if !all_found_stand(files, reply.diagnostics.as_slice()) {
        return false;
    }
    match asked {
        Command::Check => true,
        Command::Report => true,
        Command::Facts => true,
        Command::Fix => fixes_stand(reply),
    }
}
