//! All that a reply says, in the order of JSON.
ghost use Rattle.std.specs.Prelude.{◌≡◌, ◌++◌, length, IfOk, OnOk};
ghost use Rattle.std.specs.Ordering.{nat_cmp};
ghost use Rattle.std.specs.Cmp.Lexicographic.{slice_cmp};
ghost use Rattle.std.specs.List.Sorted.{IsPermutation, IsSorted};
ghost use Rattle.analysis_core.specs.JsonReplies.{error_said, diagnostic_said, errors_said, found_said, all_said, said_order, IsJson};
ghost use Rattle.analysis_core.specs.declared.command.Command.TheVariants.{Report};
ghost use Rattle.report_text.specs.ReplyStanding.{ReplyStands};

use crate::json_parts::push_line;
use crate::whole::push_limit;
use analysis_core::{ErrorLine, FoundLine, Reply, Said, key_text};
use gv_base::{Bytes, Files, NoMemory};
use std::alloc::Global;
use std::cmp::Ordering;

fn error_said(alloc: Global, number: usize, error: &ErrorLine) -> Result<Said, NoMemory>
    ensures { IfOk result (λ s. s ≡ error_said number error.now) }
{
    let package = error.package.copy(alloc)?;
    let text = error.text.copy(alloc)?;
    Ok(Said {
        package,
        key: 0,
        number,
        place: error.place,
        text,
    })
}

fn diagnostic_said(alloc: Global, number: usize, line: &FoundLine) -> Result<Said, NoMemory>
    ensures { IfOk result (λ s. s ≡ diagnostic_said number line.now) }
{
    let package = line.package.copy(alloc)?;
    let text = line.diagnostic.text.copy(alloc)?;
    Ok(Said {
        package,
        key: line.diagnostic.analyzer,
        number,
        place: Some(line.diagnostic.place),
        text,
    })
}

fn height(said: &Vec<Said>) -> usize
    ensures { result ≡ length said.now.items }
{
    said.as_slice().len()
}

fn add_errors(alloc: Global, said: &mut Vec<Said>, errors: &[ErrorLine]) -> Result<(), NoMemory>
    ensures { OnOk result (said.new.items ≡ said.old.items ++ errors_said (length said.old.items) errors.now) }
{
    let mut rest = errors;
    while let [error, more @ ..] = rest {
        let next = error_said(alloc, height(said), error)?;
        said.push(next)?;
        rest = more;
    }
    Ok(())
}

fn add_found(alloc: Global, said: &mut Vec<Said>, found: &[FoundLine]) -> Result<(), NoMemory>
    ensures { OnOk result (said.new.items ≡ said.old.items ++ found_said (length said.old.items) found.now) }
{
    let mut rest = found;
    while let [line, more @ ..] = rest {
        let next = diagnostic_said(alloc, height(said), line)?;
        said.push(next)?;
        rest = more;
    }
    Ok(())
}

/// All that the reply says, in its order.
fn all_said(alloc: Global, reply: &Reply) -> Result<Vec<Said>, NoMemory>
    ensures { IfOk result (λ said. said.items ≡ all_said reply.now) }
{
    let mut said = Vec::new(alloc);
    add_errors(alloc, &mut said, reply.errors.as_slice())?;
    add_found(alloc, &mut said, reply.diagnostics.as_slice())?;
    Ok(said)
}

fn compare_texts(a: &[u8], b: &[u8]) -> Ordering
    ensures { result ≡ slice_cmp nat_cmp a.now b.now }
{
    a.cmp(b)
}

/// Which of two comes first.
fn compare(a: &Said, b: &Said) -> Ordering
    ensures { result ≡ said_order a.now b.now }
{
    compare_texts(a.package.as_str().as_bytes(), b.package.as_str().as_bytes()).then(compare_texts(
        key_text(a.key).as_bytes(),
        key_text(b.key).as_bytes(),
    ).then(a.number.cmp(&b.number)))
}

fn sort(said: &mut Vec<Said>)
    ensures moved { IsPermutation said.old.items said.new.items }
    ensures sorted { IsSorted said_order said.new.items }
{
    said.sort_unstable_by(|a, b| compare(a, b));
}

/// The reply to `report` as JSON: one line, or the limit line. The places of the reply stand in files of at most 2^31
/// bytes.
pub fn json(alloc: Global, reply: &Reply, files: &Files) -> Result<Bytes, NoMemory>
    requires stand { ReplyStands files.now Report reply.now }
    ensures { IfOk result (IsJson files.now reply.now) }
{
    let mut out = Vec::new(alloc);
    match reply.limit {
        Some(limit) => {
            push_limit(&mut out, limit)?;
            Ok(Bytes::new(out))
        }
        None => {
            let mut said = all_said(alloc, reply)?;
            sort(&mut said);
            push_line(alloc, files, &mut out, &said)?;
            Ok(Bytes::new(out))
        }
    }
}
