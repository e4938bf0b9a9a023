//! The head of each file of a tree, why it is refused, and its tree for the load of its package.
ghost use Rattle.std.specs.Prelude.{◌≡◌, ◌≤◌, ◌^◌, true, length, IfOk};
ghost use Rattle.import_graph.specs.Sources.{is_source};
ghost use Rattle.tree_report.specs.Lines.{refusal_in, refusal_of};
ghost use Rattle.tree_report.specs.Reading.{IsRead, head_by, head_in};
ghost use Rattle.parse_file.specs.Verdict.{IsVerdict};
ghost use Rattle.tree_report.specs.Keeping.{IsHeard};
ghost use Rattle.tree_report.specs.Readings.{IsToldAt, MayTell};
ghost use Rattle.tree_report.specs.Telling.{IsTold};

use crate::heard::{Heard, told_again};
use crate::readings::Reading;
use go_tree::Head;
use gv_base::{Bytes, Files, NoMemory};
use gv_driver::ParsedFile;
use import_graph::is_source;
use parse_file::{FileVerdict, parse_file};
use std::alloc::Global;

/// The verdict of a file; `None` of one that is no source file.
fn read(alloc: Global, path: &[u8], text: &[u8]) -> Result<Option<FileVerdict>, NoMemory>
    requires { is_source path.now ≡ true → length text.now ≤ 2 ^ 24 }
    ensures { IfOk result (λ verdict. IsRead (path.now, text.now) verdict) }
{
    if !is_source(path) {
        return Ok(None);
    }
    let verdict = parse_file(alloc, text)?;
    Ok(Some(verdict))
}

/// The head of a file with this verdict.
fn head_by(alloc: Global, text: &[u8], verdict: &FileVerdict) -> Result<Option<Head>, NoMemory>
    ensures { IfOk result (λ head. head ≡ head_by text.now verdict.now) }
{
    match verdict {
        FileVerdict::Parsed(tree) => {
            let head = tree.head(alloc, text)?;
            Ok(Some(head))
        }
        FileVerdict::Lexical { .. } => Ok(None),
        FileVerdict::Syntax { .. } => Ok(None),
        FileVerdict::TooDeep { .. } => Ok(None),
    }
}

/// The head of a file of which this is known.
fn head_in(
    alloc: Global,
    path: &str,
    text: &[u8],
    verdict: &Option<FileVerdict>,
) -> Result<Option<Head>, NoMemory>
    ensures { IfOk result (λ head. head ≡ head_in (path.now, text.now) verdict.now) }
{
    match verdict {
        None => Ok(None),
        Some(verdict) => {
            let head = head_by(alloc, text, verdict)?;
            Ok(head)
        }
    }
}

/// Why a file with this verdict is refused, or else the file with its tree. The bytes have one holder more.
fn parts_in(
    alloc: Global,
    bytes: &Bytes,
    verdict: FileVerdict,
) -> Result<(Option<FileVerdict>, Option<ParsedFile>), NoMemory>
    requires { IsVerdict bytes.now verdict }
    ensures { IfOk result (λ parts. parts.0 ≡ refusal_in verdict) }
{
    match verdict {
        FileVerdict::Parsed(tree) => {
            let held = bytes.copy(alloc)?;
            Ok((None, Some(ParsedFile::new(held, tree))))
        }
        FileVerdict::Lexical { offset, why } => {
            Ok((Some(FileVerdict::Lexical { offset, why }), None))
        }
        FileVerdict::Syntax { offset } => Ok((Some(FileVerdict::Syntax { offset }), None)),
        FileVerdict::TooDeep { offset } => Ok((Some(FileVerdict::TooDeep { offset }), None)),
    }
}

/// The same of a file of which this is known.
fn parts_of(
    alloc: Global,
    path: &str,
    bytes: &Bytes,
    verdict: Option<FileVerdict>,
) -> Result<(Option<FileVerdict>, Option<ParsedFile>), NoMemory>
    requires { IsRead (path.now, bytes.now) verdict }
    ensures { IfOk result (λ parts. parts.0 ≡ refusal_of verdict) }
{
    match verdict {
        Some(verdict) => {
            let parts = parts_in(alloc, bytes, verdict)?;
            Ok(parts)
        }
        None => Ok((None, None)),
    }
}

/// What is kept of a file that was read: its head, and why it is refused; and its tree for the load of its package, where it was parsed for this
/// report.
#[derive(Drop)]
pub struct Told {
    pub head: Option<Head>,
    pub refusal: Option<FileVerdict>,
    pub tree: Option<ParsedFile>,
}

/// What was parsed, where it stays.
fn kept_if(keeps: bool, tree: Option<ParsedFile>) -> Option<ParsedFile> {
    if keeps {
        return tree;
    }
    None
}

/// Reads a file.
fn told_of(
    alloc: Global,
    path: &str,
    text: &[u8],
    bytes: &Bytes,
    keeps: bool,
) -> Result<Told, NoMemory>
    requires small { is_source path.now ≡ true → length text.now ≤ 2 ^ 24 }
    requires same { bytes.now ≡ text.now }
    ensures { IfOk result (IsTold (path.now, text.now)) }
{
    let verdict = read(alloc, path.as_bytes(), text)?;
    let head = head_in(alloc, path, text, &verdict)?;
    let (refusal, tree) = parts_of(alloc, path, bytes, verdict)?;
    Ok(Told {
        head,
        refusal,
        tree: kept_if(keeps, tree),
    })
}

/// What is told of a file: what was told of it for the last report if it is the same, and else by reading it.
fn told_at(
    alloc: Global,
    heard: &Heard,
    reading: &Reading,
    path: &str,
    text: &[u8],
    bytes: &Bytes,
) -> Result<Told, NoMemory>
    requires same { bytes.now ≡ text.now }
    requires small { is_source path.now ≡ true → length text.now ≤ 2 ^ 24 }
    requires kept { IsHeard heard.now }
    ensures { IfOk result (IsTold (path.now, text.now)) }
{
    match told_again(alloc, heard, reading.at, path, text)? {
        Some(told) => Ok(told),
        None => {
            let told = told_of(alloc, path, text, bytes, reading.keeps)?;
            Ok(told)
        }
    }
}

/// What is told of the file of a job.
pub fn told_in(
    alloc: Global,
    files: &Files,
    heard: &Heard,
    reading: &Reading,
) -> Result<Told, NoMemory>
    requires { MayTell files.now heard.now reading.now.file }
    ensures { IfOk result (IsToldAt files.now reading.now.file) }
{
    let file = reading.file;
    let (path, text) = files.at(file);
    let told = told_at(alloc, heard, reading, path, text, &files.entry(file).1)?;
    Ok(told)
}
