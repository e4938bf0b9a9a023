//! What was read of the files of a report, for the next report.
ghost use Rattle.std.specs.Prelude.{◌≡◌, ◌≤◌, ◌&&◌, length, IfOk, IfSome};
ghost use Rattle.std.specs.Str.{bytes_eq};
ghost use Rattle.tree_report.specs.Keeping.{IsHeard};
ghost use Rattle.tree_report.specs.Telling.{IsTold};

use crate::heads::head_if;
use crate::read::Told;
use go_tree::Head;
use gv_base::{Bytes, NoMemory, Text};
use parse_file::FileVerdict;
use std::alloc::Global;

/// The files of a tree that was read, the head of each, and why it is refused.
#[derive(Drop)]
pub struct Heard {
    pub files: Vec<(Text, Bytes)>,
    pub heads: Vec<Option<Head>>,
    pub refusals: Vec<Option<FileVerdict>>,
}

/// Before any report nothing was read.
pub fn nothing_heard(alloc: Global) -> Heard
    ensures { IsHeard result }
{
    Heard {
        files: Vec::new(alloc),
        heads: Vec::new(alloc),
        refusals: Vec::new(alloc),
    }
}

/// Whether this is the file of this path and of these bytes.
fn is_file(file: &(Text, Bytes), path: &str, text: &[u8]) -> bool
    ensures { result ≡ (bytes_eq file.now.0 path.now && bytes_eq file.now.1 text.now) }
{
    if file.0.as_str().as_bytes() != path.as_bytes() {
        return false;
    }
    file.1.as_slice() == text
}

/// Whether the file of this number that was read is the same. Only speed rests on it.
pub fn is_held(heard: &Heard, at: usize, path: &str, text: &[u8]) -> bool {
    if at >= heard.files.len() {
        return false;
    }
    is_file(&heard.files[at], path, text)
}

/// The first of these files, from this one on, whose path doesn't stand before this path; their count where there is none. Only speed rests
/// on its being the right one.
pub fn place_from(files: &[(Text, Bytes)], from: usize, path: &str) -> usize
    ensures { result ≤ length files.now }
{
    for place in from..files.len() {
        if files[place].0.as_str().as_bytes() >= path.as_bytes() {
            return place;
        }
    }
    files.len()
}

/// What is told of a file, where the file of this number that was read is the same and isn't refused.
pub fn told_again(
    alloc: Global,
    heard: &Heard,
    at: usize,
    path: &str,
    text: &[u8],
) -> Result<Option<Told>, NoMemory>
    requires { IsHeard heard.now }
    ensures { IfOk result (λ told. IfSome told (IsTold (path.now, text.now))) }
{
    if at >= heard.files.len() {
        return Ok(None);
    }
    if !is_file(&heard.files[at], path, text) {
        return Ok(None);
    }
    if heard.refusals[at].is_some() {
        return Ok(None);
    }
    let head = head_if(alloc, &heard.heads[at])?;
    Ok(Some(Told {
        head,
        refusal: None,
        tree: None,
    }))
}
