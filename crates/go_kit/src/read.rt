//! The trees of a package's files.
ghost use Rattle.std.specs.Prelude.{◌≡◌, ◌≤◌, ◌^◌, List, length, map, IfOk, IfSome, MatchOption, Some, None};
ghost use Rattle.go_tree.specs.declared.tree.FileTree.{FileTree};
ghost use Rattle.parse_file.specs.Verdict.{IsParsed, IsVerdict};
ghost use Rattle.action_graph.specs.Judging.{text_of};
ghost use Rattle.go_kit.specs.Reading.{IsFileOf, AreFilesOf, IsShort};

use action_graph::Trees;
use go_tree::FileTree;
use gv_base::{Bytes, NoMemory, Text};
use parse_file::{FileVerdict, parse_file};
use std::alloc::Global;

/// The tree, if its nodes can be counted.
fn keep_small(tree: FileTree) -> Option<FileTree>
    ensures kept { IfSome result (λ kept. (kept ≡ tree) × (length tree.nodes ≤ 2 ^ 32)) }
    ensures none { result ≡ None → length tree.nodes ≤ 2 ^ 32 → ⊥ }
{
    if tree.nodes.as_slice().len() <= 1 << 32 {
        return Some(tree);
    }
    None
}

/// The tree of a text with this verdict, if it has one.
fn small_tree(text: &[u8], verdict: FileVerdict) -> Option<FileTree>
    requires verdict { IsVerdict text.now verdict }
    requires short { IsShort text.now }
    ensures { MatchOption result ((tree : FileTree) → IsFileOf text.now tree → ⊥) (λ tree. IsFileOf text.now tree) }
{
    match verdict {
        FileVerdict::Parsed(tree) => keep_small(tree),
        FileVerdict::Lexical { offset: _, why: _ } => None,
        FileVerdict::Syntax { offset: _ } => None,
        FileVerdict::TooDeep { offset: _ } => None,
    }
}

/// The tree of a text that was parsed before, if it was.
fn found_tree(parsed: &mut Option<Trees>, text: &[u8]) -> Option<FileTree>
    ensures { IfSome result (λ tree. IsParsed text.now tree) }
{
    match parsed {
        Some(trees) => trees.next_of(text),
        None => None,
    }
}

/// The verdict of a text of which this tree was found, or of which none was.
fn verdict_of(alloc: Global, text: &[u8], found: Option<FileTree>) -> Result<FileVerdict, NoMemory>
    requires short { IsShort text.now }
    requires found { IfSome found (λ tree. IsParsed text.now tree) }
    ensures { IfOk result (λ verdict. IsVerdict text.now verdict) }
{
    match found {
        Some(tree) => Ok(FileVerdict::Parsed(tree)),
        None => {
            let verdict = parse_file(alloc, text)?;
            Ok(verdict)
        }
    }
}

/// The tree of a text. None where it has more than 2^24 bytes, doesn't parse, or has too many nodes.
fn read_file(
    alloc: Global,
    text: &[u8],
    parsed: &mut Option<Trees>,
) -> Result<Option<FileTree>, NoMemory>
    ensures { IfOk result (λ read. MatchOption read ((tree : FileTree) → IsFileOf text.now tree → ⊥) (λ tree. IsFileOf text.now tree)) }
{
    if text.len() > 1 << 24 {
        return Ok(None);
    }
    let found = found_tree(parsed, text);
    let verdict = verdict_of(alloc, text, found)?;
    Ok(small_tree(text, verdict))
}

/// The trees of some files; None where one has none.
pub(crate) fn read_files(
    alloc: Global,
    files: &[(Text, Bytes)],
    parsed: Option<Trees>,
) -> Result<Option<Vec<FileTree>>, NoMemory>
    ensures { IfOk result (λ read. MatchOption read
        ((trees : List FileTree) → AreFilesOf (map text_of files.now) trees → ⊥)
        (λ trees. AreFilesOf (map text_of files.now) trees.items)) }
{
    let mut parsed = parsed;
    let mut trees = Vec::new(alloc);
    for file in files {
        let read = read_file(alloc, file.1.as_slice(), &mut parsed)?;
        match read {
            Some(tree) => trees.push(tree)?,
            None => return Ok(None),
        }
    }
    Ok(Some(trees))
}
