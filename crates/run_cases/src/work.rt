//! Marks written and read, and which nodes are ready.
ghost use Rattle.std.specs.Prelude.{◌≡◌, IfOk, length};

use crate::told::{add, number, said, unread};
use action_graph::{ActionNode, MarkLine, PackageLine, read_marks, ready, write_marks};
use bundles::bytes_of;
use gv_base::{NoMemory, Place, Row};
use std::alloc::Global;

/// Adds a mark: its file, its place, whether it is a limit's, and its number.
fn add_mark(alloc: Global, out: &mut Vec<u8>, mark: &MarkLine) -> Result<(), NoMemory> {
    let sort = if mark.limit { "limit" } else { "rule" };
    let text = format!(in alloc;
        "{} {} {sort} {}, ",
        mark.at.file, mark.at.offset, mark.number
    )?;
    add(out, text.as_str())
}

/// `TEXT`: the marks that it spells, and how they are written.
fn marks(alloc: Global, input: &str) -> Result<Vec<u8>, NoMemory> {
    let bytes = bytes_of(alloc, input)?;
    let Some(marks) = read_marks(alloc, &bytes)? else {
        return said(alloc, "none");
    };
    let mut out = Vec::new(alloc);
    for mark in &marks {
        add_mark(alloc, &mut out, mark)?;
    }
    let again = write_marks(alloc, &marks)?;
    out.extend_from_slice(again.as_slice())?;
    Ok(out)
}

/// The mark of `FILE:OFFSET:SORT:NUMBER`.
fn mark_of(word: &str) -> MarkLine {
    let mut fields = word.split(':');
    let file = number(fields.next().unwrap_or(""));
    let offset = number(fields.next().unwrap_or(""));
    let limit = fields.next().unwrap_or("") == "limit";
    let number = (number(fields.next().unwrap_or("")) % 256) as u8;
    MarkLine {
        at: Place { file, offset },
        limit,
        number,
    }
}

/// `MARK ..`: their text.
fn written(alloc: Global, input: &str) -> Result<Vec<u8>, NoMemory> {
    let mut marks = Vec::new(alloc);
    for word in input.split(' ') {
        if !word.is_empty() {
            marks.push(mark_of(word))?;
        }
    }
    let text = write_marks(alloc, &marks)?;
    Ok(text)
}

fn row(alloc: Global, numbers: &[u32]) -> Result<Row<u32>, NoMemory> {
    Ok(Row::new(numbers.to_vec(alloc)?))
}

fn line(imports: Row<u32>, stub: bool) -> PackageLine {
    let sound = true;
    PackageLine {
        imports,
        sound,
        stub,
    }
}

/// Package 0 imports 1, which imports the stub 2.
fn three_packages(alloc: Global) -> Result<Vec<PackageLine>, NoMemory>
    ensures { IfOk result (λ v. length v.items ≡ 3) }
{
    let mut lines = Vec::new(alloc);
    lines.push(line(row(alloc, &[1])?, false))?;
    lines.push(line(row(alloc, &[2])?, false))?;
    lines.push(line(row(alloc, &[])?, true))?;
    Ok(lines)
}

fn three_environments(alloc: Global) -> Result<Vec<Row<u32>>, NoMemory>
    ensures { IfOk result (λ v. length v.items ≡ 3) }
{
    let mut rows = Vec::new(alloc);
    rows.push(row(alloc, &[1])?)?;
    rows.push(row(alloc, &[2])?)?;
    rows.push(row(alloc, &[])?)?;
    Ok(rows)
}

/// The node of `PACKAGE` or `PACKAGE:ANALYZER`.
fn node_of(word: &str) -> ActionNode {
    match word.split_once(":") {
        Some((of, analyzer)) => ActionNode::Run((number(analyzer) % 256) as u8, number(of)),
        None => ActionNode::Load(number(word)),
    }
}

/// The nodes of words.
fn nodes_of(alloc: Global, words: &str) -> Result<Vec<ActionNode>, NoMemory> {
    let mut nodes = Vec::new(alloc);
    for word in words.split(' ') {
        if !word.is_empty() {
            nodes.push(node_of(word))?;
        }
    }
    Ok(nodes)
}

/// Whether the words have this number among them.
fn has(words: &str, wanted: u32) -> bool {
    for word in words.split(' ') {
        if number(word) == wanted {
            return true;
        }
    }
    false
}

fn ready_of_three(
    alloc: Global,
    done: &[ActionNode],
    accepted: &[bool; 3],
    only: u16,
) -> Result<Vec<ActionNode>, NoMemory> {
    let lines = three_packages(alloc)?;
    let rows = three_environments(alloc)?;
    let nodes = ready(alloc, done, accepted, &lines, &rows, only)?;
    Ok(nodes)
}

/// `NODES, PACKAGES, ANALYZERS`: what is done, which packages are accepted, the bits of the chosen analyzers; which nodes are ready.
fn ready_nodes(alloc: Global, input: &str) -> Result<Vec<u8>, NoMemory> {
    let mut parts = input.split(", ");
    let done = nodes_of(alloc, parts.next().unwrap_or(""))?;
    let words = parts.next().unwrap_or("");
    let accepted = [has(words, 0), has(words, 1), has(words, 2)];
    let only = (number(parts.next().unwrap_or("")) % 65536) as u16;
    let nodes = ready_of_three(alloc, &done, &accepted, only)?;
    let mut out = Vec::new(alloc);
    for node in &nodes {
        let text = format!(in alloc; "{node:?} ")?;
        add(&mut out, text.as_str())?;
    }
    Ok(out)
}

/// The answer to the input of a case of this file.
pub fn answer(alloc: Global, name: &str, input: &str) -> Result<Vec<u8>, NoMemory> {
    match name {
        "marks" => marks(alloc, input),
        "ready" => ready_nodes(alloc, input),
        "written" => written(alloc, input),
        _ => unread(alloc),
    }
}
