//! One file: which of its functions never return, and which of its statements can't be reached.
ghost use Rattle.std.specs.Prelude.{◌<◌, ◌^◌, length};
ghost use Rattle.go_tree.specs.Pieces.{Spelled};

use crate::calls::calls_of;
use crate::comments::{Line, expected, found, is_set};
use crate::functions::{Declared, bodies_of, functions_of, start_of};
use anyhow::{Result, bail};
use file_flow::{file_graph, file_labels, unreached_in};
use flow::Call;
use go_tree::FileTree;
use gv_base::NoMemory;
use never_returns::{FileFlow, Function, never_returning};
use parse_file::{FileVerdict, parse_file};
use std::alloc::Global;

/// The most bytes of a file.
const LIMIT: usize = 1 << 24;

/// The most functions of a file.
const MOST: usize = 1 << 30;

/// Which functions never return.
fn never_flags(
    alloc: Global,
    tree: &FileTree,
    text: &[u8],
    calls: &[Call],
    functions: &[Function],
) -> Result<Vec<bool>, NoMemory>
    requires spelled { Spelled tree.now.tokens text.now tree.now }
    requires few { length functions.now < 2 ^ 32 }
{
    let found = file_labels(alloc, tree, text)?;
    let labels = found.as_slice();
    let graph = file_graph(alloc, tree, text, labels)?;
    let file = FileFlow {
        tree,
        labels,
        graph: &graph,
        calls,
    };
    let flags = never_returning(alloc, &[file], functions)?;
    Ok(flags)
}

/// The places of those whose flag is set.
fn flagged_places(
    alloc: Global,
    tree: &FileTree,
    declared: &[Declared],
    flags: &[bool],
) -> Result<Vec<u32>, NoMemory> {
    let mut places = Vec::new(alloc);
    for i in 0..declared.len() {
        if is_set(flags, i) {
            places.push(start_of(tree, declared[i].node))?;
        }
    }
    Ok(places)
}

/// Where the functions begin that never return.
fn never_places(
    alloc: Global,
    tree: &FileTree,
    text: &[u8],
    declared: &[Declared],
) -> Result<Vec<u32>, NoMemory>
    requires { Spelled tree.now.tokens text.now tree.now }
{
    let calls = calls_of(alloc, tree, text, declared)?;
    let bodies = bodies_of(alloc, declared)?;
    if bodies.as_slice().len() > MOST {
        return Ok(Vec::new(alloc));
    }
    let flags = never_flags(alloc, tree, text, &calls, &bodies)?;
    let places = flagged_places(alloc, tree, declared, &flags)?;
    Ok(places)
}

/// Where the statements begin that can't be reached.
fn unreached_places(alloc: Global, tree: &FileTree, text: &[u8]) -> Result<Vec<u32>, NoMemory>
    requires { Spelled tree.now.tokens text.now tree.now }
{
    let numbers = unreached_in(alloc, tree, text)?;
    let mut places = Vec::new(alloc);
    for n in &numbers {
        places.push(start_of(tree, *n))?;
    }
    Ok(places)
}

/// What is found of each line.
fn lines_of(alloc: Global, tree: &FileTree, text: &[u8]) -> Result<Vec<Line>, NoMemory>
    requires { Spelled tree.now.tokens text.now tree.now }
{
    let declared = functions_of(alloc, tree, text)?;
    let never = never_places(alloc, tree, text, &declared)?;
    let unreached = unreached_places(alloc, tree, text)?;
    let lines = found(alloc, text, &never, &unreached)?;
    Ok(lines)
}

/// Prints where a line differs from what is expected of it.
fn compare_line(rt: &impl Print, name: &str, number: u64, want: Line, line: Line) -> Result<()> {
    if want.never != line.never {
        let says = if line.never { "" } else { "no " };
        println!(rt; "{name}: line {number}: found {says}function that never returns")?;
    }
    if want.unreached != line.unreached {
        let says = if line.unreached { "" } else { "no " };
        println!(rt; "{name}: line {number}: found {says}statement that can't be reached")?;
    }
    Ok(())
}

/// Prints a line for each difference, and how many were found.
fn compare(rt: &impl Print, name: &str, wanted: &[Line], lines: &[Line]) -> Result<()> {
    let mut number = 0u64;
    let mut never = 0u64;
    let mut unreached = 0u64;
    for line in lines {
        let want = wanted
            .get(number as usize)
            .copied()
            .unwrap_or(Line::NOTHING);
        number = number.saturating_add(1);
        compare_line(rt, name, number, want, *line)?;
        if line.never {
            never = never.saturating_add(1);
        }
        if line.unreached {
            unreached = unreached.saturating_add(1);
        }
    }
    println!(rt;
        "{name}: lines {number}, functions that never return {never}, statements that can't be reached {unreached}"
    )?;
    Ok(())
}

fn run_tree(rt: &impl Print, alloc: Global, name: &str, text: &[u8], tree: &FileTree) -> Result<()>
    requires { Spelled tree.now.tokens text.now tree.now }
{
    let Ok(lines) = lines_of(alloc, tree, text) else {
        bail!("no memory");
    };
    let Ok(wanted) = expected(alloc, text) else {
        bail!("no memory");
    };
    compare(rt, name, &wanted, &lines)
}

/// Judges the file, and prints how its comments compare.
pub fn run_file(rt: &impl Print, alloc: Global, name: &str, text: &[u8]) -> Result<()> {
    if text.len() > LIMIT {
        bail!("too long");
    }
    match parse_file(alloc, text) {
        Ok(FileVerdict::Parsed(tree)) => run_tree(rt, alloc, name, text, &tree),
        Ok(FileVerdict::Syntax { offset }) => Ok(println!(rt; "{name}: no Go from byte {offset}")?),
        Ok(_) => Ok(println!(rt; "{name}: no Go")?),
        Err(_) => bail!("no memory"),
    }
}
