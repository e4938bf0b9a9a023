//! Flags of the statements that can't be reached.
ghost use Rattle.std.specs.Prelude.{◌≡◌, ◌<◌, true, [], length, set, slice_get, IfOk};
ghost use Rattle.go_tree.specs.Pieces.{Spelled};
ghost use Rattle.unit_read.specs.Units.{text_in};
ghost use Rattle.findings.specs.Passes.{unit_in, IsPass};
ghost use Rattle.vet_flow.specs.Unreachable.{AreTreesSpelled, AreUnset, IsSet, IsSetFor, AreSet, AreDeadFlags, IsDeadRow, AreDeadRows};

use file_flow::unreached_in;
use findings::Pass;
use go_tree::FileTree;
use gv_base::NoMemory;
use std::alloc::Global;

// ---- flags of numbers

fn no_flags(alloc: Global, count: usize) -> Result<Vec<bool>, NoMemory>
    ensures { IfOk result (λ flags. AreUnset count flags.items) }
{
    let mut flags = Vec::new(alloc);
    for _n in 0..count {
        flags.push(false)?;
    }
    Ok(flags)
}

fn put_flag(flags: &mut Vec<bool>, n: u32)
    requires { n < length flags.old.items }
    ensures { flags.new.items ≡ set flags.old.items n true }
{
    flags[n as usize] = true;
}

fn set_flag(flags: &mut Vec<bool>, n: u32)
    ensures { IsSet n flags.old.items flags.new.items }
{
    if (n as usize) < flags.len() {
        put_flag(flags, n);
    }
}

fn nth(numbers: &[u32], i: usize) -> Option<u32>
    ensures { result ≡ slice_get numbers.now i }
{
    numbers.get(i).copied()
}

fn set_nth(flags: &mut Vec<bool>, numbers: &[u32], i: usize)
    ensures { IsSetFor (slice_get numbers.now i) flags.old.items flags.new.items }
{
    match nth(numbers, i) {
        Some(n) => set_flag(flags, n),
        None => {}
    }
}

/// So many flags, of which those of the numbers are set.
fn flags_of(alloc: Global, count: usize, numbers: &[u32]) -> Result<Vec<bool>, NoMemory>
    ensures { IfOk result (λ flags. AreSet numbers.now (length numbers.now) count flags.items) }
{
    let mut flags = no_flags(alloc, count)?;
    for i in 0..numbers.len() {
        set_nth(&mut flags, numbers, i);
    }
    Ok(flags)
}

// ---- files

fn node_count(tree: &FileTree) -> usize
    ensures { result ≡ length tree.now.nodes }
{
    tree.nodes.as_slice().len()
}

fn tree_row(alloc: Global, tree: &FileTree, bytes: &[u8]) -> Result<Vec<bool>, NoMemory>
    requires { Spelled tree.now.tokens bytes.now tree.now }
    ensures { IfOk result (λ row. AreDeadFlags bytes.now tree.now row.items) }
{
    let numbers = unreached_in(alloc, tree, bytes)?;
    let row = flags_of(alloc, node_count(tree), &numbers)?;
    Ok(row)
}

fn text_in<'a>(p: &Pass<'a>, file: u32) -> &'a [u8]
    ensures { result.now ≡ text_in (unit_in p.now) file }
{
    let texts = p.subject.texts;
    if (file as usize) < texts.len() {
        texts[file as usize]
    } else {
        &[]
    }
}

fn no_row(alloc: Global) -> Result<Vec<bool>, NoMemory>
    ensures { IfOk result (λ row. row.items ≡ []) }
{
    let row = Vec::new(alloc);
    Ok(row)
}

fn file_row(alloc: Global, p: &Pass, file: u32) -> Result<Vec<bool>, NoMemory>
    requires { AreTreesSpelled (unit_in p.now) }
    ensures { IfOk result (λ row. IsDeadRow (unit_in p.now) file row.items) }
{
    match p.subject.tree_at(file) {
        Some(tree) => {
            let row = tree_row(alloc, tree, text_in(p, file))?;
            Ok(row)
        }
        None => {
            let row = no_row(alloc)?;
            Ok(row)
        }
    }
}

/// A flag for each node of each file of a package: whether it is a statement that can't be reached.
pub fn dead_rows(alloc: Global, p: &Pass) -> Result<Vec<Vec<bool>>, NoMemory>
    requires pass { IsPass p.now }
    requires spelled { AreTreesSpelled (unit_in p.now) }
    ensures { IfOk result (λ rows. AreDeadRows (unit_in p.now) (length p.now.subject.now.trees.now) rows.items) }
{
    let mut rows = Vec::new(alloc);
    for file in 0..p.subject.trees.len() {
        let row = file_row(alloc, p, file as u32)?;
        rows.push(row)?;
    }
    Ok(rows)
}
