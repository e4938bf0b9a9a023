//! Tables that are filled node by node.
ghost use Rattle.std.specs.Prelude.{◌≡◌, ◌<◌, IfOk, None, length};
ghost use Rattle.unit_read.specs.Rows.{IsRow, AreRows};
ghost use Rattle.unit_rows.specs.Tables.{nothing, PutsAt, PutsIn};

use go_tree::{FileTree, NodeRef};
use gv_base::NoMemory;
use std::alloc::Global;

fn blank_row<T: Copy>(alloc: Global, count: usize) -> Result<Vec<Option<T>>, NoMemory>
    ensures { IfOk result (λ row. IsRow (λ n. None) row.items count) }
{
    let mut row = Vec::with_capacity(alloc, count)?;
    for _n in 0..count {
        row.push(None)?;
    }
    Ok(row)
}

fn tree_blanks<T: Copy>(alloc: Global, tree: &FileTree) -> Result<Vec<Option<T>>, NoMemory>
    ensures { IfOk result (λ row. IsRow (λ n. None) row.items (length tree.now.nodes)) }
{
    let row = blank_row(alloc, tree.nodes.as_slice().len())?;
    Ok(row)
}

/// For each node of each file nothing.
pub fn blank_rows<T: Copy>(
    alloc: Global,
    trees: &[FileTree],
) -> Result<Vec<Vec<Option<T>>>, NoMemory>
    ensures { IfOk result (λ rows. AreRows nothing trees.now rows.items (length trees.now)) }
{
    let mut rows = Vec::with_capacity(alloc, trees.len())?;
    for file in 0..trees.len() {
        rows.push(tree_blanks(alloc, &trees[file])?)?;
    }
    Ok(rows)
}

/// Puts a value into a row, unless one stands there.
fn put<T: Copy>(row: &mut Vec<Option<T>>, n: usize, value: T)
    ensures { PutsAt row.old.items row.new.items n value }
{
    if n < row.len() && row[n].is_none() {
        row[n] = Some(value);
    }
}

fn put_row<T: Copy>(rows: &mut Vec<Vec<Option<T>>>, file: usize, n: usize, value: T)
    requires { file < length rows.old.items }
    ensures { PutsIn rows.old.items rows.new.items file n value }
{
    put(&mut rows[file], n, value);
}

/// Puts a value into the table at a node, unless one stands there or there is no such node.
pub fn put_in<T: Copy>(rows: &mut Vec<Vec<Option<T>>>, at: NodeRef, value: T)
    ensures { PutsIn rows.old.items rows.new.items at.file at.node value }
{
    if (at.file as usize) < rows.len() {
        put_row(rows, at.file as usize, at.node as usize, value);
    }
}
