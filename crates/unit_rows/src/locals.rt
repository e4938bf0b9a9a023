//! What tells defined types apart from others of their names.
ghost use Rattle.std.specs.Prelude.{◌≡◌, IfOk, length};
ghost use Rattle.unit_read.specs.Rows.{AreRows};
ghost use Rattle.unit_read.specs.Subjects.{unit_of};
ghost use Rattle.unit_rows.specs.Drafts.{IsPlaced};
ghost use Rattle.unit_rows.specs.Rows.{local_by, local_in};
ghost use Rattle.unit_rows.specs.Tables.{PutsIn};

use crate::tables::{blank_rows, put_in};
use crate::top::is_top;
use go_tree::NodeRef;
use gv_base::NoMemory;
use std::alloc::Global;
use unit_read::Subject;

/// 0 at package level, else the number.
fn local_of(s: &Subject, at: NodeRef, number: usize) -> usize
    requires { IsPlaced s.now }
    ensures { result ≡ local_by (unit_of s.now) at number }
{
    if is_top(s, at) { 0 } else { number }
}

fn put_local(rows: &mut Vec<Vec<Option<usize>>>, s: &Subject, at: NodeRef, number: usize)
    requires { IsPlaced s.now }
    ensures { PutsIn rows.old.items rows.new.items at.file at.node (local_by (unit_of s.now) at number) }
{
    put_in(rows, at, local_of(s, at, number));
}

fn rows_of(
    alloc: Global,
    s: &Subject,
    list: &[NodeRef],
) -> Result<Vec<Vec<Option<usize>>>, NoMemory>
    requires { IsPlaced s.now }
    ensures { IfOk result (λ rows. AreRows (local_in (unit_of s.now) list.now) s.now.trees.now rows.items (length s.now.trees.now)) }
{
    let mut rows = blank_rows(alloc, s.trees)?;
    for k in 0..list.len() {
        put_local(&mut rows, s, list[k], k + 1);
    }
    Ok(rows)
}

/// For each node of each file: where it is the name of a defined type, 0 at package level, else its number among all.
pub fn local_rows(alloc: Global, s: &Subject) -> Result<Vec<Vec<Option<usize>>>, NoMemory>
    requires { IsPlaced s.now }
    ensures { IfOk result (λ rows. AreRows (local_in (unit_of s.now) s.now.defined.items) s.now.trees.now rows.items (length s.now.trees.now)) }
{
    let rows = rows_of(alloc, s, s.defined.as_slice())?;
    Ok(rows)
}
