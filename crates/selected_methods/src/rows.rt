//! The methods that selectors select, in all nodes.
ghost use Rattle.std.specs.Prelude.{◌≡◌, ◌≤◌, ◌^◌, IfOk, length};
ghost use Rattle.go_tree.specs.declared.tree.NodeRef.{NodeRef as OneNode};
ghost use Rattle.mark_walk.specs.Asks.{filled};
ghost use Rattle.object_order.specs.Spots.{place};
ghost use Rattle.package_objects.specs.Declares.{AreSmall};
ghost use Rattle.typed_marks.specs.Meanings.{Quiet};
ghost use Rattle.typed_marks.specs.States.{so_far};
ghost use Rattle.unit_read.specs.Subjects.{full_of, cell};
ghost use Rattle.rule_words.specs.Scenes.{IsScene};
ghost use Rattle.selected_methods.specs.Selected.{IsSelectedMethod};
ghost use Rattle.selected_methods.specs.InCode.{IsWhat, AreMethods, AreMethodRows};

use crate::selecting::selected_at;
use go_tree::{FileTree, NodeRef};
use gv_base::NoMemory;
use std::alloc::Global;
use typed_marks::State;
use unit_read::Subject;

fn method_row(
    alloc: Global,
    u: &Subject,
    s: &State,
    file: u32,
    end: usize,
) -> Result<Vec<Option<NodeRef>>, NoMemory>
    requires scene { IsScene u.now s.now }
    requires few { end ≤ 2 ^ 32 }
    ensures { IfOk result (λ row. AreMethods (λ n. IsSelectedMethod (full_of u.now) (filled Quiet (so_far s.now)) (place file n)) row.items end) }
{
    let mut row = Vec::new(alloc);
    for node in 0..end {
        let at = NodeRef {
            file,
            node: node as u32,
        };
        let found = selected_at(alloc, u, s, at)?;
        row.push(found)?;
    }
    Ok(row)
}

fn tree_row(
    alloc: Global,
    u: &Subject,
    s: &State,
    file: u32,
    tree: &FileTree,
) -> Result<Vec<Option<NodeRef>>, NoMemory>
    requires scene { IsScene u.now s.now }
    requires small { length tree.now.nodes ≤ 2 ^ 32 }
    ensures { IfOk result (λ row. AreMethods (λ n. IsSelectedMethod (full_of u.now) (filled Quiet (so_far s.now)) (place file n)) row.items (length tree.now.nodes)) }
{
    let row = method_row(alloc, u, s, file, tree.nodes.as_slice().len())?;
    Ok(row)
}

fn tree_rows(alloc: Global, u: &Subject, s: &State) -> Result<Vec<Vec<Option<NodeRef>>>, NoMemory>
    requires scene { IsScene u.now s.now }
    requires small { AreSmall u.now.trees.now }
    requires few { length u.now.trees.now ≤ 2 ^ 32 }
    ensures { IfOk result (λ rows. AreMethodRows (IsSelectedMethod (full_of u.now) (filled Quiet (so_far s.now))) u.now.trees.now rows.items (length u.now.trees.now)) }
{
    let mut rows = Vec::new(alloc);
    for file in 0..u.trees.len() {
        let row = tree_row(alloc, u, s, file as u32, &u.trees[file])?;
        rows.push(row)?;
    }
    Ok(rows)
}

/// For each node of each file the name of the method that it selects, if it is a selector that selects one which the package declares for a
/// type that is no interface.
pub fn selected_methods(
    alloc: Global,
    u: &Subject,
    s: &State,
) -> Result<Vec<Vec<Option<NodeRef>>>, NoMemory>
    requires scene { IsScene u.now s.now }
    requires small { AreSmall u.now.trees.now }
    requires few { length u.now.trees.now ≤ 2 ^ 32 }
    ensures { IfOk result (λ rows. (at : OneNode) → IsWhat (IsSelectedMethod (full_of u.now) (filled Quiet (so_far s.now)) at) (cell rows.items at)) }
{
    let rows = tree_rows(alloc, u, s)?;
    Ok(rows)
}
