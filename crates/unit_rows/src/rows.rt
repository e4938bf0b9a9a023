//! Where the nodes of files stand.
ghost use Rattle.std.specs.Prelude.{◌≡◌, ◌≤◌, ◌^◌, IfOk, length};
ghost use Rattle.unit_read.specs.Rows.{IsRow, AreRows};
ghost use Rattle.package_objects.specs.Declares.{AreSmall};
ghost use Rattle.unit_rows.specs.Rows.{place_in};

use go_tree::FileTree;
use gv_base::NoMemory;
use std::alloc::Global;
use unit_read::{Place, place_row};

/// For each node of a file where it stands.
fn tree_places(alloc: Global, tree: &FileTree) -> Result<Vec<Option<Place>>, NoMemory>
    requires { length tree.now.nodes ≤ 2 ^ 32 }
    ensures { IfOk result (λ row. IsRow (place_in tree.now) row.items (length tree.now.nodes)) }
{
    let row = place_row(alloc, tree.nodes.as_slice())?;
    Ok(row)
}

/// For each node of each file where it stands.
pub fn place_rows(alloc: Global, trees: &[FileTree]) -> Result<Vec<Vec<Option<Place>>>, NoMemory>
    requires { AreSmall trees.now }
    ensures { IfOk result (λ rows. AreRows (λ f. place_in) trees.now rows.items (length trees.now)) }
{
    let mut rows = Vec::new(alloc);
    for file in 0..trees.len() {
        rows.push(tree_places(alloc, &trees[file])?)?;
    }
    Ok(rows)
}
