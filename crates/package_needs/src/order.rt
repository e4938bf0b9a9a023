//! The order of need of a package's objects.
ghost use Rattle.std.specs.Prelude.{◌≤◌, ◌^◌, length, IfOk};
ghost use Rattle.package_objects.specs.Declares.{AreSmall};
ghost use Rattle.package_needs.specs.Keys.{flagged};
ghost use Rattle.package_needs.specs.Worlds.{IsOrderOf, AreNeedsOf};

use crate::denoted::denoted;
use crate::ends::ends_of;
use crate::groups::groups_of;
use crate::keys::mentions_of;
use crate::kin::Tables;
use crate::owners::owners_of;
use go_tree::{Bindings, FileTree, NodeRef};
use gv_base::NoMemory;
use object_order::{Needed, View, numbers_of, order_of};
use package_objects::entries_of;
use std::alloc::Global;

/// What a package's declarations need, and whose its methods are.
#[derive(Drop)]
pub struct Needs {
    /// Each object that the files declare once, after each that it needs and from which its needs don't lead back to it; marked exactly
    /// where they lead to itself.
    pub order: Vec<Needed>,
    /// For each node of each file the name of the type of which it declares a method.
    pub owners: Vec<Vec<Option<NodeRef>>>,
}

/// What the declarations of a package's files need, and whose its methods are. `b` has what the uses in the files denote, and
/// `elsewhere` flags the nodes that name struct types of other packages.
pub fn needs_of(
    alloc: Global,
    b: &Bindings,
    files: &[FileTree],
    elsewhere: &Vec<Vec<bool>>,
) -> Result<Needs, NoMemory>
    requires small { AreSmall files.now }
    requires few { length files.now ≤ 2 ^ 32 }
    ensures { IfOk result (λ needs. AreNeedsOf b.now files.now (flagged elsewhere.now.items) needs.order.items needs.owners.items) }
{
    let rows = denoted(alloc, b, files)?;
    let entries = entries_of(alloc, files, &rows)?;
    let numbers = numbers_of(alloc, &entries)?;
    let names = View {
        trees: files,
        meant: &rows,
        entries,
        numbers,
        groups: Vec::new(alloc),
    };
    let tables = Tables {
        near: ends_of(alloc, &names, false)?,
        far: ends_of(alloc, &names, true)?,
    };
    let groups = groups_of(alloc, &names, &tables)?;
    let owners = owners_of(alloc, &names, &tables, files)?;
    let meant = mentions_of(alloc, &names, elsewhere, &tables.far)?;
    let View {
        entries,
        numbers,
        ..
    } = names;
    let view = View {
        trees: files,
        meant: &meant,
        entries,
        numbers,
        groups,
    };
    let order = order_of(alloc, &view)?;
    Ok(Needs { order, owners })
}

/// The order of need alone.
pub fn needs_order(
    alloc: Global,
    b: &Bindings,
    files: &[FileTree],
    elsewhere: &Vec<Vec<bool>>,
) -> Result<Vec<Needed>, NoMemory>
    requires small { AreSmall files.now }
    requires few { length files.now ≤ 2 ^ 32 }
    ensures ordered { IfOk result (λ order. IsOrderOf b.now files.now (flagged elsewhere.now.items) order.items) }
{
    let needs = needs_of(alloc, b, files, elsewhere)?;
    Ok(needs.order)
}
