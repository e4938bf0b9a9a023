//! The names of a description that lead back to themselves.
ghost use Rattle.std.specs.Prelude.{◌≡◌, IfOk, map};
ghost use Rattle.object_order.specs.Names.{AreNamed};
ghost use Rattle.object_order.specs.Views.{world_of};
ghost use Rattle.name_circles.specs.Circles.{resting, opened, AreMarked};

use gv_base::{NoMemory, Row};
use object_order::{Entry, Needed, Role, Root, View, order_of};
use std::alloc::Global;

fn resting(root: Root) -> Root
    ensures { result ≡ resting root }
{
    Root {
        role: Role::Resting,
        node: root.node,
    }
}

fn resting_all(alloc: Global, roots: &[Root]) -> Result<Vec<Root>, NoMemory>
    ensures { IfOk result (λ list. list.items ≡ map resting roots.now) }
{
    let mut list = Vec::new(alloc);
    for root in roots {
        list.push(resting(*root))?;
    }
    Ok(list)
}

/// The declaration, as one that rests on all that is written in it.
fn opened(alloc: Global, entry: &Entry) -> Result<Entry, NoMemory>
    ensures { IfOk result (λ e. e ≡ opened entry.now) }
{
    let roots = resting_all(alloc, entry.roots.as_slice())?;
    Ok(Entry {
        name: entry.name,
        form: entry.form,
        roots: Row::new(roots),
    })
}

fn opened_all(alloc: Global, entries: &Vec<Entry>) -> Result<Vec<Entry>, NoMemory>
    ensures { IfOk result (λ list. list.items ≡ map opened entries.now.items) }
{
    let mut list = Vec::new(alloc);
    for entry in entries {
        list.push(opened(alloc, entry)?)?;
    }
    Ok(list)
}

/// Each declared name once, marked where its declaration leads back to it; of a type with methods the mark says less. The time is in step with
/// the nodes to which declarations lead.
pub fn circles_of(alloc: Global, view: View) -> Result<Vec<Needed>, NoMemory>
    requires { AreNamed view.entries.items view.numbers }
    ensures { IfOk result (λ order. AreMarked (world_of view.entry) view.entry.entries.items order.items) }
{
    let View {
        trees,
        meant,
        entries,
        numbers,
        groups,
    } = view;
    let entries = opened_all(alloc, &entries)?;
    let whole = View {
        trees,
        meant,
        entries,
        numbers,
        groups,
    };
    let order = order_of(alloc, &whole)?;
    Ok(order)
}
