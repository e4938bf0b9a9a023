//! The order of need over a description of a package.
ghost use Rattle.std.specs.Prelude.{IfOk};
ghost use Rattle.object_order.specs.Views.{world_of};
ghost use Rattle.object_order.specs.Names.{AreNamed, IsNamed};
ghost use Rattle.object_order.specs.Orders.{IsNeedOrder};
ghost use Rattle.object_order.specs.Cases.{NeedsOf};

use crate::explore::explore;
use crate::needed::Needed;
use crate::pick::ordered;
use crate::quiet::quiet_rows;
use crate::seeds::seeds;
use crate::view::View;
use gv_base::NoMemory;
use std::alloc::Global;

/// Each declared name once, after each that it needs and from which its needs don't lead back to it;
/// `cyclic` is set exactly where they lead from it to itself. The time is in step with the nodes to
/// which declarations lead, and the depth of the calls follows nothing.
pub fn order_of(alloc: Global, view: &View) -> Result<Vec<Needed>, NoMemory>
    requires { AreNamed view.now.entries.items view.now.numbers }
    ensures { IfOk result (λ order. IsNeedOrder (NeedsOf (world_of view.now)) (IsNamed view.now.entries.items) order.items) }
{
    let first = seeds(alloc, &view.entries)?;
    let quiet = quiet_rows(alloc, false, view.trees, view.meant)?;
    let explored = explore(alloc, view, &quiet, &first)?;
    let order = ordered(alloc, &explored)?;
    Ok(order)
}
