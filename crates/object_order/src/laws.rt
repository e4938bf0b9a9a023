//! What follows from the definitions alone.
ghost use Rattle.std.specs.Prelude.{◌↔◌};
ghost use Rattle.go_tree.specs.declared.tree.NodeRef.{NodeRef};
ghost use Rattle.object_order.specs.Spots.{World, moves};
ghost use Rattle.object_order.specs.Orders.{NeedsBy};
ghost use Rattle.object_order.specs.Cases.{NeedsOf};

/// What the search finds that an object needs is what the four cases of need say.
pub fn needs_are_of_four_cases()
    ensures { (w : World) (o u : NodeRef) → NeedsBy (moves w) o u ↔ NeedsOf w o u }
{}
