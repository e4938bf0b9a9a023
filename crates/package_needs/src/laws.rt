//! What follows from the definitions alone.
ghost use Rattle.std.specs.Prelude.{Bool, List, Option};
ghost use Rattle.std.specs.Global.{Vec};
ghost use Rattle.go_tree.specs.Bindings.{AreInOrder};
ghost use Rattle.go_tree.specs.declared.bindings.Object.{Object};
ghost use Rattle.go_tree.specs.declared.tree.FileTree.{FileTree};
ghost use Rattle.go_tree.specs.declared.tree.NodeRef.{NodeRef};
ghost use Rattle.object_order.specs.declared.needed.Needed.{Needed};
ghost use Rattle.object_order.specs.Cases.{NeedsOf};
ghost use Rattle.object_order.specs.Names.{IsNamed};
ghost use Rattle.object_order.specs.Orders.{IsNeedOrder};
ghost use Rattle.object_order.specs.Spots.{World};
ghost use Rattle.package_objects.specs.Declares.{declared};
ghost use Rattle.package_needs.specs.Worlds.{IsPackage, MarkTheSame};

/// Two orders of need of one package mark the same objects, whatever descriptions of it they go by.
pub fn orders_mark_the_same()
    ensures { (uses : List (NodeRef × Object)) → (trees : List FileTree) → (elsewhere : NodeRef → Bool) → AreInOrder uses → (a b : List (Vec (Option NodeRef))) → (names other w v : World) → (one two : List Needed) → IsPackage uses trees elsewhere a names w → IsPackage uses trees elsewhere b other v → IsNeedOrder (NeedsOf w) (IsNamed (declared trees a)) one → IsNeedOrder (NeedsOf v) (IsNamed (declared trees b)) two → MarkTheSame one two }
{}
