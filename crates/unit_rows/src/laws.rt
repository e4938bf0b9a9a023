//! What follows from the definitions alone.
ghost use Rattle.std.specs.Prelude.{Bool, List};
ghost use Rattle.go_tree.specs.declared.bindings.Object.{Object};
ghost use Rattle.go_tree.specs.declared.tree.FileTree.{FileTree};
ghost use Rattle.go_tree.specs.declared.tree.NodeRef.{NodeRef};
ghost use Rattle.object_order.specs.declared.needed.Needed.{Needed};
ghost use Rattle.unit_rows.specs.Cyclic.{MarksCyclic};

/// In an order of need the marked names are those that are declared and whose needs lead back to them.
pub fn marked_names_need_themselves()
    ensures { (uses : List (NodeRef × Object)) → (trees : List FileTree) → (elsewhere : NodeRef → Bool) → (order : List Needed) → MarksCyclic uses trees elsewhere order }
{}
