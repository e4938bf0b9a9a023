//! What follows from the definitions alone.
ghost use Rattle.std.specs.Prelude.{◌≡◌};
ghost use Rattle.go_tree.specs.declared.bindings.Object.{Object};
ghost use Rattle.go_tree.specs.declared.tree.NodeRef.{NodeRef};
ghost use Rattle.bind.specs.Denoting.{Denotes};
ghost use Rattle.bind.specs.Sources.{Sources};

/// A use denotes at most one object.
pub fn one_binding()
    ensures { (p : Sources) → (at : NodeRef) → (o other : Object) → Denotes p at o → Denotes p at other → o ≡ other }
{}
