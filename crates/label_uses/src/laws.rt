//! What follows from the definitions alone.
ghost use Rattle.std.specs.Prelude.{◌≡◌, ℕ, List};
ghost use Rattle.go_tree.specs.declared.tree.FileTree.{FileTree};
ghost use Rattle.label_uses.specs.Labels.{DenotesLabel};

/// A jump denotes at most one label.
pub fn one_label()
    ensures { (bytes : List ℕ) → (tree : FileTree) → (jump a b : ℕ) → DenotesLabel bytes tree jump a → DenotesLabel bytes tree jump b → a ≡ b }
{}
