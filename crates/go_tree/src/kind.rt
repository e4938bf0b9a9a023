//! What nodes are alike in.
ghost use Rattle.std.specs.Prelude.{◌≡◌};
ghost use Rattle.go_tree.specs.Kinds.{is_function};

use crate::tree::NodeKind;

/// Whether nodes of this kind have a body of their own: a declaration of a function or of a method, or a function literal.
pub fn is_function(kind: NodeKind) -> bool
    ensures { result ≡ is_function kind }
{
    matches!(
        kind,
        NodeKind::FuncDecl | NodeKind::MethodDecl | NodeKind::FuncLit
    )
}
