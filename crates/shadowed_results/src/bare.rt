//! `return`s without values.
ghost use Rattle.std.specs.Prelude.{◌≡◌};
ghost use Rattle.shadowed_results.specs.Kinds.{is_return, is_nil, is_bare, is_bare_at};

use go_tree::{Node, NodeKind};

fn is_return(kind: NodeKind) -> bool
    ensures { result ≡ is_return kind }
{
    matches!(kind, NodeKind::Return)
}

fn is_nil(parts: &[u32]) -> bool
    ensures { result ≡ is_nil parts.now }
{
    parts.is_empty()
}

/// Whether a node is a `return` without values.
pub(crate) fn is_bare(node: &Node) -> bool
    ensures { result ≡ is_bare node.now }
{
    if is_return(node.kind) {
        return is_nil(node.parts.as_slice());
    }
    false
}

pub(crate) fn is_bare_at(nodes: &[Node], n: usize) -> bool
    ensures { result ≡ is_bare_at nodes.now n }
{
    match nodes.get(n) {
        Some(node) => is_bare(node),
        None => false,
    }
}
