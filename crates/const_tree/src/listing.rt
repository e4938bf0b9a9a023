//! What a specification declares: its names, and the type and the values that count for it.
ghost use Rattle.std.specs.Prelude.{◌≡◌, length, slice_get, option_and_then};
ghost use Rattle.package_objects.specs.Declares.{part};
ghost use Rattle.const_tree.specs.Constants.{is_bare, is_repeated, typing_of, values_of, names_of};

use crate::constant::Spec;
use go_tree::{Node, NodeKind};
use package_objects::{count, item, kind_of, list_at, node_of, part_of};

fn is_bare(kind: NodeKind) -> bool
    ensures { result ≡ is_bare kind }
{
    match kind {
        NodeKind::ConstNames => true,
        _ => false,
    }
}

/// Whether a specification has no values of its own.
pub fn is_repeated(nodes: &[Node], spec: Spec) -> bool
    ensures { result ≡ is_repeated nodes.now spec }
{
    is_bare(kind_of(nodes, spec.node))
}

/// The node of the type that counts for a specification.
pub fn typing_of(nodes: &[Node], spec: Spec) -> Option<u32>
    ensures { result ≡ typing_of nodes.now spec }
{
    match list_at(nodes, spec.source).typing {
        Some(root) => Some(root.node),
        None => None,
    }
}

/// How many values count for a specification.
pub fn value_count(nodes: &[Node], spec: Spec) -> usize
    ensures { result ≡ length (values_of nodes.now spec) }
{
    count(nodes, list_at(nodes, spec.source).values)
}

/// The node of a value that counts for a specification.
pub fn value_at(nodes: &[Node], spec: Spec, i: usize) -> Option<u32>
    ensures { result ≡ slice_get (values_of nodes.now spec) i }
{
    item(nodes, list_at(nodes, spec.source).values, i)
}

fn names_part(nodes: &[Node], spec: Spec) -> Option<u32>
    ensures { result ≡ option_and_then (λ node. part node 0) (slice_get nodes.now spec.node) }
{
    match node_of(nodes, spec.node) {
        Some(node) => part_of(node, 0),
        None => None,
    }
}

/// How many names a specification declares.
pub fn name_count(nodes: &[Node], spec: Spec) -> usize
    ensures { result ≡ length (names_of nodes.now spec) }
{
    count(nodes, names_part(nodes, spec))
}

/// The node of a name that a specification declares.
pub fn name_at(nodes: &[Node], spec: Spec, i: usize) -> Option<u32>
    ensures { result ≡ slice_get (names_of nodes.now spec) i }
{
    item(nodes, names_part(nodes, spec), i)
}
