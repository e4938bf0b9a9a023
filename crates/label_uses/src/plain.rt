//! Whether a file has a label, or a jump to one. Most have neither.
ghost use Rattle.std.specs.Prelude.{◌≡◌, ◌↔◌, ℕ, true};
ghost use Rattle.label_uses.specs.Plain.{names_label, NamesAt};

use crate::heads::{is_jump, is_label};
use go_tree::Node;

/// Whether a node is a label, or a jump with a name behind it.
fn names_label(node: &Node) -> bool
    ensures { result ≡ names_label node.now }
{
    if is_label(node.kind) || is_jump(node.kind) {
        return node.parts.as_slice().first().is_some();
    }
    false
}

/// Whether one of the nodes is.
pub(crate) fn names_some(nodes: &[Node]) -> bool
    ensures { (result ≡ true) ↔ ((p : ℕ) × NamesAt nodes.now p) }
{
    for p in 0..nodes.len() {
        if names_label(&nodes[p]) {
            return true;
        }
    }
    false
}
