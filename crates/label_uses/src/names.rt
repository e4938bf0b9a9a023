//! Which nodes are names of labels, and which are names behind `break`, `continue` and `goto`.
ghost use Rattle.std.specs.Prelude.{◌≡◌, ◌<◌, ◌↔◌, true, length, option_map, bytes_eq, codes};
ghost use Rattle.label_uses.specs.Heads.{AreHeads};
ghost use Rattle.label_uses.specs.Labels.{is_label, is_jump, Heads, IsLabel, IsJump};
ghost use Rattle.label_uses.specs.Names.{IsNameOf, unless_blank};

use crate::heads::{Headed, is_headed};
use file_uses::name_at;
use go_tree::{FileTree, Node};

fn is_label_name(nodes: &[Node], heads: &Headed, n: usize) -> bool
    requires heads { AreHeads is_label nodes.now (length nodes.now) heads.now }
    requires n { n < length nodes.now }
    ensures { (result ≡ true) ↔ Heads is_label nodes.now n }
{
    let _ = nodes;
    is_headed(heads, n)
}

fn is_jump_name(nodes: &[Node], heads: &Headed, n: usize) -> bool
    requires heads { AreHeads is_jump nodes.now (length nodes.now) heads.now }
    requires n { n < length nodes.now }
    ensures { (result ≡ true) ↔ Heads is_jump nodes.now n }
{
    let _ = nodes;
    is_headed(heads, n)
}

fn is_blank(name: &[u8]) -> bool
    ensures { result ≡ bytes_eq name.now (codes "_") }
{
    name == b"_".as_slice()
}

fn unless_blank(name: Option<&[u8]>) -> Option<&[u8]>
    ensures { option_map (λ o. o.now) result ≡ unless_blank (option_map (λ o. o.now) name.entry) }
{
    match name {
        Some(name) => {
            if is_blank(name) {
                return None;
            }
            Some(name)
        }
        None => None,
    }
}

/// The name of a label, if the node is one.
pub(crate) fn label_name<'a>(
    bytes: &'a [u8],
    tree: &FileTree,
    heads: &Headed,
    n: usize,
) -> Option<&'a [u8]>
    requires heads { AreHeads is_label tree.now.nodes (length tree.now.nodes) heads.now }
    requires n { n < length tree.now.nodes }
    ensures { IsNameOf (IsLabel bytes.now tree.now n) (option_map (λ o. o.now) result) }
{
    if !is_label_name(tree.nodes.as_slice(), heads, n) {
        return None;
    }
    unless_blank(name_at(bytes, tree, n))
}

/// The name behind `break`, `continue` or `goto`, if the node is one.
pub(crate) fn jump_name<'a>(
    bytes: &'a [u8],
    tree: &FileTree,
    heads: &Headed,
    n: usize,
) -> Option<&'a [u8]>
    requires heads { AreHeads is_jump tree.now.nodes (length tree.now.nodes) heads.now }
    requires n { n < length tree.now.nodes }
    ensures { IsNameOf (IsJump bytes.now tree.now n) (option_map (λ o. o.now) result) }
{
    if !is_jump_name(tree.nodes.as_slice(), heads, n) {
        return None;
    }
    name_at(bytes, tree, n)
}
