//! What is known of the nodes of a spelled file.
ghost use Rattle.std.specs.Prelude.{◌≡◌};
ghost use Rattle.go_tree.specs.Pieces.{Spelled};
ghost use Rattle.node_values.specs.Ranges.{IsTiled};
ghost use Rattle.node_values.specs.Trees.{IsTree};

use go_tree::FileTree;

/// Each node is a part of one other at most, which comes after it; and a node comes directly after its parts.
pub fn spelled_nodes(tree: &FileTree, bytes: &[u8])
    requires { Spelled tree.now.tokens bytes.now tree.now }
    ensures tree { IsTree tree.now.nodes }
    ensures tiled { IsTiled tree.now.nodes }
{
    let _ = tree;
    let _ = bytes;
}
