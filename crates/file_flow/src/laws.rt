//! What a parsed file's tree is, so that its flow can be asked for.
ghost use Rattle.std.specs.Prelude.{◌≡◌, ◌<◌, ◌≤◌, ◌^◌, ℕ, List, length};
ghost use Rattle.go_tree.specs.Pieces.{Spelled};
ghost use Rattle.go_tree.specs.declared.tree.FileTree.{FileTree};
ghost use Rattle.flow.specs.Around.{IsTree};

use go_tree::FileTree;

/// The nodes of a spelled file are those of a tree. The body is empty: the contract is the law.
pub fn spelled_is_a_tree()
    ensures { (bytes : List ℕ) (tree : FileTree) → Spelled tree.tokens bytes tree → IsTree tree.nodes }
{}

fn is_small(number: u32)
    ensures { number < 2 ^ 32 }
{}

/// A spelled file has no more nodes than 32 bits number: its last top node is its last node.
pub fn nodes_are_few(tree: &FileTree, bytes: &[u8])
    requires { Spelled tree.now.tokens bytes.now tree.now }
    ensures { length tree.now.nodes ≤ 2 ^ 32 }
{
    let tops = tree.tops.as_slice();
    if tops.len() == 0 {
        return;
    }
    is_small(tops[tops.len() - 1]);
}
