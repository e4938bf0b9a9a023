//! Whether control may pass a statement beside its arms.
ghost use Rattle.std.specs.Prelude.{◌≡◌};
ghost use Rattle.flow.specs.Edges.{count, may_pass, may_end};

use crate::point::Role;
use crate::roles::has_role;
use go_tree::{FileTree, NodeKind};

/// How many parts have a role: no more than the parts.
fn count(tree: &FileTree, role: Role, parts: &[u32]) -> usize
    ensures { result ≡ count tree.now role parts.now }
{
    let mut count = 0;
    for part in parts {
        if has_role(tree, role, *part) {
            count += 1;
        }
    }
    count
}

/// Whether a branching statement may be passed beside its arms.
pub(crate) fn may_pass(tree: &FileTree, kind: NodeKind, parts: &[u32]) -> bool
    ensures { result ≡ may_pass tree.now kind parts.now }
{
    if matches!(kind, NodeKind::If) {
        return count(tree, Role::Arm, parts) < 2;
    }
    if matches!(kind, NodeKind::Select) {
        return false;
    }
    count(tree, Role::Default, parts) == 0
}

/// Whether a loop may end by itself.
pub(crate) fn may_end(tree: &FileTree, kind: NodeKind, parts: &[u32]) -> bool
    ensures { result ≡ may_end tree.now kind parts.now }
{
    if matches!(kind, NodeKind::For) {
        return 1 < parts.len();
    }
    if matches!(kind, NodeKind::ForClause) {
        return 0 < count(tree, Role::Condition, parts);
    }
    true
}
