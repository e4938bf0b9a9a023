//! What parts of a statement are for it.
ghost use Rattle.std.specs.Prelude.{◌≡◌, suc, slice_get, option_map};
ghost use Rattle.flow.specs.Edges.{fits, has_role, is_semicolon};

use crate::kinds::{is_arm, is_block, is_condition, is_default, is_inner, is_list, is_post};
use crate::point::Role;
use go_tree::{FileTree, NodeKind, Token, TokenKind};

fn is_semicolon(token: Option<&Token>) -> bool
    ensures { result ≡ is_semicolon (option_map (λ t. t.now) token.entry) }
{
    match token {
        None => false,
        Some(token) => matches!(token.kind, TokenKind::Semi),
    }
}

/// Whether a semicolon follows a token.
fn ends(tokens: &[Token], last: u32) -> bool
    ensures { result ≡ is_semicolon (slice_get tokens.now (suc last)) }
{
    is_semicolon(tokens.get(last as usize + 1))
}

fn fits(role: Role, kind: NodeKind, semicolon: bool) -> bool
    ensures { result ≡ fits role kind semicolon }
{
    match role {
        Role::Any => true,
        Role::List => is_list(kind),
        Role::Opening => !is_inner(kind) && semicolon,
        Role::Arm => is_arm(kind),
        Role::Body => is_block(kind),
        Role::Post => is_post(kind),
        Role::Default => is_default(kind),
        Role::Condition => is_condition(kind),
    }
}

/// Whether the node of this number has a role.
pub(crate) fn has_role(tree: &FileTree, role: Role, x: u32) -> bool
    ensures { result ≡ has_role tree.now role x }
{
    match tree.nodes.as_slice().get(x as usize) {
        None => false,
        Some(node) => fits(role, node.kind, ends(tree.tokens.as_slice(), node.last)),
    }
}
