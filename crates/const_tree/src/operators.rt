//! The operators of unary and binary expressions.
ghost use Rattle.std.specs.Prelude.{◌≡◌, ◌-◌, slice_get, option_and_then};
ghost use Rattle.const_tree.specs.Operators.{kind_operator, operator_at, unary_operator, binary_operator};

use const_eval::Operator;
use go_tree::{FileTree, Node, TokenKind};
use package_objects::{node_of, part_of};

fn kind_operator(kind: TokenKind) -> Option<Operator>
    ensures { result ≡ kind_operator kind }
{
    match kind {
        TokenKind::Mark(place) => Operator::from_mark(place),
        _ => None,
    }
}

/// The operator that a token is.
fn operator_at(tree: &FileTree, i: usize) -> Option<Operator>
    ensures { result ≡ operator_at tree.now i }
{
    match tree.tokens.as_slice().get(i) {
        Some(token) => kind_operator(token.kind),
        None => None,
    }
}

/// The operator of a unary expression: its first token.
pub fn unary_operator(tree: &FileTree, node: &Node) -> Option<Operator>
    ensures { result ≡ unary_operator tree.now node.now }
{
    operator_at(tree, node.first as usize)
}

/// The operator before an operand.
fn operator_before(tree: &FileTree, right: &Node) -> Option<Operator>
    ensures { result ≡ operator_at tree.now (right.now.first - 1) }
{
    let first = right.first as usize;
    if first == 0 {
        return operator_at(tree, 0);
    }
    operator_at(tree, first - 1)
}

fn operator_at_node(tree: &FileTree, n: u32) -> Option<Operator>
    ensures { result ≡ option_and_then (λ right. operator_at tree.now (right.first - 1)) (slice_get tree.now.nodes n) }
{
    match node_of(tree.nodes.as_slice(), n) {
        Some(right) => operator_before(tree, right),
        None => None,
    }
}

/// The operator of a binary expression: the token before its right operand.
pub fn binary_operator(tree: &FileTree, node: &Node) -> Option<Operator>
    ensures { result ≡ binary_operator tree.now node.now }
{
    match part_of(node, 1) {
        Some(n) => operator_at_node(tree, n),
        None => None,
    }
}
