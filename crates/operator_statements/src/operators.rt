//! The operators of assignment operations.
ghost use Rattle.std.specs.Prelude.{◌≡◌};
ghost use Rattle.std.specs.Option.{option_copied};
ghost use Rattle.unit_read.specs.Subjects.{unit_of};
ghost use Rattle.operator_statements.specs.Operators.{bit_operator, assign_operator, operator_before, right_operand, operator_of};

use const_eval::Operator;
use go_tree::Node;
use package_objects::{node_of, part_of};
use unit_read::Subject;

fn bit_operator(text: &[u8]) -> Option<Operator>
    ensures { result ≡ bit_operator text.now }
{
    if text == b"&=".as_slice() {
        return Some(Operator::And);
    }
    if text == b"|=".as_slice() {
        return Some(Operator::Or);
    }
    if text == b"^=".as_slice() {
        return Some(Operator::Xor);
    }
    if text == b"&^=".as_slice() {
        return Some(Operator::AndNot);
    }
    if text == b"<<=".as_slice() {
        return Some(Operator::ShiftLeft);
    }
    if text == b">>=".as_slice() {
        return Some(Operator::ShiftRight);
    }
    None
}

fn assign_operator(text: &[u8]) -> Option<Operator>
    ensures { result ≡ assign_operator text.now }
{
    if text == b"+=".as_slice() {
        return Some(Operator::Add);
    }
    if text == b"-=".as_slice() {
        return Some(Operator::Subtract);
    }
    if text == b"*=".as_slice() {
        return Some(Operator::Multiply);
    }
    if text == b"/=".as_slice() {
        return Some(Operator::Divide);
    }
    if text == b"%=".as_slice() {
        return Some(Operator::Remainder);
    }
    bit_operator(text)
}

fn operator_before(u: &Subject, file: u32, right: &Node) -> Option<Operator>
    ensures { result ≡ operator_before (unit_of u.now) file right.now }
{
    assign_operator(u.spelled(file, right.first.saturating_sub(1)))
}

fn right_operand<'a>(u: &Subject<'a>, file: u32, node: &Node) -> Option<&'a Node>
    ensures { option_copied result ≡ right_operand (unit_of u.now) file node.now }
{
    match part_of(node, 1) {
        Some(n) => node_of(u.nodes_at(file), n),
        None => None,
    }
}

/// The operator of an assignment operation.
pub fn operator_of(u: &Subject, file: u32, node: &Node) -> Option<Operator>
    ensures { result ≡ operator_of (unit_of u.now) file node.now }
{
    match right_operand(u, file, node) {
        Some(right) => operator_before(u, file, right),
        None => None,
    }
}
