//! The operators by class, and at which kinds they are defined (Go 1.17, "Operators").
ghost use Rattle.std.specs.Prelude.{◌≡◌, ◌||◌, Some};
ghost use Rattle.const_eval.specs.Operators.{operator_of};
ghost use Rattle.type_rel.specs.Kinds.{is_integer};
ghost use Rattle.typed_tree.specs.Operands.{is_text, takes_alone};
ghost use Rattle.op_rules.specs.Operators.{shifts, compares, equates, divides, takes_two, tells_apart};
ghost use Rattle.op_rules.specs.Unary.{takes_address};

use crate::kinds::{is_boolean, is_nil, is_text};
use const_eval::Operator;
use gv_base::Kind;
use type_rel::has_integers;

/// The number of the mark that spells an operator, in byte order of the spellings from 0.
pub fn mark_of(op: Operator) -> u8
    ensures { operator_of result ≡ Some op }
{
    match op {
        Operator::Not => 0,
        Operator::NotEqual => 1,
        Operator::Remainder => 2,
        Operator::And => 4,
        Operator::AndAlso => 5,
        Operator::AndNot => 7,
        Operator::Multiply => 11,
        Operator::Add => 13,
        Operator::Subtract => 17,
        Operator::Divide => 22,
        Operator::Less => 27,
        Operator::ShiftLeft => 29,
        Operator::LessEqual => 31,
        Operator::Equal => 33,
        Operator::Greater => 34,
        Operator::GreaterEqual => 35,
        Operator::ShiftRight => 36,
        Operator::Xor => 40,
        Operator::Or => 43,
        Operator::OrElse => 45,
    }
}

/// A comparison operator.
#[tactic(auto, unfolding(crate::specs::Operators::compares))]
pub fn compares(op: Operator) -> bool
    ensures { result ≡ compares op }
{
    match op {
        Operator::Equal => true,
        Operator::NotEqual => true,
        Operator::Less => true,
        Operator::LessEqual => true,
        Operator::Greater => true,
        Operator::GreaterEqual => true,
        Operator::Not => false,
        Operator::Remainder => false,
        Operator::And => false,
        Operator::AndAlso => false,
        Operator::AndNot => false,
        Operator::Multiply => false,
        Operator::Add => false,
        Operator::Subtract => false,
        Operator::Divide => false,
        Operator::ShiftLeft => false,
        Operator::ShiftRight => false,
        Operator::Xor => false,
        Operator::Or => false,
        Operator::OrElse => false,
    }
}

/// `<<` or `>>`.
#[tactic(auto, unfolding(crate::specs::Operators::shifts))]
pub fn shifts(op: Operator) -> bool
    ensures { result ≡ shifts op }
{
    match op {
        Operator::ShiftLeft => true,
        Operator::ShiftRight => true,
        Operator::Not => false,
        Operator::NotEqual => false,
        Operator::Remainder => false,
        Operator::And => false,
        Operator::AndAlso => false,
        Operator::AndNot => false,
        Operator::Multiply => false,
        Operator::Add => false,
        Operator::Subtract => false,
        Operator::Divide => false,
        Operator::Less => false,
        Operator::LessEqual => false,
        Operator::Equal => false,
        Operator::Greater => false,
        Operator::GreaterEqual => false,
        Operator::Xor => false,
        Operator::Or => false,
        Operator::OrElse => false,
    }
}

/// Integers or texts.
pub fn is_ordered(kind: Kind) -> bool
    ensures { result ≡ (is_integer kind || is_text kind) }
{
    has_integers(kind) || is_text(kind)
}

/// Two operands of the kind have the operator.
#[tactic(auto, unfolding(crate::specs::Operators::takes_two))]
pub fn takes_two(op: Operator, kind: Kind) -> bool
    ensures { result ≡ takes_two op kind }
{
    match op {
        Operator::Equal => true,
        Operator::NotEqual => true,
        Operator::Less => is_ordered(kind),
        Operator::LessEqual => is_ordered(kind),
        Operator::Greater => is_ordered(kind),
        Operator::GreaterEqual => is_ordered(kind),
        Operator::Add => is_ordered(kind),
        Operator::AndAlso => is_boolean(kind),
        Operator::OrElse => is_boolean(kind),
        Operator::Not => false,
        Operator::Subtract => has_integers(kind),
        Operator::Multiply => has_integers(kind),
        Operator::Divide => has_integers(kind),
        Operator::Remainder => has_integers(kind),
        Operator::And => has_integers(kind),
        Operator::Or => has_integers(kind),
        Operator::Xor => has_integers(kind),
        Operator::AndNot => has_integers(kind),
        Operator::ShiftLeft => has_integers(kind),
        Operator::ShiftRight => has_integers(kind),
    }
}

/// Two operands of the kind are compared by the operator, if it is `==` or `!=`.
#[tactic(auto, unfolding(crate::specs::Operators::tells_apart))]
pub fn tells_apart(op: Operator, kind: Kind) -> bool
    ensures { result ≡ tells_apart op kind }
{
    match op {
        Operator::Equal => !is_nil(kind),
        Operator::NotEqual => !is_nil(kind),
        Operator::Not => true,
        Operator::Remainder => true,
        Operator::And => true,
        Operator::AndAlso => true,
        Operator::AndNot => true,
        Operator::Multiply => true,
        Operator::Add => true,
        Operator::Subtract => true,
        Operator::Divide => true,
        Operator::Less => true,
        Operator::ShiftLeft => true,
        Operator::LessEqual => true,
        Operator::Greater => true,
        Operator::GreaterEqual => true,
        Operator::ShiftRight => true,
        Operator::Xor => true,
        Operator::Or => true,
        Operator::OrElse => true,
    }
}

/// One operand of the kind has the operator.
pub fn takes_alone(op: Operator, kind: Kind) -> bool
    ensures { result ≡ takes_alone op kind }
{
    match op {
        Operator::Add => has_integers(kind),
        Operator::Subtract => has_integers(kind),
        Operator::Xor => has_integers(kind),
        Operator::Not => is_boolean(kind),
        Operator::Multiply => false,
        Operator::Divide => false,
        Operator::Remainder => false,
        Operator::And => false,
        Operator::Or => false,
        Operator::AndNot => false,
        Operator::ShiftLeft => false,
        Operator::ShiftRight => false,
        Operator::Equal => false,
        Operator::NotEqual => false,
        Operator::Less => false,
        Operator::LessEqual => false,
        Operator::Greater => false,
        Operator::GreaterEqual => false,
        Operator::AndAlso => false,
        Operator::OrElse => false,
    }
}

/// `==` or `!=`.
#[tactic(auto, unfolding(crate::specs::Operators::equates))]
pub fn equates(op: Operator) -> bool
    ensures { result ≡ equates op }
{
    match op {
        Operator::Not => false,
        Operator::NotEqual => true,
        Operator::Remainder => false,
        Operator::And => false,
        Operator::AndAlso => false,
        Operator::AndNot => false,
        Operator::Multiply => false,
        Operator::Add => false,
        Operator::Subtract => false,
        Operator::Divide => false,
        Operator::Less => false,
        Operator::ShiftLeft => false,
        Operator::LessEqual => false,
        Operator::Equal => true,
        Operator::Greater => false,
        Operator::GreaterEqual => false,
        Operator::ShiftRight => false,
        Operator::Xor => false,
        Operator::Or => false,
        Operator::OrElse => false,
    }
}

/// `/` or `%`.
#[tactic(auto, unfolding(crate::specs::Operators::divides))]
pub fn divides(op: Operator) -> bool
    ensures { result ≡ divides op }
{
    match op {
        Operator::Not => false,
        Operator::NotEqual => false,
        Operator::Remainder => true,
        Operator::And => false,
        Operator::AndAlso => false,
        Operator::AndNot => false,
        Operator::Multiply => false,
        Operator::Add => false,
        Operator::Subtract => false,
        Operator::Divide => true,
        Operator::Less => false,
        Operator::ShiftLeft => false,
        Operator::LessEqual => false,
        Operator::Equal => false,
        Operator::Greater => false,
        Operator::GreaterEqual => false,
        Operator::ShiftRight => false,
        Operator::Xor => false,
        Operator::Or => false,
        Operator::OrElse => false,
    }
}

/// `&`, which takes the address of an operand.
pub fn takes_address(op: Operator) -> bool
    ensures { result ≡ takes_address op }
{
    match op {
        Operator::Not => false,
        Operator::NotEqual => false,
        Operator::Remainder => false,
        Operator::And => true,
        Operator::AndAlso => false,
        Operator::AndNot => false,
        Operator::Multiply => false,
        Operator::Add => false,
        Operator::Subtract => false,
        Operator::Divide => false,
        Operator::Less => false,
        Operator::ShiftLeft => false,
        Operator::LessEqual => false,
        Operator::Equal => false,
        Operator::Greater => false,
        Operator::GreaterEqual => false,
        Operator::ShiftRight => false,
        Operator::Xor => false,
        Operator::Or => false,
        Operator::OrElse => false,
    }
}
