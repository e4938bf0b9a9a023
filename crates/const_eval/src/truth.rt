//! The operators on truths (Go 1.17, "Logical operators" and "Comparison operators").
ghost use Rattle.std.specs.Prelude.{◌≡◌};
ghost use Rattle.std.specs.Bool.{beq};
ghost use Rattle.const_eval.specs.Truths.{on_truths, on_truth};

use crate::answer::{ConstAnswer, truth};
use crate::operator::Operator;

pub fn on_truths(operator: Operator, p: bool, q: bool) -> ConstAnswer
    ensures { result ≡ on_truths operator p q }
{
    match operator {
        Operator::AndAlso => truth(p & q),
        Operator::OrElse => truth(p | q),
        Operator::Equal => truth(same(p, q)),
        Operator::NotEqual => truth(!same(p, q)),
        Operator::Add => ConstAnswer::BadOperands,
        Operator::Subtract => ConstAnswer::BadOperands,
        Operator::Multiply => ConstAnswer::BadOperands,
        Operator::Divide => ConstAnswer::BadOperands,
        Operator::Remainder => ConstAnswer::BadOperands,
        Operator::And => ConstAnswer::BadOperands,
        Operator::Or => ConstAnswer::BadOperands,
        Operator::Xor => ConstAnswer::BadOperands,
        Operator::AndNot => ConstAnswer::BadOperands,
        Operator::ShiftLeft => ConstAnswer::BadOperands,
        Operator::ShiftRight => ConstAnswer::BadOperands,
        Operator::Less => ConstAnswer::BadOperands,
        Operator::LessEqual => ConstAnswer::BadOperands,
        Operator::Greater => ConstAnswer::BadOperands,
        Operator::GreaterEqual => ConstAnswer::BadOperands,
        Operator::Not => ConstAnswer::BadOperands,
    }
}

pub fn on_truth(operator: Operator, p: bool) -> ConstAnswer
    ensures { result ≡ on_truth operator p }
{
    match operator {
        Operator::Not => truth(!p),
        Operator::Add => ConstAnswer::BadOperands,
        Operator::Subtract => ConstAnswer::BadOperands,
        Operator::Multiply => ConstAnswer::BadOperands,
        Operator::Divide => ConstAnswer::BadOperands,
        Operator::Remainder => ConstAnswer::BadOperands,
        Operator::And => ConstAnswer::BadOperands,
        Operator::Or => ConstAnswer::BadOperands,
        Operator::Xor => ConstAnswer::BadOperands,
        Operator::AndNot => ConstAnswer::BadOperands,
        Operator::ShiftLeft => ConstAnswer::BadOperands,
        Operator::ShiftRight => ConstAnswer::BadOperands,
        Operator::Equal => ConstAnswer::BadOperands,
        Operator::NotEqual => ConstAnswer::BadOperands,
        Operator::Less => ConstAnswer::BadOperands,
        Operator::LessEqual => ConstAnswer::BadOperands,
        Operator::Greater => ConstAnswer::BadOperands,
        Operator::GreaterEqual => ConstAnswer::BadOperands,
        Operator::AndAlso => ConstAnswer::BadOperands,
        Operator::OrElse => ConstAnswer::BadOperands,
    }
}

fn same(p: bool, q: bool) -> bool
    ensures { result ≡ beq p q }
{
    if p { q } else { !q }
}
