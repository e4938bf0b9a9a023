//! The operators on integers (Go 1.17, "Arithmetic operators" and "Comparison operators").
ghost use Rattle.std.specs.Prelude.{◌≡◌, ◌+ℤ◌, ◌-ℤ◌, ◌*ℤ◌, neg_ℤ, int_div, int_rem};
ghost use Rattle.const_eval.specs.Answers.{whole, divided_by};
ghost use Rattle.const_eval.specs.Integers.{on_integers, on_integer};

use crate::answer::{ConstAnswer, narrow, truth};
use crate::bits::{and, and_not, or, xor};
use crate::operator::Operator;
use crate::shift::{left, right};
use gv_base::Const;

pub fn on_integers(operator: Operator, x: i128, y: i128) -> ConstAnswer
    ensures { result ≡ on_integers operator x y }
{
    match operator {
        Operator::Add => sum(x, y),
        Operator::Subtract => difference(x, y),
        Operator::Multiply => product(x, y),
        Operator::Divide => quotient(x, y),
        Operator::Remainder => remainder(x, y),
        Operator::And => narrow(and(x, y)),
        Operator::Or => narrow(or(x, y)),
        Operator::Xor => narrow(xor(x, y)),
        Operator::AndNot => narrow(and_not(x, y)),
        Operator::ShiftLeft => left(x, y),
        Operator::ShiftRight => right(x, y),
        Operator::Equal => truth(x == y),
        Operator::NotEqual => truth(x != y),
        Operator::Less => truth(x < y),
        Operator::LessEqual => truth(x <= y),
        Operator::Greater => truth(x > y),
        Operator::GreaterEqual => truth(x >= y),
        Operator::Not => ConstAnswer::BadOperands,
        Operator::AndAlso => ConstAnswer::BadOperands,
        Operator::OrElse => ConstAnswer::BadOperands,
    }
}

/// A unary operator at an operand whose kind has all bits set in `ones`.
pub fn on_integer(operator: Operator, ones: i128, x: i128) -> ConstAnswer
    ensures { result ≡ on_integer operator ones x }
{
    match operator {
        Operator::Add => narrow(x),
        Operator::Subtract => negation(x),
        Operator::Xor => narrow(xor(ones, x)),
        Operator::Multiply => ConstAnswer::BadOperands,
        Operator::Divide => ConstAnswer::BadOperands,
        Operator::Remainder => ConstAnswer::BadOperands,
        Operator::And => ConstAnswer::BadOperands,
        Operator::Or => ConstAnswer::BadOperands,
        Operator::AndNot => ConstAnswer::BadOperands,
        Operator::ShiftLeft => ConstAnswer::BadOperands,
        Operator::ShiftRight => ConstAnswer::BadOperands,
        Operator::Equal => ConstAnswer::BadOperands,
        Operator::NotEqual => ConstAnswer::BadOperands,
        Operator::Less => ConstAnswer::BadOperands,
        Operator::LessEqual => ConstAnswer::BadOperands,
        Operator::Greater => ConstAnswer::BadOperands,
        Operator::GreaterEqual => ConstAnswer::BadOperands,
        Operator::Not => ConstAnswer::BadOperands,
        Operator::AndAlso => ConstAnswer::BadOperands,
        Operator::OrElse => ConstAnswer::BadOperands,
    }
}

fn sum(x: i128, y: i128) -> ConstAnswer
    ensures { result ≡ whole (x +ℤ y) }
{
    match x.checked_add(y) {
        Some(n) => ConstAnswer::Value(Const::Int(n)),
        None => ConstAnswer::Wide,
    }
}

fn difference(x: i128, y: i128) -> ConstAnswer
    ensures { result ≡ whole (x -ℤ y) }
{
    match x.checked_sub(y) {
        Some(n) => ConstAnswer::Value(Const::Int(n)),
        None => ConstAnswer::Wide,
    }
}

pub fn product(x: i128, y: i128) -> ConstAnswer
    ensures { result ≡ whole (x *ℤ y) }
{
    match x.checked_mul(y) {
        Some(n) => ConstAnswer::Value(Const::Int(n)),
        None => ConstAnswer::Wide,
    }
}

fn negation(x: i128) -> ConstAnswer
    ensures { result ≡ whole (neg_ℤ x) }
{
    match x.checked_neg() {
        Some(n) => ConstAnswer::Value(Const::Int(n)),
        None => ConstAnswer::Wide,
    }
}

/// The least integer by -1 is the only quotient that is wide.
fn quotient(x: i128, y: i128) -> ConstAnswer
    ensures { result ≡ divided_by y (int_div x y) }
{
    if y == 0 {
        return ConstAnswer::ZeroDivisor;
    }
    if y == -1 {
        return negation(x);
    }
    narrow(x / y)
}

fn remainder(x: i128, y: i128) -> ConstAnswer
    ensures { result ≡ divided_by y (int_rem x y) }
{
    if y == 0 {
        return ConstAnswer::ZeroDivisor;
    }
    if y == -1 {
        return narrow(0);
    }
    narrow(x % y)
}
