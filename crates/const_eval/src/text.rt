//! The operators on texts (Go 1.17, "String concatenation" and "Comparison operators").
ghost use Rattle.std.specs.Prelude.{◌≡◌, ◌≤◌, ◌++◌, length, IfOk};
ghost use Rattle.std.specs.Cmp.Lexicographic.{slice_cmp};
ghost use Rattle.std.specs.Ordering.{nat_cmp, is_lt, is_le, is_gt};
ghost use Rattle.const_eval.specs.Answers.{text};
ghost use Rattle.const_eval.specs.Texts.{on_texts};

use crate::answer::{ConstAnswer, truth};
use crate::operator::Operator;
use gv_base::{Const, ConstText, NoMemory};
use std::alloc::Global;
use std::cmp::Ordering;

pub fn on_texts(
    alloc: Global,
    operator: Operator,
    s: &ConstText,
    t: &ConstText,
) -> Result<ConstAnswer, NoMemory>
    ensures { IfOk result (λ answer. answer ≡ on_texts operator s.now t.now) }
{
    match operator {
        Operator::Add => concatenation(alloc, s.bytes(), t.bytes()),
        Operator::Equal => Ok(truth(s.bytes() == t.bytes())),
        Operator::NotEqual => Ok(truth(s.bytes() != t.bytes())),
        Operator::Less => Ok(truth(is_less(order(s.bytes(), t.bytes())))),
        Operator::LessEqual => Ok(truth(is_at_most(order(s.bytes(), t.bytes())))),
        Operator::Greater => Ok(truth(is_greater(order(s.bytes(), t.bytes())))),
        Operator::GreaterEqual => Ok(truth(!is_less(order(s.bytes(), t.bytes())))),
        Operator::Subtract => Ok(ConstAnswer::BadOperands),
        Operator::Multiply => Ok(ConstAnswer::BadOperands),
        Operator::Divide => Ok(ConstAnswer::BadOperands),
        Operator::Remainder => Ok(ConstAnswer::BadOperands),
        Operator::And => Ok(ConstAnswer::BadOperands),
        Operator::Or => Ok(ConstAnswer::BadOperands),
        Operator::Xor => Ok(ConstAnswer::BadOperands),
        Operator::AndNot => Ok(ConstAnswer::BadOperands),
        Operator::ShiftLeft => Ok(ConstAnswer::BadOperands),
        Operator::ShiftRight => Ok(ConstAnswer::BadOperands),
        Operator::Not => Ok(ConstAnswer::BadOperands),
        Operator::AndAlso => Ok(ConstAnswer::BadOperands),
        Operator::OrElse => Ok(ConstAnswer::BadOperands),
    }
}

fn concatenation(alloc: Global, s: &[u8], t: &[u8]) -> Result<ConstAnswer, NoMemory>
    requires first { length s.now ≤ 65536 }
    requires second { length t.now ≤ 65536 }
    ensures { IfOk result (λ answer. answer ≡ text (s.now ++ t.now)) }
{
    if s.len() + t.len() > ConstText::LIMIT {
        return Ok(ConstAnswer::LongText);
    }
    let mut bytes = Vec::with_capacity(alloc, s.len() + t.len())?;
    bytes.extend_from_slice(s)?;
    bytes.extend_from_slice(t)?;
    Ok(ConstAnswer::Value(Const::Text(ConstText::new(bytes))))
}

fn order(s: &[u8], t: &[u8]) -> Ordering
    ensures { result ≡ slice_cmp nat_cmp s.now t.now }
{
    s.cmp(t)
}

fn is_less(order: Ordering) -> bool
    ensures { result ≡ is_lt order }
{
    order.is_lt()
}

fn is_at_most(order: Ordering) -> bool
    ensures { result ≡ is_le order }
{
    order.is_le()
}

fn is_greater(order: Ordering) -> bool
    ensures { result ≡ is_gt order }
{
    order.is_gt()
}
