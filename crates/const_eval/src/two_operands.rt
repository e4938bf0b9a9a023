//! Binary operators (Go 1.17, "Operators").
ghost use Rattle.std.specs.Prelude.{◌≡◌, IfOk};
ghost use Rattle.const_eval.specs.Meaning.{binary_of, on_operands};

use crate::answer::ConstAnswer;
use crate::integer::on_integers;
use crate::operator::Operator;
use crate::text::on_texts;
use crate::truth::on_truths;
use gv_base::{Const, ConstText, NoMemory};
use std::alloc::Global;

/// The value of the binary operator with the mark number `op`.
///
/// - On two integers: `+ - * / % & | ^ &^ << >>` and the comparisons. Division rounds toward zero,
///   a remainder has the sign of `x`, and bits are those of two's complement. A shift takes any
///   count but a negative one, which gives `BadOperands`.
/// - On two truths: `&& || == !=`. On two texts: `+` and the comparisons, by bytes.
/// - `ZeroDivisor` is the answer of `/` and `%` at 0, `Wide` of an integer outside 128 bits, `LongText`
///   of a text over 65,536 bytes, and `BadOperands` of any other mark or mixture of operands.
///
/// Marks are numbered from 0 in byte order of their spellings.
pub fn binary(alloc: Global, op: u8, x: &Const, y: &Const) -> Result<ConstAnswer, NoMemory>
    ensures { IfOk result (λ answer. answer ≡ binary_of op x.now y.now) }
{
    match Operator::from_mark(op) {
        Some(operator) => on_operands(alloc, operator, x, y),
        None => Ok(ConstAnswer::BadOperands),
    }
}

fn on_operands(
    alloc: Global,
    operator: Operator,
    x: &Const,
    y: &Const,
) -> Result<ConstAnswer, NoMemory>
    ensures { IfOk result (λ answer. answer ≡ on_operands operator x.now y.now) }
{
    match x {
        Const::Truth(p) => Ok(beside_truth(operator, *p, y)),
        Const::Int(m) => Ok(beside_integer(operator, *m, y)),
        Const::Text(s) => beside_text(alloc, operator, s, y),
    }
}

fn beside_truth(operator: Operator, p: bool, y: &Const) -> ConstAnswer
    ensures { result ≡ on_operands operator (Const.Truth p) y.now }
{
    match y {
        Const::Truth(q) => on_truths(operator, p, *q),
        Const::Int(_) => ConstAnswer::BadOperands,
        Const::Text(_) => ConstAnswer::BadOperands,
    }
}

fn beside_integer(operator: Operator, m: i128, y: &Const) -> ConstAnswer
    ensures { result ≡ on_operands operator (Const.Int m) y.now }
{
    match y {
        Const::Int(n) => on_integers(operator, m, *n),
        Const::Truth(_) => ConstAnswer::BadOperands,
        Const::Text(_) => ConstAnswer::BadOperands,
    }
}

fn beside_text(
    alloc: Global,
    operator: Operator,
    s: &ConstText,
    y: &Const,
) -> Result<ConstAnswer, NoMemory>
    ensures { IfOk result (λ answer. answer ≡ on_operands operator (Const.Text s.now) y.now) }
{
    match y {
        Const::Text(t) => on_texts(alloc, operator, s, t),
        Const::Truth(_) => Ok(ConstAnswer::BadOperands),
        Const::Int(_) => Ok(ConstAnswer::BadOperands),
    }
}
