//! Unary operators (Go 1.17, "Arithmetic operators" and "Logical operators").
ghost use Rattle.std.specs.Prelude.{◌≡◌, IfOk};
ghost use Rattle.gv_base.specs.Fits.{values_of};
ghost use Rattle.const_eval.specs.Integers.{ones_of};
ghost use Rattle.const_eval.specs.Meaning.{unary_of, on_operand};

use crate::answer::ConstAnswer;
use crate::integer::on_integer;
use crate::operator::Operator;
use crate::truth::on_truth;
use gv_base::{Const, Kind, NoMemory};
use std::alloc::Global;

/// The value of the unary operator with the mark number `op` at the operand `x` of the kind `k`:
/// `+`, `-` and `^` of an integer, and `!` of a truth. The kind matters to `^` alone: at an unsigned
/// kind it is `m ^ x` with the kind's greatest value m, at any other with -1.
///
/// `Wide` is the answer of `-` at the least integer alone; every mark and operand that the above
/// does not name gives `BadOperands`. Marks are numbered from 0 in byte order of their spellings.
pub fn unary(_alloc: Global, op: u8, x: &Const, k: Kind) -> Result<ConstAnswer, NoMemory>
    ensures { IfOk result (λ answer. answer ≡ unary_of op x.now k) }
{
    match Operator::from_mark(op) {
        Some(operator) => Ok(on_operand(operator, ones(k), x)),
        None => Ok(ConstAnswer::BadOperands),
    }
}

fn on_operand(operator: Operator, ones: i128, x: &Const) -> ConstAnswer
    ensures { result ≡ on_operand operator ones x.now }
{
    match x {
        Const::Truth(p) => on_truth(operator, *p),
        Const::Int(n) => on_integer(operator, ones, *n),
        Const::Text(_) => ConstAnswer::BadOperands,
    }
}

/// The integer of this kind whose bits are all set.
fn ones(k: Kind) -> i128
    ensures { result ≡ ones_of (values_of k) }
{
    match k {
        Kind::Uint => u64::MAX as i128,
        Kind::Uint8 => u8::MAX as i128,
        Kind::Uint16 => u16::MAX as i128,
        Kind::Uint32 => u32::MAX as i128,
        Kind::Uint64 => u64::MAX as i128,
        Kind::Uintptr => u64::MAX as i128,
        Kind::Bool => -1,
        Kind::Int => -1,
        Kind::Int8 => -1,
        Kind::Int16 => -1,
        Kind::Int32 => -1,
        Kind::Int64 => -1,
        Kind::Text => -1,
        Kind::UntypedBool => -1,
        Kind::UntypedInt => -1,
        Kind::UntypedRune => -1,
        Kind::UntypedText => -1,
        Kind::UntypedNil => -1,
    }
}
