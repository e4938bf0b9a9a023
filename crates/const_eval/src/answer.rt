//! What the value of a constant expression may be.
ghost use Rattle.std.specs.Prelude.{◌≡◌, pos};
ghost use Rattle.std.specs.Ordering.{int_eq};
ghost use Rattle.const_eval.specs.Answers.{whole, truth};

use gv_base::Const;

/// The answer of an operator or a conversion. It is determined by the operands alone.
#[derive(Drop)]
pub enum ConstAnswer {
    /// The value.
    Value(Const),
    /// A division of integers by zero.
    ZeroDivisor,
    /// The value is an integer outside -2^127 to 2^127 - 1.
    Wide,
    /// The value is a text of more than 65,536 bytes.
    LongText,
    /// The mark is no operator, or the operator or conversion is not defined on these values.
    BadOperands,
}

/// An integer of 128 bits.
pub fn narrow(n: i128) -> ConstAnswer
    ensures { result ≡ whole n }
{
    ConstAnswer::Value(Const::Int(n))
}

pub fn truth(b: bool) -> ConstAnswer
    ensures { result ≡ truth b }
{
    ConstAnswer::Value(Const::Truth(b))
}
