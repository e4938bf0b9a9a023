//! The values of constant expressions: operators and conversions on truths, on integers of 128 bits
//! and on texts (Go 1.17, "Constant expressions").
#![tactic(auto)]

mod answer;
mod bits;
mod conversion;
mod integer;
mod one_operand;
mod operator;
mod shift;
mod text;
mod truth;
mod two_operands;

pub use answer::ConstAnswer;
pub use conversion::convert;
pub use one_operand::unary;
pub use operator::Operator;
pub use two_operands::binary;
