//! Conversions (Go 1.17, "Conversions").
ghost use Rattle.std.specs.Prelude.{◌≡◌, IfOk, encode_utf8};
ghost use Rattle.gv_base.specs.Fits.{values_of};
ghost use Rattle.const_eval.specs.Meaning.{convert_of, character_of, kept_among, is_among};

use crate::answer::ConstAnswer;
use gv_base::{Const, ConstText, Kind, NoMemory, fits};
use std::alloc::Global;

/// The value of the conversion of `x` to the kind `to`.
///
/// A constant that the kind represents stays as it is. An integer becomes, at a string kind, the text
/// of the character with that number in UTF-8, or of U+FFFD where there is none: below 0, above
/// 10FFFF, or a surrogate half. Any other conversion gives `BadOperands`, also that of an integer
/// that does not fit.
pub fn convert(alloc: Global, x: &Const, to: Kind) -> Result<ConstAnswer, NoMemory>
    ensures { IfOk result (λ answer. answer ≡ convert_of x.now to) }
{
    match x {
        Const::Truth(p) => Ok(kept(Const::Truth(*p), to)),
        Const::Int(n) => convert_integer(alloc, *n, to),
        Const::Text(s) => convert_text(alloc, s, to),
    }
}

fn kept(x: Const, to: Kind) -> ConstAnswer
    ensures { result ≡ kept_among x (values_of to) }
{
    if is_among(&x, to) {
        ConstAnswer::Value(x)
    } else {
        ConstAnswer::BadOperands
    }
}

fn is_among(x: &Const, k: Kind) -> bool
    ensures { result ≡ is_among x.now (values_of k) }
{
    fits(x, k)
}

fn convert_text(alloc: Global, s: &ConstText, to: Kind) -> Result<ConstAnswer, NoMemory>
    ensures { IfOk result (λ answer. answer ≡ kept_among (Const.Text s.now) (values_of to)) }
{
    let copy = s.copy(alloc)?;
    Ok(kept(Const::Text(copy), to))
}

fn convert_integer(alloc: Global, n: i128, to: Kind) -> Result<ConstAnswer, NoMemory>
    ensures { IfOk result (λ answer. answer ≡ convert_of (Const.Int n) to) }
{
    if to.is_string() {
        let text = spelled(alloc, character(n))?;
        return Ok(ConstAnswer::Value(Const::Text(text)));
    }
    Ok(kept(Const::Int(n), to))
}

/// The character with this number, else U+FFFD.
fn character(n: i128) -> char
    ensures { result ≡ character_of n }
{
    if n < 0 || n > 0x10_FFFF {
        return char::REPLACEMENT_CHARACTER;
    }
    match char::from_u32(n as u32) {
        Some(c) => c,
        None => char::REPLACEMENT_CHARACTER,
    }
}

fn spelled(alloc: Global, c: char) -> Result<ConstText, NoMemory>
    ensures { IfOk result (λ text. text ≡ encode_utf8 c) }
{
    let mut buffer = [0; 4];
    let bytes = c.encode_utf8(&mut buffer).as_bytes().to_vec(alloc)?;
    Ok(ConstText::new(bytes))
}
