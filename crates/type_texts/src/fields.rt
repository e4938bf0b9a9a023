//! Reading the fields of an export text.
ghost use Rattle.std.specs.Prelude.{◌≡◌};
ghost use Rattle.gv_bytes.specs.Reading.{Gives};
ghost use Rattle.type_texts.specs.Fields.{utf8_of, name_at, bit_at, dir_numbered, dir_at, kind_at, truth_at, int_at, const_text_at, value_at};

use gv_base::{Const, ConstText, Kind, Text};
use gv_bytes::{Unread, read_natural, split_num, split_text};
use std::alloc::Global;
use type_model::Dir;

/// The text of these bytes.
fn utf8(bytes: &[u8]) -> Result<&str, Unread>
    ensures { Gives (λ s. s.now) result (utf8_of bytes.now) }
{
    match std::str::from_utf8(bytes) {
        Ok(text) => Ok(text),
        Err(_) => Err(Unread::Unspelled),
    }
}

/// A name, copied.
#[tactic(auto, unfolding(crate::specs::Fields::name_at))]
pub fn read_name(alloc: Global, bytes: &[u8]) -> Result<(Text, &[u8]), Unread>
    ensures { Gives (λ x. (x.0, x.1.now)) result (name_at bytes.now) }
{
    let Some((spelled, rest)) = split_text(bytes) else {
        return Err(Unread::Unspelled);
    };
    let text = utf8(spelled)?;
    let copy = Text::of(alloc, text)?;
    Ok((copy, rest))
}

/// 0 or 1.
pub fn read_bit(bytes: &[u8]) -> Result<(bool, &[u8]), Unread>
    ensures { Gives (λ x. (x.0, x.1.now)) result (bit_at bytes.now) }
{
    let (number, rest) = read_natural(bytes, 1)?;
    Ok((number == 1, rest))
}

fn dir_of(number: u64) -> Dir
    ensures { result ≡ dir_numbered number }
{
    if number == 0 {
        Dir::Both
    } else if number == 1 {
        Dir::Send
    } else {
        Dir::Receive
    }
}

/// The direction of a channel type.
pub fn read_dir(bytes: &[u8]) -> Result<(Dir, &[u8]), Unread>
    ensures { Gives (λ x. (x.0, x.1.now)) result (dir_at bytes.now) }
{
    let (number, rest) = read_natural(bytes, 2)?;
    Ok((dir_of(number), rest))
}

/// The number of a basic type.
pub fn read_kind(bytes: &[u8]) -> Result<(Kind, &[u8]), Unread>
    ensures { Gives (λ x. (x.0, x.1.now)) result (kind_at bytes.now) }
{
    let (number, rest) = read_natural(bytes, 17)?;
    Ok((Kind::of_number(number as u8), rest))
}

fn read_truth(bytes: &[u8]) -> Result<(Const, &[u8]), Unread>
    ensures { Gives (λ x. (x.0, x.1.now)) result (truth_at bytes.now) }
{
    let (number, rest) = read_natural(bytes, 1)?;
    Ok((Const::Truth(number == 1), rest))
}

fn read_int(bytes: &[u8]) -> Result<(Const, &[u8]), Unread>
    ensures { Gives (λ x. (x.0, x.1.now)) result (int_at bytes.now) }
{
    let Some((n, rest)) = split_num(bytes) else {
        return Err(Unread::Unspelled);
    };
    Ok((Const::Int(n), rest))
}

#[tactic(auto, unfolding(crate::specs::Fields::const_text_at))]
fn read_const_text(alloc: Global, bytes: &[u8]) -> Result<(Const, &[u8]), Unread>
    ensures { Gives (λ x. (x.0, x.1.now)) result (const_text_at bytes.now) }
{
    let Some((text, rest)) = split_text(bytes) else {
        return Err(Unread::Unspelled);
    };
    if text.len() > ConstText::LIMIT {
        return Err(Unread::Unspelled);
    }
    let copy = Vec::from_slice(alloc, text)?;
    Ok((Const::Text(ConstText::new(copy)), rest))
}

/// The value of a constant.
#[tactic(auto, unfolding(crate::specs::Fields::value_at))]
pub fn read_value(alloc: Global, bytes: &[u8]) -> Result<(Const, &[u8]), Unread>
    ensures { Gives (λ x. (x.0, x.1.now)) result (value_at bytes.now) }
{
    match bytes {
        [b'q', rest @ ..] => {
            let x = read_truth(rest)?;
            Ok(x)
        }
        [b'n', rest @ ..] => {
            let x = read_int(rest)?;
            Ok(x)
        }
        [b'x', rest @ ..] => {
            let x = read_const_text(alloc, rest)?;
            Ok(x)
        }
        _ => Err(Unread::Unspelled),
    }
}
