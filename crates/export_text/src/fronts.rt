//! What stands at the front of a type's text: what it wants behind it, and the package of a defined type. No name is copied.
ghost use Rattle.gv_bytes.specs.Reading.{Gives};
ghost use Rattle.type_texts.specs.Fields.{utf8_of, name_at};
ghost use Rattle.type_texts.specs.Pieces.{array_at, basic_at, chan_at, defined_at, field_at, func_at, interface_at, list_at, method_at, piece_at, signature_at, struct_at, tag_at, type_piece_at, variadic_at};
ghost use Rattle.type_texts.specs.Readers.{via_at};
ghost use Rattle.export_text.specs.Skimming.{seen, shown};

use gv_bytes::{Unread, read_natural, split_text};
use type_texts::{Sort, read_bit};

/// What stands at the front of a type's text, by what it wants behind it.
#[derive(Clone, Copy, Drop)]
pub(crate) enum Front<'a> {
    /// Nothing.
    Leaf,
    /// Nothing: the name of a defined type, by its package.
    Named(&'a str),
    /// A type.
    Over,
    /// Two types.
    OverTwo,
    /// Two lists of types.
    Lists,
    /// So many types.
    Types(u64),
    /// So many fields.
    Fields(u64),
    /// A type, and a tag.
    Field,
    /// So many methods.
    Methods(u64),
    /// A signature.
    Method,
}

/// The text of these bytes.
fn utf8(bytes: &[u8]) -> Result<&str, Unread>
    ensures { Gives (λ s. s.now) result (utf8_of bytes.now) }
{
    match std::str::from_utf8(bytes) {
        Ok(text) => Ok(text),
        Err(_) => Err(Unread::Unspelled),
    }
}

/// The name at the front, and the bytes behind it.
#[tactic(auto, unfolding(type_texts::specs::Fields::name_at))]
pub(crate) fn split_name(bytes: &[u8]) -> Result<(&str, &[u8]), Unread>
    ensures { Gives (λ x. (x.0.now, x.1.now)) result (name_at bytes.now) }
{
    let Some((spelled, rest)) = split_text(bytes) else {
        return Err(Unread::Unspelled);
    };
    let name = utf8(spelled)?;
    Ok((name, rest))
}

#[tactic(auto, unfolding(type_texts::specs::Pieces::defined_at))]
fn defined_of<'a>(bytes: &'a [u8]) -> Result<(Front<'a>, &'a [u8]), Unread>
    ensures { Gives (λ x. (shown x.0, x.1.now)) result (via_at seen defined_at bytes.now) }
{
    let (package, rest) = split_name(bytes)?;
    let (_name, rest) = split_name(rest)?;
    Ok((Front::Named(package), rest))
}

#[tactic(auto, unfolding(type_texts::specs::Pieces::basic_at))]
fn basic_of<'a>(bytes: &'a [u8]) -> Result<(Front<'a>, &'a [u8]), Unread>
    ensures { Gives (λ x. (shown x.0, x.1.now)) result (via_at seen basic_at bytes.now) }
{
    let (_kind, rest) = read_natural(bytes, 17)?;
    Ok((Front::Leaf, rest))
}

#[tactic(auto, unfolding(type_texts::specs::Pieces::array_at))]
fn array_of<'a>(bytes: &'a [u8]) -> Result<(Front<'a>, &'a [u8]), Unread>
    ensures { Gives (λ x. (shown x.0, x.1.now)) result (via_at seen array_at bytes.now) }
{
    let (_size, rest) = read_natural(bytes, u64::MAX)?;
    Ok((Front::Over, rest))
}

#[tactic(auto, unfolding(type_texts::specs::Pieces::chan_at))]
fn chan_of<'a>(bytes: &'a [u8]) -> Result<(Front<'a>, &'a [u8]), Unread>
    ensures { Gives (λ x. (shown x.0, x.1.now)) result (via_at seen chan_at bytes.now) }
{
    let (_direction, rest) = read_natural(bytes, 2)?;
    Ok((Front::Over, rest))
}

#[tactic(auto, unfolding(type_texts::specs::Pieces::func_at))]
fn func_of<'a>(bytes: &'a [u8]) -> Result<(Front<'a>, &'a [u8]), Unread>
    ensures { Gives (λ x. (shown x.0, x.1.now)) result (via_at seen func_at bytes.now) }
{
    let (_variadic, rest) = read_bit(bytes)?;
    Ok((Front::Lists, rest))
}

#[tactic(auto, unfolding(type_texts::specs::Pieces::struct_at))]
fn struct_of<'a>(bytes: &'a [u8]) -> Result<(Front<'a>, &'a [u8]), Unread>
    ensures { Gives (λ x. (shown x.0, x.1.now)) result (via_at seen struct_at bytes.now) }
{
    let (count, rest) = read_natural(bytes, u64::MAX)?;
    Ok((Front::Fields(count), rest))
}

#[tactic(auto, unfolding(type_texts::specs::Pieces::interface_at))]
fn interface_of<'a>(bytes: &'a [u8]) -> Result<(Front<'a>, &'a [u8]), Unread>
    ensures { Gives (λ x. (shown x.0, x.1.now)) result (via_at seen interface_at bytes.now) }
{
    let (count, rest) = read_natural(bytes, u64::MAX)?;
    Ok((Front::Methods(count), rest))
}

#[tactic(auto, unfolding(type_texts::specs::Pieces::list_at))]
fn list_of<'a>(bytes: &'a [u8]) -> Result<(Front<'a>, &'a [u8]), Unread>
    ensures { Gives (λ x. (shown x.0, x.1.now)) result (via_at seen list_at bytes.now) }
{
    let (count, rest) = read_natural(bytes, u64::MAX)?;
    Ok((Front::Types(count), rest))
}

#[tactic(auto, unfolding(type_texts::specs::Pieces::field_at))]
fn field_of<'a>(bytes: &'a [u8]) -> Result<(Front<'a>, &'a [u8]), Unread>
    ensures { Gives (λ x. (shown x.0, x.1.now)) result (via_at seen field_at bytes.now) }
{
    let (_name, rest) = split_name(bytes)?;
    let (_owner, rest) = split_name(rest)?;
    let (_embedded, rest) = read_bit(rest)?;
    Ok((Front::Field, rest))
}

#[tactic(auto, unfolding(type_texts::specs::Pieces::tag_at))]
fn tag_of<'a>(bytes: &'a [u8]) -> Result<(Front<'a>, &'a [u8]), Unread>
    ensures { Gives (λ x. (shown x.0, x.1.now)) result (via_at seen tag_at bytes.now) }
{
    let Some((_text, rest)) = split_text(bytes) else {
        return Err(Unread::Unspelled);
    };
    Ok((Front::Leaf, rest))
}

#[tactic(auto, unfolding(type_texts::specs::Pieces::method_at))]
fn method_of<'a>(bytes: &'a [u8]) -> Result<(Front<'a>, &'a [u8]), Unread>
    ensures { Gives (λ x. (shown x.0, x.1.now)) result (via_at seen method_at bytes.now) }
{
    let (_name, rest) = split_name(bytes)?;
    let (_owner, rest) = split_name(rest)?;
    Ok((Front::Method, rest))
}

#[tactic(auto, unfolding(type_texts::specs::Pieces::variadic_at))]
fn variadic_of<'a>(bytes: &'a [u8]) -> Result<(Front<'a>, &'a [u8]), Unread>
    ensures { Gives (λ x. (shown x.0, x.1.now)) result (via_at seen variadic_at bytes.now) }
{
    let (_variadic, rest) = read_bit(bytes)?;
    Ok((Front::Lists, rest))
}

#[tactic(auto, unfolding(type_texts::specs::Pieces::signature_at))]
fn signature_of<'a>(bytes: &'a [u8]) -> Result<(Front<'a>, &'a [u8]), Unread>
    ensures { Gives (λ x. (shown x.0, x.1.now)) result (via_at seen signature_at bytes.now) }
{
    match bytes {
        [b'f', rest @ ..] => {
            let x = variadic_of(rest)?;
            Ok(x)
        }
        _ => Err(Unread::Unspelled),
    }
}

#[tactic(auto, unfolding(type_texts::specs::Pieces::type_piece_at))]
fn type_piece_of<'a>(bytes: &'a [u8]) -> Result<(Front<'a>, &'a [u8]), Unread>
    ensures { Gives (λ x. (shown x.0, x.1.now)) result (via_at seen type_piece_at bytes.now) }
{
    match bytes {
        [b'b', rest @ ..] => {
            let x = basic_of(rest)?;
            Ok(x)
        }
        [b'd', rest @ ..] => {
            let x = defined_of(rest)?;
            Ok(x)
        }
        [b'p', rest @ ..] => Ok((Front::Over, rest)),
        [b's', rest @ ..] => Ok((Front::Over, rest)),
        [b'a', rest @ ..] => {
            let x = array_of(rest)?;
            Ok(x)
        }
        [b'm', rest @ ..] => Ok((Front::OverTwo, rest)),
        [b'c', rest @ ..] => {
            let x = chan_of(rest)?;
            Ok(x)
        }
        [b'f', rest @ ..] => {
            let x = func_of(rest)?;
            Ok(x)
        }
        [b't', rest @ ..] => {
            let x = struct_of(rest)?;
            Ok(x)
        }
        [b'i', rest @ ..] => {
            let x = interface_of(rest)?;
            Ok(x)
        }
        _ => Err(Unread::Unspelled),
    }
}

/// What stands at the front, where a piece of this sort is wanted.
pub(crate) fn front_of<'a>(sort: Sort, bytes: &'a [u8]) -> Result<(Front<'a>, &'a [u8]), Unread>
    ensures { Gives (λ x. (shown x.0, x.1.now)) result (via_at seen (piece_at sort) bytes.now) }
{
    match sort {
        Sort::OneType => {
            let x = type_piece_of(bytes)?;
            Ok(x)
        }
        Sort::SomeTypes => {
            let x = list_of(bytes)?;
            Ok(x)
        }
        Sort::OneField => {
            let x = field_of(bytes)?;
            Ok(x)
        }
        Sort::OneTag => {
            let x = tag_of(bytes)?;
            Ok(x)
        }
        Sort::OneMethod => {
            let x = method_of(bytes)?;
            Ok(x)
        }
        Sort::OneSignature => {
            let x = signature_of(bytes)?;
            Ok(x)
        }
    }
}
