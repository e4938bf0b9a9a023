//! Going through an interface's text for the packages that it mentions: no interface is made of it.
ghost use Rattle.std.specs.Prelude.{IfOk};
ghost use Rattle.gv_bytes.specs.Reading.{Gives};
ghost use Rattle.package_faces.specs.Faces.{Face};
ghost use Rattle.export_text.specs.Faces.{IsFaceText};
ghost use Rattle.export_text.specs.Mentions.{AreMentions};
ghost use Rattle.export_text.specs.Skimming.{constant_skimmed, defined_skimmed, each_skimmed, face_skimmed, form_skimmed, items_skimmed, method_skimmed, object_skimmed};

use crate::fronts::split_name;
use crate::mentioning::in_order;
use crate::type_skimming::skim_type;
use gv_base::{NoMemory, Text};
use gv_bytes::{Unread, read_natural};
use std::alloc::Global;
use type_texts::{read_bit, read_value};

/// A constant's type, and its value.
#[tactic(auto, unfolding(crate::specs::Skimming::constant_skimmed))]
fn skim_constant<'a>(
    alloc: Global,
    path: &str,
    out: &mut Vec<Text>,
    bytes: &'a [u8],
) -> Result<&'a [u8], Unread>
    ensures { Gives (λ rest. (out.new.items, rest.now)) result (constant_skimmed path.now out.old.items bytes.now) }
{
    let rest = skim_type(alloc, path, out, bytes)?;
    let (_value, rest) = read_value(alloc, rest)?;
    Ok(rest)
}

#[tactic(auto, unfolding(crate::specs::Skimming::form_skimmed))]
fn skim_form<'a>(
    alloc: Global,
    path: &str,
    out: &mut Vec<Text>,
    bytes: &'a [u8],
) -> Result<&'a [u8], Unread>
    ensures { Gives (λ rest. (out.new.items, rest.now)) result (form_skimmed path.now out.old.items bytes.now) }
{
    match bytes {
        [b'k', rest @ ..] => {
            let rest = skim_constant(alloc, path, out, rest)?;
            Ok(rest)
        }
        [b'v', rest @ ..] => {
            let rest = skim_type(alloc, path, out, rest)?;
            Ok(rest)
        }
        [b'f', rest @ ..] => {
            let rest = skim_type(alloc, path, out, rest)?;
            Ok(rest)
        }
        [b't', rest @ ..] => Ok(rest),
        [b'a', rest @ ..] => {
            let rest = skim_type(alloc, path, out, rest)?;
            Ok(rest)
        }
        _ => Err(Unread::Unspelled),
    }
}

#[tactic(auto, unfolding(crate::specs::Skimming::object_skimmed))]
fn skim_object<'a>(
    alloc: Global,
    path: &str,
    out: &mut Vec<Text>,
    bytes: &'a [u8],
) -> Result<&'a [u8], Unread>
    ensures { Gives (λ rest. (out.new.items, rest.now)) result (object_skimmed path.now out.old.items bytes.now) }
{
    let (_name, rest) = split_name(bytes)?;
    let rest = skim_form(alloc, path, out, rest)?;
    Ok(rest)
}

/// So many objects.
fn skim_objects<'a>(
    alloc: Global,
    path: &str,
    out: &mut Vec<Text>,
    count: u64,
    bytes: &'a [u8],
) -> Result<&'a [u8], Unread>
    ensures { Gives (λ rest. (out.new.items, rest.now)) result (each_skimmed (object_skimmed path.now) count out.old.items bytes.now) }
{
    let mut rest = bytes;
    for _ in 0..count {
        let after = skim_object(alloc, path, out, rest)?;
        rest = after;
    }
    Ok(rest)
}

#[tactic(auto, unfolding(crate::specs::Skimming::items_skimmed))]
fn skim_all_objects<'a>(
    alloc: Global,
    path: &str,
    out: &mut Vec<Text>,
    bytes: &'a [u8],
) -> Result<&'a [u8], Unread>
    ensures { Gives (λ rest. (out.new.items, rest.now)) result (items_skimmed (object_skimmed path.now) out.old.items bytes.now) }
{
    let (count, rest) = read_natural(bytes, u64::MAX)?;
    let rest = skim_objects(alloc, path, out, count, rest)?;
    Ok(rest)
}

#[tactic(auto, unfolding(crate::specs::Skimming::method_skimmed))]
fn skim_method<'a>(
    alloc: Global,
    path: &str,
    out: &mut Vec<Text>,
    bytes: &'a [u8],
) -> Result<&'a [u8], Unread>
    ensures { Gives (λ rest. (out.new.items, rest.now)) result (method_skimmed path.now out.old.items bytes.now) }
{
    let (_name, rest) = split_name(bytes)?;
    let (_owner, rest) = split_name(rest)?;
    let (_pointer, rest) = read_bit(rest)?;
    let rest = skim_type(alloc, path, out, rest)?;
    Ok(rest)
}

/// So many methods.
fn skim_methods<'a>(
    alloc: Global,
    path: &str,
    out: &mut Vec<Text>,
    count: u64,
    bytes: &'a [u8],
) -> Result<&'a [u8], Unread>
    ensures { Gives (λ rest. (out.new.items, rest.now)) result (each_skimmed (method_skimmed path.now) count out.old.items bytes.now) }
{
    let mut rest = bytes;
    for _ in 0..count {
        let after = skim_method(alloc, path, out, rest)?;
        rest = after;
    }
    Ok(rest)
}

#[tactic(auto, unfolding(crate::specs::Skimming::items_skimmed))]
fn skim_all_methods<'a>(
    alloc: Global,
    path: &str,
    out: &mut Vec<Text>,
    bytes: &'a [u8],
) -> Result<&'a [u8], Unread>
    ensures { Gives (λ rest. (out.new.items, rest.now)) result (items_skimmed (method_skimmed path.now) out.old.items bytes.now) }
{
    let (count, rest) = read_natural(bytes, u64::MAX)?;
    let rest = skim_methods(alloc, path, out, count, rest)?;
    Ok(rest)
}

#[tactic(auto, unfolding(crate::specs::Skimming::defined_skimmed))]
fn skim_defined<'a>(
    alloc: Global,
    path: &str,
    out: &mut Vec<Text>,
    bytes: &'a [u8],
) -> Result<&'a [u8], Unread>
    ensures { Gives (λ rest. (out.new.items, rest.now)) result (defined_skimmed path.now out.old.items bytes.now) }
{
    let (_name, rest) = split_name(bytes)?;
    let rest = skim_type(alloc, path, out, rest)?;
    let rest = skim_all_methods(alloc, path, out, rest)?;
    Ok(rest)
}

/// So many defined types.
fn skim_defineds<'a>(
    alloc: Global,
    path: &str,
    out: &mut Vec<Text>,
    count: u64,
    bytes: &'a [u8],
) -> Result<&'a [u8], Unread>
    ensures { Gives (λ rest. (out.new.items, rest.now)) result (each_skimmed (defined_skimmed path.now) count out.old.items bytes.now) }
{
    let mut rest = bytes;
    for _ in 0..count {
        let after = skim_defined(alloc, path, out, rest)?;
        rest = after;
    }
    Ok(rest)
}

#[tactic(auto, unfolding(crate::specs::Skimming::items_skimmed))]
fn skim_all_defineds<'a>(
    alloc: Global,
    path: &str,
    out: &mut Vec<Text>,
    bytes: &'a [u8],
) -> Result<&'a [u8], Unread>
    ensures { Gives (λ rest. (out.new.items, rest.now)) result (items_skimmed (defined_skimmed path.now) out.old.items bytes.now) }
{
    let (count, rest) = read_natural(bytes, u64::MAX)?;
    let rest = skim_defineds(alloc, path, out, count, rest)?;
    Ok(rest)
}

/// The packages that the text mentions, as they come.
#[tactic(auto, unfolding(crate::specs::Skimming::face_skimmed))]
fn skim_face(alloc: Global, bytes: &[u8]) -> Result<Vec<Text>, Unread>
    ensures { Gives (λ v. v.items) result (face_skimmed bytes.now) }
{
    let mut out = Vec::new(alloc);
    let (path, rest) = split_name(bytes)?;
    let (_name, rest) = split_name(rest)?;
    let rest = skim_all_objects(alloc, path, &mut out, rest)?;
    let _rest = skim_all_defineds(alloc, path, &mut out, rest)?;
    Ok(out)
}

/// The packages of the defined types in an interface's text, in byte order, each once; without its own, and without the empty one of
/// predeclared types. No type is made of the text. Of bytes that spell no interface any may come.
pub fn text_mentions(alloc: Global, bytes: &[u8]) -> Result<Vec<Text>, NoMemory>
    ensures { (f : Face) → IsFaceText f bytes.now → IfOk result (λ paths. AreMentions f paths.items) }
{
    match skim_face(alloc, bytes) {
        Ok(found) => Ok(in_order(found)),
        Err(Unread::Unspelled) => Ok(Vec::new(alloc)),
        Err(Unread::Memory) => Err(NoMemory),
    }
}
