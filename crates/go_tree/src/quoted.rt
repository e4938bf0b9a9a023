//! The values of text literals.
ghost use Rattle.std.specs.Prelude.{◌≡◌, ◌++◌, OnOk, IfOk};
ghost use Rattle.std.specs.List.{filter};
ghost use Rattle.std.specs.Char.{InScalarRange, encode_utf8};
ghost use Rattle.go_tree.specs.declared.class.Escape.TheVariants.{Plain};
ghost use Rattle.go_tree.specs.Escapes.{double_quote};
ghost use Rattle.go_tree.specs.Values.{gives_char, unit_bytes, added, text_from, text_value, is_kept, IsEnding};

use crate::class::Escape;
use crate::escape::{escape_step, inner, is_plain};
use crate::part::byte_at;
use crate::value::unit_value;
use gv_base::NoMemory;
use std::alloc::Global;

/// Whether an escape gives a character, and not a byte.
fn gives_char(state: Escape) -> bool
    ensures { result ≡ gives_char state }
{
    match state {
        Escape::Plain => false,
        Escape::Slash => false,
        Escape::Octal(_, _) => false,
        Escape::Hex(_, _) => false,
        Escape::Point(_, _) => true,
        Escape::Bad => false,
    }
}

/// Adds a character in UTF-8.
fn push_char(text: &mut Vec<u8>, code: u32) -> Result<(), NoMemory>
    requires { InScalarRange code }
    ensures { OnOk result (text.new.items ≡ text.old.items ++ encode_utf8 code) }
{
    if let Some(c) = char::from_u32(code) {
        let mut room = [0; 4];
        text.extend_from_slice(c.encode_utf8(&mut room).as_bytes())?;
    }
    Ok(())
}

/// Adds the bytes of what a byte ends.
fn push_unit(text: &mut Vec<u8>, state: Escape, b: u8) -> Result<(), NoMemory>
    requires { IsEnding state b }
    ensures { OnOk result (text.new.items ≡ text.old.items ++ unit_bytes state b) }
{
    let unit = unit_value(state, b);
    if gives_char(state) {
        push_char(text, unit)?;
    } else {
        text.push(unit as u8)?;
    }
    Ok(())
}

/// Adds what a byte of a text adds.
fn push_added(text: &mut Vec<u8>, state: Escape, b: u8) -> Result<(), NoMemory>
    ensures { OnOk result (text.new.items ≡ text.old.items ++ added state b) }
{
    if is_plain(escape_step(b'"', state, b)) {
        push_unit(text, state, b)?;
    }
    Ok(())
}

/// The value of a text between double quotes: its bytes, where none begins an escape.
fn quoted_value(alloc: Global, body: &[u8]) -> Result<Vec<u8>, NoMemory>
    ensures { IfOk result (λ text. text.items ≡ text_from Plain body.now) }
{
    if body.contains(&b'\\') {
        let text = escaped_value(alloc, body)?;
        return Ok(text);
    }
    let text = body.to_vec(alloc)?;
    Ok(text)
}

/// The same, byte by byte.
fn escaped_value(alloc: Global, body: &[u8]) -> Result<Vec<u8>, NoMemory>
    ensures { IfOk result (λ text. text.items ≡ text_from Plain body.now) }
{
    let mut text = Vec::with_capacity(alloc, body.len())?;
    let mut state = Escape::Plain;
    for b in body {
        push_added(&mut text, state, *b)?;
        state = escape_step(b'"', state, *b);
    }
    Ok(text)
}

/// The value of a raw text: its bytes without carriage returns.
fn raw_value(alloc: Global, body: &[u8]) -> Result<Vec<u8>, NoMemory>
    ensures { IfOk result (λ text. text.items ≡ filter is_kept body.now) }
{
    let mut text = Vec::new(alloc);
    for b in body {
        if *b != b'\r' {
            text.push(*b)?;
        }
    }
    Ok(text)
}

/// The bytes that a text literal stands for. Other bytes have a value, too, but one that means
/// nothing.
#[tactic(auto, unfolding(crate::specs::Values::text_value))]
pub fn text_value(alloc: Global, bytes: &[u8]) -> Result<Vec<u8>, NoMemory>
    ensures { IfOk result (λ text. text.items ≡ text_value bytes.now) }
{
    let body = inner(bytes);
    if byte_at(bytes, 0) == b'`' {
        raw_value(alloc, body)
    } else {
        quoted_value(alloc, body)
    }
}
