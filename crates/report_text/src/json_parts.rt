//! The reply to `report` as JSON.
ghost use Rattle.std.specs.Prelude.{◌≡◌, ◌<◌, ◌++◌, ◌∷◌, [], Some, IfOk, OnOk, All, MatchOption};
ghost use Rattle.std.specs.Option.{option_map_or};
ghost use Rattle.std.specs.Str.{bytes_eq};
ghost use Rattle.analysis_core.specs.JsonReplies.{SHORT_FORMS, letter_in, hex_digit, plain, escaped, quoted, as_text, said_json, key_opening, package_opening, between, json_behind, json_line};
ghost use Rattle.analysis_core.specs.Replies.{place_text};
ghost use Rattle.report_text.specs.Standing.{IsHand, LiesIn};
ghost use Rattle.report_text.specs.ReplyStanding.{SaidStands};

use crate::lines::first_hand;
use crate::print::{Hand, place_text, turn_to};
use analysis_core::{Said, key_text};
use gv_base::{Files, NoMemory, Place};
use std::alloc::Global;

/// The letter behind the backslash of a byte that has a short form.
fn letter_of(c: u8) -> Option<u8>
    ensures { result ≡ letter_in SHORT_FORMS c }
{
    match c {
        b'"' => Some(b'"'),
        b'\\' => Some(b'\\'),
        8 => Some(b'b'),
        b'\t' => Some(b't'),
        b'\n' => Some(b'n'),
        12 => Some(b'f'),
        b'\r' => Some(b'r'),
        _ => None,
    }
}

fn hex_digit(n: u8) -> u8
    requires { n < 16 }
    ensures { result ≡ hex_digit n }
{
    if n < 10 { n + 48 } else { n + 87 }
}

fn push_plain(out: &mut Vec<u8>, c: u8) -> Result<(), NoMemory>
    ensures { OnOk result (out.new.items ≡ out.old.items ++ plain c) }
{
    if c < 32 {
        out.extend_from_slice(b"\\u00")?;
        out.push(hex_digit(c / 16))?;
        out.push(hex_digit(c % 16))?;
        return Ok(());
    }
    out.push(c)?;
    Ok(())
}

fn push_escaped(out: &mut Vec<u8>, c: u8) -> Result<(), NoMemory>
    ensures { OnOk result (out.new.items ≡ out.old.items ++ escaped c) }
{
    match letter_of(c) {
        Some(letter) => {
            out.push(b'\\')?;
            out.push(letter)?;
            Ok(())
        }
        None => {
            push_plain(out, c)?;
            Ok(())
        }
    }
}

/// A text between double quotes.
fn push_quoted(out: &mut Vec<u8>, bytes: &[u8]) -> Result<(), NoMemory>
    ensures { OnOk result (out.new.items ≡ out.old.items ++ quoted bytes.now) }
{
    out.push(b'"')?;
    for c in bytes {
        push_escaped(out, *c)?;
    }
    out.push(b'"')?;
    Ok(())
}

fn as_text(bytes: &[u8]) -> &[u8]
    ensures { result.now ≡ as_text bytes.now }
{
    match std::str::from_utf8(bytes) {
        Ok(_) => bytes,
        Err(_) => b"",
    }
}

/// The place as it is printed, if there is one.
fn push_posn(
    alloc: Global,
    files: &Files,
    hand: Hand,
    out: &mut Vec<u8>,
    place: Option<Place>,
) -> Result<Hand, NoMemory>
    requires stands { (p : Place) → place ≡ Some p → LiesIn files.now p }
    requires hand { IsHand files.now hand }
    ensures is { IfOk result (λ h. IsHand files.now h) }
    ensures written { OnOk result (out.new.items ≡ out.old.items ++ quoted (option_map_or (place_text files.now) place [])) }
{
    match place {
        None => {
            push_quoted(out, b"")?;
            Ok(hand)
        }
        Some(place) => {
            let hand = turn_to(alloc, files, hand, place.file)?;
            let at = place_text(alloc, files, &hand.lines, place)?;
            push_quoted(out, at.as_bytes())?;
            Ok(hand)
        }
    }
}

fn push_said(
    alloc: Global,
    files: &Files,
    hand: Hand,
    out: &mut Vec<u8>,
    said: &Said,
) -> Result<Hand, NoMemory>
    requires stands { SaidStands files.now said.now }
    requires hand { IsHand files.now hand }
    ensures is { IfOk result (λ h. IsHand files.now h) }
    ensures written { OnOk result (out.new.items ≡ out.old.items ++ said_json files.now said.now) }
{
    out.extend_from_slice(b"{\"message\":")?;
    push_quoted(out, as_text(said.text.as_slice()))?;
    out.extend_from_slice(b",\"posn\":")?;
    let hand = push_posn(alloc, files, hand, out, said.place)?;
    out.push(b'}')?;
    Ok(hand)
}

fn push_key(out: &mut Vec<u8>, said: &Said) -> Result<(), NoMemory>
    ensures { OnOk result (out.new.items ≡ out.old.items ++ key_opening said.now) }
{
    push_quoted(out, key_text(said.key).as_bytes())?;
    out.extend_from_slice(b":[")?;
    Ok(())
}

fn push_package(out: &mut Vec<u8>, said: &Said) -> Result<(), NoMemory>
    ensures { OnOk result (out.new.items ≡ out.old.items ++ package_opening said.now) }
{
    push_quoted(out, said.package.as_str().as_bytes())?;
    out.extend_from_slice(b":{")?;
    push_key(out, said)?;
    Ok(())
}

fn is_same(one: &[u8], other: &[u8]) -> bool
    ensures { result ≡ bytes_eq one.now other.now }
{
    one == other
}

fn push_between(out: &mut Vec<u8>, last: &Said, next: &Said) -> Result<(), NoMemory>
    ensures { OnOk result (out.new.items ≡ out.old.items ++ between last.now next.now) }
{
    if !is_same(
        last.package.as_str().as_bytes(),
        next.package.as_str().as_bytes(),
    ) {
        out.extend_from_slice(b"]},")?;
        push_package(out, next)?;
        return Ok(());
    }
    if !is_same(key_text(last.key).as_bytes(), key_text(next.key).as_bytes()) {
        out.extend_from_slice(b"],")?;
        push_key(out, next)?;
        return Ok(());
    }
    out.push(b',')?;
    Ok(())
}

/// The first, and those behind it.
fn split(said: &[Said]) -> Option<(&Said, &[Said])>
    ensures { MatchOption result (said.now ≡ []) (λ x. said.now ≡ x.0.now ∷ x.1.now) }
{
    said.split_first()
}

fn push_behind(
    alloc: Global,
    files: &Files,
    hand: Hand,
    out: &mut Vec<u8>,
    first: &Said,
    said: &[Said],
) -> Result<(), NoMemory>
    requires stand { All (SaidStands files.now) said.now }
    requires hand { IsHand files.now hand }
    ensures { OnOk result (out.new.items ≡ out.old.items ++ json_behind files.now first.now said.now) }
{
    let mut hand = hand;
    let mut last = first;
    let mut rest = said;
    while let Some((next, more)) = split(rest) {
        push_between(out, last, next)?;
        hand = push_said(alloc, files, hand, out, next)?;
        last = next;
        rest = more;
    }
    out.extend_from_slice(b"]}}\n")?;
    Ok(())
}

pub(crate) fn push_line(
    alloc: Global,
    files: &Files,
    out: &mut Vec<u8>,
    said: &[Said],
) -> Result<(), NoMemory>
    requires stand { All (SaidStands files.now) said.now }
    ensures { OnOk result (out.new.items ≡ out.old.items ++ json_line files.now said.now) }
{
    match split(said) {
        None => {
            out.extend_from_slice(b"{}\n")?;
            Ok(())
        }
        Some((first, rest)) => {
            let hand = first_hand(alloc, files)?;
            out.push(b'{')?;
            push_package(out, first)?;
            let hand = push_said(alloc, files, hand, out, first)?;
            push_behind(alloc, files, hand, out, first, rest)?;
            Ok(())
        }
    }
}
