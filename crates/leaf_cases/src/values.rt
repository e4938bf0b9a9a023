//! Operators and conversions of constants, and formats.
use crate::formats::{formats, reads};
use crate::told::{add, add_value, number, said, unread};
use bundles::bytes_of;
use const_eval::{ConstAnswer, binary, convert, unary};
use gv_base::{Const, ConstText, Kind, NoMemory, fits};
use std::alloc::Global;

/// The most bytes of a constant's text.
const LIMIT: usize = 65536;

#[rattlefmt::skip]
const MARKS: [&str; 47] = [
    "!", "!=", "%", "%=", "&", "&&", "&=", "&^", "&^=", "(", ")", "*", "*=", "+",
    "++", "+=", ",", "-", "--", "-=", ".", "...", "/", "/=", ":", ":=", ";", "<",
    "<-", "<<", "<<=", "<=", "=", "==", ">", ">=", ">>", ">>=", "[", "]", "^", "^=",
    "{", "|", "|=", "||", "}",
];

/// The number of a mark.
fn mark(spelling: &str) -> Option<u8> {
    let mut number = 0u8;
    for mark in MARKS {
        if mark == spelling {
            return Some(number);
        }
        number = number.saturating_add(1);
    }
    None
}

/// The kind whose name, as it is shown, is this.
fn kind(alloc: Global, name: &str) -> Result<Option<Kind>, NoMemory> {
    for number in 0..18u8 {
        let kind = Kind::of_number(number);
        let text = format!(in alloc; "{kind:?}")?;
        if text.as_str() == name {
            return Ok(Some(kind));
        }
    }
    Ok(None)
}

/// The constant of a text, where it isn't too long.
fn text_constant(bytes: Vec<u8>) -> Option<Const> {
    if bytes.len() > LIMIT {
        return None;
    }
    Some(Const::Text(ConstText::new(bytes)))
}

/// The constant of a word: `true`, `false`, an integer, or a text behind `'`.
fn constant(alloc: Global, word: &str) -> Result<Option<Const>, NoMemory> {
    if word == "true" || word == "false" {
        return Ok(Some(Const::Truth(word == "true")));
    }
    match word.strip_prefix("'") {
        Some(text) => {
            let bytes = bytes_of(alloc, text)?;
            Ok(text_constant(bytes))
        }
        None => Ok(word.parse::<i128>().ok().map(Const::Int)),
    }
}

/// The answer, as it is told.
fn answered(alloc: Global, answer: &ConstAnswer) -> Result<Vec<u8>, NoMemory> {
    match answer {
        ConstAnswer::ZeroDivisor => said(alloc, "zero"),
        ConstAnswer::Wide => said(alloc, "wide"),
        ConstAnswer::LongText => said(alloc, "long"),
        ConstAnswer::BadOperands => said(alloc, "bad"),
        ConstAnswer::Value(value) => {
            let mut out = Vec::new(alloc);
            add_value(alloc, &mut out, value)?;
            Ok(out)
        }
    }
}

/// `CONSTANT MARK CONSTANT`
fn two(alloc: Global, input: &str) -> Result<Vec<u8>, NoMemory> {
    let mut words = input.split(' ');
    let x = constant(alloc, words.next().unwrap_or(""))?;
    let op = mark(words.next().unwrap_or(""));
    let y = constant(alloc, words.next().unwrap_or(""))?;
    let (Some(x), Some(op), Some(y)) = (x, op, y) else {
        return unread(alloc);
    };
    let answer = binary(alloc, op, &x, &y)?;
    answered(alloc, &answer)
}

/// `MARK KIND CONSTANT`
fn single(alloc: Global, input: &str) -> Result<Vec<u8>, NoMemory> {
    let mut words = input.split(' ');
    let op = mark(words.next().unwrap_or(""));
    let of = kind(alloc, words.next().unwrap_or(""))?;
    let x = constant(alloc, words.next().unwrap_or(""))?;
    let (Some(op), Some(of), Some(x)) = (op, of, x) else {
        return unread(alloc);
    };
    let answer = unary(alloc, op, &x, of)?;
    answered(alloc, &answer)
}

/// `KIND CONSTANT`: what a conversion gives, and whether the kind represents the constant.
fn conversion(alloc: Global, input: &str) -> Result<Vec<u8>, NoMemory> {
    let (name, word) = input.split_once(" ").unwrap_or((input, ""));
    let to = kind(alloc, name)?;
    let x = constant(alloc, word)?;
    let (Some(to), Some(x)) = (to, x) else {
        return unread(alloc);
    };
    let answer = convert(alloc, &x, to)?;
    let mut out = answered(alloc, &answer)?;
    if fits(&x, to) {
        add(&mut out, " fits")?;
    }
    Ok(out)
}

/// `LENGTH LENGTH`: two texts of these lengths, one behind the other; the length and the last byte.
fn joined(alloc: Global, input: &str) -> Result<Vec<u8>, NoMemory> {
    let (first, second) = input.split_once(" ").unwrap_or((input, ""));
    let s = vec![in alloc; b'a'; number(first) as usize]?;
    let t = vec![in alloc; b'b'; number(second) as usize]?;
    let (Some(x), Some(y), Some(op)) = (text_constant(s), text_constant(t), mark("+")) else {
        return unread(alloc);
    };
    let answer = binary(alloc, op, &x, &y)?;
    let told = answered(alloc, &answer)?;
    if told.len() <= LIMIT {
        return Ok(told);
    }
    let text = format!(in alloc; "{} {:?}", told.len(), told.last())?;
    said(alloc, text.as_str())
}

/// The answer to the input of a case of this file.
pub fn answer(alloc: Global, name: &str, input: &str) -> Result<Vec<u8>, NoMemory> {
    match name {
        "conversions" => conversion(alloc, input),
        "formats" => formats(alloc, input),
        "joined" => joined(alloc, input),
        "reads" => reads(alloc, input),
        "single" => single(alloc, input),
        "integers" | "texts" | "truths" => two(alloc, input),
        _ => unread(alloc),
    }
}
