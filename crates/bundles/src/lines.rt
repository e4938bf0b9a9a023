//! Files of cases, each a line `INPUT => ANSWER`.
use crate::showing::shown;
use anyhow::Result;
use std::alloc::{AllocError, Global};

/// A case: the number of its line, what is asked, and what the answer has to be, both as they are written.
#[derive(Clone, Copy, Drop)]
pub struct Case<'a> {
    pub number: usize,
    pub input: &'a str,
    pub want: &'a str,
}

/// The case of a line.
fn case_of(number: usize, line: &str) -> Case<'_> {
    match line.split_once(" =>") {
        Some((input, rest)) => Case {
            number,
            input,
            want: rest.strip_prefix(" ").unwrap_or(rest),
        },
        None => Case {
            number,
            input: line,
            want: "",
        },
    }
}

/// The cases of a file. Empty lines and those that begin with `#` are none.
pub fn cases(alloc: Global, text: &str) -> Result<Vec<Case<'_>>, AllocError> {
    let mut found = Vec::new(alloc);
    let mut number = 0usize;
    for line in text.lines() {
        number = number.saturating_add(1);
        if !line.is_empty() && !line.starts_with("#") {
            found.push(case_of(number, line))?;
        }
    }
    Ok(found)
}

/// The number that a digit of base 16 spells; 0 for other bytes.
fn digit(byte: u8) -> u8 {
    match byte {
        b'0'..=b'9' => byte - b'0',
        b'a'..=b'f' => byte - b'a' + 10,
        _ => 0,
    }
}

/// The byte that stands for a letter behind `\`.
fn letter(byte: u8) -> u8 {
    match byte {
        b'n' => b'\n',
        b't' => b'\t',
        b's' => b' ',
        _ => byte,
    }
}

/// The byte that is written at the front, and the number of bytes that it takes there.
fn front(bytes: &[u8]) -> (u8, usize) {
    match bytes {
        [b'\\', b'x', high, low, ..] => (
            digit(*high).wrapping_mul(16).wrapping_add(digit(*low)),
            4,
        ),
        [b'\\', byte, ..] => (letter(*byte), 2),
        [byte, ..] => (*byte, 1),
        [] => (0, 1),
    }
}

/// The bytes that a text writes: `\n`, `\t` and `\s` are a line break, a tab and a space, `\xe9` is a byte of two digits, `\\` is
/// `\`, and every other byte is itself.
pub fn bytes_of(alloc: Global, text: &str) -> Result<Vec<u8>, AllocError> {
    let text = text.as_bytes();
    let mut bytes = Vec::new(alloc);
    let mut next = 0usize;
    for at in 0..text.len() {
        if at >= next {
            let (byte, count) = front(&text[at..]);
            bytes.push(byte)?;
            next = at.saturating_add(count);
        }
    }
    Ok(bytes)
}

/// Whether the answer is the one that is wanted, a space at its end aside. Where it isn't, prints a line.
pub fn is_answered(rt: &HostRuntime, path: &str, case: &Case<'_>, answer: &[u8]) -> Result<bool> {
    let wanted = bytes_of(rt.alloc(), case.want)?;
    let answer = answer.strip_suffix(b" ").unwrap_or(answer);
    if wanted.as_slice() == answer {
        return Ok(true);
    }
    println!(rt;
        "{path}: line {} expects `{}`, and the answer is `{}`",
        case.number,
        case.want,
        shown(answer)
    )?;
    Ok(false)
}
