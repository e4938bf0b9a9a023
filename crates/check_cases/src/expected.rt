//! The errors that comments expect.
ghost use Rattle.std.specs.Prelude.{◌≡◌, ℕ, List, IfSome, None, codes};
ghost use Rattle.bundles.specs.Cuts.{IsCut, IsNowhere};

use crate::trees::SourceFile;
use anyhow::{Result, bail};
use bundles::cut;
use std::alloc::Global;
use typed_tree::{Limit, Rule};

/// What stands before the errors that a line expects.
const MARK: &[u8] = b"// ERROR ";

const LIMITS: [(&str, Limit); 9] = [
    ("outside-float", Limit::Float),
    ("outside-complex", Limit::Complex),
    ("outside-wide", Limit::Wide),
    ("outside-long-text", Limit::LongText),
    ("outside-wide-type", Limit::WideType),
    ("outside-unsafe", Limit::Unsafe),
    ("outside-cgo", Limit::Cgo),
    ("outside-dot-import", Limit::DotImport),
    ("outside-build-constraint", Limit::BuildConstraint),
];

/// An error that a comment expects: the file's path, the line and, where the comment says it, the column, each
/// from 1, and the text that is printed of the rule or the limit.
#[derive(Clone, Copy, Drop)]
pub struct Expected<'a> {
    pub path: &'a str,
    pub line: u64,
    pub column: Option<u64>,
    pub text: &'a [u8],
}

/// The text of a rule `E31`.
fn rule_named(word: &str) -> Option<&'static [u8]> {
    let number = word.strip_prefix("E")?;
    match number.parse::<u8>() {
        Ok(number) => Some(Rule(number).text()),
        Err(_) => None,
    }
}

/// The text of a limit `outside-wide`.
fn limit_named(word: &str) -> Option<&'static [u8]> {
    for (name, limit) in LIMITS.iter() {
        if *name == word {
            return Some(limit.text());
        }
    }
    None
}

/// What is printed of the rule or the limit that the word names.
fn text_named(word: &str) -> Result<&'static [u8]> {
    if let Some(text) = limit_named(word) {
        return Ok(text);
    }
    match rule_named(word) {
        Some(text) if text.len() > 0 => Ok(text),
        _ => bail!("a comment that expects neither a rule nor a limit"),
    }
}

/// The error that a word `E31` or `12:E31` expects on this line of the file.
fn error_of<'a>(path: &'a str, line: u64, word: &str) -> Result<Expected<'a>> {
    match word.split_once(":") {
        Some((column, name)) => {
            let column = column.parse::<u64>()?;
            Ok(Expected {
                path,
                line,
                column: Some(column),
                text: text_named(name)?,
            })
        }
        None => Ok(Expected {
            path,
            line,
            column: None,
            text: text_named(word)?,
        }),
    }
}

/// What stands behind the first `// ERROR ` of a line. None where there is none.
fn words_of(line: &str) -> Option<&[u8]>
    ensures words { IfSome result (λ words. (code : List ℕ) × IsCut line.now (codes "// ERROR ") code words.now) }
    ensures nowhere { result ≡ None → IsNowhere line.now (codes "// ERROR ") }
{
    match cut(line.as_bytes(), MARK) {
        Some((_code, words)) => Some(words),
        None => None,
    }
}

/// Adds the errors that a line's comment expects.
fn add_errors<'a>(
    path: &'a str,
    line: u64,
    text: &str,
    errors: &mut Vec<Expected<'a>>,
) -> Result<()> {
    if let Some(words) = words_of(text) {
        for word in std::str::from_utf8(words)?.split(" ") {
            errors.push(error_of(path, line, word)?)?;
        }
    }
    Ok(())
}

/// Adds the errors that a file's comments expect.
fn add_lines<'a>(file: &SourceFile<'a>, errors: &mut Vec<Expected<'a>>) -> Result<()> {
    let mut line = 0u64;
    for text in file.text.lines() {
        line = line.saturating_add(1);
        add_errors(file.path, line, text, errors)?;
    }
    Ok(())
}

/// The errors that the comments of the files expect, in the order of the comments.
pub fn expected_in<'a>(alloc: Global, files: &[SourceFile<'a>]) -> Result<Vec<Expected<'a>>> {
    let mut errors = Vec::new(alloc);
    for file in files {
        add_lines(file, &mut errors)?;
    }
    Ok(errors)
}
