//! Cases in bundles: texts, and behind them what the product has to say of them.
use crate::family::Family;
use anyhow::Result;
use bundles::{Section, names, sections};
use std::fs;

/// The name of a section that says what the answer has to be.
const WANT: &[u8] = b"want";

/// A bundle, with the path that a line about it begins with.
#[derive(Clone, Copy, Drop)]
struct Bundle<'a> {
    path: &'a str,
    bytes: &'a [u8],
}

/// How many of the bytes are line breaks.
pub fn line_breaks(bytes: &[u8]) -> usize {
    let mut count = 0usize;
    for byte in bytes {
        if *byte == b'\n' {
            count = count.saturating_add(1);
        }
    }
    count
}

/// The number of the line where the section's header stands.
fn line_of(bundle: &Bundle<'_>, section: &Section<'_>) -> usize {
    let until = bundle
        .bytes
        .len()
        .saturating_sub(section.behind)
        .saturating_sub(section.text.len());
    line_breaks(bundle.bytes.get(..until).unwrap_or(b""))
}

/// Prints the lines in which the texts differ, and where.
fn print_lines(
    rt: &HostRuntime,
    bundle: &Bundle<'_>,
    first: usize,
    want: &str,
    answer: &str,
) -> Result<()> {
    let mut answers = answer.lines();
    let mut line = first;
    for wanted in want.lines() {
        line = line.saturating_add(1);
        let got = answers.next().unwrap_or("nothing");
        if got != wanted {
            println!(rt;
                "{}: line {line} expects `{wanted}`, and the answer is `{got}`",
                bundle.path
            )?;
        }
    }
    for got in answers {
        println!(rt;
            "{}: line {line} expects no more, and the answer goes on `{got}`",
            bundle.path
        )?;
    }
    Ok(())
}

/// Whether the product's answer is the one that is wanted. Where it isn't, prints what differs.
fn is_as_expected(
    rt: &HostRuntime,
    family: Family,
    bundle: &Bundle<'_>,
    texts: &[&[u8]],
    want: &Section<'_>,
) -> Result<bool> {
    let answer = family.answer(rt.alloc(), texts)?;
    let answer = answer.as_str().trim_end();
    let wanted = std::str::from_utf8(want.text)?;
    if answer == wanted {
        return Ok(true);
    }
    print_lines(rt, bundle, line_of(bundle, want), wanted, answer)?;
    Ok(false)
}

/// Runs the cases of a bundle, and prints a line with their number and that of their answers' lines, or one for each line that differs.
fn run_bundle(rt: &HostRuntime, family: Family, bundle: &Bundle<'_>) -> Result<()> {
    let mut texts = Vec::new(rt.alloc());
    let mut cases = 0usize;
    let mut lines = 0usize;
    let mut all = true;
    for section in sections(rt.alloc(), bundle.bytes)?.as_slice() {
        if section.name != WANT {
            texts.push(section.text)?;
            continue;
        }
        cases = cases.saturating_add(1);
        lines = lines
            .saturating_add(line_breaks(section.text))
            .saturating_add(1);
        if !is_as_expected(rt, family, bundle, texts.as_slice(), section)? {
            all = false;
        }
        texts.clear();
    }
    if texts.len() > 0 {
        println!(rt; "{}: the last text has no answer behind it", bundle.path)?;
    } else if all {
        println!(rt;
            "{}: as expected, cases {cases}, lines {lines}",
            bundle.path
        )?;
    }
    Ok(())
}

/// Runs the cases of each bundle in the folder.
pub fn run_bundles(rt: &HostRuntime, family: Family, folder: &str) -> Result<()> {
    for name in names(rt, folder)?.as_slice() {
        let path = format!(in rt.alloc(); "{folder}/{name}")?;
        let bytes = fs::read(rt, path.as_str())?;
        run_bundle(
            rt,
            family,
            &Bundle {
                path: path.as_str(),
                bytes: bytes.as_slice(),
            },
        )?;
    }
    Ok(())
}
