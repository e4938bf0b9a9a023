//! The verdict on a file.
use anyhow::{Result, bail};
use parse_file::{FileVerdict, parse_file};
use std::alloc::Global;
use std::fmt::Write;

/// The most bytes of a file.
const LIMIT: usize = 1 << 24;

fn write_verdict(out: &mut String, alloc: Global, text: &[u8]) -> Result<()> {
    if text.len() > LIMIT {
        bail!("too long");
    }
    match parse_file(alloc, text) {
        Ok(FileVerdict::Parsed(tree)) => writeln!(
            out,
            "parsed in {} pieces",
            tree.tops.as_slice().len()
        )?,
        Ok(FileVerdict::Lexical { offset, why }) => writeln!(out, "lexical at {offset}: {why:?}")?,
        Ok(FileVerdict::Syntax { offset }) => writeln!(out, "syntax error at {offset}")?,
        Ok(FileVerdict::TooDeep { offset }) => writeln!(out, "too deep at {offset}")?,
        Err(_) => bail!("no memory"),
    }
    Ok(())
}

/// For each file the number of its pieces, or where and why it is refused.
pub fn pieces(alloc: Global, texts: &[&[u8]]) -> Result<String> {
    let mut out = String::new(alloc);
    for text in texts {
        write_verdict(&mut out, alloc, text)?;
    }
    Ok(out)
}
