//! The errors that a reply lists.
use anyhow::{Result, bail};
use std::alloc::Global;

/// An error of a reply: the file's path, the line and the column, and what is printed of it.
#[derive(Clone, Copy, Drop)]
pub struct Found<'a> {
    pub path: &'a str,
    pub line: u64,
    pub column: u64,
    pub text: &'a [u8],
}

/// The error of a line `PATH:LINE:COLUMN: TEXT`.
fn error_of(line: &str) -> Result<Found<'_>> {
    let Some((path, rest)) = line.split_once(":") else {
        bail!("an error without a path");
    };
    let Some((number, rest)) = rest.split_once(":") else {
        bail!("an error without a line");
    };
    let Some((column, text)) = rest.split_once(": ") else {
        bail!("an error without a column");
    };
    Ok(Found {
        path,
        line: number.parse::<u64>()?,
        column: column.parse::<u64>()?,
        text: text.as_bytes(),
    })
}

/// The errors of a reply, and its last line.
pub fn found_in(alloc: Global, reply: &str) -> Result<(Vec<Found<'_>>, &str)> {
    let whole = reply.trim_end();
    let (lines, last) = whole.rsplit_once("\n").unwrap_or(("", whole));
    let mut errors = Vec::new(alloc);
    for line in lines.lines() {
        errors.push(error_of(line)?)?;
    }
    Ok((errors, last))
}
