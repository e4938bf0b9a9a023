//! What formats say.
use crate::told::{add, add_comma, said, unread};
use bundles::bytes_of;
use gv_base::NoMemory;
use printf_format::{Directive, Ending, Format, FormatRead, directives, read_format};
use std::alloc::Global;

/// Adds a directive: its start and its end, its flags, the arguments of its stars, its argument, whether it is indexed, its verb.
fn add_directive(alloc: Global, out: &mut Vec<u8>, directive: &Directive) -> Result<(), NoMemory> {
    add_comma(out)?;
    let text = format!(in alloc; "{}-{} {}", directive.start, directive.end, directive.flags)?;
    add(out, text.as_str())?;
    for star in directive.stars.as_slice() {
        let text = format!(in alloc; " *{star}")?;
        add(out, text.as_str())?;
    }
    let index = if directive.indexed { " indexed" } else { "" };
    let text = format!(in alloc; " {}{index} {}", directive.argument, directive.verb)?;
    add(out, text.as_str())
}

fn add_directives(
    alloc: Global,
    out: &mut Vec<u8>,
    directives: &[Directive],
) -> Result<(), NoMemory> {
    for directive in directives {
        add_directive(alloc, out, directive)?;
    }
    Ok(())
}

/// The directives, or what the format lacks and where.
fn format_says(alloc: Global, format: &Format) -> Result<Vec<u8>, NoMemory> {
    match format {
        Format::List(list) => {
            let mut out = Vec::new(alloc);
            add_directives(alloc, &mut out, list.as_slice())?;
            Ok(out)
        }
        Format::NoVerb { at } => {
            let text = format!(in alloc; "no verb {at}")?;
            said(alloc, text.as_str())
        }
        Format::BadIndex { at } => {
            let text = format!(in alloc; "bad index {at}")?;
            said(alloc, text.as_str())
        }
    }
}

/// The directives, and what ends them, if the text doesn't.
fn read_says(alloc: Global, read: &FormatRead) -> Result<Vec<u8>, NoMemory> {
    let mut out = Vec::new(alloc);
    add_directives(alloc, &mut out, read.directives.as_slice())?;
    match read.ending {
        Ending::Over => Ok(out),
        Ending::NoVerb { at } => {
            add_comma(&mut out)?;
            let text = format!(in alloc; "no verb {at}")?;
            add(&mut out, text.as_str())?;
            Ok(out)
        }
        Ending::BadIndex { at } => {
            add_comma(&mut out)?;
            let text = format!(in alloc; "bad index {at}")?;
            add(&mut out, text.as_str())?;
            Ok(out)
        }
    }
}

/// `TEXT`: its directives, and what ends them.
pub fn reads(alloc: Global, input: &str) -> Result<Vec<u8>, NoMemory> {
    let bytes = bytes_of(alloc, input)?;
    if bytes.len() > 65536 {
        return unread(alloc);
    }
    let read = read_format(alloc, &bytes)?;
    read_says(alloc, &read)
}

/// `TEXT`: what the format says.
pub fn formats(alloc: Global, input: &str) -> Result<Vec<u8>, NoMemory> {
    let bytes = bytes_of(alloc, input)?;
    if bytes.len() > 65536 {
        return unread(alloc);
    }
    let format = directives(alloc, &bytes)?;
    format_says(alloc, &format)
}
