//! The head of a file.
use anyhow::{Result, bail};
use bundles::shown;
use go_tree::{FileTree, Head, ImportLine, LocalName};
use parse_file::{FileVerdict, parse_file};
use std::alloc::Global;
use std::fmt::Write;

/// The most bytes of a file.
const LIMIT: usize = 1 << 24;

fn write_import(out: &mut String, line: &ImportLine) -> Result<()> {
    let path = shown(line.path.as_slice());
    match &line.local {
        LocalName::Default => writeln!(out, "  {} \"{path}\"", line.at)?,
        LocalName::Named(name) => writeln!(
            out,
            "  {} {} \"{path}\"",
            line.at,
            shown(name.as_slice())
        )?,
        LocalName::Blank => writeln!(out, "  {} _ \"{path}\"", line.at)?,
        LocalName::Dot => writeln!(out, "  {} . \"{path}\"", line.at)?,
    }
    Ok(())
}

fn write_lines(out: &mut String, head: &Head) -> Result<()> {
    let name = shown(head.name.as_slice());
    match head.constraint {
        Some(at) => writeln!(out, "{name} at {}, constraint at {at}", head.name_at)?,
        None => writeln!(out, "{name} at {}", head.name_at)?,
    }
    for line in head.imports.as_slice() {
        write_import(out, line)?;
    }
    Ok(())
}

fn write_tree(out: &mut String, alloc: Global, tree: &FileTree, text: &[u8]) -> Result<()> {
    match tree.head(alloc, text) {
        Ok(head) => write_lines(out, &head),
        Err(_) => bail!("no memory"),
    }
}

fn write_head(out: &mut String, alloc: Global, text: &[u8]) -> Result<()> {
    if text.len() > LIMIT {
        bail!("too long");
    }
    match parse_file(alloc, text) {
        Ok(FileVerdict::Parsed(tree)) => write_tree(out, alloc, &tree, text),
        Ok(_) => Ok(writeln!(out, "broken")?),
        Err(_) => bail!("no memory"),
    }
}

/// For each file the package's name with its offset, the offset of the first build constraint, and a line
/// for each import; or that it is broken.
pub fn heads(alloc: Global, texts: &[&[u8]]) -> Result<String> {
    let mut out = String::new(alloc);
    for text in texts {
        write_head(&mut out, alloc, text)?;
    }
    Ok(out)
}
