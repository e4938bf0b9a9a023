//! The labels of a file.
ghost use Rattle.go_tree.specs.Pieces.{Spelled};

use anyhow::{Result, bail};
use bundles::shown;
use go_tree::{FileTree, token_text};
use label_uses::{Jump, Label, labels as labels_in};
use parse_file::{FileVerdict, parse_file};
use std::alloc::Global;
use std::fmt::Write;

/// The most bytes of a file.
const LIMIT: usize = 1 << 16;

/// The place and the text of the node's first token.
fn name_at<'a>(tree: &FileTree, text: &'a [u8], node: usize) -> (u32, &'a [u8]) {
    let nodes = tree.nodes.as_slice();
    let tokens = tree.tokens.as_slice();
    if node < nodes.len() {
        let first = nodes[node].first as usize;
        if first < tokens.len() {
            let token = tokens[first];
            return (token.start, token_text(text, &token));
        }
    }
    (0, b"")
}

fn write_label(out: &mut String, tree: &FileTree, text: &[u8], label: Label) -> Result<()> {
    let (at, name) = name_at(tree, text, label.name);
    let (first, _) = name_at(tree, text, label.first);
    let used = if label.used { "" } else { " unused" };
    if first < at {
        writeln!(out, "  label {at} {} again {first}{used}", shown(name))?;
    } else {
        writeln!(out, "  label {at} {}{used}", shown(name))?;
    }
    Ok(())
}

fn write_jump(out: &mut String, tree: &FileTree, text: &[u8], jump: Jump) -> Result<()> {
    let (at, name) = name_at(tree, text, jump.name);
    match jump.label {
        Some(label) => writeln!(
            out,
            "  jump {at} {} to {}",
            shown(name),
            name_at(tree, text, label).0
        )?,
        None => writeln!(out, "  jump {at} {} to none", shown(name))?,
    }
    Ok(())
}

fn write_tree(out: &mut String, alloc: Global, tree: &FileTree, text: &[u8]) -> Result<()>
    requires { Spelled tree.now.tokens text.now tree.now }
{
    let Ok(found) = labels_in(alloc, tree, text) else {
        bail!("no memory");
    };
    writeln!(out, "file")?;
    for label in &found.labels {
        write_label(out, tree, text, *label)?;
    }
    for jump in &found.jumps {
        write_jump(out, tree, text, *jump)?;
    }
    Ok(())
}

fn write_file(out: &mut String, alloc: Global, text: &[u8]) -> Result<()> {
    if text.len() > LIMIT {
        bail!("too long");
    }
    match parse_file(alloc, text) {
        Ok(FileVerdict::Parsed(tree)) => write_tree(out, alloc, &tree, text),
        Ok(_) => Ok(writeln!(out, "broken")?),
        Err(_) => bail!("no memory"),
    }
}

/// For each file its labels and its jumps to labels, each by the place of its name.
pub fn labels(alloc: Global, texts: &[&[u8]]) -> Result<String> {
    let mut out = String::new(alloc);
    for text in texts {
        write_file(&mut out, alloc, text)?;
    }
    Ok(out)
}
