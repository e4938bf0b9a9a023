//! The files of a package, parsed.
ghost use Rattle.std.specs.Prelude.{◌≤◌, ◌^◌, length, OnOk, IfOk, ◌≡◌};
ghost use Rattle.conformance.specs.Ready.{AreReady};

use file_uses::{Locals, read_locals};
use go_tree::FileTree;
use gv_base::{Bytes, NoMemory, Text};
use parse_file::{FileVerdict, parse_file};
use std::alloc::Global;

/// The most bytes of a file.
const LIMIT: usize = 1 << 24;

/// The most nodes of a file.
const MOST: usize = 1 << 30;

fn source_of(alloc: Global, text: &[u8]) -> Result<(Text, Bytes), NoMemory>
    ensures { IfOk result (λ source. source.1 ≡ text.now) }
{
    let path = String::from_str(alloc, "p.go")?;
    let bytes = text.to_vec(alloc)?;
    Ok((Text::new(path), Bytes::new(bytes)))
}

/// Adds the file, and which of its names are uses. False where it is no file, or too large a one.
pub fn add_file(
    alloc: Global,
    text: &[u8],
    files: &mut Vec<FileTree>,
    sources: &mut Vec<(Text, Bytes)>,
    locals: &mut Vec<Locals>,
) -> Result<bool, NoMemory>
    requires { AreReady files.old.items sources.old.items }
    ensures { OnOk result (AreReady files.new.items sources.new.items) }
{
    if text.len() > LIMIT {
        return Ok(false);
    }
    let verdict = parse_file(alloc, text)?;
    match verdict {
        FileVerdict::Parsed(tree) => {
            if tree.nodes.as_slice().len() > MOST {
                return Ok(false);
            }
            let source = source_of(alloc, text)?;
            let uses = read_locals(alloc, text, &tree)?;
            locals.push(uses)?;
            files.push(tree)?;
            sources.push(source)?;
            Ok(true)
        }
        _ => Ok(false),
    }
}

/// Adds the files. False where one is no file, or too large a one.
pub fn add_files(
    alloc: Global,
    texts: &[&[u8]],
    files: &mut Vec<FileTree>,
    sources: &mut Vec<(Text, Bytes)>,
    locals: &mut Vec<Locals>,
) -> Result<bool, NoMemory>
    requires { AreReady files.old.items sources.old.items }
    ensures { OnOk result (AreReady files.new.items sources.new.items) }
{
    for text in texts {
        if !add_file(alloc, text, files, sources, locals)? {
            return Ok(false);
        }
    }
    Ok(true)
}
