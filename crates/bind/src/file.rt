//! The files of a package, as they are read.
ghost use Rattle.std.specs.Prelude.{◌≡◌, ◌<◌, List, length, map, IfOk};
ghost use Rattle.bind.specs.Sources.{Source, AreFiles};
ghost use Rattle.bind.specs.Answers.{AreSpelled, AreSmall, AreFit, AreNamed, AreRead};

use file_uses::{Locals, read_locals};
use go_tree::FileTree;
use gv_base::{Bytes, NoMemory, Text};
use scopes::Named;
use std::alloc::Global;

/// A file of a package: its path, its bytes, its tree, and what its names denote within its functions.
#[derive(Drop)]
pub struct File<'a> {
    pub path: &'a [u8],
    pub bytes: &'a [u8],
    pub tree: &'a FileTree,
    pub locals: Locals,
}

fn path_of(source: &(Text, Bytes)) -> &[u8]
    ensures { result.now ≡ source.now.0 }
{
    source.0.as_str().as_bytes()
}

fn bytes_of(source: &(Text, Bytes)) -> &[u8]
    ensures { result.now ≡ source.now.1 }
{
    source.1.as_slice()
}

/// What the names of each file denote within its functions.
pub fn read_files<'a>(
    alloc: Global,
    files: &'a [FileTree],
    sources: &'a [(Text, Bytes)],
) -> Result<Vec<File<'a>>, NoMemory>
    requires spelled { AreSpelled files.now sources.now }
    requires fit { AreSmall files.now }
    ensures count { IfOk result (λ read. length read.items ≡ length files.now) }
    ensures fit { IfOk result (λ read. AreFit read.items) }
    ensures named { IfOk result (λ read. AreNamed files.now read.items) }
    ensures read { IfOk result (λ read. (ss : List Source) → AreFiles files.now sources.now ss → AreRead read.items ss) }
{
    let mut read = Vec::new(alloc);
    for at in 0..files.len() {
        let tree = &files[at];
        let source = &sources[at];
        let path = path_of(source);
        let bytes = bytes_of(source);
        let locals = read_locals(alloc, bytes, tree)?;
        read.push(File {
            path,
            bytes,
            tree,
            locals,
        })?;
    }
    Ok(read)
}

fn names_of(file: File<'_>) -> Vec<Named>
    ensures { result ≡ file.entry.locals.names }
{
    file.locals.names
}

/// The names that each file declares, of which nothing else is kept.
pub fn all_names(alloc: Global, read: Vec<File<'_>>) -> Result<Vec<Vec<Named>>, NoMemory>
    ensures { IfOk result (λ rows. rows.items ≡ map (λ f. f.locals.names) read.entry.items) }
{
    let mut rows = Vec::with_capacity(alloc, read.len())?;
    for file in read {
        rows.push(names_of(file))?;
    }
    Ok(rows)
}
