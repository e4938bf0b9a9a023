//! The limits of a tree, as far as its files tell.
ghost use Rattle.std.specs.Prelude.{◌≡◌, IfOk};
ghost use Rattle.tree_report.specs.Limits.{is_limited, limited_sizes, are_many, some_long, are_heavy, size_limit};

use analysis_core::TreeLimit;
use gv_base::{Files, NoMemory};
use import_graph::is_source;
use std::alloc::Global;

/// The most files of a tree that are read, bytes of one, and bytes of all.
const MOST_FILES: usize = 10_000;

const MOST_FILE_BYTES: usize = 4_194_304;

const MOST_TREE_BYTES: usize = 67_108_864;

/// Whether the limits count a file: `go.mod`, and the source files.
fn is_limited(path: &[u8]) -> bool
    ensures { result ≡ is_limited path.now }
{
    path == b"go.mod".as_slice() || is_source(path)
}

/// How many bytes each of these files has.
pub fn limited_sizes(alloc: Global, files: &Files) -> Result<Vec<usize>, NoMemory>
    ensures { IfOk result (λ sizes. sizes.items ≡ limited_sizes files.now) }
{
    let mut sizes = Vec::new(alloc);
    for file in 0..files.count() {
        let (path, text) = files.at(file);
        if is_limited(path.as_bytes()) {
            sizes.push(text.len())?;
        }
    }
    Ok(sizes)
}

fn are_many(sizes: &[usize]) -> bool
    ensures { result ≡ are_many sizes.now }
{
    sizes.len() > MOST_FILES
}

fn some_long(sizes: &[usize]) -> bool
    ensures { result ≡ some_long sizes.now }
{
    sizes.iter().any(|size| *size > MOST_FILE_BYTES)
}

fn are_heavy(sizes: &[usize]) -> bool
    ensures { result ≡ are_heavy sizes.now }
{
    let mut room = MOST_TREE_BYTES;
    for size in sizes {
        if *size > room {
            return true;
        }
        room -= *size;
    }
    false
}

/// The first limit that files of these sizes are over, by how many they are, by the bytes of one, and by those of all.
pub fn size_limit(sizes: &[usize]) -> Option<TreeLimit>
    ensures { result ≡ size_limit sizes.now }
{
    if are_many(sizes) {
        return Some(TreeLimit::Files);
    }
    if some_long(sizes) {
        return Some(TreeLimit::FileBytes);
    }
    if are_heavy(sizes) {
        return Some(TreeLimit::TreeBytes);
    }
    None
}
