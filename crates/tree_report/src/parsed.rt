//! The trees that stay for the loads of their packages.
use crate::heard::Heard;
use fact_cache::Cache;
use gv_base::NoMemory;
use gv_driver::{PackageTrees, ParsedFile, Trees};
use import_graph::Package;
use std::alloc::Global;
use std::sync::Mutex;

/// How many bytes of text have trees at most that stay: a tree takes some ten times the memory of its text.
const MOST_KEPT: usize = 1 << 22;

/// What was parsed of the files of a tree and stays; of how many bytes of text the trees may stay.
#[derive(Drop)]
pub struct Parsed {
    trees: Vec<Option<ParsedFile>>,
    pub room: usize,
}

/// How many bytes of text have trees that stay. Over a cache that was filled before anything was heard nearly every load is known, and no tree is
/// worth its memory.
fn room_beside(heard: &Heard, cache: &Cache) -> usize {
    if heard.files.is_empty() && !cache.is_empty() {
        return 0;
    }
    MOST_KEPT
}

/// Before anything is parsed.
pub fn nothing_parsed(alloc: Global, heard: &Heard, cache: &Cache) -> Parsed {
    Parsed {
        trees: Vec::new(alloc),
        room: room_beside(heard, cache),
    }
}

impl Parsed {
    /// What was parsed of the next file.
    pub fn keep(&mut self, file: Option<ParsedFile>) -> Result<(), NoMemory> {
        self.trees.push(file)?;
        Ok(())
    }

    /// What was parsed of a file, which is handed out once.
    fn take(&mut self, file: u32) -> Option<ParsedFile> {
        let at = file as usize;
        if at >= self.trees.len() {
            return None;
        }
        self.trees[at].take()
    }
}

/// The trees of a package's files.
fn trees_of(alloc: Global, parsed: &mut Parsed, numbers: &[u32]) -> Result<Trees, NoMemory> {
    let mut list = Vec::with_capacity(alloc, numbers.len())?;
    for number in numbers {
        list.push(parsed.take(*number))?;
    }
    Ok(Trees::new(list))
}

/// The trees of each package's files.
pub fn all_trees(
    alloc: Global,
    parsed: Parsed,
    packages: &[Package],
) -> Result<PackageTrees, NoMemory> {
    let mut parsed = parsed;
    let mut list = Vec::with_capacity(alloc, packages.len())?;
    for pack in packages {
        let trees = trees_of(alloc, &mut parsed, pack.files.as_slice())?;
        list.push(Mutex::new(Some(trees)))?;
    }
    Ok(PackageTrees::new(list))
}
