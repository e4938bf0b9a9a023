//! Trees of files that were parsed before their package is loaded.
ghost use Rattle.std.specs.Prelude.{IfSome};
ghost use Rattle.parse_file.specs.Verdict.{IsParsed};

use go_tree::FileTree;
use gv_base::Bytes;
use std::marker::Model;
use std::sync::Mutex;

/// A file that was parsed: its bytes, and their tree. A contract sees nothing of it: nothing that comes of a package depends on whether its
/// files were parsed before.
#[derive(Drop)]
pub struct ParsedFile {
    bytes: Bytes,
    tree: FileTree,
}

impl Model for ParsedFile {
    ghost use Rattle.parse_file.specs.Verdict.{IsParsed};

    ghost Value = { Unit {0} };

    ghost view = { λ p. tt };

    ghost invariant = { λ p. IsParsed p.bytes p.tree };
}

impl ParsedFile {
    /// These bytes, with their tree.
    pub fn new(bytes: Bytes, tree: FileTree) -> Self
        requires { IsParsed bytes tree }
    {
        ParsedFile { bytes, tree }
    }

    /// How many bytes the file has.
    pub fn size(&self) -> usize {
        self.bytes.as_slice().len()
    }

    /// The tree, if the file has these bytes.
    pub fn tree_of(self, text: &[u8]) -> Option<FileTree>
        ensures { IfSome result (λ tree. IsParsed text.now tree) }
    {
        let ParsedFile { bytes, tree } = self;
        if bytes.as_slice() != text {
            return None;
        }
        Some(tree)
    }
}

/// Trees of a package's files, in order of the files; none of a file that wasn't parsed. Each is taken out once. Only speed rests on their order.
#[derive(Drop)]
pub struct Trees {
    files: Vec<Option<ParsedFile>>,
    next: usize,
}

impl Model for Trees {
    ghost Value = { Unit {0} };

    ghost view = { λ t. tt };
}

impl Trees {
    /// These trees.
    pub fn new(files: Vec<Option<ParsedFile>>) -> Self {
        Trees { files, next: 0 }
    }

    /// What was parsed of the next file.
    fn next(&mut self) -> Option<ParsedFile> {
        let at = self.next;
        if at >= self.files.len() {
            return None;
        }
        self.next = at + 1;
        self.files[at].take()
    }

    /// The tree of the next file, if it was parsed and has these bytes.
    pub fn next_of(&mut self, text: &[u8]) -> Option<FileTree>
        ensures { IfSome result (λ tree. IsParsed text.now tree) }
    {
        match self.next() {
            Some(file) => file.tree_of(text),
            None => None,
        }
    }
}

/// The trees of a tree's packages, by number, of which workers take out each package's once.
#[derive(Drop)]
pub struct PackageTrees {
    packages: Vec<Mutex<Option<Trees>>>,
}

impl PackageTrees {
    /// These trees.
    pub fn new(packages: Vec<Mutex<Option<Trees>>>) -> Self {
        PackageTrees { packages }
    }

    /// The trees of a package, if they are there still. No two workers ask for one package, so that the lock is free; where it weren't, the files
    /// would be parsed again.
    pub fn take(&self, at: usize) -> Option<Trees> {
        if at >= self.packages.len() {
            return None;
        }
        match self.packages[at].try_lock() {
            Some(mut trees) => trees.take(),
            None => None,
        }
    }
}
