//! The functions of a package, and what control does in its files.
use flow::{Call, Graph};
use go_tree::FileTree;

/// What control does in a file: the labeled statements that jumps denote, where it passes, and what
/// expression statements call.
#[derive(Drop)]
pub struct FileFlow<'a> {
    pub tree: &'a FileTree,
    /// For the name behind a jump the labeled statement that it denotes.
    pub labels: &'a [Option<u32>],
    /// The graph of the tree, with these labels.
    pub graph: &'a Graph,
    /// For the node of an expression statement what it calls.
    pub calls: &'a [Call],
}

/// A block of a file, by the numbers of both.
#[derive(Clone, Copy, Drop)]
pub struct Block {
    pub file: u32,
    pub node: u32,
}

/// A function: whether it is known that it never returns, and its body, if it has one.
#[derive(Drop)]
pub struct Function {
    pub listed: bool,
    pub body: Option<Block>,
}
