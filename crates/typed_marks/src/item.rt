//! What has a mark.

/// What is said of a node or an object.
#[derive(Clone, Copy, Debug, PartialEq, Eq, Drop)]
pub enum Stage {
    /// A node before a type is wanted of it.
    Before,
    /// What the place of a node wants of it.
    Wanted,
    /// A node of which that is wanted, before its place tests it.
    Judged,
    /// A node in its place.
    Placed,
    /// The object that is declared at a name.
    Object,
    /// With which underlying type and methods the type is declared that is declared at a name.
    Under,
}

/// What has a mark: a node of a block, at a stage. Objects and types are named by the node of their name.
#[derive(Clone, Copy, Debug, PartialEq, Eq, Drop)]
pub struct Item {
    pub stage: Stage,
    pub block: usize,
    pub node: usize,
}

/// Nodes that are read as one: those of a file, or those of a constant list as a specification repeats it (Go 1.17, "Constant
/// declarations"). They have the numbers from `low` on and before `end` in their file; `start` is the number of the block's first item.
#[derive(Clone, Copy, Debug, PartialEq, Eq, Drop)]
pub struct Block {
    pub low: usize,
    pub end: usize,
    pub start: usize,
}

/// The nodes of a block: from this one on, before that.
#[derive(Clone, Copy, Debug, PartialEq, Eq, Drop)]
pub struct Span {
    pub low: usize,
    pub end: usize,
}
