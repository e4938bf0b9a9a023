//! Which names a node declares, and where they are known (Go 1.17, "Blocks", "Declarations and scope").

/// A declared name, and its region: the nodes from `start` on, before `end`. Nodes are numbered in the order in which
/// they end in the text, so that a region of the text is a range of nodes. A region goes to the end of its block, so
/// `end` is the node that is the block, and the number of a file's nodes for what is declared outside functions.
#[derive(Clone, Copy, Debug, PartialEq, Eq, Drop)]
pub struct Named {
    pub node: usize,
    pub start: usize,
    pub end: usize,
    /// Whether it stands on the left of `:=`, which declares it only where its block doesn't have it yet.
    pub soft: bool,
}

/// What a node is where names are declared.
#[derive(Clone, Copy, Debug, PartialEq, Eq, Drop)]
pub enum Form {
    Name,
    Names,
    /// The parameters of a signature.
    Params,
    /// Some of them, with names.
    Param,
    /// The name of a type switch, and its operand.
    Bind,
    Other,
}

/// Which names a node hands to its parts, to be declared where a body or a list of statements begins.
#[derive(Clone, Copy, Debug, PartialEq, Eq, Drop)]
pub enum Handed {
    Nothing,
    /// Those of its parameters and results, for the block of the body.
    Parameters,
    /// Those of its first part, for the block of the node.
    Range,
    /// The name of a type switch, for the block of each clause.
    Switch,
    /// What was handed to it.
    Passed,
}

/// Where the names of a node's first part are declared.
#[derive(Clone, Copy, Debug, PartialEq, Eq, Drop)]
pub enum Declares {
    Nothing,
    /// From the node on.
    Before,
    /// From the end of the node on.
    After,
    /// From the end of the node on, where the block doesn't have them yet.
    Assigns,
}

/// What a kind of node does to names.
#[derive(Clone, Copy, Debug, PartialEq, Eq, Drop)]
pub struct Role {
    pub form: Form,
    /// It is a block.
    pub opens: bool,
    /// It begins with the names that are handed to it.
    pub takes: bool,
    pub hands: Handed,
    pub declares: Declares,
    /// How many of its first parts end with the one that is no use: a name that it declares, or of a package, field,
    /// method or label. 0 where each part may be one.
    pub named: usize,
}
