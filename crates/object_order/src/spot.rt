//! What the search for needs goes over: nodes and objects, and what is looked for there.
use go_tree::NodeRef;
use gv_base::Row;

/// What is looked for at a node.
#[derive(Clone, Copy, Debug, PartialEq, Eq, Drop)]
pub enum Mode {
    /// At an object: all that it needs.
    Needs,
    /// At an object: all to which any mentions lead from it.
    Reach,
    /// At an object: what its declaration is a step to, where it is a type.
    Steps,
    /// At an alias: the type to which it leads.
    Follow,
    /// At an alias: the methods of the type to which it leads.
    Kin,
    /// In a type: what it mentions directly.
    Direct,
    /// In a declaration: what its array lengths mention, and all to which that leads.
    Lengths,
    /// In a declaration: what it mentions, and all to which that leads.
    Whole,
    /// In an alias: the aliases that it mentions.
    Aliases,
    /// In a type: the aliases that it mentions, as steps.
    AliasSteps,
    /// In a type: what its interfaces embed, as steps.
    Embeds,
    /// In a type: the type that it names alone, as a step.
    Alone,
}

/// A node and what is looked for there.
#[derive(Clone, Copy, Debug, PartialEq, Eq, Drop)]
pub struct Spot {
    pub mode: Mode,
    pub at: NodeRef,
}

/// What a declared name stands for, as far as needs tell it apart.
#[derive(Clone, Copy, Debug, PartialEq, Eq, Drop)]
pub enum Form {
    /// A constant, a variable, a function or a method.
    Other,
    /// A type of its own.
    Defined,
    /// Another name for a type.
    Alias,
}

/// What a node is in a declaration.
#[derive(Clone, Copy, Debug, PartialEq, Eq, Drop)]
pub enum Role {
    /// Its type.
    Typing,
    /// An expression on which neither its type nor its value rests.
    Beside,
    /// An expression on which its type or value rests.
    Resting,
}

/// A node of a declaration, by its number in the declaration's file.
#[derive(Clone, Copy, Debug, PartialEq, Eq, Drop)]
pub struct Root {
    pub role: Role,
    pub node: u32,
}

/// A declared name: where it is declared, what it stands for, and the nodes of its declaration.
#[derive(Drop)]
pub struct Entry {
    pub name: NodeRef,
    pub form: Form,
    pub roots: Row<Root>,
}
