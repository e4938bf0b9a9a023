//! What may copy a lock.
use typed_marks::Stage;

/// How it is told; nodes are those that are spelled.
#[derive(Clone, Copy, Drop)]
pub enum Words {
    /// Assigned to a node.
    Assigned(u32),
    /// A variable's first value.
    Declared(u32),
    /// An element of a literal.
    Literal,
    /// A returned value.
    Returned,
    /// An argument of a call of this node.
    Argument(u32),
    /// A receiver or a parameter of a function of this name.
    Passed(u32),
    /// A parameter of a function literal.
    PassedByLiteral,
    /// A variable of a range clause.
    Ranged(u32),
}

/// A node of which the type counts: that of the node, or of the object that is declared there.
#[derive(Clone, Copy, Drop)]
pub struct Suspect {
    pub stage: Stage,
    pub node: u32,
    pub words: Words,
}
