//! Points of statements, and what leads from one to another.

/// Control may pass from one point to another. Before the statement of node n is the point 2n, after
/// it 2n + 1.
#[derive(Clone, Copy, Drop)]
pub struct Edge {
    pub from: usize,
    pub to: usize,
}

/// What is asked of a part of a statement.
#[derive(Clone, Copy, Drop)]
pub(crate) enum Role {
    /// Any part.
    Any,
    /// The list of a clause.
    List,
    /// A simple statement in front of a condition, a tag or a loop: a semicolon follows it.
    Opening,
    /// A branch of an `if`, or a clause of a `switch` or a `select`.
    Arm,
    /// The block of a loop.
    Body,
    /// What a loop does between two turns.
    Post,
    /// A `default`.
    Default,
    /// The condition between the semicolons of a `for`.
    Condition,
}

/// Where a `break` and a `continue` without a label and a `fallthrough` lead, as points: none where they
/// lead nowhere.
#[derive(Clone, Copy, Drop)]
pub struct Around {
    pub leave: Option<usize>,
    pub again: Option<usize>,
    pub fall: Option<usize>,
}

/// What an expression statement calls.
#[derive(Clone, Copy, Drop)]
pub enum Call {
    /// Nothing that matters: control passes.
    Passes,
    /// `panic`, or a function of which it is known that it never returns.
    Stops,
    /// The function of this number.
    Function(u32),
}
