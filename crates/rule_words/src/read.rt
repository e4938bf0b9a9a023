//! How the rule of a node reads its parts.

/// How a part is read. What is no part of the rule is not read at all.
#[derive(Clone, Copy, Debug, PartialEq, Eq, Drop)]
pub enum How {
    /// Its mark in its place: a type, a declaration, a statement.
    Type,
    /// The same, and the underlying type of the type that it is.
    TypeAndUnder,
    /// Its mark alone, at the stage at which the whole is judged: what may be a type, a package or a value.
    Mark,
    /// Its mark at the stage at which the whole is judged, and the underlying type of its final type: a value.
    Value,
}

/// A node that is read as a part of another.
#[derive(Clone, Copy, Debug, PartialEq, Eq, Drop)]
pub struct Read {
    pub how: How,
    pub node: u32,
}
