//! Labels and jumps.

/// A label, by the node of its name.
#[derive(Clone, Copy, Debug, PartialEq, Eq, Drop)]
pub struct Label {
    pub name: usize,
    /// The first label of its name in its function: itself, or one before it, and then it is repeated.
    pub first: usize,
    /// Whether a jump denotes it. Jumps denote the first of a name, so that a repeated label isn't used.
    pub used: bool,
}

/// A jump to a label, by the node of the name behind `break`, `continue` or `goto`.
#[derive(Clone, Copy, Debug, PartialEq, Eq, Drop)]
pub struct Jump {
    pub name: usize,
    /// The node of the label's name: none where its function has no such label.
    pub label: Option<usize>,
}

/// The labels and the jumps of a file, each in order.
#[derive(Drop)]
pub struct Labels {
    pub labels: Vec<Label>,
    pub jumps: Vec<Jump>,
}
