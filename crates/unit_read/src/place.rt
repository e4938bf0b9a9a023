//! Where nodes stand.

/// Where a node stands: in this node, as which item of which of its parts. A part that is no list has one item.
#[derive(Clone, Copy, Debug, PartialEq, Eq, Drop)]
pub struct Place {
    pub around: u32,
    pub slot: usize,
    pub index: usize,
}

/// A node, and where it stands.
#[derive(Clone, Copy, Debug, PartialEq, Eq, Drop)]
pub struct Standing {
    pub node: u32,
    pub place: Place,
}
