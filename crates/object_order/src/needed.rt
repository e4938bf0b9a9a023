//! An item of an order of need.
use go_tree::NodeRef;

/// An object, by the node of its declared name, and whether its needs lead back to it.
#[derive(Clone, Copy, Debug, PartialEq, Eq, Drop)]
pub struct Needed {
    pub object: NodeRef,
    pub cyclic: bool,
}
