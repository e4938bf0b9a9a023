//! Room for what is read of a node.
use rule_words::{Read, Seen};
use std::alloc::Global;

/// Room for what is read of a node's parts, kept from node to node.
#[derive(Drop)]
pub struct Room {
    pub reads: Vec<Read>,
    pub seen: Vec<Seen>,
}

impl Room {
    pub fn new(alloc: Global) -> Room {
        Room {
            reads: Vec::new(alloc),
            seen: Vec::new(alloc),
        }
    }
}
