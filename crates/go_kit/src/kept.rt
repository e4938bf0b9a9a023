//! What is kept from load to load.
use gv_base::Bytes;
use package_faces::Interface;
use std::collections::HashMap;
use type_model::TypeTable;

/// What was read of a path: a text, and the interface that it spells.
#[derive(Drop)]
pub struct Known {
    pub text: Bytes,
    pub face: Interface,
}

/// A table, and by their paths what was read over it. Its types stay from load to load; what they are declared with is forgotten.
#[derive(Drop)]
pub struct Kept {
    pub table: TypeTable,
    pub known: HashMap<String, Known>,
}
