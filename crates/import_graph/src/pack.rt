//! A package of a tree.

use gv_base::{Place, Row, Text};

/// Whether a package can be loaded; the first that holds.
#[derive(Drop)]
pub enum PackState {
    /// Some file of it is broken.
    Broken,
    /// These package names differ from that of its first file.
    NameClash(Row<Place>),
    /// These imports lead to no package.
    MissingImport(Row<Place>),
    /// Its imports lead to itself.
    ImportCycle,
    Sound,
}

/// A package: the source files of one directory.
#[derive(Drop)]
pub struct Package {
    pub path: Text,
    /// Whether it stands under `std`.
    pub stub: bool,
    /// The numbers of its files, in order.
    pub files: Row<u32>,
    /// The numbers of the packages that it imports, each once, in order.
    pub imports: Row<u32>,
    pub state: PackState,
}
