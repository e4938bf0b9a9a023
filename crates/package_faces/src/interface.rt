//! What a package exports, over the types of a table.
use gv_base::{Const, Row, Text};
use type_model::{Method, TypeId};

/// A package as other packages see it: its import path, the name in its package clause, its exported objects by name, and its own
/// defined types that these reach, by name.
#[derive(Drop)]
pub struct Interface {
    pub path: Text,
    pub name: Text,
    pub objects: Row<Exported>,
    pub types: Row<ExportedType>,
}

/// An exported object.
#[derive(Drop)]
pub struct Exported {
    pub name: Text,
    pub form: ExportForm,
}

/// What a name is exported as.
#[derive(Drop)]
pub enum ExportForm {
    /// A constant by its type and its value. Whether the type can represent it isn't asked here.
    Constant(TypeId, Const),
    Variable(TypeId),
    Function(TypeId),
    /// A defined type of the package, of the object's name.
    Own(TypeId),
    Alias(TypeId),
}

/// A defined type of the package: its name, its underlying type, and its methods by name and package.
#[derive(Drop)]
pub struct ExportedType {
    pub name: Text,
    pub under: TypeId,
    pub methods: Row<Method>,
}
