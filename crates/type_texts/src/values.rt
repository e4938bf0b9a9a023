//! What the end of a row of pieces makes, over the types of a table.
use gv_base::{Bytes, Row};
use type_model::{Field, Method, Signature, TypeId};

/// A part that is made: a type, a list of types, a field with its tag, a tag, a method with its signature, a signature.
#[derive(Drop)]
pub enum Value {
    Type(TypeId),
    List(Row<TypeId>),
    Field(Field),
    Tag(Bytes),
    Method(Method),
    Signature(Signature),
}
