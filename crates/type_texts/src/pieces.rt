//! Types as rows of pieces: what stands before the parts of a type, without the parts.
use gv_base::{Bytes, Kind, Text};
use type_model::{Dir, TypeName};

/// A piece of a type's text.
#[derive(Drop)]
pub enum Piece {
    Basic(Kind),
    Defined(TypeName),
    /// The base type follows.
    Pointer,
    /// The element type follows.
    Slice,
    /// An array of that many elements, whose type follows.
    Array(u64),
    /// The key and the element type follow.
    Map,
    /// The element type follows.
    Chan(Dir),
    /// A function type, true where it is variadic; its parameters and its results follow.
    Func(bool),
    /// A list of that many types.
    List(u64),
    /// A struct of that many fields.
    Struct(u64),
    /// A field by its name, its package and whether it is embedded; its type and its tag follow.
    Field(Text, Text, bool),
    Tag(Bytes),
    /// An interface of that many methods.
    Interface(u64),
    /// A method by its name, its package and whether its receiver is a pointer; its signature follows.
    Method(Text, Text, bool),
    /// The signature of a method, as `Func`.
    Signature(bool),
}

/// What is wanted next.
#[derive(Clone, Copy, PartialEq, Eq, Drop)]
pub enum Sort {
    OneType,
    SomeTypes,
    OneField,
    OneTag,
    OneMethod,
    OneSignature,
}

/// So many of one sort are wanted.
#[derive(Clone, Copy, Drop)]
pub struct Run {
    pub sort: Sort,
    pub count: u64,
}
