//! Marks: what is said of a literal, a predeclared name or what an import exports.
use crate::rule::{Limit, Rule};
use gv_base::Const;
use type_model::TypeId;

/// What a good node stands for (Go 1.17, "Expressions").
#[derive(Clone, Copy, Debug, PartialEq, Eq, Drop)]
pub enum Mode {
    /// Nothing that has a value: a statement, a declaration, a call without result.
    NoValue,
    /// A type.
    TypeName,
    /// A constant.
    Constant,
    /// A variable, or what else has an address.
    Variable,
    /// An element of a map.
    MapIndex,
    /// Another single value.
    Value,
    /// A value that a second, boolean one may go with.
    CommaOk,
    /// The predeclared `nil`.
    Nil,
    /// A built-in function.
    Builtin,
    /// An imported package.
    Package,
    /// Several values: the results of a call.
    Many,
}

/// What is known of a good node: what it stands for, its type, and its value where it is a constant.
#[derive(Drop)]
pub struct Facts {
    pub mode: Mode,
    pub of: TypeId,
    pub value: Option<Const>,
}

/// The mark of what stands at a node, whatever the place wants of it.
#[derive(Drop)]
pub enum Mark {
    /// It keeps all rules.
    Good(Facts),
    /// It breaks this rule.
    Bad(Rule),
    /// It lies outside the profile.
    Outside(Limit),
    /// A part that its rule needs isn't good.
    Silent,
}
