//! Marks. Types and constants stand in them by number, so that a mark is small and is copied without memory.
use type_model::TypeId;
use typed_tree::{Limit, Mode, Rule, Want as Demand};

/// The number of a constant in its table.
#[derive(Clone, Copy, Debug, PartialEq, Eq, Drop)]
pub struct ConstId(pub u32);

/// What is known of a good node or object: what it stands for, its type, its value where it is a constant, and its final type, which an
/// untyped operand takes from its place (Go 1.17, "Constants", "Conversions").
#[derive(Clone, Copy, PartialEq, Eq, Drop)]
pub struct Facts {
    pub mode: Mode,
    pub of: TypeId,
    pub value: Option<ConstId>,
    pub last: TypeId,
}

/// Which type a place wants of the expression that stands there.
#[derive(Clone, Copy, PartialEq, Eq, Drop)]
pub enum Want {
    /// None: an untyped expression takes its default type.
    Free,
    /// An untyped expression takes this one; what stands around tests it.
    Takes(TypeId),
    /// An untyped expression takes this one, in which a constant is representable.
    Fits(TypeId),
    /// The expression is assigned to this type (Go 1.17, "Assignability").
    Assigned(TypeId),
}

/// What is kept of an item.
#[derive(Clone, Copy, PartialEq, Eq, Drop)]
pub enum Mark {
    /// A node or an object that keeps all rules.
    Good(Facts),
    /// It breaks this rule.
    Bad(Rule),
    /// It lies outside the profile.
    Outside(Limit),
    /// A part that its rule needs isn't good. Of a type: its declaration gives nothing.
    Silent,
    /// What the place of a node wants: what has to stand there, and of which type.
    Wants(Demand, Want),
    /// This defined type is declared in the table.
    Declared(TypeId),
}
