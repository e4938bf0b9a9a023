//! How far a rule has gone.
use crate::answer::Answer;
use type_model::{Method, TypeId};
use typed_marks::{ConstId, Item, Mark};
use typed_tree::Rule;

/// A question about types.
#[derive(Drop)]
pub enum Asked {
    /// Whether an operand without methods, of this type and, where it is a constant, of this value, may be assigned to a type.
    Assignable(TypeId, Option<ConstId>, TypeId),
    /// The same of an operand with these methods.
    AssignableBy(TypeId, Option<ConstId>, Vec<Method>, TypeId),
    /// Which methods a type has.
    Methods(TypeId),
    /// Whether a type is comparable.
    Comparable(TypeId),
}

/// Two typed operands of `==` or `!=`: their types, whether the underlying type of each is an interface, and the mark where the one is
/// assignable to the other and both are comparable.
#[derive(Clone, Copy, PartialEq, Eq, Drop)]
pub struct Pair {
    pub x: TypeId,
    pub y: TypeId,
    pub x_interface: bool,
    pub y_interface: bool,
    pub good: Mark,
}

/// What a rule does with the answer.
#[derive(Drop)]
pub enum Rest {
    /// It gives this mark where the relation holds, else this rule is broken.
    Held(Mark, Rule),
    /// With the methods of the first type, it puts whether an operand of that type and of this value is assignable to the second, and
    /// goes on as above.
    HeldBy(TypeId, Option<ConstId>, TypeId, Mark, Rule),
    /// The first of the pair is assignable to the second, or it puts whether the second is to the first.
    Either(Pair),
    /// The same, with the methods of the first.
    EitherBy(Pair),
    /// The second is assignable to the first, or the operands are mismatched.
    Other(Pair),
    /// The same, with the methods of the second.
    OtherBy(Pair),
    /// The first is comparable, and it puts whether the second is.
    Second(Pair),
}

/// A rule's mark, the item for whose mark it waits, or the question that it puts.
#[derive(Drop)]
pub enum Step {
    Says(Answer),
    Waits(Item),
    Puts(Asked, Rest),
}
