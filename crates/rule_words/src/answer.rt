//! What rules give.
use gv_base::Const;
use type_model::{Term, TypeId};
use typed_marks::Mark;
use typed_tree::Mode;

/// The mark that a rule gives.
#[derive(Drop)]
pub enum Answer {
    /// One over types and constants that are there.
    Mark(Mark),
    /// A good one of this type, which may be new.
    Type(Mode, Term),
    /// A constant of this value: its type, and its final type.
    Constant(TypeId, TypeId, Const),
}
