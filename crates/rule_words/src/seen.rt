//! What is seen of a part.
use type_model::TypeId;
use typed_marks::Mark;

/// A part: its mark, and the underlying type of its final type where that is read and known.
#[derive(Clone, Copy, PartialEq, Eq, Drop)]
pub struct Seen {
    pub mark: Mark,
    pub under: Option<TypeId>,
}
