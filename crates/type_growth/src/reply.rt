//! What a call over a table replies.
use type_model::TypeId;

/// The reply to a question about types.
#[derive(Drop)]
pub enum Reply<A> {
    /// Enough is declared, and this is the answer.
    Is(A),
    /// The defined type of a name that has to be declared first.
    Waits(TypeId),
}
