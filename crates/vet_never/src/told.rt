//! What statements call, as it is told.
use member_names::Named as Name;

/// What a statement calls.
#[derive(Drop)]
pub enum Told {
    /// Nothing that matters.
    Other,
    /// The predeclared `panic`.
    Panic,
    /// A declared function or method.
    Named(Name),
}
