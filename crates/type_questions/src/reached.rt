//! What comes of a question about types.

/// The answer to a question, or that there is none.
#[derive(Drop)]
pub enum Reached<A> {
    /// Enough is declared, and this is the answer.
    Got(A),
    /// A name that the question needs is declared by nothing, now or later: a rule that reads the answer is silent.
    Lost,
}

/// What a judge comes to.
#[derive(Drop)]
pub enum Found<A, I> {
    /// What is asked.
    Is(A),
    /// This item has to be marked first.
    Wait(I),
}
