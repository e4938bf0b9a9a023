//! Constant specifications.

/// A specification of a constant declaration (Go 1.17, "Constant declarations").
#[derive(Clone, Copy, Debug, PartialEq, Eq, Drop)]
pub struct Spec {
    /// Its node.
    pub node: u32,
    /// Its number in its declaration, from 0: the value of `iota` in it.
    pub iota: u64,
    /// The node of the specification whose type and values count for it: itself, or the last one before it in its
    /// declaration that has values. None where there is none.
    pub source: Option<u32>,
}
