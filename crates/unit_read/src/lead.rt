//! What imports lead to.
use typed_tree::Limit;

/// What an import leads to.
#[derive(Clone, Copy, Debug, PartialEq, Eq, Drop)]
pub struct Lead {
    /// The limit outside which it lies.
    pub limit: Option<Limit>,
    /// The number of the interface that has its path, unless it lies outside a limit.
    pub interface: Option<usize>,
}
