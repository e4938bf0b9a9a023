//! Passages of a package's files.
use const_tree::Spec;
use typed_marks::Span;

/// Nodes of a file that are read as one: all of them; or those of a list of constants as a specification without values repeats it, which is
/// named here.
#[derive(Clone, Copy, Debug, PartialEq, Eq, Drop)]
pub struct Passage {
    pub file: u32,
    pub spec: Option<Spec>,
    pub span: Span,
}
