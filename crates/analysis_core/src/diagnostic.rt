//! What an analyzer finds.
use fix_apply::Fix;
use gv_base::{Bytes, Place};

/// A finding of an analyzer.
#[derive(Drop)]
pub struct Diagnostic {
    /// Where it points: at the first token of the reported node. In what an analyzer answers of a package, the file
    /// counts the package's files from 0; in a reply it is the file's number in the tree.
    pub place: Place,
    /// The offset after the last token of the reported node.
    pub end: u32,
    /// The analyzer's number.
    pub analyzer: u8,
    /// What it says.
    pub text: Bytes,
    /// What would mend it, in its own file.
    pub fix: Option<Fix>,
}
