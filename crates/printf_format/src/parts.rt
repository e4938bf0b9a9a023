//! The parts of a directive.

/// What stands where an index may stand, up to an offset.
#[derive(Clone, Copy, Drop)]
pub(crate) struct Index {
    /// The n of `[n]`, if one stands there.
    pub(crate) number: Option<u32>,
    pub(crate) end: usize,
}

/// A width or a precision, with the index before it, up to an offset.
#[derive(Clone, Copy, Drop)]
pub(crate) struct Size {
    pub(crate) index: Option<u32>,
    /// Whether it is `*`, and not digits or nothing.
    pub(crate) star: bool,
    pub(crate) end: usize,
}

/// The parts of a directive, up to an offset.
#[derive(Clone, Copy, Drop)]
pub(crate) struct Parts {
    pub(crate) flags: u8,
    pub(crate) width: Size,
    pub(crate) precision: Size,
    pub(crate) last: Index,
    pub(crate) verb: char,
    pub(crate) end: usize,
}

/// What comes next in a format.
#[derive(Clone, Copy, Drop)]
pub(crate) enum Turn {
    /// No directive.
    End,
    /// A directive.
    Whole { start: usize, parts: Parts },
    /// A directive that lacks its verb.
    NoVerb { at: usize },
    /// A directive with a bad index.
    BadIndex { at: usize },
}
