//! What a format says.
use gv_base::Row;

/// A directive of a format, from its `%` to its verb. Offsets are in bytes from 0; arguments count from 1,
/// the first being the one after the format.
#[derive(Drop)]
pub struct Directive {
    /// The offset of the `%`.
    pub start: u32,
    /// The offset after the verb.
    pub end: u32,
    /// The set of the flags: 1 for `+`, 2 for `-`, 4 for `#`, 8 for `0` and 16 for the space.
    pub flags: u8,
    /// The arguments that the `*` of the width and that of the precision read.
    pub stars: Row<u32>,
    /// The argument that the verb reads, 0 for `%`, which reads none.
    pub argument: u32,
    /// Whether a `[n]` stands in it.
    pub indexed: bool,
    /// The verb. A byte that begins no UTF-8 character counts as U+FFFD.
    pub verb: char,
}

/// The directives of a format in their order, or its first fault.
#[derive(Drop)]
pub enum Format {
    List(Row<Directive>),
    /// The format ends where the verb of the directive that starts at `at` is due.
    NoVerb { at: u32 },
    /// The `[` at `at` stands where an index may stand, and begins none.
    BadIndex { at: u32 },
}
