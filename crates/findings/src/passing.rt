//! What an analyzer reads.
use typed_marks::State;
use unit_read::Subject;

/// A package that was read, with all its marks.
#[derive(Drop)]
pub struct Pass<'a> {
    pub subject: &'a Subject<'a>,
    pub state: &'a State,
}
