//! The types that packages are seen over, for clauses alone.
ghost use Rattle.std.specs.Prelude.{◌≡◌, List};
ghost use Rattle.std.specs.Borrow.{ftrue};
ghost use Rattle.type_model.specs.declared.term.Term.{Term as ATerm};

use std::marker::Model;
use type_model::Term;

/// The types of a table as they stood at a moment. It takes no memory, and nothing is copied: only clauses read it.
#[derive(Drop)]
pub struct SeenTypes {
    pub ghost now: { List ATerm },
}

impl Model for SeenTypes {
    ghost also_owns = { λ _. ftrue };
}

impl SeenTypes {
    /// Those of a table, which may grow from here on.
    pub fn new(_types: &[Term]) -> SeenTypes
        ensures { result.now ≡ _types.now }
    {
        SeenTypes {}
    }
}
