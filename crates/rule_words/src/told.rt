//! What is told of values one after the other, until one isn't assignable.
ghost use Rattle.std.specs.Prelude.{◌≡◌};
ghost use Rattle.rule_words.specs.Told.{is_refused, ends};

use type_questions::{Found, Reached};
use typed_marks::Item;

fn is_refused(told: &Reached<bool>) -> bool
    ensures { result ≡ is_refused told.now }
{
    match told {
        Reached::Got(holds) => !*holds,
        Reached::Lost => true,
    }
}

/// Those behind it aren't looked at.
pub fn ends(found: &Found<Reached<bool>, Item>) -> bool
    ensures { result ≡ ends found.now }
{
    match found {
        Found::Is(told) => is_refused(told),
        Found::Wait(_) => true,
    }
}
