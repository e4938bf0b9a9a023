//! Marks that end a rule, as answers.
ghost use Rattle.std.specs.Prelude.{◌≡◌};

use crate::answer::Answer;
use typed_marks::Mark;
use typed_tree::{Limit, Rule};

/// This rule is broken.
pub fn bad(rule: Rule) -> Answer
    ensures { result ≡ Answer.Mark (Mark.Bad rule) }
{
    Answer::Mark(Mark::Bad(rule))
}

/// It lies outside this limit.
pub fn outside(limit: Limit) -> Answer
    ensures { result ≡ Answer.Mark (Mark.Outside limit) }
{
    Answer::Mark(Mark::Outside(limit))
}

/// Nothing is said.
pub fn silent() -> Answer
    ensures { result ≡ Answer.Mark Mark.Silent }
{
    Answer::Mark(Mark::Silent)
}
