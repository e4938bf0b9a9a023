//! Parts of calls as they were read, values, and marks.
ghost use Rattle.std.specs.Prelude.{◌≡◌, length};
ghost use Rattle.rule_words.specs.Scenes.{parts_in};
ghost use Rattle.builtin_rules.specs.Named.{argument_count};

use rule_words::{Answer, Seen, Step};
use typed_marks::{Mark, State};

/// How many parts there are.
pub fn part_count(s: &State, parts: &[Seen]) -> usize
    ensures { result ≡ length (parts_in s.now parts.now) }
{
    let _ = s;
    parts.len()
}

/// How many arguments there are.
pub fn argument_count(s: &State, parts: &[Seen]) -> usize
    ensures { result ≡ argument_count (parts_in s.now parts.now) }
{
    part_count(s, parts).saturating_sub(1)
}

/// A mark.
pub fn says(mark: Mark) -> Step
    ensures { result ≡ Step.Says (Answer.Mark mark) }
{
    Step::Says(Answer::Mark(mark))
}
