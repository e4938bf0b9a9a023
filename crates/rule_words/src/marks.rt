//! The marks so far.
ghost use Rattle.std.specs.Prelude.{◌≡◌};
ghost use Rattle.mark_walk.specs.Telling.{tell};
ghost use Rattle.unit_read.specs.Subjects.{unit_of, IsRead};
ghost use Rattle.rule_words.specs.Asking.{is_within, stands, mark_ask};
ghost use Rattle.rule_words.specs.Scenes.{sight, IsScene, told_by, IfFound, said, IsMarkOf};

use type_questions::Found;
use typed_marks::{Item, Mark, Span, Stage, State};
use unit_read::Subject;

fn is_within(span: Span, n: usize) -> bool
    ensures { result ≡ is_within span n }
{
    span.low <= n && n < span.end
}

/// Whether there is such a node in the passage of a block.
pub fn stands(u: &Subject, block: usize, n: usize) -> bool
    requires { IsRead u.now }
    ensures { result ≡ stands (unit_of u.now) block n }
{
    match u.passage_at(block) {
        Some(passage) => is_within(passage.span, n),
        None => false,
    }
}

/// The mark of a node at a stage, or its item, where that has no mark yet. What isn't there is Silent.
pub fn look(u: &Subject, s: &State, stage: Stage, block: usize, n: u32) -> Found<Mark, Item>
    requires { IsScene u.now s.now }
    ensures is { told_by (said s.now) result ≡ tell (sight s.now) (mark_ask (unit_of u.now) stage block n) }
    ensures over { IfFound result (IsMarkOf s.now) }
{
    if !stands(u, block, n as usize) {
        return Found::Is(Mark::Silent);
    }
    let item = Item {
        stage,
        block,
        node: n as usize,
    };
    match s.see(item) {
        Some(m) => Found::Is(m),
        None => Found::Wait(item),
    }
}
