//! Where the results of a call are the arguments of another (Go 1.17, "Calls").
ghost use Rattle.std.specs.Prelude.{◌≡◌, ◌&&◌};
ghost use Rattle.rule_words.specs.Scenes.{said};
ghost use Rattle.call_rules.specs.Passing.{is_several_mode, gives_several, is_plain_call, is_only, is_passed};

use go_tree::{Node, NodeKind};
use package_objects::part_count;
use typed_marks::{Mark, State};
use typed_tree::Mode;

fn is_several_mode(mode: Mode) -> bool
    ensures { result ≡ is_several_mode mode }
{
    match mode {
        Mode::Many => true,
        Mode::NoValue => true,
        Mode::TypeName => false,
        Mode::Constant => false,
        Mode::Variable => false,
        Mode::MapIndex => false,
        Mode::Value => false,
        Mode::CommaOk => false,
        Mode::Nil => false,
        Mode::Builtin => false,
        Mode::Package => false,
    }
}

fn gives_several(s: &State, m: Mark) -> bool
    ensures { result ≡ gives_several (said s.now m) }
{
    let _ = s;
    match m {
        Mark::Good(x) => is_several_mode(x.mode),
        Mark::Bad(_) => false,
        Mark::Outside(_) => false,
        Mark::Silent => false,
        Mark::Wants(_, _) => false,
        Mark::Declared(_) => false,
    }
}

fn is_plain_call(kind: NodeKind) -> bool
    ensures { result ≡ is_plain_call kind }
{
    match kind {
        NodeKind::Call => true,
        _ => false,
    }
}

fn is_only(around: &Node, slot: usize) -> bool
    ensures { result ≡ is_only around.now slot }
{
    slot == 1 && part_count(around) == 2
}

fn is_only_several(s: &State, around: &Node, slot: usize, m: Mark) -> bool
    ensures { result ≡ (is_only around.now slot && gives_several (said s.now m)) }
{
    is_only(around, slot) && gives_several(s, m)
}

/// The only argument of a call without `...` is itself a call of several results, or of none.
#[tactic(auto, unfolding(crate::specs::Passing::is_passed))]
pub fn is_passed(s: &State, around: &Node, slot: usize, m: Mark) -> bool
    ensures { result ≡ is_passed around.now slot (said s.now m) }
{
    is_plain_call(around.kind) && is_only_several(s, around, slot, m)
}
