//! How many values a specification of variables needs.
ghost use Rattle.std.specs.Prelude.{◌≡◌};
ghost use Rattle.mark_walk.specs.Telling.{tell, Says};
ghost use Rattle.typed_tree.specs.Basics.{HasBasics};
ghost use Rattle.unit_read.specs.Subjects.{unit_of};
ghost use Rattle.rule_words.specs.Good.{known_of, AreFactsOf};
ghost use Rattle.rule_words.specs.Scenes.{sight, IsScene, said, IsMarkOf};
ghost use Rattle.rule_words.specs.Steps.{step_in, IsStepOf};
ghost use Rattle.rule_words.specs.Words.{nothing as nothing_said};
ghost use Rattle.variable_rules.specs.Counts.{shared_mark, shared_told, shared_rule, equal_mark, counted_rule};

use crate::forms::{name_count, shared_value, value_count};
use crate::several::given_to;
use go_tree::Node;
use gv_base::Kind;
use rule_words::good::{basic_type, broken, good, known, silent};
use rule_words::{Step, look};
use type_questions::Found;
use typed_marks::{Facts, Mark, Stage, State};
use typed_tree::{Mode, WRONG_NUMBER_OF_VALUES};
use unit_read::Subject;

/// What is good and has no value.
fn nothing(s: &State) -> Step
    requires { HasBasics s.now.table }
    ensures is { step_in s.now result ≡ Says nothing_said }
    ensures over { IsStepOf s.now result }
{
    let of = basic_type(s, Kind::UntypedNil);
    good(Facts {
        mode: Mode::NoValue,
        of,
        value: None,
        last: of,
    })
}

fn shared_mark(s: &State, count: usize, x: Facts) -> Step
    requires basics { HasBasics s.now.table }
    requires facts { AreFactsOf s.now x }
    ensures is { step_in s.now result ≡ Says (shared_mark count (known_of s.now x)) }
    ensures over { IsStepOf s.now result }
{
    match given_to(s, x, count, 0) {
        Some(_) => nothing(s),
        None => broken(WRONG_NUMBER_OF_VALUES),
    }
}

fn shared_told(s: &State, count: usize, m: Mark) -> Step
    requires basics { HasBasics s.now.table }
    requires mark { IsMarkOf s.now m }
    ensures is { step_in s.now result ≡ tell (sight s.now) (shared_told count (said s.now m)) }
    ensures over { IsStepOf s.now result }
{
    match known(s, m) {
        Some(x) => shared_mark(s, count, x),
        None => silent(),
    }
}

fn shared(u: &Subject, s: &State, block: usize, count: usize, n: u32) -> Step
    requires { IsScene u.now s.now }
    ensures is { step_in s.now result ≡ tell (sight s.now) (shared_rule (unit_of u.now) block count n) }
    ensures over { IsStepOf s.now result }
{
    match look(u, s, Stage::Placed, block, n) {
        Found::Is(m) => shared_told(s, count, m),
        Found::Wait(item) => Step::Waits(item),
    }
}

fn equal(s: &State, names: usize, values: usize) -> Step
    requires { HasBasics s.now.table }
    ensures is { step_in s.now result ≡ Says (equal_mark names values) }
    ensures over { IsStepOf s.now result }
{
    if names == values {
        nothing(s)
    } else {
        broken(WRONG_NUMBER_OF_VALUES)
    }
}

/// How far the rule goes that counts names and values: E99.
pub fn counted(
    u: &Subject,
    s: &State,
    block: usize,
    file: u32,
    nodes: &[Node],
    slot: usize,
    node: &Node,
) -> Step
    requires { IsScene u.now s.now }
    ensures is { step_in s.now result ≡ tell (sight s.now) (counted_rule (unit_of u.now) block file nodes.now slot node.now) }
    ensures over { IsStepOf s.now result }
{
    let names = name_count(nodes, node);
    match shared_value(u, file, nodes, slot, node) {
        Some(n) => shared(u, s, block, names, n),
        None => equal(s, names, value_count(nodes, slot, node)),
    }
}
