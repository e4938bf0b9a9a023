//! The variables that a specification with values declares.
ghost use Rattle.std.specs.Prelude.{◌≡◌};
ghost use Rattle.mark_walk.specs.Telling.{tell, Says};
ghost use Rattle.typed_tree.specs.Basics.{HasBasics};
ghost use Rattle.unit_read.specs.Subjects.{unit_of};
ghost use Rattle.rule_words.specs.Good.{known_of, AreFactsOf};
ghost use Rattle.rule_words.specs.Scenes.{sight, IsScene, said, IsMarkOf, type_in, IsTypeOf};
ghost use Rattle.rule_words.specs.Steps.{step_in, IsStepOf};
ghost use Rattle.variable_rules.specs.Objects.{variable, typed_told, typed_object, valued_told, valued_object, shared_of, shared_told, shared_object, own_value, by_own, by_value, untyped_object, variable_object};

use crate::forms::{name_count, shared_value, value_count, value_slot};
use crate::several::given_to;
use crate::wants::type_of;
use go_tree::Node;
use package_objects::{item, part_of};
use rule_words::good::{good, known, silent};
use rule_words::{Step, look};
use type_model::TypeId;
use type_questions::Found;
use typed_marks::{Facts, Mark, Stage, State};
use typed_tree::Mode;
use unit_read::Subject;

fn variable(s: &State, of: TypeId) -> Step
    requires { IsTypeOf s.now of }
    ensures is { step_in s.now result ≡ Says (variable (type_in s.now of)) }
    ensures over { IsStepOf s.now result }
{
    let _ = s;
    good(Facts {
        mode: Mode::Variable,
        of,
        value: None,
        last: of,
    })
}

// ---- with a type

fn typed_told(s: &State, m: Mark) -> Step
    requires { IsMarkOf s.now m }
    ensures is { step_in s.now result ≡ tell (sight s.now) (typed_told (said s.now m)) }
    ensures over { IsStepOf s.now result }
{
    match known(s, m) {
        Some(x) => variable(s, x.of),
        None => silent(),
    }
}

fn typed(u: &Subject, s: &State, file: u32, t: u32) -> Step
    requires { IsScene u.now s.now }
    ensures is { step_in s.now result ≡ tell (sight s.now) (typed_object (unit_of u.now) file t) }
    ensures over { IsStepOf s.now result }
{
    match look(u, s, Stage::Placed, file as usize, t) {
        Found::Is(m) => typed_told(s, m),
        Found::Wait(item) => Step::Waits(item),
    }
}

// ---- with a value of its own

fn valued_told(s: &State, m: Mark) -> Step
    requires { IsMarkOf s.now m }
    ensures is { step_in s.now result ≡ tell (sight s.now) (valued_told (said s.now m)) }
    ensures over { IsStepOf s.now result }
{
    match known(s, m) {
        Some(x) => variable(s, x.last),
        None => silent(),
    }
}

pub fn valued(u: &Subject, s: &State, file: u32, n: u32) -> Step
    requires { IsScene u.now s.now }
    ensures is { step_in s.now result ≡ tell (sight s.now) (valued_object (unit_of u.now) file n) }
    ensures over { IsStepOf s.now result }
{
    match look(u, s, Stage::Placed, file as usize, n) {
        Found::Is(m) => valued_told(s, m),
        Found::Wait(item) => Step::Waits(item),
    }
}

// ---- with one of several values

fn shared_of(s: &State, count: usize, i: usize, x: Facts) -> Step
    requires basics { HasBasics s.now.table }
    requires facts { AreFactsOf s.now x }
    ensures is { step_in s.now result ≡ Says (shared_of count i (known_of s.now x)) }
    ensures over { IsStepOf s.now result }
{
    match given_to(s, x, count, i) {
        Some(of) => variable(s, of),
        None => silent(),
    }
}

fn shared_told(s: &State, count: usize, i: usize, m: Mark) -> Step
    requires basics { HasBasics s.now.table }
    requires mark { IsMarkOf s.now m }
    ensures is { step_in s.now result ≡ tell (sight s.now) (shared_told count i (said s.now m)) }
    ensures over { IsStepOf s.now result }
{
    match known(s, m) {
        Some(x) => shared_of(s, count, i, x),
        None => silent(),
    }
}

fn shared(u: &Subject, s: &State, file: u32, count: usize, i: usize, n: u32) -> Step
    requires { IsScene u.now s.now }
    ensures is { step_in s.now result ≡ tell (sight s.now) (shared_object (unit_of u.now) file count i n) }
    ensures over { IsStepOf s.now result }
{
    match look(u, s, Stage::Placed, file as usize, n) {
        Found::Is(m) => shared_told(s, count, i, m),
        Found::Wait(item) => Step::Waits(item),
    }
}

// ---- all

fn own_value(nodes: &[Node], slot: usize, node: &Node, i: usize) -> Option<u32>
    ensures { result ≡ own_value nodes.now slot node.now i }
{
    if name_count(nodes, node) == value_count(nodes, slot, node) {
        item(nodes, part_of(node, slot), i)
    } else {
        None
    }
}

fn by_own(
    u: &Subject,
    s: &State,
    file: u32,
    nodes: &[Node],
    slot: usize,
    node: &Node,
    i: usize,
) -> Step
    requires { IsScene u.now s.now }
    ensures is { step_in s.now result ≡ tell (sight s.now) (by_own (unit_of u.now) file nodes.now slot node.now i) }
    ensures over { IsStepOf s.now result }
{
    match own_value(nodes, slot, node, i) {
        Some(n) => valued(u, s, file, n),
        None => silent(),
    }
}

pub fn by_value(
    u: &Subject,
    s: &State,
    file: u32,
    nodes: &[Node],
    node: &Node,
    i: usize,
    slot: usize,
) -> Step
    requires { IsScene u.now s.now }
    ensures is { step_in s.now result ≡ tell (sight s.now) (by_value (unit_of u.now) file nodes.now node.now i slot) }
    ensures over { IsStepOf s.now result }
{
    let count = name_count(nodes, node);
    match shared_value(u, file, nodes, slot, node) {
        Some(n) => shared(u, s, file, count, i, n),
        None => by_own(u, s, file, nodes, slot, node, i),
    }
}

fn untyped(u: &Subject, s: &State, file: u32, nodes: &[Node], node: &Node, i: usize) -> Step
    requires { IsScene u.now s.now }
    ensures is { step_in s.now result ≡ tell (sight s.now) (untyped_object (unit_of u.now) file nodes.now node.now i) }
    ensures over { IsStepOf s.now result }
{
    match value_slot(node.kind) {
        Some(slot) => by_value(u, s, file, nodes, node, i, slot),
        None => silent(),
    }
}

/// How far the rule goes of the object of the name at a place of a specification of variables with values.
pub fn judge_variable_object(u: &Subject, s: &State, file: u32, node: &Node, i: usize) -> Step
    requires { IsScene u.now s.now }
    ensures is { step_in s.now result ≡ tell (sight s.now) (variable_object (unit_of u.now) file node.now i) }
    ensures over { IsStepOf s.now result }
{
    match type_of(node) {
        Some(t) => typed(u, s, file, t),
        None => untyped(u, s, file, u.nodes_at(file), node, i),
    }
}
