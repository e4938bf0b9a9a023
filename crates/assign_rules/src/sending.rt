//! Send statements.
ghost use Rattle.std.specs.Prelude.{◌≡◌, option_map};
ghost use Rattle.mark_walk.specs.Telling.{tell};
ghost use Rattle.typed_tree.specs.Basics.{HasBasics};
ghost use Rattle.unit_read.specs.Subjects.{unit_of};
ghost use Rattle.rule_words.specs.Good.{known_of, AreFactsOf};
ghost use Rattle.rule_words.specs.Scenes.{sight, IsScene, told_by, IfFound, said, IsMarkOf, type_in, IsTypeOf, MayBeTypeOf};
ghost use Rattle.rule_words.specs.Steps.{step_in, IsStepOf};
ghost use Rattle.assign_rules.specs.Sending.{sent_along, element_of, send_under, send_told, send_known, send_placed, send_part, send_rule, element_wants, sent_told, sent_by, sent_wants, sent_beside, value_wants, send_wants};

use crate::words::{holds, loose_operand};
use go_tree::Node;
use package_objects::part_of;
use rule_words::good::{broken, known, silent};
use rule_words::wishes::{nothing_wanted, operand};
use rule_words::{Step, look, mark_under, under_of};
use type_model::{Dir, Term, TypeId};
use type_questions::Found;
use typed_marks::{Facts, Item, Mark, Stage, State, Want};
use typed_tree::CANNOT_SEND;
use unit_read::{Place, Subject};

fn sent_along(s: &State, direction: Dir, of: TypeId) -> Option<TypeId>
    requires { IsTypeOf s.now of }
    ensures is { option_map (type_in s.now) result ≡ sent_along direction (type_in s.now of) }
    ensures within { MayBeTypeOf s.now result }
{
    let _ = s;
    match direction {
        Dir::Both => Some(of),
        Dir::Send => Some(of),
        Dir::Receive => None,
    }
}

/// The type of what may be sent to a channel of this type.
#[tactic(auto, unfolding(crate::specs::Sending::element_of))]
fn element_of(s: &State, under: TypeId) -> Option<TypeId>
    requires basics { HasBasics s.now.table }
    requires within { IsTypeOf s.now under }
    ensures is { option_map (type_in s.now) result ≡ element_of (type_in s.now under) }
    ensures within { MayBeTypeOf s.now result }
{
    match s.table.term(under) {
        Term::Chan(direction, of) => sent_along(s, *direction, *of),
        Term::Basic(_) => None,
        Term::Defined(_) => None,
        Term::Pointer(_) => None,
        Term::Slice(_) => None,
        Term::Array(_, _) => None,
        Term::Map(_, _) => None,
        Term::Func(_) => None,
        Term::Struct(_) => None,
        Term::Interface(_) => None,
    }
}

fn send_under(s: &State, under: TypeId) -> Step
    requires basics { HasBasics s.now.table }
    requires under { IsTypeOf s.now under }
    ensures is { step_in s.now result ≡ tell (sight s.now) (send_under (type_in s.now under)) }
    ensures over { IsStepOf s.now result }
{
    match element_of(s, under) {
        Some(_) => holds(s),
        None => broken(CANNOT_SEND),
    }
}

fn send_told(s: &State, under: Option<TypeId>) -> Step
    requires basics { HasBasics s.now.table }
    requires under { MayBeTypeOf s.now under }
    ensures is { step_in s.now result ≡ tell (sight s.now) (send_told (option_map (type_in s.now) under)) }
    ensures over { IsStepOf s.now result }
{
    match under {
        Some(under) => send_under(s, under),
        None => silent(),
    }
}

fn send_known(u: &Subject, s: &State, x: Facts) -> Step
    requires scene { IsScene u.now s.now }
    requires facts { AreFactsOf s.now x }
    ensures is { step_in s.now result ≡ tell (sight s.now) (send_known (unit_of u.now) (known_of s.now x)) }
    ensures over { IsStepOf s.now result }
{
    match under_of(u, s, x.last) {
        Found::Is(under) => send_told(s, under),
        Found::Wait(item) => Step::Waits(item),
    }
}

fn send_placed(u: &Subject, s: &State, m: Mark) -> Step
    requires scene { IsScene u.now s.now }
    requires mark { IsMarkOf s.now m }
    ensures is { step_in s.now result ≡ tell (sight s.now) (send_placed (unit_of u.now) (said s.now m)) }
    ensures over { IsStepOf s.now result }
{
    match known(s, m) {
        Some(x) => send_known(u, s, x),
        None => silent(),
    }
}

fn send_part(u: &Subject, s: &State, block: usize, n: u32) -> Step
    requires { IsScene u.now s.now }
    ensures is { step_in s.now result ≡ tell (sight s.now) (send_part (unit_of u.now) block n) }
    ensures over { IsStepOf s.now result }
{
    match look(u, s, Stage::Placed, block, n) {
        Found::Is(m) => send_placed(u, s, m),
        Found::Wait(item) => Step::Waits(item),
    }
}

/// How far the rule of a send statement goes: E77.
pub fn judge_send(u: &Subject, s: &State, block: usize, node: &Node) -> Step
    requires { IsScene u.now s.now }
    ensures is { step_in s.now result ≡ tell (sight s.now) (send_rule (unit_of u.now) block node.now) }
    ensures over { IsStepOf s.now result }
{
    match part_of(node, 0) {
        Some(n) => send_part(u, s, block, n),
        None => silent(),
    }
}

// ---- what is sent

fn element_wants(u: &Subject, s: &State, block: usize, n: u32, under: TypeId) -> Found<Mark, Item>
    requires scene { IsScene u.now s.now }
    requires under { IsTypeOf s.now under }
    ensures is { told_by (said s.now) result ≡ tell (sight s.now) (element_wants (unit_of u.now) block n (type_in s.now under)) }
    ensures over { IfFound result (IsMarkOf s.now) }
{
    match element_of(s, under) {
        Some(of) => Found::Is(operand(Want::Assigned(of))),
        None => loose_operand(u, s, block, n),
    }
}

fn sent_told(
    u: &Subject,
    s: &State,
    block: usize,
    n: u32,
    under: Option<TypeId>,
) -> Found<Mark, Item>
    requires scene { IsScene u.now s.now }
    requires under { MayBeTypeOf s.now under }
    ensures is { told_by (said s.now) result ≡ tell (sight s.now) (sent_told (unit_of u.now) block n (option_map (type_in s.now) under)) }
    ensures over { IfFound result (IsMarkOf s.now) }
{
    match under {
        Some(under) => element_wants(u, s, block, n, under),
        None => loose_operand(u, s, block, n),
    }
}

fn sent_by(u: &Subject, s: &State, block: usize, n: u32, m: Mark) -> Found<Mark, Item>
    requires scene { IsScene u.now s.now }
    requires mark { IsMarkOf s.now m }
    ensures is { told_by (said s.now) result ≡ tell (sight s.now) (sent_by (unit_of u.now) block n (said s.now m)) }
    ensures over { IfFound result (IsMarkOf s.now) }
{
    match mark_under(u, s, m) {
        Found::Is(under) => sent_told(u, s, block, n, under),
        Found::Wait(item) => Found::Wait(item),
    }
}

fn sent_wants(u: &Subject, s: &State, block: usize, c: u32, n: u32) -> Found<Mark, Item>
    requires { IsScene u.now s.now }
    ensures is { told_by (said s.now) result ≡ tell (sight s.now) (sent_wants (unit_of u.now) block c n) }
    ensures over { IfFound result (IsMarkOf s.now) }
{
    match look(u, s, Stage::Placed, block, c) {
        Found::Is(m) => sent_by(u, s, block, n, m),
        Found::Wait(item) => Found::Wait(item),
    }
}

fn sent_beside(u: &Subject, s: &State, block: usize, around: &Node, c: u32) -> Found<Mark, Item>
    requires { IsScene u.now s.now }
    ensures is { told_by (said s.now) result ≡ tell (sight s.now) (sent_beside (unit_of u.now) block around.now c) }
    ensures over { IfFound result (IsMarkOf s.now) }
{
    match part_of(around, 1) {
        Some(n) => sent_wants(u, s, block, c, n),
        None => Found::Is(nothing_wanted()),
    }
}

fn value_wants(u: &Subject, s: &State, block: usize, around: &Node) -> Found<Mark, Item>
    requires { IsScene u.now s.now }
    ensures is { told_by (said s.now) result ≡ tell (sight s.now) (value_wants (unit_of u.now) block around.now) }
    ensures over { IfFound result (IsMarkOf s.now) }
{
    match part_of(around, 0) {
        Some(c) => sent_beside(u, s, block, around, c),
        None => Found::Is(nothing_wanted()),
    }
}

/// What the places in a send statement want.
pub fn want_send(u: &Subject, s: &State, block: usize, p: Place, around: &Node) -> Found<Mark, Item>
    requires { IsScene u.now s.now }
    ensures is { told_by (said s.now) result ≡ tell (sight s.now) (send_wants (unit_of u.now) block p around.now) }
    ensures over { IfFound result (IsMarkOf s.now) }
{
    if p.slot == 0 {
        Found::Is(operand(Want::Free))
    } else {
        value_wants(u, s, block, around)
    }
}
