//! What the places in a specification of variables with values want.
ghost use Rattle.std.specs.Prelude.{◌≡◌};
ghost use Rattle.mark_walk.specs.Telling.{tell};
ghost use Rattle.type_model.specs.Tables.{types_in, count};
ghost use Rattle.typed_marks.specs.Meanings.{wish_in, IsWantWithin};
ghost use Rattle.unit_read.specs.Subjects.{unit_of, IsRead};
ghost use Rattle.rule_words.specs.Good.{known_of, AreFactsOf};
ghost use Rattle.rule_words.specs.Scenes.{sight, IsScene, told_by, IfFound, said, IsMarkOf};
ghost use Rattle.variable_rules.specs.Wants.{value_demand, demand_in, type_wish, wish_told, typed_told, typed_want, type_of, value_want, slot_want, is_at, other_demand, want_by, variable_wants};

use crate::forms::{shared_value, type_slot, value_slot};
use go_tree::{Node, NodeKind};
use package_objects::part_of;
use rule_words::good::known;
use rule_words::modes::is_type;
use rule_words::{file_of, look};
use type_questions::Found;
use typed_marks::{Facts, Item, Mark, Stage, State, Want};
use typed_tree::Want as Demand;
use unit_read::{Place, Subject};

fn value_demand(shared: Option<u32>) -> Demand
    ensures { result ≡ value_demand shared }
{
    match shared {
        Some(_) => Demand::Nothing,
        None => Demand::Operand,
    }
}

fn demand_in(u: &Subject, block: usize, slot: usize, around: &Node) -> Demand
    requires { IsRead u.now }
    ensures { result ≡ demand_in (unit_of u.now) block slot around.now }
{
    let file = file_of(u, block);
    let shared = shared_value(u, file, u.nodes_at(file), slot, around);
    value_demand(shared)
}

fn type_wish(s: &State, x: Facts) -> Want
    requires { AreFactsOf s.now x }
    ensures is { wish_in (types_in s.now.table) result ≡ type_wish (known_of s.now x) }
    ensures within { IsWantWithin (count s.now.table) result }
{
    let _ = s;
    if is_type(x.mode) {
        Want::Assigned(x.of)
    } else {
        Want::Free
    }
}

fn wish_told(s: &State, m: Mark) -> Want
    requires { IsMarkOf s.now m }
    ensures is { wish_in (types_in s.now.table) result ≡ wish_told (said s.now m) }
    ensures within { IsWantWithin (count s.now.table) result }
{
    match known(s, m) {
        Some(x) => type_wish(s, x),
        None => Want::Free,
    }
}

fn typed_want(u: &Subject, s: &State, block: usize, demand: Demand, t: u32) -> Found<Mark, Item>
    requires { IsScene u.now s.now }
    ensures is { told_by (said s.now) result ≡ tell (sight s.now) (typed_want (unit_of u.now) block demand t) }
    ensures over { IfFound result (IsMarkOf s.now) }
{
    match look(u, s, Stage::Placed, block, t) {
        Found::Is(m) => Found::Is(Mark::Wants(demand, wish_told(s, m))),
        Found::Wait(item) => Found::Wait(item),
    }
}

/// The type that is written.
pub fn type_of(around: &Node) -> Option<u32>
    ensures { result ≡ type_of around.now }
{
    match type_slot(around.kind) {
        Some(slot) => part_of(around, slot),
        None => None,
    }
}

fn value_want(
    u: &Subject,
    s: &State,
    block: usize,
    around: &Node,
    demand: Demand,
) -> Found<Mark, Item>
    requires { IsScene u.now s.now }
    ensures is { told_by (said s.now) result ≡ tell (sight s.now) (value_want (unit_of u.now) block around.now demand) }
    ensures over { IfFound result (IsMarkOf s.now) }
{
    match type_of(around) {
        Some(t) => typed_want(u, s, block, demand, t),
        None => Found::Is(Mark::Wants(demand, Want::Free)),
    }
}

fn slot_want(u: &Subject, s: &State, block: usize, around: &Node, slot: usize) -> Found<Mark, Item>
    requires { IsScene u.now s.now }
    ensures is { told_by (said s.now) result ≡ tell (sight s.now) (slot_want (unit_of u.now) block around.now slot) }
    ensures over { IfFound result (IsMarkOf s.now) }
{
    value_want(u, s, block, around, demand_in(u, block, slot, around))
}

fn is_at(slot: usize, o: Option<usize>) -> bool
    ensures { result ≡ is_at slot o }
{
    match o {
        Some(i) => slot == i,
        None => false,
    }
}

fn other_demand(kind: NodeKind, slot: usize) -> Demand
    ensures { result ≡ other_demand kind slot }
{
    if is_at(slot, type_slot(kind)) {
        Demand::Type
    } else {
        Demand::Nothing
    }
}

fn want_by(
    u: &Subject,
    s: &State,
    block: usize,
    p: Place,
    around: &Node,
    slot: usize,
) -> Found<Mark, Item>
    requires { IsScene u.now s.now }
    ensures is { told_by (said s.now) result ≡ tell (sight s.now) (want_by (unit_of u.now) block p around.now slot) }
    ensures over { IfFound result (IsMarkOf s.now) }
{
    if p.slot == slot {
        slot_want(u, s, block, around, slot)
    } else {
        Found::Is(Mark::Wants(other_demand(around.kind, p.slot), Want::Free))
    }
}

/// What the node around wants of what stands at a place in it, or the item for whose mark that waits.
pub fn want_variable(
    u: &Subject,
    s: &State,
    block: usize,
    p: Place,
    around: &Node,
) -> Found<Mark, Item>
    requires { IsScene u.now s.now }
    ensures is { told_by (said s.now) result ≡ tell (sight s.now) (variable_wants (unit_of u.now) block p around.now) }
    ensures over { IfFound result (IsMarkOf s.now) }
{
    match value_slot(around.kind) {
        Some(slot) => want_by(u, s, block, p, around, slot),
        None => Found::Is(Mark::Wants(Demand::Nothing, Want::Free)),
    }
}
