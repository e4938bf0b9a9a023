//! Expression switches: second defaults, tags, and what values of clauses are wanted as.
ghost use Rattle.std.specs.Prelude.{◌≡◌, option_map};
ghost use Rattle.std.specs.Option.{option_copied};
ghost use Rattle.mark_walk.specs.Telling.{tell, Says};
ghost use Rattle.typed_tree.specs.Basics.{HasBasics};
ghost use Rattle.unit_read.specs.Subjects.{unit_of, IsRead};
ghost use Rattle.rule_words.specs.Scenes.{sight, IsScene, told_by, IfFound, said, IsMarkOf, type_in, IsTypeOf, MayBeTypeOf};
ghost use Rattle.rule_words.specs.Steps.{step_in, IsStepOf};
ghost use Rattle.statement_rules.specs.Switching.{is_default_at, any_before, default_in, default_by, default_rule, truth, tag_told, tag_mark, tag_in, switch_around, tag_ask, case_wish, case_against, case_told, case_wants};

use assign_rules::around::around_of;
use assign_rules::kinds::{is_default, tag_of};
use assign_rules::words::{held_if, loose_operand};
use go_tree::{Node, NodeRef};
use gv_base::Kind;
use package_objects::{kind_of, node_of, part_of};
use rule_words::good::{basic_type, known, silent};
use rule_words::types::takes_default;
use rule_words::wishes::operand;
use rule_words::{Step, look, under_of};
use type_model::TypeId;
use type_questions::Found;
use typed_marks::{Item, Mark, Stage, State, Want};
use typed_tree::SECOND_DEFAULT;
use unit_read::{Place, Subject};

// ---- E85

fn is_default_at(nodes: &[Node], around: &Node, i: usize) -> bool
    ensures { result ≡ is_default_at nodes.now around.now i }
{
    match part_of(around, i) {
        Some(n) => is_default(kind_of(nodes, n)),
        None => false,
    }
}

/// A default clause stands before a place: the nearest is looked for, so that a switch with many is gone through once.
fn any_before(nodes: &[Node], around: &Node, slot: usize) -> bool
    ensures { result ≡ any_before nodes.now around.now slot }
{
    let mut i = slot;
    'back: while i > 0 {
        i -= 1;
        if is_default_at(nodes, around, i) {
            return true;
        }
    }
    false
}

fn default_in(s: &State, slot: usize, nodes: &[Node], around: &Node) -> Step
    requires { HasBasics s.now.table }
    ensures is { step_in s.now result ≡ tell (sight s.now) (default_in slot nodes.now around.now) }
    ensures over { IsStepOf s.now result }
{
    held_if(s, !any_before(nodes, around, slot), SECOND_DEFAULT)
}

fn default_by(u: &Subject, s: &State, file: u32, p: Place) -> Step
    requires { IsScene u.now s.now }
    ensures is { step_in s.now result ≡ tell (sight s.now) (default_by (unit_of u.now) file p) }
    ensures over { IsStepOf s.now result }
{
    let nodes = u.nodes_at(file);
    match node_of(nodes, p.around) {
        Some(around) => default_in(s, p.slot, nodes, around),
        None => silent(),
    }
}

/// How far the rule of a default clause goes: E85.
pub fn judge_default(u: &Subject, s: &State, at: NodeRef) -> Step
    requires { IsScene u.now s.now }
    ensures is { step_in s.now result ≡ tell (sight s.now) (default_rule (unit_of u.now) at) }
    ensures over { IsStepOf s.now result }
{
    match u.place_at(at) {
        Some(p) => default_by(u, s, at.file, p),
        None => silent(),
    }
}

// ---- the tag

fn tag_told(s: &State, m: Mark) -> Option<TypeId>
    requires { IsMarkOf s.now m }
    ensures is { Says (option_map (type_in s.now) result) ≡ tell (sight s.now) (tag_told (said s.now m)) }
    ensures within { MayBeTypeOf s.now result }
{
    match known(s, m) {
        Some(y) => Some(y.last),
        None => None,
    }
}

fn tag_mark(u: &Subject, s: &State, block: usize, n: u32) -> Found<Option<TypeId>, Item>
    requires { IsScene u.now s.now }
    ensures is { told_by (option_map (type_in s.now)) result ≡ tell (sight s.now) (tag_mark (unit_of u.now) block n) }
    ensures within { IfFound result (MayBeTypeOf s.now) }
{
    match look(u, s, Stage::Placed, block, n) {
        Found::Is(m) => Found::Is(tag_told(s, m)),
        Found::Wait(item) => Found::Wait(item),
    }
}

fn truth(s: &State) -> TypeId
    requires { HasBasics s.now.table }
    ensures is { type_in s.now result ≡ truth }
    ensures within { IsTypeOf s.now result }
{
    basic_type(s, Kind::Bool)
}

fn tag_in(
    u: &Subject,
    s: &State,
    block: usize,
    file: u32,
    switch: &Node,
) -> Found<Option<TypeId>, Item>
    requires { IsScene u.now s.now }
    ensures is { told_by (option_map (type_in s.now)) result ≡ tell (sight s.now) (tag_in (unit_of u.now) block file switch.now) }
    ensures within { IfFound result (MayBeTypeOf s.now) }
{
    match tag_of(u, file, u.nodes_at(file), switch) {
        Some(n) => tag_mark(u, s, block, n),
        None => Found::Is(Some(truth(s))),
    }
}

fn switch_around<'a>(u: &Subject<'a>, file: u32, clause: u32) -> Option<&'a Node>
    requires { IsRead u.now }
    ensures { option_copied result ≡ switch_around (unit_of u.now) file clause }
{
    match around_of(u, NodeRef { file, node: clause }) {
        Some(n) => node_of(u.nodes_at(file), n),
        None => None,
    }
}

/// The type against which the values of a clause are compared; None where it isn't known.
#[tactic(auto, unfolding(crate::specs::Switching::tag_ask))]
pub fn tag_type(
    u: &Subject,
    s: &State,
    block: usize,
    file: u32,
    clause: u32,
) -> Found<Option<TypeId>, Item>
    requires { IsScene u.now s.now }
    ensures is { told_by (option_map (type_in s.now)) result ≡ tell (sight s.now) (tag_ask (unit_of u.now) block file clause) }
    ensures within { IfFound result (MayBeTypeOf s.now) }
{
    match switch_around(u, file, clause) {
        Some(switch) => tag_in(u, s, block, file, switch),
        None => Found::Is(None),
    }
}

// ---- what the places of values want

fn case_wish(s: &State, tag: TypeId, under: Option<TypeId>) -> Mark
    requires basics { HasBasics s.now.table }
    requires tag { IsTypeOf s.now tag }
    requires under { MayBeTypeOf s.now under }
    ensures is { Says (said s.now result) ≡ tell (sight s.now) (case_wish (type_in s.now tag) (option_map (type_in s.now) under)) }
    ensures over { IsMarkOf s.now result }
{
    if takes_default(s, under) {
        operand(Want::Fits(tag))
    } else {
        operand(Want::Takes(tag))
    }
}

fn case_against(u: &Subject, s: &State, tag: TypeId) -> Found<Mark, Item>
    requires scene { IsScene u.now s.now }
    requires tag { IsTypeOf s.now tag }
    ensures is { told_by (said s.now) result ≡ tell (sight s.now) (case_against (unit_of u.now) (type_in s.now tag)) }
    ensures over { IfFound result (IsMarkOf s.now) }
{
    match under_of(u, s, tag) {
        Found::Is(under) => Found::Is(case_wish(s, tag, under)),
        Found::Wait(item) => Found::Wait(item),
    }
}

fn case_told(u: &Subject, s: &State, block: usize, n: u32, o: Option<TypeId>) -> Found<Mark, Item>
    requires scene { IsScene u.now s.now }
    requires tag { MayBeTypeOf s.now o }
    ensures is { told_by (said s.now) result ≡ tell (sight s.now) (case_told (unit_of u.now) block n (option_map (type_in s.now) o)) }
    ensures over { IfFound result (IsMarkOf s.now) }
{
    match o {
        Some(tag) => case_against(u, s, tag),
        None => loose_operand(u, s, block, n),
    }
}

/// What the place of a value of a clause wants.
pub fn want_case(
    u: &Subject,
    s: &State,
    block: usize,
    file: u32,
    clause: u32,
    n: u32,
) -> Found<Mark, Item>
    requires { IsScene u.now s.now }
    ensures is { told_by (said s.now) result ≡ tell (sight s.now) (case_wants (unit_of u.now) block file clause n) }
    ensures over { IfFound result (IsMarkOf s.now) }
{
    match tag_type(u, s, block, file, clause) {
        Found::Is(o) => case_told(u, s, block, n, o),
        Found::Wait(item) => Found::Wait(item),
    }
}
