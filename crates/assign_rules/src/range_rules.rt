//! The rule of a `for` with a range clause.
ghost use Rattle.std.specs.Prelude.{◌≡◌};
ghost use Rattle.mark_walk.specs.Telling.{tell, Says};
ghost use Rattle.typed_tree.specs.Basics.{HasBasics};
ghost use Rattle.unit_read.specs.Subjects.{unit_of};
ghost use Rattle.rule_words.specs.Good.{known_of, AreFactsOf};
ghost use Rattle.rule_words.specs.Scenes.{sight, IsScene, said, IsMarkOf};
ghost use Rattle.rule_words.specs.Steps.{step_in, IsStepOf};
ghost use Rattle.assign_rules.specs.InCode.{ranged_in, IsRangedOf, ranging_in, IsRangingOf};
ghost use Rattle.assign_rules.specs.Ranging.{left_count, operand_slot, permitted, range_counted, range_held, range_known, range_placed, range_operand, range_by, range_rule, range_define_rule, range_wants};

use crate::assigning::has_new;
use crate::ranging::{Ranged, Ranging, ranging_of};
use crate::words::held_if;
use go_tree::{Node, NodeKind};
use package_objects::{count, part_of};
use rule_words::good::{broken, known, silent};
use rule_words::wishes::{nothing_wanted, operand};
use rule_words::{Step, look};
use type_questions::Found;
use typed_marks::{Facts, Mark, Stage, State, Want};
use typed_tree::{CANNOT_RANGE, NO_NEW_VARIABLE, TOO_MANY_RANGE_VARIABLES};
use unit_read::{Place, Subject};

// ---- the statement

fn left_count(nodes: &[Node], kind: NodeKind, node: &Node) -> usize
    ensures { result ≡ left_count nodes.now kind node.now }
{
    match kind {
        NodeKind::ForRange => 0,
        _ => count(nodes, part_of(node, 0)),
    }
}

fn operand_slot(kind: NodeKind) -> usize
    ensures { result ≡ operand_slot kind }
{
    match kind {
        NodeKind::ForRange => 0,
        _ => 1,
    }
}

fn permitted(s: &State, r: Ranged) -> usize
    requires { IsRangedOf s.now r }
    ensures { result ≡ permitted (ranged_in s.now r) }
{
    let _ = s;
    match r.second {
        Some(_) => 2,
        None => 1,
    }
}

fn range_counted(s: &State, many: usize, r: Ranged) -> Step
    requires basics { HasBasics s.now.table }
    requires within { IsRangedOf s.now r }
    ensures is { step_in s.now result ≡ tell (sight s.now) (range_counted many (ranged_in s.now r)) }
    ensures over { IsStepOf s.now result }
{
    held_if(s, many <= permitted(s, r), TOO_MANY_RANGE_VARIABLES)
}

fn range_held(s: &State, many: usize, told: Ranging) -> Step
    requires basics { HasBasics s.now.table }
    requires within { IsRangingOf s.now told }
    ensures is { step_in s.now result ≡ tell (sight s.now) (range_held many (ranging_in s.now told)) }
    ensures over { IsStepOf s.now result }
{
    match told {
        Ranging::Unknown => silent(),
        Ranging::Refused => broken(CANNOT_RANGE),
        Ranging::Gives(r) => range_counted(s, many, r),
    }
}

fn range_known(u: &Subject, s: &State, many: usize, x: Facts) -> Step
    requires scene { IsScene u.now s.now }
    requires facts { AreFactsOf s.now x }
    ensures is { step_in s.now result ≡ tell (sight s.now) (range_known (unit_of u.now) many (known_of s.now x)) }
    ensures over { IsStepOf s.now result }
{
    match ranging_of(u, s, x) {
        Found::Is(told) => range_held(s, many, told),
        Found::Wait(item) => Step::Waits(item),
    }
}

fn range_placed(u: &Subject, s: &State, many: usize, m: Mark) -> Step
    requires scene { IsScene u.now s.now }
    requires mark { IsMarkOf s.now m }
    ensures is { step_in s.now result ≡ tell (sight s.now) (range_placed (unit_of u.now) many (said s.now m)) }
    ensures over { IsStepOf s.now result }
{
    match known(s, m) {
        Some(x) => range_known(u, s, many, x),
        None => silent(),
    }
}

fn range_operand(u: &Subject, s: &State, block: usize, many: usize, n: u32) -> Step
    requires { IsScene u.now s.now }
    ensures is { step_in s.now result ≡ tell (sight s.now) (range_operand (unit_of u.now) block many n) }
    ensures over { IsStepOf s.now result }
{
    match look(u, s, Stage::Placed, block, n) {
        Found::Is(m) => range_placed(u, s, many, m),
        Found::Wait(item) => Step::Waits(item),
    }
}

fn range_by(u: &Subject, s: &State, block: usize, many: usize, node: &Node) -> Step
    requires { IsScene u.now s.now }
    ensures is { step_in s.now result ≡ tell (sight s.now) (range_by (unit_of u.now) block many node.now) }
    ensures over { IsStepOf s.now result }
{
    match part_of(node, operand_slot(node.kind)) {
        Some(n) => range_operand(u, s, block, many, n),
        None => silent(),
    }
}

/// How far the rule of a `for` with a range clause goes: E79, E80.
pub fn judge_range(u: &Subject, s: &State, block: usize, file: u32, node: &Node) -> Step
    requires { IsScene u.now s.now }
    ensures is { step_in s.now result ≡ tell (sight s.now) (range_rule (unit_of u.now) block file node.now) }
    ensures over { IsStepOf s.now result }
{
    let many = left_count(u.nodes_at(file), node.kind, node);
    range_by(u, s, block, many, node)
}

/// How far it goes where the clause declares names: E8, E79, E80.
pub fn judge_range_define(u: &Subject, s: &State, block: usize, file: u32, node: &Node) -> Step
    requires { IsScene u.now s.now }
    ensures is { step_in s.now result ≡ tell (sight s.now) (range_define_rule (unit_of u.now) block file node.now) }
    ensures over { IsStepOf s.now result }
{
    if has_new(u, file, u.nodes_at(file), node) {
        judge_range(u, s, block, file, node)
    } else {
        broken(NO_NEW_VARIABLE)
    }
}

/// What the places in a range clause want.
pub fn want_range(s: &State, p: Place, around: &Node) -> Mark
    ensures is { Says (said s.now result) ≡ tell (sight s.now) (range_wants p around.now) }
    ensures over { IsMarkOf s.now result }
{
    let _ = s;
    if p.slot == operand_slot(around.kind) {
        operand(Want::Free)
    } else {
        nothing_wanted()
    }
}
