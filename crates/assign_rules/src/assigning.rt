//! Assignments, short variable declarations, `++` and `--`.
ghost use Rattle.std.specs.Prelude.{◌≡◌, option_map, ◌||◌, length};
ghost use Rattle.mark_walk.specs.Telling.{tell};
ghost use Rattle.package_objects.specs.Declares.{items};
ghost use Rattle.typed_tree.specs.Basics.{HasBasics};
ghost use Rattle.unit_read.specs.Subjects.{unit_of, IsRead};
ghost use Rattle.rule_words.specs.Good.{known_of, AreFactsOf};
ghost use Rattle.rule_words.specs.Scenes.{sight, IsScene, said, IsMarkOf, type_in, IsTypeOf, MayBeTypeOf};
ghost use Rattle.rule_words.specs.Steps.{step_in, IsStepOf};
ghost use Rattle.assign_rules.specs.Assigning.{is_target_mode, target_known, target_rule, is_used, is_new, is_new_at, any_new, has_new, shared_mark, shared_told, shared_rule, equal_rule, counted_rule, assign_rule, define_rule, counts_under, counts_told, counts_known, counts_placed, counts_part, step_rule};
ghost use Rattle.assign_rules.specs.Words.{placed_good};

use crate::around::is_ignored;
use crate::selecting::is_bad_case;
use crate::sharing::gives;
use crate::words::{holds, settled_if};
use go_tree::{Node, NodeRef};
use package_objects::{count, item, part_of};
use rule_words::good::{broken, good, known, silent};
use rule_words::types::is_integer;
use rule_words::{Answer, Step, is_blank, look, under_of};
use type_model::TypeId;
use type_questions::Found;
use typed_marks::{Facts, Mark, Stage, State};
use typed_tree::{
    CANNOT_ASSIGN, Mode, NO_NEW_VARIABLE, OPERATOR_NOT_DEFINED, WRONG_NUMBER_OF_OPERANDS,
};
use unit_read::Subject;
use variable_rules::{name_count, shared_value, value_count};

// ---- E72

fn is_target_mode(mode: Mode) -> bool
    ensures { result ≡ is_target_mode mode }
{
    matches!(mode, Mode::Variable | Mode::MapIndex)
}

fn target_known(s: &State, x: Facts) -> Step
    requires { AreFactsOf s.now x }
    ensures is { step_in s.now result ≡ tell (sight s.now) (target_known (known_of s.now x)) }
    ensures over { IsStepOf s.now result }
{
    let _ = s;
    if is_target_mode(x.mode) {
        good(x)
    } else {
        broken(CANNOT_ASSIGN)
    }
}

fn target_placed(s: &State, m: Mark) -> Step
    requires { IsMarkOf s.now m }
    ensures is { step_in s.now result ≡ tell (sight s.now) (placed_good target_known (said s.now m)) }
    ensures over { IsStepOf s.now result }
{
    match m {
        Mark::Good(x) => target_known(s, x),
        Mark::Bad(rule) => Step::Says(Answer::Mark(Mark::Bad(rule))),
        Mark::Outside(limit) => Step::Says(Answer::Mark(Mark::Outside(limit))),
        Mark::Silent => Step::Says(Answer::Mark(Mark::Silent)),
        Mark::Wants(_, _) => Step::Says(Answer::Mark(Mark::Silent)),
        Mark::Declared(_) => Step::Says(Answer::Mark(Mark::Silent)),
    }
}

/// An operand to which something is assigned, from its own mark: E72.
pub fn judge_target(u: &Subject, s: &State, file: u32, n: u32, m: Mark) -> Step
    requires basics { HasBasics s.now.table }
    requires mark { IsMarkOf s.now m }
    ensures is { step_in s.now result ≡ tell (sight s.now) (target_rule (unit_of u.now) file n (said s.now m)) }
    ensures over { IsStepOf s.now result }
{
    if is_ignored(u, file, u.nodes_at(file), n) {
        holds(s)
    } else {
        target_placed(s, m)
    }
}

// ---- E8

/// The name is a use: its block has it already.
pub fn is_used(u: &Subject, file: u32, n: u32) -> bool
    requires { IsRead u.now }
    ensures { result ≡ is_used (unit_of u.now) file n }
{
    u.object_at(NodeRef { file, node: n }).is_some()
}

fn is_new(u: &Subject, file: u32, n: u32) -> bool
    requires { IsRead u.now }
    ensures { result ≡ is_new (unit_of u.now) file n }
{
    !is_blank(u.name_at(NodeRef { file, node: n })) && !is_used(u, file, n)
}

fn is_new_at(u: &Subject, file: u32, o: Option<u32>) -> bool
    requires { IsRead u.now }
    ensures { result ≡ is_new_at (unit_of u.now) file o }
{
    match o {
        Some(n) => is_new(u, file, n),
        None => false,
    }
}

fn either(a: bool, b: bool) -> bool
    ensures { result ≡ (a || b) }
{
    a || b
}

fn any_new(u: &Subject, file: u32, nodes: &[Node], names: Option<u32>) -> bool
    requires { IsRead u.now }
    ensures { result ≡ any_new (unit_of u.now) file (items nodes.now names) (length (items nodes.now names)) }
{
    let mut found = false;
    for i in 0..count(nodes, names) {
        found = either(found, is_new_at(u, file, item(nodes, names, i)));
    }
    found
}

/// One of the names on the left is new.
pub fn has_new(u: &Subject, file: u32, nodes: &[Node], node: &Node) -> bool
    requires { IsRead u.now }
    ensures { result ≡ has_new (unit_of u.now) file nodes.now node.now }
{
    any_new(u, file, nodes, part_of(node, 0))
}

// ---- E73

fn shared_mark(s: &State, many: usize, bad: bool, x: Facts) -> Step
    requires basics { HasBasics s.now.table }
    requires facts { AreFactsOf s.now x }
    ensures is { step_in s.now result ≡ tell (sight s.now) (shared_mark many bad (known_of s.now x)) }
    ensures over { IsStepOf s.now result }
{
    settled_if(s, gives(s, x, many), WRONG_NUMBER_OF_OPERANDS, bad)
}

fn shared_told(s: &State, many: usize, bad: bool, m: Mark) -> Step
    requires basics { HasBasics s.now.table }
    requires mark { IsMarkOf s.now m }
    ensures is { step_in s.now result ≡ tell (sight s.now) (shared_told many bad (said s.now m)) }
    ensures over { IsStepOf s.now result }
{
    match known(s, m) {
        Some(x) => shared_mark(s, many, bad, x),
        None => silent(),
    }
}

fn shared(u: &Subject, s: &State, block: usize, many: usize, bad: bool, n: u32) -> Step
    requires { IsScene u.now s.now }
    ensures is { step_in s.now result ≡ tell (sight s.now) (shared_rule (unit_of u.now) block many bad n) }
    ensures over { IsStepOf s.now result }
{
    match look(u, s, Stage::Placed, block, n) {
        Found::Is(m) => shared_told(s, many, bad, m),
        Found::Wait(item) => Step::Waits(item),
    }
}

fn equal(s: &State, names: usize, values: usize, bad: bool) -> Step
    requires { HasBasics s.now.table }
    ensures is { step_in s.now result ≡ tell (sight s.now) (equal_rule names values bad) }
    ensures over { IsStepOf s.now result }
{
    settled_if(s, names == values, WRONG_NUMBER_OF_OPERANDS, bad)
}

fn counted(
    u: &Subject,
    s: &State,
    block: usize,
    file: u32,
    nodes: &[Node],
    node: &Node,
    bad: bool,
) -> Step
    requires { IsScene u.now s.now }
    ensures is { step_in s.now result ≡ tell (sight s.now) (counted_rule (unit_of u.now) block file nodes.now node.now bad) }
    ensures over { IsStepOf s.now result }
{
    let names = name_count(nodes, node);
    match shared_value(u, file, nodes, 1, node) {
        Some(n) => shared(u, s, block, names, bad, n),
        None => equal(s, names, value_count(nodes, 1, node), bad),
    }
}

/// How far the rule of an assignment goes: E73, E86.
pub fn judge_assign(u: &Subject, s: &State, block: usize, at: NodeRef, node: &Node) -> Step
    requires { IsScene u.now s.now }
    ensures is { step_in s.now result ≡ tell (sight s.now) (assign_rule (unit_of u.now) block at node.now) }
    ensures over { IsStepOf s.now result }
{
    let bad = is_bad_case(u, at, node);
    counted(u, s, block, at.file, u.nodes_at(at.file), node, bad)
}

/// How far the rule of a short variable declaration goes: E8, E73, E86.
pub fn judge_define(u: &Subject, s: &State, block: usize, at: NodeRef, node: &Node) -> Step
    requires { IsScene u.now s.now }
    ensures is { step_in s.now result ≡ tell (sight s.now) (define_rule (unit_of u.now) block at node.now) }
    ensures over { IsStepOf s.now result }
{
    if has_new(u, at.file, u.nodes_at(at.file), node) {
        judge_assign(u, s, block, at, node)
    } else {
        broken(NO_NEW_VARIABLE)
    }
}

// ---- `++`, `--`

fn counts_under(s: &State, bad: bool, under: TypeId) -> Step
    requires basics { HasBasics s.now.table }
    requires under { IsTypeOf s.now under }
    ensures is { step_in s.now result ≡ tell (sight s.now) (counts_under bad (type_in s.now under)) }
    ensures over { IsStepOf s.now result }
{
    settled_if(s, is_integer(s, under), OPERATOR_NOT_DEFINED, bad)
}

fn counts_told(s: &State, bad: bool, under: Option<TypeId>) -> Step
    requires basics { HasBasics s.now.table }
    requires under { MayBeTypeOf s.now under }
    ensures is { step_in s.now result ≡ tell (sight s.now) (counts_told bad (option_map (type_in s.now) under)) }
    ensures over { IsStepOf s.now result }
{
    match under {
        Some(under) => counts_under(s, bad, under),
        None => silent(),
    }
}

fn counts_known(u: &Subject, s: &State, bad: bool, x: Facts) -> Step
    requires scene { IsScene u.now s.now }
    requires facts { AreFactsOf s.now x }
    ensures is { step_in s.now result ≡ tell (sight s.now) (counts_known (unit_of u.now) bad (known_of s.now x)) }
    ensures over { IsStepOf s.now result }
{
    match under_of(u, s, x.of) {
        Found::Is(under) => counts_told(s, bad, under),
        Found::Wait(item) => Step::Waits(item),
    }
}

fn counts_placed(u: &Subject, s: &State, bad: bool, m: Mark) -> Step
    requires scene { IsScene u.now s.now }
    requires mark { IsMarkOf s.now m }
    ensures is { step_in s.now result ≡ tell (sight s.now) (counts_placed (unit_of u.now) bad (said s.now m)) }
    ensures over { IsStepOf s.now result }
{
    match known(s, m) {
        Some(x) => counts_known(u, s, bad, x),
        None => silent(),
    }
}

fn counts_part(u: &Subject, s: &State, block: usize, bad: bool, n: u32) -> Step
    requires { IsScene u.now s.now }
    ensures is { step_in s.now result ≡ tell (sight s.now) (counts_part (unit_of u.now) block bad n) }
    ensures over { IsStepOf s.now result }
{
    match look(u, s, Stage::Placed, block, n) {
        Found::Is(m) => counts_placed(u, s, bad, m),
        Found::Wait(item) => Step::Waits(item),
    }
}

/// How far the rule of `++` and `--` goes: E34, E86.
pub fn judge_step(u: &Subject, s: &State, block: usize, at: NodeRef, node: &Node) -> Step
    requires { IsScene u.now s.now }
    ensures is { step_in s.now result ≡ tell (sight s.now) (step_rule (unit_of u.now) block at node.now) }
    ensures over { IsStepOf s.now result }
{
    match part_of(node, 0) {
        Some(n) => counts_part(u, s, block, is_bad_case(u, at, node), n),
        None => silent(),
    }
}
