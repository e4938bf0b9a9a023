//! Type switches.
ghost use Rattle.std.specs.Prelude.{◌≡◌, option_and_then, option_map, slice_get};
ghost use Rattle.std.specs.Option.{option_copied};
ghost use Rattle.mark_walk.specs.Telling.{tell, Says};
ghost use Rattle.typed_tree.specs.Basics.{HasBasics};
ghost use Rattle.unit_read.specs.Subjects.{unit_of, IsRead};
ghost use Rattle.rule_words.specs.Good.{known_of, AreFactsOf};
ghost use Rattle.rule_words.specs.Scenes.{sight, IsScene, said, IsMarkOf, type_in, IsTypeOf, MayBeTypeOf};
ghost use Rattle.rule_words.specs.Steps.{step_in, IsStepOf};
ghost use Rattle.assign_rules.specs.Kinds.{guard_of};
ghost use Rattle.statement_rules.specs.TypeSwitching.{bound_of, bound_name, binds_blank, guarded_under, guarded_told, guarded_known, guarded_placed, guarded_part, guarded_rule, type_switch_rule, clause_around, switch_node, guard_in, guard_around, type_wants, is_type_case, only_type, single_type, clause_typed, clause_told, clause_type, clause_known, clause_named, clause_by, clause_in, clause_object};

use assign_rules::around::around_of;
use assign_rules::kinds::{guard_of, is_bind, is_type_list, part_kind};
use assign_rules::words::{held_if, variable};
use go_tree::{Node, NodeKind, NodeRef};
use package_objects::{kind_of, node_of, part_of};
use rule_words::good::{broken, known, silent};
use rule_words::modes::is_nil_mode;
use rule_words::types::is_interface;
use rule_words::wishes::nothing_wanted;
use rule_words::{Step, is_blank, look, under_of};
use type_model::TypeId;
use type_questions::Found;
use typed_marks::{Facts, Mark, Stage, State, Want};
use typed_tree::{NO_NEW_VARIABLE, NOT_AN_INTERFACE, Want as Demand};
use unit_read::Subject;

// ---- the statement

fn bound_of(bind: &Node) -> Option<u32>
    ensures { result ≡ bound_of bind.now }
{
    if is_bind(bind.kind) {
        part_of(bind, 0)
    } else {
        None
    }
}

fn guard_node<'a>(nodes: &'a [Node], switch: &Node) -> Option<&'a Node>
    ensures { option_copied result ≡ option_and_then (slice_get nodes.now) (guard_of nodes.now switch.now) }
{
    match guard_of(nodes, switch) {
        Some(n) => node_of(nodes, n),
        None => None,
    }
}

/// The node of the name that the guard declares.
fn bound_name(nodes: &[Node], switch: &Node) -> Option<u32>
    ensures { result ≡ bound_name nodes.now switch.now }
{
    match guard_node(nodes, switch) {
        Some(bind) => bound_of(bind),
        None => None,
    }
}

fn binds_blank(u: &Subject, file: u32, nodes: &[Node], switch: &Node) -> bool
    ensures { result ≡ binds_blank (unit_of u.now) file nodes.now switch.now }
{
    match bound_name(nodes, switch) {
        Some(n) => is_blank(u.name_at(NodeRef { file, node: n })),
        None => false,
    }
}

fn guarded_under(s: &State, under: TypeId) -> Step
    requires basics { HasBasics s.now.table }
    requires under { IsTypeOf s.now under }
    ensures is { step_in s.now result ≡ tell (sight s.now) (guarded_under (type_in s.now under)) }
    ensures over { IsStepOf s.now result }
{
    held_if(s, is_interface(s, under), NOT_AN_INTERFACE)
}

fn guarded_told(s: &State, under: Option<TypeId>) -> Step
    requires basics { HasBasics s.now.table }
    requires under { MayBeTypeOf s.now under }
    ensures is { step_in s.now result ≡ tell (sight s.now) (guarded_told (option_map (type_in s.now) under)) }
    ensures over { IsStepOf s.now result }
{
    match under {
        Some(under) => guarded_under(s, under),
        None => silent(),
    }
}

fn guarded_known(u: &Subject, s: &State, x: Facts) -> Step
    requires scene { IsScene u.now s.now }
    requires facts { AreFactsOf s.now x }
    ensures is { step_in s.now result ≡ tell (sight s.now) (guarded_known (unit_of u.now) (known_of s.now x)) }
    ensures over { IsStepOf s.now result }
{
    match under_of(u, s, x.last) {
        Found::Is(under) => guarded_told(s, under),
        Found::Wait(item) => Step::Waits(item),
    }
}

fn guarded_placed(u: &Subject, s: &State, m: Mark) -> Step
    requires scene { IsScene u.now s.now }
    requires mark { IsMarkOf s.now m }
    ensures is { step_in s.now result ≡ tell (sight s.now) (guarded_placed (unit_of u.now) (said s.now m)) }
    ensures over { IsStepOf s.now result }
{
    match known(s, m) {
        Some(x) => guarded_known(u, s, x),
        None => silent(),
    }
}

fn guarded_part(u: &Subject, s: &State, block: usize, n: u32) -> Step
    requires { IsScene u.now s.now }
    ensures is { step_in s.now result ≡ tell (sight s.now) (guarded_part (unit_of u.now) block n) }
    ensures over { IsStepOf s.now result }
{
    match look(u, s, Stage::Placed, block, n) {
        Found::Is(m) => guarded_placed(u, s, m),
        Found::Wait(item) => Step::Waits(item),
    }
}

fn guarded(u: &Subject, s: &State, block: usize, nodes: &[Node], node: &Node) -> Step
    requires { IsScene u.now s.now }
    ensures is { step_in s.now result ≡ tell (sight s.now) (guarded_rule (unit_of u.now) block nodes.now node.now) }
    ensures over { IsStepOf s.now result }
{
    match guard_of(nodes, node) {
        Some(n) => guarded_part(u, s, block, n),
        None => silent(),
    }
}

/// How far the rule of a type switch goes: E8, E46.
pub fn judge_type_switch(u: &Subject, s: &State, block: usize, file: u32, node: &Node) -> Step
    requires { IsScene u.now s.now }
    ensures is { step_in s.now result ≡ tell (sight s.now) (type_switch_rule (unit_of u.now) block file node.now) }
    ensures over { IsStepOf s.now result }
{
    let nodes = u.nodes_at(file);
    if binds_blank(u, file, nodes, node) {
        broken(NO_NEW_VARIABLE)
    } else {
        guarded(u, s, block, nodes, node)
    }
}

// ---- what is around the types of clauses

/// The clause in which a type stands that has this node around it.
pub fn clause_around(u: &Subject, file: u32, around: u32) -> Option<u32>
    requires { IsRead u.now }
    ensures { result ≡ clause_around (unit_of u.now) file around }
{
    if is_type_list(kind_of(u.nodes_at(file), around)) {
        around_of(u, NodeRef { file, node: around })
    } else {
        Some(around)
    }
}

fn switch_node<'a>(u: &Subject<'a>, file: u32, clause: u32) -> Option<&'a Node>
    requires { IsRead u.now }
    ensures { option_copied result ≡ switch_node (unit_of u.now) file clause }
{
    match around_of(u, NodeRef { file, node: clause }) {
        Some(n) => node_of(u.nodes_at(file), n),
        None => None,
    }
}

fn guard_in(u: &Subject, file: u32, switch: &Node) -> Option<u32>
    ensures { result ≡ guard_in (unit_of u.now) file switch.now }
{
    guard_of(u.nodes_at(file), switch)
}

/// What the type switch of a clause switches on.
#[tactic(auto, unfolding(crate::specs::TypeSwitching::guard_around))]
pub fn guard_around(u: &Subject, file: u32, clause: u32) -> Option<u32>
    requires { IsRead u.now }
    ensures { result ≡ guard_around (unit_of u.now) file clause }
{
    match switch_node(u, file, clause) {
        Some(switch) => guard_in(u, file, switch),
        None => None,
    }
}

/// What the place of a type in a clause wants.
pub fn want_type(s: &State, nodes: &[Node], around: &Node, slot: usize) -> Mark
    ensures is { Says (said s.now result) ≡ tell (sight s.now) (type_wants nodes.now around.now slot) }
    ensures over { IsMarkOf s.now result }
{
    let _ = s;
    if is_type_list(part_kind(nodes, around, slot)) {
        nothing_wanted()
    } else {
        Mark::Wants(Demand::Case, Want::Free)
    }
}

// ---- the variable of each clause

fn is_type_case(kind: NodeKind) -> bool
    ensures { result ≡ is_type_case kind }
{
    matches!(kind, NodeKind::TypeCase)
}

fn only_type(nodes: &[Node], clause: &Node) -> Option<u32>
    ensures { result ≡ only_type nodes.now clause.now }
{
    if is_type_list(part_kind(nodes, clause, 0)) {
        None
    } else {
        part_of(clause, 0)
    }
}

fn single_type(nodes: &[Node], clause: &Node) -> Option<u32>
    ensures { result ≡ single_type nodes.now clause.now }
{
    if is_type_case(clause.kind) {
        only_type(nodes, clause)
    } else {
        None
    }
}

fn clause_typed(s: &State, x: Facts, t: Facts) -> Step
    requires facts { AreFactsOf s.now x }
    requires typing { AreFactsOf s.now t }
    ensures is { step_in s.now result ≡ tell (sight s.now) (clause_typed (known_of s.now x) (known_of s.now t)) }
    ensures over { IsStepOf s.now result }
{
    if is_nil_mode(t.mode) {
        variable(s, x.of)
    } else {
        variable(s, t.of)
    }
}

fn clause_told(s: &State, x: Facts, m: Mark) -> Step
    requires facts { AreFactsOf s.now x }
    requires mark { IsMarkOf s.now m }
    ensures is { step_in s.now result ≡ tell (sight s.now) (clause_told (known_of s.now x) (said s.now m)) }
    ensures over { IsStepOf s.now result }
{
    match known(s, m) {
        Some(t) => clause_typed(s, x, t),
        None => silent(),
    }
}

fn clause_type(u: &Subject, s: &State, file: u32, x: Facts, t: u32) -> Step
    requires scene { IsScene u.now s.now }
    requires facts { AreFactsOf s.now x }
    ensures is { step_in s.now result ≡ tell (sight s.now) (clause_type (unit_of u.now) file (known_of s.now x) t) }
    ensures over { IsStepOf s.now result }
{
    match look(u, s, Stage::Placed, file as usize, t) {
        Found::Is(m) => clause_told(s, x, m),
        Found::Wait(item) => Step::Waits(item),
    }
}

fn clause_known(u: &Subject, s: &State, file: u32, clause: &Node, x: Facts) -> Step
    requires scene { IsScene u.now s.now }
    requires facts { AreFactsOf s.now x }
    ensures is { step_in s.now result ≡ tell (sight s.now) (clause_known (unit_of u.now) file clause.now (known_of s.now x)) }
    ensures over { IsStepOf s.now result }
{
    match single_type(u.nodes_at(file), clause) {
        Some(t) => clause_type(u, s, file, x, t),
        None => variable(s, x.of),
    }
}

fn clause_named(u: &Subject, s: &State, file: u32, clause: &Node, m: Mark) -> Step
    requires scene { IsScene u.now s.now }
    requires mark { IsMarkOf s.now m }
    ensures is { step_in s.now result ≡ tell (sight s.now) (clause_named (unit_of u.now) file clause.now (said s.now m)) }
    ensures over { IsStepOf s.now result }
{
    match known(s, m) {
        Some(x) => clause_known(u, s, file, clause, x),
        None => silent(),
    }
}

fn clause_by(u: &Subject, s: &State, file: u32, clause: &Node, name: u32) -> Step
    requires { IsScene u.now s.now }
    ensures is { step_in s.now result ≡ tell (sight s.now) (clause_by (unit_of u.now) file clause.now name) }
    ensures over { IsStepOf s.now result }
{
    match look(u, s, Stage::Object, file as usize, name) {
        Found::Is(m) => clause_named(u, s, file, clause, m),
        Found::Wait(item) => Step::Waits(item),
    }
}

fn clause_in(u: &Subject, s: &State, file: u32, clause: &Node, switch: &Node) -> Step
    requires { IsScene u.now s.now }
    ensures is { step_in s.now result ≡ tell (sight s.now) (clause_in (unit_of u.now) file clause.now switch.now) }
    ensures over { IsStepOf s.now result }
{
    match bound_name(u.nodes_at(file), switch) {
        Some(name) => clause_by(u, s, file, clause, name),
        None => silent(),
    }
}

/// How far the rule goes of the variable that a clause of a type switch declares.
pub fn judge_clause_object(u: &Subject, s: &State, at: NodeRef, clause: &Node) -> Step
    requires { IsScene u.now s.now }
    ensures is { step_in s.now result ≡ tell (sight s.now) (clause_object (unit_of u.now) at clause.now) }
    ensures over { IsStepOf s.now result }
{
    match switch_node(u, at.file, at.node) {
        Some(switch) => clause_in(u, s, at.file, clause, switch),
        None => silent(),
    }
}
