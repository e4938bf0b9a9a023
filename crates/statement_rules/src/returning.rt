//! Return statements.
ghost use Rattle.variable_rules.specs.Several.{results_of};
ghost use Rattle.std.specs.Prelude.{◌≡◌, length, option_and_then, slice_get};
ghost use Rattle.std.specs.Option.{option_copied};
ghost use Rattle.mark_walk.specs.Telling.{tell};
ghost use Rattle.typed_tree.specs.Basics.{HasBasics};
ghost use Rattle.unit_read.specs.Subjects.{unit_of};
ghost use Rattle.package_objects.specs.Declares.{is_params};
ghost use Rattle.rule_words.specs.Good.{known_of, AreFactsOf};
ghost use Rattle.rule_words.specs.Scenes.{sight, IsScene, said, IsMarkOf, IsTypeOf, type_in};
ghost use Rattle.rule_words.specs.Steps.{step_in, IsStepOf};
ghost use Rattle.statement_rules.specs.Returning.{results_slot, is_named_entry, first_is_named, are_named, are_named_at, names_results_in, names_results, count_of, first_of, calls, if_calls, names_many, names_many_at, are_many, are_many_at, returns_many_in, returns_many, returned_call, returned_known, returned_told, returned_rule, valued_rule, bare_rule, counted_rule, function_known, function_told, function_rule, return_rule};

use assign_rules::around::function_of;
use assign_rules::kinds::is_call;
use assign_rules::sharing::{gives, many_of};
use assign_rules::words::held_if;
use go_tree::{Node, NodeKind, NodeRef};
use package_objects::{count, item, kind_of, node_of, part_count, part_of};
use rule_words::good::{known, silent};
use rule_words::{Step, look};
use type_model::TypeId;
use type_questions::Found;
use typed_marks::{Facts, Mark, Stage, State};
use typed_tree::WRONG_NUMBER_OF_RESULTS;
use unit_read::Subject;
use variable_rules::{bare, results_of};

// ---- the function

fn results_slot(kind: NodeKind) -> usize
    ensures { result ≡ results_slot kind }
{
    match kind {
        NodeKind::FuncDecl => 2,
        NodeKind::MethodDecl => 3,
        _ => 1,
    }
}

fn is_named_entry(kind: NodeKind) -> bool
    ensures { result ≡ is_named_entry kind }
{
    matches!(kind, NodeKind::Param)
}

fn is_params(kind: NodeKind) -> bool
    ensures { result ≡ is_params kind }
{
    matches!(kind, NodeKind::Params)
}

fn first_is_named(nodes: &[Node], params: &Node) -> bool
    ensures { result ≡ first_is_named nodes.now params.now }
{
    match part_of(params, 0) {
        Some(n) => is_named_entry(kind_of(nodes, n)),
        None => false,
    }
}

fn are_named(nodes: &[Node], params: &Node) -> bool
    ensures { result ≡ are_named nodes.now params.now }
{
    is_params(params.kind) && first_is_named(nodes, params)
}

fn are_named_at(nodes: &[Node], n: u32) -> bool
    ensures { result ≡ are_named_at nodes.now n }
{
    match node_of(nodes, n) {
        Some(params) => are_named(nodes, params),
        None => false,
    }
}

fn names_results_in(nodes: &[Node], f: &Node) -> bool
    ensures { result ≡ names_results_in nodes.now f.now }
{
    match part_of(f, results_slot(f.kind)) {
        Some(n) => are_named_at(nodes, n),
        None => false,
    }
}

/// The results of the function have names.
fn names_results(nodes: &[Node], f: u32) -> bool
    ensures { result ≡ names_results nodes.now f }
{
    match node_of(nodes, f) {
        Some(node) => names_results_in(nodes, node),
        None => false,
    }
}

// ---- how many results it has

fn names_many(nodes: &[Node], entry: &Node) -> bool
    ensures { result ≡ names_many nodes.now entry.now }
{
    is_named_entry(entry.kind) && 2 <= count(nodes, part_of(entry, 0))
}

fn node_at(nodes: &[Node], o: Option<u32>) -> Option<&Node>
    ensures { option_copied result ≡ option_and_then (λ n. slice_get nodes.now n) o }
{
    match o {
        Some(n) => node_of(nodes, n),
        None => None,
    }
}

fn names_many_at(nodes: &[Node], o: Option<u32>) -> bool
    ensures { result ≡ names_many_at nodes.now o }
{
    match node_at(nodes, o) {
        Some(entry) => names_many(nodes, entry),
        None => false,
    }
}

fn are_many(nodes: &[Node], params: &Node) -> bool
    ensures { result ≡ are_many nodes.now params.now }
{
    is_params(params.kind) && (2 <= part_count(params) || names_many_at(nodes, part_of(params, 0)))
}

fn are_many_at(nodes: &[Node], n: u32) -> bool
    ensures { result ≡ are_many_at nodes.now n }
{
    match node_of(nodes, n) {
        Some(params) => are_many(nodes, params),
        None => false,
    }
}

fn returns_many_in(nodes: &[Node], f: &Node) -> bool
    ensures { result ≡ returns_many_in nodes.now f.now }
{
    match part_of(f, results_slot(f.kind)) {
        Some(n) => are_many_at(nodes, n),
        None => false,
    }
}

/// The function has two results or more.
fn returns_many(nodes: &[Node], f: u32) -> bool
    ensures { result ≡ returns_many nodes.now f }
{
    match node_of(nodes, f) {
        Some(node) => returns_many_in(nodes, node),
        None => false,
    }
}

// ---- the values

/// How many values there are.
pub fn count_of(nodes: &[Node], node: &Node) -> usize
    ensures { result ≡ count_of nodes.now node.now }
{
    count(nodes, part_of(node, 0))
}

fn first_of(nodes: &[Node], node: &Node) -> Option<u32>
    ensures { result ≡ first_of nodes.now node.now }
{
    item(nodes, part_of(node, 0), 0)
}

fn calls(nodes: &[Node], n: u32) -> bool
    ensures { result ≡ calls nodes.now n }
{
    is_call(kind_of(nodes, bare(nodes, n)))
}

fn if_calls(nodes: &[Node], n: u32) -> Option<u32>
    ensures { result ≡ if_calls nodes.now n }
{
    if calls(nodes, n) { Some(n) } else { None }
}

fn call_of(nodes: &[Node], node: &Node) -> Option<u32>
    ensures { result ≡ option_and_then (if_calls nodes.now) (first_of nodes.now node.now) }
{
    match first_of(nodes, node) {
        Some(n) => if_calls(nodes, n),
        None => None,
    }
}

/// The call that gives all results, where the function has several.
pub fn returned_call(nodes: &[Node], node: &Node, f: u32) -> Option<u32>
    ensures { result ≡ returned_call nodes.now node.now f }
{
    if count_of(nodes, node) == 1 && returns_many(nodes, f) {
        call_of(nodes, node)
    } else {
        None
    }
}

// ---- E87

fn returned_known(s: &State, many: usize, x: Facts) -> Step
    requires basics { HasBasics s.now.table }
    requires facts { AreFactsOf s.now x }
    ensures is { step_in s.now result ≡ tell (sight s.now) (returned_known many (known_of s.now x)) }
    ensures over { IsStepOf s.now result }
{
    held_if(s, gives(s, x, many), WRONG_NUMBER_OF_RESULTS)
}

fn returned_told(s: &State, many: usize, m: Mark) -> Step
    requires basics { HasBasics s.now.table }
    requires mark { IsMarkOf s.now m }
    ensures is { step_in s.now result ≡ tell (sight s.now) (returned_told many (said s.now m)) }
    ensures over { IsStepOf s.now result }
{
    match known(s, m) {
        Some(x) => returned_known(s, many, x),
        None => silent(),
    }
}

fn returned(u: &Subject, s: &State, block: usize, many: usize, n: u32) -> Step
    requires { IsScene u.now s.now }
    ensures is { step_in s.now result ≡ tell (sight s.now) (returned_rule (unit_of u.now) block many n) }
    ensures over { IsStepOf s.now result }
{
    match look(u, s, Stage::Placed, block, n) {
        Found::Is(m) => returned_told(s, many, m),
        Found::Wait(item) => Step::Waits(item),
    }
}

fn valued(
    u: &Subject,
    s: &State,
    block: usize,
    nodes: &[Node],
    node: &Node,
    f: u32,
    many: usize,
) -> Step
    requires { IsScene u.now s.now }
    ensures is { step_in s.now result ≡ tell (sight s.now) (valued_rule (unit_of u.now) block nodes.now node.now f many) }
    ensures over { IsStepOf s.now result }
{
    match returned_call(nodes, node, f) {
        Some(n) => returned(u, s, block, many, n),
        None => held_if(s, count_of(nodes, node) == many, WRONG_NUMBER_OF_RESULTS),
    }
}

fn without_values(s: &State, named: bool, many: usize) -> Step
    requires { HasBasics s.now.table }
    ensures is { step_in s.now result ≡ tell (sight s.now) (bare_rule named many) }
    ensures over { IsStepOf s.now result }
{
    held_if(s, many == 0 || named, WRONG_NUMBER_OF_RESULTS)
}

fn counted(
    u: &Subject,
    s: &State,
    block: usize,
    nodes: &[Node],
    node: &Node,
    f: u32,
    many: usize,
) -> Step
    requires { IsScene u.now s.now }
    ensures is { step_in s.now result ≡ tell (sight s.now) (counted_rule (unit_of u.now) block nodes.now node.now f many) }
    ensures over { IsStepOf s.now result }
{
    if count_of(nodes, node) == 0 {
        without_values(s, names_results(nodes, f), many)
    } else {
        valued(u, s, block, nodes, node, f, many)
    }
}

/// How many results a function type has.
pub fn many_results(s: &State, of: TypeId) -> usize
    requires basics { HasBasics s.now.table }
    requires within { IsTypeOf s.now of }
    ensures { result ≡ length (results_of (type_in s.now of)) }
{
    many_of(s, results_of(s, of))
}

fn function_known(
    u: &Subject,
    s: &State,
    block: usize,
    nodes: &[Node],
    node: &Node,
    f: u32,
    x: Facts,
) -> Step
    requires scene { IsScene u.now s.now }
    requires facts { AreFactsOf s.now x }
    ensures is { step_in s.now result ≡ tell (sight s.now) (function_known (unit_of u.now) block nodes.now node.now f (known_of s.now x)) }
    ensures over { IsStepOf s.now result }
{
    counted(u, s, block, nodes, node, f, many_results(s, x.of))
}

fn function_told(
    u: &Subject,
    s: &State,
    block: usize,
    nodes: &[Node],
    node: &Node,
    f: u32,
    m: Mark,
) -> Step
    requires scene { IsScene u.now s.now }
    requires mark { IsMarkOf s.now m }
    ensures is { step_in s.now result ≡ tell (sight s.now) (function_told (unit_of u.now) block nodes.now node.now f (said s.now m)) }
    ensures over { IsStepOf s.now result }
{
    match known(s, m) {
        Some(x) => function_known(u, s, block, nodes, node, f, x),
        None => silent(),
    }
}

fn in_function(u: &Subject, s: &State, block: usize, nodes: &[Node], node: &Node, f: u32) -> Step
    requires { IsScene u.now s.now }
    ensures is { step_in s.now result ≡ tell (sight s.now) (function_rule (unit_of u.now) block nodes.now node.now f) }
    ensures over { IsStepOf s.now result }
{
    match look(u, s, Stage::Judged, block, f) {
        Found::Is(m) => function_told(u, s, block, nodes, node, f, m),
        Found::Wait(item) => Step::Waits(item),
    }
}

/// How far the rule of a return statement goes: E87.
pub fn judge_return(u: &Subject, s: &State, block: usize, at: NodeRef, node: &Node) -> Step
    requires { IsScene u.now s.now }
    ensures is { step_in s.now result ≡ tell (sight s.now) (return_rule (unit_of u.now) block at node.now) }
    ensures over { IsStepOf s.now result }
{
    match function_of(u, at.file, at.node) {
        Some(f) => in_function(u, s, block, u.nodes_at(at.file), node, f),
        None => silent(),
    }
}
