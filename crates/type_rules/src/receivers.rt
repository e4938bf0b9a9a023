//! Lists of parameters, and receivers (Go 1.17, "Method declarations").
ghost use Rattle.std.specs.Prelude.{◌≡◌, IfOk, option_map};
ghost use Rattle.std.specs.Str.{bytes_eq};
ghost use Rattle.mark_walk.specs.Asks.{bind};
ghost use Rattle.mark_walk.specs.Telling.{tell};
ghost use Rattle.type_model.specs.Tables.{IsTable};
ghost use Rattle.typed_marks.specs.States.{IsState};
ghost use Rattle.typed_tree.specs.Basics.{HasBasics};
ghost use Rattle.unit_read.specs.Subjects.{unit_of};
ghost use Rattle.rule_words.specs.Asking.{under_ask};
ghost use Rattle.rule_words.specs.Scenes.{sight, IsScene, part_in, IsSeenOf, parts_in, AreSeenOf, type_in, IsTypeOf, MayBeTypeOf};
ghost use Rattle.rule_words.specs.Steps.{step_in, IsStepOf};
ghost use Rattle.rule_words.specs.Good.{given, known_of, AreFactsOf};
ghost use Rattle.type_rules.specs.Receivers.{receiver_base, is_own, may_have_methods, is_single, based_on, with_base, base_ask, receiver_of, receiver_rule, is_method_decl, is_receiver, list_in, list_of, list_rule};

use crate::params::{entry_count_at, params};
use go_tree::{Node, NodeKind, NodeRef};
use gv_base::NoMemory;
use package_objects::{kind_of, part_count, part_of};
use rule_words::good::{broken, known, part_at, silent};
use rule_words::{Seen, Step, under_of};
use std::alloc::Global;
use type_model::{Term, TypeId, TypeName};
use type_questions::Found;
use typed_marks::{Facts, State};
use typed_tree::BAD_RECEIVER;
use unit_read::{Place, Subject};

/// The type itself, or that to which it points.
fn receiver_base(s: &State, of: TypeId) -> TypeId
    requires table { IsTable s.now.table }
    requires within { IsTypeOf s.now of }
    ensures is { type_in s.now result ≡ receiver_base (type_in s.now of) }
    ensures within { IsTypeOf s.now result }
{
    match s.table.term(of) {
        Term::Pointer(base) => *base,
        Term::Basic(_) => of,
        Term::Defined(_) => of,
        Term::Slice(_) => of,
        Term::Array(_, _) => of,
        Term::Map(_, _) => of,
        Term::Chan(_, _) => of,
        Term::Func(_) => of,
        Term::Struct(_) => of,
        Term::Interface(_) => of,
    }
}

fn is_of_package(u: &Subject, name: &TypeName) -> bool
    ensures { result ≡ bytes_eq (unit_of u.now).path name.now.«package» }
{
    u.path == name.package.as_str().as_bytes()
}

/// Whether a type is defined in this package.
fn is_own(u: &Subject, s: &State, of: TypeId) -> bool
    requires table { IsTable s.now.table }
    requires within { IsTypeOf s.now of }
    ensures { result ≡ is_own (unit_of u.now) (type_in s.now of) }
{
    match s.table.term(of) {
        Term::Defined(name) => is_of_package(u, name),
        Term::Basic(_) => false,
        Term::Pointer(_) => false,
        Term::Slice(_) => false,
        Term::Array(_, _) => false,
        Term::Map(_, _) => false,
        Term::Chan(_, _) => false,
        Term::Func(_) => false,
        Term::Struct(_) => false,
        Term::Interface(_) => false,
    }
}

fn may_have_methods(s: &State, of: TypeId) -> bool
    requires table { IsTable s.now.table }
    requires within { IsTypeOf s.now of }
    ensures { result ≡ may_have_methods (type_in s.now of) }
{
    match s.table.term(of) {
        Term::Pointer(_) => false,
        Term::Interface(_) => false,
        Term::Basic(_) => true,
        Term::Defined(_) => true,
        Term::Slice(_) => true,
        Term::Array(_, _) => true,
        Term::Map(_, _) => true,
        Term::Chan(_, _) => true,
        Term::Func(_) => true,
        Term::Struct(_) => true,
    }
}

/// Whether the list declares one parameter.
fn is_single(nodes: &[Node], node: &Node) -> bool
    ensures { result ≡ is_single nodes.now node.now }
{
    part_count(node) == 1 && entry_count_at(nodes, part_of(node, 0)) == 1
}

fn based_on(
    alloc: Global,
    s: &State,
    nodes: &[Node],
    node: &Node,
    parts: &[Seen],
    under: TypeId,
) -> Result<Step, NoMemory>
    requires state { IsState s.now }
    requires basics { HasBasics s.now.table }
    requires parts { AreSeenOf s.now parts.now }
    requires under { IsTypeOf s.now under }
    ensures is { IfOk result (λ step. step_in s.now step ≡ tell (sight s.now) (based_on nodes.now node.now (parts_in s.now parts.now) (type_in s.now under))) }
    ensures over { IfOk result (IsStepOf s.now) }
{
    if !may_have_methods(s, under) {
        return Ok(broken(BAD_RECEIVER));
    }
    let step = params(alloc, s, nodes, node, parts)?;
    Ok(step)
}

fn with_base(
    alloc: Global,
    s: &State,
    nodes: &[Node],
    node: &Node,
    parts: &[Seen],
    under: Option<TypeId>,
) -> Result<Step, NoMemory>
    requires state { IsState s.now }
    requires basics { HasBasics s.now.table }
    requires parts { AreSeenOf s.now parts.now }
    requires under { MayBeTypeOf s.now under }
    ensures is { IfOk result (λ step. step_in s.now step ≡ tell (sight s.now) (with_base nodes.now node.now (parts_in s.now parts.now) (option_map (type_in s.now) under))) }
    ensures over { IfOk result (IsStepOf s.now) }
{
    match under {
        Some(of) => {
            let step = based_on(alloc, s, nodes, node, parts, of)?;
            Ok(step)
        }
        None => Ok(silent()),
    }
}

fn base_asked(
    alloc: Global,
    u: &Subject,
    s: &State,
    nodes: &[Node],
    node: &Node,
    parts: &[Seen],
    of: TypeId,
) -> Result<Step, NoMemory>
    requires scene { IsScene u.now s.now }
    requires parts { AreSeenOf s.now parts.now }
    requires of { IsTypeOf s.now of }
    ensures is { IfOk result (λ step. step_in s.now step ≡ tell (sight s.now) (bind (under_ask (unit_of u.now) (type_in s.now of)) (λ under. with_base nodes.now node.now (parts_in s.now parts.now) under))) }
    ensures over { IfOk result (IsStepOf s.now) }
{
    match under_of(u, s, of) {
        Found::Is(under) => {
            let step = with_base(alloc, s, nodes, node, parts, under)?;
            Ok(step)
        }
        Found::Wait(item) => Ok(Step::Waits(item)),
    }
}

/// E16 where the type isn't one of this package.
fn base_tested(
    alloc: Global,
    u: &Subject,
    s: &State,
    nodes: &[Node],
    node: &Node,
    parts: &[Seen],
    of: TypeId,
) -> Result<Step, NoMemory>
    requires scene { IsScene u.now s.now }
    requires parts { AreSeenOf s.now parts.now }
    requires of { IsTypeOf s.now of }
    ensures is { IfOk result (λ step. step_in s.now step ≡ tell (sight s.now) (base_ask (unit_of u.now) nodes.now node.now (parts_in s.now parts.now) (type_in s.now of))) }
    ensures over { IfOk result (IsStepOf s.now) }
{
    if !is_own(u, s, of) {
        return Ok(broken(BAD_RECEIVER));
    }
    let step = base_asked(alloc, u, s, nodes, node, parts, of)?;
    Ok(step)
}

fn receiver_of(
    alloc: Global,
    u: &Subject,
    s: &State,
    nodes: &[Node],
    node: &Node,
    parts: &[Seen],
    x: Facts,
) -> Result<Step, NoMemory>
    requires scene { IsScene u.now s.now }
    requires parts { AreSeenOf s.now parts.now }
    requires facts { AreFactsOf s.now x }
    ensures is { IfOk result (λ step. step_in s.now step ≡ tell (sight s.now) (receiver_of (unit_of u.now) nodes.now node.now (parts_in s.now parts.now) (known_of s.now x))) }
    ensures over { IfOk result (IsStepOf s.now) }
{
    let base = receiver_base(s, x.of);
    let step = base_tested(alloc, u, s, nodes, node, parts, base)?;
    Ok(step)
}

fn receiver_given(
    alloc: Global,
    u: &Subject,
    s: &State,
    nodes: &[Node],
    node: &Node,
    parts: &[Seen],
    p: Seen,
) -> Result<Step, NoMemory>
    requires scene { IsScene u.now s.now }
    requires parts { AreSeenOf s.now parts.now }
    requires part { IsSeenOf s.now p }
    ensures is { IfOk result (λ step. step_in s.now step ≡ tell (sight s.now) (given (part_in s.now p).mark (λ x. receiver_of (unit_of u.now) nodes.now node.now (parts_in s.now parts.now) x))) }
    ensures over { IfOk result (IsStepOf s.now) }
{
    match known(s, p.mark) {
        Some(x) => {
            let step = receiver_of(alloc, u, s, nodes, node, parts, x)?;
            Ok(step)
        }
        None => Ok(silent()),
    }
}

/// A receiver: E16.
fn receiver(
    alloc: Global,
    u: &Subject,
    s: &State,
    nodes: &[Node],
    node: &Node,
    parts: &[Seen],
) -> Result<Step, NoMemory>
    requires scene { IsScene u.now s.now }
    requires parts { AreSeenOf s.now parts.now }
    ensures is { IfOk result (λ step. step_in s.now step ≡ tell (sight s.now) (receiver_rule (unit_of u.now) nodes.now node.now (parts_in s.now parts.now))) }
    ensures over { IfOk result (IsStepOf s.now) }
{
    if !is_single(nodes, node) {
        return Ok(broken(BAD_RECEIVER));
    }
    let first = part_at(s, parts, 0);
    let step = receiver_given(alloc, u, s, nodes, node, parts, first)?;
    Ok(step)
}

fn is_method_decl(kind: NodeKind) -> bool
    ensures { result ≡ is_method_decl kind }
{
    match kind {
        NodeKind::MethodDecl => true,
        _ => false,
    }
}

fn is_receiver(nodes: &[Node], p: Place) -> bool
    ensures { result ≡ is_receiver nodes.now p }
{
    p.slot == 0 && is_method_decl(kind_of(nodes, p.around))
}

fn list_in(
    alloc: Global,
    u: &Subject,
    s: &State,
    nodes: &[Node],
    node: &Node,
    parts: &[Seen],
    p: Place,
) -> Result<Step, NoMemory>
    requires scene { IsScene u.now s.now }
    requires parts { AreSeenOf s.now parts.now }
    ensures is { IfOk result (λ step. step_in s.now step ≡ tell (sight s.now) (list_in (unit_of u.now) nodes.now node.now (parts_in s.now parts.now) p)) }
    ensures over { IfOk result (IsStepOf s.now) }
{
    if is_receiver(nodes, p) {
        let step = receiver(alloc, u, s, nodes, node, parts)?;
        return Ok(step);
    }
    let step = params(alloc, s, nodes, node, parts)?;
    Ok(step)
}

fn list_of(
    alloc: Global,
    u: &Subject,
    s: &State,
    nodes: &[Node],
    node: &Node,
    parts: &[Seen],
    place: Option<Place>,
) -> Result<Step, NoMemory>
    requires scene { IsScene u.now s.now }
    requires parts { AreSeenOf s.now parts.now }
    ensures is { IfOk result (λ step. step_in s.now step ≡ tell (sight s.now) (list_of (unit_of u.now) nodes.now node.now (parts_in s.now parts.now) place)) }
    ensures over { IfOk result (IsStepOf s.now) }
{
    match place {
        Some(p) => {
            let step = list_in(alloc, u, s, nodes, node, parts, p)?;
            Ok(step)
        }
        None => {
            let step = params(alloc, s, nodes, node, parts)?;
            Ok(step)
        }
    }
}

/// A list of parameters.
pub fn list(
    alloc: Global,
    u: &Subject,
    s: &State,
    at: NodeRef,
    node: &Node,
    parts: &[Seen],
) -> Result<Step, NoMemory>
    requires scene { IsScene u.now s.now }
    requires parts { AreSeenOf s.now parts.now }
    ensures is { IfOk result (λ step. step_in s.now step ≡ tell (sight s.now) (list_rule (unit_of u.now) at node.now (parts_in s.now parts.now))) }
    ensures over { IfOk result (IsStepOf s.now) }
{
    let nodes = u.nodes_at(at.file);
    let place = u.place_at(at);
    let step = list_of(alloc, u, s, nodes, node, parts, place)?;
    Ok(step)
}
