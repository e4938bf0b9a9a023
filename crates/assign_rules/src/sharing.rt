//! One value that gives several: each is assigned.
ghost use Rattle.std.specs.Prelude.{◌≡◌, ◌==◌, ◌<◌, if◌then◌else◌, IfOk, Some, is_some, length, option_map, slice_get};
ghost use Rattle.package_objects.specs.Declares.{items, part};
ghost use Rattle.gv_base.specs.declared.constant.Kind.TheVariants as kind;
ghost use Rattle.type_model.specs.GoTypes.{AreBelow, BasicType};
ghost use Rattle.type_model.specs.Tables.{count as type_count};
ghost use Rattle.typed_tree.specs.Basics.{HasBasics};
ghost use Rattle.type_answers.specs.Coming.{FoundBy};
ghost use Rattle.unit_read.specs.Subjects.{unit_of};
ghost use Rattle.rule_words.specs.Good.{known_of, AreFactsOf};
ghost use Rattle.rule_words.specs.Scenes.{IsScene, said, IsMarkOf, type_in, IsTypeOf, MayBeTypeOf};
ghost use Rattle.variable_rules.specs.Forms.{name_count as names_of};
ghost use Rattle.variable_rules.specs.Several.{given_to};
ghost use Rattle.variable_rules.specs.InCode.{types_of};
ghost use Rattle.assign_rules.specs.Sharing.{given_as, given_type, assigned_in, type_assigned, target_assigned, aimed_assigned, one_assigned, nth_assigned, all_assigned, nth_returned, all_returned};

use crate::assign_wants::takes_any;
use go_tree::{Node, NodeKind};
use gv_base::{Kind, NoMemory};
use package_objects::{count, item, part_of};
use rule_words::good::{basic_type, known};
use rule_words::types::{nth, takes_default};
use rule_words::{ends, look, under_of};
use std::alloc::Global;
use type_answers::{Relation, ask_operand};
use type_model::TypeId;
use type_questions::{Found, Reached};
use typed_marks::{Facts, Item, Mark, Stage, State};
use typed_tree::Mode;
use unit_read::Subject;
use variable_rules::{given_to, name_count};

// ---- what is given

fn with_ok(s: &State, i: usize, of: TypeId) -> TypeId
    requires basics { HasBasics s.now.table }
    requires of { IsTypeOf s.now of }
    ensures is { type_in s.now result ≡ (if i == 1 then BasicType kind.UntypedBool else type_in s.now of) }
    ensures within { IsTypeOf s.now result }
{
    if i == 1 {
        basic_type(s, Kind::UntypedBool)
    } else {
        of
    }
}

fn given_as(s: &State, mode: Mode, i: usize, of: TypeId) -> TypeId
    requires basics { HasBasics s.now.table }
    requires of { IsTypeOf s.now of }
    ensures is { type_in s.now result ≡ given_as mode i (type_in s.now of) }
    ensures within { IsTypeOf s.now result }
{
    match mode {
        Mode::Many => of,
        _ => with_ok(s, i, of),
    }
}

/// The type of the value at a place, of so many; None where it doesn't give so many.
pub fn given_type(s: &State, x: Facts, many: usize, i: usize) -> Option<TypeId>
    requires basics { HasBasics s.now.table }
    requires facts { AreFactsOf s.now x }
    ensures is { option_map (type_in s.now) result ≡ given_type (known_of s.now x) many i }
    ensures within { MayBeTypeOf s.now result }
{
    match given_to(s, x, many, i) {
        Some(of) => Some(given_as(s, x.mode, i, of)),
        None => None,
    }
}

/// How many types there are.
pub fn many_of(s: &State, types: &[TypeId]) -> usize
    ensures { result ≡ length (types_of s.now types.now) }
{
    let _ = s;
    types.len()
}

/// A value gives so many.
pub fn gives(s: &State, x: Facts, many: usize) -> bool
    requires basics { HasBasics s.now.table }
    requires facts { AreFactsOf s.now x }
    ensures { result ≡ is_some (given_to (known_of s.now x) many 0) }
{
    match given_to(s, x, many, 0) {
        Some(_) => true,
        None => false,
    }
}

// ---- to a type

/// Whether it is assignable to a type of this underlying type.
fn assigned_in(
    alloc: Global,
    u: &Subject,
    s: &State,
    of: TypeId,
    to: TypeId,
    under: Option<TypeId>,
) -> Result<Found<Reached<bool>, Item>, NoMemory>
    requires scene { IsScene u.now s.now }
    requires of { IsTypeOf s.now of }
    requires to { IsTypeOf s.now to }
    requires under { MayBeTypeOf s.now under }
    ensures { IfOk result (FoundBy u.now s.now (λ x. x) (assigned_in (type_in s.now of) (type_in s.now to) (option_map (type_in s.now) under))) }
{
    let methods = takes_default(s, under);
    let found = ask_operand(alloc, u, s, Relation::Assignable, methods, of, None, to)?;
    Ok(found)
}

/// Whether a value of a type is assignable to another.
#[tactic(auto, using(type_answers::proofs::ComingLaws::says_found, type_answers::proofs::ComingLaws::waits_awaited), unfolding(crate::specs::Sharing::type_assigned))]
pub fn type_assigned(
    alloc: Global,
    u: &Subject,
    s: &State,
    of: TypeId,
    to: TypeId,
) -> Result<Found<Reached<bool>, Item>, NoMemory>
    requires scene { IsScene u.now s.now }
    requires of { IsTypeOf s.now of }
    requires to { IsTypeOf s.now to }
    ensures { IfOk result (FoundBy u.now s.now (λ x. x) (type_assigned (unit_of u.now) (type_in s.now of) (type_in s.now to))) }
{
    match under_of(u, s, to) {
        Found::Is(under) => {
            let found = assigned_in(alloc, u, s, of, to, under)?;
            Ok(found)
        }
        Found::Wait(item) => Ok(Found::Wait(item)),
    }
}

// ---- to the operands on the left of an assignment

fn target_assigned(
    alloc: Global,
    u: &Subject,
    s: &State,
    of: TypeId,
    m: Mark,
) -> Result<Found<Reached<bool>, Item>, NoMemory>
    requires scene { IsScene u.now s.now }
    requires of { IsTypeOf s.now of }
    requires mark { IsMarkOf s.now m }
    ensures { IfOk result (FoundBy u.now s.now (λ x. x) (target_assigned (unit_of u.now) (type_in s.now of) (said s.now m))) }
{
    match known(s, m) {
        Some(t) => {
            let found = type_assigned(alloc, u, s, of, t.of)?;
            Ok(found)
        }
        None => Ok(Found::Is(Reached::Got(true))),
    }
}

#[tactic(auto, using(type_answers::proofs::ComingLaws::says_found, type_answers::proofs::ComingLaws::waits_awaited))]
fn aimed_assigned(
    alloc: Global,
    u: &Subject,
    s: &State,
    block: usize,
    of: TypeId,
    t: u32,
) -> Result<Found<Reached<bool>, Item>, NoMemory>
    requires scene { IsScene u.now s.now }
    requires of { IsTypeOf s.now of }
    ensures { IfOk result (FoundBy u.now s.now (λ x. x) (aimed_assigned (unit_of u.now) block (type_in s.now of) t)) }
{
    match look(u, s, Stage::Placed, block, t) {
        Found::Is(m) => {
            let found = target_assigned(alloc, u, s, of, m)?;
            Ok(found)
        }
        Found::Wait(item) => Ok(Found::Wait(item)),
    }
}

/// Whether a value of a type is assignable to an operand.
#[tactic(auto, unfolding(crate::specs::Sharing::one_assigned))]
pub fn one_assigned(
    alloc: Global,
    u: &Subject,
    s: &State,
    block: usize,
    file: u32,
    nodes: &[Node],
    kind: NodeKind,
    t: u32,
    of: TypeId,
) -> Result<Found<Reached<bool>, Item>, NoMemory>
    requires scene { IsScene u.now s.now }
    requires of { IsTypeOf s.now of }
    ensures { IfOk result (FoundBy u.now s.now (λ x. x) (one_assigned (unit_of u.now) block file nodes.now kind t (type_in s.now of))) }
{
    if takes_any(u, file, nodes, kind, t) {
        return Ok(Found::Is(Reached::Got(true)));
    }
    let found = aimed_assigned(alloc, u, s, block, of, t)?;
    Ok(found)
}

fn nth_assigned(
    alloc: Global,
    u: &Subject,
    s: &State,
    block: usize,
    file: u32,
    nodes: &[Node],
    kind: NodeKind,
    x: Facts,
    many: usize,
    t: u32,
    i: usize,
) -> Result<Found<Reached<bool>, Item>, NoMemory>
    requires scene { IsScene u.now s.now }
    requires facts { AreFactsOf s.now x }
    ensures { IfOk result (FoundBy u.now s.now (λ x. x) (nth_assigned (unit_of u.now) block file nodes.now kind (known_of s.now x) many t i)) }
{
    match given_type(s, x, many, i) {
        Some(of) => {
            let found = one_assigned(alloc, u, s, block, file, nodes, kind, t, of)?;
            Ok(found)
        }
        None => Ok(Found::Is(Reached::Got(true))),
    }
}

fn target_at(nodes: &[Node], targets: Option<u32>, i: usize) -> u32
    requires { i < length (items nodes.now targets) }
    ensures { slice_get (items nodes.now targets) i ≡ Some result }
{
    match item(nodes, targets, i) {
        Some(t) => t,
        None => unreachable!(),
    }
}

fn each_assigned(
    alloc: Global,
    u: &Subject,
    s: &State,
    block: usize,
    file: u32,
    nodes: &[Node],
    kind: NodeKind,
    x: Facts,
    many: usize,
    targets: Option<u32>,
) -> Result<Found<Reached<bool>, Item>, NoMemory>
    requires scene { IsScene u.now s.now }
    requires facts { AreFactsOf s.now x }
    ensures { IfOk result (FoundBy u.now s.now (λ x. x) (all_assigned (unit_of u.now) block file nodes.now kind (known_of s.now x) many (items nodes.now targets) 0)) }
{
    for i in 0..count(nodes, targets) {
        let t = target_at(nodes, targets, i);
        let found = nth_assigned(alloc, u, s, block, file, nodes, kind, x, many, t, i)?;
        if ends(&found) {
            return Ok(found);
        }
    }
    Ok(Found::Is(Reached::Got(true)))
}

/// Whether each value that is given is assignable to the operand in its place.
pub fn all_assigned(
    alloc: Global,
    u: &Subject,
    s: &State,
    block: usize,
    file: u32,
    nodes: &[Node],
    around: &Node,
    x: Facts,
) -> Result<Found<Reached<bool>, Item>, NoMemory>
    requires scene { IsScene u.now s.now }
    requires facts { AreFactsOf s.now x }
    ensures { IfOk result (FoundBy u.now s.now (λ x. x) (all_assigned (unit_of u.now) block file nodes.now around.now.kind (known_of s.now x) (names_of nodes.now around.now) (items nodes.now (part around.now 0)) 0)) }
{
    let many = name_count(nodes, around);
    let targets = part_of(around, 0);
    let found = each_assigned(
        alloc,
        u,
        s,
        block,
        file,
        nodes,
        around.kind,
        x,
        many,
        targets,
    )?;
    Ok(found)
}

// ---- to results

fn nth_returned(
    alloc: Global,
    u: &Subject,
    s: &State,
    x: Facts,
    many: usize,
    to: TypeId,
    i: usize,
) -> Result<Found<Reached<bool>, Item>, NoMemory>
    requires scene { IsScene u.now s.now }
    requires facts { AreFactsOf s.now x }
    requires to { IsTypeOf s.now to }
    ensures { IfOk result (FoundBy u.now s.now (λ x. x) (nth_returned (unit_of u.now) (known_of s.now x) many (type_in s.now to) i)) }
{
    match given_type(s, x, many, i) {
        Some(of) => {
            let found = type_assigned(alloc, u, s, of, to)?;
            Ok(found)
        }
        None => Ok(Found::Is(Reached::Got(true))),
    }
}

fn each_returned(
    alloc: Global,
    u: &Subject,
    s: &State,
    x: Facts,
    many: usize,
    results: &[TypeId],
) -> Result<Found<Reached<bool>, Item>, NoMemory>
    requires scene { IsScene u.now s.now }
    requires facts { AreFactsOf s.now x }
    requires results { AreBelow (type_count s.now.table) results.now }
    ensures { IfOk result (FoundBy u.now s.now (λ x. x) (all_returned (unit_of u.now) (known_of s.now x) many (types_of s.now results.now) 0)) }
{
    for i in 0..results.len() {
        let to = nth(s, results, i);
        let found = nth_returned(alloc, u, s, x, many, to, i)?;
        if ends(&found) {
            return Ok(found);
        }
    }
    Ok(Found::Is(Reached::Got(true)))
}

/// Whether each value that is given is assignable to the result in its place.
pub fn all_returned(
    alloc: Global,
    u: &Subject,
    s: &State,
    x: Facts,
    results: &[TypeId],
) -> Result<Found<Reached<bool>, Item>, NoMemory>
    requires scene { IsScene u.now s.now }
    requires facts { AreFactsOf s.now x }
    requires results { AreBelow (type_count s.now.table) results.now }
    ensures { IfOk result (FoundBy u.now s.now (λ x. x) (all_returned (unit_of u.now) (known_of s.now x) (length (types_of s.now results.now)) (types_of s.now results.now) 0)) }
{
    let many = many_of(s, results);
    let found = each_returned(alloc, u, s, x, many, results)?;
    Ok(found)
}
