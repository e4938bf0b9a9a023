//! One value that stands for several names of a type that is written.
ghost use Rattle.std.specs.Prelude.{◌≡◌, ◌&&◌, IfOk, is_some, option_map};
ghost use Rattle.type_model.specs.GoTypes.{AreBelow};
ghost use Rattle.type_model.specs.Tables.{count as size};
ghost use Rattle.type_answers.specs.Coming.{ComesTo};
ghost use Rattle.typed_tree.specs.Basics.{HasBasics};
ghost use Rattle.typed_tree.specs.declared.mark.Mode.TheVariants as modes;
ghost use Rattle.unit_read.specs.Subjects.{unit_of, IsRead};
ghost use Rattle.rule_words.specs.Good.{known_of, AreFactsOf};
ghost use Rattle.rule_words.specs.Scenes.{IsScene, said, IsMarkOf, type_in, IsTypeOf, MayBeTypeOf};
ghost use Rattle.rule_words.specs.Steps.{IsStepOf};
ghost use Rattle.variable_rules.specs.InCode.{types_of};
ghost use Rattle.variable_rules.specs.Sharing.{is_shared_in, is_shared, with_second, shared_if, all_told, assigned_values, values_by, assigned_with, assigned_to, with_type, type_told, typed_shared, known_shared, shared_placed};

use crate::assigning::{all_assigned, by_methods};
use crate::forms::{name_count, shared_value, value_slot};
use crate::several::results_of;
use crate::wants::type_of;
use go_tree::Node;
use gv_base::{Kind, NoMemory};
use rule_words::good::{basic_type, beyond, broken, good, known, silent};
use rule_words::modes::is_type;
use rule_words::{Step, file_of};
use std::alloc::Global;
use type_answers::{ask_mark, ask_under};
use type_model::TypeId;
use type_questions::{Found, Reached};
use typed_marks::{Facts, Mark, Stage, State};
use typed_tree::{Mode, NOT_ASSIGNABLE};
use unit_read::{Place, Subject};

// ---- where

fn is_there(value: Option<u32>) -> bool
    ensures { result ≡ is_some value }
{
    match value {
        Some(_) => true,
        None => false,
    }
}

fn is_shared_in(u: &Subject, file: u32, p: Place, around: &Node, slot: usize) -> bool
    requires { IsRead u.now }
    ensures { result ≡ is_shared_in (unit_of u.now) file p around.now slot }
{
    p.slot == slot && is_there(shared_value(u, file, u.nodes_at(file), slot, around))
}

/// Whether a place is that of one value that may stand for all names.
pub fn is_shared(u: &Subject, block: usize, p: Place, around: &Node) -> bool
    requires { IsRead u.now }
    ensures { result ≡ is_shared (unit_of u.now) block p around.now }
{
    match value_slot(around.kind) {
        Some(slot) => is_shared_in(u, file_of(u, block), p, around, slot),
        None => false,
    }
}

// ---- E32

fn shared_if(u: &Subject, s: &State, x: Facts, holds: bool) -> Step
    requires scene { IsScene u.now s.now }
    requires facts { AreFactsOf s.now x }
    ensures comes { ComesTo u.now s.now (shared_if (known_of s.now x) holds) result }
    ensures over { IsStepOf s.now result }
{
    let _ = u;
    let _ = s;
    if holds {
        good(x)
    } else {
        broken(NOT_ASSIGNABLE)
    }
}

fn all_told(u: &Subject, s: &State, x: Facts, told: Reached<bool>) -> Step
    requires scene { IsScene u.now s.now }
    requires facts { AreFactsOf s.now x }
    ensures comes { ComesTo u.now s.now (all_told (known_of s.now x) told) result }
    ensures over { IsStepOf s.now result }
{
    match told {
        Reached::Got(holds) => shared_if(u, s, x, holds),
        Reached::Lost => silent(),
    }
}

#[tactic(auto, using(type_answers::proofs::ComingLaws::bind_comes, type_answers::proofs::ComingLaws::bind_waits))]
fn judge_values(
    alloc: Global,
    u: &Subject,
    s: &State,
    x: Facts,
    methods: bool,
    to: TypeId,
    list: &[TypeId],
) -> Result<Step, NoMemory>
    requires scene { IsScene u.now s.now }
    requires facts { AreFactsOf s.now x }
    requires to { IsTypeOf s.now to }
    requires below { AreBelow (size s.now.table) list.now }
    ensures comes { IfOk result (ComesTo u.now s.now (assigned_values (known_of s.now x) methods (type_in s.now to) (types_of s.now list.now))) }
    ensures over { IfOk result (IsStepOf s.now) }
{
    let found = all_assigned(alloc, u, s, methods, to, list)?;
    match found {
        Found::Is(told) => Ok(all_told(u, s, x, told)),
        Found::Wait(item) => Ok(Step::Waits(item)),
    }
}

fn judge_many(
    alloc: Global,
    u: &Subject,
    s: &State,
    x: Facts,
    count: usize,
    methods: bool,
    to: TypeId,
) -> Result<Step, NoMemory>
    requires scene { IsScene u.now s.now }
    requires facts { AreFactsOf s.now x }
    requires to { IsTypeOf s.now to }
    ensures comes { IfOk result (ComesTo u.now s.now (assigned_values (known_of s.now x) methods (type_in s.now to) (values_by modes.Many (known_of s.now x) count))) }
    ensures over { IfOk result (IsStepOf s.now) }
{
    let results = results_of(s, x.of);
    if results.len() == count {
        let step = judge_values(alloc, u, s, x, methods, to, results)?;
        Ok(step)
    } else {
        Ok(good(x))
    }
}

/// A value's type, and that of the second one.
fn with_second(alloc: Global, s: &State, of: TypeId) -> Result<Vec<TypeId>, NoMemory>
    requires basics { HasBasics s.now.table }
    requires of { IsTypeOf s.now of }
    ensures is { IfOk result (λ list. types_of s.now list.items ≡ with_second (type_in s.now of)) }
    ensures below { IfOk result (λ list. AreBelow (size s.now.table) list.items) }
{
    let mut list = Vec::new(alloc);
    list.push(of)?;
    list.push(basic_type(s, Kind::UntypedBool))?;
    Ok(list)
}

fn judge_pair(
    alloc: Global,
    u: &Subject,
    s: &State,
    x: Facts,
    methods: bool,
    to: TypeId,
) -> Result<Step, NoMemory>
    requires scene { IsScene u.now s.now }
    requires facts { AreFactsOf s.now x }
    requires to { IsTypeOf s.now to }
    ensures comes { IfOk result (ComesTo u.now s.now (assigned_values (known_of s.now x) methods (type_in s.now to) (with_second (type_in s.now x.last)))) }
    ensures over { IfOk result (IsStepOf s.now) }
{
    let list = with_second(alloc, s, x.last)?;
    let step = judge_values(alloc, u, s, x, methods, to, &list)?;
    Ok(step)
}

fn judge_second(
    alloc: Global,
    u: &Subject,
    s: &State,
    x: Facts,
    count: usize,
    methods: bool,
    to: TypeId,
) -> Result<Step, NoMemory>
    requires scene { IsScene u.now s.now }
    requires facts { AreFactsOf s.now x }
    requires to { IsTypeOf s.now to }
    ensures comes { IfOk result (ComesTo u.now s.now (assigned_values (known_of s.now x) methods (type_in s.now to) (values_by modes.CommaOk (known_of s.now x) count))) }
    ensures over { IfOk result (IsStepOf s.now) }
{
    if count == 2 {
        let step = judge_pair(alloc, u, s, x, methods, to)?;
        Ok(step)
    } else {
        Ok(good(x))
    }
}

fn judge_given(
    alloc: Global,
    u: &Subject,
    s: &State,
    x: Facts,
    count: usize,
    methods: bool,
    to: TypeId,
) -> Result<Step, NoMemory>
    requires scene { IsScene u.now s.now }
    requires facts { AreFactsOf s.now x }
    requires to { IsTypeOf s.now to }
    ensures comes { IfOk result (ComesTo u.now s.now (assigned_values (known_of s.now x) methods (type_in s.now to) (values_by x.mode (known_of s.now x) count))) }
    ensures over { IfOk result (IsStepOf s.now) }
{
    match x.mode {
        Mode::Many => {
            let step = judge_many(alloc, u, s, x, count, methods, to)?;
            Ok(step)
        }
        Mode::CommaOk => {
            let step = judge_second(alloc, u, s, x, count, methods, to)?;
            Ok(step)
        }
        Mode::MapIndex => {
            let step = judge_second(alloc, u, s, x, count, methods, to)?;
            Ok(step)
        }
        Mode::NoValue => Ok(good(x)),
        Mode::TypeName => Ok(good(x)),
        Mode::Constant => Ok(good(x)),
        Mode::Variable => Ok(good(x)),
        Mode::Value => Ok(good(x)),
        Mode::Nil => Ok(good(x)),
        Mode::Builtin => Ok(good(x)),
        Mode::Package => Ok(good(x)),
    }
}

fn judge_with(
    alloc: Global,
    u: &Subject,
    s: &State,
    x: Facts,
    count: usize,
    to: TypeId,
    under: Option<TypeId>,
) -> Result<Step, NoMemory>
    requires scene { IsScene u.now s.now }
    requires facts { AreFactsOf s.now x }
    requires to { IsTypeOf s.now to }
    requires under { MayBeTypeOf s.now under }
    ensures comes { IfOk result (ComesTo u.now s.now (assigned_with (known_of s.now x) count (type_in s.now to) (option_map (type_in s.now) under))) }
    ensures over { IfOk result (IsStepOf s.now) }
{
    let methods = by_methods(s, under);
    let step = judge_given(alloc, u, s, x, count, methods, to)?;
    Ok(step)
}

#[tactic(auto, using(type_answers::proofs::ComingLaws::bind_comes, type_answers::proofs::ComingLaws::bind_waits), unfolding(crate::specs::Sharing::assigned_to))]
fn judge_to(
    alloc: Global,
    u: &Subject,
    s: &State,
    x: Facts,
    count: usize,
    to: TypeId,
) -> Result<Step, NoMemory>
    requires scene { IsScene u.now s.now }
    requires facts { AreFactsOf s.now x }
    requires to { IsTypeOf s.now to }
    ensures comes { IfOk result (ComesTo u.now s.now (assigned_to (unit_of u.now) (known_of s.now x) count (type_in s.now to))) }
    ensures over { IfOk result (IsStepOf s.now) }
{
    let found = ask_under(u, s, to);
    match found {
        Found::Is(under) => {
            let step = judge_with(alloc, u, s, x, count, to, under)?;
            Ok(step)
        }
        Found::Wait(item) => Ok(Step::Waits(item)),
    }
}

fn judge_type(
    alloc: Global,
    u: &Subject,
    s: &State,
    x: Facts,
    count: usize,
    t: Facts,
) -> Result<Step, NoMemory>
    requires scene { IsScene u.now s.now }
    requires facts { AreFactsOf s.now x }
    requires written { AreFactsOf s.now t }
    ensures comes { IfOk result (ComesTo u.now s.now (with_type (unit_of u.now) (known_of s.now x) count (known_of s.now t))) }
    ensures over { IfOk result (IsStepOf s.now) }
{
    if is_type(t.mode) {
        let step = judge_to(alloc, u, s, x, count, t.of)?;
        Ok(step)
    } else {
        Ok(good(x))
    }
}

fn judge_told(
    alloc: Global,
    u: &Subject,
    s: &State,
    x: Facts,
    count: usize,
    m: Mark,
) -> Result<Step, NoMemory>
    requires scene { IsScene u.now s.now }
    requires facts { AreFactsOf s.now x }
    requires mark { IsMarkOf s.now m }
    ensures comes { IfOk result (ComesTo u.now s.now (type_told (unit_of u.now) (known_of s.now x) count (said s.now m))) }
    ensures over { IfOk result (IsStepOf s.now) }
{
    match known(s, m) {
        Some(t) => {
            let step = judge_type(alloc, u, s, x, count, t)?;
            Ok(step)
        }
        None => Ok(good(x)),
    }
}

#[tactic(auto, using(type_answers::proofs::ComingLaws::bind_comes, type_answers::proofs::ComingLaws::bind_waits), unfolding(crate::specs::Sharing::typed_shared))]
fn judge_typed(
    alloc: Global,
    u: &Subject,
    s: &State,
    block: usize,
    x: Facts,
    count: usize,
    t: u32,
) -> Result<Step, NoMemory>
    requires scene { IsScene u.now s.now }
    requires facts { AreFactsOf s.now x }
    ensures comes { IfOk result (ComesTo u.now s.now (typed_shared (unit_of u.now) block (known_of s.now x) count t)) }
    ensures over { IfOk result (IsStepOf s.now) }
{
    let found = ask_mark(u, s, Stage::Placed, block, t);
    match found {
        Found::Is(m) => {
            let step = judge_told(alloc, u, s, x, count, m)?;
            Ok(step)
        }
        Found::Wait(item) => Ok(Step::Waits(item)),
    }
}

fn judge_known(
    alloc: Global,
    u: &Subject,
    s: &State,
    block: usize,
    nodes: &[Node],
    around: &Node,
    x: Facts,
) -> Result<Step, NoMemory>
    requires scene { IsScene u.now s.now }
    requires facts { AreFactsOf s.now x }
    ensures comes { IfOk result (ComesTo u.now s.now (known_shared (unit_of u.now) block nodes.now around.now (known_of s.now x))) }
    ensures over { IfOk result (IsStepOf s.now) }
{
    match type_of(around) {
        Some(t) => {
            let step = judge_typed(alloc, u, s, block, x, name_count(nodes, around), t)?;
            Ok(step)
        }
        None => Ok(good(x)),
    }
}

/// What the place of a value that may stand for all names makes of its mark: E32. What isn't good stays.
#[tactic(auto, unfolding(crate::specs::Sharing::shared_placed))]
pub fn judge_shared(
    alloc: Global,
    u: &Subject,
    s: &State,
    block: usize,
    nodes: &[Node],
    around: &Node,
    m: Mark,
) -> Result<Step, NoMemory>
    requires scene { IsScene u.now s.now }
    requires mark { IsMarkOf s.now m }
    ensures comes { IfOk result (ComesTo u.now s.now (shared_placed (unit_of u.now) block nodes.now around.now (said s.now m))) }
    ensures over { IfOk result (IsStepOf s.now) }
{
    match m {
        Mark::Good(x) => {
            let step = judge_known(alloc, u, s, block, nodes, around, x)?;
            Ok(step)
        }
        Mark::Bad(rule) => Ok(broken(rule)),
        Mark::Outside(limit) => Ok(beyond(limit)),
        Mark::Silent => Ok(silent()),
        Mark::Wants(_, _) => Ok(silent()),
        Mark::Declared(_) => Ok(silent()),
    }
}
