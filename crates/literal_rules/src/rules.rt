//! The rule of each node of a composite literal.
ghost use Rattle.std.specs.Prelude.{◌≡◌, option_map, IfOk};
ghost use Rattle.mark_walk.specs.Asks.{bind};
ghost use Rattle.mark_walk.specs.Telling.{tell};
ghost use Rattle.unit_read.specs.Subjects.{unit_of};
ghost use Rattle.unit_read.specs.Units.{nodes_at};
ghost use Rattle.rule_words.specs.Scenes.{sight, IsScene, said, IsMarkOf, type_in, IsTypeOf, MayBeTypeOf, parts_in, AreSeenOf};
ghost use Rattle.rule_words.specs.Steps.{step_in, IsStepOf};
ghost use Rattle.rule_words.specs.Wanting.{wanted_of, IsWantedOf};
ghost use Rattle.literal_rules.specs.Rules.{row_by, map_by, shape_rule, literal_told, braces_rule, braces_at, composite_rule, own_rule, inner_in, inner_rule, type_told, dots_in, dots_rule, form_rule, literal_rule};
ghost use Rattle.literal_rules.specs.Items.{keys_ask};
ghost use Rattle.literal_rules.specs.InCode.{shape_in, IsShapeOf, may_be_literal, MayBeLiteralOf};

use crate::braces::braces;
use crate::forms::{Form, form_of, is_composite};
use crate::items::keys;
use crate::marks::{bad, good, map_mark, nothing, row_mark, silent, struct_mark};
use crate::shape::{Literal, Shape};
use go_tree::{Node, NodeRef};
use gv_base::NoMemory;
use package_objects::{node_of, part_of};
use rule_words::good::known;
use rule_words::{Answer, Seen, Step, Wanted, look};
use std::alloc::Global;
use type_model::TypeId;
use type_questions::Found;
use typed_marks::{Mark, Stage, State};
use typed_tree::{BAD_LITERAL_TYPE, Mode};
use unit_read::{Place, Subject};

#[tactic(auto, using(rule_words::proofs::BindLaws::says_bind, rule_words::proofs::BindLaws::waits_bind))]
fn judge_row(
    alloc: Global,
    u: &Subject,
    s: &State,
    block: usize,
    file: u32,
    v: &Node,
    of: Option<TypeId>,
    e: TypeId,
    limit: u64,
) -> Result<Step, NoMemory>
    requires scene { IsScene u.now s.now }
    requires of { MayBeTypeOf s.now of }
    requires element { IsTypeOf s.now e }
    ensures is { IfOk result (λ step. step_in s.now step ≡ tell (sight s.now) (bind (keys_ask (unit_of u.now) block (nodes_at (unit_of u.now) file) v.now.parts) (row_by (option_map (type_in s.now) of) (type_in s.now e) limit))) }
    ensures over { IfOk result (IsStepOf s.now) }
{
    let found = keys(alloc, u, s, block, u.nodes_at(file), v.parts.as_slice())?;
    match found {
        Found::Is(list) => {
            let answer = row_mark(alloc, s, of, e, limit, &list)?;
            Ok(Step::Says(answer))
        }
        Found::Wait(item) => Ok(Step::Waits(item)),
    }
}

#[tactic(auto, using(rule_words::proofs::BindLaws::says_bind, rule_words::proofs::BindLaws::waits_bind))]
fn judge_map(
    alloc: Global,
    u: &Subject,
    s: &State,
    block: usize,
    file: u32,
    v: &Node,
    of: Option<TypeId>,
) -> Result<Step, NoMemory>
    requires scene { IsScene u.now s.now }
    requires of { MayBeTypeOf s.now of }
    ensures is { IfOk result (λ step. step_in s.now step ≡ tell (sight s.now) (bind (keys_ask (unit_of u.now) block (nodes_at (unit_of u.now) file) v.now.parts) (map_by (option_map (type_in s.now) of)))) }
    ensures over { IfOk result (IsStepOf s.now) }
{
    let found = keys(alloc, u, s, block, u.nodes_at(file), v.parts.as_slice())?;
    match found {
        Found::Is(list) => {
            let answer = map_mark(alloc, s, of, &list)?;
            Ok(Step::Says(answer))
        }
        Found::Wait(item) => Ok(Step::Waits(item)),
    }
}

fn judge_shape(
    alloc: Global,
    u: &Subject,
    s: &State,
    block: usize,
    file: u32,
    v: &Node,
    of: Option<TypeId>,
    shape: Shape,
) -> Result<Step, NoMemory>
    requires scene { IsScene u.now s.now }
    requires of { MayBeTypeOf s.now of }
    requires shape { IsShapeOf s.now shape }
    ensures is { IfOk result (λ step. step_in s.now step ≡ tell (sight s.now) (shape_rule (unit_of u.now) block file v.now (option_map (type_in s.now) of) (shape_in s.now shape))) }
    ensures over { IfOk result (IsStepOf s.now) }
{
    match shape {
        Shape::Fields(fields) => {
            let answer = struct_mark(alloc, u, s, file, of, fields, v)?;
            Ok(Step::Says(answer))
        }
        Shape::Row(e, limit) => {
            let step = judge_row(alloc, u, s, block, file, v, of, e, limit)?;
            Ok(step)
        }
        Shape::Table(_, _) => {
            let step = judge_map(alloc, u, s, block, file, v, of)?;
            Ok(step)
        }
        // E60
        Shape::Other => Ok(Step::Says(bad(BAD_LITERAL_TYPE))),
    }
}

// ---- literals

fn judge_told(
    alloc: Global,
    u: &Subject,
    s: &State,
    block: usize,
    file: u32,
    v: &Node,
    l: Option<Literal>,
) -> Result<Step, NoMemory>
    requires scene { IsScene u.now s.now }
    requires literal { MayBeLiteralOf s.now l }
    ensures is { IfOk result (λ step. step_in s.now step ≡ tell (sight s.now) (literal_told (unit_of u.now) block file v.now (may_be_literal s.now l))) }
    ensures over { IfOk result (IsStepOf s.now) }
{
    match l {
        Some(l) => {
            let step = judge_shape(alloc, u, s, block, file, v, l.of, l.shape)?;
            Ok(step)
        }
        None => Ok(Step::Says(silent())),
    }
}

#[tactic(auto, using(rule_words::proofs::BindLaws::says_bind, rule_words::proofs::BindLaws::waits_bind))]
fn judge_braces(
    alloc: Global,
    u: &Subject,
    s: &State,
    block: usize,
    at: NodeRef,
    v: &Node,
) -> Result<Step, NoMemory>
    requires scene { IsScene u.now s.now }
    ensures is { IfOk result (λ step. step_in s.now step ≡ tell (sight s.now) (braces_rule (unit_of u.now) block at v.now)) }
    ensures over { IfOk result (IsStepOf s.now) }
{
    match braces(u, s, block, at) {
        Found::Is(l) => {
            let step = judge_told(alloc, u, s, block, at.file, v, l)?;
            Ok(step)
        }
        Found::Wait(item) => Ok(Step::Waits(item)),
    }
}

fn judge_braces_at(
    alloc: Global,
    u: &Subject,
    s: &State,
    block: usize,
    file: u32,
    n: u32,
) -> Result<Step, NoMemory>
    requires scene { IsScene u.now s.now }
    ensures is { IfOk result (λ step. step_in s.now step ≡ tell (sight s.now) (braces_at (unit_of u.now) block file n)) }
    ensures over { IfOk result (IsStepOf s.now) }
{
    match node_of(u.nodes_at(file), n) {
        Some(v) => {
            let step = judge_braces(alloc, u, s, block, NodeRef { file, node: n }, v)?;
            Ok(step)
        }
        None => Ok(Step::Says(silent())),
    }
}

fn judge_composite(
    alloc: Global,
    u: &Subject,
    s: &State,
    block: usize,
    file: u32,
    node: &Node,
) -> Result<Step, NoMemory>
    requires scene { IsScene u.now s.now }
    ensures is { IfOk result (λ step. step_in s.now step ≡ tell (sight s.now) (composite_rule (unit_of u.now) block file node.now)) }
    ensures over { IfOk result (IsStepOf s.now) }
{
    match part_of(node, 1) {
        Some(n) => {
            let step = judge_braces_at(alloc, u, s, block, file, n)?;
            Ok(step)
        }
        None => Ok(Step::Says(silent())),
    }
}

// ---- braces

fn judge_own(
    alloc: Global,
    u: &Subject,
    s: &State,
    block: usize,
    at: NodeRef,
    v: &Node,
    around: &Node,
) -> Result<Step, NoMemory>
    requires scene { IsScene u.now s.now }
    ensures is { IfOk result (λ step. step_in s.now step ≡ tell (sight s.now) (own_rule (unit_of u.now) block at v.now around.now)) }
    ensures over { IfOk result (IsStepOf s.now) }
{
    if is_composite(around.kind) {
        Ok(Step::Says(nothing(s)))
    } else {
        let step = judge_braces(alloc, u, s, block, at, v)?;
        Ok(step)
    }
}

fn judge_in(
    alloc: Global,
    u: &Subject,
    s: &State,
    block: usize,
    at: NodeRef,
    v: &Node,
    p: Place,
) -> Result<Step, NoMemory>
    requires scene { IsScene u.now s.now }
    ensures is { IfOk result (λ step. step_in s.now step ≡ tell (sight s.now) (inner_in (unit_of u.now) block at v.now p)) }
    ensures over { IfOk result (IsStepOf s.now) }
{
    let outer = NodeRef {
        file: at.file,
        node: p.around,
    };
    match u.node_at(outer) {
        Some(around) => {
            let step = judge_own(alloc, u, s, block, at, v, around)?;
            Ok(step)
        }
        None => Ok(Step::Says(silent())),
    }
}

fn judge_inner(
    alloc: Global,
    u: &Subject,
    s: &State,
    block: usize,
    at: NodeRef,
    v: &Node,
) -> Result<Step, NoMemory>
    requires scene { IsScene u.now s.now }
    ensures is { IfOk result (λ step. step_in s.now step ≡ tell (sight s.now) (inner_rule (unit_of u.now) block at v.now)) }
    ensures over { IfOk result (IsStepOf s.now) }
{
    match u.place_at(at) {
        Some(p) => {
            let step = judge_in(alloc, u, s, block, at, v, p)?;
            Ok(step)
        }
        None => Ok(Step::Says(silent())),
    }
}

// ---- `[...]T`

fn type_told(s: &State, m: Mark) -> Step
    requires { IsMarkOf s.now m }
    ensures is { step_in s.now result ≡ tell (sight s.now) (type_told (said s.now m)) }
    ensures over { IsStepOf s.now result }
{
    match known(s, m) {
        Some(x) => Step::Says(Answer::Mark(good(Mode::TypeName, x.of))),
        None => Step::Says(silent()),
    }
}

fn judge_dots_in(u: &Subject, s: &State, block: usize, p: Place) -> Step
    requires { IsScene u.now s.now }
    ensures is { step_in s.now result ≡ tell (sight s.now) (dots_in (unit_of u.now) block p) }
    ensures over { IsStepOf s.now result }
{
    match look(u, s, Stage::Before, block, p.around) {
        Found::Is(m) => type_told(s, m),
        Found::Wait(item) => Step::Waits(item),
    }
}

fn judge_dots(u: &Subject, s: &State, block: usize, at: NodeRef) -> Step
    requires { IsScene u.now s.now }
    ensures is { step_in s.now result ≡ tell (sight s.now) (dots_rule (unit_of u.now) block at) }
    ensures over { IsStepOf s.now result }
{
    match u.place_at(at) {
        Some(p) => judge_dots_in(u, s, block, p),
        None => Step::Says(silent()),
    }
}

// ---- all

fn judge_form(
    alloc: Global,
    u: &Subject,
    s: &State,
    block: usize,
    at: NodeRef,
    node: &Node,
    form: Form,
) -> Result<Step, NoMemory>
    requires scene { IsScene u.now s.now }
    ensures is { IfOk result (λ step. step_in s.now step ≡ tell (sight s.now) (form_rule (unit_of u.now) block at node.now form)) }
    ensures over { IfOk result (IsStepOf s.now) }
{
    match form {
        Form::Composite => {
            let step = judge_composite(alloc, u, s, block, at.file, node)?;
            Ok(step)
        }
        Form::Braces => {
            let step = judge_inner(alloc, u, s, block, at, node)?;
            Ok(step)
        }
        Form::Pair => Ok(Step::Says(nothing(s))),
        Form::Dots => Ok(judge_dots(u, s, block, at)),
        Form::Other => Ok(Step::Says(silent())),
    }
}

/// How far the rule of a node of a composite literal goes.
pub fn judge_literal(
    alloc: Global,
    u: &Subject,
    s: &State,
    block: usize,
    at: NodeRef,
    node: &Node,
    parts: &[Seen],
    wanted: Wanted,
) -> Result<Step, NoMemory>
    requires scene { IsScene u.now s.now }
    requires parts { AreSeenOf s.now parts.now }
    requires wanted { IsWantedOf s.now wanted }
    ensures is { IfOk result (λ step. step_in s.now step ≡ tell (sight s.now) (literal_rule (unit_of u.now) block at node.now (parts_in s.now parts.now) (wanted_of s.now wanted))) }
    ensures over { IfOk result (IsStepOf s.now) }
{
    let _ = parts;
    let _ = wanted;
    let form = form_of(node.kind);
    let step = judge_form(alloc, u, s, block, at, node, form)?;
    Ok(step)
}
