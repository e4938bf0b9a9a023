//! The rule of each type expression and declaration, by what it is.
ghost use Rattle.std.specs.Prelude.{◌≡◌, IfOk};
ghost use Rattle.mark_walk.specs.Telling.{tell};
ghost use Rattle.typed_tree.specs.Basics.{HasBasics};
ghost use Rattle.unit_read.specs.Subjects.{unit_of};
ghost use Rattle.rule_words.specs.Scenes.{sight, IsScene, part_in, IsSeenOf, parts_in, AreSeenOf};
ghost use Rattle.rule_words.specs.Steps.{step_in, IsStepOf};
ghost use Rattle.rule_words.specs.Wanting.{wanted_of, IsWantedOf};
ghost use Rattle.decl_rules.specs.Specifications.{member_rule};
ghost use Rattle.type_rules.specs.Types.{same_rule, pointing_rule};
ghost use Rattle.decl_rules.specs.Rules.{decl_rule, simple_rule, simple_of, member_of, in_member, method_rule, signed_rule, listed_rule, limited, import_rule, line_rule, line_of, or_line, or_member, or_listed, or_signed};

use crate::declared::{constants, is_fit, nothing};
use crate::forms::{
    Line, Listed, Member, Signed, Simple, line_form, listed_form, member_form, signed_form,
    simple_form,
};
use go_tree::{Node, NodeRef};
use gv_base::NoMemory;
use rule_words::good::{beyond, broken, part_at, silent};
use rule_words::{Seen, Step, Wanted};
use std::alloc::Global;
use type_rules::fields::field;
use type_rules::interfaces::interface;
use type_rules::receivers::list;
use type_rules::signatures::judge_signature;
use type_rules::structs::structure;
use type_rules::types::{array, chan, map, pointing, same, slice};
use typed_marks::State;
use typed_tree::{DUPLICATE_MEMBER, Limit};
use unit_read::Subject;

fn judge_simple(s: &State, form: Simple, a: Seen, b: Seen) -> Step
    requires a { IsSeenOf s.now a }
    requires b { IsSeenOf s.now b }
    ensures is { step_in s.now result ≡ tell (sight s.now) (simple_rule form (part_in s.now a) (part_in s.now b)) }
    ensures over { IsStepOf s.now result }
{
    match form {
        Simple::Slice => slice(s, a),
        Simple::Array => array(s, a, b),
        Simple::Map => map(s, a, b),
        Simple::Chan(direction) => chan(s, direction, a),
        Simple::Same => same(s, a),
    }
}

fn of_simple(s: &State, form: Simple, parts: &[Seen]) -> Step
    requires { AreSeenOf s.now parts.now }
    ensures is { step_in s.now result ≡ tell (sight s.now) (simple_of (parts_in s.now parts.now) form) }
    ensures over { IsStepOf s.now result }
{
    let first = part_at(s, parts, 0);
    let second = part_at(s, parts, 1);
    judge_simple(s, form, first, second)
}

fn embedded(u: &Subject, s: &State, at: NodeRef, p: Seen) -> Step
    requires scene { IsScene u.now s.now }
    requires part { IsSeenOf s.now p }
    ensures is { step_in s.now result ≡ tell (sight s.now) (member_rule (unit_of u.now) at (same_rule (part_in s.now p))) }
    ensures over { IsStepOf s.now result }
{
    if u.is_repeat(at) {
        return broken(DUPLICATE_MEMBER);
    }
    same(s, p)
}

fn embedded_pointer(u: &Subject, s: &State, at: NodeRef, p: Seen) -> Step
    requires scene { IsScene u.now s.now }
    requires part { IsSeenOf s.now p }
    ensures is { step_in s.now result ≡ tell (sight s.now) (member_rule (unit_of u.now) at (pointing_rule (part_in s.now p))) }
    ensures over { IsStepOf s.now result }
{
    if u.is_repeat(at) {
        return broken(DUPLICATE_MEMBER);
    }
    pointing(s, p)
}

fn judge_member(u: &Subject, s: &State, at: NodeRef, node: &Node, p: Seen, form: Member) -> Step
    requires scene { IsScene u.now s.now }
    requires part { IsSeenOf s.now p }
    ensures is { step_in s.now result ≡ tell (sight s.now) (member_of (unit_of u.now) at node.now (part_in s.now p) form) }
    ensures over { IsStepOf s.now result }
{
    match form {
        Member::Field => field(u, s, at.file, u.nodes_at(at.file), node, p),
        Member::Embedded => embedded(u, s, at, p),
        Member::EmbeddedPointer => embedded_pointer(u, s, at, p),
    }
}

fn of_member(u: &Subject, s: &State, at: NodeRef, node: &Node, parts: &[Seen], form: Member) -> Step
    requires scene { IsScene u.now s.now }
    requires parts { AreSeenOf s.now parts.now }
    ensures is { step_in s.now result ≡ tell (sight s.now) (in_member (unit_of u.now) at node.now (parts_in s.now parts.now) form) }
    ensures over { IsStepOf s.now result }
{
    let first = part_at(s, parts, 0);
    judge_member(u, s, at, node, first, form)
}

/// A method of an interface: E14, then its signature.
fn method(
    alloc: Global,
    u: &Subject,
    s: &State,
    block: usize,
    at: NodeRef,
    node: &Node,
) -> Result<Step, NoMemory>
    requires { IsScene u.now s.now }
    ensures is { IfOk result (λ step. step_in s.now step ≡ tell (sight s.now) (method_rule (unit_of u.now) block at node.now)) }
    ensures over { IfOk result (IsStepOf s.now) }
{
    if u.is_repeat(at) {
        return Ok(broken(DUPLICATE_MEMBER));
    }
    let step = judge_signature(alloc, u, s, block, u.nodes_at(at.file), node, 1)?;
    Ok(step)
}

fn of_signed(
    alloc: Global,
    u: &Subject,
    s: &State,
    block: usize,
    at: NodeRef,
    node: &Node,
    form: Signed,
) -> Result<Step, NoMemory>
    requires { IsScene u.now s.now }
    ensures is { IfOk result (λ step. step_in s.now step ≡ tell (sight s.now) (signed_rule (unit_of u.now) block at node.now form)) }
    ensures over { IfOk result (IsStepOf s.now) }
{
    let nodes = u.nodes_at(at.file);
    match form {
        Signed::FuncType => {
            let step = judge_signature(alloc, u, s, block, nodes, node, 0)?;
            Ok(step)
        }
        Signed::FuncDecl => {
            let step = judge_signature(alloc, u, s, block, nodes, node, 1)?;
            Ok(step)
        }
        Signed::MethodDecl => {
            let step = judge_signature(alloc, u, s, block, nodes, node, 2)?;
            Ok(step)
        }
        Signed::Method => {
            let step = method(alloc, u, s, block, at, node)?;
            Ok(step)
        }
    }
}

fn of_listed(
    alloc: Global,
    u: &Subject,
    s: &State,
    at: NodeRef,
    node: &Node,
    parts: &[Seen],
    form: Listed,
) -> Result<Step, NoMemory>
    requires scene { IsScene u.now s.now }
    requires parts { AreSeenOf s.now parts.now }
    ensures is { IfOk result (λ step. step_in s.now step ≡ tell (sight s.now) (listed_rule (unit_of u.now) at node.now (parts_in s.now parts.now) form)) }
    ensures over { IfOk result (IsStepOf s.now) }
{
    match form {
        Listed::Params => {
            let step = list(alloc, u, s, at, node, parts)?;
            Ok(step)
        }
        Listed::Struct => {
            let step = structure(alloc, u, s, at.file, node, parts)?;
            Ok(step)
        }
        Listed::Interface => {
            let step = interface(alloc, u, s, at.file, node, parts)?;
            Ok(step)
        }
    }
}

fn limited(s: &State, limit: Option<Limit>) -> Step
    requires { HasBasics s.now.table }
    ensures is { step_in s.now result ≡ tell (sight s.now) (limited limit) }
    ensures over { IsStepOf s.now result }
{
    match limit {
        Some(limit) => beyond(limit),
        None => nothing(s),
    }
}

fn judge_import(u: &Subject, s: &State, at: NodeRef) -> Step
    requires { IsScene u.now s.now }
    ensures is { step_in s.now result ≡ tell (sight s.now) (import_rule (unit_of u.now) at) }
    ensures over { IsStepOf s.now result }
{
    match u.lead_at(at) {
        Some(lead) => limited(s, lead.limit),
        None => nothing(s),
    }
}

fn judge_line(u: &Subject, s: &State, at: NodeRef, p: Seen, form: Line) -> Step
    requires scene { IsScene u.now s.now }
    requires part { IsSeenOf s.now p }
    ensures is { step_in s.now result ≡ tell (sight s.now) (line_rule (unit_of u.now) at (part_in s.now p) form) }
    ensures over { IsStepOf s.now result }
{
    match form {
        Line::Constants => constants(u, s, at, true),
        Line::Typed => constants(u, s, at, is_fit(s, p.under)),
        Line::Import => judge_import(u, s, at),
        Line::Plain => nothing(s),
    }
}

fn of_line(u: &Subject, s: &State, at: NodeRef, parts: &[Seen], form: Line) -> Step
    requires scene { IsScene u.now s.now }
    requires parts { AreSeenOf s.now parts.now }
    ensures is { step_in s.now result ≡ tell (sight s.now) (line_of (unit_of u.now) at (parts_in s.now parts.now) form) }
    ensures over { IsStepOf s.now result }
{
    let first = part_at(s, parts, 0);
    judge_line(u, s, at, first, form)
}

fn or_line(u: &Subject, s: &State, at: NodeRef, node: &Node, parts: &[Seen]) -> Step
    requires scene { IsScene u.now s.now }
    requires parts { AreSeenOf s.now parts.now }
    ensures is { step_in s.now result ≡ tell (sight s.now) (or_line (unit_of u.now) at node.now (parts_in s.now parts.now)) }
    ensures over { IsStepOf s.now result }
{
    match line_form(node.kind) {
        Some(form) => of_line(u, s, at, parts, form),
        None => silent(),
    }
}

fn or_member(u: &Subject, s: &State, at: NodeRef, node: &Node, parts: &[Seen]) -> Step
    requires scene { IsScene u.now s.now }
    requires parts { AreSeenOf s.now parts.now }
    ensures is { step_in s.now result ≡ tell (sight s.now) (or_member (unit_of u.now) at node.now (parts_in s.now parts.now)) }
    ensures over { IsStepOf s.now result }
{
    match member_form(node.kind) {
        Some(form) => of_member(u, s, at, node, parts, form),
        None => or_line(u, s, at, node, parts),
    }
}

fn or_listed(
    alloc: Global,
    u: &Subject,
    s: &State,
    at: NodeRef,
    node: &Node,
    parts: &[Seen],
) -> Result<Step, NoMemory>
    requires scene { IsScene u.now s.now }
    requires parts { AreSeenOf s.now parts.now }
    ensures is { IfOk result (λ step. step_in s.now step ≡ tell (sight s.now) (or_listed (unit_of u.now) at node.now (parts_in s.now parts.now))) }
    ensures over { IfOk result (IsStepOf s.now) }
{
    match listed_form(node.kind) {
        Some(form) => {
            let step = of_listed(alloc, u, s, at, node, parts, form)?;
            Ok(step)
        }
        None => Ok(or_member(u, s, at, node, parts)),
    }
}

fn or_signed(
    alloc: Global,
    u: &Subject,
    s: &State,
    block: usize,
    at: NodeRef,
    node: &Node,
    parts: &[Seen],
) -> Result<Step, NoMemory>
    requires scene { IsScene u.now s.now }
    requires parts { AreSeenOf s.now parts.now }
    ensures is { IfOk result (λ step. step_in s.now step ≡ tell (sight s.now) (or_signed (unit_of u.now) block at node.now (parts_in s.now parts.now))) }
    ensures over { IfOk result (IsStepOf s.now) }
{
    match signed_form(node.kind) {
        Some(form) => {
            let step = of_signed(alloc, u, s, block, at, node, form)?;
            Ok(step)
        }
        None => {
            let step = or_listed(alloc, u, s, at, node, parts)?;
            Ok(step)
        }
    }
}

/// The mark of a type expression or a declaration from its parts as they are read, or what it waits for.
pub fn judge_decl(
    alloc: Global,
    u: &Subject,
    s: &State,
    block: usize,
    at: NodeRef,
    node: &Node,
    parts: &[Seen],
    wanted: Wanted,
) -> Result<Step, NoMemory>
    requires scene { IsScene u.now s.now }
    requires parts { AreSeenOf s.now parts.now }
    requires wanted { IsWantedOf s.now wanted }
    ensures is { IfOk result (λ step. step_in s.now step ≡ tell (sight s.now) (decl_rule (unit_of u.now) block at node.now (parts_in s.now parts.now) (wanted_of s.now wanted))) }
    ensures over { IfOk result (IsStepOf s.now) }
{
    let _ = wanted;
    match simple_form(node.kind) {
        Some(form) => Ok(of_simple(s, form, parts)),
        None => {
            let step = or_signed(alloc, u, s, block, at, node, parts)?;
            Ok(step)
        }
    }
}
