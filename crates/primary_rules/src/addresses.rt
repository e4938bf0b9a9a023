//! Address operators.
ghost use Rattle.std.specs.Prelude.{◌≡◌, not, option_map};
ghost use Rattle.mark_walk.specs.Telling.{tell};
ghost use Rattle.typed_tree.specs.Basics.{HasBasics};
ghost use Rattle.unit_read.specs.Subjects.{unit_of};
ghost use Rattle.rule_words.specs.Scenes.{sight, IsScene, said, IsMarkOf, type_in, IsTypeOf, MayBeTypeOf, part_in, IsSeenOf};
ghost use Rattle.rule_words.specs.Steps.{step_in, IsStepOf};
ghost use Rattle.rule_words.specs.Good.{AreFactsOf, known_of};
ghost use Rattle.rule_words.specs.Nodes.{is_paren};
ghost use Rattle.type_answers.specs.Coming.{ComesTo};
ghost use Rattle.primary_rules.specs.InCode.{shape_in, IsShapeOf};
ghost use Rattle.primary_rules.specs.Addresses.{indirect_shape, indirect_under, indirect, star_of, star_rule, is_composite, passes, is_literal, part_is_literal, address_of, address_rule};

use crate::operand::{is_variable, standing};
use crate::shape::{Shape, shape_of};
use go_tree::{Node, NodeKind};
use package_objects::part_of;
use rule_words::answered::{bad, silent};
use rule_words::modes::is_type;
use rule_words::{Answer, Seen, Step, is_paren};
use type_answers::ask_under;
use type_model::{Term, TypeId};
use type_questions::Found;
use typed_marks::{Facts, Mark, State};
use typed_tree::{CANNOT_TAKE_ADDRESS, Mode, NOT_A_POINTER};
use unit_read::Subject;

// ---- `*x`

fn indirect_shape(s: &State, shape: Shape) -> Step
    requires { IsShapeOf s.now shape }
    ensures is { step_in s.now result ≡ tell (sight s.now) (indirect_shape (shape_in s.now shape)) }
    ensures over { IsStepOf s.now result }
{
    match shape {
        Shape::Pointers(of) => Step::Says(standing(s, Mode::Variable, of)),
        Shape::Texts => Step::Says(bad(NOT_A_POINTER)),
        Shape::Slices(_) => Step::Says(bad(NOT_A_POINTER)),
        Shape::Arrays(_, _) => Step::Says(bad(NOT_A_POINTER)),
        Shape::Maps(_, _) => Step::Says(bad(NOT_A_POINTER)),
        Shape::Channels(_, _) => Step::Says(bad(NOT_A_POINTER)),
        Shape::Interfaces => Step::Says(bad(NOT_A_POINTER)),
        Shape::Others => Step::Says(bad(NOT_A_POINTER)),
    }
}

#[tactic(auto, using(type_answers::proofs::ComingLaws::same_comes))]
fn indirect_under(u: &Subject, s: &State, under: Option<TypeId>) -> Step
    requires scene { IsScene u.now s.now }
    requires under { MayBeTypeOf s.now under }
    ensures comes { ComesTo u.now s.now (indirect_under (option_map (type_in s.now) under)) result }
    ensures over { IsStepOf s.now result }
{
    let _ = u;
    match under {
        Some(under) => indirect_shape(s, shape_of(s, under)),
        None => Step::Says(silent()),
    }
}

#[tactic(auto, using(type_answers::proofs::ComingLaws::bind_comes, type_answers::proofs::ComingLaws::bind_waits), unfolding(crate::specs::Addresses::indirect))]
fn indirect(u: &Subject, s: &State, x: Facts) -> Step
    requires scene { IsScene u.now s.now }
    requires facts { AreFactsOf s.now x }
    ensures comes { ComesTo u.now s.now (indirect (unit_of u.now) (known_of s.now x)) result }
    ensures over { IsStepOf s.now result }
{
    match ask_under(u, s, x.last) {
        Found::Is(under) => indirect_under(u, s, under),
        Found::Wait(item) => Step::Waits(item),
    }
}

/// Before a type it is a pointer type.
fn star_of(u: &Subject, s: &State, x: Facts) -> Step
    requires scene { IsScene u.now s.now }
    requires facts { AreFactsOf s.now x }
    ensures comes { ComesTo u.now s.now (star_of (unit_of u.now) (known_of s.now x)) result }
    ensures over { IsStepOf s.now result }
{
    if is_type(x.mode) {
        return Step::Says(Answer::Type(Mode::TypeName, Term::Pointer(x.of)));
    }
    indirect(u, s, x)
}

/// What the rule of `*x` comes to: E40.
#[tactic(auto, unfolding(crate::specs::Addresses::star_rule))]
pub fn judge_star(u: &Subject, s: &State, p: Seen) -> Step
    requires scene { IsScene u.now s.now }
    requires part { IsSeenOf s.now p }
    ensures comes { ComesTo u.now s.now (star_rule (unit_of u.now) (part_in s.now p)) result }
    ensures over { IsStepOf s.now result }
{
    match p.mark {
        Mark::Good(x) => star_of(u, s, x),
        Mark::Bad(_) => Step::Says(silent()),
        Mark::Outside(_) => Step::Says(silent()),
        Mark::Silent => Step::Says(silent()),
        Mark::Wants(_, _) => Step::Says(silent()),
        Mark::Declared(_) => Step::Says(silent()),
    }
}

// ---- `&x`

fn is_composite(kind: NodeKind) -> bool
    ensures { result ≡ is_composite kind }
{
    match kind {
        NodeKind::Composite => true,
        _ => false,
    }
}

/// No parentheses stand here.
fn is_bare(nodes: &[Node], n: usize) -> bool
    ensures { result ≡ not (passes is_paren nodes.now n) }
{
    match nodes.get(n) {
        Some(node) => !is_paren(node.kind),
        None => true,
    }
}

fn is_composite_at(nodes: &[Node], n: usize) -> bool
    ensures { result ≡ passes is_composite nodes.now n }
{
    match nodes.get(n) {
        Some(node) => is_composite(node.kind),
        None => false,
    }
}

/// A composite literal, parentheses aside.
fn is_literal(nodes: &[Node], n: usize) -> bool
    ensures { result ≡ is_literal nodes.now n }
{
    let mut at = n;
    'inward: while at > 0 {
        if is_bare(nodes, at) {
            return is_composite_at(nodes, at);
        }
        at -= 1;
    }
    is_composite_at(nodes, at)
}

fn part_is_literal(nodes: &[Node], node: &Node) -> bool
    ensures { result ≡ part_is_literal nodes.now node.now }
{
    match part_of(node, 0) {
        Some(n) => is_literal(nodes, n as usize),
        None => false,
    }
}

fn address_of(s: &State, literal: bool, x: Facts) -> Step
    requires { AreFactsOf s.now x }
    ensures is { step_in s.now result ≡ tell (sight s.now) (address_of literal (known_of s.now x)) }
    ensures over { IsStepOf s.now result }
{
    let _ = s;
    // E39
    if !(is_variable(x.mode) || literal) {
        return Step::Says(bad(CANNOT_TAKE_ADDRESS));
    }
    Step::Says(Answer::Type(Mode::Value, Term::Pointer(x.of)))
}

/// How far the rule of `&x` goes: E39.
#[tactic(auto, unfolding(crate::specs::Addresses::address_rule))]
pub fn judge_address(s: &State, nodes: &[Node], node: &Node, p: Seen) -> Step
    requires { IsSeenOf s.now p }
    ensures is { step_in s.now result ≡ tell (sight s.now) (address_rule nodes.now node.now (part_in s.now p)) }
    ensures over { IsStepOf s.now result }
{
    match p.mark {
        Mark::Good(x) => address_of(s, part_is_literal(nodes, node), x),
        Mark::Bad(_) => Step::Says(silent()),
        Mark::Outside(_) => Step::Says(silent()),
        Mark::Silent => Step::Says(silent()),
        Mark::Wants(_, _) => Step::Says(silent()),
        Mark::Declared(_) => Step::Says(silent()),
    }
}
