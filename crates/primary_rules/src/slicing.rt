//! Slice expressions.
ghost use Rattle.std.specs.Prelude.{◌≡◌, option_map, IfSome};
ghost use Rattle.mark_walk.specs.Asks.{bind};
ghost use Rattle.mark_walk.specs.Telling.{tell};
ghost use Rattle.typed_tree.specs.Basics.{HasBasics};
ghost use Rattle.unit_read.specs.Subjects.{unit_of};
ghost use Rattle.rule_words.specs.Asking.{under_ask};
ghost use Rattle.rule_words.specs.Scenes.{sight, IsScene, type_in, IsTypeOf, MayBeTypeOf, part_in, IsSeenOf};
ghost use Rattle.rule_words.specs.Steps.{step_in, IsStepOf};
ghost use Rattle.type_answers.specs.Coming.{ComesTo};
ghost use Rattle.primary_rules.specs.InCode.{operand_in, IsOperandOf, shape_in, IsShapeOf, parts_of, ArePartsOf, chosen_of, AreChosenOf, given_in, IsGivenOf};
ghost use Rattle.primary_rules.specs.Operands.{standing};
ghost use Rattle.primary_rules.specs.Slicing.{good_bound, bound_at, bounded, with_max, with_high, with_low, sliced, slice_bounds, slice_of, pointed_slice, slice_pointed, has_max, slice_text, slice_array, slice_shape, slice_by, slice_rule};

use crate::bounds::{Chosen, Parts, are_in_order, are_indexes, are_within};
use crate::indexing::constant_length;
use crate::operand::{Operand, is_variable, operand_at, standing};
use crate::shape::{Shape, shape_of};
use rule_words::answered::{bad, silent};
use rule_words::{Answer, Seen, Step};
use type_answers::ask_under;
use type_model::{Term, TypeId};
use type_questions::Found;
use typed_marks::State;
use typed_tree::{BAD_INDEX, CANNOT_SLICE, INDEX_OUT_OF_RANGE, INDEXES_OUT_OF_ORDER, Mode};
use unit_read::Subject;

/// What is sliced: its length, where it is known, and what the expression gives.
#[derive(Drop)]
pub struct Given {
    pub size: Option<u64>,
    pub gives: Answer,
}

// ---- the tests

/// E42, E43, E45.
#[tactic(auto, unfolding(crate::specs::Slicing::bounded))]
fn bounded(s: &State, x: Given, b: Chosen) -> Step
    requires basics { HasBasics s.now.table }
    requires given { IsGivenOf s.now x }
    requires bounds { AreChosenOf s.now b }
    ensures is { step_in s.now result ≡ tell (sight s.now) (bounded (given_in s.now x) (chosen_of s.now b)) }
    ensures over { IsStepOf s.now result }
{
    // E42
    if !are_indexes(s, b) {
        return Step::Says(bad(BAD_INDEX));
    }
    // E43
    if !are_within(s, x.size, b) {
        return Step::Says(bad(INDEX_OUT_OF_RANGE));
    }
    // E45
    if !are_in_order(s, b) {
        return Step::Says(bad(INDEXES_OUT_OF_ORDER));
    }
    Step::Says(x.gives)
}

// ---- the indexes

fn good_bound(s: &State, x: Option<Operand>) -> Option<Option<Operand>>
    requires { IfSome x (IsOperandOf s.now) }
    ensures is { option_map (option_map (operand_in s.now)) result ≡ good_bound (option_map (operand_in s.now) x) }
    ensures within { IfSome result (λ b. IfSome b (IsOperandOf s.now)) }
{
    let _ = s;
    match x {
        Some(x) => Some(Some(x)),
        None => None,
    }
}

/// A bound that is left out, or the operand that it is, where it is good.
fn bound_at(s: &State, p: Option<Seen>) -> Option<Option<Operand>>
    requires { IfSome p (IsSeenOf s.now) }
    ensures is { option_map (option_map (operand_in s.now)) result ≡ bound_at (option_map (part_in s.now) p) }
    ensures within { IfSome result (λ b. IfSome b (IsOperandOf s.now)) }
{
    match p {
        Some(p) => good_bound(s, operand_at(s, p)),
        None => Some(None),
    }
}

fn with_max(
    s: &State,
    x: Given,
    low: Option<Operand>,
    high: Option<Operand>,
    max: Option<Operand>,
) -> Step
    requires basics { HasBasics s.now.table }
    requires given { IsGivenOf s.now x }
    requires low { IfSome low (IsOperandOf s.now) }
    requires high { IfSome high (IsOperandOf s.now) }
    requires max { IfSome max (IsOperandOf s.now) }
    ensures is { step_in s.now result ≡ tell (sight s.now) (with_max (given_in s.now x) (option_map (operand_in s.now) low) (option_map (operand_in s.now) high) (option_map (operand_in s.now) max)) }
    ensures over { IsStepOf s.now result }
{
    bounded(s, x, Chosen { low, high, max })
}

fn with_high(s: &State, x: Given, ps: Parts, low: Option<Operand>, high: Option<Operand>) -> Step
    requires basics { HasBasics s.now.table }
    requires given { IsGivenOf s.now x }
    requires parts { ArePartsOf s.now ps }
    requires low { IfSome low (IsOperandOf s.now) }
    requires high { IfSome high (IsOperandOf s.now) }
    ensures is { step_in s.now result ≡ tell (sight s.now) (with_high (given_in s.now x) (parts_of s.now ps) (option_map (operand_in s.now) low) (option_map (operand_in s.now) high)) }
    ensures over { IsStepOf s.now result }
{
    match bound_at(s, ps.max) {
        Some(max) => with_max(s, x, low, high, max),
        None => Step::Says(silent()),
    }
}

fn with_low(s: &State, x: Given, ps: Parts, low: Option<Operand>) -> Step
    requires basics { HasBasics s.now.table }
    requires given { IsGivenOf s.now x }
    requires parts { ArePartsOf s.now ps }
    requires low { IfSome low (IsOperandOf s.now) }
    ensures is { step_in s.now result ≡ tell (sight s.now) (with_low (given_in s.now x) (parts_of s.now ps) (option_map (operand_in s.now) low)) }
    ensures over { IsStepOf s.now result }
{
    match bound_at(s, ps.high) {
        Some(high) => with_high(s, x, ps, low, high),
        None => Step::Says(silent()),
    }
}

/// E42, E43, E45, where all indexes are good.
#[tactic(auto, unfolding(crate::specs::Slicing::slice_bounds))]
fn slice_bounds(s: &State, ps: Parts, x: Given) -> Step
    requires basics { HasBasics s.now.table }
    requires parts { ArePartsOf s.now ps }
    requires given { IsGivenOf s.now x }
    ensures is { step_in s.now result ≡ tell (sight s.now) (slice_bounds (parts_of s.now ps) (given_in s.now x)) }
    ensures over { IsStepOf s.now result }
{
    match bound_at(s, ps.low) {
        Some(low) => with_low(s, x, ps, low),
        None => Step::Says(silent()),
    }
}

// ---- what is sliced

/// An array gives a slice of its elements.
fn slice_of(s: &State, size: u64, of: TypeId) -> Given
    requires { IsTypeOf s.now of }
    ensures is { given_in s.now result ≡ slice_of size (type_in s.now of) }
    ensures over { IsGivenOf s.now result }
{
    let _ = s;
    Given {
        size: Some(size),
        gives: Answer::Type(Mode::Value, Term::Slice(of)),
    }
}

fn pointed_slice(s: &State, ps: Parts, shape: Shape) -> Step
    requires basics { HasBasics s.now.table }
    requires parts { ArePartsOf s.now ps }
    requires shape { IsShapeOf s.now shape }
    ensures is { step_in s.now result ≡ tell (sight s.now) (pointed_slice (parts_of s.now ps) (shape_in s.now shape)) }
    ensures over { IsStepOf s.now result }
{
    match shape {
        Shape::Arrays(size, of) => slice_bounds(s, ps, slice_of(s, size, of)),
        Shape::Texts => Step::Says(bad(CANNOT_SLICE)),
        Shape::Slices(_) => Step::Says(bad(CANNOT_SLICE)),
        Shape::Maps(_, _) => Step::Says(bad(CANNOT_SLICE)),
        Shape::Pointers(_) => Step::Says(bad(CANNOT_SLICE)),
        Shape::Channels(_, _) => Step::Says(bad(CANNOT_SLICE)),
        Shape::Interfaces => Step::Says(bad(CANNOT_SLICE)),
        Shape::Others => Step::Says(bad(CANNOT_SLICE)),
    }
}

#[tactic(auto, using(type_answers::proofs::ComingLaws::same_comes), unfolding(crate::specs::Slicing::slice_pointed))]
fn slice_pointed(u: &Subject, s: &State, ps: Parts, under: Option<TypeId>) -> Step
    requires scene { IsScene u.now s.now }
    requires parts { ArePartsOf s.now ps }
    requires under { MayBeTypeOf s.now under }
    ensures comes { ComesTo u.now s.now (slice_pointed (parts_of s.now ps) (option_map (type_in s.now) under)) result }
    ensures over { IsStepOf s.now result }
{
    let _ = u;
    match under {
        Some(under) => pointed_slice(s, ps, shape_of(s, under)),
        None => Step::Says(silent()),
    }
}

#[tactic(auto, using(type_answers::proofs::ComingLaws::bind_comes, type_answers::proofs::ComingLaws::bind_waits))]
fn slice_pointer(u: &Subject, s: &State, ps: Parts, of: TypeId) -> Step
    requires scene { IsScene u.now s.now }
    requires parts { ArePartsOf s.now ps }
    requires of { IsTypeOf s.now of }
    ensures comes { ComesTo u.now s.now (bind (under_ask (unit_of u.now) (type_in s.now of)) (slice_pointed (parts_of s.now ps))) result }
    ensures over { IsStepOf s.now result }
{
    match ask_under(u, s, of) {
        Found::Is(under) => slice_pointed(u, s, ps, under),
        Found::Wait(item) => Step::Waits(item),
    }
}

/// What has this type, sliced.
fn given_as(s: &State, size: Option<u64>, of: TypeId) -> Given
    requires { IsTypeOf s.now of }
    ensures is { given_in s.now result ≡ sliced size (standing Mode.Value (type_in s.now of)) }
    ensures over { IsGivenOf s.now result }
{
    Given {
        size,
        gives: standing(s, Mode::Value, of),
    }
}

fn has_max(s: &State, max: Option<Seen>) -> bool
    ensures { result ≡ has_max (option_map (part_in s.now) max) }
{
    let _ = s;
    match max {
        Some(_) => true,
        None => false,
    }
}

fn slice_text(s: &State, ps: Parts, x: Operand) -> Step
    requires basics { HasBasics s.now.table }
    requires parts { ArePartsOf s.now ps }
    requires operand { IsOperandOf s.now x }
    ensures is { step_in s.now result ≡ tell (sight s.now) (slice_text (parts_of s.now ps) (operand_in s.now x)) }
    ensures over { IsStepOf s.now result }
{
    if has_max(s, ps.max) {
        return Step::Says(bad(CANNOT_SLICE));
    }
    slice_bounds(s, ps, given_as(s, constant_length(s, x.value), x.last))
}

fn slice_array(s: &State, ps: Parts, x: Operand, size: u64, of: TypeId) -> Step
    requires basics { HasBasics s.now.table }
    requires parts { ArePartsOf s.now ps }
    requires operand { IsOperandOf s.now x }
    requires of { IsTypeOf s.now of }
    ensures is { step_in s.now result ≡ tell (sight s.now) (slice_array (parts_of s.now ps) (operand_in s.now x) size (type_in s.now of)) }
    ensures over { IsStepOf s.now result }
{
    if !is_variable(x.mode) {
        return Step::Says(bad(CANNOT_SLICE));
    }
    slice_bounds(s, ps, slice_of(s, size, of))
}

#[tactic(auto, using(type_answers::proofs::ComingLaws::same_comes), unfolding(crate::specs::Slicing::slice_shape))]
fn slice_shape(u: &Subject, s: &State, ps: Parts, x: Operand, shape: Shape) -> Step
    requires scene { IsScene u.now s.now }
    requires parts { ArePartsOf s.now ps }
    requires operand { IsOperandOf s.now x }
    requires shape { IsShapeOf s.now shape }
    ensures comes { ComesTo u.now s.now (slice_shape (unit_of u.now) (parts_of s.now ps) (operand_in s.now x) (shape_in s.now shape)) result }
    ensures over { IsStepOf s.now result }
{
    match shape {
        Shape::Texts => slice_text(s, ps, x),
        Shape::Slices(_) => slice_bounds(s, ps, given_as(s, None, x.last)),
        Shape::Arrays(size, of) => slice_array(s, ps, x, size, of),
        Shape::Maps(_, _) => Step::Says(bad(CANNOT_SLICE)),
        Shape::Pointers(of) => slice_pointer(u, s, ps, of),
        Shape::Channels(_, _) => Step::Says(bad(CANNOT_SLICE)),
        Shape::Interfaces => Step::Says(bad(CANNOT_SLICE)),
        Shape::Others => Step::Says(bad(CANNOT_SLICE)),
    }
}

fn slice_by(u: &Subject, s: &State, ps: Parts, x: Operand) -> Step
    requires scene { IsScene u.now s.now }
    requires parts { ArePartsOf s.now ps }
    requires operand { IsOperandOf s.now x }
    ensures comes { ComesTo u.now s.now (slice_by (unit_of u.now) (parts_of s.now ps) (operand_in s.now x)) result }
    ensures over { IsStepOf s.now result }
{
    let shape = shape_of(s, x.under);
    slice_shape(u, s, ps, x, shape)
}

/// What the rule of a slice expression comes to: E44, E42, E43, E45.
#[tactic(auto, unfolding(crate::specs::Slicing::slice_rule))]
pub fn judge_slice(u: &Subject, s: &State, a: Seen, ps: Parts) -> Step
    requires scene { IsScene u.now s.now }
    requires operand { IsSeenOf s.now a }
    requires parts { ArePartsOf s.now ps }
    ensures comes { ComesTo u.now s.now (slice_rule (unit_of u.now) (part_in s.now a) (parts_of s.now ps)) result }
    ensures over { IsStepOf s.now result }
{
    match operand_at(s, a) {
        Some(x) => slice_by(u, s, ps, x),
        None => Step::Says(silent()),
    }
}
