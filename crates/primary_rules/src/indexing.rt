//! Index expressions.
ghost use Rattle.std.specs.Prelude.{◌≡◌, ◌||◌, option_map};
ghost use Rattle.mark_walk.specs.Asks.{bind};
ghost use Rattle.mark_walk.specs.Telling.{tell};
ghost use Rattle.type_model.specs.GoTypes.{BasicType};
ghost use Rattle.type_rel.specs.Kinds.{is_untyped, is_integer};
ghost use Rattle.typed_marks.specs.Meanings.{constant_at};
ghost use Rattle.typed_tree.specs.Basics.{HasBasics};
ghost use Rattle.unit_read.specs.Subjects.{unit_of};
ghost use Rattle.rule_words.specs.Asking.{under_ask};
ghost use Rattle.rule_words.specs.Scenes.{sight, IsScene, type_in, IsTypeOf, MayBeTypeOf, part_in, IsSeenOf};
ghost use Rattle.rule_words.specs.Steps.{step_in, IsStepOf};
ghost use Rattle.rule_words.specs.Types.{is_of};
ghost use Rattle.type_answers.specs.Coming.{ComesTo};
ghost use Rattle.primary_rules.specs.InCode.{operand_in, IsOperandOf, shape_in, IsShapeOf, elements_in};
ghost use Rattle.primary_rules.specs.Indexing.{indexes_by, is_index, text_length, constant_length, is_below, lies_below, is_in_range, elements, index_operand, index_part, pointed_shape, index_pointed, index_shape, index_by, index_rule};

use crate::operand::{Operand, is_variable, operand_at, part_mode, standing};
use crate::shape::{Shape, shape_of};
use gv_base::{Const, Kind};
use rule_words::answered::{bad, silent};
use rule_words::good::basic_type;
use rule_words::types::{counted, is_integer, is_untyped};
use rule_words::values::{fits_in, value_at};
use rule_words::{Seen, Step};
use type_answers::ask_under;
use type_model::TypeId;
use type_questions::Found;
use typed_marks::{ConstId, State};
use typed_tree::{BAD_INDEX, CANNOT_INDEX, INDEX_OUT_OF_RANGE, Mode};
use unit_read::Subject;

// ---- E42

fn is_whole(s: &State, i: Operand) -> bool
    requires basics { HasBasics s.now.table }
    requires operand { IsOperandOf s.now i }
    ensures { result ≡ (is_of is_untyped (type_in s.now i.of) || is_of is_integer (type_in s.now i.under)) }
{
    is_untyped(s, i.of) || is_integer(s, i.under)
}

fn indexes_by(s: &State, i: Operand, value: Option<ConstId>) -> bool
    requires basics { HasBasics s.now.table }
    requires operand { IsOperandOf s.now i }
    ensures { result ≡ indexes_by (operand_in s.now i) (constant_at s.now.constants.items value) }
{
    match value_at(s, value) {
        Some(c) => is_whole(s, i) && fits_in(c, Kind::Int),
        None => is_integer(s, counted(s, i.of, i.under)),
    }
}

/// An operand that may stand for an index.
#[tactic(auto, unfolding(crate::specs::Indexing::is_index))]
pub fn is_index(s: &State, i: Operand) -> bool
    requires basics { HasBasics s.now.table }
    requires operand { IsOperandOf s.now i }
    ensures { result ≡ is_index (operand_in s.now i) }
{
    indexes_by(s, i, i.value)
}

// ---- E43

fn text_length(c: &Const) -> Option<u64>
    ensures { result ≡ text_length c.now }
{
    match c {
        Const::Text(text) => Some(text.bytes().len() as u64),
        Const::Int(_) => None,
        Const::Truth(_) => None,
    }
}

/// The length of a constant string.
pub fn constant_length(s: &State, value: Option<ConstId>) -> Option<u64>
    ensures { result ≡ constant_length (constant_at s.now.constants.items value) }
{
    match value_at(s, value) {
        Some(c) => text_length(c),
        None => None,
    }
}

fn is_below(n: i128, size: Option<u64>) -> bool
    ensures { result ≡ is_below n size }
{
    match size {
        Some(many) => !(many as i128 <= n),
        None => true,
    }
}

fn lies_below(size: Option<u64>, c: &Const) -> bool
    ensures { result ≡ lies_below size c.now }
{
    match c {
        Const::Int(n) => 0 <= *n && is_below(*n, size),
        Const::Truth(_) => true,
        Const::Text(_) => true,
    }
}

/// A constant isn't negative, and below the length.
#[tactic(auto, unfolding(crate::specs::Indexing::is_in_range))]
fn is_in_range(s: &State, size: Option<u64>, value: Option<ConstId>) -> bool
    ensures { result ≡ is_in_range size (constant_at s.now.constants.items value) }
{
    match value_at(s, value) {
        Some(c) => lies_below(size, c),
        None => true,
    }
}

// ---- elements

/// What is indexed by integers: the type of an element, what one stands for, and how many there are where that is known.
#[derive(Clone, Copy, PartialEq, Eq, Drop)]
pub struct Elements {
    pub of: TypeId,
    pub mode: Mode,
    pub size: Option<u64>,
}

fn index_operand(s: &State, e: Elements, i: Operand) -> Step
    requires basics { HasBasics s.now.table }
    requires elements { IsTypeOf s.now e.of }
    requires operand { IsOperandOf s.now i }
    ensures is { step_in s.now result ≡ tell (sight s.now) (index_operand (elements_in s.now e) (operand_in s.now i)) }
    ensures over { IsStepOf s.now result }
{
    // E42
    if !is_index(s, i) {
        return Step::Says(bad(BAD_INDEX));
    }
    // E43
    if !is_in_range(s, e.size, i.value) {
        return Step::Says(bad(INDEX_OUT_OF_RANGE));
    }
    Step::Says(standing(s, e.mode, e.of))
}

#[tactic(auto, unfolding(crate::specs::Indexing::index_part))]
fn index_part(s: &State, b: Seen, e: Elements) -> Step
    requires basics { HasBasics s.now.table }
    requires part { IsSeenOf s.now b }
    requires elements { IsTypeOf s.now e.of }
    ensures is { step_in s.now result ≡ tell (sight s.now) (index_part (part_in s.now b) (elements_in s.now e)) }
    ensures over { IsStepOf s.now result }
{
    match operand_at(s, b) {
        Some(i) => index_operand(s, e, i),
        None => Step::Says(silent()),
    }
}

fn pointed_shape(s: &State, b: Seen, shape: Shape) -> Step
    requires basics { HasBasics s.now.table }
    requires part { IsSeenOf s.now b }
    requires shape { IsShapeOf s.now shape }
    ensures is { step_in s.now result ≡ tell (sight s.now) (pointed_shape (part_in s.now b) (shape_in s.now shape)) }
    ensures over { IsStepOf s.now result }
{
    match shape {
        Shape::Arrays(size, of) => index_part(s, b, elements_of(of, Mode::Variable, Some(size))),
        Shape::Texts => Step::Says(bad(CANNOT_INDEX)),
        Shape::Slices(_) => Step::Says(bad(CANNOT_INDEX)),
        Shape::Maps(_, _) => Step::Says(bad(CANNOT_INDEX)),
        Shape::Pointers(_) => Step::Says(bad(CANNOT_INDEX)),
        Shape::Channels(_, _) => Step::Says(bad(CANNOT_INDEX)),
        Shape::Interfaces => Step::Says(bad(CANNOT_INDEX)),
        Shape::Others => Step::Says(bad(CANNOT_INDEX)),
    }
}

fn elements_of(of: TypeId, mode: Mode, size: Option<u64>) -> Elements
    ensures { result ≡ record { of = of; mode = mode; size = size } }
{
    Elements { of, mode, size }
}

/// What a pointer points to is an array.
#[tactic(auto, using(type_answers::proofs::ComingLaws::same_comes), unfolding(crate::specs::Indexing::index_pointed))]
fn index_pointed(u: &Subject, s: &State, b: Seen, under: Option<TypeId>) -> Step
    requires scene { IsScene u.now s.now }
    requires part { IsSeenOf s.now b }
    requires under { MayBeTypeOf s.now under }
    ensures comes { ComesTo u.now s.now (index_pointed (part_in s.now b) (option_map (type_in s.now) under)) result }
    ensures over { IsStepOf s.now result }
{
    let _ = u;
    match under {
        Some(under) => pointed_shape(s, b, shape_of(s, under)),
        None => Step::Says(silent()),
    }
}

#[tactic(auto, using(type_answers::proofs::ComingLaws::bind_comes, type_answers::proofs::ComingLaws::bind_waits))]
fn index_pointer(u: &Subject, s: &State, b: Seen, of: TypeId) -> Step
    requires scene { IsScene u.now s.now }
    requires part { IsSeenOf s.now b }
    requires of { IsTypeOf s.now of }
    ensures comes { ComesTo u.now s.now (bind (under_ask (unit_of u.now) (type_in s.now of)) (index_pointed (part_in s.now b))) result }
    ensures over { IsStepOf s.now result }
{
    match ask_under(u, s, of) {
        Found::Is(under) => index_pointed(u, s, b, under),
        Found::Wait(item) => Step::Waits(item),
    }
}

#[tactic(auto, using(type_answers::proofs::ComingLaws::same_comes), unfolding(crate::specs::Indexing::index_shape))]
fn index_shape(u: &Subject, s: &State, b: Seen, x: Operand, shape: Shape) -> Step
    requires scene { IsScene u.now s.now }
    requires part { IsSeenOf s.now b }
    requires operand { IsOperandOf s.now x }
    requires shape { IsShapeOf s.now shape }
    ensures comes { ComesTo u.now s.now (index_shape (unit_of u.now) (part_in s.now b) (operand_in s.now x) (shape_in s.now shape)) result }
    ensures over { IsStepOf s.now result }
{
    match shape {
        Shape::Texts => index_text(s, b, x.value),
        Shape::Slices(of) => index_part(s, b, elements_of(of, Mode::Variable, None)),
        Shape::Arrays(size, of) => {
            index_part(
                s,
                b,
                elements_of(of, part_mode(is_variable(x.mode)), Some(size)),
            )
        }
        Shape::Maps(_, of) => Step::Says(standing(s, Mode::MapIndex, of)),
        Shape::Pointers(of) => index_pointer(u, s, b, of),
        Shape::Channels(_, _) => Step::Says(bad(CANNOT_INDEX)),
        Shape::Interfaces => Step::Says(bad(CANNOT_INDEX)),
        Shape::Others => Step::Says(bad(CANNOT_INDEX)),
    }
}

/// The bytes of a string.
fn index_text(s: &State, b: Seen, value: Option<ConstId>) -> Step
    requires basics { HasBasics s.now.table }
    requires part { IsSeenOf s.now b }
    ensures is { step_in s.now result ≡ tell (sight s.now) (index_part (part_in s.now b) (elements (BasicType Kind.Uint8) Mode.Value (constant_length (constant_at s.now.constants.items value)))) }
    ensures over { IsStepOf s.now result }
{
    let byte = basic_type(s, Kind::Uint8);
    index_part(
        s,
        b,
        elements_of(byte, Mode::Value, constant_length(s, value)),
    )
}

fn index_by(u: &Subject, s: &State, b: Seen, x: Operand) -> Step
    requires scene { IsScene u.now s.now }
    requires part { IsSeenOf s.now b }
    requires operand { IsOperandOf s.now x }
    ensures comes { ComesTo u.now s.now (index_by (unit_of u.now) (part_in s.now b) (operand_in s.now x)) result }
    ensures over { IsStepOf s.now result }
{
    let shape = shape_of(s, x.under);
    index_shape(u, s, b, x, shape)
}

/// What the rule of an index expression comes to: E41, E42, E43.
#[tactic(auto, unfolding(crate::specs::Indexing::index_rule))]
pub fn judge_index(u: &Subject, s: &State, a: Seen, b: Seen) -> Step
    requires scene { IsScene u.now s.now }
    requires operand { IsSeenOf s.now a }
    requires index { IsSeenOf s.now b }
    ensures comes { ComesTo u.now s.now (index_rule (unit_of u.now) (part_in s.now a) (part_in s.now b)) result }
    ensures over { IsStepOf s.now result }
{
    match operand_at(s, a) {
        Some(x) => index_by(u, s, b, x),
        None => Step::Says(silent()),
    }
}
