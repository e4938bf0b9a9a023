//! What operators give of constants, and else.
ghost use Rattle.std.specs.Prelude.{◌≡◌};
ghost use Rattle.typed_tree.specs.Basics.{HasBasics};
ghost use Rattle.typed_marks.specs.Meanings.{constant_at};
ghost use Rattle.rule_words.specs.Scenes.{type_in, IsTypeOf};
ghost use Rattle.rule_words.specs.Answers.{answer_in, IsAnswerOf};
ghost use Rattle.rule_words.specs.Wishes.{IsWishOf, wish_of};
ghost use Rattle.op_rules.specs.Operands.{fits_at, valued, wide, folded, computed, is_zero_integer, is_zero};

use crate::kinds::holds;
use const_eval::ConstAnswer;
use gv_base::Const;
use rule_words::answered::{bad, outside, silent};
use rule_words::types::{is_untyped, kind_of};
use rule_words::values::value_at;
use rule_words::{Answer, last_of, operand};
use type_model::TypeId;
use typed_marks::{ConstId, State, Want};
use typed_tree::{CONSTANT_OVERFLOW, DIVISION_BY_ZERO, Limit, Mode};

#[tactic(auto, unfolding(rule_words::specs::Types::is_of))]
fn fits_at(s: &State, c: &Const, at: TypeId) -> bool
    requires basics { HasBasics s.now.table }
    requires at { IsTypeOf s.now at }
    ensures { result ≡ fits_at c.now (type_in s.now at) }
{
    match kind_of(s, at) {
        Some(kind) => holds(kind, c),
        None => false,
    }
}

fn valued(s: &State, at: TypeId, of: TypeId, want: Want, c: Const) -> Answer
    requires basics { HasBasics s.now.table }
    requires at { IsTypeOf s.now at }
    requires of { IsTypeOf s.now of }
    requires want { IsWishOf s.now want }
    ensures is { answer_in s.now result ≡ valued (type_in s.now at) (type_in s.now of) (wish_of s.now want) c }
    ensures over { IsAnswerOf s.now result }
{
    // E30
    if !fits_at(s, &c, at) {
        return bad(CONSTANT_OVERFLOW);
    }
    let last = last_of(s, of, want);
    Answer::Constant(of, last, c)
}

fn wide(s: &State, at: TypeId) -> Answer
    requires basics { HasBasics s.now.table }
    requires at { IsTypeOf s.now at }
    ensures is { answer_in s.now result ≡ wide (type_in s.now at) }
    ensures over { IsAnswerOf s.now result }
{
    // E30
    if !is_untyped(s, at) {
        return bad(CONSTANT_OVERFLOW);
    }
    outside(Limit::Wide)
}

/// What an operator gives of constants, at a type: E31, E30.
pub fn folded(s: &State, at: TypeId, of: TypeId, want: Want, answer: ConstAnswer) -> Answer
    requires basics { HasBasics s.now.table }
    requires at { IsTypeOf s.now at }
    requires of { IsTypeOf s.now of }
    requires want { IsWishOf s.now want }
    ensures is { answer_in s.now result ≡ folded (type_in s.now at) (type_in s.now of) (wish_of s.now want) answer }
    ensures over { IsAnswerOf s.now result }
{
    match answer {
        ConstAnswer::Value(c) => valued(s, at, of, want, c),
        // E31
        ConstAnswer::ZeroDivisor => bad(DIVISION_BY_ZERO),
        ConstAnswer::Wide => wide(s, at),
        ConstAnswer::LongText => outside(Limit::LongText),
        ConstAnswer::BadOperands => silent(),
    }
}

/// What is no constant.
pub fn computed(s: &State, of: TypeId, want: Want) -> Answer
    requires basics { HasBasics s.now.table }
    requires of { IsTypeOf s.now of }
    requires want { IsWishOf s.now want }
    ensures is { answer_in s.now result ≡ computed (type_in s.now of) (wish_of s.now want) }
    ensures over { IsAnswerOf s.now result }
{
    Answer::Mark(operand(s, Mode::Value, of, None, want))
}

fn is_zero_integer(c: &Const) -> bool
    ensures { result ≡ is_zero_integer c.now }
{
    match c {
        Const::Int(n) => *n == 0,
        Const::Truth(_) => false,
        Const::Text(_) => false,
    }
}

/// The constant zero.
pub fn is_zero(s: &State, value: Option<ConstId>) -> bool
    ensures { result ≡ is_zero (constant_at s.now.constants.items value) }
{
    match value_at(s, value) {
        Some(c) => is_zero_integer(c),
        None => false,
    }
}
