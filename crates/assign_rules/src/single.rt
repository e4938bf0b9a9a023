//! A single value in a place that makes more of it.
ghost use Rattle.std.specs.Prelude.{◌≡◌, IfOk};
ghost use Rattle.type_answers.specs.Coming.{FoundBy};
ghost use Rattle.rule_words.specs.Good.{known_of, AreFactsOf};
ghost use Rattle.rule_words.specs.Scenes.{IsScene};
ghost use Rattle.assign_rules.specs.Single.{value_fault, typed_fault, fits_by, fits_ask};

use gv_base::NoMemory;
use rule_words::types::is_untyped;
use rule_words::values::value_at;
use std::alloc::Global;
use type_answers::{Relation, ask_operand};
use type_questions::{Found, Reached};
use typed_marks::{Facts, Item, State};
use typed_tree::{Mode, NIL_WITHOUT_A_TYPE, NOT_A_VALUE, Rule, SEVERAL_VALUES};
use unit_read::Subject;

/// The rule that a mode breaks, where a single value is wanted: E24, E25.
pub fn value_fault(mode: Mode) -> Option<Rule>
    ensures { result ≡ value_fault mode }
{
    match mode {
        Mode::Constant => None,
        Mode::Variable => None,
        Mode::MapIndex => None,
        Mode::Value => None,
        Mode::CommaOk => None,
        Mode::Nil => None,
        Mode::NoValue => Some(NOT_A_VALUE),
        Mode::TypeName => Some(NOT_A_VALUE),
        Mode::Builtin => Some(NOT_A_VALUE),
        Mode::Package => Some(NOT_A_VALUE),
        Mode::Many => Some(SEVERAL_VALUES),
    }
}

/// The rule that a mode breaks, where a single value with a type is wanted: E24, E25, E26.
pub fn typed_fault(mode: Mode) -> Option<Rule>
    ensures { result ≡ typed_fault mode }
{
    match mode {
        Mode::Nil => Some(NIL_WITHOUT_A_TYPE),
        Mode::Constant => None,
        Mode::Variable => None,
        Mode::MapIndex => None,
        Mode::Value => None,
        Mode::CommaOk => None,
        Mode::NoValue => Some(NOT_A_VALUE),
        Mode::TypeName => Some(NOT_A_VALUE),
        Mode::Builtin => Some(NOT_A_VALUE),
        Mode::Package => Some(NOT_A_VALUE),
        Mode::Many => Some(SEVERAL_VALUES),
    }
}

fn fits_by(
    alloc: Global,
    u: &Subject,
    s: &State,
    x: Facts,
) -> Result<Found<Reached<bool>, Item>, NoMemory>
    requires scene { IsScene u.now s.now }
    requires facts { AreFactsOf s.now x }
    ensures { IfOk result (FoundBy u.now s.now (λ x. x) (fits_by (known_of s.now x) (known_of s.now x).value)) }
{
    match value_at(s, x.value) {
        Some(_) => {
            let found = ask_operand(
                alloc,
                u,
                s,
                Relation::Assignable,
                false,
                x.of,
                x.value,
                x.last,
            )?;
            Ok(found)
        }
        None => Ok(Found::Is(Reached::Got(true))),
    }
}

/// Whether an untyped constant is representable in the type that it takes.
#[tactic(auto, unfolding(crate::specs::Single::fits_ask))]
pub fn ask_fits(
    alloc: Global,
    u: &Subject,
    s: &State,
    x: Facts,
) -> Result<Found<Reached<bool>, Item>, NoMemory>
    requires scene { IsScene u.now s.now }
    requires facts { AreFactsOf s.now x }
    ensures { IfOk result (FoundBy u.now s.now (λ x. x) (fits_ask (known_of s.now x))) }
{
    if is_untyped(s, x.of) {
        let found = fits_by(alloc, u, s, x)?;
        return Ok(found);
    }
    Ok(Found::Is(Reached::Got(true)))
}
