//! Calls of functions and methods (Go 1.17, "Calls").
ghost use Rattle.std.specs.Prelude.{◌≡◌, true, nat_le, option_map};
ghost use Rattle.mark_walk.specs.Telling.{tell};
ghost use Rattle.type_model.specs.GoTypes.{AreBelow, types_at};
ghost use Rattle.type_model.specs.Tables.{types_in, count};
ghost use Rattle.typed_tree.specs.Basics.{HasBasics};
ghost use Rattle.rule_words.specs.Answers.{is_plain};
ghost use Rattle.rule_words.specs.Scenes.{sight, said, IsMarkOf, type_in, IsTypeOf, MayBeTypeOf, parts_in, AreSeenOf};
ghost use Rattle.rule_words.specs.Steps.{step_in, IsStepOf};
ghost use Rattle.builtin_rules.specs.InCode.{signature_by, IsSignatureOf};
ghost use Rattle.call_rules.specs.Calling.{several_of, single_of, result_mark, may_spread, counted_rule, signature_rule, function_rule, called_rule};
ghost use Rattle.call_rules.specs.Given.{results_of};
ghost use Rattle.call_rules.specs.Types.{how_many};

use crate::given::{Given, given_of, how_many, is_accepted, nth_type};
use builtin_rules::{good, nothing, says, signature_in, value_of};
use rule_words::good::{broken, part_at, silent};
use rule_words::{Seen, Step};
use type_model::{Signature, TypeId};
use typed_marks::{Mark, State};
use typed_tree::{BAD_DOTS, Mode, NOT_A_FUNCTION, WRONG_NUMBER_OF_ARGUMENTS};

// ---- results

fn several_of(s: &State, of: TypeId) -> Mark
    requires within { IsTypeOf s.now of }
    ensures is { said s.now result ≡ several_of (type_in s.now of) }
    ensures over { IsMarkOf s.now result }
    ensures plain { is_plain result ≡ true }
{
    let _ = s;
    good(Mode::Many, of)
}

/// At most one result.
fn single_of(s: &State, of: Option<TypeId>) -> Mark
    requires basics { HasBasics s.now.table }
    requires within { MayBeTypeOf s.now of }
    ensures is { said s.now result ≡ single_of (option_map (type_in s.now) of) }
    ensures over { IsMarkOf s.now result }
    ensures plain { is_plain result ≡ true }
{
    match of {
        Some(of) => value_of(s, of),
        None => nothing(s),
    }
}

fn are_several(s: &State, results: &[TypeId]) -> bool
    ensures { result ≡ nat_le 2 (how_many (types_at (types_in s.now.table) results.now)) }
{
    2 <= how_many(s, results)
}

#[tactic(auto, unfolding(crate::specs::Calling::result_mark))]
fn result_mark(s: &State, of: TypeId, results: &[TypeId]) -> Mark
    requires basics { HasBasics s.now.table }
    requires within { IsTypeOf s.now of }
    requires results { AreBelow (count s.now.table) results.now }
    ensures is { said s.now result ≡ result_mark (type_in s.now of) (types_at (types_in s.now.table) results.now) }
    ensures over { IsMarkOf s.now result }
    ensures plain { is_plain result ≡ true }
{
    if are_several(s, results) {
        several_of(s, of)
    } else {
        single_of(s, nth_type(s, results, 0))
    }
}

fn results_mark(s: &State, of: TypeId, sig: &Signature) -> Mark
    requires basics { HasBasics s.now.table }
    requires within { IsTypeOf s.now of }
    requires signature { IsSignatureOf s.now sig.now }
    ensures is { said s.now result ≡ result_mark (type_in s.now of) (results_of (signature_by s.now sig.now)) }
    ensures over { IsMarkOf s.now result }
    ensures plain { is_plain result ≡ true }
{
    result_mark(s, of, sig.results.as_slice())
}

// ---- tests

fn may_spread(s: &State, sig: &Signature, spread: bool) -> bool
    ensures { result ≡ may_spread (signature_by s.now sig.now) spread }
{
    let _ = s;
    if spread { sig.variadic } else { true }
}

fn judge_count(s: &State, of: TypeId, sig: &Signature, spread: bool, given: Given) -> Step
    requires basics { HasBasics s.now.table }
    requires within { IsTypeOf s.now of }
    requires signature { IsSignatureOf s.now sig.now }
    ensures is { step_in s.now result ≡ tell (sight s.now) (counted_rule (type_in s.now of) (signature_by s.now sig.now) spread given) }
    ensures over { IsStepOf s.now result }
{
    // E51
    if !is_accepted(s, sig, spread, given) {
        return broken(WRONG_NUMBER_OF_ARGUMENTS);
    }
    says(results_mark(s, of, sig))
}

#[tactic(auto, unfolding(crate::specs::Calling::signature_rule))]
fn judge_signature(s: &State, of: TypeId, spread: bool, given: Given, sig: &Signature) -> Step
    requires basics { HasBasics s.now.table }
    requires within { IsTypeOf s.now of }
    requires signature { IsSignatureOf s.now sig.now }
    ensures is { step_in s.now result ≡ tell (sight s.now) (signature_rule (type_in s.now of) spread given (signature_by s.now sig.now)) }
    ensures over { IsStepOf s.now result }
{
    // E52
    if !may_spread(s, sig, spread) {
        return broken(BAD_DOTS);
    }
    judge_count(s, of, sig, spread, given)
}

fn judge_function(s: &State, spread: bool, given: Given, of: TypeId) -> Step
    requires basics { HasBasics s.now.table }
    requires within { IsTypeOf s.now of }
    ensures is { step_in s.now result ≡ tell (sight s.now) (function_rule spread given (type_in s.now of)) }
    ensures over { IsStepOf s.now result }
{
    match signature_in(s, of) {
        Some(sig) => judge_signature(s, of, spread, given, sig),
        // E50
        None => broken(NOT_A_FUNCTION),
    }
}

/// How far the rule of a call of a value goes: E50, E52, E51. `call` says whether the first argument is a call.
#[tactic(auto, unfolding(crate::specs::Calling::called_rule))]
pub fn judge_called(s: &State, spread: bool, call: bool, parts: &[Seen]) -> Step
    requires basics { HasBasics s.now.table }
    requires parts { AreSeenOf s.now parts.now }
    ensures is { step_in s.now result ≡ tell (sight s.now) (called_rule spread call (parts_in s.now parts.now)) }
    ensures over { IsStepOf s.now result }
{
    let f = part_at(s, parts, 0);
    match f.under {
        Some(of) => judge_function(s, spread, given_of(s, spread, call, parts), of),
        None => silent(),
    }
}
