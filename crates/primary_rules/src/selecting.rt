//! Selectors.
ghost use Rattle.std.specs.Prelude.{◌≡◌, ◌<◌, ◌∷◌, IfOk, length, map, option_map, slice_get, Some};
ghost use Rattle.mark_walk.specs.Telling.{tell};
ghost use Rattle.method_sets.specs.Levels.{chosen_in, part_in as selected_in};
ghost use Rattle.method_sets.specs.Members.{selector};
ghost use Rattle.type_model.specs.GoTypes.{signature_of, SignatureBelow, MethodsBelow};
ghost use Rattle.type_model.specs.Parts.{method_of};
ghost use Rattle.type_model.specs.Tables.{types_in, count};
ghost use Rattle.type_questions.specs.Judging.{seen_as, AreMethodsBelow};
ghost use Rattle.unit_read.specs.Subjects.{unit_of};
ghost use Rattle.rule_words.specs.Answers.{answer_in, IsAnswerOf};
ghost use Rattle.rule_words.specs.Scenes.{sight, IsScene, type_in, IsTypeOf};
ghost use Rattle.rule_words.specs.Steps.{step_in, IsStepOf};
ghost use Rattle.rule_words.specs.Good.{AreFactsOf, known_of};
ghost use Rattle.type_answers.specs.Answering.{listed_methods, IsSelectedBelow, IsSelectionBelow, AreSelectedBelow};
ghost use Rattle.type_answers.specs.Coming.{ComesTo};
ghost use Rattle.primary_rules.specs.Selecting.{field_mark, select_field, selected_field, is_named, has_method, in_set, set_told, set_asked, by_address, function_mark, method_value, with_receiver, method_expression, selected_method, selected_part, selected, select_told, select_rule};

use crate::operand::{is_variable, part_mode, standing};
use crate::passing::ask_addressable;
use gv_base::{NoMemory, Row};
use method_sets::{Selected, Selection};
use rule_words::answered::{bad, silent};
use rule_words::modes::is_type;
use rule_words::{Answer, Step};
use std::alloc::Global;
use type_answers::{ask_methods, ask_selection, is_unknown};
use type_model::{Method, Signature, Term, TypeId};
use type_questions::{Found, Reached};
use typed_marks::{Facts, State};
use typed_tree::{AMBIGUOUS_SELECTOR, Mode, NEEDS_AN_ADDRESS, NO_SUCH_FIELD_OR_METHOD};
use unit_read::Subject;

// ---- fields

fn field_mark(s: &State, of: TypeId, addressable: bool) -> Step
    requires { IsTypeOf s.now of }
    ensures is { step_in s.now result ≡ tell (sight s.now) (field_mark (type_in s.now of) addressable) }
    ensures over { IsStepOf s.now result }
{
    Step::Says(standing(s, part_mode(addressable), of))
}

#[tactic(auto, using(type_answers::proofs::ComingLaws::same_comes))]
fn field_told(u: &Subject, s: &State, of: TypeId, addressable: bool) -> Step
    requires scene { IsScene u.now s.now }
    requires of { IsTypeOf s.now of }
    ensures comes { ComesTo u.now s.now (field_mark (type_in s.now of) addressable) result }
    ensures over { IsStepOf s.now result }
{
    let _ = u;
    field_mark(s, of, addressable)
}

#[tactic(auto, using(type_answers::proofs::ComingLaws::bind_comes, type_answers::proofs::ComingLaws::bind_waits), unfolding(crate::specs::Selecting::select_field))]
fn select_field(u: &Subject, s: &State, x: Facts, path: &[u32], of: TypeId) -> Step
    requires scene { IsScene u.now s.now }
    requires facts { AreFactsOf s.now x }
    requires of { IsTypeOf s.now of }
    ensures comes { ComesTo u.now s.now (select_field (unit_of u.now) (known_of s.now x) path.now (type_in s.now of)) result }
    ensures over { IsStepOf s.now result }
{
    match ask_addressable(u, s, x, path) {
        Found::Is(addressable) => field_told(u, s, of, addressable),
        Found::Wait(item) => Step::Waits(item),
    }
}

fn selected_field(u: &Subject, s: &State, x: Facts, path: &[u32], of: TypeId) -> Step
    requires scene { IsScene u.now s.now }
    requires facts { AreFactsOf s.now x }
    requires of { IsTypeOf s.now of }
    ensures comes { ComesTo u.now s.now (selected_field (unit_of u.now) (known_of s.now x) path.now (type_in s.now of)) result }
    ensures over { IsStepOf s.now result }
{
    // E20
    if is_type(x.mode) {
        return Step::Says(bad(NO_SUCH_FIELD_OR_METHOD));
    }
    select_field(u, s, x, path, of)
}

// ---- methods

fn is_named(s: &State, name: &str, from: &str, m: &Method) -> bool
    ensures { result ≡ is_named (selector name.now from.now) (method_of (types_in s.now.table) m.now) }
{
    let _ = s;
    let n = m.name.as_str();
    let owner = m.package.as_str();
    n == name && (owner == "" || owner == from)
}

fn is_named_at(s: &State, name: &str, from: &str, methods: &[Method], i: usize) -> bool
    requires { i < length methods.now }
    ensures { option_map (λ m. is_named (selector name.now from.now) (method_of (types_in s.now.table) m)) (slice_get methods.now i) ≡ Some result }
{
    is_named(s, name, from, &methods[i])
}

/// The method of the name is in the set.
fn has_method(s: &State, name: &str, from: &str, methods: &[Method]) -> bool
    ensures { result ≡ has_method (selector name.now from.now) (map (method_of (types_in s.now.table)) methods.now) }
{
    for i in 0..methods.len() {
        if is_named_at(s, name, from, methods, i) {
            return true;
        }
    }
    false
}

/// E22.
fn in_set(s: &State, name: &str, from: &str, good: Answer, methods: &[Method]) -> Step
    requires { IsAnswerOf s.now good }
    ensures is { step_in s.now result ≡ tell (sight s.now) (in_set (selector name.now from.now) (answer_in s.now good) (map (method_of (types_in s.now.table)) methods.now)) }
    ensures over { IsStepOf s.now result }
{
    if !has_method(s, name, from, methods) {
        return Step::Says(bad(NEEDS_AN_ADDRESS));
    }
    Step::Says(good)
}

#[tactic(auto, using(type_answers::proofs::ComingLaws::same_comes))]
fn set_told(
    u: &Subject,
    s: &State,
    name: &str,
    from: &str,
    good: Answer,
    told: Reached<Vec<Method>>,
) -> Step
    requires scene { IsScene u.now s.now }
    requires good { IsAnswerOf s.now good }
    ensures comes { ComesTo u.now s.now (set_told (selector name.now from.now) (answer_in s.now good) (listed_methods s.now told)) result }
    ensures over { IsStepOf s.now result }
{
    let _ = u;
    match told {
        Reached::Got(methods) => in_set(s, name, from, good, &methods),
        Reached::Lost => Step::Says(silent()),
    }
}

#[tactic(auto, using(type_answers::proofs::ComingLaws::bind_comes, type_answers::proofs::ComingLaws::bind_waits), unfolding(crate::specs::Selecting::set_asked))]
fn set_asked(
    alloc: Global,
    u: &Subject,
    s: &State,
    name: &str,
    from: &str,
    of: TypeId,
    good: Answer,
) -> Result<Step, NoMemory>
    requires scene { IsScene u.now s.now }
    requires of { IsTypeOf s.now of }
    requires good { IsAnswerOf s.now good }
    ensures comes { IfOk result (ComesTo u.now s.now (set_asked (selector name.now from.now) (type_in s.now of) (answer_in s.now good))) }
    ensures over { IfOk result (IsStepOf s.now) }
{
    let found = ask_methods(alloc, u, s, of)?;
    match found {
        Found::Is(told) => Ok(set_told(u, s, name, from, good, told)),
        Found::Wait(item) => Ok(Step::Waits(item)),
    }
}

fn by_address(s: &State, x: Facts, pointer: bool) -> bool
    ensures { result ≡ by_address (known_of s.now x) pointer }
{
    let _ = s;
    pointer && !is_variable(x.mode)
}

/// A function of this signature; nothing is said of a method without a known one.
fn function(s: &State, unknown: bool, of: Signature) -> Answer
    requires { SignatureBelow (count s.now.table) of }
    ensures is { answer_in s.now result ≡ function_mark unknown (signature_of (types_in s.now.table) of) }
    ensures over { IsAnswerOf s.now result }
{
    let _ = s;
    if unknown {
        return silent();
    }
    Answer::Type(Mode::Value, Term::Func(of))
}

fn method_value(
    alloc: Global,
    u: &Subject,
    s: &State,
    name: &str,
    from: &str,
    x: Facts,
    of: Signature,
    pointer: bool,
) -> Result<Step, NoMemory>
    requires scene { IsScene u.now s.now }
    requires facts { AreFactsOf s.now x }
    requires below { SignatureBelow (count s.now.table) of }
    ensures comes { IfOk result (ComesTo u.now s.now (method_value (selector name.now from.now) (known_of s.now x) (signature_of (types_in s.now.table) of) pointer)) }
    ensures over { IfOk result (IsStepOf s.now) }
{
    let unknown = is_unknown(s, &of);
    let good = function(s, unknown, of);
    if by_address(s, x, pointer) {
        let step = set_asked(alloc, u, s, name, from, x.of, good)?;
        return Ok(step);
    }
    Ok(Step::Says(good))
}

/// The receiver, then the parameters.
fn receiver_first(alloc: Global, of: TypeId, params: &[TypeId]) -> Result<Row<TypeId>, NoMemory>
    ensures { IfOk result (λ r. r ≡ of ∷ params.now) }
{
    let mut list = Vec::new(alloc);
    list.push(of)?;
    list.extend_from_slice(params)?;
    Ok(Row::new(list))
}

/// The signature with the receiver as its first parameter.
fn with_receiver(
    alloc: Global,
    s: &State,
    of: TypeId,
    method: Signature,
) -> Result<Signature, NoMemory>
    requires of { IsTypeOf s.now of }
    requires below { SignatureBelow (count s.now.table) method }
    ensures is { IfOk result (λ r. signature_of (types_in s.now.table) r ≡ with_receiver (type_in s.now of) (signature_of (types_in s.now.table) method)) }
    ensures below { IfOk result (SignatureBelow (count s.now.table)) }
{
    let _ = s;
    let params = receiver_first(alloc, of, method.params.as_slice())?;
    Ok(Signature {
        params,
        results: method.results,
        variadic: method.variadic,
    })
}

fn method_expression(
    alloc: Global,
    u: &Subject,
    s: &State,
    name: &str,
    from: &str,
    of: TypeId,
    method: Signature,
    pointer: bool,
) -> Result<Step, NoMemory>
    requires scene { IsScene u.now s.now }
    requires of { IsTypeOf s.now of }
    requires below { SignatureBelow (count s.now.table) method }
    ensures comes { IfOk result (ComesTo u.now s.now (method_expression (selector name.now from.now) (type_in s.now of) (signature_of (types_in s.now.table) method) pointer)) }
    ensures over { IfOk result (IsStepOf s.now) }
{
    let unknown = is_unknown(s, &method);
    let signature = with_receiver(alloc, s, of, method)?;
    let good = function(s, unknown, signature);
    if pointer {
        let step = set_asked(alloc, u, s, name, from, of, good)?;
        return Ok(step);
    }
    Ok(Step::Says(good))
}

fn selected_method(
    alloc: Global,
    u: &Subject,
    s: &State,
    name: &str,
    from: &str,
    x: Facts,
    of: Signature,
    pointer: bool,
) -> Result<Step, NoMemory>
    requires scene { IsScene u.now s.now }
    requires facts { AreFactsOf s.now x }
    requires below { SignatureBelow (count s.now.table) of }
    ensures comes { IfOk result (ComesTo u.now s.now (selected_method (selector name.now from.now) (known_of s.now x) (signature_of (types_in s.now.table) of) pointer)) }
    ensures over { IfOk result (IsStepOf s.now) }
{
    if is_type(x.mode) {
        let step = method_expression(alloc, u, s, name, from, x.of, of, pointer)?;
        return Ok(step);
    }
    let step = method_value(alloc, u, s, name, from, x, of, pointer)?;
    Ok(step)
}

// ---- selectors

fn selected_part(
    alloc: Global,
    u: &Subject,
    s: &State,
    name: &str,
    from: &str,
    x: Facts,
    path: &[u32],
    kind: Selected,
) -> Result<Step, NoMemory>
    requires scene { IsScene u.now s.now }
    requires facts { AreFactsOf s.now x }
    requires below { IsSelectedBelow s.now.table kind }
    ensures comes { IfOk result (ComesTo u.now s.now (selected_part (unit_of u.now) (selector name.now from.now) (known_of s.now x) path.now (selected_in s.now.table kind))) }
    ensures over { IfOk result (IsStepOf s.now) }
{
    match kind {
        Selected::Field(of) => Ok(selected_field(u, s, x, path, of)),
        Selected::Method(of, pointer) => {
            let step = selected_method(alloc, u, s, name, from, x, of, pointer)?;
            Ok(step)
        }
    }
}

fn selected(
    alloc: Global,
    u: &Subject,
    s: &State,
    name: &str,
    from: &str,
    x: Facts,
    selection: Selection,
) -> Result<Step, NoMemory>
    requires scene { IsScene u.now s.now }
    requires facts { AreFactsOf s.now x }
    requires below { IsSelectionBelow s.now.table selection }
    ensures comes { IfOk result (ComesTo u.now s.now (selected (unit_of u.now) (selector name.now from.now) (known_of s.now x) (chosen_in s.now.table selection))) }
    ensures over { IfOk result (IsStepOf s.now) }
{
    match selection {
        Selection::Found { path, kind } => {
            let step = selected_part(alloc, u, s, name, from, x, path.as_slice(), kind)?;
            Ok(step)
        }
        // E21
        Selection::Ambiguous { depth: _ } => Ok(Step::Says(bad(AMBIGUOUS_SELECTOR))),
        // E20
        Selection::Absent => Ok(Step::Says(bad(NO_SUCH_FIELD_OR_METHOD))),
    }
}

fn select_told(
    alloc: Global,
    u: &Subject,
    s: &State,
    name: &str,
    from: &str,
    x: Facts,
    told: Reached<Selection>,
) -> Result<Step, NoMemory>
    requires scene { IsScene u.now s.now }
    requires facts { AreFactsOf s.now x }
    requires below { AreSelectedBelow s.now.table (Found.Is told) }
    ensures comes { IfOk result (ComesTo u.now s.now (select_told (unit_of u.now) (selector name.now from.now) (known_of s.now x) (seen_as (chosen_in s.now.table) told))) }
    ensures over { IfOk result (IsStepOf s.now) }
{
    match told {
        Reached::Got(selection) => {
            let step = selected(alloc, u, s, name, from, x, selection)?;
            Ok(step)
        }
        Reached::Lost => Ok(Step::Says(silent())),
    }
}

/// What the rule of a selector of a value or a type comes to: E20, E21, E22.
#[tactic(auto, using(type_answers::proofs::ComingLaws::bind_comes, type_answers::proofs::ComingLaws::bind_waits), unfolding(crate::specs::Selecting::select_rule))]
pub fn judge_select(
    alloc: Global,
    u: &Subject,
    s: &State,
    name: &str,
    from: &str,
    x: Facts,
) -> Result<Step, NoMemory>
    requires scene { IsScene u.now s.now }
    requires facts { AreFactsOf s.now x }
    ensures comes { IfOk result (ComesTo u.now s.now (select_rule (unit_of u.now) (selector name.now from.now) (known_of s.now x))) }
    ensures over { IfOk result (IsStepOf s.now) }
{
    let found = ask_selection(alloc, u, s, x.of, name, from)?;
    match found {
        Found::Is(told) => {
            let step = select_told(alloc, u, s, name, from, x, told)?;
            Ok(step)
        }
        Found::Wait(item) => Ok(Step::Waits(item)),
    }
}
