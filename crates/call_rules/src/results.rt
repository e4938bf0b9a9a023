//! Results that are assigned to parameters (Go 1.17, "Calls").
ghost use Rattle.std.specs.Prelude.{false, IfOk, Some, option_map};
ghost use Rattle.type_model.specs.GoTypes.{AreBelow, types_at};
ghost use Rattle.type_model.specs.Tables.{types_in, count};
ghost use Rattle.type_answers.specs.Coming.{FoundBy};
ghost use Rattle.unit_read.specs.Subjects.{unit_of};
ghost use Rattle.rule_words.specs.Scenes.{IsScene, type_in, IsTypeOf, MayBeTypeOf};
ghost use Rattle.builtin_rules.specs.InCode.{signature_by, IsSignatureOf};
ghost use Rattle.call_rules.specs.Given.{param_at};
ghost use Rattle.call_rules.specs.Passing.{assigned_result, result_assigned, all_assigned};

use crate::given::param_at;
use gv_base::NoMemory;
use rule_words::types::{nth, takes_default};
use rule_words::{ends, under_of};
use std::alloc::Global;
use type_answers::{Relation, ask_operand};
use type_model::{Signature, TypeId};
use type_questions::{Found, Reached};
use typed_marks::{Item, State};
use unit_read::Subject;

/// Whether a result is assignable to a parameter of this underlying type.
fn ask_assigned(
    alloc: Global,
    u: &Subject,
    s: &State,
    of: TypeId,
    to: TypeId,
    under: Option<TypeId>,
) -> Result<Found<Reached<bool>, Item>, NoMemory>
    requires scene { IsScene u.now s.now }
    requires of { IsTypeOf s.now of }
    requires to { IsTypeOf s.now to }
    requires under { MayBeTypeOf s.now under }
    ensures { IfOk result (FoundBy u.now s.now (λ x. x) (assigned_result (type_in s.now of) (type_in s.now to) (option_map (type_in s.now) under))) }
{
    let methods = takes_default(s, under);
    let found = ask_operand(alloc, u, s, Relation::Assignable, methods, of, None, to)?;
    Ok(found)
}

#[tactic(auto, using(type_answers::proofs::ComingLaws::says_found, type_answers::proofs::ComingLaws::waits_awaited), unfolding(crate::specs::Passing::result_assigned))]
fn assigned_result(
    alloc: Global,
    u: &Subject,
    s: &State,
    of: TypeId,
    to: TypeId,
) -> Result<Found<Reached<bool>, Item>, NoMemory>
    requires scene { IsScene u.now s.now }
    requires of { IsTypeOf s.now of }
    requires to { IsTypeOf s.now to }
    ensures { IfOk result (FoundBy u.now s.now (λ x. x) (result_assigned (unit_of u.now) (type_in s.now of) (Some (type_in s.now to)))) }
{
    match under_of(u, s, to) {
        Found::Is(under) => {
            let found = ask_assigned(alloc, u, s, of, to, under)?;
            Ok(found)
        }
        Found::Wait(item) => Ok(Found::Wait(item)),
    }
}

#[tactic(auto, unfolding(crate::specs::Passing::result_assigned))]
fn result_assigned(
    alloc: Global,
    u: &Subject,
    s: &State,
    of: TypeId,
    to: Option<TypeId>,
) -> Result<Found<Reached<bool>, Item>, NoMemory>
    requires scene { IsScene u.now s.now }
    requires of { IsTypeOf s.now of }
    requires to { MayBeTypeOf s.now to }
    ensures { IfOk result (FoundBy u.now s.now (λ x. x) (result_assigned (unit_of u.now) (type_in s.now of) (option_map (type_in s.now) to))) }
{
    match to {
        Some(to) => {
            let found = assigned_result(alloc, u, s, of, to)?;
            Ok(found)
        }
        None => Ok(Found::Is(Reached::Got(true))),
    }
}

fn nth_assigned(
    alloc: Global,
    u: &Subject,
    s: &State,
    sig: &Signature,
    of: TypeId,
    i: usize,
) -> Result<Found<Reached<bool>, Item>, NoMemory>
    requires scene { IsScene u.now s.now }
    requires signature { IsSignatureOf s.now sig.now }
    requires of { IsTypeOf s.now of }
    ensures { IfOk result (FoundBy u.now s.now (λ x. x) (result_assigned (unit_of u.now) (type_in s.now of) (param_at (signature_by s.now sig.now) false i))) }
{
    let to = param_at(s, sig, false, i);
    let found = result_assigned(alloc, u, s, of, to)?;
    Ok(found)
}

/// Whether each of the results of a call is assignable to the parameter in its place.
pub fn all_assigned(
    alloc: Global,
    u: &Subject,
    s: &State,
    sig: &Signature,
    results: &[TypeId],
) -> Result<Found<Reached<bool>, Item>, NoMemory>
    requires scene { IsScene u.now s.now }
    requires signature { IsSignatureOf s.now sig.now }
    requires results { AreBelow (count s.now.table) results.now }
    ensures { IfOk result (FoundBy u.now s.now (λ x. x) (all_assigned (unit_of u.now) (signature_by s.now sig.now) 0 (types_at (types_in s.now.table) results.now))) }
{
    for i in 0..results.len() {
        let of = nth(s, results, i);
        let found = nth_assigned(alloc, u, s, sig, of, i)?;
        if ends(&found) {
            return Ok(found);
        }
    }
    Ok(Found::Is(Reached::Got(true)))
}
