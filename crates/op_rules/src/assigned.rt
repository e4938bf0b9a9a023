//! What is assigned (Go 1.17, "Assignability", "Representability").
ghost use Rattle.std.specs.Prelude.{◌≡◌, IfOk, true, option_map};
ghost use Rattle.mark_walk.specs.Telling.{tell};
ghost use Rattle.unit_read.specs.Subjects.{unit_of};
ghost use Rattle.rule_words.specs.Answers.{is_plain};
ghost use Rattle.rule_words.specs.Scenes.{sight, IsScene, IfFound, said, IsMarkOf, type_in, IsTypeOf, MayBeTypeOf};
ghost use Rattle.rule_words.specs.Steps.{step_in, IsStepOf};
ghost use Rattle.rule_words.specs.Good.{AreFactsOf, known_of};
ghost use Rattle.type_answers.specs.Coming.{FoundBy, ComesTo};
ghost use Rattle.op_rules.specs.Placed.{represented, held_if, held_told, assigned_to, assigned_good, assigned};

use crate::fitting::represented;
use gv_base::NoMemory;
use rule_words::types::takes_default;
use rule_words::values::assigned_type;
use rule_words::{Answer, Step};
use std::alloc::Global;
use type_answers::{Relation, ask_operand, ask_under};
use type_model::TypeId;
use type_questions::{Found, Reached};
use typed_marks::{Facts, Item, Mark, State};
use typed_tree::NOT_ASSIGNABLE;
use unit_read::Subject;

/// The mark where it holds that the value is assignable; else this rule is broken.
fn held_if(s: &State, good: Mark, holds: bool) -> Step
    requires good { IsMarkOf s.now good }
    requires plain { is_plain good ≡ true }
    ensures is { step_in s.now result ≡ tell (sight s.now) (held_if (said s.now good) holds) }
    ensures over { IsStepOf s.now result }
{
    if holds {
        return Step::Says(Answer::Mark(good));
    }
    Step::Says(Answer::Mark(Mark::Bad(NOT_ASSIGNABLE)))
}

#[tactic(auto, using(type_answers::proofs::ComingLaws::same_comes))]
fn held_told(u: &Subject, s: &State, good: Mark, told: Reached<bool>) -> Step
    requires scene { IsScene u.now s.now }
    requires good { IsMarkOf s.now good }
    requires plain { is_plain good ≡ true }
    ensures comes { ComesTo u.now s.now (held_told (said s.now good) told) result }
    ensures over { IsStepOf s.now result }
{
    let _ = u;
    match told {
        Reached::Got(holds) => held_if(s, good, holds),
        Reached::Lost => Step::Says(Answer::Mark(Mark::Silent)),
    }
}

#[tactic(auto, using(type_answers::proofs::ComingLaws::bind_comes, type_answers::proofs::ComingLaws::bind_waits))]
fn assigned_to(
    alloc: Global,
    u: &Subject,
    s: &State,
    x: Facts,
    to: TypeId,
    good: Mark,
    under: Option<TypeId>,
) -> Result<Step, NoMemory>
    requires scene { IsScene u.now s.now }
    requires facts { AreFactsOf s.now x }
    requires to { IsTypeOf s.now to }
    requires good { IsMarkOf s.now good }
    requires plain { is_plain good ≡ true }
    requires under { MayBeTypeOf s.now under }
    ensures comes { IfOk result (ComesTo u.now s.now (assigned_to (known_of s.now x) (type_in s.now to) (said s.now good) (option_map (type_in s.now) under))) }
    ensures over { IfOk result (IsStepOf s.now) }
{
    let of = assigned_type(s, x);
    let methods = takes_default(s, under);
    let found = ask_operand(alloc, u, s, Relation::Assignable, methods, of, x.value, to)?;
    match found {
        Found::Is(told) => Ok(held_told(u, s, good, told)),
        Found::Wait(item) => Ok(Step::Waits(item)),
    }
}

#[tactic(auto, using(type_answers::proofs::ComingLaws::bind_comes, type_answers::proofs::ComingLaws::bind_waits))]
fn assigned_good(
    alloc: Global,
    u: &Subject,
    s: &State,
    x: Facts,
    to: TypeId,
    good: Mark,
) -> Result<Step, NoMemory>
    requires scene { IsScene u.now s.now }
    requires facts { AreFactsOf s.now x }
    requires to { IsTypeOf s.now to }
    requires good { IsMarkOf s.now good }
    requires plain { is_plain good ≡ true }
    ensures comes { IfOk result (ComesTo u.now s.now (assigned_good (unit_of u.now) (known_of s.now x) (type_in s.now to) (said s.now good))) }
    ensures over { IfOk result (IsStepOf s.now) }
{
    match ask_under(u, s, to) {
        Found::Is(under) => {
            let step = assigned_to(alloc, u, s, x, to, good, under)?;
            Ok(step)
        }
        Found::Wait(item) => Ok(Step::Waits(item)),
    }
}

#[tactic(auto, using(type_answers::proofs::ComingLaws::same_found))]
fn ask_represented(u: &Subject, s: &State, x: Facts) -> Found<Mark, Item>
    requires scene { IsScene u.now s.now }
    requires facts { AreFactsOf s.now x }
    ensures is { FoundBy u.now s.now (said s.now) (represented (unit_of u.now) (known_of s.now x)) result }
    ensures over { IfFound result (λ m. IsMarkOf s.now m × (is_plain m ≡ true)) }
{
    represented(u, s, x)
}

/// E32, E30.
#[tactic(auto, using(type_answers::proofs::ComingLaws::bind_comes, type_answers::proofs::ComingLaws::bind_waits))]
pub(crate) fn judge_assigned(
    alloc: Global,
    u: &Subject,
    s: &State,
    x: Facts,
    to: TypeId,
) -> Result<Step, NoMemory>
    requires scene { IsScene u.now s.now }
    requires facts { AreFactsOf s.now x }
    requires to { IsTypeOf s.now to }
    ensures comes { IfOk result (ComesTo u.now s.now (assigned (unit_of u.now) (known_of s.now x) (type_in s.now to))) }
    ensures over { IfOk result (IsStepOf s.now) }
{
    match ask_represented(u, s, x) {
        Found::Is(good) => {
            let step = assigned_good(alloc, u, s, x, to, good)?;
            Ok(step)
        }
        Found::Wait(item) => Ok(Step::Waits(item)),
    }
}
