//! The receive operator, and receive-only channel types.
ghost use Rattle.std.specs.Prelude.{◌≡◌, option_map};
ghost use Rattle.mark_walk.specs.Telling.{tell};
ghost use Rattle.unit_read.specs.Subjects.{unit_of};
ghost use Rattle.rule_words.specs.Scenes.{sight, IsScene, type_in, IsTypeOf, MayBeTypeOf, part_in, IsSeenOf};
ghost use Rattle.rule_words.specs.Steps.{step_in, IsStepOf};
ghost use Rattle.rule_words.specs.Good.{AreFactsOf, known_of};
ghost use Rattle.type_answers.specs.Coming.{ComesTo};
ghost use Rattle.primary_rules.specs.InCode.{shape_in, IsShapeOf};
ghost use Rattle.primary_rules.specs.Receiving.{received, receive_shape, receive_under, receive, arrow_of, receive_of, receive_rule};

use crate::operand::standing;
use crate::shape::{Shape, shape_of};
use rule_words::answered::{bad, silent};
use rule_words::modes::is_type;
use rule_words::{Seen, Step};
use type_answers::ask_under;
use type_model::{Dir, TypeId};
use type_questions::Found;
use typed_marks::{Facts, Mark, State};
use typed_tree::{CANNOT_RECEIVE, Mode, NOT_A_TYPE};
use unit_read::Subject;

fn received(s: &State, direction: Dir, of: TypeId) -> Step
    requires { IsTypeOf s.now of }
    ensures is { step_in s.now result ≡ tell (sight s.now) (received direction (type_in s.now of)) }
    ensures over { IsStepOf s.now result }
{
    match direction {
        Dir::Both => Step::Says(standing(s, Mode::CommaOk, of)),
        Dir::Receive => Step::Says(standing(s, Mode::CommaOk, of)),
        Dir::Send => Step::Says(bad(CANNOT_RECEIVE)),
    }
}

fn receive_shape(s: &State, shape: Shape) -> Step
    requires { IsShapeOf s.now shape }
    ensures is { step_in s.now result ≡ tell (sight s.now) (receive_shape (shape_in s.now shape)) }
    ensures over { IsStepOf s.now result }
{
    match shape {
        Shape::Channels(direction, of) => received(s, direction, of),
        Shape::Texts => Step::Says(bad(CANNOT_RECEIVE)),
        Shape::Slices(_) => Step::Says(bad(CANNOT_RECEIVE)),
        Shape::Arrays(_, _) => Step::Says(bad(CANNOT_RECEIVE)),
        Shape::Maps(_, _) => Step::Says(bad(CANNOT_RECEIVE)),
        Shape::Pointers(_) => Step::Says(bad(CANNOT_RECEIVE)),
        Shape::Interfaces => Step::Says(bad(CANNOT_RECEIVE)),
        Shape::Others => Step::Says(bad(CANNOT_RECEIVE)),
    }
}

#[tactic(auto, using(type_answers::proofs::ComingLaws::same_comes))]
fn receive_under(u: &Subject, s: &State, under: Option<TypeId>) -> Step
    requires scene { IsScene u.now s.now }
    requires under { MayBeTypeOf s.now under }
    ensures comes { ComesTo u.now s.now (receive_under (option_map (type_in s.now) under)) result }
    ensures over { IsStepOf s.now result }
{
    let _ = u;
    match under {
        Some(under) => receive_shape(s, shape_of(s, under)),
        None => Step::Says(silent()),
    }
}

#[tactic(auto, using(type_answers::proofs::ComingLaws::bind_comes, type_answers::proofs::ComingLaws::bind_waits), unfolding(crate::specs::Receiving::receive))]
fn receive(u: &Subject, s: &State, x: Facts) -> Step
    requires scene { IsScene u.now s.now }
    requires facts { AreFactsOf s.now x }
    ensures comes { ComesTo u.now s.now (receive (unit_of u.now) (known_of s.now x)) result }
    ensures over { IsStepOf s.now result }
{
    match ask_under(u, s, x.last) {
        Found::Is(under) => receive_under(u, s, under),
        Found::Wait(item) => Step::Waits(item),
    }
}

/// The type to which an arrow goes: E10 where it has none to go to.
fn arrow_of(s: &State, takes: bool, x: Facts) -> Step
    requires { AreFactsOf s.now x }
    ensures is { step_in s.now result ≡ tell (sight s.now) (arrow_of takes (known_of s.now x)) }
    ensures over { IsStepOf s.now result }
{
    if takes {
        Step::Says(standing(s, Mode::TypeName, x.of))
    } else {
        Step::Says(bad(NOT_A_TYPE))
    }
}

#[tactic(auto, using(type_answers::proofs::ComingLaws::same_comes))]
fn receive_of(u: &Subject, s: &State, takes: bool, x: Facts) -> Step
    requires scene { IsScene u.now s.now }
    requires facts { AreFactsOf s.now x }
    ensures comes { ComesTo u.now s.now (receive_of (unit_of u.now) takes (known_of s.now x)) result }
    ensures over { IsStepOf s.now result }
{
    if is_type(x.mode) {
        return arrow_of(s, takes, x);
    }
    receive(u, s, x)
}

/// What the rule of `<-x` comes to: E78. Before a type the arrow may have a `chan` to go to.
#[tactic(auto, unfolding(crate::specs::Receiving::receive_rule))]
pub fn judge_receive(u: &Subject, s: &State, takes: bool, p: Seen) -> Step
    requires scene { IsScene u.now s.now }
    requires part { IsSeenOf s.now p }
    ensures comes { ComesTo u.now s.now (receive_rule (unit_of u.now) takes (part_in s.now p)) result }
    ensures over { IsStepOf s.now result }
{
    match p.mark {
        Mark::Good(x) => receive_of(u, s, takes, x),
        Mark::Bad(_) => Step::Says(silent()),
        Mark::Outside(_) => Step::Says(silent()),
        Mark::Silent => Step::Says(silent()),
        Mark::Wants(_, _) => Step::Says(silent()),
        Mark::Declared(_) => Step::Says(silent()),
    }
}
