//! How rules go on with what is answered to their questions.
ghost use Rattle.std.specs.Prelude.{◌≡◌, ◌≤◌, true};
ghost use Rattle.mark_walk.specs.Telling.{tell};
ghost use Rattle.type_questions.specs.Questions.{Holds};
ghost use Rattle.rule_words.specs.Putting.{held, either, other, second, compared, other_ask};
ghost use Rattle.rule_words.specs.Scenes.{sight, said, IsMarkOf};
ghost use Rattle.rule_words.specs.Answers.{is_plain};
ghost use Rattle.rule_words.specs.Steps.{pair_in, rest_in, step_in, IsPairOf, IsRestOf, IsStepOf};
ghost use Rattle.elaborate.specs.Settling.{told_in, IsToldOf, by_methods, rest_left, left};

use crate::questions::Answered;
use rule_words::{Answer, Asked, Pair, Rest, Step};
use type_model::{Method, TypeId};
use type_questions::Reached;
use typed_marks::{ConstId, Mark, State};
use typed_tree::{MISMATCHED_OPERANDS, NOT_COMPARABLE, Rule};

fn mark(mark: Mark) -> Step
    ensures { result ≡ Step.Says (Answer.Mark mark) }
{
    Step::Says(Answer::Mark(mark))
}

fn hold(s: &State, good: Mark, rule: Rule, reached: Reached<bool>) -> Step
    requires good { IsMarkOf s.now good }
    requires plain { is_plain good ≡ true }
    ensures is { step_in s.now result ≡ tell (sight s.now) (held (said s.now good) rule (Holds reached)) }
    ensures over { IsStepOf s.now result }
    ensures left { left result ≡ 0 }
{
    match reached {
        Reached::Got(holds) => {
            if holds {
                mark(good)
            } else {
                mark(Mark::Bad(rule))
            }
        }
        Reached::Lost => mark(Mark::Silent),
    }
}

fn compare(s: &State, pair: Pair) -> Step
    requires { IsPairOf s.now pair }
    ensures is { step_in s.now result ≡ tell (sight s.now) (compared (pair_in s.now pair)) }
    ensures over { IsStepOf s.now result }
    ensures left { left result ≤ 2 }
{
    Step::Puts(Asked::Comparable(pair.x), Rest::Second(pair))
}

fn compare_second(s: &State, pair: Pair, reached: Reached<bool>) -> Step
    requires { IsPairOf s.now pair }
    ensures is { step_in s.now result ≡ tell (sight s.now) (second (pair_in s.now pair) (Holds reached)) }
    ensures over { IsStepOf s.now result }
    ensures left { left result ≤ 1 }
{
    match reached {
        Reached::Got(holds) => {
            if holds {
                Step::Puts(
                    Asked::Comparable(pair.y),
                    Rest::Held(pair.good, NOT_COMPARABLE),
                )
            } else {
                mark(Mark::Bad(NOT_COMPARABLE))
            }
        }
        Reached::Lost => mark(Mark::Silent),
    }
}

fn assign_other(s: &State, pair: Pair) -> Step
    requires { IsPairOf s.now pair }
    ensures is { step_in s.now result ≡ tell (sight s.now) (other_ask (pair_in s.now pair)) }
    ensures over { IsStepOf s.now result }
    ensures left { left result ≤ 4 }
{
    if pair.x_interface {
        Step::Puts(Asked::Methods(pair.y), Rest::OtherBy(pair))
    } else {
        Step::Puts(Asked::Assignable(pair.y, None, pair.x), Rest::Other(pair))
    }
}

fn take_either(s: &State, pair: Pair, reached: Reached<bool>) -> Step
    requires { IsPairOf s.now pair }
    ensures is { step_in s.now result ≡ tell (sight s.now) (either (pair_in s.now pair) (Holds reached)) }
    ensures over { IsStepOf s.now result }
    ensures left { left result ≤ 4 }
{
    match reached {
        Reached::Got(holds) => {
            if holds {
                compare(s, pair)
            } else {
                assign_other(s, pair)
            }
        }
        Reached::Lost => mark(Mark::Silent),
    }
}

fn take_other(s: &State, pair: Pair, reached: Reached<bool>) -> Step
    requires { IsPairOf s.now pair }
    ensures is { step_in s.now result ≡ tell (sight s.now) (other (pair_in s.now pair) (Holds reached)) }
    ensures over { IsStepOf s.now result }
    ensures left { left result ≤ 2 }
{
    match reached {
        Reached::Got(holds) => {
            if holds {
                compare(s, pair)
            } else {
                mark(Mark::Bad(MISMATCHED_OPERANDS))
            }
        }
        Reached::Lost => mark(Mark::Silent),
    }
}

/// With the methods of an operand, whether it is assignable to a type.
fn assign_by(
    methods: Reached<Vec<Method>>,
    of: TypeId,
    value: Option<ConstId>,
    to: TypeId,
    rest: Rest,
) -> Step
    ensures { result ≡ by_methods methods of value to rest }
{
    match methods {
        Reached::Got(list) => Step::Puts(Asked::AssignableBy(of, value, list, to), rest),
        Reached::Lost => mark(Mark::Silent),
    }
}

/// How a rule goes on with whether a relation holds.
fn with_bool(s: &State, rest: Rest, reached: Reached<bool>) -> Step
    requires { IsRestOf s.now rest }
    ensures is { step_in s.now result ≡ tell (sight s.now) (rest_in s.now rest (Holds reached)) }
    ensures over { IsStepOf s.now result }
    ensures left { left result ≤ rest_left rest }
{
    match rest {
        Rest::Held(good, rule) => hold(s, good, rule, reached),
        Rest::HeldBy(_, _, _, _, _) => mark(Mark::Silent),
        Rest::Either(pair) => take_either(s, pair, reached),
        Rest::EitherBy(_) => mark(Mark::Silent),
        Rest::Other(pair) => take_other(s, pair, reached),
        Rest::OtherBy(_) => mark(Mark::Silent),
        Rest::Second(pair) => compare_second(s, pair, reached),
    }
}

/// How it goes on with methods.
fn with_methods(s: &State, rest: Rest, methods: Reached<Vec<Method>>) -> Step
    requires rest { IsRestOf s.now rest }
    requires methods { IsToldOf s.now (Answered.Methods methods) }
    ensures is { step_in s.now result ≡ tell (sight s.now) (rest_in s.now rest (told_in s.now (Answered.Methods methods))) }
    ensures over { IsStepOf s.now result }
    ensures left { left result ≤ rest_left rest }
{
    match rest {
        Rest::Held(_, _) => mark(Mark::Silent),
        Rest::HeldBy(of, value, to, good, rule) => {
            assign_by(methods, of, value, to, Rest::Held(good, rule))
        }
        Rest::Either(_) => mark(Mark::Silent),
        Rest::EitherBy(pair) => assign_by(methods, pair.x, None, pair.y, Rest::Either(pair)),
        Rest::Other(_) => mark(Mark::Silent),
        Rest::OtherBy(pair) => assign_by(methods, pair.y, None, pair.x, Rest::Other(pair)),
        Rest::Second(_) => mark(Mark::Silent),
    }
}

/// How a rule goes on with an answer.
pub fn go_on(s: &State, rest: Rest, told: Answered) -> Step
    requires rest { IsRestOf s.now rest }
    requires told { IsToldOf s.now told }
    ensures is { step_in s.now result ≡ tell (sight s.now) (rest_in s.now rest (told_in s.now told)) }
    ensures over { IsStepOf s.now result }
    ensures left { left result ≤ rest_left rest }
{
    match told {
        Answered::Holds(reached) => with_bool(s, rest, reached),
        Answered::Methods(methods) => with_methods(s, rest, methods),
    }
}
