//! The questions of a rule are answered, one after the other.
ghost use Rattle.std.specs.Prelude.{◌≡◌, ◌<◌, IfOk, IsTrue, ◌↔◌};
ghost use Rattle.rule_words.specs.Scenes.{IsScene};
ghost use Rattle.rule_words.specs.Steps.{IsStepOf};
ghost use Rattle.elaborate.specs.Settling.{Follows, IsSettled, left, outcome_of};

use crate::answers::go_on;
use crate::questions::ask;
use gv_base::NoMemory;
use rule_words::{Answer, Step};
use std::alloc::Global;
use type_questions::Found;
use typed_marks::{Item, State};
use unit_read::Subject;

fn asks(step: &Step) -> bool
    ensures { IsTrue result ↔ (0 < left step.now) }
{
    match step {
        Step::Says(_) => false,
        Step::Waits(_) => false,
        Step::Puts(_, _) => true,
    }
}

/// One question is answered.
fn answer_one(alloc: Global, u: &Subject, s: &State, step: Step) -> Result<Step, NoMemory>
    requires scene { IsScene u.now s.now }
    requires over { IsStepOf s.now step }
    requires asks { 0 < left step }
    ensures over { IfOk result (IsStepOf s.now) }
    ensures follows { IfOk result (Follows u.now s.now step) }
    ensures less { IfOk result (λ next. left next < left step) }
{
    match step {
        Step::Says(answer) => Ok(Step::Says(answer)),
        Step::Waits(item) => Ok(Step::Waits(item)),
        Step::Puts(asked, rest) => {
            let found = ask(alloc, u, s, asked)?;
            match found {
                Found::Is(told) => Ok(go_on(s, rest, told)),
                Found::Wait(item) => Ok(Step::Waits(item)),
            }
        }
    }
}

/// What a step comes to that puts no question.
fn outcome(step: Step) -> Found<Answer, Item>
    requires { left step ≡ 0 }
    ensures { result ≡ outcome_of step }
{
    match step {
        Step::Says(answer) => Found::Is(answer),
        Step::Waits(item) => Found::Wait(item),
        Step::Puts(_, _) => unreachable!(),
    }
}

/// What a step comes to: an answer, or an item that has to be marked first.
pub fn settle(
    alloc: Global,
    u: &Subject,
    s: &State,
    step: Step,
) -> Result<Found<Answer, Item>, NoMemory>
    requires scene { IsScene u.now s.now }
    requires over { IsStepOf s.now step }
    ensures { IfOk result (IsSettled u.now s.now step) }
{
    let mut now = step;
    while asks(&now) {
        let next = answer_one(alloc, u, s, now)?;
        now = next;
    }
    Ok(outcome(now))
}
