//! Steps in few bytes. A step has room for a type or a constant that may be new; what most rules come to is neither, and is handed on from
//! function to function.
ghost use Rattle.std.specs.Prelude.{◌≡◌, IfOk, IfSome};
ghost use Rattle.rule_words.specs.declared.step.Step.TheVariants as steps;
ghost use Rattle.rule_words.specs.Asking.{Rule as ARule};
ghost use Rattle.rule_words.specs.Steps.{IsStepOf};
ghost use Rattle.type_answers.specs.Coming.{ComesTo};
ghost use Rattle.typed_marks.specs.declared.mark.Mark.TheVariants as marks;
ghost use Rattle.typed_marks.specs.declared.state.State.{State as AState};
ghost use Rattle.unit_read.specs.declared.subject.Subject.{Subject as ASubject};
ghost use Rattle.elaborate.specs.declared.briefly.Brief.TheVariants as briefs;
ghost use Rattle.elaborate.specs.Briefs.{step_of, ComesBriefly, IsBriefOf};

use gv_base::NoMemory;
use rule_words::{Answer, Step};
use std::alloc::Global;
use typed_marks::{Item, Mark};
use typed_tree::{Limit, Rule};

/// A step: a mark of types and constants that are there, an item for whose mark the rule waits, or any other, which lies elsewhere.
#[derive(Drop)]
pub enum Brief {
    Mark(Mark),
    Waits(Item),
    Other(Box<Step>),
}

#[inline(never)]
fn elsewhere(alloc: Global, step: Step) -> Result<Brief, NoMemory>
    ensures { IfOk result (λ brief. step_of brief ≡ step) }
{
    let other = Box::new(alloc, step)?;
    Ok(Brief::Other(other))
}

fn short_answer(answer: &Answer) -> Option<Brief>
    ensures { IfSome result (λ brief. step_of brief ≡ steps.Says answer.now) }
{
    match answer {
        Answer::Mark(mark) => Some(Brief::Mark(*mark)),
        Answer::Type(_, _) => None,
        Answer::Constant(_, _, _) => None,
    }
}

/// The same step, if it is a mark of what is there or waits. It is looked at where it lies, since what takes it apart moves all that it may hold.
fn short(step: &Step) -> Option<Brief>
    ensures { IfSome result (λ brief. step_of brief ≡ step.now) }
{
    match step {
        Step::Says(answer) => short_answer(answer),
        Step::Waits(item) => Some(Brief::Waits(*item)),
        Step::Puts(_, _) => None,
    }
}

/// A step in few bytes.
#[inline(always)]
pub fn in_brief(alloc: Global, step: Step) -> Result<Brief, NoMemory>
    ensures is { IfOk result (λ brief. step_of brief ≡ step) }
    ensures comes { (u : ASubject) (s : AState) (rule : ARule) → ComesTo u s rule step → IfOk result (ComesBriefly u s rule) }
    ensures over { (s : AState) → IsStepOf s step → IfOk result (IsBriefOf s) }
{
    match short(&step) {
        Some(brief) => Ok(brief),
        None => elsewhere(alloc, step),
    }
}

pub fn silent() -> Brief
    ensures { result ≡ briefs.Mark marks.Silent }
{
    Brief::Mark(Mark::Silent)
}

pub fn broken(rule: Rule) -> Brief
    ensures { result ≡ briefs.Mark (marks.Bad rule) }
{
    Brief::Mark(Mark::Bad(rule))
}

pub fn beyond(limit: Limit) -> Brief
    ensures { result ≡ briefs.Mark (marks.Outside limit) }
{
    Brief::Mark(Mark::Outside(limit))
}
