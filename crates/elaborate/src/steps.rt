//! One item is marked by its rule, or waits for another.
ghost use Rattle.std.specs.Prelude.{◌≡◌, true, false, None, IfOk, OnOk};
ghost use Rattle.mark_walk.specs.Telling.{tell};
ghost use Rattle.mark_walk.specs.Asks.{Adds};
ghost use Rattle.typed_marks.specs.Meanings.{Quiet};
ghost use Rattle.typed_marks.specs.States.{so_far};
ghost use Rattle.unit_read.specs.Subjects.{unit_of};
ghost use Rattle.rule_words.specs.Scenes.{sight, IsScene, IsTypeOf, type_in};
ghost use Rattle.rule_words.specs.Declaring.{declaring_in, IsDeclaration};
ghost use Rattle.rule_words.specs.Steps.{IsStepOf};
ghost use Rattle.type_answers.specs.Coming.{ComesTo};
ghost use Rattle.elaborate.specs.Walks.{IsItemOf, is_declaring};
ghost use Rattle.elaborate.specs.Elaborated.{IsAtWork};
ghost use Rattle.elaborate.specs.Settling.{StepsAs, StepsBy, IsWholeBy, is_got};

use crate::briefly::Brief;
use crate::rules::Rules;
use crate::settling::settle;
use gv_base::NoMemory;
use rule_words::{Answer, Declaring, Step, declare, keep};
use std::alloc::Global;
use type_answers::comparable_at;
use type_model::{Method, TypeId};
use type_questions::{Found, Reached};
use typed_marks::{Item, Mark, State};
use unit_read::Subject;

/// Marks an item by what its rule comes to, once the questions that this puts are answered; or answers the item for which it waits.
#[inline(never)]
fn settle_by<R: Rules>(
    alloc: Global,
    rules: &R,
    u: &Subject,
    s: &mut State,
    item: Item,
    step: Step,
) -> Result<Option<Item>, NoMemory>
    requires work { IsAtWork u.now s.old }
    requires item { IsItemOf (unit_of u.now) item }
    requires unmarked { so_far s.old item ≡ None }
    requires comes { ComesTo u.now s.old (R.rule (unit_of u.now) item) step }
    requires over { IsStepOf s.old step }
    ensures work { OnOk result (IsAtWork u.now s.new) }
    ensures steps { IfOk result (StepsAs u.now s.old s.new item (R.rule (unit_of u.now) item)) }
{
    let _ = rules;
    let found = settle(alloc, u, s, step)?;
    match found {
        Found::Wait(other) => Ok(Some(other)),
        Found::Is(answer) => {
            keep(u, s, item, answer)?;
            Ok(None)
        }
    }
}

/// Marks an item that declares no type, or answers the item for which its rule waits. Most rules say a mark over what is there.
pub fn judge_by<R: Rules>(
    alloc: Global,
    rules: &R,
    room: &mut R::Room,
    u: &Subject,
    s: &mut State,
    item: Item,
) -> Result<Option<Item>, NoMemory>
    requires work { IsAtWork u.now s.old }
    requires item { IsItemOf (unit_of u.now) item }
    requires stage { is_declaring item.stage ≡ false }
    requires unmarked { so_far s.old item ≡ None }
    ensures work { OnOk result (IsAtWork u.now s.new) }
    ensures steps { IfOk result (StepsAs u.now s.old s.new item (R.rule (unit_of u.now) item)) }
{
    let brief = rules.judge(alloc, room, u, s, item)?;
    match brief {
        Brief::Mark(mark) => {
            keep(u, s, item, Answer::Mark(mark))?;
            Ok(None)
        }
        Brief::Waits(other) => Ok(Some(other)),
        Brief::Other(step) => {
            let waits = settle_by(alloc, rules, u, s, item, Box::into_inner(step))?;
            Ok(waits)
        }
    }
}

/// Whether all that a type holds is declared, or the item for which that waits.
fn is_whole(
    alloc: Global,
    u: &Subject,
    s: &State,
    of: TypeId,
) -> Result<Found<bool, Item>, NoMemory>
    requires scene { IsScene u.now s.now }
    requires within { IsTypeOf s.now of }
    ensures { IfOk result (IsWholeBy u.now s.now (type_in s.now of)) }
{
    let found = comparable_at(alloc, u, s, of)?;
    match found {
        Found::Is(reached) => Ok(Found::Is(is_got(&reached))),
        Found::Wait(item) => Ok(Found::Wait(item)),
    }
}

fn is_got(reached: &Reached<bool>) -> bool
    ensures { result ≡ is_got reached.now }
{
    match reached {
        Reached::Got(_) => true,
        Reached::Lost => false,
    }
}

/// Nothing is said of an item.
pub fn leave(u: &Subject, s: &mut State, item: Item) -> Result<(), NoMemory>
    requires work { IsAtWork u.now s.old }
    requires item { IsItemOf (unit_of u.now) item }
    requires unmarked { so_far s.old item ≡ None }
    ensures work { OnOk result (IsAtWork u.now s.new) }
    ensures adds { OnOk result (Adds (so_far s.old) (so_far s.new) item Quiet) }
{
    keep(u, s, item, Answer::Mark(Mark::Silent))?;
    Ok(())
}

/// Declares the type of an item, once all that it holds is declared.
fn declare_with(
    alloc: Global,
    u: &Subject,
    s: &mut State,
    item: Item,
    of: TypeId,
    under: TypeId,
    methods: Vec<Method>,
) -> Result<Option<Item>, NoMemory>
    requires work { IsAtWork u.now s.old }
    requires item { IsItemOf (unit_of u.now) item }
    requires unmarked { so_far s.old item ≡ None }
    requires is { IsDeclaration (unit_of u.now) s.old item of under methods.items }
    ensures work { OnOk result (IsAtWork u.now s.new) }
    ensures steps { IfOk result (StepsBy u.now s.old s.new item (declaring_in s.old (Declaring.With of under methods))) }
{
    let found = is_whole(alloc, u, s, under)?;
    match found {
        Found::Wait(other) => Ok(Some(other)),
        Found::Is(whole) => {
            if whole {
                declare(alloc, u, s, item, of, under, methods)?;
            } else {
                leave(u, s, item)?;
            }
            Ok(None)
        }
    }
}

/// Marks an item that says what a type is declared with, or answers the item for which its rule waits.
pub fn declare_by<R: Rules>(
    alloc: Global,
    rules: &R,
    u: &Subject,
    s: &mut State,
    item: Item,
) -> Result<Option<Item>, NoMemory>
    requires work { IsAtWork u.now s.old }
    requires item { IsItemOf (unit_of u.now) item }
    requires stage { is_declaring item.stage ≡ true }
    requires unmarked { so_far s.old item ≡ None }
    ensures work { OnOk result (IsAtWork u.now s.new) }
    ensures steps { IfOk result (StepsBy u.now s.old s.new item (tell (sight s.old) (R.rule (unit_of u.now) item))) }
{
    let declaring = rules.declare(alloc, u, s, item)?;
    match declaring {
        Declaring::Nothing => {
            leave(u, s, item)?;
            Ok(None)
        }
        Declaring::Waits(other) => Ok(Some(other)),
        Declaring::With(of, under, methods) => {
            let waits = declare_with(alloc, u, s, item, of, under, methods)?;
            Ok(waits)
        }
    }
}
