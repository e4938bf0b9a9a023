//! Rules of a package as rules of the walk.
ghost use Rattle.std.specs.Prelude.{◌≡◌, None, IfOk, OnOk};
ghost use Rattle.typed_marks.specs.Meanings.{Meaning};
ghost use Rattle.typed_marks.specs.States.{so_far};
ghost use Rattle.type_questions.specs.Questions.{Question, Told};
ghost use Rattle.unit_read.specs.declared.subject.Subject.{Subject as Known};
ghost use Rattle.unit_read.specs.Subjects.{full_of, unit_of};
ghost use Rattle.mark_walk.specs.Marking.{Steps};
ghost use Rattle.elaborate.specs.Walks.{IsItemOf, IsAwaited, awaited_count, awaited_number, own_numbers, item_rule, is_declaring};
ghost use Rattle.type_answers.specs.Answering.{says_of, pends_of, answers_last};
ghost use Rattle.elaborate.specs.Elaborated.{IsAtWork};

use crate::rules::Rules;
use crate::steps::{declare_by, judge_by};
use gv_base::NoMemory;
use mark_walk::Marking;
use std::alloc::Global;
use typed_marks::{Item, Stage, State, is_item, number_of};
use unit_read::Subject;

/// A package that is being marked.
#[derive(Drop)]
pub struct Work<'a, R: Rules> {
    pub alloc: Global,
    pub rules: &'a R,
    pub subject: &'a Subject<'a>,
    pub state: State,
    pub room: R::Room,
}

fn is_declaring(stage: Stage) -> bool
    ensures { result ≡ is_declaring stage }
{
    match stage {
        Stage::Before => false,
        Stage::Wanted => false,
        Stage::Judged => false,
        Stage::Placed => false,
        Stage::Object => false,
        Stage::Under => true,
    }
}

/// The number of an item; what is nowhere comes after all items.
fn awaited_number(u: &Subject, s: &State, item: Item) -> usize
    requires { IsAtWork u.now s.now }
    ensures { result ≡ awaited_number (full_of u.now) item }
{
    let _ = u;
    if is_item(&s.blocks, item) {
        number_of(&s.blocks, item, s.cells.len())
    } else {
        s.cells.len()
    }
}

/// Marks an item by its rule, or answers the item for which the rule waits.
fn step<R: Rules>(
    alloc: Global,
    rules: &R,
    room: &mut R::Room,
    u: &Subject,
    s: &mut State,
    item: Item,
) -> Result<Option<Item>, NoMemory>
    requires work { IsAtWork u.now s.old }
    requires item { IsItemOf (unit_of u.now) item }
    requires unmarked { so_far s.old item ≡ None }
    ensures work { OnOk result (IsAtWork u.now s.new) }
    ensures steps { IfOk result (Steps (says_of (full_of u.now)) (pends_of (full_of u.now)) (IsAwaited (full_of u.now)) (item_rule R.rule (full_of u.now)) (so_far s.old) (so_far s.new) item) }
{
    if is_declaring(item.stage) {
        let waits = declare_by(alloc, rules, u, s, item)?;
        Ok(waits)
    } else {
        let waits = judge_by(alloc, rules, room, u, s, item)?;
        Ok(waits)
    }
}

/// The same of whatever is waited for: what is nowhere waits for itself.
fn step_any<R: Rules>(
    alloc: Global,
    rules: &R,
    room: &mut R::Room,
    u: &Subject,
    s: &mut State,
    item: Item,
) -> Result<Option<Item>, NoMemory>
    requires work { IsAtWork u.now s.old }
    requires item { IsAwaited (full_of u.now) item }
    requires unmarked { so_far s.old item ≡ None }
    ensures work { OnOk result (IsAtWork u.now s.new) }
    ensures steps { IfOk result (Steps (says_of (full_of u.now)) (pends_of (full_of u.now)) (IsAwaited (full_of u.now)) (item_rule R.rule (full_of u.now)) (so_far s.old) (so_far s.new) item) }
{
    if is_item(&s.blocks, item) {
        let waits = step(alloc, rules, room, u, s, item)?;
        Ok(waits)
    } else {
        Ok(Some(item))
    }
}

impl<'a, R: Rules> Marking for Work<'a, R> {
    type Item = Item;

    ghost Meaning = { Meaning };

    ghost Question = { Question };

    ghost Answer = { Told };

    ghost Subject = { Known };

    ghost subject = { λ w. w.subject.now };

    ghost says = { λ u. says_of (full_of u) };

    ghost pends = { λ u. pends_of (full_of u) };

    ghost IsItem = { λ u. IsAwaited (full_of u) };

    ghost count = { λ u. awaited_count (full_of u) };

    ghost number = { λ u. awaited_number (full_of u) };

    ghost rule = { λ u i. item_rule R.rule (full_of u) i };

    ghost IsState = { λ w. IsAtWork w.subject.now w.state };

    ghost so_far = { λ w. so_far w.state };

    ghost lasts = { λ u. answers_last (full_of u) };

    ghost numbers = { λ u. own_numbers (full_of u) };

    fn count(&self) -> usize {
        self.state.cells.len() + 1
    }

    fn number(&self, item: Item) -> usize {
        awaited_number(self.subject, &self.state, item)
    }

    fn is_marked(&self, item: Item) -> bool {
        self.state.is_marked(item)
    }

    fn judge(&mut self, item: Item) -> Result<Option<Item>, NoMemory> {
        let waits = step_any(
            self.alloc,
            self.rules,
            &mut self.room,
            self.subject,
            &mut self.state,
            item,
        )?;
        Ok(waits)
    }
}
