//! One item is marked with what its rule gives.
ghost use Rattle.std.specs.Prelude.{◌≡◌, ◌<◌, None, true, IfOk, OnOk, length};
ghost use Rattle.mark_walk.specs.Asks.{Adds};
ghost use Rattle.type_model.specs.GoTypes.{type_at, type_of, IsOver};
ghost use Rattle.type_model.specs.Orders.{IsOrdered};
ghost use Rattle.type_model.specs.Tables.{types_in, count, IsAdded};
ghost use Rattle.typed_marks.specs.Items.{IsItem};
ghost use Rattle.typed_marks.specs.States.{so_far, HasGrown};
ghost use Rattle.rule_words.specs.Scenes.{IsScene, said, IsMarkOf, type_in, IsTypeOf};
ghost use Rattle.rule_words.specs.Answers.{typed, constant, answer_in, IsAnswerOf, is_plain, mark_of};

use crate::answer::Answer;
use gv_base::{Const, NoMemory};
use type_model::{Added, Term, TypeId};
use typed_marks::{Facts, Item, Mark, State};
use typed_tree::{Limit, Mode};
use unit_read::Subject;

#[inline(always)]
fn keep_plain(u: &Subject, s: &mut State, item: Item, mark: Mark) -> Result<(), NoMemory>
    requires scene { IsScene u.now s.old }
    requires item { IsItem s.old.blocks.items item }
    requires unmarked { so_far s.old item ≡ None }
    requires over { IsMarkOf s.old mark }
    requires plain { is_plain mark ≡ true }
    ensures scene { OnOk result (IsScene u.now s.new) }
    ensures adds { OnOk result (Adds (so_far s.old) (so_far s.new) item (said s.old mark)) }
    ensures blocks { s.new.blocks ≡ s.old.blocks }
    ensures cells { length s.new.cells.items ≡ length s.old.cells.items }
{
    s.keep(item, mark)?;
    Ok(())
}

/// Marks an item with a mark that declares no type. The two kinds of marks that most items have are kept each by code of its own.
#[inline(always)]
fn keep_mark(u: &Subject, s: &mut State, item: Item, mark: Mark) -> Result<(), NoMemory>
    requires scene { IsScene u.now s.old }
    requires item { IsItem s.old.blocks.items item }
    requires unmarked { so_far s.old item ≡ None }
    requires over { IsMarkOf s.old mark }
    requires plain { is_plain mark ≡ true }
    ensures scene { OnOk result (IsScene u.now s.new) }
    ensures adds { OnOk result (Adds (so_far s.old) (so_far s.new) item (said s.old mark)) }
    ensures blocks { s.new.blocks ≡ s.old.blocks }
    ensures cells { length s.new.cells.items ≡ length s.old.cells.items }
{
    match mark {
        Mark::Silent => {
            keep_plain(u, s, item, Mark::Silent)?;
            Ok(())
        }
        Mark::Good(facts) => {
            keep_plain(u, s, item, Mark::Good(facts))?;
            Ok(())
        }
        mark => {
            keep_plain(u, s, item, mark)?;
            Ok(())
        }
    }
}

/// The mark of a type that was added.
fn mark_of(mode: Mode, added: Added) -> Mark
    ensures { result ≡ mark_of mode added }
{
    match added {
        Added::Id(of) => Mark::Good(Facts {
            mode,
            of,
            value: None,
            last: of,
        }),
        Added::TooWide => Mark::Outside(Limit::WideType),
    }
}

/// Marks an item as good, of a type that may be new.
#[inline(never)]
fn keep_type(u: &Subject, s: &mut State, item: Item, mode: Mode, term: Term) -> Result<(), NoMemory>
    requires scene { IsScene u.now s.old }
    requires item { IsItem s.old.blocks.items item }
    requires unmarked { so_far s.old item ≡ None }
    requires over { IsOver (count s.old.table) term }
    requires ordered { IsOrdered term }
    ensures scene { OnOk result (IsScene u.now s.new) }
    ensures adds { OnOk result (Adds (so_far s.old) (so_far s.new) item (typed mode (type_of (types_in s.old.table) term))) }
    ensures blocks { OnOk result (s.new.blocks ≡ s.old.blocks) }
    ensures cells { OnOk result (length s.new.cells.items ≡ length s.old.cells.items) }
{
    let added = s.add(term)?;
    keep_mark(u, s, item, mark_of(mode, added))?;
    Ok(())
}

/// Marks an item as a constant.
#[inline(never)]
fn keep_constant(
    u: &Subject,
    s: &mut State,
    item: Item,
    of: TypeId,
    last: TypeId,
    value: Const,
) -> Result<(), NoMemory>
    requires scene { IsScene u.now s.old }
    requires item { IsItem s.old.blocks.items item }
    requires unmarked { so_far s.old item ≡ None }
    requires of { IsTypeOf s.old of }
    requires last { IsTypeOf s.old last }
    ensures scene { OnOk result (IsScene u.now s.new) }
    ensures adds { OnOk result (Adds (so_far s.old) (so_far s.new) item (constant (type_in s.old of) (type_in s.old last) value)) }
    ensures blocks { OnOk result (s.new.blocks ≡ s.old.blocks) }
    ensures cells { OnOk result (length s.new.cells.items ≡ length s.old.cells.items) }
{
    let value = s.add_constant(value)?;
    let facts = Facts {
        mode: Mode::Constant,
        of,
        value: Some(value),
        last,
    };
    keep_mark(u, s, item, Mark::Good(facts))?;
    Ok(())
}

/// Marks an item that has no mark with what its rule gives.
#[inline(always)]
pub fn keep(u: &Subject, s: &mut State, item: Item, answer: Answer) -> Result<(), NoMemory>
    requires scene { IsScene u.now s.old }
    requires item { IsItem s.old.blocks.items item }
    requires unmarked { so_far s.old item ≡ None }
    requires answer { IsAnswerOf s.old answer }
    ensures scene { OnOk result (IsScene u.now s.new) }
    ensures adds { OnOk result (Adds (so_far s.old) (so_far s.new) item (answer_in s.old answer)) }
    ensures blocks { OnOk result (s.new.blocks ≡ s.old.blocks) }
    ensures cells { OnOk result (length s.new.cells.items ≡ length s.old.cells.items) }
{
    match answer {
        Answer::Mark(mark) => {
            keep_mark(u, s, item, mark)?;
            Ok(())
        }
        Answer::Type(mode, term) => {
            keep_type(u, s, item, mode, term)?;
            Ok(())
        }
        Answer::Constant(of, last, value) => {
            keep_constant(u, s, item, of, last, value)?;
            Ok(())
        }
    }
}
