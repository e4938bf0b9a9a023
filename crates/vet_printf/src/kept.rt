//! Arguments by the types of a table, each judged once.
ghost use Rattle.std.specs.Prelude.{◌≡◌, ◌<◌, length, set, slice_index_or, Some, None, IfOk, IfSome, OnOk};
ghost use Rattle.type_model.specs.GoTypes.{type_at};
ghost use Rattle.type_model.specs.Tables.{IsTable, types_in, count, declarations_in};
ghost use Rattle.vet_printf.specs.Tables.{IsArgumentOf, AreJudged};

use crate::by_type::argument_of;
use crate::fault::Argument;
use gv_base::NoMemory;
use std::alloc::Global;
use type_model::{TypeId, TypeTable};

fn count_types(t: &TypeTable) -> usize
    ensures { result ≡ count t.now }
{
    t.terms().len()
}

/// An empty cell for each type of a table.
pub(crate) fn no_cells(alloc: Global, t: &TypeTable) -> Result<Vec<Option<Argument>>, NoMemory>
    ensures { IfOk result (λ cells. AreJudged t.now cells.items) }
{
    let count = count_types(t);
    let mut cells = Vec::with_capacity(alloc, count)?;
    for id in 0..count {
        cells.push(None)?;
    }
    Ok(cells)
}

fn cell_at(cells: &[Option<Argument>], n: u32) -> Option<Argument>
    ensures { result ≡ slice_index_or cells.now n None }
{
    match cells.get(n as usize) {
        Some(cell) => *cell,
        None => None,
    }
}

fn kept_at(t: &TypeTable, cells: &[Option<Argument>], id: TypeId) -> Option<Argument>
    requires { AreJudged t.now cells.now }
    ensures { IfSome result (IsArgumentOf (declarations_in t.now) (type_at (types_in t.now) id)) }
{
    let _ = t;
    cell_at(cells, id.0)
}

/// What is known of an argument of a type, which is judged where its cell is empty.
pub(crate) fn kept_argument(
    alloc: Global,
    t: &TypeTable,
    cells: &[Option<Argument>],
    id: TypeId,
) -> Result<Argument, NoMemory>
    requires table { IsTable t.now }
    requires within { id.0 < count t.now }
    requires cells { AreJudged t.now cells.now }
    ensures { IfOk result (IsArgumentOf (declarations_in t.now) (type_at (types_in t.now) id)) }
{
    match kept_at(t, cells, id) {
        Some(argument) => Ok(argument),
        None => {
            let argument = argument_of(alloc, t, id)?;
            Ok(argument)
        }
    }
}

fn put(cells: &mut Vec<Option<Argument>>, id: TypeId, argument: Argument)
    requires { id.0 < length cells.old.items }
    ensures { cells.new.items ≡ set cells.old.items id.0 (Some argument) }
{
    cells[id.0 as usize] = Some(argument);
}

/// Judges arguments of a type, if their cell is empty.
pub(crate) fn judge_type(
    alloc: Global,
    t: &TypeTable,
    cells: &mut Vec<Option<Argument>>,
    id: TypeId,
) -> Result<(), NoMemory>
    requires table { IsTable t.now }
    requires within { id.0 < count t.now }
    requires cells { AreJudged t.now cells.old.items }
    ensures { OnOk result (AreJudged t.now cells.new.items) }
{
    match kept_at(t, cells, id) {
        Some(_argument) => Ok(()),
        None => {
            let argument = argument_of(alloc, t, id)?;
            put(cells, id, argument);
            Ok(())
        }
    }
}
