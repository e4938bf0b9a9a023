//! Reading a type into a table, without recursion.
#![tactic(auto, using(crate::proofs::GrowLaws::grown_itself))]

ghost use Rattle.std.specs.Prelude.{◌<◌, IfOk};
ghost use Rattle.gv_bytes.specs.Reading.{Gives};
ghost use Rattle.type_model.specs.GoTypes.{type_at as type_of_id};
ghost use Rattle.type_model.specs.Tables.{IsTable, Grown, types_in, count};
ghost use Rattle.type_texts.specs.Building.{built, type_at};
ghost use Rattle.type_texts.specs.Values.{parts_in, Stand};

use crate::piece_reading::pieces_of;
use crate::pieces::Piece;
use crate::placing::place;
use crate::taking::take_type;
use crate::values::Value;
use gv_bytes::Unread;
use std::alloc::Global;
use type_model::{TypeId, TypeTable};

/// Room for what most types have of parts at a time.
const ROOM: usize = 8;

/// What a row makes, from its end.
fn build(alloc: Global, table: &mut TypeTable, row: Vec<Piece>) -> Result<Vec<Value>, Unread>
    requires table { IsTable table.old }
    ensures grown { Grown table.old table.new }
    ensures table { IsTable table.new }
    ensures is { Gives (λ values. parts_in (types_in table.new) values.items) result (built row.items) }
    ensures stand { IfOk result (λ values. Stand (count table.new) values.items) }
{
    let mut values = Vec::with_capacity(alloc, ROOM)?;
    let mut row = row;
    while let Some(piece) = row.pop() {
        place(alloc, table, &mut values, piece)?;
    }
    Ok(values)
}

/// The type at the front of the bytes, in the table, and the bytes after it.
#[tactic(auto, using(crate::proofs::GrowLaws::grown_itself), unfolding(crate::specs::Building::type_at))]
pub fn read_type<'a>(
    alloc: Global,
    table: &mut TypeTable,
    bytes: &'a [u8],
) -> Result<(TypeId, &'a [u8]), Unread>
    requires table { IsTable table.old }
    ensures grown { Grown table.old table.new }
    ensures table { IsTable table.new }
    ensures is { Gives (λ x. (type_of_id (types_in table.new) x.0, x.1.now)) result (type_at bytes.now) }
    ensures below { IfOk result (λ x. x.0.0 < count table.new) }
{
    let (row, rest) = pieces_of(alloc, bytes)?;
    let mut values = build(alloc, table, row)?;
    let id = take_type(table, &mut values)?;
    Ok((id, rest))
}
