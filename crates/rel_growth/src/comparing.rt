//! Comparable types while names may still be undeclared.
ghost use Rattle.std.specs.Prelude.{◌≡◌, ◌<◌, IfOk};
ghost use Rattle.type_model.specs.GoTypes.{type_at};
ghost use Rattle.type_model.specs.Tables.{types_in, count, IsTable};
ghost use Rattle.type_growth.specs.Lasting.{IsReply};
ghost use Rattle.rel_growth.specs.Compare.{EnoughToCompare, NeedsToCompare, SaysComparable};

use crate::meeting::undeclared;
use gv_base::NoMemory;
use std::alloc::Global;
use type_growth::Reply;
use type_model::{TypeId, TypeTable};
use type_rel::comparable;

/// Whether values of a type may be compared (Go 1.17, "Comparison operators"), as `comparable` tells it, once
/// enough is declared; else a type that has to be declared first. Where it is comparable this takes no
/// memory, and the same time for every type; else a time in step with the types that it holds.
pub fn compare(alloc: Global, t: &TypeTable, a: TypeId) -> Result<Reply<bool>, NoMemory>
    requires table { IsTable t.now }
    requires within { a.0 < count t.now }
    ensures { IfOk result (IsReply EnoughToCompare NeedsToCompare SaysComparable t.now (type_at (types_in t.now) a)) }
{
    if comparable(t, a) {
        return Ok(Reply::Is(true));
    }
    let waits = undeclared(alloc, t, a)?;
    match waits {
        Some(id) => Ok(Reply::Waits(id)),
        None => Ok(Reply::Is(false)),
    }
}
