//! Writing a type of a table.
ghost use Rattle.std.specs.Prelude.{◌≡◌, ◌<◌, ◌++◌, OnOk};
ghost use Rattle.type_model.specs.GoTypes.{FuncOf, type_at, signature_of, SignatureBelow};
ghost use Rattle.type_model.specs.Tables.{IsTable, types_in, count};
ghost use Rattle.type_texts.specs.Answers.{Tells};
ghost use Rattle.type_texts.specs.Texts.{type_text, IsType};

use crate::piece_writing::put_row;
use crate::type_rows::{function_row, row_of};
use gv_bytes::Unread;
use std::alloc::Global;
use type_model::{Signature, TypeId, TypeTable};

/// Adds the text of a type. Unspelled exactly where it has none.
pub fn put_type(
    alloc: Global,
    out: &mut Vec<u8>,
    table: &TypeTable,
    id: TypeId,
) -> Result<(), Unread>
    requires table { IsTable table.now }
    requires within { id.0 < count table.now }
    ensures written { OnOk result (out.new.items ≡ out.old.items ++ type_text (type_at (types_in table.now) id)) }
    ensures fits { Tells (IsType (type_at (types_in table.now) id)) result }
{
    let row = row_of(alloc, table, id)?;
    put_row(out, &row)?;
    Ok(())
}

/// Adds the text of the function type with this signature.
pub fn put_function(
    alloc: Global,
    out: &mut Vec<u8>,
    table: &TypeTable,
    of: &Signature,
) -> Result<(), Unread>
    requires table { IsTable table.now }
    requires within { SignatureBelow (count table.now) of.now }
    ensures written { OnOk result (out.new.items ≡ out.old.items ++ type_text (FuncOf (signature_of (types_in table.now) of.now))) }
    ensures fits { Tells (IsType (FuncOf (signature_of (types_in table.now) of.now))) result }
{
    let row = function_row(alloc, table, of)?;
    put_row(out, &row)?;
    Ok(())
}
