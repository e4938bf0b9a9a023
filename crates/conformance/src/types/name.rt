//! The names that the rows give to types.
ghost use Rattle.std.specs.Prelude.{◌≡◌, ◌<◌, IfOk, []};
ghost use Rattle.type_model.specs.GoTypes.{AreBelow};
ghost use Rattle.type_model.specs.Tables.{count};

use anyhow::{Result, bail};
use gv_base::{Row, Text};
use std::alloc::Global;
use type_model::{TypeId, TypeName, TypeTable};

/// The type of this name.
pub fn find(_t: &TypeTable, names: &[&str], ids: &[TypeId], name: &str) -> Result<TypeId>
    requires { AreBelow (count _t.now) ids.now }
    ensures { IfOk result (λ id. id.0 < count _t.now) }
{
    for (i, known) in names.iter().enumerate() {
        if *known == name && i < ids.len() {
            return Ok(ids[i]);
        }
    }
    bail!("a type without a row")
}

/// The types of these names, with commas between; `-` is no name.
pub fn find_all(
    alloc: Global,
    t: &TypeTable,
    names: &[&str],
    ids: &[TypeId],
    list: &str,
) -> Result<Row<TypeId>>
    requires { AreBelow (count t.now) ids.now }
    ensures { IfOk result (λ row. AreBelow (count t.now) row) }
{
    let mut found = Vec::new(alloc);
    if list == "-" {
        return Ok(Row::new(found));
    }
    for name in list.split(",") {
        let id = find(t, names, ids, name)?;
        found.push(id)?;
    }
    Ok(Row::new(found))
}

pub fn text(alloc: Global, s: &str) -> Result<Text>
    ensures { IfOk result (λ text. text ≡ s.now) }
{
    let copy = String::from_str(alloc, s)?;
    Ok(Text::new(copy))
}

pub fn type_name(alloc: Global, name: &str) -> Result<TypeName>
    ensures { IfOk result (λ n. n ≡ record { «package» = []; name = name.now; local = 0 }) }
{
    let owner = text(alloc, "")?;
    let name = text(alloc, name)?;
    Ok(TypeName {
        package: owner,
        name,
        local: 0,
    })
}
