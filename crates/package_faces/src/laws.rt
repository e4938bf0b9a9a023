//! Laws of what packages see of one another.
ghost use Rattle.std.specs.Prelude.{◌≡◌, length};
ghost use Rattle.type_model.specs.declared.table.TypeTable.{TypeTable as Table};
ghost use Rattle.type_model.specs.Tables.{Grown, count, types_in};
ghost use Rattle.package_faces.specs.Interfaces.{faces_of, AreInterfacesIn};

use crate::interface::Interface;

/// Packages over a table are seen the same where the table has grown, and their numbers still stand in it.
pub fn faces_stay_as_a_table_grows(_interfaces: &[Interface])
    ensures same { (old new : Table) → Grown old new → AreInterfacesIn (count old) (types_in old) _interfaces.now → faces_of (types_in new) _interfaces.now ≡ faces_of (types_in old) _interfaces.now }
    ensures within { (old new : Table) → Grown old new → AreInterfacesIn (count old) (types_in old) _interfaces.now → AreInterfacesIn (count new) (types_in new) _interfaces.now }
{}
