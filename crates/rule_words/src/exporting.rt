//! What the packages of imports export, over the types of the table.
ghost use Rattle.std.specs.Prelude.{◌≡◌, IfSome};
ghost use Rattle.std.specs.Option.{option_copied};
ghost use Rattle.package_faces.specs.Interfaces.{faces_of};
ghost use Rattle.type_model.specs.Tables.{types_in, count};
ghost use Rattle.unit_read.specs.Exports.{uses_in, IsUseIn};
ghost use Rattle.unit_read.specs.Imports.{exported_of};
ghost use Rattle.unit_read.specs.Subjects.{full_of, unit_of};
ghost use Rattle.rule_words.specs.Scenes.{IsScene};

use go_tree::Object;
use package_faces::Exported;
use typed_marks::State;
use unit_read::{Subject, exported_of};

/// What the package that an object is has for a name. Over the table the packages are seen as the unit has them.
pub fn exported<'a>(
    u: &Subject<'a>,
    s: &State,
    name: &[u8],
    object: Option<Object>,
) -> Option<&'a Exported>
    requires { IsScene u.now s.now }
    ensures is { uses_in (types_in s.now.table) (option_copied result) ≡ exported_of (unit_of u.now) name.now object }
    ensures within { IfSome (option_copied result) (IsUseIn (count s.now.table)) }
    ensures seen { faces_of (types_in s.now.table) u.now.env.now.interfaces.now ≡ (full_of u.now).env }
{
    let _ = s;
    exported_of(u, name, object)
}
