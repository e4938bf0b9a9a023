//! Whether the lists of an interface stand in order, each item once.
ghost use Rattle.std.specs.Prelude.{◌≡◌, map};
ghost use Rattle.type_model.specs.Parts.{method_of};
ghost use Rattle.type_model.specs.Tables.{types_in};
ghost use Rattle.package_faces.specs.Orders.{rises, method_before, object_before, defined_before};
ghost use Rattle.package_faces.specs.Interfaces.{object_in, defined_in};

use package_faces::{Exported, ExportedType};
use type_model::{Method, TypeTable};
use type_texts::{method_precedes, precedes};

/// Whether methods stand in order of name and package, each once.
pub fn methods_rise(_table: &TypeTable, methods: &[Method]) -> bool
    ensures { result ≡ rises method_before (map (λ m. method_of (types_in _table.now) m) methods.now) }
{
    let Some((first, rest)) = methods.split_first() else {
        return true;
    };
    let mut last = first;
    let mut rest = rest;
    while let [next, more @ ..] = rest {
        if !method_precedes(last, next) {
            return false;
        }
        last = next;
        rest = more;
    }
    true
}

/// Whether objects stand in order of name, each once.
pub fn objects_rise(_table: &TypeTable, objects: &[Exported]) -> bool
    ensures { result ≡ rises object_before (map (λ o. object_in (types_in _table.now) o) objects.now) }
{
    let Some((first, rest)) = objects.split_first() else {
        return true;
    };
    let mut last = first;
    let mut rest = rest;
    while let [next, more @ ..] = rest {
        if !precedes(&last.name, &next.name) {
            return false;
        }
        last = next;
        rest = more;
    }
    true
}

/// Whether defined types stand in order of name, each once.
pub fn defineds_rise(_table: &TypeTable, types: &[ExportedType]) -> bool
    ensures { result ≡ rises defined_before (map (λ d. defined_in (types_in _table.now) d) types.now) }
{
    let Some((first, rest)) = types.split_first() else {
        return true;
    };
    let mut last = first;
    let mut rest = rest;
    while let [next, more @ ..] = rest {
        if !precedes(&last.name, &next.name) {
            return false;
        }
        last = next;
        rest = more;
    }
    true
}
