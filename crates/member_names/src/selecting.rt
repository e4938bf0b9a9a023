//! Methods that names select.
ghost use Rattle.std.specs.Prelude.{◌≡◌, ◌<◌, IfOk};
ghost use Rattle.type_model.specs.GoTypes.{type_at};
ghost use Rattle.type_model.specs.Tables.{IsTable, types_in, count, declarations_in};
ghost use Rattle.rule_words.specs.Scenes.{type_in};
ghost use Rattle.findings.specs.Passes.{unit_in, IsPass};
ghost use Rattle.member_names.specs.Named.{IsMethodNamed};
ghost use Rattle.member_names.specs.InCode.{found_named, Finds, method_found, method_chosen};

use crate::named::{Named, method_led};
use findings::Pass;
use gv_base::NoMemory;
use method_sets::{Selected, Selection, select, selection_lasts};
use std::alloc::Global;
use type_model::{TypeId, TypeTable};

fn method_found(
    alloc: Global,
    t: &TypeTable,
    name: &str,
    of: TypeId,
    path: &[u32],
    kind: Selected,
) -> Result<Option<Named>, NoMemory>
    requires table { IsTable t.now }
    requires within { of.0 < count t.now }
    ensures { IfOk result (λ o. found_named o ≡ method_found t.now name.now (type_at (types_in t.now) of) path.now kind) }
{
    match kind {
        Selected::Field(_) => Ok(None),
        Selected::Method(_, _) => {
            let named = method_led(alloc, t, name, of, path)?;
            Ok(named)
        }
    }
}

/// The method of a selection from a type.
fn method_chosen(
    alloc: Global,
    t: &TypeTable,
    name: &str,
    of: TypeId,
    selection: Selection,
) -> Result<Option<Named>, NoMemory>
    requires table { IsTable t.now }
    requires within { of.0 < count t.now }
    ensures { IfOk result (λ o. found_named o ≡ method_chosen t.now name.now (type_at (types_in t.now) of) selection) }
{
    match selection {
        Selection::Found { path, kind } => {
            let named = method_found(alloc, t, name, of, path.as_slice(), kind)?;
            Ok(named)
        }
        Selection::Ambiguous { depth: _ } => Ok(None),
        Selection::Absent => Ok(None),
    }
}

/// The method that a name, written in the package, selects from a type.
pub(crate) fn selected_from(
    alloc: Global,
    p: &Pass,
    name: &str,
    of: TypeId,
) -> Result<Option<Named>, NoMemory>
    requires pass { IsPass p.now }
    requires within { of.0 < count p.now.state.now.table }
    ensures { IfOk result (Finds (IsMethodNamed (unit_in p.now) (declarations_in p.now.state.now.table) name.now (type_in p.now.state.now of))) }
{
    let selection = select(alloc, &p.state.table, of, name, p.subject.path_text())?;
    selection_lasts();
    let named = method_chosen(alloc, &p.state.table, name, of, selection)?;
    Ok(named)
}
