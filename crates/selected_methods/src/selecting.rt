//! What a selector selects.
ghost use Rattle.std.specs.Prelude.{◌≡◌, ◌<◌, IfOk};
ghost use Rattle.mark_walk.specs.Asks.{filled};
ghost use Rattle.type_model.specs.GoTypes.{type_at};
ghost use Rattle.type_model.specs.Tables.{IsTable, types_in, count, declarations_in};
ghost use Rattle.typed_marks.specs.Meanings.{Quiet};
ghost use Rattle.typed_marks.specs.States.{so_far};
ghost use Rattle.unit_read.specs.Subjects.{full_of, unit_of, IsRead};
ghost use Rattle.rule_words.specs.Scenes.{IsScene, type_in, IsTypeOf};
ghost use Rattle.selected_methods.specs.Selected.{method_led, IsMethodOf, IsSelectedMethod};
ghost use Rattle.selected_methods.specs.InCode.{method_found, method_chosen, IsWhat};

use crate::methods::method_of;
use crate::owners::{owner_of, selected_name};
use crate::ways::{base_of, led};
use go_tree::NodeRef;
use gv_base::NoMemory;
use method_sets::{Selected, Selection, choose, selection_lasts};
use std::alloc::Global;
use type_growth::Reply;
use type_model::{TypeId, TypeTable};
use typed_marks::State;
use unit_read::Subject;

fn method_led(u: &Subject, t: &TypeTable, name: &[u8], of: TypeId, path: &[u32]) -> Option<NodeRef>
    requires read { IsRead u.now }
    requires table { IsTable t.now }
    requires within { of.0 < count t.now }
    ensures { result ≡ method_led (unit_of u.now) (declarations_in t.now) name.now (type_at (types_in t.now) of) path.now }
{
    match led(t, base_of(t, of), path) {
        Some(to) => method_of(u, t, name, to),
        None => None,
    }
}

fn method_found(
    u: &Subject,
    t: &TypeTable,
    name: &[u8],
    of: TypeId,
    path: &[u32],
    kind: Selected,
) -> Option<NodeRef>
    requires read { IsRead u.now }
    requires table { IsTable t.now }
    requires within { of.0 < count t.now }
    ensures { result ≡ method_found (unit_of u.now) t.now name.now (type_at (types_in t.now) of) path.now kind }
{
    match kind {
        Selected::Field(_) => None,
        Selected::Method(_, _) => method_led(u, t, name, of, path),
    }
}

/// The method of a selection from a type.
fn method_chosen(
    u: &Subject,
    t: &TypeTable,
    name: &[u8],
    of: TypeId,
    selection: Selection,
) -> Option<NodeRef>
    requires read { IsRead u.now }
    requires table { IsTable t.now }
    requires within { of.0 < count t.now }
    ensures { result ≡ method_chosen (unit_of u.now) t.now name.now (type_at (types_in t.now) of) selection }
{
    match selection {
        Selection::Found { path, kind } => method_found(u, t, name, of, path.as_slice(), kind),
        Selection::Ambiguous { depth: _ } => None,
        Selection::Absent => None,
    }
}

/// The method that a name selects from a type, if enough is declared to tell.
fn selected_from(
    alloc: Global,
    u: &Subject,
    t: &TypeTable,
    name: &str,
    of: TypeId,
) -> Result<Option<NodeRef>, NoMemory>
    requires read { IsRead u.now }
    requires table { IsTable t.now }
    requires within { of.0 < count t.now }
    ensures { IfOk result (IsWhat (IsMethodOf (unit_of u.now) (declarations_in t.now) name.now (type_at (types_in t.now) of))) }
{
    let reply = choose(alloc, t, of, name, u.path_text())?;
    selection_lasts();
    match reply {
        Reply::Is(selection) => Ok(method_chosen(u, t, name.as_bytes(), of, selection)),
        Reply::Waits(_) => Ok(None),
    }
}

/// The method that the selector at a node selects.
pub(crate) fn selected_at(
    alloc: Global,
    u: &Subject,
    s: &State,
    at: NodeRef,
) -> Result<Option<NodeRef>, NoMemory>
    requires { IsScene u.now s.now }
    ensures { IfOk result (IsWhat (IsSelectedMethod (full_of u.now) (filled Quiet (so_far s.now)) at)) }
{
    match owner_of(u, s, at) {
        Some(of) => {
            let found = selected_from(alloc, u, &s.table, selected_name(u, at), of)?;
            Ok(found)
        }
        None => Ok(None),
    }
}
