//! Which imports of a file are used.
ghost use Rattle.std.specs.Prelude.{◌≡◌, ◌<◌, ◌^◌, ℕ, IfOk, OnOk, Some, None, true, cond, if◌then◌else◌, nat_eq, length, option_and_then, slice_get};
ghost use Rattle.std.specs.Option.{option_copied};
ghost use Rattle.mark_walk.specs.Asks.{filled};
ghost use Rattle.object_order.specs.Spots.{place};
ghost use Rattle.package_objects.specs.Declares.{AreSmall};
ghost use Rattle.typed_marks.specs.Meanings.{Quiet};
ghost use Rattle.typed_marks.specs.States.{so_far, IsState};
ghost use Rattle.unit_read.specs.Subjects.{unit_of, IsRead};
ghost use Rattle.unit_read.specs.Units.{nodes_at, object_at};
ghost use Rattle.check_pkg.specs.ImportLists.{has, import_in, Notes, AreUsed};
ghost use Rattle.check_pkg.specs.References.{uses_at};

use crate::references::names_field;
use go_tree::{NodeRef, Object};
use gv_base::NoMemory;
use std::alloc::Global;
use std::collections::HashSet;
use typed_marks::State;
use unit_read::Subject;

/// The node of an import, if it is of this file.
fn node_in(at: NodeRef, file: u32) -> Option<u32>
    ensures { result ≡ import_in file (Some (Object.Import at)) }
{
    if at.file == file { Some(at.node) } else { None }
}

/// The import of this file that an object is.
fn import_in(object: Option<Object>, file: u32) -> Option<u32>
    ensures { result ≡ import_in file object }
{
    match object {
        Some(Object::Import(at)) => node_in(at, file),
        Some(Object::Universe(_)) => None,
        Some(Object::Local(_)) => None,
        Some(Object::Package(_)) => None,
        None => None,
    }
}

/// Whether a node is noted.
pub fn has(used: &HashSet<u32>, node: u32) -> bool
    ensures { result ≡ has used.now node }
{
    used.contains(&node)
}

fn note(used: &mut HashSet<u32>, node: u32) -> Result<(), NoMemory>
    ensures { OnOk result ((q : ℕ) → has used.new q ≡ cond (nat_eq node q) true (has used.old q)) }
{
    used.insert(node)?;
    Ok(())
}

/// Notes an import, if there is one.
fn note_import(used: &mut HashSet<u32>, at: Option<u32>) -> Result<(), NoMemory>
    ensures { OnOk result (Notes at (has used.old) (has used.new)) }
{
    if let Some(node) = at {
        note(used, node)?;
    }
    Ok(())
}

fn cell_in(row: &Vec<Option<Object>>, node: usize) -> Option<Object>
    ensures { result ≡ option_and_then (λ o. o) (slice_get row.now.items node) }
{
    match row.get(node) {
        Some(cell) => *cell,
        None => None,
    }
}

fn row_of<'a>(rows: &'a Vec<Vec<Option<Object>>>, file: u32) -> Option<&'a Vec<Option<Object>>>
    ensures { option_copied result ≡ slice_get rows.now.items file }
{
    rows.get(file as usize)
}

/// What a node of a file denotes.
fn object_in(u: &Subject, file: u32, node: usize) -> Option<Object>
    requires { IsRead u.now }
    ensures { result ≡ object_at (unit_of u.now) (place file node) }
{
    match row_of(&u.objects, file) {
        Some(row) => cell_in(row, node),
        None => None,
    }
}

fn node_count(u: &Subject, file: u32) -> usize
    ensures { result ≡ length (nodes_at (unit_of u.now) file) }
{
    u.nodes_at(file).len()
}

fn unless_field(names: bool, object: Object) -> Option<Object>
    ensures { result ≡ (if names then None else Some object) }
{
    if names { None } else { Some(object) }
}

/// What a node of a file denotes, unless it is the name of a field before a colon.
fn uses_in(u: &Subject, s: &State, file: u32, node: usize) -> Option<Object>
    requires read { IsRead u.now }
    requires state { IsState s.now }
    requires few { node < 2 ^ 32 }
    ensures { result ≡ uses_at (unit_of u.now) (filled Quiet (so_far s.now)) (place file node) }
{
    let at = NodeRef {
        file,
        node: node as u32,
    };
    match object_in(u, file, node) {
        Some(object) => unless_field(names_field(u, s, at), object),
        None => None,
    }
}

/// Which imports the nodes of a file use, by the nodes of the imports.
pub fn used_in(alloc: Global, u: &Subject, s: &State, file: u32) -> Result<HashSet<u32>, NoMemory>
    requires read { IsRead u.now }
    requires state { IsState s.now }
    requires small { AreSmall u.now.trees.now }
    ensures { IfOk result (λ used. AreUsed (unit_of u.now) (filled Quiet (so_far s.now)) file (length (nodes_at (unit_of u.now) file)) (has used)) }
{
    let mut used = HashSet::new(alloc);
    for node in 0..node_count(u, file) {
        let object = uses_in(u, s, file, node);
        note_import(&mut used, import_in(object, file))?;
    }
    Ok(used)
}
