//! What was read before is taken again, and kept again.
ghost use Rattle.std.specs.Prelude.{◌≡◌, ℕ, List, Some, IfOk, IfSome, OnOk, length, slice_get};
ghost use Rattle.std.specs.HashMap.{get_by_text};
ghost use Rattle.action_graph.specs.Nodes.{Named};
ghost use Rattle.go_kit.specs.declared.kept.Known.{Known as OneKnown};
ghost use Rattle.go_kit.specs.Keeping.{AreKnown, IsKnown};
ghost use Rattle.go_kit.specs.Returning.{AreRead};

use crate::kept::Known;
use gv_base::{Bytes, NoMemory, Text};
use package_faces::Interface;
use std::alloc::Global;
use std::collections::HashMap;
use type_model::TypeTable;

/// Takes what is known of a path.
fn take(known: &mut HashMap<String, Known>, path: &str) -> Option<Known>
    ensures value { result ≡ get_by_text known.old path.now }
    ensures rest { (q : List ℕ) (k : OneKnown) → get_by_text known.new q ≡ Some k → get_by_text known.old q ≡ Some k }
{
    known.remove(path)
}

/// The interface, if its text is this one.
fn same(known: Known, text: &[u8]) -> Option<Interface>
    ensures { IfSome result (λ face. (face ≡ known.face) × (known.text ≡ text.now)) }
{
    if known.text.as_slice() == text {
        return Some(known.face);
    }
    None
}

/// Takes the interface that was read of a text. What is known of its path is taken either way.
pub(crate) fn taken(
    table: &TypeTable,
    known: &mut HashMap<String, Known>,
    path: &str,
    text: &[u8],
) -> Option<Interface>
    requires known { AreKnown table.now known.old }
    ensures known { AreKnown table.now known.new }
    ensures is { IfSome result (λ face. IsKnown table.now (record { text = text.now; face = face })) }
{
    let _ = table;
    match take(known, path) {
        Some(one) => same(one, text),
        None => None,
    }
}

/// Keeps what was read of a path in place of what was kept of it.
fn put(
    alloc: Global,
    table: &TypeTable,
    known: &mut HashMap<String, Known>,
    pair: &(Text, Bytes),
    face: Interface,
) -> Result<(), NoMemory>
    requires known { AreKnown table.now known.old }
    requires is { IsKnown table.now (record { text = pair.now.1; face = face }) }
    ensures { OnOk result (AreKnown table.now known.new) }
{
    let _ = table;
    let path = String::from_str(alloc, pair.0.as_str())?;
    let text = pair.1.copy(alloc)?;
    known.insert(path, Known { text, face })?;
    Ok(())
}

/// Keeps what was read of the path at a place, if there is one.
fn put_at(
    alloc: Global,
    table: &TypeTable,
    known: &mut HashMap<String, Known>,
    env: &[(Text, Bytes)],
    n: usize,
    face: Interface,
) -> Result<(), NoMemory>
    requires known { AreKnown table.now known.old }
    requires is { (pair : Named) → slice_get env.now n ≡ Some pair → IsKnown table.now (record { text = pair.1; face = face }) }
    ensures { OnOk result (AreKnown table.now known.new) }
{
    if n >= env.len() {
        return Ok(());
    }
    put(alloc, table, known, &env[n], face)?;
    Ok(())
}

fn height(faces: &Vec<Interface>) -> usize
    ensures { result ≡ length faces.now.items }
{
    faces.as_slice().len()
}

/// Keeps the interfaces of a load, each read of the text at its place.
pub(crate) fn put_back(
    alloc: Global,
    table: &TypeTable,
    known: &mut HashMap<String, Known>,
    env: &[(Text, Bytes)],
    faces: Vec<Interface>,
) -> Result<(), NoMemory>
    requires known { AreKnown table.now known.old }
    requires read { AreRead table.now env.now faces.items }
    ensures { OnOk result (AreKnown table.now known.new) }
{
    let mut rest = faces;
    while let Some(face) = rest.pop() {
        put_at(alloc, table, known, env, height(&rest), face)?;
    }
    Ok(())
}
