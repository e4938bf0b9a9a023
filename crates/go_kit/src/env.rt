//! What is seen of the packages of a load's environment, as its export texts spell it.
ghost use Rattle.std.specs.Prelude.{◌≡◌, IfOk, IfSome, MatchOption, None, OnOk};
ghost use Rattle.package_faces.specs.Faces.{Face};
ghost use Rattle.package_faces.specs.Interfaces.{face_of, faces_of, IsInterfaceIn, AreInterfacesIn};
ghost use Rattle.type_model.specs.Tables.{IsTable, Grown, types_in, count};
ghost use Rattle.action_graph.specs.Judging.{Env, AreInterfaces};
ghost use Rattle.go_kit.specs.Keeping.{AreKnown};
ghost use Rattle.go_kit.specs.Reading.{IsFaceOf};

use crate::kept::Known;
use crate::known::taken;
use export_text::read;
use gv_base::{Bytes, NoMemory, Text};
use package_faces::Interface;
use std::alloc::Global;
use std::collections::HashMap;
use type_model::TypeTable;

/// The interface, if it is of this path.
fn keep_path(path: &str, interface: Interface) -> Option<Interface>
    ensures kept { IfSome result (λ kept. (kept ≡ interface) × (interface.path ≡ path.now)) }
    ensures none { result ≡ None → interface.path ≡ path.now → ⊥ }
{
    if interface.path.as_str() == path {
        return Some(interface);
    }
    None
}

/// The interface of an export text that isn't known; None where it spells none, or one of another path. Its types are in the table.
#[tactic(auto, using(type_texts::proofs::GrowLaws::grown_itself))]
fn read_new(
    alloc: Global,
    table: &mut TypeTable,
    pair: &(Text, Bytes),
) -> Result<Option<Interface>, NoMemory>
    requires table { IsTable table.old }
    ensures grown { Grown table.old table.new }
    ensures is { IfOk result (λ read. MatchOption read ((f : Face) → IsFaceOf pair.now f → ⊥) (λ i. IsFaceOf pair.now (face_of (types_in table.new) i))) }
    ensures within { IfOk result (λ read. IfSome read (λ i. IsInterfaceIn (count table.new) (types_in table.new) i)) }
{
    let read = read(alloc, table, pair.1.as_slice())?;
    match read {
        Some(interface) => Ok(keep_path(pair.0.as_str(), interface)),
        None => Ok(None),
    }
}

/// The interface of an export text: what is known of it, or else what is read.
#[tactic(auto, using(type_texts::proofs::GrowLaws::grown_itself))]
fn read_face(
    alloc: Global,
    table: &mut TypeTable,
    known: &mut HashMap<String, Known>,
    pair: &(Text, Bytes),
) -> Result<Option<Interface>, NoMemory>
    requires table { IsTable table.old }
    requires known { AreKnown table.old known.old }
    ensures grown { Grown table.old table.new }
    ensures known { OnOk result (AreKnown table.new known.new) }
    ensures is { IfOk result (λ read. MatchOption read ((f : Face) → IsFaceOf pair.now f → ⊥) (λ i. IsFaceOf pair.now (face_of (types_in table.new) i))) }
    ensures within { IfOk result (λ read. IfSome read (λ i. IsInterfaceIn (count table.new) (types_in table.new) i)) }
{
    let path = pair.0.as_str();
    match taken(table, known, path, pair.1.as_slice()) {
        Some(face) => Ok(keep_path(path, face)),
        None => {
            let read = read_new(alloc, table, pair)?;
            Ok(read)
        }
    }
}

/// The interfaces of some export texts, with their types in the table; None where one has none.
#[tactic(auto, using(type_texts::proofs::GrowLaws::grown_itself))]
pub(crate) fn read_env(
    alloc: Global,
    table: &mut TypeTable,
    known: &mut HashMap<String, Known>,
    env: &[(Text, Bytes)],
) -> Result<Option<Vec<Interface>>, NoMemory>
    requires table { IsTable table.old }
    requires known { AreKnown table.old known.old }
    ensures grown { Grown table.old table.new }
    ensures known { IfOk result (λ read. IfSome read (λ _. AreKnown table.new known.new)) }
    ensures is { IfOk result (λ read. MatchOption read ((faces : Env) → AreInterfaces env.now faces → ⊥) (λ list. AreInterfaces env.now (faces_of (types_in table.new) list.items))) }
    ensures within { IfOk result (λ read. IfSome read (λ list. AreInterfacesIn (count table.new) (types_in table.new) list.items)) }
{
    let mut list = Vec::new(alloc);
    for pair in env {
        let read = read_face(alloc, table, known, pair)?;
        match read {
            Some(interface) => list.push(interface)?,
            None => return Ok(None),
        }
    }
    Ok(Some(list))
}
