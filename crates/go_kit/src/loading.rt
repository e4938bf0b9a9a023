//! What comes of a load.
ghost use Rattle.std.specs.Prelude.{◌≡◌, ◌<◌, ◌^◌, map, length, Err, IfOk, IfSome};
ghost use Rattle.face_table.specs.Fitting.{universe};
ghost use Rattle.package_faces.specs.Interfaces.{faces_of, AreInterfacesIn};
ghost use Rattle.type_model.specs.declared.term.TypeName.{TypeName as AName};
ghost use Rattle.type_model.specs.Tables.{Extends, count, declarations_in, terms_in, types_in};
ghost use Rattle.typed_tree.specs.Basics.{HasBasics};
ghost use Rattle.action_graph.specs.Judging.{AreInterfaces, IfAccepted, IsReadable, IsOutcome, IsStuck, load_text, text_of};
ghost use Rattle.go_kit.specs.Keeping.{AreKnown, IsKept, IsStore};
ghost use Rattle.go_kit.specs.Loading.{IsKeeping, IsLoadOf, IsTypedOver};
ghost use Rattle.go_kit.specs.Reading.{AreFilesOf, IsUnread, RefusesUnmarked};

use crate::env::read_env;
use crate::kept::{Kept, Known};
use crate::loaded::{Loaded, loaded_of};
use crate::read::read_files;
use crate::storing::{begun, kept_after};
use crate::tell::{judge, marks_text};
use action_graph::{Load, LoadInput, Trees, Unloaded};
use check_pkg::Typed;
use face_table::declare_faces;
use go_tree::FileTree;
use package_faces::Interface;
use std::alloc::Global;
use std::collections::HashMap;
use type_model::TypeTable;

/// What comes of a package with these trees, over the interfaces of its environment: an accepted package as it is typed; of a refused one the table,
/// if the types of its environment could be declared. In the table are their types, and `error` alone is declared.
fn load_over(
    alloc: Global,
    input: &LoadInput,
    trees: &[FileTree],
    table: TypeTable,
    env: &[Interface],
) -> Result<(Load<Typed>, Option<TypeTable>), Unloaded>
    requires files { AreFilesOf (map text_of input.now.files) trees.now }
    requires few { length input.now.files < 2 ^ 32 }
    requires basics { HasBasics table }
    requires error { (name : AName) → declarations_in table name ≡ universe name }
    requires within { AreInterfacesIn (count table) (types_in table) env.now }
    requires read { AreInterfaces input.now.env (faces_of (types_in table) env.now) }
    ensures accepted { IfOk result (λ r. IfAccepted r.0 (IsTypedOver input.now trees.now env.now)) }
    ensures grown { IfOk result (λ r. IfAccepted r.0 (λ t. Extends (terms_in table) (terms_in t.state.table))) }
    ensures basics { IfOk result (λ r. IfSome r.1 HasBasics) }
    ensures extends { IfOk result (λ r. IfSome r.1 (λ t. Extends (terms_in table) (terms_in t))) }
    ensures read { IsReadable input.now → IfOk result (λ r. IsOutcome input.now (load_text r.0)) }
    ensures circle { result ≡ Err Unloaded.Stuck → IsStuck input.now }
    ensures unread { IsUnread input.now → IfOk result (λ r. RefusesUnmarked (load_text r.0)) }
{
    let mut table = table;
    let path = input.path.as_str();
    let fit = declare_faces(alloc, &mut table, path.as_bytes(), env)?;
    if !fit {
        let marks = marks_text(alloc, &[])?;
        return Ok((Load::Refused { marks }, None));
    }
    let files = input.files.as_slice();
    let loaded = judge(alloc, path, files, trees, table, env)?;
    Ok(loaded)
}

/// The same, and what is kept after it where nothing is loaded.
fn load_env(
    alloc: Global,
    input: &LoadInput,
    trees: Vec<FileTree>,
    table: TypeTable,
    known: HashMap<String, Known>,
    env: Vec<Interface>,
) -> Result<(Load<Loaded>, Option<Kept>), Unloaded>
    requires files { AreFilesOf (map text_of input.now.files) trees.items }
    requires few { length input.now.files < 2 ^ 32 }
    requires basics { HasBasics table }
    requires known { AreKnown table known }
    requires error { (name : AName) → declarations_in table name ≡ universe name }
    requires within { AreInterfacesIn (count table) (types_in table) env.items }
    requires read { AreInterfaces input.now.env (faces_of (types_in table) env.items) }
    ensures of { IfOk result (λ r. IfAccepted r.0 (λ l. IsLoadOf l input.now)) }
    ensures keeps { IfOk result (λ r. IfAccepted r.0 IsKeeping) }
    ensures kept { IfOk result (λ r. IsStore r.1) }
    ensures read { IsReadable input.now → IfOk result (λ r. IsOutcome input.now (load_text r.0)) }
    ensures circle { result ≡ Err Unloaded.Stuck → IsStuck input.now }
    ensures unread { IsUnread input.now → IfOk result (λ r. RefusesUnmarked (load_text r.0)) }
{
    let (load, after) = load_over(alloc, input, &trees, table, &env)?;
    match load {
        Load::Accepted {
            loaded: typed,
            export,
        } => {
            let loaded = loaded_of(alloc, input, trees, typed, known, env)?;
            Ok((Load::Accepted { loaded, export }, None))
        }
        Load::Refused { marks } => {
            let kept = kept_after(alloc, after, known, input.env.as_slice(), env)?;
            Ok((Load::Refused { marks }, kept))
        }
    }
}

/// What comes of a package with these trees, over what is kept.
fn load_trees(
    alloc: Global,
    kept: Kept,
    input: &LoadInput,
    trees: Vec<FileTree>,
) -> Result<(Load<Loaded>, Option<Kept>), Unloaded>
    requires kept { IsKept kept }
    requires base { (name : AName) → declarations_in kept.table name ≡ universe name }
    requires files { AreFilesOf (map text_of input.now.files) trees.items }
    requires few { length input.now.files < 2 ^ 32 }
    ensures of { IfOk result (λ r. IfAccepted r.0 (λ l. IsLoadOf l input.now)) }
    ensures keeps { IfOk result (λ r. IfAccepted r.0 IsKeeping) }
    ensures kept { IfOk result (λ r. IsStore r.1) }
    ensures read { IsReadable input.now → IfOk result (λ r. IsOutcome input.now (load_text r.0)) }
    ensures circle { result ≡ Err Unloaded.Stuck → IsStuck input.now }
    ensures unread { IsUnread input.now → IfOk result (λ r. RefusesUnmarked (load_text r.0)) }
{
    let Kept { table, known } = kept;
    let mut table = table;
    let mut known = known;
    let read = read_env(alloc, &mut table, &mut known, input.env.as_slice())?;
    match read {
        Some(env) => {
            let loaded = load_env(alloc, input, trees, table, known, env)?;
            Ok(loaded)
        }
        None => {
            let marks = marks_text(alloc, &[])?;
            Ok((Load::Refused { marks }, None))
        }
    }
}

/// What comes of a package, over what is kept. Files that were parsed before aren't parsed again.
pub(crate) fn load_package(
    alloc: Global,
    kept: Option<Kept>,
    input: &LoadInput,
    parsed: Option<Trees>,
) -> Result<(Load<Loaded>, Option<Kept>), Unloaded>
    requires { IsStore kept }
    ensures of { IfOk result (λ r. IfAccepted r.0 (λ l. IsLoadOf l input.now)) }
    ensures keeps { IfOk result (λ r. IfAccepted r.0 IsKeeping) }
    ensures kept { IfOk result (λ r. IsStore r.1) }
    ensures read { IsReadable input.now → IfOk result (λ r. IsOutcome input.now (load_text r.0)) }
    ensures circle { result ≡ Err Unloaded.Stuck → IsStuck input.now }
    ensures unread { IsUnread input.now → IfOk result (λ r. RefusesUnmarked (load_text r.0)) }
{
    let files = input.files.as_slice();
    if files.len() >= 1 << 32 {
        let marks = marks_text(alloc, &[])?;
        return Ok((Load::Refused { marks }, kept));
    }
    let read = read_files(alloc, files, parsed)?;
    match read {
        Some(trees) => {
            let begun = begun(alloc, kept)?;
            let loaded = load_trees(alloc, begun, input, trees)?;
            Ok(loaded)
        }
        None => {
            let marks = marks_text(alloc, &[])?;
            Ok((Load::Refused { marks }, kept))
        }
    }
}
