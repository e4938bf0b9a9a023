//! The table with which a load begins, and what is kept after it.
ghost use Rattle.std.specs.Prelude.{◌≡◌, IfOk, IfSome};
ghost use Rattle.face_table.specs.Fitting.{universe};
ghost use Rattle.type_model.specs.declared.term.TypeName.{TypeName as AName};
ghost use Rattle.type_model.specs.Tables.{declarations_in};
ghost use Rattle.typed_tree.specs.Basics.{HasBasics};
ghost use Rattle.go_kit.specs.Keeping.{AreKnown, IsKept, IsStore};
ghost use Rattle.go_kit.specs.Loading.{IsKeeping};
ghost use Rattle.go_kit.specs.Returning.{AreRead};

use crate::kept::{Kept, Known};
use crate::known::put_back;
use crate::loaded::{Loaded, table_in};
use face_table::{first_table, table_again};
use gv_base::{Bytes, NoMemory, Text};
use package_faces::Interface;
use std::alloc::Global;
use std::collections::HashMap;
use type_model::TypeTable;

/// The table that is kept, in which `error` alone is declared again.
fn again(alloc: Global, old: Kept) -> Result<Kept, NoMemory>
    requires { IsKept old }
    ensures kept { IfOk result IsKept }
    ensures base { IfOk result (λ k. (name : AName) → declarations_in k.table name ≡ universe name) }
{
    let Kept { table, known } = old;
    let table = table_again(alloc, table)?;
    Ok(Kept { table, known })
}

/// A table of the predeclared types, over which nothing is known.
fn first(alloc: Global) -> Result<Kept, NoMemory>
    ensures kept { IfOk result IsKept }
    ensures base { IfOk result (λ k. (name : AName) → declarations_in k.table name ≡ universe name) }
{
    let table = first_table(alloc)?;
    Ok(Kept {
        table,
        known: HashMap::new(alloc),
    })
}

/// The table with which a load begins.
pub(crate) fn begun(alloc: Global, kept: Option<Kept>) -> Result<Kept, NoMemory>
    requires { IsStore kept }
    ensures kept { IfOk result IsKept }
    ensures base { IfOk result (λ k. (name : AName) → declarations_in k.table name ≡ universe name) }
{
    match kept {
        Some(old) => {
            let kept = again(alloc, old)?;
            Ok(kept)
        }
        None => {
            let kept = first(alloc)?;
            Ok(kept)
        }
    }
}

/// What is kept after a load over these interfaces.
pub(crate) fn kept_after(
    alloc: Global,
    table: Option<TypeTable>,
    known: HashMap<String, Known>,
    env: &[(Text, Bytes)],
    faces: Vec<Interface>,
) -> Result<Option<Kept>, NoMemory>
    requires basics { IfSome table HasBasics }
    requires known { IfSome table (λ t. AreKnown t known) }
    requires read { IfSome table (λ t. AreRead t env.now faces.items) }
    ensures { IfOk result IsStore }
{
    match table {
        Some(table) => {
            let mut known = known;
            put_back(alloc, &table, &mut known, env, faces)?;
            Ok(Some(Kept { table, known }))
        }
        None => Ok(None),
    }
}

/// What is kept of a package that was loaded, when it is given back. Where memory is wanting, nothing is.
pub(crate) fn released(alloc: Global, loaded: Loaded) -> Option<Kept>
    requires { IsKeeping loaded }
    ensures { IsStore result }
{
    let Loaded {
        trees: _,
        typed,
        env,
        texts,
        known,
    } = loaded;
    let table = table_in(typed);
    let kept = kept_after(alloc, Some(table), known, texts.as_slice(), env);
    match kept {
        Ok(kept) => kept,
        Err(_) => None,
    }
}

/// How many bytes some export texts have.
fn bytes_of(env: &[(Text, Bytes)]) -> usize {
    let mut bytes: usize = 0;
    for pair in env {
        bytes = bytes.saturating_add(pair.1.as_slice().len());
    }
    bytes
}

/// What a load goes on with, and what is put aside meanwhile. A table is taken up again where it has no more types than a twentieth of the
/// bytes of the export texts: so much longer does it take to go over a type and to copy it than to read a byte.
pub(crate) fn chosen(kept: Option<Kept>, env: &[(Text, Bytes)]) -> (Option<Kept>, Option<Kept>)
    requires { IsStore kept }
    ensures on { IsStore result.0 }
    ensures aside { IsStore result.1 }
{
    match kept {
        Some(old) => {
            if old.table.terms().len() <= bytes_of(env) / 20 {
                (Some(old), None)
            } else {
                (None, Some(old))
            }
        }
        None => (None, None),
    }
}

/// What is kept: what the last load left, or else what was put aside. What it left has no more types than the packages that it was over need.
pub(crate) fn stored(aside: Option<Kept>, after: Option<Kept>) -> Option<Kept>
    requires aside { IsStore aside }
    requires after { IsStore after }
    ensures { IsStore result }
{
    match after {
        Some(new) => Some(new),
        None => aside,
    }
}
