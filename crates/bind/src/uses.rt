//! The uses in the files of a package, each with what it denotes.
ghost use Rattle.std.specs.Prelude.{◌≡◌, ◌<◌, ◌^◌, ℕ, List, length, map, IfOk, OnOk};
ghost use Rattle.go_tree.specs.Bindings.{AreInOrder};
ghost use Rattle.bind.specs.Answers.{AreSpelled, AreSmall, AreFit, AreRead, HaveNames};
ghost use Rattle.bind.specs.Collected.{AddsUses, AreUsesTo};
ghost use Rattle.bind.specs.Denoting.{AreBindings};
ghost use Rattle.bind.specs.Places.{placed, place_from};
ghost use Rattle.bind.specs.Sources.{Sources, AreFiles};
ghost use Rattle.bind.specs.Tables.{found};

use crate::answer::push_uses;
use crate::file::{File, all_names, read_files};
use crate::imports::{import_names, paths_of, specs_in};
use crate::places::places;
use crate::table::earliest;
use crate::tops::{narrow, package_names};
use crate::universe::universe;
use go_tree::{Bindings, FileTree, NodeRef, Object};
use gv_base::{Bytes, NoMemory, Text};
use scopes::Named;
use std::alloc::Global;
use std::collections::HashMap;

/// Adds the uses in a file, each with what it denotes.
fn bind_file(
    alloc: Global,
    files: &[File<'_>],
    file: &File<'_>,
    number: u32,
    named: &[(Text, Text)],
    leads: &HashMap<&[u8], usize>,
    top_names: &HashMap<&[u8], NodeRef>,
    universe: &HashMap<&[u8], usize>,
    out: &mut Vec<(NodeRef, Object)>,
) -> Result<(), NoMemory>
    requires leads { (q : List ℕ) → placed leads.now q ≡ place_from 0 (map (λ e. e.0) named.now) q }
    ensures { OnOk result (AddsUses files.now named.now (found top_names.now) (placed universe.now) number file.now out.old.items out.new.items) }
{
    let head = file.tree.head(alloc, file.bytes)?;
    let specs = specs_in(alloc, file.tree)?;
    let declared = import_names(alloc, named, leads, number, &specs, head.imports.as_slice())?;
    let imports = earliest(alloc, files, &declared)?;
    push_uses(file, number, top_names, &imports, universe, out)?;
    Ok(())
}

/// The uses in the files, each with what it denotes.
fn bind_files(
    alloc: Global,
    files: &[File<'_>],
    named: &[(Text, Text)],
    leads: &HashMap<&[u8], usize>,
    top_names: &HashMap<&[u8], NodeRef>,
    universe: &HashMap<&[u8], usize>,
) -> Result<Vec<(NodeRef, Object)>, NoMemory>
    requires leads { (q : List ℕ) → placed leads.now q ≡ place_from 0 (map (λ e. e.0) named.now) q }
    ensures { IfOk result (λ uses. AreUsesTo files.now named.now (found top_names.now) (placed universe.now) (length files.now) uses.items) }
{
    let mut uses = Vec::new(alloc);
    for at in 0..files.len() {
        let file = &files[at];
        bind_file(
            alloc,
            files,
            file,
            narrow(at),
            named,
            leads,
            top_names,
            universe,
            &mut uses,
        )?;
    }
    Ok(uses)
}

/// The uses in the files that were read, each with what it denotes.
fn bind_read(
    alloc: Global,
    read: &[File<'_>],
    named: &[(Text, Text)],
) -> Result<Vec<(NodeRef, Object)>, NoMemory>
    requires few { length read.now < 2 ^ 32 }
    requires fit { AreFit read.now }
    ensures ordered { IfOk result (λ uses. AreInOrder uses.items) }
    ensures bound { IfOk result (λ uses. (p : Sources) → p.named ≡ named.now → AreRead read.now p.files → AreBindings p uses.items) }
{
    let names = package_names(alloc, read)?;
    let top_names = earliest(alloc, read, &names)?;
    let paths = paths_of(alloc, named)?;
    let leads = places(alloc, &paths)?;
    let predeclared = universe(alloc)?;
    let uses = bind_files(alloc, read, named, &leads, &top_names, &predeclared)?;
    Ok(uses)
}

/// The uses in the files of a package, each with what it denotes, and of each file the names that it declares, in the order in which their
/// regions begin.
#[derive(Drop)]
pub struct Bound {
    pub uses: Bindings,
    pub names: Vec<Vec<Named>>,
}

/// What each use of a name in the files of a package denotes, as `bind` says it, with the names that the files declare.
pub fn bind_named(
    alloc: Global,
    files: &[FileTree],
    sources: &[(Text, Bytes)],
    named: &[(Text, Text)],
) -> Result<Bound, NoMemory>
    requires spelled { AreSpelled files.now sources.now }
    requires fit { AreSmall files.now }
    requires few { length files.now < 2 ^ 32 }
    ensures ordered { IfOk result (λ b. AreInOrder b.uses) }
    ensures bound { IfOk result (λ b. (p : Sources) → p.named ≡ named.now → AreFiles files.now sources.now p.files → AreBindings p b.uses) }
    ensures names { IfOk result (λ b. HaveNames files.now b.names.items) }
{
    let read = read_files(alloc, files, sources)?;
    let uses = bind_read(alloc, &read, named)?;
    let names = all_names(alloc, read)?;
    Ok(Bound {
        uses: Bindings::of(uses),
        names,
    })
}

/// What each use of a name in the files of a package denotes. `sources` has each file's path and bytes, and `named`
/// the path of each import that leads to a package, with that package's name. A use denotes the declaration of its
/// name with the smallest region that holds it (Go 1.17, "Declarations and scope"), else the predeclared name. A
/// selected name, a label, and the name of what is declared are no uses; a name before a colon in a literal is one.
pub fn bind(
    alloc: Global,
    files: &[FileTree],
    sources: &[(Text, Bytes)],
    named: &[(Text, Text)],
) -> Result<Bindings, NoMemory>
    requires spelled { AreSpelled files.now sources.now }
    requires fit { AreSmall files.now }
    requires few { length files.now < 2 ^ 32 }
    ensures ordered { IfOk result (λ uses. AreInOrder uses) }
    ensures bound { IfOk result (λ uses. (p : Sources) → p.named ≡ named.now → AreFiles files.now sources.now p.files → AreBindings p uses) }
{
    let bound = bind_named(alloc, files, sources, named)?;
    Ok(bound.uses)
}
