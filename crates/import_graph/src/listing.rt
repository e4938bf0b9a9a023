//! The packages of a tree.
ghost use Rattle.std.specs.Prelude.{◌≡◌, ◌<◌, ◌≤◌, ◌^◌, ◌↔◌, false, length, get_or, IfOk};
ghost use Rattle.import_graph.specs.Packages.{IsStateOf, ArePackages};
ghost use Rattle.import_graph.specs.Tables.{AreAscending, IsBuilt, AreBuilt};

use crate::cycles::cycles;
use crate::drafts::{Draft, drafts, numbers};
use crate::go_mod::module_path;
use crate::homes::homes;
use crate::names::names;
use crate::pack::Package;
use crate::rows::rows;
use crate::state::state_of;
use go_tree::Head;
use gv_base::{Files, NoMemory, Row, Text};
use std::alloc::Global;

/// A package of a name.
fn built(
    alloc: Global,
    heads: &[Option<Head>],
    names: &[Text],
    name: &str,
    draft: &Draft,
    cyclic: bool,
) -> Result<Package, NoMemory>
    requires order { AreAscending names.now }
    requires few { length names.now < 2 ^ 32 }
    ensures { IfOk result (IsBuilt heads.now names.now name.now draft.now cyclic) }
{
    let state = state_of(alloc, heads, names, draft.files.as_slice(), cyclic)?;
    let path = Text::of(alloc, name)?;
    let files = numbers(alloc, draft.files.as_slice())?;
    let imports = numbers(alloc, draft.imports.as_slice())?;
    Ok(Package {
        path,
        stub: draft.stub,
        files: Row::new(files),
        imports: Row::new(imports),
        state,
    })
}

/// The package of each name.
fn all_built(
    alloc: Global,
    heads: &[Option<Head>],
    names: &[Text],
    drafts: &[Draft],
    flags: &[bool],
) -> Result<Vec<Package>, NoMemory>
    requires order { AreAscending names.now }
    requires few { length names.now < 2 ^ 32 }
    requires drafts { length drafts.now ≡ length names.now }
    requires flags { length flags.now ≡ length names.now }
    ensures { IfOk result (λ packages. AreBuilt heads.now names.now drafts.now flags.now (length names.now) packages.items) }
{
    let mut packages = Vec::new(alloc);
    for k in 0..names.len() {
        let package = built(alloc, heads, names, names[k].as_str(), &drafts[k], flags[k])?;
        packages.push(package)?;
    }
    Ok(packages)
}

/// The packages of a tree, in byte order of path. There is a head for each file of the tree; `None` is
/// that of a broken file, or of one that is no source file.
///
/// The time is in step with the files, the packages and the imports, but for a logarithm of sorting and
/// looking up.
pub fn packages(
    alloc: Global,
    files: &Files,
    heads: &[Option<Head>],
) -> Result<Vec<Package>, NoMemory>
    requires { length heads.now ≡ length files.now }
    ensures packages { IfOk result (λ packages. ArePackages files.now heads.now packages.items) }
    ensures few { IfOk result (λ packages. length packages.items < 2 ^ 32) }
{
    let homes = homes(alloc, files, module_path(files))?;
    let names = names(alloc, &homes)?;
    let modules = rows(alloc, false, &homes, &names)?;
    let stubs = rows(alloc, true, &homes, &names)?;
    let drafts = drafts(alloc, heads, &names, &modules, &stubs)?;
    let flags = cycles(alloc, &drafts)?;
    let packages = all_built(alloc, heads, &names, &drafts, &flags)?;
    Ok(packages)
}
