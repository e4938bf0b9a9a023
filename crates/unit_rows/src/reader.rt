//! How a package is read.
ghost use Rattle.std.specs.Prelude.{◌≡◌, ◌≤◌, ◌^◌, IfOk, length};
ghost use Rattle.go_tree.specs.Bindings.{AreInOrder};
ghost use Rattle.unit_read.specs.Environments.{IsEnvironment, faces_in};
ghost use Rattle.unit_read.specs.Index.{texts_of};
ghost use Rattle.unit_read.specs.Subjects.{full_of, IsRead};
ghost use Rattle.unit_read.specs.Texts.{AreTexts};
ghost use Rattle.unit_rows.specs.Drafts.{package_unit, with_flags, with_owners};
ghost use Rattle.package_objects.specs.Declares.{AreSmall};

use crate::copies::copies;
use crate::listing::defined;
use crate::locals::local_rows;
use crate::methods::method_rows;
use crate::objects::object_rows;
use crate::repeats::repeat_rows;
use crate::rows::place_rows;
use crate::specs::spec_entries;
use crate::types::named_types;
use go_tree::{Bindings, FileTree, NodeRef};
use gv_base::NoMemory;
use std::alloc::Global;
use std::collections::HashMap;
use unit_read::{Environment, Subject, entry_rows, lead_rows, passages};

/// Reads a package: its path, the bytes of its files and their trees, what the uses in them denote, the interfaces to which their imports may
/// lead, and for each node of each file whether it is a name that is declared before in its block, whether it is one that needs itself, whether one
/// that is no type leads back to itself, and of which type it declares a method.
pub fn read_unit<'a>(
    alloc: Global,
    path: &'a [u8],
    texts: &'a [&'a [u8]],
    trees: &'a [FileTree],
    uses: &'a Bindings,
    env: &'a Environment<'a>,
    redeclared: Vec<Vec<bool>>,
    cyclic: Vec<Vec<bool>>,
    circular: Vec<Vec<bool>>,
    owners: Vec<Vec<Option<NodeRef>>>,
) -> Result<Subject<'a>, NoMemory>
    requires small { AreSmall trees.now }
    requires few { length trees.now ≤ 2 ^ 32 }
    requires uses { AreInOrder uses.now }
    requires env { IsEnvironment env.now }
    requires texts { AreTexts path.now (texts_of texts.now) trees.now }
    ensures read { IfOk result (λ s. IsRead s) }
    ensures of { IfOk result (λ s. full_of s ≡ package_unit path.now (texts_of texts.now) trees.now uses.now (faces_in env.now) redeclared.items cyclic.items circular.items owners.items) }
    ensures env { IfOk result (λ s. s.env.now ≡ env.now) }
{
    let passages = passages(alloc, trees)?;
    let objects = object_rows(alloc, uses, trees)?;
    let places = place_rows(alloc, trees)?;
    let specs = spec_entries(alloc, trees)?;
    let lead_cells = lead_rows(alloc, env, texts, trees)?;
    let leads = entry_rows(alloc, lead_cells)?;
    let copies = copies(alloc, trees, &passages)?;
    let defined = defined(alloc, trees)?;
    let mut s = Subject {
        path,
        texts,
        trees,
        uses,
        env,
        passages,
        objects,
        places,
        specs,
        leads,
        defined,
        locals: Vec::new(alloc),
        named: HashMap::new(alloc),
        redeclared,
        cyclic,
        circular,
        repeats: Vec::new(alloc),
        copies,
        owners,
        groups: Vec::new(alloc),
        kin: Vec::new(alloc),
        repeated: Vec::new(alloc),
    };
    let local_cells = local_rows(alloc, &s)?;
    let locals = entry_rows(alloc, local_cells)?;
    s.locals = locals;
    let named = named_types(alloc, &s)?;
    s.named = named;
    let repeats = repeat_rows(alloc, &s)?;
    s.repeats = repeats;
    let methods = method_rows(alloc, &s)?;
    s.groups = methods.groups;
    s.kin = methods.kin;
    s.repeated = methods.repeated;
    Ok(s)
}

/// The same package with other flags.
pub fn with_flags<'a>(
    s: Subject<'a>,
    redeclared: Vec<Vec<bool>>,
    cyclic: Vec<Vec<bool>>,
    circular: Vec<Vec<bool>>,
) -> Subject<'a>
    requires { IsRead s }
    ensures read { IsRead result }
    ensures of { full_of result ≡ with_flags (full_of s.entry) redeclared.items cyclic.items circular.items }
    ensures env { result.env.now ≡ s.entry.env.now }
{
    let mut s = s;
    s.redeclared = redeclared;
    s.cyclic = cyclic;
    s.circular = circular;
    s
}

/// The same package with the types of which its nodes declare methods.
pub fn with_owners<'a>(
    alloc: Global,
    s: Subject<'a>,
    owners: Vec<Vec<Option<NodeRef>>>,
) -> Result<Subject<'a>, NoMemory>
    requires read { IsRead s }
    requires small { AreSmall s.trees.now }
    requires few { length s.trees.now ≤ 2 ^ 32 }
    ensures read { IfOk result (λ r. IsRead r) }
    ensures of { IfOk result (λ r. full_of r ≡ with_owners (full_of s.entry) owners.items) }
    ensures env { IfOk result (λ r. r.env.now ≡ s.entry.env.now) }
{
    let mut s = s;
    s.owners = owners;
    let methods = method_rows(alloc, &s)?;
    s.groups = methods.groups;
    s.kin = methods.kin;
    s.repeated = methods.repeated;
    Ok(s)
}
