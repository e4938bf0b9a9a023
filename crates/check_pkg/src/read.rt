//! How a package is read, with its flags.
ghost use Rattle.std.specs.Prelude.{◌≡◌, ◌≤◌, ◌^◌, [], IfOk, length};
ghost use Rattle.face_table.specs.Fitting.{given};
ghost use Rattle.go_tree.specs.Bindings.{AreInOrder};
ghost use Rattle.unit_read.specs.Environments.{IsEnvironment, faces_in};
ghost use Rattle.unit_read.specs.Index.{texts_of};
ghost use Rattle.unit_read.specs.Subjects.{full_of, unit_of, IsRead};
ghost use Rattle.unit_read.specs.Texts.{AreTexts};
ghost use Rattle.package_objects.specs.Declares.{AreSmall, declared};
ghost use Rattle.package_needs.specs.Worlds.{AreNeedsOf};
ghost use Rattle.type_model.specs.Tables.{terms_in, declarations_in};
ghost use Rattle.type_model.specs.declared.term.TypeName.{TypeName as AName};
ghost use Rattle.typed_tree.specs.Basics.{HasBasics};
ghost use Rattle.unit_blocks.specs.Blocks.{AreNames};
ghost use Rattle.unit_rows.specs.Drafts.{package_unit};
ghost use Rattle.unit_rows.specs.Redeclared.{package_names};
ghost use Rattle.check_pkg.specs.Elsewhere.{struct_elsewhere};
ghost use Rattle.check_pkg.specs.Readings.{IsUnitOf};

use crate::ahead::stretches;
use crate::elsewhere::struct_rows;
use elaborate::Stretch;
use go_tree::{Bindings, FileTree, NodeRef};
use gv_base::NoMemory;
use object_order::{Entry, Needed};
use package_needs::{Needs, needs_of};
use package_objects::entries_of;
use scopes::Named;
use std::alloc::Global;
use type_model::TypeTable;
use unit_blocks::block_rows;
use unit_read::{Environment, Subject};
use unit_rows::{all_in_block, circular_rows, cyclic_rows, read_unit, with_flags, with_owners};

/// A package that has been read, its declarations in the order in which their nodes are marked, and the names of its package block.
#[derive(Drop)]
pub struct Reading<'a> {
    pub subject: Subject<'a>,
    pub first: Vec<Stretch>,
    pub names: Vec<NodeRef>,
}

/// A package that was read without flags: with which of its names are declared before in their block, which need themselves, which lead
/// back to themselves, and whose methods it declares.
fn subject_of<'a>(
    alloc: Global,
    seen: Subject<'a>,
    order: &[Needed],
    owners: Vec<Vec<Option<NodeRef>>>,
    entries: Vec<Entry>,
    names: &[NodeRef],
    regions: &[Vec<Named>],
) -> Result<Subject<'a>, NoMemory>
    requires seen { IsRead seen }
    requires small { AreSmall seen.trees.now }
    requires few { length seen.trees.now ≤ 2 ^ 32 }
    requires needs { AreNeedsOf seen.uses.now seen.trees.now (struct_elsewhere (full_of seen)) order.now owners.items }
    requires entries { entries.items ≡ declared seen.trees.now [] }
    requires names { names.now ≡ package_names (unit_of seen) }
    requires regions { AreNames seen.trees.now regions.now }
    ensures read { IfOk result (λ u. IsRead u) }
    ensures of { IfOk result (λ u. IsUnitOf seen.entry.path.now (texts_of seen.entry.texts.now) seen.entry.trees.now seen.entry.uses.now (faces_in seen.entry.env.now) (full_of u)) }
    ensures names { IfOk result (λ u. names.now ≡ package_names (unit_of u)) }
    ensures env { IfOk result (λ u. u.env.now ≡ seen.entry.env.now) }
{
    let cyclic = cyclic_rows(alloc, seen.trees, order)?;
    let bare = with_owners(alloc, seen, owners)?;
    let redeclared = block_rows(alloc, &bare, names, regions)?;
    let circular = circular_rows(alloc, &bare, entries)?;
    Ok(with_flags(bare, redeclared, cyclic, circular))
}

/// Reads a package, without flags.
fn seen_unit<'a>(
    alloc: Global,
    path: &'a [u8],
    texts: &'a [&'a [u8]],
    trees: &'a [FileTree],
    uses: &'a Bindings,
    env: &'a Environment<'a>,
) -> Result<Subject<'a>, NoMemory>
    requires small { AreSmall trees.now }
    requires few { length trees.now ≤ 2 ^ 32 }
    requires uses { AreInOrder uses.now }
    requires env { IsEnvironment env.now }
    requires texts { AreTexts path.now (texts_of texts.now) trees.now }
    ensures read { IfOk result (λ u. IsRead u) }
    ensures of { IfOk result (λ u. full_of u ≡ package_unit path.now (texts_of texts.now) trees.now uses.now (faces_in env.now) [] [] [] []) }
    ensures env { IfOk result (λ u. u.env.now ≡ env.now) }
{
    let seen = read_unit(
        alloc,
        path,
        texts,
        trees,
        uses,
        env,
        Vec::new(alloc),
        Vec::new(alloc),
        Vec::new(alloc),
        Vec::new(alloc),
    )?;
    Ok(seen)
}

/// Reads a package, with its declarations in an order of need, by the names that each file declares. Which types of other packages are structs is
/// seen over the table.
pub fn read<'a>(
    alloc: Global,
    path: &'a [u8],
    texts: &'a [&'a [u8]],
    trees: &'a [FileTree],
    uses: &'a Bindings,
    regions: Vec<Vec<Named>>,
    env: &'a Environment<'a>,
    table: &TypeTable,
) -> Result<Reading<'a>, NoMemory>
    requires regions { AreNames trees.now regions.items }
    requires small { AreSmall trees.now }
    requires few { length trees.now ≤ 2 ^ 32 }
    requires uses { AreInOrder uses.now }
    requires env { IsEnvironment env.now }
    requires texts { AreTexts path.now (texts_of texts.now) trees.now }
    requires basics { HasBasics table.now }
    requires types { env.now.types.now ≡ terms_in table.now }
    requires base { (name : AName) → declarations_in table.now name ≡ given path.now (faces_in env.now) name }
    ensures read { IfOk result (λ r. IsRead r.subject) }
    ensures of { IfOk result (λ r. IsUnitOf path.now (texts_of texts.now) trees.now uses.now (faces_in env.now) (full_of r.subject)) }
    ensures names { IfOk result (λ r. r.names.items ≡ package_names (unit_of r.subject)) }
    ensures env { IfOk result (λ r. r.subject.env.now ≡ env.now) }
{
    let seen = seen_unit(alloc, path, texts, trees, uses, env)?;
    let entries = entries_of(alloc, trees, &[])?;
    let names = all_in_block(alloc, &seen, &entries)?;
    let elsewhere = struct_rows(alloc, &seen, table)?;
    let needs = needs_of(alloc, uses, trees, &elsewhere)?;
    let Needs { order, owners } = needs;
    let subject = subject_of(alloc, seen, &order, owners, entries, &names, &regions)?;
    let first = stretches(alloc, &subject, &order)?;
    Ok(Reading {
        subject,
        first,
        names,
    })
}
