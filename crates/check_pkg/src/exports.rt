//! What an accepted package exports (Go 1.17, "Exported identifiers").
ghost use Rattle.std.specs.Prelude.{◌≡◌, ◌<◌, ◌↔◌, ◌++◌, ◌∷◌, [], ℕ, List, IfOk, IfSome, OnOk, Some, IsTrue, true, Contains, option_map, slice_get, length, IsPermutation};
ghost use Rattle.std.specs.Ordering.{is_lt, nat_cmp};
ghost use Rattle.std.specs.Cmp.Lexicographic.{slice_cmp};
ghost use Rattle.std.specs.List.Sorted.{IsSortedBy};
ghost use Rattle.go_tree.specs.Lexeme.{place_of};
ghost use Rattle.mark_walk.specs.Asks.{filled};
ghost use Rattle.package_faces.specs.Faces.{ConstantForm, ObjectOut};
ghost use Rattle.package_faces.specs.Interfaces.{AreObjectsIn};
ghost use Rattle.package_faces.specs.Orders.{object_before, rises};
ghost use Rattle.package_faces.specs.Reaching.{own_name};
ghost use Rattle.type_model.specs.GoTypes.{type_at};
ghost use Rattle.type_model.specs.Tables.{count, types_in, is_named, IsTable};
ghost use Rattle.typed_marks.specs.Meanings.{Quiet, constant_at};
ghost use Rattle.typed_marks.specs.States.{so_far, IsState};
ghost use Rattle.unit_read.specs.Subjects.{unit_of, IsRead};
ghost use Rattle.unit_rows.specs.Redeclared.{package_names};
ghost use Rattle.rule_words.specs.Scenes.{said, IsMarkOf};
ghost use Rattle.check_pkg.specs.Names.{spelled_names, IsBlock};
ghost use Rattle.check_pkg.specs.Interfaces.{is_upper, is_exported, type_form, form_by, form_of, object_item, IsExported};
ghost use Rattle.check_pkg.specs.Exports.{is_named_in, outs_in, forms_in, IsFormIn, AddsNamed, AddsExport, AreDistinct};

use crate::block::PackageBlock;
use go_tree::NodeRef;
use gv_base::{Const, NoMemory, Text};
use package_faces::{ExportForm, Exported};
use std::alloc::Global;
use type_model::{Term, TypeId, TypeTable};
use typed_marks::{ConstId, Facts, Item, Mark, Stage, State};
use typed_tree::Mode;
use unicode::properties::GeneralCategory;
use unit_read::{Subject, find};

fn is_upper(category: GeneralCategory) -> bool
    ensures { result ≡ is_upper category }
{
    match category {
        GeneralCategory::UppercaseLetter => true,
        _ => false,
    }
}

/// Whether a name begins with an upper case letter.
fn is_exported(name: &str) -> bool
    ensures { result ≡ is_exported name.now }
{
    match name.chars().next() {
        Some(c) => is_upper(GeneralCategory::for_char(c)),
        None => false,
    }
}

/// The constant of a number.
fn constant_at(constants: &Vec<Const>, value: Option<ConstId>) -> Option<&Const>
    ensures { option_map (λ c. c.now) result ≡ constant_at constants.now.items value }
{
    match value {
        Some(id) => constants.get(id.0 as usize),
        None => None,
    }
}

fn copied(alloc: Global, c: &Const) -> Result<Const, NoMemory>
    ensures { IfOk result (λ copy. copy ≡ c.now) }
{
    match c {
        Const::Truth(b) => Ok(Const::Truth(*b)),
        Const::Int(n) => Ok(Const::Int(*n)),
        Const::Text(text) => {
            let copy = text.copy(alloc)?;
            Ok(Const::Text(copy))
        }
    }
}

fn is_named_term(path: &[u8], name: &str, term: &Term) -> bool
    ensures { result ≡ is_named_in path.now name.now term.now }
{
    match term {
        Term::Defined(other) => {
            path == other.package.as_str().as_bytes()
                && (name.as_bytes() == other.name.as_str().as_bytes() && 0 == other.local)
        }
        Term::Basic(_) => false,
        Term::Pointer(_) => false,
        Term::Slice(_) => false,
        Term::Array(_, _) => false,
        Term::Map(_, _) => false,
        Term::Chan(_, _) => false,
        Term::Func(_) => false,
        Term::Struct(_) => false,
        Term::Interface(_) => false,
    }
}

/// Whether a type is the package's own of a name.
fn is_own(t: &TypeTable, path: &[u8], name: &str, of: TypeId) -> bool
    requires table { IsTable t.now }
    requires within { of.0 < count t.now }
    ensures { result ≡ is_named (own_name path.now name.now) (type_at (types_in t.now) of) }
{
    is_named_term(path, name, t.term(of))
}

/// A type as it is exported by a name.
fn type_form(s: &State, path: &[u8], name: &str, of: TypeId) -> ExportForm
    requires state { IsState s.now }
    requires within { of.0 < count s.now.table }
    ensures is { forms_in s.now (Some result) ≡ Some (type_form path.now name.now (type_at (types_in s.now.table) of)) }
    ensures over { IsFormIn path.now name.now s.now result }
{
    if is_own(&s.table, path, name, of) {
        ExportForm::Own(of)
    } else {
        ExportForm::Alias(of)
    }
}

/// A constant as it is exported.
fn constant_form(
    alloc: Global,
    s: &State,
    of: TypeId,
    value: Option<ConstId>,
) -> Result<Option<ExportForm>, NoMemory>
    requires within { of.0 < count s.now.table }
    ensures is { IfOk result (λ form. forms_in s.now form ≡ option_map (ConstantForm (type_at (types_in s.now.table) of)) (constant_at s.now.constants.items value)) }
    ensures over { IfOk result (λ form. IfSome form (λ f. (path name : List ℕ) → IsFormIn path name s.now f)) }
{
    match constant_at(&s.constants, value) {
        Some(c) => {
            let value = copied(alloc, c)?;
            Ok(Some(ExportForm::Constant(of, value)))
        }
        None => Ok(None),
    }
}

fn form_by(
    alloc: Global,
    s: &State,
    path: &[u8],
    name: &str,
    facts: Facts,
) -> Result<Option<ExportForm>, NoMemory>
    requires state { IsState s.now }
    requires within { facts.of.0 < count s.now.table }
    ensures is { IfOk result (λ form. forms_in s.now form ≡ form_by path.now name.now facts.mode (type_at (types_in s.now.table) facts.of) (constant_at s.now.constants.items facts.value)) }
    ensures over { IfOk result (λ form. IfSome form (IsFormIn path.now name.now s.now)) }
{
    match facts.mode {
        Mode::Constant => {
            let form = constant_form(alloc, s, facts.of, facts.value)?;
            Ok(form)
        }
        Mode::TypeName => Ok(Some(type_form(s, path, name, facts.of))),
        Mode::Variable => Ok(Some(ExportForm::Variable(facts.of))),
        Mode::Value => Ok(Some(ExportForm::Function(facts.of))),
        Mode::NoValue => Ok(None),
        Mode::MapIndex => Ok(None),
        Mode::CommaOk => Ok(None),
        Mode::Nil => Ok(None),
        Mode::Builtin => Ok(None),
        Mode::Package => Ok(None),
        Mode::Many => Ok(None),
    }
}

/// What an object of this mark is exported as.
fn form_of(
    alloc: Global,
    s: &State,
    path: &[u8],
    name: &str,
    mark: Mark,
) -> Result<Option<ExportForm>, NoMemory>
    requires state { IsState s.now }
    requires within { IsMarkOf s.now mark }
    ensures is { IfOk result (λ form. forms_in s.now form ≡ form_of path.now name.now (said s.now mark)) }
    ensures over { IfOk result (λ form. IfSome form (IsFormIn path.now name.now s.now)) }
{
    match mark {
        Mark::Good(facts) => {
            let form = form_by(alloc, s, path, name, facts)?;
            Ok(form)
        }
        Mark::Bad(_) => Ok(None),
        Mark::Outside(_) => Ok(None),
        Mark::Silent => Ok(None),
        Mark::Wants(_, _) => Ok(None),
        Mark::Declared(_) => Ok(None),
    }
}

/// The object that is declared at a name.
fn object_item(name: NodeRef) -> Item
    ensures { result ≡ object_item name }
{
    Item {
        stage: Stage::Object,
        block: name.file as usize,
        node: name.node as usize,
    }
}

/// What the object that is declared at a name is exported as.
fn form_at(
    alloc: Global,
    s: &State,
    path: &[u8],
    name: &str,
    at: NodeRef,
) -> Result<Option<ExportForm>, NoMemory>
    requires { IsState s.now }
    ensures is { IfOk result (λ form. forms_in s.now form ≡ form_of path.now name.now (filled Quiet (so_far s.now) (object_item at))) }
    ensures over { IfOk result (λ form. IfSome form (IsFormIn path.now name.now s.now)) }
{
    match s.see(object_item(at)) {
        Some(mark) => {
            let form = form_of(alloc, s, path, name, mark)?;
            Ok(form)
        }
        None => Ok(None),
    }
}

/// Whether the name at a place of the package block is the first of its spelling.
fn is_first(u: &Subject, block: &PackageBlock, place: usize, name: &[u8]) -> bool
    requires { IsBlock (unit_of u.now) block.now }
    ensures { IsTrue result ↔ (place_of (spelled_names (unit_of u.now)) name.now ≡ Some place) }
{
    match find(&block.firsts, name) {
        Some(first) => first == place,
        None => false,
    }
}

fn push(
    alloc: Global,
    name: &str,
    form: ExportForm,
    list: &mut Vec<Exported>,
) -> Result<(), NoMemory>
    ensures { OnOk result (list.new.items ≡ list.old.items ++ record { name = name.now; form = form } ∷ []) }
{
    let name = Text::of(alloc, name)?;
    list.push(Exported { name, form })?;
    Ok(())
}

/// Adds the object of this name where it is exported.
fn add_named(
    alloc: Global,
    s: &State,
    path: &[u8],
    name: &str,
    at: NodeRef,
    list: &mut Vec<Exported>,
) -> Result<(), NoMemory>
    requires state { IsState s.now }
    requires within { AreObjectsIn path.now (count s.now.table) (types_in s.now.table) list.old.items }
    ensures adds { OnOk result (AddsNamed path.now (filled Quiet (so_far s.now)) name.now at (outs_in s.now list.old.items) (outs_in s.now list.new.items)) }
    ensures within { OnOk result (AreObjectsIn path.now (count s.now.table) (types_in s.now.table) list.new.items) }
{
    if !is_exported(name) {
        return Ok(());
    }
    let form = form_at(alloc, s, path, name, at)?;
    match form {
        Some(form) => {
            push(alloc, name, form, list)?;
            Ok(())
        }
        None => Ok(()),
    }
}

/// Adds the object of the name at a place where it is exported.
fn add_name(
    alloc: Global,
    u: &Subject,
    s: &State,
    block: &PackageBlock,
    place: usize,
    at: NodeRef,
    list: &mut Vec<Exported>,
) -> Result<(), NoMemory>
    requires read { IsRead u.now }
    requires state { IsState s.now }
    requires block { IsBlock (unit_of u.now) block.now }
    requires there { slice_get (package_names (unit_of u.now)) place ≡ Some at }
    requires within { AreObjectsIn (unit_of u.now).path (count s.now.table) (types_in s.now.table) list.old.items }
    ensures adds { OnOk result (AddsExport (unit_of u.now) (filled Quiet (so_far s.now)) place (outs_in s.now list.old.items) (outs_in s.now list.new.items)) }
    ensures within { OnOk result (AreObjectsIn (unit_of u.now).path (count s.now.table) (types_in s.now.table) list.new.items) }
{
    let name = u.name_at(at);
    if !is_first(u, block, place, name) {
        return Ok(());
    }
    add_named(alloc, s, u.path, u.name_text(at), at, list)?;
    Ok(())
}

/// How many names the package block has.
fn name_count(block: &PackageBlock) -> usize
    ensures { result ≡ length block.now.names.items }
{
    block.names.len()
}

fn nth(list: &Vec<NodeRef>, place: usize) -> Option<NodeRef>
    ensures { result ≡ slice_get list.now.items place }
{
    list.get(place).copied()
}

/// Adds the object of the name at a place where it is exported.
fn add_export(
    alloc: Global,
    u: &Subject,
    s: &State,
    block: &PackageBlock,
    place: usize,
    list: &mut Vec<Exported>,
) -> Result<(), NoMemory>
    requires read { IsRead u.now }
    requires state { IsState s.now }
    requires block { IsBlock (unit_of u.now) block.now }
    requires within { AreObjectsIn (unit_of u.now).path (count s.now.table) (types_in s.now.table) list.old.items }
    ensures adds { OnOk result (AddsExport (unit_of u.now) (filled Quiet (so_far s.now)) place (outs_in s.now list.old.items) (outs_in s.now list.new.items)) }
    ensures within { OnOk result (AreObjectsIn (unit_of u.now).path (count s.now.table) (types_in s.now.table) list.new.items) }
{
    match nth(&block.names, place) {
        Some(at) => {
            add_name(alloc, u, s, block, place, at, list)?;
            Ok(())
        }
        None => Ok(()),
    }
}

/// The exported objects, in the order of their declarations.
fn unsorted(
    alloc: Global,
    u: &Subject,
    s: &State,
    block: &PackageBlock,
) -> Result<Vec<Exported>, NoMemory>
    requires read { IsRead u.now }
    requires state { IsState s.now }
    requires block { IsBlock (unit_of u.now) block.now }
    ensures all { IfOk result (λ list. (out : ObjectOut) → Contains (outs_in s.now list.items) out ↔ IsExported (unit_of u.now) (filled Quiet (so_far s.now)) out) }
    ensures distinct { IfOk result (λ list. AreDistinct (outs_in s.now list.items)) }
    ensures within { IfOk result (λ list. AreObjectsIn (unit_of u.now).path (count s.now.table) (types_in s.now.table) list.items) }
{
    let mut list = Vec::new(alloc);
    for place in 0..name_count(block) {
        add_export(alloc, u, s, block, place, &mut list)?;
    }
    Ok(list)
}

/// Sorts objects by their names.
fn sort(list: &mut Vec<Exported>) -> Result<(), NoMemory>
    ensures same { IsPermutation list.old.items list.new.items }
    ensures sorted { OnOk result (IsSortedBy (λ a b. is_lt (slice_cmp nat_cmp a.name b.name)) list.new.items) }
{
    list.sort_by(|one, other| one.name.as_str().cmp(other.name.as_str()))?;
    Ok(())
}

/// What an accepted package exports: its exported constants with their values, variables, functions and types, in byte order of their names,
/// of which no two are the same.
pub fn exports(
    alloc: Global,
    u: &Subject,
    s: &State,
    block: &PackageBlock,
) -> Result<Vec<Exported>, NoMemory>
    requires read { IsRead u.now }
    requires state { IsState s.now }
    requires block { IsBlock (unit_of u.now) block.now }
    ensures rise { IfOk result (λ list. rises object_before (outs_in s.now list.items) ≡ true) }
    ensures all { IfOk result (λ list. (out : ObjectOut) → Contains (outs_in s.now list.items) out ↔ IsExported (unit_of u.now) (filled Quiet (so_far s.now)) out) }
    ensures within { IfOk result (λ list. AreObjectsIn (unit_of u.now).path (count s.now.table) (types_in s.now.table) list.items) }
{
    let mut list = unsorted(alloc, u, s, block)?;
    sort(&mut list)?;
    Ok(list)
}
