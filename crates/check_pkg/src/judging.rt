//! The check of a package by rules.
ghost use Rattle.std.specs.Prelude.{◌≡◌, map, ◌<◌, ◌^◌, ◌↔◌, IfOk, IsTrue, true, Contains, [], length};
ghost use Rattle.bind.specs.Answers.{AreSmall, AreSpelled};
ghost use Rattle.face_table.specs.Fitting.{given};
ghost use Rattle.go_tree.specs.Bindings.{AreInOrder};
ghost use Rattle.mark_walk.specs.Asks.{filled};
ghost use Rattle.package_faces.specs.Faces.{ObjectOut};
ghost use Rattle.package_faces.specs.Interfaces.{faces_of, AreInterfacesIn, AreObjectsIn};
ghost use Rattle.package_faces.specs.Orders.{object_before, rises};
ghost use Rattle.type_model.specs.GoTypes.{types_of};
ghost use Rattle.type_model.specs.declared.term.TypeName.{TypeName as AName};
ghost use Rattle.type_model.specs.Tables.{Extends, count, declarations_in, terms_in, types_in};
ghost use Rattle.typed_tree.specs.Basics.{HasBasics};
ghost use Rattle.typed_marks.specs.Meanings.{Quiet};
ghost use Rattle.typed_marks.specs.States.{so_far, IsState};
ghost use Rattle.unit_blocks.specs.Blocks.{AreNames};
ghost use Rattle.unit_read.specs.Environments.{IsEnvironment, faces_in};
ghost use Rattle.unit_read.specs.Index.{texts_of};
ghost use Rattle.unit_read.specs.Subjects.{full_of, unit_of, IsRead};
ghost use Rattle.unit_read.specs.Texts.{AreTexts};
ghost use Rattle.rule_words.specs.Scenes.{IsScene};
ghost use Rattle.body_facts.specs.Bodies.{AreBodies};
ghost use Rattle.unit_read.specs.Units.{base_of};
ghost use Rattle.unit_rows.specs.Redeclared.{package_names};
ghost use Rattle.check_pkg.specs.declared.refusal.Refusal.{Refusal as OneRefusal};
ghost use Rattle.check_pkg.specs.Checks.{HasTypes, IsOutcomeBy, IsOutcomeOf};
ghost use Rattle.check_pkg.specs.Faults.{IsOrdered};
ghost use Rattle.check_pkg.specs.Exports.{outs_in};
ghost use Rattle.check_pkg.specs.Interfaces.{IsExported};
ghost use Rattle.check_pkg.specs.Judgings.{IsJudged, outcome_in};
ghost use Rattle.check_pkg.specs.Names.{IsBlock};
ghost use Rattle.check_pkg.specs.Packages.{package_of, text_of};
ghost use Rattle.check_pkg.specs.Refusals.{IsRefused};

use crate::block::{PackageBlock, package_block};
use crate::exports::exports;
use crate::faults::refuse_items;
use crate::import_refusals::refuse_imports;
use crate::late_rules::refuse_late;
use crate::order::{distinct, sort};
use crate::read::{Reading, read};
use crate::refusal::Refusal;
use crate::sources::{known, texts};
use crate::typing::{Flags, Typed, flags_of};
use bind::{Bound, bind_named};
use elaborate::{Elaborated, Rules, Stretch, elaborate};
use go_tree::{Bindings, FileTree, NodeRef};
use gv_base::{Bytes, NoMemory, Text};
use package_faces::{Exported, Interface};
use scopes::Named;
use std::alloc::Global;
use type_model::TypeTable;
use typed_marks::State;
use unit_read::{Environment, Subject};

/// What has been found of a package.
#[derive(Drop)]
pub struct Checked {
    /// The place and the fault of each mark, of each import and of each late rule that refuses the package, each once, by file, by
    /// offset in bytes, rules before limits and then by number. It is empty exactly where the package keeps all rules.
    pub refused: Vec<Refusal>,
    /// The objects that the package exports, in byte order of the names. Nothing where the package is refused.
    pub exports: Vec<Exported>,
    /// What is kept of the package, with the table by whose numbers they have their types, and in which the package's defined types are declared.
    pub typed: Typed,
}

/// What comes of a package.
#[derive(Drop)]
pub enum Outcome {
    Checked(Checked),
    /// The rule of an item waits for that item's own mark: nothing is said of the package.
    Circle,
}

/// What has been found of a package that has been read, and its marks.
#[derive(Drop)]
pub struct Found {
    pub refused: Vec<Refusal>,
    pub exports: Vec<Exported>,
    pub state: State,
}

/// What comes of a package that has been read.
#[derive(Drop)]
pub enum Judged {
    Found(Found),
    Circle,
}

/// All that refuses a package, in no order.
fn unsorted(
    alloc: Global,
    u: &Subject,
    s: &State,
    block: &PackageBlock,
) -> Result<Vec<Refusal>, NoMemory>
    requires scene { IsScene u.now s.now }
    requires small { AreSmall u.now.trees.now }
    requires few { length u.now.trees.now < 2 ^ 32 }
    requires bodies { AreBodies (texts_of u.now.texts.now) u.now.trees.now }
    requires block { IsBlock (unit_of u.now) block.now }
    ensures { IfOk result (λ list. (x : OneRefusal) → Contains list.items x ↔ IsRefused (full_of u.now) (filled Quiet (so_far s.now)) x) }
{
    let mut list = Vec::new(alloc);
    refuse_items(alloc, u, s, &mut list)?;
    refuse_imports(alloc, u, s, block, &mut list)?;
    refuse_late(alloc, u, s, &mut list)?;
    Ok(list)
}

/// All that refuses a package, in order and each once.
fn refusals(
    alloc: Global,
    u: &Subject,
    s: &State,
    block: &PackageBlock,
) -> Result<Vec<Refusal>, NoMemory>
    requires scene { IsScene u.now s.now }
    requires small { AreSmall u.now.trees.now }
    requires few { length u.now.trees.now < 2 ^ 32 }
    requires bodies { AreBodies (texts_of u.now.texts.now) u.now.trees.now }
    requires block { IsBlock (unit_of u.now) block.now }
    ensures all { IfOk result (λ list. (x : OneRefusal) → Contains list.items x ↔ IsRefused (full_of u.now) (filled Quiet (so_far s.now)) x) }
    ensures once { IfOk result (λ list. IsOrdered list.items) }
{
    let mut list = unsorted(alloc, u, s, block)?;
    sort(&mut list)?;
    let sorted = distinct(alloc, &list)?;
    Ok(sorted)
}

fn is_empty(list: &Vec<Refusal>) -> bool
    ensures { IsTrue result ↔ (list.now.items ≡ []) }
{
    list.is_empty()
}

/// What a package exports, if nothing refuses it.
fn accepted(
    alloc: Global,
    u: &Subject,
    s: &State,
    block: &PackageBlock,
    refused: &Vec<Refusal>,
) -> Result<Vec<Exported>, NoMemory>
    requires read { IsRead u.now }
    requires state { IsState s.now }
    requires block { IsBlock (unit_of u.now) block.now }
    ensures rise { IfOk result (λ list. refused.now.items ≡ [] → rises object_before (outs_in s.now list.items) ≡ true) }
    ensures all { IfOk result (λ list. refused.now.items ≡ [] → (out : ObjectOut) → Contains (outs_in s.now list.items) out ↔ IsExported (unit_of u.now) (filled Quiet (so_far s.now)) out) }
    ensures within { IfOk result (λ list. refused.now.items ≡ [] → AreObjectsIn (unit_of u.now).path (count s.now.table) (types_in s.now.table) list.items) }
    ensures nothing { IfOk result (λ list. ¬ (refused.now.items ≡ []) → list.items ≡ []) }
{
    if !is_empty(refused) {
        return Ok(Vec::new(alloc));
    }
    let list = exports(alloc, u, s, block)?;
    Ok(list)
}

/// What is found of a package that has been read and whose items are marked: what refuses it, and what it exports.
fn judge(
    alloc: Global,
    u: &Subject,
    s: &State,
    names: Vec<NodeRef>,
) -> Result<(Vec<Refusal>, Vec<Exported>), NoMemory>
    requires scene { IsScene u.now s.now }
    requires names { names.items ≡ package_names (unit_of u.now) }
    requires small { AreSmall u.now.trees.now }
    requires few { length u.now.trees.now < 2 ^ 32 }
    requires bodies { AreBodies (texts_of u.now.texts.now) u.now.trees.now }
    ensures all { IfOk result (λ c. (x : OneRefusal) → Contains c.0.items x ↔ IsRefused (full_of u.now) (filled Quiet (so_far s.now)) x) }
    ensures ordered { IfOk result (λ c. IsOrdered c.0.items) }
    ensures rise { IfOk result (λ c. c.0.items ≡ [] → rises object_before (outs_in s.now c.1.items) ≡ true) }
    ensures exported { IfOk result (λ c. c.0.items ≡ [] → (out : ObjectOut) → Contains (outs_in s.now c.1.items) out ↔ IsExported (unit_of u.now) (filled Quiet (so_far s.now)) out) }
    ensures within { IfOk result (λ c. c.0.items ≡ [] → AreObjectsIn (unit_of u.now).path (count s.now.table) (types_in s.now.table) c.1.items) }
    ensures nothing { IfOk result (λ c. ¬ (c.0.items ≡ []) → c.1.items ≡ []) }
{
    let block = package_block(alloc, u, names)?;
    let refused = refusals(alloc, u, s, &block)?;
    let exports = accepted(alloc, u, s, &block, &refused)?;
    Ok((refused, exports))
}

/// Marks the items of a package that has been read, and judges it.
fn judge_unit<R: Rules>(
    alloc: Global,
    rules: &R,
    u: &Subject,
    table: TypeTable,
    first: &[Stretch],
    names: Vec<NodeRef>,
) -> Result<Judged, NoMemory>
    requires read { IsRead u.now }
    requires names { names.items ≡ package_names (unit_of u.now) }
    requires small { AreSmall u.now.trees.now }
    requires few { length u.now.trees.now < 2 ^ 32 }
    requires bodies { AreBodies (texts_of u.now.texts.now) u.now.trees.now }
    requires basics { HasBasics table }
    requires env { Extends u.now.env.now.types.now (terms_in table) }
    requires base { (name : AName) → declarations_in table name ≡ base_of (full_of u.now) name }
    ensures { IfOk result (IsJudged R.rule u.now) }
{
    let elaborated = elaborate(alloc, rules, u, table, first)?;
    match elaborated {
        Elaborated::Marked(state) => {
            let (refused, exports) = judge(alloc, u, &state, names)?;
            Ok(Judged::Found(Found {
                refused,
                exports,
                state,
            }))
        }
        Elaborated::Circle(_, _) => Ok(Judged::Circle),
    }
}

/// What comes of a package, with what is kept of it.
fn outcome_of(judged: Judged, uses: Bindings, flags: Flags) -> Outcome
    ensures { result ≡ outcome_in judged uses flags }
{
    match judged {
        Judged::Found(found) => Outcome::Checked(Checked {
            refused: found.refused,
            exports: found.exports,
            typed: Typed {
                uses,
                flags,
                state: found.state,
            },
        }),
        Judged::Circle => Outcome::Circle,
    }
}

/// Reads a package and judges it.
fn judge_read<R: Rules>(
    alloc: Global,
    rules: &R,
    path: &[u8],
    sources: &[&[u8]],
    trees: &[FileTree],
    uses: Bindings,
    regions: Vec<Vec<Named>>,
    table: TypeTable,
    env: &Environment<'_>,
) -> Result<Outcome, NoMemory>
    requires regions { AreNames trees.now regions.items }
    requires small { AreSmall trees.now }
    requires few { length trees.now < 2 ^ 32 }
    requires bodies { AreBodies (texts_of sources.now) trees.now }
    requires texts { AreTexts path.now (texts_of sources.now) trees.now }
    requires uses { AreInOrder uses }
    requires env { IsEnvironment env.now }
    requires basics { HasBasics table }
    requires types { env.now.types.now ≡ terms_in table }
    requires base { (name : AName) → declarations_in table name ≡ given path.now (faces_in env.now) name }
    ensures is { IfOk result (IsOutcomeBy R.rule path.now (texts_of sources.now) trees.now uses (faces_in env.now)) }
    ensures types { IfOk result (HasTypes (terms_in table)) }
{
    let Reading {
        subject,
        first,
        names,
    } = read(alloc, path, sources, trees, &uses, regions, env, &table)?;
    let judged = judge_unit(alloc, rules, &subject, table, &first, names)?;
    let flags = flags_of(subject);
    Ok(outcome_of(judged, uses, flags))
}

/// Judges a package by its files, of which is known what their uses denote and which names they declare.
fn judge_files<R: Rules>(
    alloc: Global,
    rules: &R,
    path: &[u8],
    files: &[(Text, Bytes)],
    trees: &[FileTree],
    uses: Bindings,
    regions: Vec<Vec<Named>>,
    table: TypeTable,
    env: &[Interface],
) -> Result<Outcome, NoMemory>
    requires regions { AreNames trees.now regions.items }
    requires small { AreSmall trees.now }
    requires few { length trees.now < 2 ^ 32 }
    requires spelled { AreSpelled trees.now files.now }
    requires texts { AreTexts path.now (map text_of files.now) trees.now }
    requires uses { AreInOrder uses }
    requires basics { HasBasics table }
    requires within { AreInterfacesIn (count table) (types_in table) env.now }
    requires base { (name : AName) → declarations_in table name ≡ given path.now (faces_of (types_in table) env.now) name }
    ensures is { IfOk result (IsOutcomeBy R.rule path.now (map text_of files.now) trees.now uses (faces_of (types_in table) env.now)) }
    ensures types { IfOk result (HasTypes (terms_in table)) }
{
    let environment = Environment::new(alloc, env, table.terms())?;
    let sources = texts(alloc, files)?;
    let outcome = judge_read(
        alloc,
        rules,
        path,
        &sources,
        trees,
        uses,
        regions,
        table,
        &environment,
    )?;
    Ok(outcome)
}

/// Checks a package by rules. It is given by its path, by the paths and the bytes of its files in order of their paths, and by their trees,
/// over an environment: the interfaces of the packages to which its imports lead, and the table by whose numbers they have their types and in
/// which these are declared (`face_table`). Of two interfaces of one path the first counts; what an import that leads to none means is for the
/// rules to say. The table comes back with what is kept of the package, also where it is refused: its types keep their numbers.
pub fn check<R: Rules>(
    alloc: Global,
    rules: &R,
    path: &[u8],
    files: &[(Text, Bytes)],
    trees: &[FileTree],
    table: TypeTable,
    env: &[Interface],
) -> Result<Outcome, NoMemory>
    requires spelled { AreSpelled trees.now files.now }
    requires texts { AreTexts path.now (map text_of files.now) trees.now }
    requires small { AreSmall trees.now }
    requires few { length trees.now < 2 ^ 32 }
    requires basics { HasBasics table }
    requires within { AreInterfacesIn (count table) (types_in table) env.now }
    requires base { (name : AName) → declarations_in table name ≡ given path.now (faces_of (types_in table) env.now) name }
    ensures is { IfOk result (IsOutcomeOf R.rule (package_of path.now files.now trees.now) (faces_of (types_in table) env.now)) }
    ensures types { IfOk result (HasTypes (terms_in table)) }
{
    let named = known(alloc, env)?;
    let bound = bind_named(alloc, trees, files, &named)?;
    let Bound { uses, names } = bound;
    let outcome = judge_files(alloc, rules, path, files, trees, uses, names, table, env)?;
    Ok(outcome)
}
