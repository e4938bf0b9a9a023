//! The faults of imports.
ghost use Rattle.std.specs.Prelude.{◌≡◌, ◌<◌, ◌^◌, ◌↔◌, ℕ, List, IfOk, OnOk, Some, IsTrue, if◌then◌else◌, bytes_eq, codes, length};
ghost use Rattle.mark_walk.specs.Asks.{filled};
ghost use Rattle.package_objects.specs.Declares.{AreSmall};
ghost use Rattle.typed_marks.specs.Meanings.{Quiet};
ghost use Rattle.typed_marks.specs.States.{so_far, IsState};
ghost use Rattle.unit_read.specs.Imports.{import_limit};
ghost use Rattle.unit_read.specs.Index.{found};
ghost use Rattle.unit_read.specs.Subjects.{full_of, unit_of, IsRead};
ghost use Rattle.unit_read.specs.Units.{nodes_at, tree_at};
ghost use Rattle.check_pkg.specs.Gains.{Gains};
ghost use Rattle.check_pkg.specs.ImportLists.{has as is_noted, AreNames, AreUsed, least, IsLeast, IsFirst, is_before, RefusesIf, HasName, ComesLater, IsUnused, RefusesName, RefusesImports, RefusesAllImports};
ghost use Rattle.check_pkg.specs.Imports.{IsDeclared, IsTaken};
ghost use Rattle.check_pkg.specs.Names.{IsBlock};

use crate::block::PackageBlock;
use crate::import_names::{Declared, import_names};
use crate::places::{place_of, text_in};
use crate::refusal::{Fault, Refusal};
use crate::used::{has, used_in};
use bind::specs_in;
use go_tree::{FileTree, NodeRef};
use gv_base::{NoMemory, Place};
use std::alloc::Global;
use std::collections::{HashMap, HashSet};
use typed_marks::State;
use typed_tree::{Limit, REDECLARED, Rule, UNUSED_IMPORT};
use unit_read::{Subject, find};

fn keep<'a>(firsts: &mut HashMap<&'a [u8], u32>, name: &'a [u8], node: u32) -> Result<(), NoMemory>
    ensures { OnOk result ((q : List ℕ) → found firsts.new q ≡ (if bytes_eq name.now q then Some node else found firsts.old q)) }
{
    firsts.insert(name, node)?;
    Ok(())
}

fn least(kept: Option<u32>, node: u32) -> u32
    ensures { result ≡ least kept node }
{
    match kept {
        Some(kept) => { if kept <= node { kept } else { node } }
        None => node,
    }
}

/// Keeps the lesser node under a name.
fn keep_least<'a>(
    firsts: &mut HashMap<&'a [u8], u32>,
    name: &'a [u8],
    node: u32,
) -> Result<(), NoMemory>
    ensures { OnOk result ((q : List ℕ) → found firsts.new q ≡ (if bytes_eq name.now q then Some (least (found firsts.old name.now) node) else found firsts.old q)) }
{
    let node = least(find(firsts, name), node);
    keep(firsts, name, node)?;
    Ok(())
}

/// The least node of an import by each name.
fn least_nodes<'a>(
    alloc: Global,
    names: &[Declared<'a>],
) -> Result<HashMap<&'a [u8], u32>, NoMemory>
    ensures { IfOk result (λ firsts. (q : List ℕ) → IsLeast names.now (length names.now) q (found firsts q)) }
{
    let mut firsts = HashMap::new(alloc);
    for declared in names {
        keep_least(&mut firsts, declared.name, declared.at.node)?;
    }
    Ok(firsts)
}

/// Adds a refusal where a rule is broken.
fn refuse_if(
    list: &mut Vec<Refusal>,
    broken: bool,
    place: Place,
    rule: Rule,
) -> Result<(), NoMemory>
    ensures { OnOk result (Gains (RefusesIf broken place rule) list.old.items list.new.items) }
{
    if broken {
        list.push(Refusal {
            place,
            fault: Fault::Rule(rule),
        })?;
    }
    Ok(())
}

/// Whether a name of the package block is spelled so.
fn has_name(u: &Subject, block: &PackageBlock, name: &[u8]) -> bool
    requires { IsBlock (unit_of u.now) block.now }
    ensures { IsTrue result ↔ HasName (unit_of u.now) name.now }
{
    match find(&block.firsts, name) {
        Some(_) => true,
        None => false,
    }
}

fn is_init(name: &[u8]) -> bool
    ensures { result ≡ bytes_eq name.now (codes "init") }
{
    name == b"init".as_slice()
}

/// Whether the package block has the name: it is declared there, and isn't `init`, which declares none.
fn is_declared(u: &Subject, block: &PackageBlock, name: &[u8]) -> bool
    requires { IsBlock (unit_of u.now) block.now }
    ensures { IsTrue result ↔ IsDeclared (unit_of u.now) name.now }
{
    if is_init(name) {
        return false;
    }
    has_name(u, block, name)
}

fn is_before(first: Option<u32>, node: u32) -> bool
    ensures { result ≡ is_before first node }
{
    match first {
        Some(first) => first < node,
        None => false,
    }
}

/// Whether an earlier import of the file has the name of this one.
fn comes_later(u: &Subject, firsts: &HashMap<&[u8], u32>, at: NodeRef, name: &[u8]) -> bool
    requires { (q : List ℕ) → IsFirst (full_of u.now) at.file q (found firsts.now q) }
    ensures { IsTrue result ↔ ComesLater (full_of u.now) at name.now }
{
    is_before(find(firsts, name), at.node)
}

/// Whether the package block or an earlier import of the file has the name of an import. Refused as E1.
fn is_taken(
    u: &Subject,
    block: &PackageBlock,
    firsts: &HashMap<&[u8], u32>,
    at: NodeRef,
    name: &[u8],
) -> bool
    requires block { IsBlock (unit_of u.now) block.now }
    requires firsts { (q : List ℕ) → IsFirst (full_of u.now) at.file q (found firsts.now q) }
    ensures { IsTrue result ↔ IsTaken (full_of u.now) at name.now }
{
    if is_declared(u, block, name) {
        return true;
    }
    comes_later(u, firsts, at, name)
}

/// The limit outside which an import lies.
fn limit_at(u: &Subject, at: NodeRef) -> Option<Limit>
    requires { IsRead u.now }
    ensures { result ≡ import_limit (unit_of u.now) at }
{
    match u.lead_at(at) {
        Some(lead) => lead.limit,
        None => None,
    }
}

/// Whether an import lies in the profile and isn't used, which is E7.
fn is_unused(u: &Subject, s: &State, used: &HashSet<u32>, at: NodeRef) -> bool
    requires read { IsRead u.now }
    requires used { AreUsed (unit_of u.now) (filled Quiet (so_far s.now)) at.file (length (nodes_at (unit_of u.now) at.file)) (is_noted used.now) }
    ensures { IsTrue result ↔ IsUnused (unit_of u.now) (filled Quiet (so_far s.now)) at }
{
    let _ = s;
    if limit_at(u, at).is_some() {
        return false;
    }
    !has(used, at.node)
}

/// Adds the faults of an import: E1 where its name is taken, E7 where it isn't used.
fn refuse_import(
    u: &Subject,
    s: &State,
    block: &PackageBlock,
    firsts: &HashMap<&[u8], u32>,
    used: &HashSet<u32>,
    at: NodeRef,
    name: &[u8],
    list: &mut Vec<Refusal>,
) -> Result<(), NoMemory>
    requires read { IsRead u.now }
    requires block { IsBlock (unit_of u.now) block.now }
    requires firsts { (q : List ℕ) → IsFirst (full_of u.now) at.file q (found firsts.now q) }
    requires used { AreUsed (unit_of u.now) (filled Quiet (so_far s.now)) at.file (length (nodes_at (unit_of u.now) at.file)) (is_noted used.now) }
    ensures { OnOk result (Gains (RefusesName (full_of u.now) (filled Quiet (so_far s.now)) at name.now) list.old.items list.new.items) }
{
    let place = place_of(u, at);
    let taken = is_taken(u, block, firsts, at, name);
    refuse_if(list, taken, place, REDECLARED)?;
    let unused = is_unused(u, s, used, at);
    refuse_if(list, unused, place, UNUSED_IMPORT)?;
    Ok(())
}

/// Adds the faults of a file's imports.
fn refuse_names(
    u: &Subject,
    s: &State,
    block: &PackageBlock,
    file: u32,
    firsts: &HashMap<&[u8], u32>,
    used: &HashSet<u32>,
    names: &[Declared],
    list: &mut Vec<Refusal>,
) -> Result<(), NoMemory>
    requires read { IsRead u.now }
    requires block { IsBlock (unit_of u.now) block.now }
    requires names { AreNames (full_of u.now) file names.now }
    requires firsts { (q : List ℕ) → IsFirst (full_of u.now) file q (found firsts.now q) }
    requires used { AreUsed (unit_of u.now) (filled Quiet (so_far s.now)) file (length (nodes_at (unit_of u.now) file)) (is_noted used.now) }
    ensures { OnOk result (Gains (RefusesImports (full_of u.now) (filled Quiet (so_far s.now)) file) list.old.items list.new.items) }
{
    for declared in names {
        refuse_import(u, s, block, firsts, used, declared.at, declared.name, list)?;
    }
    Ok(())
}

/// Adds the faults of the imports in a tree.
fn refuse_tree(
    alloc: Global,
    u: &Subject,
    s: &State,
    block: &PackageBlock,
    file: u32,
    tree: &FileTree,
    list: &mut Vec<Refusal>,
) -> Result<(), NoMemory>
    requires read { IsRead u.now }
    requires state { IsState s.now }
    requires small { AreSmall u.now.trees.now }
    requires block { IsBlock (unit_of u.now) block.now }
    requires tree { tree_at (unit_of u.now) file ≡ Some tree.now }
    ensures { OnOk result (Gains (RefusesImports (full_of u.now) (filled Quiet (so_far s.now)) file) list.old.items list.new.items) }
{
    let head = tree.head(alloc, text_in(u, file))?;
    let specs = specs_in(alloc, tree)?;
    let lines = head.imports.as_slice();
    let names = import_names(alloc, u.env, file, &specs, lines)?;
    let firsts = least_nodes(alloc, &names)?;
    let used = used_in(alloc, u, s, file)?;
    refuse_names(u, s, block, file, &firsts, &used, &names, list)?;
    Ok(())
}

/// Adds the faults of a file's imports.
fn refuse_file(
    alloc: Global,
    u: &Subject,
    s: &State,
    block: &PackageBlock,
    file: u32,
    list: &mut Vec<Refusal>,
) -> Result<(), NoMemory>
    requires read { IsRead u.now }
    requires state { IsState s.now }
    requires small { AreSmall u.now.trees.now }
    requires block { IsBlock (unit_of u.now) block.now }
    ensures { OnOk result (Gains (RefusesImports (full_of u.now) (filled Quiet (so_far s.now)) file) list.old.items list.new.items) }
{
    match u.tree_at(file) {
        Some(tree) => {
            refuse_tree(alloc, u, s, block, file, tree, list)?;
            Ok(())
        }
        None => Ok(()),
    }
}

/// Adds the faults of all imports.
pub fn refuse_imports(
    alloc: Global,
    u: &Subject,
    s: &State,
    block: &PackageBlock,
    list: &mut Vec<Refusal>,
) -> Result<(), NoMemory>
    requires read { IsRead u.now }
    requires state { IsState s.now }
    requires small { AreSmall u.now.trees.now }
    requires block { IsBlock (unit_of u.now) block.now }
    requires few { length u.now.trees.now < 2 ^ 32 }
    ensures { OnOk result (Gains (RefusesAllImports (full_of u.now) (filled Quiet (so_far s.now))) list.old.items list.new.items) }
{
    for file in 0..u.trees.len() {
        refuse_file(alloc, u, s, block, file as u32, list)?;
    }
    Ok(())
}
