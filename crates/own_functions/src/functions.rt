//! The functions and methods of a package, by name.
ghost use Rattle.std.specs.Prelude.{◌≡◌, ◌++◌, ◌<◌, ◌≤◌, ◌^◌, [], ℕ, List, IfOk, OnOk, length, map};
ghost use Rattle.std.specs.Option.{option_map_or};
ghost use Rattle.std.specs.Str.{bytes_eq};
ghost use Rattle.go_tree.specs.Lexeme.{place_of};
ghost use Rattle.object_order.specs.Spots.{place};
ghost use Rattle.package_objects.specs.Declares.{gather};
ghost use Rattle.unit_read.specs.Index.{texts_of, found};
ghost use Rattle.unit_read.specs.Methods.{method_name, part_name};
ghost use Rattle.unit_read.specs.Units.{nodes_at, is_blank};
ghost use Rattle.findings.specs.Passes.{unit_in, IsPass};
ghost use Rattle.own_functions.specs.Functions.{can_be_named, if_named, function_name, if_method, method_of, type_and_method, declares, name_by, named_at, function_by, function_at, functions_in, functions, nth_name};
ghost use Rattle.own_functions.specs.InCode.{named_in, declared_name};

use findings::Pass;
use go_tree::{Node, NodeKind, NodeRef};
use gv_base::{NoMemory, Text};
use member_names::dotted;
use package_objects::{node_of, part_of};
use std::alloc::Global;
use std::collections::HashMap;
use unit_read::{cell, index};

/// A function or method that can be named, and where it is declared.
#[derive(Drop)]
pub struct Declared {
    pub name: Text,
    pub at: NodeRef,
}

// ---- names

fn place(file: u32, node: u32) -> NodeRef
    ensures { result ≡ place file node }
{
    NodeRef { file, node }
}

fn is_word(name: &str, word: &str) -> bool
    ensures { result ≡ bytes_eq name.now word.now }
{
    name == word
}

fn is_blank(name: &str) -> bool
    ensures { result ≡ is_blank name.now }
{
    is_word(name, "_")
}

fn can_be_named(name: &str) -> bool
    ensures { result ≡ can_be_named name.now }
{
    !(is_word(name, "init") || is_blank(name))
}

fn if_named(alloc: Global, name: &str) -> Result<Option<Text>, NoMemory>
    ensures { IfOk result (λ o. o ≡ if_named name.now) }
{
    if can_be_named(name) {
        let text = Text::of(alloc, name)?;
        return Ok(Some(text));
    }
    Ok(None)
}

fn function_name(alloc: Global, p: &Pass, file: u32, node: &Node) -> Result<Option<Text>, NoMemory>
    requires { IsPass p.now }
    ensures { IfOk result (λ o. o ≡ function_name (unit_in p.now) file node.now) }
{
    match part_of(node, 0) {
        Some(n) => {
            let name = if_named(alloc, p.subject.name_text(place(file, n)))?;
            Ok(name)
        }
        None => Ok(None),
    }
}

fn if_method(alloc: Global, of: &str, name: &str) -> Result<Option<Text>, NoMemory>
    ensures { IfOk result (λ o. o ≡ if_method of.now name.now) }
{
    if is_blank(name) {
        return Ok(None);
    }
    let text = dotted(alloc, of, name)?;
    Ok(Some(text))
}

fn part_name<'a>(p: &Pass<'a>, file: u32, node: &Node) -> &'a str
    requires { IsPass p.now }
    ensures { result.now ≡ part_name (unit_in p.now) file node.now }
{
    match part_of(node, 1) {
        Some(n) => p.subject.name_text(place(file, n)),
        None => "",
    }
}

fn method_name<'a>(p: &Pass<'a>, at: NodeRef) -> &'a str
    requires { IsPass p.now }
    ensures { result.now ≡ method_name (unit_in p.now) at }
{
    match p.subject.node_at(at) {
        Some(node) => part_name(p, at.file, node),
        None => "",
    }
}

fn owner(p: &Pass, at: NodeRef) -> Option<NodeRef>
    ensures { result ≡ (unit_in p.now).owner at }
{
    cell(&p.subject.owners, at)
}

fn type_and_method(alloc: Global, p: &Pass, at: NodeRef) -> Result<Option<Text>, NoMemory>
    requires { IsPass p.now }
    ensures { IfOk result (λ o. o ≡ type_and_method (unit_in p.now) at) }
{
    match owner(p, at) {
        Some(t) => {
            let name = if_method(alloc, p.subject.name_text(t), method_name(p, at))?;
            Ok(name)
        }
        None => Ok(None),
    }
}

/// The name of what a node declares, if that is a function or method that can be named.
pub fn name_by(
    alloc: Global,
    p: &Pass,
    file: u32,
    n: u32,
    node: &Node,
) -> Result<Option<Text>, NoMemory>
    requires { IsPass p.now }
    ensures { IfOk result (λ o. o ≡ name_by (unit_in p.now) file n node.now node.now.kind) }
{
    match node.kind {
        NodeKind::FuncDecl => {
            let name = function_name(alloc, p, file, node)?;
            Ok(name)
        }
        NodeKind::MethodDecl => {
            let name = type_and_method(alloc, p, place(file, n))?;
            Ok(name)
        }
        _ => Ok(None),
    }
}

// ---- functions

fn push_named(
    found: &mut Vec<Declared>,
    file: u32,
    n: u32,
    name: Option<Text>,
) -> Result<(), NoMemory>
    ensures { OnOk result (map named_in found.new.items ≡ map named_in found.old.items ++ option_map_or (named_at file n) name []) }
{
    match name {
        Some(name) => {
            found.push(Declared {
                name,
                at: place(file, n),
            })?;
            Ok(())
        }
        None => Ok(()),
    }
}

/// Whether a node of a kind declares a function or method. Few do.
fn declares(kind: NodeKind) -> bool
    ensures { result ≡ declares kind }
{
    matches!(kind, NodeKind::FuncDecl | NodeKind::MethodDecl)
}

fn push_declared(
    alloc: Global,
    p: &Pass,
    file: u32,
    n: u32,
    node: &Node,
    found: &mut Vec<Declared>,
) -> Result<(), NoMemory>
    requires { IsPass p.now }
    ensures { OnOk result (map named_in found.new.items ≡ map named_in found.old.items ++ function_by (unit_in p.now) file n node.now) }
{
    let name = name_by(alloc, p, file, n, node)?;
    push_named(found, file, n, name)?;
    Ok(())
}

fn push_function(
    alloc: Global,
    p: &Pass,
    file: u32,
    n: u32,
    node: &Node,
    found: &mut Vec<Declared>,
) -> Result<(), NoMemory>
    requires { IsPass p.now }
    ensures { OnOk result (map named_in found.new.items ≡ map named_in found.old.items ++ function_by (unit_in p.now) file n node.now) }
{
    if declares(node.kind) {
        push_declared(alloc, p, file, n, node, found)?;
        return Ok(());
    }
    Ok(())
}

fn push_at(
    alloc: Global,
    p: &Pass,
    file: u32,
    n: u32,
    found: &mut Vec<Declared>,
) -> Result<(), NoMemory>
    requires { IsPass p.now }
    ensures { OnOk result (map named_in found.new.items ≡ map named_in found.old.items ++ function_at (unit_in p.now) file n) }
{
    match node_of(p.subject.nodes_at(file), n) {
        Some(node) => {
            push_function(alloc, p, file, n, node, found)?;
            Ok(())
        }
        None => Ok(()),
    }
}

fn node_count(p: &Pass, file: u32) -> usize
    requires { IsPass p.now }
    ensures count { result ≡ length (nodes_at (unit_in p.now) file) }
    ensures small { result ≤ 2 ^ 32 }
{
    p.subject.nodes_at(file).len()
}

fn push_file(alloc: Global, p: &Pass, file: u32, found: &mut Vec<Declared>) -> Result<(), NoMemory>
    requires { IsPass p.now }
    ensures { OnOk result (map named_in found.new.items ≡ map named_in found.old.items ++ functions_in (unit_in p.now) file) }
{
    for n in 0..node_count(p, file) {
        push_at(alloc, p, file, n as u32, found)?;
    }
    Ok(())
}

/// The functions and methods of a package that can be named, in order of file and node.
pub fn functions_of(alloc: Global, p: &Pass) -> Result<Vec<Declared>, NoMemory>
    requires { IsPass p.now }
    ensures { IfOk result (λ list. map named_in list.items ≡ functions (unit_in p.now)) }
{
    let mut found = Vec::new(alloc);
    for file in 0..p.subject.trees.len() {
        push_file(alloc, p, file as u32, &mut found)?;
    }
    Ok(found)
}

// ---- numbers

fn names_of(alloc: Global, list: &[Declared]) -> Result<Vec<&[u8]>, NoMemory>
    ensures { IfOk result (λ names. texts_of names.items ≡ map declared_name list.now) }
{
    let mut names = Vec::new(alloc);
    for d in list {
        names.push(d.name.as_str().as_bytes())?;
    }
    Ok(names)
}

/// The first place of each name.
pub fn numbers_of(alloc: Global, list: &[Declared]) -> Result<HashMap<&[u8], usize>, NoMemory>
    ensures { IfOk result (λ numbers. (q : List ℕ) → found numbers q ≡ place_of (map declared_name list.now) q) }
{
    let names = names_of(alloc, list)?;
    let numbers = index(alloc, &names)?;
    Ok(numbers)
}

/// The name of a number.
pub fn nth_name<'a>(p: &Pass, list: &'a [Declared], i: usize) -> &'a [u8]
    requires list { map named_in list.now ≡ functions (unit_in p.now) }
    requires there { i < length list.now }
    ensures { result.now ≡ nth_name (unit_in p.now) i }
{
    let _ = p;
    list[i].name.as_str().as_bytes()
}

/// The same as a text.
pub fn nth_text<'a>(p: &Pass, list: &'a [Declared], i: usize) -> &'a str
    requires list { map named_in list.now ≡ functions (unit_in p.now) }
    requires there { i < length list.now }
    ensures { result.now ≡ nth_name (unit_in p.now) i }
{
    let _ = p;
    list[i].name.as_str()
}
