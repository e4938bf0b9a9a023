//! The names that a file's trees declare.
ghost use Rattle.std.specs.Prelude.{◌≡◌, ℕ, ◌+◌, ◌<◌, ◌≤◌, ◌^◌, ◌++◌, ◌∷◌, [], length, IfOk, OnOk, slice_get, Some, cond, true, false};
ghost use Rattle.std.specs.List.{All};
ghost use Rattle.go_tree.specs.Forest.{Forest};
ghost use Rattle.scopes.specs.Regions.{Scope, declared, form_of, is_name, is_names, is_params, leaf_names, first_names, names_of, parameters, handed_within, handed_around};
ghost use Rattle.go_tree.specs.declared.tree.Node.{Node};
ghost use Rattle.scopes.specs.Roles.{role};
ghost use Rattle.scopes.specs.Walk.{Shows, IsFormed, has_names};

use crate::declare::{declare_after, declare_before, push_taken};
use crate::roles::{role, takes};
use crate::scope::{Form, Handed, Named};
use go_tree::{Node, NodeKind};
use gv_base::NoMemory;
use std::alloc::Global;

fn is_name(form: Form) -> bool
    ensures { result ≡ is_name form }
{
    match form {
        Form::Name => true,
        Form::Names | Form::Params | Form::Param | Form::Bind | Form::Other => false,
    }
}

fn is_params(form: Form) -> bool
    ensures { result ≡ is_params form }
{
    match form {
        Form::Params => true,
        Form::Name | Form::Names | Form::Param | Form::Bind | Form::Other => false,
    }
}

/// Whether it begins with names: a type switch's name, or parameters.
fn has_names(bind: bool, form: Form) -> bool
    ensures { result ≡ has_names bind form }
{
    match form {
        Form::Bind => bind,
        Form::Param => !bind,
        Form::Name | Form::Names | Form::Params | Form::Other => false,
    }
}

fn form_at(nodes: &[Node], at: usize) -> Form
    requires { at < length nodes.now }
    ensures { (node : Node) → slice_get nodes.now at ≡ Some node → result ≡ form_of node.kind }
{
    let node = &nodes[at];
    let role = role(node.kind);
    role.form
}

fn push_if(wanted: bool, name: usize, names: &mut Vec<usize>) -> Result<(), NoMemory>
    ensures { OnOk result (names.new.items ≡ names.old.items ++ cond wanted (name ∷ []) []) }
{
    if wanted {
        names.push(name)?;
    }
    Ok(())
}

/// Adds the node, if it is a name.
fn push_leaf(nodes: &[Node], at: usize, names: &mut Vec<usize>) -> Result<(), NoMemory>
    requires { at < length nodes.now }
    ensures { OnOk result ((m : ℕ) (f : Forest) → Shows nodes.now m (at ∷ []) f → names.new.items ≡ names.old.items ++ leaf_names m f) }
{
    let form = form_at(nodes, at);
    push_if(is_name(form), at, names)?;
    Ok(())
}

/// Adds the names among these nodes.
fn push_leaves(nodes: &[Node], parts: &[u32], names: &mut Vec<usize>) -> Result<(), NoMemory>
    requires { All (λ k. k < length nodes.now) parts.now }
    ensures { OnOk result ((m : ℕ) (f : Forest) → Shows nodes.now m parts.now f → names.new.items ≡ names.old.items ++ leaf_names m f) }
{
    for part in parts {
        push_leaf(nodes, *part as usize, names)?;
    }
    Ok(())
}

/// Adds the names that the node is: one, or a list.
fn push_list(nodes: &[Node], at: usize, names: &mut Vec<usize>) -> Result<(), NoMemory>
    requires formed { IsFormed nodes.now }
    requires at { at < length nodes.now }
    ensures { OnOk result ((m : ℕ) (f : Forest) → Shows nodes.now m (at ∷ []) f → names.new.items ≡ names.old.items ++ first_names m f) }
{
    let node = &nodes[at];
    let role = role(node.kind);
    match role.form {
        Form::Name => {
            names.push(at)?;
            Ok(())
        }
        Form::Names => {
            push_leaves(nodes, node.parts.as_slice(), names)?;
            Ok(())
        }
        Form::Params | Form::Param | Form::Bind | Form::Other => Ok(()),
    }
}

/// Adds the names that the first of these nodes is.
pub fn push_first(nodes: &[Node], parts: &[u32], names: &mut Vec<usize>) -> Result<(), NoMemory>
    requires formed { IsFormed nodes.now }
    requires parts { All (λ k. k < length nodes.now) parts.now }
    ensures { OnOk result ((m : ℕ) (f : Forest) → Shows nodes.now m parts.now f → names.new.items ≡ names.old.items ++ first_names m f) }
{
    if parts.is_empty() {
        return Ok(());
    }
    push_list(nodes, parts[0] as usize, names)?;
    Ok(())
}

/// Adds the names with which the node begins, if it is of the form.
fn push_names_of(
    nodes: &[Node],
    bind: bool,
    at: usize,
    names: &mut Vec<usize>,
) -> Result<(), NoMemory>
    requires formed { IsFormed nodes.now }
    requires at { at < length nodes.now }
    ensures { OnOk result ((m : ℕ) (f : Forest) → Shows nodes.now m (at ∷ []) f → names.new.items ≡ names.old.items ++ names_of (has_names bind) m f) }
{
    let node = &nodes[at];
    let role = role(node.kind);
    if has_names(bind, role.form) {
        push_first(nodes, node.parts.as_slice(), names)?;
    }
    Ok(())
}

/// Adds the names with which those of these nodes begin that are of the form.
fn push_all_names_of(
    nodes: &[Node],
    bind: bool,
    parts: &[u32],
    names: &mut Vec<usize>,
) -> Result<(), NoMemory>
    requires formed { IsFormed nodes.now }
    requires parts { All (λ k. k < length nodes.now) parts.now }
    ensures { OnOk result ((m : ℕ) (f : Forest) → Shows nodes.now m parts.now f → names.new.items ≡ names.old.items ++ names_of (has_names bind) m f) }
{
    for part in parts {
        push_names_of(nodes, bind, *part as usize, names)?;
    }
    Ok(())
}

/// Adds the names of the parameters, if the node is a list of them.
fn push_parameters(nodes: &[Node], at: usize, names: &mut Vec<usize>) -> Result<(), NoMemory>
    requires formed { IsFormed nodes.now }
    requires at { at < length nodes.now }
    ensures { OnOk result ((m : ℕ) (f : Forest) → Shows nodes.now m (at ∷ []) f → names.new.items ≡ names.old.items ++ parameters m f) }
{
    let node = &nodes[at];
    let role = role(node.kind);
    if is_params(role.form) {
        push_all_names_of(nodes, false, node.parts.as_slice(), names)?;
    }
    Ok(())
}

/// Adds the names of receivers, parameters and results among the parts of a function.
fn push_all_parameters(
    nodes: &[Node],
    parts: &[u32],
    names: &mut Vec<usize>,
) -> Result<(), NoMemory>
    requires formed { IsFormed nodes.now }
    requires parts { All (λ k. k < length nodes.now) parts.now }
    ensures { OnOk result ((m : ℕ) (f : Forest) → Shows nodes.now m parts.now f → names.new.items ≡ names.old.items ++ parameters m f) }
{
    for part in parts {
        push_parameters(nodes, *part as usize, names)?;
    }
    Ok(())
}

/// Adds the names that a node with these parts hands to the block of a body.
fn push_within(
    nodes: &[Node],
    hands: Handed,
    parts: &[u32],
    names: &mut Vec<usize>,
) -> Result<(), NoMemory>
    requires formed { IsFormed nodes.now }
    requires parts { All (λ k. k < length nodes.now) parts.now }
    ensures { OnOk result ((m : ℕ) (f : Forest) → Shows nodes.now m parts.now f → names.new.items ≡ names.old.items ++ handed_within hands m f) }
{
    match hands {
        Handed::Parameters => {
            push_all_parameters(nodes, parts, names)?;
            Ok(())
        }
        Handed::Nothing | Handed::Range | Handed::Switch | Handed::Passed => Ok(()),
    }
}

fn push_copies(copied: &[usize], names: &mut Vec<usize>) -> Result<(), NoMemory>
    ensures { OnOk result (names.new.items ≡ names.old.items ++ copied.now) }
{
    names.extend_from_slice(copied)?;
    Ok(())
}

/// Adds the names that it hands to its own block, or to those of its clauses, where such were handed to it.
fn push_around(
    nodes: &[Node],
    hands: Handed,
    around: &[usize],
    parts: &[u32],
    names: &mut Vec<usize>,
) -> Result<(), NoMemory>
    requires formed { IsFormed nodes.now }
    requires parts { All (λ k. k < length nodes.now) parts.now }
    ensures { OnOk result ((s : Scope) → s.around ≡ around.now → (m : ℕ) (f : Forest) → Shows nodes.now m parts.now f → names.new.items ≡ names.old.items ++ handed_around hands s m f) }
{
    match hands {
        Handed::Range => {
            push_first(nodes, parts, names)?;
            Ok(())
        }
        Handed::Switch => {
            push_all_names_of(nodes, true, parts, names)?;
            Ok(())
        }
        Handed::Passed => {
            push_copies(around, names)?;
            Ok(())
        }
        Handed::Nothing | Handed::Parameters => Ok(()),
    }
}

/// The block of what is declared among the parts of a node.
fn block_of(opens: bool, at: usize, block: usize) -> usize
    ensures { result ≡ cond opens at block }
{
    if opens { at } else { block }
}

/// Whether a node declares nothing, since it has no parts and takes no names.
fn is_bare(kind: NodeKind, parts: &[u32]) -> bool
    ensures takes { result ≡ true → (role kind).takes ≡ false }
    ensures parts { result ≡ true → length parts.now ≡ 0 }
{
    if parts.is_empty() {
        return !takes(kind);
    }
    false
}

/// Adds what the tree declares that ends at a node and begins at another, in this block, where these names are
/// handed to it. It calls itself as deep as the tree is.
pub fn collect(
    alloc: Global,
    nodes: &[Node],
    from: usize,
    at: usize,
    block: usize,
    within: &[usize],
    around: &[usize],
    out: &mut Vec<Named>,
) -> Result<(), NoMemory>
    requires formed { IsFormed nodes.now }
    requires fit { length nodes.now ≤ 2 ^ 32 }
    requires at { at < length nodes.now }
    ensures { OnOk result ((f : Forest) → Shows nodes.now from (at ∷ []) f → out.new.items ≡ out.old.items ++ declared (record { block = block; within = within.now; around = around.now }) from f) }
{
    let node = &nodes[at];
    let parts = node.parts.as_slice();
    if is_bare(node.kind, parts) {
        return Ok(());
    }
    let role = role(node.kind);
    let inner = block_of(role.opens, at, block);
    push_taken(role.takes, around, from, block, out)?;
    declare_before(alloc, nodes, role.declares, parts, from, block, out)?;
    push_taken(role.takes, within, from, inner, out)?;
    let mut handed_within = Vec::new(alloc);
    push_within(nodes, role.hands, parts, &mut handed_within)?;
    let mut handed_around = Vec::new(alloc);
    push_around(nodes, role.hands, around, parts, &mut handed_around)?;
    let mut next = from;
    for part in parts {
        let top = *part as usize;
        collect(
            alloc,
            nodes,
            next,
            top,
            inner,
            &handed_within,
            &handed_around,
            out,
        )?;
        next = top + 1;
    }
    declare_after(alloc, nodes, role.declares, parts, at + 1, block, out)?;
    Ok(())
}
