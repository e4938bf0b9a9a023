//! What a node declares, by its kind.
ghost use Rattle.std.specs.Prelude.{◌≡◌, ◌≤◌, ◌^◌, ◌++◌, ◌∷◌, [], length, IfOk, OnOk};
ghost use Rattle.std.specs.List.{cons_option};
ghost use Rattle.package_objects.specs.Declares.{rooted, part, with_values, itself, name_of, parameters, declares, declares_at, declared_in};

use crate::constants::add_constants;
use crate::nodes::{node_of, part_of};
use crate::parameters::{add_parameters, with_type};
use crate::switch::add_switch;
use crate::valued::{Valued, add_part, add_valued, as_root, put_root};
use go_tree::{Node, NodeKind, NodeRef};
use gv_base::NoMemory;
use object_order::{Entry, Form, Role, Root};
use std::alloc::Global;

fn valued_by(typing: Option<Root>, role: Role, values: Option<u32>) -> Valued
    ensures { result ≡ with_values typing role values }
{
    Valued {
        several: true,
        role,
        typing,
        values,
    }
}

fn one_root(alloc: Global, root: Option<Root>) -> Result<Vec<Root>, NoMemory>
    ensures { IfOk result (λ roots. roots.items ≡ cons_option root []) }
{
    let mut roots = Vec::new(alloc);
    put_root(&mut roots, root)?;
    Ok(roots)
}

fn own_root(alloc: Global, n: u32) -> Result<Vec<Root>, NoMemory>
    ensures { IfOk result (λ roots. roots.items ≡ itself n) }
{
    let mut roots = Vec::new(alloc);
    roots.push(Root {
        role: Role::Beside,
        node: n,
    })?;
    Ok(roots)
}

/// Adds a type's name.
fn add_type(
    alloc: Global,
    file: u32,
    form: Form,
    node: &Node,
    out: &mut Vec<Entry>,
) -> Result<(), NoMemory>
    ensures { OnOk result (out.new.items ≡ out.old.items ++ name_of file form (cons_option (rooted Role.Typing (part node.now 1)) []) node.now 0) }
{
    let roots = one_root(alloc, as_root(Role::Typing, part_of(node, 1)))?;
    add_part(file, form, roots, node, 0, out)
}

/// Adds the name of a function or method, and its parameters.
fn add_function(
    alloc: Global,
    file: u32,
    nodes: &[Node],
    n: u32,
    place: usize,
    node: &Node,
    out: &mut Vec<Entry>,
) -> Result<(), NoMemory>
    ensures { OnOk result (out.new.items ≡ (out.old.items ++ (name_of file Form.Other (itself n) node.now place ++ parameters file nodes.now node.now))) }
{
    let roots = own_root(alloc, n)?;
    add_part(file, Form::Other, roots, node, place, out)?;
    add_parameters(alloc, file, nodes, node, out)
}

/// Adds what a node declares.
fn add_declared(
    alloc: Global,
    file: u32,
    nodes: &[Node],
    uses: &[Option<NodeRef>],
    n: u32,
    node: &Node,
    out: &mut Vec<Entry>,
) -> Result<(), NoMemory>
    ensures { OnOk result (out.new.items ≡ out.old.items ++ declares file nodes.now uses.now n node.now.kind node.now) }
{
    match node.kind {
        NodeKind::Const => add_constants(alloc, file, nodes, node, out),
        NodeKind::ConstGroup => add_constants(alloc, file, nodes, node, out),
        NodeKind::VarValues => {
            let list = valued_by(None, Role::Resting, part_of(node, 1));
            add_valued(alloc, file, nodes, &[], list, part_of(node, 0), out)
        }
        NodeKind::VarTyped => {
            let list = with_type(Role::Typing, node);
            add_valued(alloc, file, nodes, &[], list, part_of(node, 0), out)
        }
        NodeKind::VarTypedValues => {
            let typing = as_root(Role::Typing, part_of(node, 1));
            let list = valued_by(typing, Role::Beside, part_of(node, 2));
            add_valued(alloc, file, nodes, &[], list, part_of(node, 0), out)
        }
        NodeKind::Define => {
            let list = valued_by(None, Role::Resting, part_of(node, 1));
            add_valued(alloc, file, nodes, uses, list, part_of(node, 0), out)
        }
        NodeKind::ForRangeDefine => {
            let list = with_type(Role::Resting, node);
            add_valued(alloc, file, nodes, uses, list, part_of(node, 0), out)
        }
        NodeKind::TypeSwitch => add_switch(alloc, file, nodes, node, out),
        NodeKind::FuncDecl => add_function(alloc, file, nodes, n, 0, node, out),
        NodeKind::MethodDecl => add_function(alloc, file, nodes, n, 1, node, out),
        NodeKind::FuncLit => add_parameters(alloc, file, nodes, node, out),
        NodeKind::Defined => add_type(alloc, file, Form::Defined, node, out),
        NodeKind::Alias => add_type(alloc, file, Form::Alias, node, out),
        _ => Ok(()),
    }
}

fn add_at(
    alloc: Global,
    file: u32,
    nodes: &[Node],
    uses: &[Option<NodeRef>],
    n: u32,
    out: &mut Vec<Entry>,
) -> Result<(), NoMemory>
    ensures { OnOk result (out.new.items ≡ out.old.items ++ declares_at file nodes.now uses.now n) }
{
    if let Some(node) = node_of(nodes, n) {
        add_declared(alloc, file, nodes, uses, n, node, out)?;
    }
    Ok(())
}

/// Adds what the nodes of a file declare.
pub fn add_file(
    alloc: Global,
    file: u32,
    nodes: &[Node],
    uses: &[Option<NodeRef>],
    out: &mut Vec<Entry>,
) -> Result<(), NoMemory>
    requires { length nodes.now ≤ 2 ^ 32 }
    ensures { OnOk result (out.new.items ≡ out.old.items ++ declared_in file nodes.now uses.now) }
{
    let end = nodes.len();
    for n in 0..end {
        add_at(alloc, file, nodes, uses, n as u32, out)?;
    }
    Ok(())
}
