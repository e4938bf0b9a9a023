//! The name of a type switch.
ghost use Rattle.std.specs.Prelude.{◌≡◌, ◌++◌, IfOk, OnOk, length};
ghost use Rattle.package_objects.specs.Declares.{gather, is_type_case, case_types, clause_types, switch_roots, is_bind, bind_name, switch_part, switch_name};

use crate::nodes::{node_of, part_count, part_of};
use crate::valued::{add_part, as_root, put_root};
use go_tree::{Node, NodeKind};
use gv_base::NoMemory;
use object_order::{Entry, Form, Role, Root};
use std::alloc::Global;

fn is_case(kind: NodeKind) -> bool
    ensures { result ≡ is_type_case kind }
{
    match kind {
        NodeKind::TypeCase => true,
        _ => false,
    }
}

fn put_case(roots: &mut Vec<Root>, clause: &Node) -> Result<(), NoMemory>
    ensures { OnOk result (roots.new.items ≡ roots.old.items ++ case_types clause.now) }
{
    if is_case(clause.kind) {
        put_root(roots, as_root(Role::Resting, part_of(clause, 0)))?;
    }
    Ok(())
}

/// Adds the types of a clause.
fn put_clause(
    roots: &mut Vec<Root>,
    nodes: &[Node],
    switch: &Node,
    i: usize,
) -> Result<(), NoMemory>
    ensures { OnOk result (roots.new.items ≡ roots.old.items ++ clause_types nodes.now switch.now i) }
{
    if let Some(n) = part_of(switch, i) {
        if let Some(clause) = node_of(nodes, n) {
            put_case(roots, clause)?;
        }
    }
    Ok(())
}

fn put_clauses(roots: &mut Vec<Root>, nodes: &[Node], switch: &Node) -> Result<(), NoMemory>
    ensures { OnOk result (roots.new.items ≡ roots.old.items ++ gather (clause_types nodes.now switch.now) (length switch.now.parts)) }
{
    let end = part_count(switch);
    for i in 0..end {
        put_clause(roots, nodes, switch, i)?;
    }
    Ok(())
}

/// The operand, and the types of the clauses.
fn roots_in(
    alloc: Global,
    nodes: &[Node],
    switch: &Node,
    bind: &Node,
) -> Result<Vec<Root>, NoMemory>
    ensures { IfOk result (λ roots. roots.items ≡ switch_roots nodes.now switch.now bind.now) }
{
    let mut roots = Vec::new(alloc);
    put_root(&mut roots, as_root(Role::Resting, part_of(bind, 1)))?;
    put_clauses(&mut roots, nodes, switch)?;
    Ok(roots)
}

fn is_binding(kind: NodeKind) -> bool
    ensures { result ≡ is_bind kind }
{
    match kind {
        NodeKind::Bind => true,
        _ => false,
    }
}

fn add_bind(
    alloc: Global,
    file: u32,
    nodes: &[Node],
    switch: &Node,
    bind: &Node,
    out: &mut Vec<Entry>,
) -> Result<(), NoMemory>
    ensures { OnOk result (out.new.items ≡ out.old.items ++ bind_name file nodes.now switch.now bind.now) }
{
    if is_binding(bind.kind) {
        let roots = roots_in(alloc, nodes, switch, bind)?;
        add_part(file, Form::Other, roots, bind, 0, out)?;
    }
    Ok(())
}

fn add_switch_part(
    alloc: Global,
    file: u32,
    nodes: &[Node],
    switch: &Node,
    i: usize,
    out: &mut Vec<Entry>,
) -> Result<(), NoMemory>
    ensures { OnOk result (out.new.items ≡ out.old.items ++ switch_part file nodes.now switch.now i) }
{
    if let Some(n) = part_of(switch, i) {
        if let Some(bind) = node_of(nodes, n) {
            add_bind(alloc, file, nodes, switch, bind, out)?;
        }
    }
    Ok(())
}

/// Adds the name of a type switch, if it has one.
pub fn add_switch(
    alloc: Global,
    file: u32,
    nodes: &[Node],
    switch: &Node,
    out: &mut Vec<Entry>,
) -> Result<(), NoMemory>
    ensures { OnOk result (out.new.items ≡ out.old.items ++ switch_name file nodes.now switch.now) }
{
    let end = part_count(switch);
    for i in 0..end {
        add_switch_part(alloc, file, nodes, switch, i, out)?;
    }
    Ok(())
}
