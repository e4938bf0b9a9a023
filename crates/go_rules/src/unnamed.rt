//! Nodes of a file at which no defined type is declared, all of them together: a search for each would look at all types of the file.
ghost use Rattle.std.specs.Prelude.{◌≡◌, true, false, IfOk, replicate, set};
ghost use Rattle.std.specs.Option.{option_map_or};
ghost use Rattle.unit_read.specs.Units.{is_defined_node};
ghost use Rattle.unit_read.specs.Subjects.{unit_of, IsRead};
ghost use Rattle.elaborate.specs.Types.{AreQuietTypes};
ghost use Rattle.go_rules.specs.Stages.{rule};
ghost use Rattle.go_rules.specs.Unnamed.{type_named, unnamed, unnamed_passage, unnamed_in};

use go_tree::{Node, NodeKind};
use gv_base::NoMemory;
use package_objects::part_of;
use std::alloc::Global;
use unit_read::{Passage, Subject};

fn is_defined_node(kind: NodeKind) -> bool
    ensures { result ≡ is_defined_node kind }
{
    match kind {
        NodeKind::Defined => true,
        _ => false,
    }
}

fn clear(flags: &mut Vec<bool>, n: usize)
    ensures { flags.new.items ≡ set flags.old.items n false }
{
    if n < flags.as_slice().len() {
        flags[n] = false;
    }
}

fn clear_if(flags: &mut Vec<bool>, name: Option<u32>)
    ensures { flags.new.items ≡ option_map_or (λ n. set flags.old.items n false) name flags.old.items }
{
    match name {
        Some(n) => clear(flags, n as usize),
        None => {}
    }
}

/// The name of the type that a node defines.
fn type_named(node: &Node) -> Option<u32>
    ensures { result ≡ type_named node.now }
{
    if is_defined_node(node.kind) {
        return part_of(node, 0);
    }
    None
}

fn all_set(alloc: Global, count: usize) -> Result<Vec<bool>, NoMemory>
    ensures { IfOk result (λ flags. flags.items ≡ replicate count true) }
{
    let flags = vec![in alloc; true; count]?;
    Ok(flags)
}

/// Which nodes no node names as a type.
fn unnamed(alloc: Global, nodes: &[Node]) -> Result<Vec<bool>, NoMemory>
    ensures { IfOk result (λ flags. flags.items ≡ unnamed nodes.now) }
{
    let mut flags = all_set(alloc, nodes.len())?;
    for n in 0..nodes.len() {
        clear_if(&mut flags, type_named(&nodes[n]));
    }
    Ok(flags)
}

fn unnamed_passage(
    alloc: Global,
    u: &Subject,
    block: usize,
    p: Passage,
) -> Result<Vec<bool>, NoMemory>
    ensures { IfOk result (λ flags. flags.items ≡ unnamed_passage (unit_of u.now) block p) }
{
    if block == p.file as usize {
        let flags = unnamed(alloc, u.nodes_at(p.file))?;
        Ok(flags)
    } else {
        Ok(Vec::new(alloc))
    }
}

fn unnamed_block(alloc: Global, u: &Subject, block: usize) -> Result<Vec<bool>, NoMemory>
    requires { IsRead u.now }
    ensures { IfOk result (λ flags. flags.items ≡ unnamed_in (unit_of u.now) block) }
{
    match u.passage_at(block) {
        Some(p) => {
            let flags = unnamed_passage(alloc, u, block, p)?;
            Ok(flags)
        }
        None => Ok(Vec::new(alloc)),
    }
}

/// The nodes of a block at which no type is declared: their flags are set. A list that is repeated has no flags.
pub fn unnamed_in(alloc: Global, u: &Subject, block: usize) -> Result<Vec<bool>, NoMemory>
    requires { IsRead u.now }
    ensures is { IfOk result (λ flags. flags.items ≡ unnamed_in (unit_of u.now) block) }
    ensures none { IfOk result (λ flags. AreQuietTypes rule (unit_of u.now) block flags.items) }
{
    let flags = unnamed_block(alloc, u, block)?;
    Ok(flags)
}
