//! Which nodes are named by none: the names among them are uses.
ghost use Rattle.std.specs.Prelude.{◌≡◌, ◌<◌, IfOk, length, Some, replicate, true};
ghost use Rattle.std.specs.List.{Contains};
ghost use Rattle.file_uses.specs.Uses.{named_part, IsOfPart, IsNamedBy, IsCleared, ArePlain};

use go_tree::Node;
use gv_base::NoMemory;
use scopes::role;
use std::alloc::Global;

/// The part of a node that names what it declares, a package, a field, a method or a label.
fn named_part(node: &Node) -> Option<u32>
    ensures { result ≡ named_part node.now }
{
    let role = role(node.kind);
    if role.named == 0 {
        return None;
    }
    node.parts.as_slice().get(role.named - 1).copied()
}

fn count_of(flags: &Vec<bool>) -> usize
    ensures { result ≡ length flags.now.items }
{
    flags.as_slice().len()
}

fn clear(flags: &mut Vec<bool>, at: usize)
    ensures { IsCleared flags.old.items flags.new.items (λ n. at ≡ n) }
{
    if at < count_of(flags) {
        flags[at] = false;
    }
}

fn clear_all(flags: &mut Vec<bool>, parts: &[u32])
    ensures { IsCleared flags.old.items flags.new.items (λ n. Contains parts.now n) }
{
    for part in parts {
        clear(flags, *part as usize);
    }
}

/// Clears a part, and the parts of it.
fn clear_part(flags: &mut Vec<bool>, nodes: &[Node], part: usize)
    ensures { IsCleared flags.old.items flags.new.items (λ n. IsOfPart nodes.now part n) }
{
    clear(flags, part);
    if part < nodes.len() {
        let names = &nodes[part];
        clear_all(flags, names.parts.as_slice());
    }
}

/// Clears what a node names.
fn clear_named(flags: &mut Vec<bool>, nodes: &[Node], at: usize)
    requires { at < length nodes.now }
    ensures { IsCleared flags.old.items flags.new.items (λ n. IsNamedBy nodes.now at n) }
{
    let node = &nodes[at];
    let part = named_part(node);
    match part {
        Some(part) => clear_part(flags, nodes, part as usize),
        None => {}
    }
}

fn all_set(alloc: Global, count: usize) -> Result<Vec<bool>, NoMemory>
    ensures { IfOk result (λ flags. flags.items ≡ replicate count true) }
{
    let flags = vec![in alloc; true; count]?;
    Ok(flags)
}

/// Which nodes are named by none.
pub fn plain_nodes(alloc: Global, nodes: &[Node]) -> Result<Vec<bool>, NoMemory>
    ensures { IfOk result (λ flags. ArePlain nodes.now flags.items) }
{
    let mut flags = all_set(alloc, nodes.len())?;
    for at in 0..nodes.len() {
        clear_named(&mut flags, nodes, at);
    }
    Ok(flags)
}
