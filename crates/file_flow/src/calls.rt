//! Calls that are spelled `panic(..)`.
ghost use Rattle.std.specs.Prelude.{◌≡◌, ℕ, IfOk, length, option_and_then, option_map};
ghost use Rattle.flow.specs.Passing.{flag_of};
ghost use Rattle.file_uses.specs.Numbers.{name_in};
ghost use Rattle.file_flow.specs.File.{is_call, callee_of, is_panic, calls_panic};

use file_uses::name_at;
use go_tree::{FileTree, NodeKind};
use gv_base::NoMemory;
use std::alloc::Global;

fn is_call(kind: NodeKind) -> bool
    ensures { result ≡ is_call kind }
{
    matches!(kind, NodeKind::Call | NodeKind::CallSpread)
}

/// What a call calls, as it is written.
fn callee_of(tree: &FileTree, n: usize) -> Option<u32>
    ensures { result ≡ callee_of tree.now n }
{
    match tree.nodes.as_slice().get(n) {
        None => None,
        Some(node) => {
            if !is_call(node.kind) {
                return None;
            }
            node.part(0)
        }
    }
}

fn is_panic(name: Option<&[u8]>) -> bool
    ensures { result ≡ is_panic (option_map (λ o. o.now) name.entry) }
{
    match name {
        None => false,
        Some(name) => name == b"panic".as_slice(),
    }
}

/// Whether a node is spelled `panic(..)`.
fn calls_panic(tree: &FileTree, bytes: &[u8], n: usize) -> bool
    ensures { result ≡ calls_panic bytes.now tree.now n }
{
    match callee_of(tree, n) {
        None => false,
        Some(callee) => is_panic(name_at(bytes, tree, callee as usize)),
    }
}

/// For each node of a file whether it is a call that is spelled `panic(..)`.
pub fn panics(alloc: Global, tree: &FileTree, bytes: &[u8]) -> Result<Vec<bool>, NoMemory>
    ensures { IfOk result (λ flags. (n : ℕ) → flag_of flags.items n ≡ calls_panic bytes.now tree.now n) }
{
    let count = tree.nodes.as_slice().len();
    let mut flags = Vec::new(alloc);
    for n in 0..count {
        flags.push(calls_panic(tree, bytes, n))?;
    }
    Ok(flags)
}
