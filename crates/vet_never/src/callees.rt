//! What statements call (Go 1.17, "Calls", "Expression statements", "Handling panics").
ghost use Rattle.std.specs.Prelude.{◌≡◌, false, IfOk, bytes_eq, option_map};
ghost use Rattle.std.specs.Option.{option_copied, option_map_or};
ghost use Rattle.object_order.specs.Spots.{place};
ghost use Rattle.package_objects.specs.Declares.{part};
ghost use Rattle.unit_read.specs.Units.{object_at};
ghost use Rattle.findings.specs.Passes.{unit_in, marks_in, IsPass};
ghost use Rattle.vet_words.specs.Forms.{bare};
ghost use Rattle.vet_never.specs.Callees.{if_call, call_of, callee_of, is_universe, is_panic, IsMemberCallee, IsCalleeIf, IsCallee};
ghost use Rattle.vet_never.specs.InCode.{callee_in};

use crate::told::Told;
use findings::Pass;
use go_tree::{Node, NodeRef, Object};
use gv_base::NoMemory;
use member_names::named_at;
use package_objects::{node_of, part_of};
use std::alloc::Global;
use vet_words::{bare, is_call};

// ---- calls

fn if_call(node: &Node) -> Option<&Node>
    ensures { option_copied result ≡ if_call node.now }
{
    if is_call(node.kind) { Some(node) } else { None }
}

fn call_of(nodes: &[Node], n: u32) -> Option<&Node>
    ensures { option_copied result ≡ call_of nodes.now n }
{
    match node_of(nodes, bare(nodes, n)) {
        Some(node) => if_call(node),
        None => None,
    }
}

fn callee_part(nodes: &[Node], call: &Node) -> Option<u32>
    ensures { result ≡ option_map (bare nodes.now) (part call.now 0) }
{
    match part_of(call, 0) {
        Some(n) => Some(bare(nodes, n)),
        None => None,
    }
}

/// What is called, parentheses dropped.
fn callee_of(nodes: &[Node], n: u32) -> Option<u32>
    ensures { result ≡ callee_of nodes.now n }
{
    match call_of(nodes, n) {
        Some(call) => callee_part(nodes, call),
        None => None,
    }
}

// ---- `panic`

fn is_universe(object: Object) -> bool
    ensures { result ≡ is_universe object }
{
    match object {
        Object::Universe(_) => true,
        Object::Import(_) => false,
        Object::Local(_) => false,
        Object::Package(_) => false,
    }
}

fn place(file: u32, node: u32) -> NodeRef
    ensures { result ≡ place file node }
{
    NodeRef { file, node }
}

fn is_predeclared(p: &Pass, file: u32, n: u32) -> bool
    requires { IsPass p.now }
    ensures { result ≡ option_map_or is_universe (object_at (unit_in p.now) (place file n)) false }
{
    match p.subject.object_at(place(file, n)) {
        Some(object) => is_universe(object),
        None => false,
    }
}

fn is_word(name: &[u8], word: &str) -> bool
    ensures { result ≡ bytes_eq name.now word.now }
{
    name == word.as_bytes()
}

fn is_panic(p: &Pass, file: u32, n: u32) -> bool
    requires { IsPass p.now }
    ensures { result ≡ is_panic (unit_in p.now) file n }
{
    is_predeclared(p, file, n) && is_word(p.subject.name_at(place(file, n)), "panic")
}

// ---- all of them

fn told_member(alloc: Global, p: &Pass, file: u32, n: u32) -> Result<Told, NoMemory>
    requires { IsPass p.now }
    ensures { IfOk result (λ t. IsMemberCallee (unit_in p.now) (marks_in p.now) file n (callee_in t)) }
{
    let found = named_at(alloc, p, file, n)?;
    match found {
        Some(name) => Ok(Told::Named(name)),
        None => Ok(Told::Other),
    }
}

fn told_at(alloc: Global, p: &Pass, file: u32, n: u32) -> Result<Told, NoMemory>
    requires { IsPass p.now }
    ensures { IfOk result (λ t. IsCalleeIf (unit_in p.now) (marks_in p.now) file n (is_panic (unit_in p.now) file n) (callee_in t)) }
{
    if is_panic(p, file, n) {
        return Ok(Told::Panic);
    }
    let told = told_member(alloc, p, file, n)?;
    Ok(told)
}

/// What a node calls, if it is a call.
pub(crate) fn told_of(alloc: Global, p: &Pass, file: u32, n: u32) -> Result<Told, NoMemory>
    requires { IsPass p.now }
    ensures { IfOk result (λ t. IsCallee (unit_in p.now) (marks_in p.now) (place file n) (callee_in t)) }
{
    match callee_of(p.subject.nodes_at(file), n) {
        Some(callee) => {
            let told = told_at(alloc, p, file, callee)?;
            Ok(told)
        }
        None => Ok(Told::Other),
    }
}
