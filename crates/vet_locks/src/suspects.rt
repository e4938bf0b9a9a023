//! What may copy a lock, by its form.
ghost use Rattle.std.specs.Prelude.{◌≡◌, length, option_and_then, bytes_eq};
ghost use Rattle.package_objects.specs.Declares.{part};
ghost use Rattle.unit_read.specs.Units.{nodes_at, is_blank};
ghost use Rattle.object_order.specs.Spots.{place};
ghost use Rattle.findings.specs.Passes.{unit_in, IsPass};
ghost use Rattle.vet_words.specs.Forms.{bare};
ghost use Rattle.vet_locks.specs.Suspects.{copied, is_universe, measures_name, is_predeclared, measures, argument_of, argument_at, is_blank_at, ranged, ranged_at, count_by, count_of, suspect_at};

use crate::entries::{entry_count, function_at, method_at, method_count, param_at};
use crate::made::{copied, element_at, pair_at, returned_at};
use crate::suspected::{Suspect, Words};
use findings::Pass;
use go_tree::{Node, NodeKind, NodeRef, Object};
use package_objects::{count, item, part_of};
use typed_marks::Stage;
use vet_words::bare;

// ---- arguments

fn is_universe(object: Object) -> bool
    ensures { result ≡ is_universe object }
{
    match object {
        Object::Universe(_) => true,
        Object::Import(_) => false,
        Object::Local(_) => false,
        Object::Package(_) => false,
    }
}

fn is_word(name: &[u8], word: &str) -> bool
    ensures { result ≡ bytes_eq name.now word.now }
{
    name == word.as_bytes()
}

fn measures_name(name: &[u8]) -> bool
    ensures { result ≡ measures_name name.now }
{
    is_word(name, "new") || (is_word(name, "len") || is_word(name, "cap"))
}

fn place(file: u32, node: u32) -> NodeRef
    ensures { result ≡ place file node }
{
    NodeRef { file, node }
}

fn is_predeclared(p: &Pass, file: u32, n: u32) -> bool
    requires { IsPass p.now }
    ensures { result ≡ is_predeclared (unit_in p.now) file n }
{
    match p.subject.object_at(place(file, n)) {
        Some(object) => is_universe(object),
        None => false,
    }
}

fn bare_at(p: &Pass, file: u32, n: u32) -> u32
    ensures { result ≡ bare (nodes_at (unit_in p.now) file) n }
{
    bare(p.subject.nodes_at(file), n)
}

fn measures(p: &Pass, file: u32, n: u32) -> bool
    requires { IsPass p.now }
    ensures { result ≡ measures (unit_in p.now) file n }
{
    let inner = bare_at(p, file, n);
    is_predeclared(p, file, inner) && measures_name(p.subject.name_at(place(file, inner)))
}

fn argument_by(p: &Pass, file: u32, callee: u32, n: Option<u32>) -> Option<Suspect>
    ensures { result ≡ option_and_then (copied (nodes_at (unit_in p.now) file) (Words.Argument callee)) n }
{
    match n {
        Some(n) => copied(p.subject.nodes_at(file), Words::Argument(callee), n),
        None => None,
    }
}

fn argument_of(p: &Pass, file: u32, node: &Node, i: usize, callee: u32) -> Option<Suspect>
    requires { IsPass p.now }
    ensures { result ≡ argument_of (unit_in p.now) file node.now i callee }
{
    if measures(p, file, callee) {
        None
    } else {
        argument_by(p, file, callee, part_of(node, i))
    }
}

fn argument_from(p: &Pass, file: u32, node: &Node, i: usize) -> Option<Suspect>
    requires { IsPass p.now }
    ensures { result ≡ option_and_then (argument_of (unit_in p.now) file node.now i) (part node.now 0) }
{
    match part_of(node, 0) {
        Some(callee) => argument_of(p, file, node, i, callee),
        None => None,
    }
}

fn argument_at(p: &Pass, file: u32, node: &Node, i: usize) -> Option<Suspect>
    requires { IsPass p.now }
    ensures { result ≡ argument_at (unit_in p.now) file node.now i }
{
    if i == 0 {
        return None;
    }
    argument_from(p, file, node, i)
}

// ---- range clauses

fn is_blank(name: &[u8]) -> bool
    ensures { result ≡ is_blank name.now }
{
    is_word(name, "_")
}

fn is_blank_at(p: &Pass, file: u32, n: u32) -> bool
    ensures { result ≡ is_blank_at (unit_in p.now) file n }
{
    is_blank(p.subject.name_at(place(file, bare_at(p, file, n))))
}

fn ranged(p: &Pass, file: u32, stage: Stage, n: u32) -> Option<Suspect>
    ensures { result ≡ ranged (unit_in p.now) file stage n }
{
    if is_blank_at(p, file, n) {
        None
    } else {
        Some(Suspect {
            stage,
            node: n,
            words: Words::Ranged(n),
        })
    }
}

fn ranged_at(p: &Pass, file: u32, stage: Stage, node: &Node, i: usize) -> Option<Suspect>
    ensures { result ≡ ranged_at (unit_in p.now) file stage node.now i }
{
    match item(p.subject.nodes_at(file), part_of(node, 0), i) {
        Some(n) => ranged(p, file, stage, n),
        None => None,
    }
}

// ---- all of a node

fn part_count(node: &Node) -> usize
    ensures { result ≡ length node.now.parts }
{
    node.parts.as_slice().len()
}

fn count_by(nodes: &[Node], node: &Node) -> usize
    ensures { result ≡ count_by nodes.now node.now node.now.kind }
{
    match node.kind {
        NodeKind::Assign => count(nodes, part_of(node, 1)),
        NodeKind::Define => count(nodes, part_of(node, 1)),
        NodeKind::VarValues => count(nodes, part_of(node, 1)),
        NodeKind::VarTypedValues => count(nodes, part_of(node, 2)),
        NodeKind::Value => part_count(node),
        NodeKind::Return => count(nodes, part_of(node, 0)),
        NodeKind::Call => part_count(node),
        NodeKind::CallSpread => part_count(node),
        NodeKind::FuncDecl => entry_count(nodes, part_of(node, 1)),
        NodeKind::MethodDecl => method_count(nodes, part_of(node, 2)),
        NodeKind::FuncLit => entry_count(nodes, part_of(node, 0)),
        NodeKind::ForRangeAssign => count(nodes, part_of(node, 0)),
        NodeKind::ForRangeDefine => count(nodes, part_of(node, 0)),
        _ => 0,
    }
}

/// How many may be in a node.
pub fn count_of(p: &Pass, file: u32, node: &Node) -> usize
    ensures { result ≡ count_of (unit_in p.now) file node.now }
{
    count_by(p.subject.nodes_at(file), node)
}

/// One of them.
pub fn suspect_at(p: &Pass, file: u32, node: &Node, i: usize) -> Option<Suspect>
    requires { IsPass p.now }
    ensures { result ≡ suspect_at (unit_in p.now) file node.now i }
{
    let nodes = p.subject.nodes_at(file);
    match node.kind {
        NodeKind::Assign => pair_at(nodes, false, part_of(node, 0), part_of(node, 1), i),
        NodeKind::Define => pair_at(nodes, false, part_of(node, 0), part_of(node, 1), i),
        NodeKind::VarValues => pair_at(nodes, true, part_of(node, 0), part_of(node, 1), i),
        NodeKind::VarTypedValues => pair_at(nodes, true, part_of(node, 0), part_of(node, 2), i),
        NodeKind::Value => element_at(nodes, node, i),
        NodeKind::Return => returned_at(nodes, node, i),
        NodeKind::Call => argument_at(p, file, node, i),
        NodeKind::CallSpread => argument_at(p, file, node, i),
        NodeKind::FuncDecl => function_at(nodes, node, i),
        NodeKind::MethodDecl => method_at(nodes, node, i),
        NodeKind::FuncLit => param_at(nodes, Words::PassedByLiteral, part_of(node, 0), i),
        NodeKind::ForRangeAssign => ranged_at(p, file, Stage::Placed, node, i),
        NodeKind::ForRangeDefine => ranged_at(p, file, Stage::Object, node, i),
        _ => None,
    }
}
