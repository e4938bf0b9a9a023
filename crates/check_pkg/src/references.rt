//! What nodes refer to: as references, and as uses of variables.
ghost use Rattle.std.specs.Prelude.{◌≡◌, ◌≤◌, ◌^◌, IfOk, Some, None, if◌then◌else◌, length};
ghost use Rattle.mark_walk.specs.Asks.{filled};
ghost use Rattle.object_order.specs.Spots.{place};
ghost use Rattle.package_needs.specs.Worlds.{name_of};
ghost use Rattle.package_objects.specs.Declares.{AreSmall};
ghost use Rattle.typed_marks.specs.Meanings.{Quiet};
ghost use Rattle.typed_marks.specs.States.{so_far, IsState};
ghost use Rattle.unit_read.specs.Rows.{IsRow, AreRows};
ghost use Rattle.unit_read.specs.Subjects.{unit_of, IsRead, cell};
ghost use Rattle.unit_rows.specs.Circular.{named_at};
ghost use Rattle.rule_words.specs.Scenes.{said};
ghost use Rattle.check_pkg.specs.References.{is_pair, is_key_of, is_key_in, is_key, has_no_value, is_operand, is_field, judged_item, refers, reference_at, names_field, reads_at, joined_at, counted_at};

use go_tree::{FileTree, Node, NodeKind, NodeRef, Object};
use gv_base::NoMemory;
use std::alloc::Global;
use typed_marks::{Item, Mark, Stage, State};
use typed_tree::Mode;
use unit_read::{Place, Subject, cell};

/// Which nodes count: as references of what is initialised, or as uses of variables. They differ in names before colons.
#[derive(Clone, Copy, Debug, PartialEq, Eq, Drop)]
pub enum Counted {
    References,
    Uses,
}

// ---- names before colons

fn is_pair(kind: NodeKind) -> bool
    ensures { result ≡ is_pair kind }
{
    matches!(kind, NodeKind::KeyValue)
}

fn is_key_of(p: Place, node: &Node) -> bool
    ensures { result ≡ is_key_of p node.now }
{
    is_pair(node.kind) && p.slot == 0
}

fn is_key_in(u: &Subject, at: NodeRef, p: Place) -> bool
    ensures { result ≡ is_key_in (unit_of u.now) at p }
{
    let around = NodeRef {
        file: at.file,
        node: p.around,
    };
    match u.node_at(around) {
        Some(node) => is_key_of(p, node),
        None => false,
    }
}

/// Whether a node stands before the colon of an element of a literal.
fn is_key(u: &Subject, at: NodeRef) -> bool
    requires { IsRead u.now }
    ensures { result ≡ is_key (unit_of u.now) at }
{
    match u.place_at(at) {
        Some(p) => is_key_in(u, at, p),
        None => false,
    }
}

fn has_no_value(mode: Mode) -> bool
    ensures { result ≡ has_no_value mode }
{
    matches!(mode, Mode::NoValue)
}

/// Whether a mark is that of an operand.
fn is_operand(s: &State, mark: Mark) -> bool
    ensures { result ≡ is_operand (said s.now mark) }
{
    let _ = s;
    match mark {
        Mark::Good(facts) => !has_no_value(facts.mode),
        Mark::Bad(_) => false,
        Mark::Outside(_) => false,
        Mark::Silent => false,
        Mark::Wants(_, _) => false,
        Mark::Declared(_) => false,
    }
}

/// Whether a mark is that of a field's name.
fn is_field(s: &State, mark: Mark) -> bool
    ensures { result ≡ is_field (said s.now mark) }
{
    let _ = s;
    match mark {
        Mark::Good(facts) => has_no_value(facts.mode),
        Mark::Bad(_) => false,
        Mark::Outside(_) => false,
        Mark::Silent => false,
        Mark::Wants(_, _) => false,
        Mark::Declared(_) => false,
    }
}

fn judged_item(at: NodeRef) -> Item
    ensures { result ≡ judged_item at }
{
    Item {
        stage: Stage::Judged,
        block: at.file as usize,
        node: at.node as usize,
    }
}

fn is_operand_at(s: &State, at: NodeRef) -> bool
    requires { IsState s.now }
    ensures { result ≡ is_operand (filled Quiet (so_far s.now) (judged_item at)) }
{
    match s.see(judged_item(at)) {
        Some(mark) => is_operand(s, mark),
        None => false,
    }
}

fn is_field_at(s: &State, at: NodeRef) -> bool
    requires { IsState s.now }
    ensures { result ≡ is_field (filled Quiet (so_far s.now) (judged_item at)) }
{
    match s.see(judged_item(at)) {
        Some(mark) => is_field(s, mark),
        None => false,
    }
}

// ---- references and uses

fn refers(u: &Subject, s: &State, at: NodeRef) -> bool
    requires read { IsRead u.now }
    requires state { IsState s.now }
    ensures { result ≡ refers (unit_of u.now) (filled Quiet (so_far s.now)) at }
{
    if is_key(u, at) {
        is_operand_at(s, at)
    } else {
        true
    }
}

fn name_of(object: Object) -> Option<NodeRef>
    ensures { result ≡ name_of object }
{
    match object {
        Object::Universe(_) => None,
        Object::Import(_) => None,
        Object::Local(name) => Some(name),
        Object::Package(name) => Some(name),
    }
}

fn named_at(u: &Subject, at: NodeRef) -> Option<NodeRef>
    requires { IsRead u.now }
    ensures { result ≡ named_at (unit_of u.now) at }
{
    match u.object_at(at) {
        Some(object) => name_of(object),
        None => None,
    }
}

fn if_counts(counts: bool, name: NodeRef) -> Option<NodeRef>
    ensures { result ≡ (if counts then Some name else None) }
{
    if counts { Some(name) } else { None }
}

/// The declared name to which a node is a reference. Most nodes denote nothing.
pub fn reference_at(u: &Subject, s: &State, at: NodeRef) -> Option<NodeRef>
    requires read { IsRead u.now }
    requires state { IsState s.now }
    ensures { result ≡ reference_at (unit_of u.now) (filled Quiet (so_far s.now)) at }
{
    match named_at(u, at) {
        Some(name) => if_counts(refers(u, s, at), name),
        None => None,
    }
}

/// Whether a node names a field before a colon.
pub fn names_field(u: &Subject, s: &State, at: NodeRef) -> bool
    requires read { IsRead u.now }
    requires state { IsState s.now }
    ensures { result ≡ names_field (unit_of u.now) (filled Quiet (so_far s.now)) at }
{
    if is_key(u, at) {
        is_field_at(s, at)
    } else {
        false
    }
}

/// The declared name that a node uses.
fn reads_at(u: &Subject, s: &State, at: NodeRef) -> Option<NodeRef>
    requires read { IsRead u.now }
    requires state { IsState s.now }
    ensures { result ≡ reads_at (unit_of u.now) (filled Quiet (so_far s.now)) at }
{
    match named_at(u, at) {
        Some(name) => if_counts(!names_field(u, s, at), name),
        None => None,
    }
}

/// The declared name to which a node is a reference, or the method that it selects.
fn joined_at(
    u: &Subject,
    s: &State,
    methods: &Vec<Vec<Option<NodeRef>>>,
    at: NodeRef,
) -> Option<NodeRef>
    requires read { IsRead u.now }
    requires state { IsState s.now }
    ensures { result ≡ joined_at (unit_of u.now) (filled Quiet (so_far s.now)) (cell methods.now.items) at }
{
    match reference_at(u, s, at) {
        Some(name) => Some(name),
        None => cell(methods, at),
    }
}

fn counted_at(
    u: &Subject,
    s: &State,
    methods: &Vec<Vec<Option<NodeRef>>>,
    counted: Counted,
    at: NodeRef,
) -> Option<NodeRef>
    requires read { IsRead u.now }
    requires state { IsState s.now }
    ensures { result ≡ counted_at (unit_of u.now) (filled Quiet (so_far s.now)) (cell methods.now.items) counted at }
{
    match counted {
        Counted::References => joined_at(u, s, methods, at),
        Counted::Uses => reads_at(u, s, at),
    }
}

// ---- of all nodes

fn counted_row(
    alloc: Global,
    u: &Subject,
    s: &State,
    methods: &Vec<Vec<Option<NodeRef>>>,
    counted: Counted,
    file: u32,
    end: usize,
) -> Result<Vec<Option<NodeRef>>, NoMemory>
    requires read { IsRead u.now }
    requires state { IsState s.now }
    requires few { end ≤ 2 ^ 32 }
    ensures { IfOk result (λ row. IsRow (λ n. counted_at (unit_of u.now) (filled Quiet (so_far s.now)) (cell methods.now.items) counted (place file n)) row.items end) }
{
    let mut row = Vec::with_capacity(alloc, end)?;
    for node in 0..end {
        let at = NodeRef {
            file,
            node: node as u32,
        };
        let name = counted_at(u, s, methods, counted, at);
        row.push(name)?;
    }
    Ok(row)
}

fn tree_row(
    alloc: Global,
    u: &Subject,
    s: &State,
    methods: &Vec<Vec<Option<NodeRef>>>,
    counted: Counted,
    file: u32,
    tree: &FileTree,
) -> Result<Vec<Option<NodeRef>>, NoMemory>
    requires read { IsRead u.now }
    requires state { IsState s.now }
    requires small { length tree.now.nodes ≤ 2 ^ 32 }
    ensures { IfOk result (λ row. IsRow (λ n. counted_at (unit_of u.now) (filled Quiet (so_far s.now)) (cell methods.now.items) counted (place file n)) row.items (length tree.now.nodes)) }
{
    let row = counted_row(
        alloc,
        u,
        s,
        methods,
        counted,
        file,
        tree.nodes.as_slice().len(),
    )?;
    Ok(row)
}

/// For each node of each file the declared name to which it leads, if it counts. The methods that nodes select count as references.
pub fn counted_rows(
    alloc: Global,
    u: &Subject,
    s: &State,
    methods: &Vec<Vec<Option<NodeRef>>>,
    counted: Counted,
) -> Result<Vec<Vec<Option<NodeRef>>>, NoMemory>
    requires read { IsRead u.now }
    requires state { IsState s.now }
    requires small { AreSmall u.now.trees.now }
    requires few { length u.now.trees.now ≤ 2 ^ 32 }
    ensures { IfOk result (λ rows. AreRows (λ f tree n. counted_at (unit_of u.now) (filled Quiet (so_far s.now)) (cell methods.now.items) counted (place f n)) u.now.trees.now rows.items (length u.now.trees.now)) }
{
    let mut rows = Vec::new(alloc);
    for file in 0..u.trees.len() {
        let row = tree_row(alloc, u, s, methods, counted, file as u32, &u.trees[file])?;
        rows.push(row)?;
    }
    Ok(rows)
}
