//! Whether a value of a variable may lead to a variable, a function or a method of the package. Where none does, no variable reaches itself.
ghost use Rattle.std.specs.Prelude.{◌≡◌, ◌<◌, ◌≤◌, ◌^◌, ◌↔◌, ℕ, IfOk, Some, true, false, length, slice_get};
ghost use Rattle.std.specs.Option.{option_map_or};
ghost use Rattle.go_tree.specs.Pieces.{Spelled};
ghost use Rattle.mark_walk.specs.Asks.{filled};
ghost use Rattle.node_values.specs.Parents.{at, AreParents};
ghost use Rattle.node_values.specs.Trees.{IsTree};
ghost use Rattle.typed_marks.specs.Meanings.{Quiet};
ghost use Rattle.typed_marks.specs.States.{so_far, IsState};
ghost use Rattle.unit_read.specs.Index.{texts_of};
ghost use Rattle.unit_read.specs.Subjects.{full_of, unit_of, IsRead, flag};
ghost use Rattle.body_facts.specs.Bodies.{AreBodies};
ghost use Rattle.rule_words.specs.Scenes.{said};
ghost use Rattle.check_pkg.specs.Elsewhere.{IsFlagRow};
ghost use Rattle.go_tree.specs.declared.tree.NodeRef.{NodeRef as OneNode};
ghost use Rattle.go_tree.specs.declared.tree.Node.{Node};
ghost use Rattle.check_pkg.specs.Initial.{IsInitialFault};
ghost use Rattle.check_pkg.specs.Leading.{has_names, has_names_at, FlagsNamed, AreNamedRows, tells_type, has_type, has_owner, selects, may_select, leads_on, LeadsIn, is_vars, LeadsInVars, LeadsInTop, LeadsInFile};
ghost use Rattle.selected_methods.specs.Owners.{is_selector};
ghost use Rattle.typed_tree.specs.Places.{is_package};

use crate::references::reference_at;
use go_tree::{FileTree, Node, NodeKind, NodeRef};
use gv_base::NoMemory;
use node_values::{parents_of, spelled_nodes};
use package_objects::part_of;
use std::alloc::Global;
use typed_marks::{Item, Mark, Stage, State};
use typed_tree::Mode;
use unit_read::{Subject, flag};

// ---- names of variables with values, of functions and of methods

fn has_names(kind: NodeKind) -> bool
    ensures { result ≡ has_names kind }
{
    matches!(
        kind,
        NodeKind::FuncDecl
            | NodeKind::MethodDecl
            | NodeKind::VarValues
            | NodeKind::VarTypedValues
            | NodeKind::Names
            | NodeKind::Exprs
    )
}

fn has_names_at(nodes: &[Node], n: usize) -> bool
    ensures { result ≡ has_names_at nodes.now n }
{
    match nodes.get(n) {
        Some(node) => has_names(node.kind),
        None => false,
    }
}

fn parent_at(parents: &[usize], n: usize) -> usize
    ensures { result ≡ at parents.now n }
{
    if n < parents.len() { parents[n] } else { 0 }
}

/// Which nodes are parts of what may have names.
fn parts_row(alloc: Global, nodes: &[Node], parents: &[usize]) -> Result<Vec<bool>, NoMemory>
    ensures { IfOk result (λ row. IsFlagRow (λ n. has_names_at nodes.now (at parents.now n)) row.items (length nodes.now)) }
{
    let mut row = Vec::with_capacity(alloc, nodes.len())?;
    for n in 0..nodes.len() {
        let is = has_names_at(nodes, parent_at(parents, n));
        row.push(is)?;
    }
    Ok(row)
}

fn node_parents(alloc: Global, tree: &FileTree) -> Result<Vec<usize>, NoMemory>
    ensures { IfOk result (λ parents. AreParents tree.now.nodes (length tree.now.nodes) parents.items) }
{
    let parents = parents_of(alloc, tree.nodes.as_slice())?;
    Ok(parents)
}

/// Which nodes of a file may be the names of variables, functions and methods.
fn named_row(alloc: Global, tree: &FileTree, bytes: &[u8]) -> Result<Vec<bool>, NoMemory>
    requires spelled { Spelled tree.now.tokens bytes.now tree.now }
    ensures { IfOk result (λ row. FlagsNamed tree.now.nodes row.items) }
{
    spelled_nodes(tree, bytes);
    let parents = node_parents(alloc, tree)?;
    let row = parts_row(alloc, tree.nodes.as_slice(), &parents)?;
    Ok(row)
}

fn tree_at<'a>(u: &Subject<'a>, k: usize) -> &'a FileTree
    requires { k < length u.now.trees.now }
    ensures { slice_get (unit_of u.now).trees k ≡ Some result.now }
{
    &u.trees[k]
}

fn text_at<'a>(u: &Subject<'a>, k: usize) -> &'a [u8]
    requires { k < length u.now.texts.now }
    ensures { slice_get (unit_of u.now).texts k ≡ Some result.now }
{
    u.texts[k]
}

fn named_rows(alloc: Global, u: &Subject) -> Result<Vec<Vec<bool>>, NoMemory>
    requires { AreBodies (texts_of u.now.texts.now) u.now.trees.now }
    ensures { IfOk result (λ rows. AreNamedRows u.now.trees.now (length u.now.trees.now) rows.items) }
{
    let mut rows = Vec::new(alloc);
    for k in 0..u.trees.len() {
        let row = named_row(alloc, tree_at(u, k), text_at(u, k))?;
        rows.push(row)?;
    }
    Ok(rows)
}

// ---- what leads on

fn is_selector(kind: NodeKind) -> bool
    ensures { result ≡ is_selector kind }
{
    matches!(kind, NodeKind::Selector)
}

fn is_package(mode: Mode) -> bool
    ensures { result ≡ is_package mode }
{
    matches!(mode, Mode::Package)
}

fn tells_type(s: &State, mark: Mark) -> bool
    ensures { result ≡ tells_type (said s.now mark) }
{
    let _ = s;
    match mark {
        Mark::Good(facts) => !is_package(facts.mode),
        Mark::Bad(_) => false,
        Mark::Outside(_) => false,
        Mark::Silent => false,
        Mark::Wants(_, _) => false,
        Mark::Declared(_) => false,
    }
}

fn has_type(s: &State, file: u32, n: u32) -> bool
    requires { IsState s.now }
    ensures { result ≡ has_type (filled Quiet (so_far s.now)) file n }
{
    let placed = Item {
        stage: Stage::Placed,
        block: file as usize,
        node: n as usize,
    };
    match s.see(placed) {
        Some(mark) => tells_type(s, mark),
        None => false,
    }
}

fn has_owner(s: &State, file: u32, node: &Node) -> bool
    requires { IsState s.now }
    ensures { result ≡ has_owner (filled Quiet (so_far s.now)) file node.now }
{
    match part_of(node, 0) {
        Some(n) => has_type(s, file, n),
        None => false,
    }
}

fn selects(s: &State, file: u32, node: &Node) -> bool
    requires { IsState s.now }
    ensures { result ≡ selects (filled Quiet (so_far s.now)) file node.now }
{
    if is_selector(node.kind) {
        return has_owner(s, file, node);
    }
    false
}

/// Whether a node may select a method.
fn may_select(u: &Subject, s: &State, at: NodeRef) -> bool
    requires { IsState s.now }
    ensures { result ≡ may_select (unit_of u.now) (filled Quiet (so_far s.now)) at }
{
    match u.node_at(at) {
        Some(node) => selects(s, at.file, node),
        None => false,
    }
}

fn is_flagged(rows: &Vec<Vec<bool>>, name: Option<NodeRef>) -> bool
    ensures { result ≡ option_map_or (flag rows.now.items) name false }
{
    match name {
        Some(name) => flag(rows, name),
        None => false,
    }
}

/// Whether a node leads to a variable, a function or a method.
fn leads_on(u: &Subject, s: &State, rows: &Vec<Vec<bool>>, at: NodeRef) -> bool
    requires read { IsRead u.now }
    requires state { IsState s.now }
    ensures { result ≡ leads_on (unit_of u.now) (filled Quiet (so_far s.now)) (flag rows.now.items) at }
{
    if is_flagged(rows, reference_at(u, s, at)) {
        return true;
    }
    may_select(u, s, at)
}

// ---- in declarations of variables

/// Whether something in a node leads on. It calls itself as deep as the tree is.
fn leads_within(
    u: &Subject,
    s: &State,
    rows: &Vec<Vec<bool>>,
    nodes: &[Node],
    file: u32,
    n: u32,
) -> bool
    requires read { IsRead u.now }
    requires state { IsState s.now }
    requires tree { IsTree nodes.now }
    requires node { n < length nodes.now }
    ensures { (result ≡ true) ↔ ((m : ℕ) × LeadsIn (unit_of u.now) (filled Quiet (so_far s.now)) (flag rows.now.items) file nodes.now n m) }
{
    if leads_on(u, s, rows, NodeRef { file, node: n }) {
        return true;
    }
    let node = &nodes[n as usize];
    for part in node.parts.as_slice() {
        if leads_within(u, s, rows, nodes, file, *part) {
            return true;
        }
    }
    false
}

fn is_vars(kind: NodeKind) -> bool
    ensures { result ≡ is_vars kind }
{
    matches!(kind, NodeKind::Var | NodeKind::VarGroup)
}

fn declares_vars(nodes: &[Node], n: u32) -> bool
    ensures { result ≡ option_map_or (λ (node : Node). is_vars node.kind) (slice_get nodes.now n) false }
{
    match nodes.get(n as usize) {
        Some(node) => is_vars(node.kind),
        None => false,
    }
}

fn top_leads(
    u: &Subject,
    s: &State,
    rows: &Vec<Vec<bool>>,
    nodes: &[Node],
    file: u32,
    n: u32,
) -> bool
    requires read { IsRead u.now }
    requires state { IsState s.now }
    requires tree { IsTree nodes.now }
    ensures { (result ≡ true) ↔ ((m : ℕ) × LeadsInVars (unit_of u.now) (filled Quiet (so_far s.now)) (flag rows.now.items) file nodes.now n m) }
{
    if n as usize >= nodes.len() {
        return false;
    }
    if !declares_vars(nodes, n) {
        return false;
    }
    leads_within(u, s, rows, nodes, file, n)
}

fn top_at(tree: &FileTree, i: usize) -> u32
    requires { i < length tree.now.tops }
    ensures { slice_get tree.now.tops i ≡ Some result }
{
    tree.tops.as_slice()[i]
}

fn file_leads(
    u: &Subject,
    s: &State,
    rows: &Vec<Vec<bool>>,
    tree: &FileTree,
    bytes: &[u8],
    file: u32,
) -> bool
    requires read { IsRead u.now }
    requires state { IsState s.now }
    requires spelled { Spelled tree.now.tokens bytes.now tree.now }
    ensures { (result ≡ true) ↔ ((i : ℕ) × (m : ℕ) × LeadsInTop (unit_of u.now) (filled Quiet (so_far s.now)) (flag rows.now.items) file tree.now i m) }
{
    spelled_nodes(tree, bytes);
    let nodes = tree.nodes.as_slice();
    for i in 0..tree.tops.as_slice().len() {
        if top_leads(u, s, rows, nodes, file, top_at(tree, i)) {
            return true;
        }
    }
    false
}

/// Whether something in a declaration of variables leads to a variable, a function or a method of the package.
fn values_lead(u: &Subject, s: &State, rows: &Vec<Vec<bool>>) -> bool
    requires read { IsRead u.now }
    requires state { IsState s.now }
    requires bodies { AreBodies (texts_of u.now.texts.now) u.now.trees.now }
    ensures { (result ≡ true) ↔ ((f : ℕ) × (m : ℕ) × LeadsInFile (unit_of u.now) (filled Quiet (so_far s.now)) (flag rows.now.items) f m) }
{
    for k in 0..u.trees.len() {
        if file_leads(u, s, rows, tree_at(u, k), text_at(u, k), k as u32) {
            return true;
        }
    }
    false
}

/// Whether a variable of the package may reach itself by references.
pub fn may_circle(alloc: Global, u: &Subject, s: &State) -> Result<bool, NoMemory>
    requires read { IsRead u.now }
    requires state { IsState s.now }
    requires bodies { AreBodies (texts_of u.now.texts.now) u.now.trees.now }
    ensures { IfOk result (λ may. may ≡ false → (at : OneNode) → IsInitialFault (full_of u.now) (filled Quiet (so_far s.now)) at → ⊥) }
{
    let rows = named_rows(alloc, u)?;
    Ok(values_lead(u, s, &rows))
}
