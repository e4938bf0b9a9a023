//! Statements by kind, and which of their parts are what.
ghost use Rattle.std.specs.Prelude.{◌≡◌, ◌==◌, ◌&&◌, not, slice_get, option_and_then};
ghost use Rattle.std.specs.Option.{option_copied};
ghost use Rattle.package_objects.specs.Declares.{is_block, part};
ghost use Rattle.unit_read.specs.Subjects.{unit_of};
ghost use Rattle.unit_read.specs.Units.{token_at};
ghost use Rattle.assign_rules.specs.Kinds.{part_kind, is_statement, is_clause, is_default, is_condition, is_post, is_guard, is_bind, is_type_list, is_name, is_call, is_unary, is_semi, ends_at, is_followed, is_followed_at, if_slot, loop_condition, second_condition, clause_condition, condition_of, leads, first_tag, tag_slot, tag_of, guard_slot, guard_of, opens_for, takes_statement, names_label};

use go_tree::{FileTree, Node, NodeKind, Token, TokenKind};
use package_objects::{kind_of, node_of, part_of};
use unit_read::Subject;

/// The kind of a part; a part that isn't there has that of a package clause.
pub fn part_kind(nodes: &[Node], node: &Node, i: usize) -> NodeKind
    ensures { result ≡ part_kind nodes.now node.now i }
{
    match part_of(node, i) {
        Some(n) => kind_of(nodes, n),
        None => NodeKind::Package,
    }
}

// ---- kinds

/// A statement, or what stands for statements in another.
pub fn is_statement(kind: NodeKind) -> bool
    ensures { result ≡ is_statement kind }
{
    match kind {
        NodeKind::Block => true,
        NodeKind::List => true,
        NodeKind::Go => true,
        NodeKind::Defer => true,
        NodeKind::Return => true,
        NodeKind::Break => true,
        NodeKind::Continue => true,
        NodeKind::Goto => true,
        NodeKind::Fallthrough => true,
        NodeKind::Assign => true,
        NodeKind::OpAssign => true,
        NodeKind::Send => true,
        NodeKind::Increment => true,
        NodeKind::Decrement => true,
        NodeKind::Define => true,
        NodeKind::Label => true,
        NodeKind::If => true,
        NodeKind::Switch => true,
        NodeKind::TypeSwitch => true,
        NodeKind::Select => true,
        NodeKind::For => true,
        NodeKind::ForClause => true,
        NodeKind::ForRange => true,
        NodeKind::ForRangeAssign => true,
        NodeKind::ForRangeDefine => true,
        NodeKind::Const => true,
        NodeKind::ConstGroup => true,
        NodeKind::TypeDecl => true,
        NodeKind::TypeGroup => true,
        NodeKind::Var => true,
        NodeKind::VarGroup => true,
        NodeKind::Case => true,
        NodeKind::Default => true,
        NodeKind::TypeCase => true,
        NodeKind::Comm => true,
        NodeKind::Condition => true,
        NodeKind::Post => true,
        NodeKind::Bind => true,
        NodeKind::TypeGuard => true,
        _ => false,
    }
}

pub fn is_clause(kind: NodeKind) -> bool
    ensures { result ≡ is_clause kind }
{
    matches!(
        kind,
        NodeKind::Case | NodeKind::Default | NodeKind::TypeCase | NodeKind::Comm
    )
}

pub fn is_default(kind: NodeKind) -> bool
    ensures { result ≡ is_default kind }
{
    matches!(kind, NodeKind::Default)
}

fn is_condition(kind: NodeKind) -> bool
    ensures { result ≡ is_condition kind }
{
    matches!(kind, NodeKind::Condition)
}

fn is_post(kind: NodeKind) -> bool
    ensures { result ≡ is_post kind }
{
    matches!(kind, NodeKind::Post)
}

/// What a type switch switches on, with a name or without.
pub fn is_guard(kind: NodeKind) -> bool
    ensures { result ≡ is_guard kind }
{
    matches!(kind, NodeKind::Bind | NodeKind::TypeGuard)
}

pub fn is_bind(kind: NodeKind) -> bool
    ensures { result ≡ is_bind kind }
{
    matches!(kind, NodeKind::Bind)
}

pub fn is_type_list(kind: NodeKind) -> bool
    ensures { result ≡ is_type_list kind }
{
    matches!(kind, NodeKind::TypeList)
}

pub fn is_name(kind: NodeKind) -> bool
    ensures { result ≡ is_name kind }
{
    matches!(kind, NodeKind::Name)
}

pub fn is_call(kind: NodeKind) -> bool
    ensures { result ≡ is_call kind }
{
    matches!(kind, NodeKind::Call | NodeKind::CallSpread)
}

pub fn is_unary(kind: NodeKind) -> bool
    ensures { result ≡ is_unary kind }
{
    matches!(kind, NodeKind::Unary)
}

pub fn is_block(kind: NodeKind) -> bool
    ensures { result ≡ is_block kind }
{
    matches!(kind, NodeKind::Block)
}

// ---- semicolons

fn is_semi(kind: TokenKind) -> bool
    ensures { result ≡ is_semi kind }
{
    matches!(kind, TokenKind::Semi)
}

fn token_of(tree: &FileTree, i: usize) -> Option<&Token>
    ensures { option_copied result ≡ slice_get tree.now.tokens i }
{
    tree.tokens.as_slice().get(i)
}

fn token_at<'a>(u: &Subject<'a>, file: u32, i: usize) -> Option<&'a Token>
    ensures { option_copied result ≡ token_at (unit_of u.now) file i }
{
    match u.tree_at(file) {
        Some(tree) => token_of(tree, i),
        None => None,
    }
}

fn ends_at(u: &Subject, file: u32, i: usize) -> bool
    ensures { result ≡ ends_at (unit_of u.now) file i }
{
    match token_at(u, file, i) {
        Some(token) => is_semi(token.kind),
        None => false,
    }
}

/// A semicolon stands behind the node.
fn is_followed(u: &Subject, file: u32, node: &Node) -> bool
    ensures { result ≡ is_followed (unit_of u.now) file node.now }
{
    ends_at(u, file, node.last as usize + 1)
}

fn node_at(nodes: &[Node], o: Option<u32>) -> Option<&Node>
    ensures { option_copied result ≡ option_and_then (λ n. slice_get nodes.now n) o }
{
    match o {
        Some(n) => node_of(nodes, n),
        None => None,
    }
}

fn is_followed_at(u: &Subject, file: u32, nodes: &[Node], o: Option<u32>) -> bool
    ensures { result ≡ is_followed_at (unit_of u.now) file nodes.now o }
{
    match node_at(nodes, o) {
        Some(node) => is_followed(u, file, node),
        None => false,
    }
}

// ---- conditions

fn if_slot(nodes: &[Node], node: &Node) -> usize
    ensures { result ≡ if_slot nodes.now node.now }
{
    if is_block(part_kind(nodes, node, 1)) {
        0
    } else {
        1
    }
}

fn loop_condition(nodes: &[Node], node: &Node) -> Option<u32>
    ensures { result ≡ loop_condition nodes.now node.now }
{
    if is_block(part_kind(nodes, node, 0)) {
        None
    } else {
        part_of(node, 0)
    }
}

fn second_condition(nodes: &[Node], node: &Node) -> Option<u32>
    ensures { result ≡ second_condition nodes.now node.now }
{
    if is_condition(part_kind(nodes, node, 1)) {
        part_of(node, 1)
    } else {
        None
    }
}

fn clause_condition(nodes: &[Node], node: &Node) -> Option<u32>
    ensures { result ≡ clause_condition nodes.now node.now }
{
    if is_condition(part_kind(nodes, node, 0)) {
        part_of(node, 0)
    } else {
        second_condition(nodes, node)
    }
}

/// The condition of a statement of this kind, if it has one.
pub fn condition_of(kind: NodeKind, nodes: &[Node], node: &Node) -> Option<u32>
    ensures { result ≡ condition_of kind nodes.now node.now }
{
    match kind {
        NodeKind::If => part_of(node, if_slot(nodes, node)),
        NodeKind::For => loop_condition(nodes, node),
        NodeKind::ForClause => clause_condition(nodes, node),
        _ => None,
    }
}

// ---- tags and guards

fn leads(nodes: &[Node], node: &Node, i: usize) -> bool
    ensures { result ≡ leads nodes.now node.now i }
{
    match part_of(node, i) {
        Some(n) => !is_clause(kind_of(nodes, n)),
        None => false,
    }
}

fn first_tag(u: &Subject, file: u32, nodes: &[Node], node: &Node) -> Option<usize>
    ensures { result ≡ first_tag (unit_of u.now) file nodes.now node.now }
{
    let followed = is_followed_at(u, file, nodes, part_of(node, 0));
    if leads(nodes, node, 0) && !followed {
        Some(0)
    } else {
        None
    }
}

/// In which slot the tag of a switch stands, if there is one.
pub fn tag_slot(u: &Subject, file: u32, nodes: &[Node], node: &Node) -> Option<usize>
    ensures { result ≡ tag_slot (unit_of u.now) file nodes.now node.now }
{
    if leads(nodes, node, 1) {
        Some(1)
    } else {
        first_tag(u, file, nodes, node)
    }
}

/// The tag of a switch.
pub fn tag_of(u: &Subject, file: u32, nodes: &[Node], node: &Node) -> Option<u32>
    ensures { result ≡ tag_of (unit_of u.now) file nodes.now node.now }
{
    match tag_slot(u, file, nodes, node) {
        Some(slot) => part_of(node, slot),
        None => None,
    }
}

fn guard_slot(nodes: &[Node], node: &Node) -> usize
    ensures { result ≡ guard_slot nodes.now node.now }
{
    if is_guard(part_kind(nodes, node, 0)) {
        0
    } else {
        1
    }
}

/// What a type switch switches on.
pub fn guard_of(nodes: &[Node], node: &Node) -> Option<u32>
    ensures { result ≡ guard_of nodes.now node.now }
{
    part_of(node, guard_slot(nodes, node))
}

// ---- places of statements

fn opens_for(kind: NodeKind) -> bool
    ensures { result ≡ opens_for kind }
{
    !is_condition(kind) && (!is_post(kind) && !is_block(kind))
}

fn opens_if(nodes: &[Node], around: &Node, slot: usize) -> bool
    ensures { result ≡ (slot == 0) && not (is_block (part_kind nodes.now around.now 1)) }
{
    slot == 0 && !is_block(part_kind(nodes, around, 1))
}

fn opens_switch(u: &Subject, file: u32, nodes: &[Node], around: &Node, slot: usize) -> bool
    ensures { result ≡ (slot == 0) && (leads nodes.now around.now 0 && is_followed_at (unit_of u.now) file nodes.now (part around.now 0)) }
{
    let followed = is_followed_at(u, file, nodes, part_of(around, 0));
    slot == 0 && (leads(nodes, around, 0) && followed)
}

fn opens_type_switch(nodes: &[Node], around: &Node, slot: usize) -> bool
    ensures { result ≡ (slot == 0) && not (is_guard (part_kind nodes.now around.now 0)) }
{
    slot == 0 && !is_guard(part_kind(nodes, around, 0))
}

fn opens_clause(nodes: &[Node], around: &Node, slot: usize) -> bool
    ensures { result ≡ (slot == 0) && opens_for (part_kind nodes.now around.now 0) }
{
    slot == 0 && opens_for(part_kind(nodes, around, 0))
}

/// A statement may stand in the slot of a node of this kind.
pub fn takes_statement(
    u: &Subject,
    file: u32,
    nodes: &[Node],
    kind: NodeKind,
    around: &Node,
    slot: usize,
) -> bool
    ensures { result ≡ takes_statement (unit_of u.now) file nodes.now kind around.now slot }
{
    match kind {
        NodeKind::Block => true,
        NodeKind::List => true,
        NodeKind::Post => true,
        NodeKind::Label => slot == 1,
        NodeKind::If => opens_if(nodes, around, slot),
        NodeKind::Switch => opens_switch(u, file, nodes, around, slot),
        NodeKind::TypeSwitch => opens_type_switch(nodes, around, slot),
        NodeKind::ForClause => opens_clause(nodes, around, slot),
        _ => false,
    }
}

/// The names of labels: they are no uses.
pub fn names_label(kind: NodeKind, slot: usize) -> bool
    ensures { result ≡ names_label kind slot }
{
    match kind {
        NodeKind::Label => slot == 0,
        NodeKind::Break => true,
        NodeKind::Continue => true,
        NodeKind::Goto => true,
        _ => false,
    }
}
