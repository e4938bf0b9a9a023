//! What is around a node.
ghost use Rattle.std.specs.Prelude.{◌≡◌, option_and_then};
ghost use Rattle.unit_read.specs.Subjects.{unit_of, IsRead};
ghost use Rattle.assign_rules.specs.Around.{is_blank_name, is_ignored, outside_by, outside, outermost, is_function_at, nearest, function_of, branch, around_of, bound_in, switch_of, clause_in, switched_by, clause_of};

use crate::kinds::{is_bind, is_name};
use go_tree::{Node, NodeRef, Object, is_function};
use package_objects::kind_of;
use rule_words::{deepest, is_blank, is_paren};
use unit_read::{Place, Subject};
use variable_rules::bare;

// ---- blanks

fn is_blank_name(u: &Subject, file: u32, nodes: &[Node], n: u32) -> bool
    ensures { result ≡ is_blank_name (unit_of u.now) file nodes.now n }
{
    is_name(kind_of(nodes, n)) && is_blank(u.name_at(NodeRef { file, node: n }))
}

/// A blank, parentheses aside.
pub fn is_ignored(u: &Subject, file: u32, nodes: &[Node], n: u32) -> bool
    ensures { result ≡ is_ignored (unit_of u.now) file nodes.now n }
{
    is_blank_name(u, file, nodes, bare(nodes, n))
}

// ---- functions

fn is_function_at(u: &Subject, file: u32, n: u32) -> bool
    ensures { result ≡ is_function_at (unit_of u.now) file n }
{
    is_function(kind_of(u.nodes_at(file), n))
}

/// The nearest function around a node, in so many steps at most.
fn function_above(u: &Subject, file: u32, most: usize, n: u32) -> Option<u32>
    requires { IsRead u.now }
    ensures { result ≡ nearest (unit_of u.now) file (is_function_at (unit_of u.now) file) most n }
{
    if most == 0 {
        return None;
    }
    match u.place_at(NodeRef { file, node: n }) {
        Some(p) => {
            if is_function_at(u, file, p.around) {
                return Some(p.around);
            }
            function_above(u, file, most - 1, p.around)
        }
        None => None,
    }
}

/// The function in whose body a node stands.
#[tactic(auto, unfolding(crate::specs::Around::function_of))]
pub fn function_of(u: &Subject, file: u32, n: u32) -> Option<u32>
    requires { IsRead u.now }
    ensures { result ≡ function_of (unit_of u.now) file n }
{
    function_above(u, file, deepest(), n)
}

// ---- clauses of type switches

/// The node directly in another that is around a node or is it, in so many steps at most.
fn branch(u: &Subject, file: u32, whole: u32, most: usize, n: u32) -> Option<u32>
    requires { IsRead u.now }
    ensures { result ≡ branch (unit_of u.now) file whole most n }
{
    if most == 0 {
        return None;
    }
    match u.place_at(NodeRef { file, node: n }) {
        Some(p) => {
            if p.around == whole {
                return Some(n);
            }
            branch(u, file, whole, most - 1, p.around)
        }
        None => None,
    }
}

/// What a node stands in.
pub fn around_of(u: &Subject, at: NodeRef) -> Option<u32>
    requires { IsRead u.now }
    ensures { result ≡ around_of (unit_of u.now) at }
{
    match u.place_at(at) {
        Some(p) => Some(p.around),
        None => None,
    }
}

fn bound_in(u: &Subject, name: NodeRef, bind: u32) -> Option<u32>
    requires { IsRead u.now }
    ensures { result ≡ bound_in (unit_of u.now) name bind }
{
    let file = name.file;
    if is_bind(kind_of(u.nodes_at(file), bind)) {
        around_of(u, NodeRef { file, node: bind })
    } else {
        None
    }
}

fn switch_of(u: &Subject, name: NodeRef) -> Option<u32>
    requires { IsRead u.now }
    ensures { result ≡ switch_of (unit_of u.now) name }
{
    match around_of(u, name) {
        Some(bind) => bound_in(u, name, bind),
        None => None,
    }
}

fn clause_in(u: &Subject, at: NodeRef, whole: u32) -> Option<u32>
    requires { IsRead u.now }
    ensures { result ≡ clause_in (unit_of u.now) at whole }
{
    branch(u, at.file, whole, deepest(), at.node)
}

fn clause_by(u: &Subject, at: NodeRef, name: NodeRef) -> Option<u32>
    requires { IsRead u.now }
    ensures { result ≡ option_and_then (clause_in (unit_of u.now) at) (switch_of (unit_of u.now) name) }
{
    match switch_of(u, name) {
        Some(whole) => clause_in(u, at, whole),
        None => None,
    }
}

fn switched_by(u: &Subject, at: NodeRef, object: Object) -> Option<u32>
    requires { IsRead u.now }
    ensures { result ≡ switched_by (unit_of u.now) at object }
{
    match object {
        Object::Local(name) => clause_by(u, at, name),
        Object::Universe(_) => None,
        Object::Import(_) => None,
        Object::Package(_) => None,
    }
}

/// The clause whose variable a use denotes, where it denotes the name of a type switch.
#[tactic(auto, unfolding(crate::specs::Around::clause_of))]
pub fn clause_of(u: &Subject, at: NodeRef) -> Option<u32>
    requires { IsRead u.now }
    ensures { result ≡ clause_of (unit_of u.now) at }
{
    match u.object_at(at) {
        Some(object) => switched_by(u, at, object),
        None => None,
    }
}

// ---- parentheses

fn outside_by(u: &Subject, file: u32, n: u32, p: Place) -> u32
    ensures { result ≡ outside_by (unit_of u.now) file n p }
{
    if is_paren(kind_of(u.nodes_at(file), p.around)) {
        p.around
    } else {
        n
    }
}

fn outside(u: &Subject, file: u32, n: u32) -> u32
    requires { IsRead u.now }
    ensures { result ≡ outside (unit_of u.now) file n }
{
    match u.place_at(NodeRef { file, node: n }) {
        Some(p) => outside_by(u, file, n, p),
        None => n,
    }
}

/// The outermost parentheses around a node, or itself.
pub fn outermost(u: &Subject, file: u32, n: u32) -> u32
    requires { IsRead u.now }
    ensures { result ≡ outermost (unit_of u.now) file n }
{
    let mut at = n;
    for i in 0..deepest() {
        let _: usize = i;
        at = outside(u, file, at);
    }
    at
}
