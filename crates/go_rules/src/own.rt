//! Names that lead back to themselves, where a type is wanted.
ghost use Rattle.std.specs.Prelude.{◌≡◌};
ghost use Rattle.unit_read.specs.Subjects.{unit_of, IsRead};
ghost use Rattle.rule_words.specs.Wanting.{wanted_of};
ghost use Rattle.go_rules.specs.Own.{turns_back, is_circular, names_circular, is_type_wanted, is_selector, part_circular, owner_circular, name_circular, begins_circular, is_own_type};

use crate::role::is_name;
use go_tree::{Node, NodeKind, NodeRef, Object};
use package_objects::part_of;
use rule_words::Wanted;
use typed_marks::State;
use typed_tree::Want as Demand;
use unit_read::Subject;

fn turns_back(u: &Subject, name: NodeRef) -> bool
    ensures { result ≡ turns_back (unit_of u.now) name }
{
    !u.is_cyclic(name) && u.is_circular(name)
}

fn is_circular(u: &Subject, object: Object) -> bool
    ensures { result ≡ is_circular (unit_of u.now) object }
{
    match object {
        Object::Universe(_) => false,
        Object::Import(_) => false,
        Object::Local(name) => turns_back(u, name),
        Object::Package(name) => turns_back(u, name),
    }
}

fn names_circular(u: &Subject, at: NodeRef) -> bool
    requires { IsRead u.now }
    ensures { result ≡ names_circular (unit_of u.now) at }
{
    match u.object_at(at) {
        Some(object) => is_circular(u, object),
        None => false,
    }
}

fn is_type_wanted(demand: Demand) -> bool
    ensures { result ≡ is_type_wanted demand }
{
    match demand {
        Demand::Type => true,
        Demand::Case => true,
        _ => false,
    }
}

fn is_selector(kind: NodeKind) -> bool
    ensures { result ≡ is_selector kind }
{
    match kind {
        NodeKind::Selector => true,
        _ => false,
    }
}

fn part_circular(u: &Subject, at: NodeRef, part: Option<u32>) -> bool
    requires { IsRead u.now }
    ensures { result ≡ part_circular (unit_of u.now) at part }
{
    match part {
        Some(node) => names_circular(
            u,
            NodeRef {
                file: at.file,
                node,
            },
        ),
        None => false,
    }
}

fn owner_circular(u: &Subject, at: NodeRef, node: &Node) -> bool
    requires { IsRead u.now }
    ensures { result ≡ owner_circular (unit_of u.now) at node.now }
{
    is_selector(node.kind) && part_circular(u, at, part_of(node, 0))
}

fn name_circular(u: &Subject, at: NodeRef, node: &Node) -> bool
    requires { IsRead u.now }
    ensures { result ≡ name_circular (unit_of u.now) at node.now }
{
    is_name(node.kind) && names_circular(u, at)
}

fn begins_circular(u: &Subject, at: NodeRef, node: &Node) -> bool
    requires { IsRead u.now }
    ensures { result ≡ begins_circular (unit_of u.now) at node.now }
{
    name_circular(u, at, node) || owner_circular(u, at, node)
}

/// E10: whether a type is wanted of a name that denotes a constant, a variable or a function whose declaration leads back to it, or of
/// what is selected of it.
pub fn is_own_type(u: &Subject, s: &State, at: NodeRef, node: &Node, w: Wanted) -> bool
    requires { IsRead u.now }
    ensures { result ≡ is_own_type (unit_of u.now) at node.now (wanted_of s.now w) }
{
    let _ = s;
    is_type_wanted(w.demand) && begins_circular(u, at, node)
}
