//! Where a type goes on: in its parentheses, or in the declaration that it names.
ghost use Rattle.std.specs.Prelude.{◌≡◌, None, option_and_then, option_map, slice_get};
ghost use Rattle.object_order.specs.Spots.{place, is_paren};
ghost use Rattle.object_order.specs.Views.{world_of, number_in};
ghost use Rattle.package_needs.specs.Follow.{if_before, inside as inside_of, goes_through, given, next, unwraps, Peels};
ghost use Rattle.package_needs.specs.Links.{StepsBy, numbered, named_in};

use crate::read::{beside, denoted_at, entry_of, kind_at, number_of, part_at};
use go_tree::{NodeKind, NodeRef};
use object_order::{Entry, Form, Root, View};

fn is_parenthesized(kind: NodeKind) -> bool
    ensures { result ≡ is_paren kind }
{
    match kind {
        NodeKind::Paren => true,
        _ => false,
    }
}

fn only_before(at: NodeRef, part: NodeRef) -> Option<NodeRef>
    ensures { result ≡ if_before at part }
{
    if part.node < at.node {
        return Some(part);
    }
    None
}

fn inside(view: &View, at: NodeRef) -> Option<NodeRef>
    ensures { result ≡ inside_of (world_of view.now) at }
{
    match part_at(view, 0, at) {
        Some(part) => only_before(at, part),
        None => None,
    }
}

fn passes(far: bool, form: Form) -> bool
    ensures { result ≡ goes_through far form }
{
    match form {
        Form::Alias => true,
        Form::Defined => far,
        Form::Other => false,
    }
}

fn root_of(entry: &Entry) -> Option<Root>
    ensures { result ≡ slice_get entry.now.roots 0 }
{
    entry.roots.as_slice().get(0).copied()
}

fn type_of(entry: &Entry) -> Option<NodeRef>
    ensures { result ≡ option_map (λ r. place entry.now.name.file r.node) (slice_get entry.now.roots 0) }
{
    match root_of(entry) {
        Some(root) => Some(beside(entry.name, root.node)),
        None => None,
    }
}

/// The type that a type's declaration gives.
pub fn given_by(far: bool, entry: &Entry) -> Option<NodeRef>
    ensures { result ≡ given far entry.now }
{
    if passes(far, entry.form) {
        return type_of(entry);
    }
    None
}

/// What stands in parentheses, where the type does.
fn unwrapped(view: &View, at: NodeRef) -> Option<NodeRef>
    ensures { result ≡ unwraps (world_of view.now) at }
{
    if is_parenthesized(kind_at(view, at)) {
        return inside(view, at);
    }
    None
}

/// The type without the parentheses round it.
pub fn peel(view: &View, start: NodeRef) -> NodeRef
    ensures peels { Peels (world_of view.now) start result }
    ensures bare { unwraps (world_of view.now) result ≡ None }
{
    let mut at = start;
    while let Some(part) = unwrapped(view, at) {
        at = part;
    }
    at
}

/// The number of a declaration of a type, where following goes through it.
fn numbered_by(entries: &Vec<Entry>, far: bool, n: u32) -> Option<u32>
    ensures { result ≡ numbered far entries.now.items n }
{
    match entry_of(entries, n) {
        Some(entry) => match given_by(far, entry) {
            Some(_) => Some(n),
            None => None,
        },
        None => None,
    }
}

fn number_through(view: &View, far: bool, object: NodeRef) -> Option<u32>
    ensures { result ≡ option_and_then (λ n. numbered far view.now.entries.items n) (number_in view.now.numbers (object.file, object.node)) }
{
    match number_of(&view.numbers, object) {
        Some(n) => numbered_by(&view.entries, far, n),
        None => None,
    }
}

fn named(view: &View, far: bool, at: NodeRef) -> Option<u32>
    ensures { result ≡ named_in view.now.entries.items view.now.numbers far ((world_of view.now).meant at) }
{
    match denoted_at(view, at) {
        Some(object) => number_through(view, far, object),
        None => None,
    }
}

/// The number of the declaration to which a bare type goes on.
pub fn step_from(view: &View, far: bool, at: NodeRef) -> Option<u32>
    requires { unwraps (world_of view.now) at ≡ None }
    ensures { StepsBy (world_of view.now) view.now.entries.items far at result }
{
    if is_parenthesized(kind_at(view, at)) {
        return None;
    }
    named(view, far, at)
}
