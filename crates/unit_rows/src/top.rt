//! Which names are declared at package level.
ghost use Rattle.std.specs.Prelude.{◌≡◌, not, option_and_then};
ghost use Rattle.unit_read.specs.Subjects.{cell, unit_of};
ghost use Rattle.unit_read.specs.Units.{place_at, around, is_none, is_top};
ghost use Rattle.unit_rows.specs.Drafts.{IsPlaced};

use go_tree::NodeRef;
use unit_read::{Place, Subject, cell};

/// Where a node stands.
fn place_at(s: &Subject, at: NodeRef) -> Option<Place>
    requires { IsPlaced s.now }
    ensures { result ≡ place_at (unit_of s.now) at }
{
    cell(&s.places, at)
}

/// The node around another.
pub fn around(s: &Subject, at: NodeRef) -> Option<NodeRef>
    requires { IsPlaced s.now }
    ensures { result ≡ around (unit_of s.now) at }
{
    match place_at(s, at) {
        Some(place) => Some(NodeRef {
            file: at.file,
            node: place.around,
        }),
        None => None,
    }
}

fn twice_around(s: &Subject, at: NodeRef) -> Option<NodeRef>
    requires { IsPlaced s.now }
    ensures { result ≡ option_and_then (around (unit_of s.now)) (around (unit_of s.now) at) }
{
    match around(s, at) {
        Some(node) => around(s, node),
        None => None,
    }
}

fn is_around(s: &Subject, at: Option<NodeRef>) -> bool
    requires { IsPlaced s.now }
    ensures { result ≡ not (is_none (option_and_then (around (unit_of s.now)) at)) }
{
    match at {
        Some(node) => around(s, node).is_some(),
        None => false,
    }
}

/// Whether a name is declared at package level.
pub fn is_top(s: &Subject, name: NodeRef) -> bool
    requires { IsPlaced s.now }
    ensures { result ≡ is_top (unit_of s.now) name }
{
    !is_around(s, twice_around(s, name))
}
