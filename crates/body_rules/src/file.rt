//! What is given of a file, and where its nodes stand.
ghost use Rattle.std.specs.Prelude.{◌≡◌, ℕ, Bool, cond, Option, Some, None, length, get_or, slice_get};
ghost use Rattle.std.specs.Option.{option_map_or};
ghost use Rattle.go_tree.specs.declared.token.Token.{Token};
ghost use Rattle.body_rules.specs.Given.{given};
ghost use Rattle.body_rules.specs.Files.{place_at, place_of, end_of, name_of};

use go_tree::{Node, Token};
use gv_base::Place;

/// What is given of a file: its nodes and tokens, the label of each name behind a jump, which nodes are labels that
/// stand second or that no jump denotes, which are `return`s where a result is shadowed, which are calls of `panic`
/// and which declare variables, and the declaration that each use denotes.
#[derive(Clone, Copy, Drop)]
pub struct File<'a> {
    pub number: u32,
    pub nodes: &'a [Node],
    pub tokens: &'a [Token],
    pub labels: &'a [Option<usize>],
    pub repeated: &'a [bool],
    pub unused: &'a [bool],
    pub shadowed: &'a [bool],
    pub panics: &'a [bool],
    pub variables: &'a [bool],
    pub meant: &'a [Option<usize>],
}

fn offset_at(tokens: &[Token], n: u32) -> u32
    ensures { result ≡ option_map_or (λ (t : Token). t.start) (slice_get tokens.now n) 0 }
{
    match tokens.get(n as usize) {
        Some(token) => token.start,
        None => 0,
    }
}

fn place_at(f: &File, token: u32) -> Place
    ensures { result ≡ place_at (given f.now) token }
{
    Place {
        file: f.number,
        offset: offset_at(f.tokens, token),
    }
}

/// Where a node begins.
pub(crate) fn place_of(f: &File, n: usize) -> Place
    ensures { result ≡ place_of (given f.now) n }
{
    match f.nodes.get(n) {
        Some(node) => place_at(f, node.first),
        None => place_at(f, 0),
    }
}

/// Where its last token stands.
pub(crate) fn end_of(f: &File, n: u32) -> Place
    ensures { result ≡ end_of (given f.now) n }
{
    match f.nodes.get(n as usize) {
        Some(node) => place_at(f, node.last),
        None => place_at(f, 0),
    }
}

fn first_or_zero(parts: &[u32]) -> u32
    ensures { result ≡ get_or parts.now 0 0 }
{
    match parts.first() {
        Some(part) => *part,
        None => 0,
    }
}

/// Where its first part begins.
pub(crate) fn name_of(f: &File, n: usize) -> Place
    ensures { result ≡ name_of (given f.now) n }
{
    match f.nodes.get(n) {
        Some(node) => place_of(f, first_or_zero(node.parts.as_slice()) as usize),
        None => place_of(f, 0),
    }
}

/// A place where a test holds.
pub(crate) fn place_if(test: bool, place: Place) -> Option<Place>
    ensures { result ≡ cond test (Some place) None }
{
    if test { Some(place) } else { None }
}
