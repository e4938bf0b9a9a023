//! The literal whose braces stand at a node.
ghost use Rattle.std.specs.Prelude.{◌≡◌, option_map, IfSome};
ghost use Rattle.mark_walk.specs.Telling.{tell};
ghost use Rattle.type_model.specs.GoTypes.{type_of, IsOver};
ghost use Rattle.type_model.specs.Tables.{types_in, count, IsTable};
ghost use Rattle.unit_read.specs.Subjects.{unit_of, IsRead};
ghost use Rattle.rule_words.specs.Scenes.{sight, IsScene, told_by, IfFound, said, IsMarkOf, type_in, IsTypeOf};
ghost use Rattle.rule_words.specs.Wanting.{wanted_of, IsWantedOf};
ghost use Rattle.rule_words.specs.Words.{wanted_in};
ghost use Rattle.literal_rules.specs.Shapes.{literal_ask, written_of, written_told, written_ask, open_ask, dots_ask, type_ask, type_at_ask, composite_ask, elided_by, elided_told, elided_ask, inner_by, inner_told, inner_ask, braces_around, braces_in, braces_ask};
ghost use Rattle.rule_words.specs.Good.{known_of, AreFactsOf};
ghost use Rattle.literal_rules.specs.InCode.{literal_in, may_be_literal, MayBeLiteralOf};

use crate::forms::{is_composite, is_dots};
use crate::shape::{Literal, bare, literal_of, literal_told, open_told};
use go_tree::{Node, NodeRef};
use package_objects::{node_of, part_of};
use rule_words::good::known;
use rule_words::{Wanted, look, under_of, wanted_by};
use type_model::{Term, TypeId};
use type_questions::Found;
use typed_marks::{Facts, Item, Mark, Stage, State, Want};
use unit_read::{Place, Subject};

/// A literal of a type, by the underlying type of another: itself, or that to which it points.
fn literal_by(u: &Subject, s: &State, of: TypeId, base: TypeId) -> Found<Option<Literal>, Item>
    requires scene { IsScene u.now s.now }
    requires of { IsTypeOf s.now of }
    requires base { IsTypeOf s.now base }
    ensures is { told_by (may_be_literal s.now) result ≡ tell (sight s.now) (literal_ask (unit_of u.now) (type_in s.now of) (type_in s.now base)) }
    ensures over { IfFound result (MayBeLiteralOf s.now) }
{
    match under_of(u, s, base) {
        Found::Is(under) => Found::Is(literal_told(s, of, under)),
        Found::Wait(item) => Found::Wait(item),
    }
}

// ---- a type that is written

fn written_of(u: &Subject, s: &State, x: Facts) -> Found<Option<Literal>, Item>
    requires scene { IsScene u.now s.now }
    requires facts { AreFactsOf s.now x }
    ensures is { told_by (may_be_literal s.now) result ≡ tell (sight s.now) (written_of (unit_of u.now) (known_of s.now x)) }
    ensures over { IfFound result (MayBeLiteralOf s.now) }
{
    literal_by(u, s, x.of, x.of)
}

fn written_told(u: &Subject, s: &State, m: Mark) -> Found<Option<Literal>, Item>
    requires scene { IsScene u.now s.now }
    requires mark { IsMarkOf s.now m }
    ensures is { told_by (may_be_literal s.now) result ≡ tell (sight s.now) (written_told (unit_of u.now) (said s.now m)) }
    ensures over { IfFound result (MayBeLiteralOf s.now) }
{
    match known(s, m) {
        Some(x) => written_of(u, s, x),
        None => Found::Is(None),
    }
}

fn written(u: &Subject, s: &State, block: usize, t: u32) -> Found<Option<Literal>, Item>
    requires { IsScene u.now s.now }
    ensures is { told_by (may_be_literal s.now) result ≡ tell (sight s.now) (written_ask (unit_of u.now) block t) }
    ensures over { IfFound result (MayBeLiteralOf s.now) }
{
    match look(u, s, Stage::Placed, block, t) {
        Found::Is(m) => written_told(u, s, m),
        Found::Wait(item) => Found::Wait(item),
    }
}

fn open(u: &Subject, s: &State, block: usize, e: u32) -> Found<Option<Literal>, Item>
    requires { IsScene u.now s.now }
    ensures is { told_by (may_be_literal s.now) result ≡ tell (sight s.now) (open_ask (unit_of u.now) block e) }
    ensures over { IfFound result (MayBeLiteralOf s.now) }
{
    match look(u, s, Stage::Placed, block, e) {
        Found::Is(m) => Found::Is(open_told(s, m)),
        Found::Wait(item) => Found::Wait(item),
    }
}

fn dots(u: &Subject, s: &State, block: usize, node: &Node) -> Found<Option<Literal>, Item>
    requires { IsScene u.now s.now }
    ensures is { told_by (may_be_literal s.now) result ≡ tell (sight s.now) (dots_ask (unit_of u.now) block node.now) }
    ensures over { IfFound result (MayBeLiteralOf s.now) }
{
    match part_of(node, 0) {
        Some(e) => open(u, s, block, e),
        None => Found::Is(None),
    }
}

fn by_type(
    u: &Subject,
    s: &State,
    block: usize,
    t: u32,
    node: &Node,
) -> Found<Option<Literal>, Item>
    requires { IsScene u.now s.now }
    ensures is { told_by (may_be_literal s.now) result ≡ tell (sight s.now) (type_ask (unit_of u.now) block t node.now) }
    ensures over { IfFound result (MayBeLiteralOf s.now) }
{
    if is_dots(node.kind) {
        dots(u, s, block, node)
    } else {
        written(u, s, block, t)
    }
}

fn by_type_at(
    u: &Subject,
    s: &State,
    block: usize,
    nodes: &[Node],
    t: u32,
) -> Found<Option<Literal>, Item>
    requires { IsScene u.now s.now }
    ensures is { told_by (may_be_literal s.now) result ≡ tell (sight s.now) (type_at_ask (unit_of u.now) block nodes.now t) }
    ensures over { IfFound result (MayBeLiteralOf s.now) }
{
    match node_of(nodes, t) {
        Some(node) => by_type(u, s, block, t, node),
        None => Found::Is(None),
    }
}

fn of_composite(
    u: &Subject,
    s: &State,
    block: usize,
    nodes: &[Node],
    around: &Node,
) -> Found<Option<Literal>, Item>
    requires { IsScene u.now s.now }
    ensures is { told_by (may_be_literal s.now) result ≡ tell (sight s.now) (composite_ask (unit_of u.now) block nodes.now around.now) }
    ensures over { IfFound result (MayBeLiteralOf s.now) }
{
    match part_of(around, 0) {
        Some(t) => by_type_at(u, s, block, nodes, t),
        None => Found::Is(None),
    }
}

// ---- a type that is left out

fn elided_by(u: &Subject, s: &State, of: TypeId, under: TypeId) -> Found<Option<Literal>, Item>
    requires scene { IsScene u.now s.now }
    requires of { IsTypeOf s.now of }
    requires within { IsTypeOf s.now under }
    ensures is { told_by (may_be_literal s.now) result ≡ tell (sight s.now) (elided_by (unit_of u.now) (type_in s.now of) (type_in s.now under)) }
    ensures over { IfFound result (MayBeLiteralOf s.now) }
{
    match s.table.term(under) {
        Term::Pointer(base) => literal_by(u, s, of, *base),
        Term::Basic(_) => Found::Is(Some(literal_of(s, of, under))),
        Term::Defined(_) => Found::Is(Some(literal_of(s, of, under))),
        Term::Slice(_) => Found::Is(Some(literal_of(s, of, under))),
        Term::Array(_, _) => Found::Is(Some(literal_of(s, of, under))),
        Term::Map(_, _) => Found::Is(Some(literal_of(s, of, under))),
        Term::Chan(_, _) => Found::Is(Some(literal_of(s, of, under))),
        Term::Func(_) => Found::Is(Some(literal_of(s, of, under))),
        Term::Struct(_) => Found::Is(Some(literal_of(s, of, under))),
        Term::Interface(_) => Found::Is(Some(literal_of(s, of, under))),
    }
}

fn elided_told(
    u: &Subject,
    s: &State,
    of: TypeId,
    under: Option<TypeId>,
) -> Found<Option<Literal>, Item>
    requires scene { IsScene u.now s.now }
    requires of { IsTypeOf s.now of }
    requires within { IfSome under (IsTypeOf s.now) }
    ensures is { told_by (may_be_literal s.now) result ≡ tell (sight s.now) (elided_told (unit_of u.now) (type_in s.now of) (option_map (type_in s.now) under)) }
    ensures over { IfFound result (MayBeLiteralOf s.now) }
{
    match under {
        Some(under) => elided_by(u, s, of, under),
        None => Found::Is(None),
    }
}

fn elided(u: &Subject, s: &State, of: TypeId) -> Found<Option<Literal>, Item>
    requires scene { IsScene u.now s.now }
    requires of { IsTypeOf s.now of }
    ensures is { told_by (may_be_literal s.now) result ≡ tell (sight s.now) (elided_ask (unit_of u.now) (type_in s.now of)) }
    ensures over { IfFound result (MayBeLiteralOf s.now) }
{
    match under_of(u, s, of) {
        Found::Is(under) => elided_told(u, s, of, under),
        Found::Wait(item) => Found::Wait(item),
    }
}

fn inner_by(u: &Subject, s: &State, w: Wanted) -> Found<Option<Literal>, Item>
    requires scene { IsScene u.now s.now }
    requires wanted { IsWantedOf s.now w }
    ensures is { told_by (may_be_literal s.now) result ≡ tell (sight s.now) (inner_by (unit_of u.now) w.demand (wanted_of s.now w).wish) }
    ensures over { IfFound result (MayBeLiteralOf s.now) }
{
    match w.want {
        Want::Free => Found::Is(bare(s, w.demand)),
        Want::Takes(to) => elided(u, s, to),
        Want::Fits(to) => elided(u, s, to),
        Want::Assigned(to) => elided(u, s, to),
    }
}

fn inner_told(u: &Subject, s: &State, m: Mark) -> Found<Option<Literal>, Item>
    requires scene { IsScene u.now s.now }
    requires mark { IsMarkOf s.now m }
    ensures is { told_by (may_be_literal s.now) result ≡ tell (sight s.now) (inner_told (unit_of u.now) (said s.now m)) }
    ensures over { IfFound result (MayBeLiteralOf s.now) }
{
    inner_by(u, s, wanted_by(s, m))
}

fn inner(u: &Subject, s: &State, block: usize, n: u32) -> Found<Option<Literal>, Item>
    requires { IsScene u.now s.now }
    ensures is { told_by (may_be_literal s.now) result ≡ tell (sight s.now) (inner_ask (unit_of u.now) block n) }
    ensures over { IfFound result (MayBeLiteralOf s.now) }
{
    match look(u, s, Stage::Wanted, block, n) {
        Found::Is(m) => inner_told(u, s, m),
        Found::Wait(item) => Found::Wait(item),
    }
}

// ---- braces, by where they stand

fn in_node(
    u: &Subject,
    s: &State,
    block: usize,
    at: NodeRef,
    around: &Node,
) -> Found<Option<Literal>, Item>
    requires { IsScene u.now s.now }
    ensures is { told_by (may_be_literal s.now) result ≡ tell (sight s.now) (braces_around (unit_of u.now) block at around.now) }
    ensures over { IfFound result (MayBeLiteralOf s.now) }
{
    if is_composite(around.kind) {
        of_composite(u, s, block, u.nodes_at(at.file), around)
    } else {
        inner(u, s, block, at.node)
    }
}

fn in_place(
    u: &Subject,
    s: &State,
    block: usize,
    at: NodeRef,
    p: Place,
) -> Found<Option<Literal>, Item>
    requires { IsScene u.now s.now }
    ensures is { told_by (may_be_literal s.now) result ≡ tell (sight s.now) (braces_in (unit_of u.now) block at p) }
    ensures over { IfFound result (MayBeLiteralOf s.now) }
{
    let outer = NodeRef {
        file: at.file,
        node: p.around,
    };
    match u.node_at(outer) {
        Some(node) => in_node(u, s, block, at, node),
        None => Found::Is(None),
    }
}

/// The literal whose braces stand at a node, where its type is known; or the item for whose mark that waits.
pub fn braces(u: &Subject, s: &State, block: usize, at: NodeRef) -> Found<Option<Literal>, Item>
    requires { IsScene u.now s.now }
    ensures is { told_by (may_be_literal s.now) result ≡ tell (sight s.now) (braces_ask (unit_of u.now) block at) }
    ensures over { IfFound result (MayBeLiteralOf s.now) }
{
    match u.place_at(at) {
        Some(p) => in_place(u, s, block, at, p),
        None => Found::Is(None),
    }
}
