//! What the places in a composite literal want.
ghost use Rattle.std.specs.Prelude.{◌≡◌, map, slice_get};
ghost use Rattle.mark_walk.specs.Telling.{tell};
ghost use Rattle.type_model.specs.GoTypes.{FieldsBelow};
ghost use Rattle.type_model.specs.Tables.{count, IsTable};
ghost use Rattle.typed_tree.specs.Basics.{HasBasics};
ghost use Rattle.gv_base.specs.declared.constant.Kind.TheVariants as kinds;
ghost use Rattle.type_model.specs.GoTypes.{BasicType};
ghost use Rattle.typed_tree.specs.declared.place.Want.TheVariants as demands;
ghost use Rattle.typed_marks.specs.Meanings.{Takes, Wishes};
ghost use Rattle.unit_read.specs.Subjects.{unit_of};
ghost use Rattle.rule_words.specs.Scenes.{sight, IsScene, told_by, IfFound, said, IsMarkOf, type_in, IsTypeOf};
ghost use Rattle.literal_rules.specs.Wants.{nothing_wanted, type_wanted, assigned, field_wanted, of_field, element_wanted, nth_field, field_on, keyed_field, key_wanted, by_shape, plain_want, item_want, element_want, pair_wanted, pair_in, pair_want, composite_want, form_wants, literal_wants};
ghost use Rattle.literal_rules.specs.InCode.{shape_in, IsShapeOf, field_in, fields_in, may_be_literal, MayBeLiteralOf};

use crate::braces::braces;
use crate::fields::{fields_of, keyed_among, nth_field};
use crate::forms::{Form, form_of, is_pair};
use crate::places::{is_braces_at, nodes_in, second_braces};
use crate::shape::{Literal, Shape};
use go_tree::{Node, NodeRef};
use gv_base::Kind;
use package_objects::{kind_of, part_of};
use rule_words::file_of;
use rule_words::good::basic_type;
use type_model::{Field, TypeId};
use type_questions::Found;
use typed_marks::{Item, Mark, State, Want};
use typed_tree::Want as Demand;
use unit_read::{Place, Subject};

fn nothing_wanted(s: &State) -> Mark
    ensures is { said s.now result ≡ nothing_wanted }
    ensures over { IsMarkOf s.now result }
{
    let _ = s;
    Mark::Wants(Demand::Nothing, Want::Free)
}

fn type_wanted(s: &State) -> Mark
    ensures is { said s.now result ≡ type_wanted }
    ensures over { IsMarkOf s.now result }
{
    let _ = s;
    Mark::Wants(Demand::Type, Want::Free)
}

/// A value that is assigned to a type.
fn assigned(s: &State, of: TypeId) -> Mark
    requires { IsTypeOf s.now of }
    ensures is { said s.now result ≡ assigned (type_in s.now of) }
    ensures over { IsMarkOf s.now result }
{
    let _ = s;
    Mark::Wants(Demand::Operand, Want::Assigned(of))
}

// ---- elements

fn field_wanted(s: &State, braces: bool, f: &Field) -> Mark
    requires { IsTypeOf s.now f.now.of }
    ensures is { said s.now result ≡ field_wanted braces (field_in s.now f.now) }
    ensures over { IsMarkOf s.now result }
{
    if braces {
        Mark::Wants(Demand::Operand, Want::Free)
    } else {
        assigned(s, f.of)
    }
}

fn of_nth(s: &State, braces: bool, fields: &[Field], i: usize) -> Mark
    requires { FieldsBelow (count s.now.table) fields.now }
    ensures is { said s.now result ≡ of_field braces (slice_get (map (field_in s.now) fields.now) i) }
    ensures over { IsMarkOf s.now result }
{
    match nth_field(fields, i) {
        Some(f) => field_wanted(s, braces, f),
        None => nothing_wanted(s),
    }
}

fn of_place(s: &State, braces: bool, fields: &[Field], i: Option<usize>) -> Mark
    requires { FieldsBelow (count s.now.table) fields.now }
    ensures is { said s.now result ≡ of_field braces (field_on (map (field_in s.now) fields.now) i) }
    ensures over { IsMarkOf s.now result }
{
    match i {
        Some(i) => of_nth(s, braces, fields, i),
        None => nothing_wanted(s),
    }
}

/// An element without a key.
fn plain_wanted(s: &State, braces: bool, slot: usize, shape: Shape) -> Mark
    requires table { IsTable s.now.table }
    requires shape { IsShapeOf s.now shape }
    ensures is { said s.now result ≡ element_wanted braces (nth_field slot) (shape_in s.now shape) }
    ensures over { IsMarkOf s.now result }
{
    match shape {
        Shape::Fields(of) => of_nth(s, braces, fields_of(s, of), slot),
        Shape::Row(e, _) => assigned(s, e),
        Shape::Table(_, e) => assigned(s, e),
        Shape::Other => nothing_wanted(s),
    }
}

// ---- the field that a key names

fn keyed_field_wanted(
    u: &Subject,
    s: &State,
    file: u32,
    nodes: &[Node],
    braces: bool,
    i: usize,
    key: Option<u32>,
    of: TypeId,
) -> Mark
    requires table { IsTable s.now.table }
    requires of { IsTypeOf s.now of }
    ensures is { said s.now result ≡ of_field braces (keyed_field (unit_of u.now) file nodes.now i key (fields_in (type_in s.now of))) }
    ensures over { IsMarkOf s.now result }
{
    let fields = fields_of(s, of);
    let place = keyed_among(u, s, file, fields, nodes, i, key);
    of_place(s, braces, fields, place)
}

/// An element with a key.
fn keyed_wanted(
    u: &Subject,
    s: &State,
    file: u32,
    nodes: &[Node],
    braces: bool,
    i: usize,
    key: Option<u32>,
    shape: Shape,
) -> Mark
    requires table { IsTable s.now.table }
    requires shape { IsShapeOf s.now shape }
    ensures is { said s.now result ≡ element_wanted braces (keyed_field (unit_of u.now) file nodes.now i key) (shape_in s.now shape) }
    ensures over { IsMarkOf s.now result }
{
    match shape {
        Shape::Fields(of) => keyed_field_wanted(u, s, file, nodes, braces, i, key, of),
        Shape::Row(e, _) => assigned(s, e),
        Shape::Table(_, e) => assigned(s, e),
        Shape::Other => nothing_wanted(s),
    }
}

// ---- keys

fn index_wanted(s: &State) -> Mark
    requires { HasBasics s.now.table }
    ensures is { said s.now result ≡ Wishes demands.Operand (Takes (BasicType kinds.Int)) }
    ensures over { IsMarkOf s.now result }
{
    Mark::Wants(Demand::Operand, Want::Takes(basic_type(s, Kind::Int)))
}

fn key_wanted(s: &State, shape: Shape) -> Mark
    requires basics { HasBasics s.now.table }
    requires shape { IsShapeOf s.now shape }
    ensures is { said s.now result ≡ key_wanted (shape_in s.now shape) }
    ensures over { IsMarkOf s.now result }
{
    match shape {
        Shape::Fields(_) => nothing_wanted(s),
        Shape::Row(_, _) => index_wanted(s),
        Shape::Table(key, _) => assigned(s, key),
        Shape::Other => nothing_wanted(s),
    }
}

// ---- by where they stand

fn plain_told(s: &State, braces: bool, slot: usize, l: Option<Literal>) -> Found<Mark, Item>
    requires table { IsTable s.now.table }
    requires literal { MayBeLiteralOf s.now l }
    ensures is { told_by (said s.now) result ≡ tell (sight s.now) (by_shape (element_wanted braces (nth_field slot)) (may_be_literal s.now l)) }
    ensures over { IfFound result (IsMarkOf s.now) }
{
    match l {
        Some(l) => Found::Is(plain_wanted(s, braces, slot, l.shape)),
        None => Found::Is(nothing_wanted(s)),
    }
}

#[tactic(auto, using(rule_words::proofs::BindLaws::says_bind, rule_words::proofs::BindLaws::waits_bind))]
fn plain_want(u: &Subject, s: &State, block: usize, p: Place, n: u32) -> Found<Mark, Item>
    requires { IsScene u.now s.now }
    ensures is { told_by (said s.now) result ≡ tell (sight s.now) (plain_want (unit_of u.now) block p n) }
    ensures over { IfFound result (IsMarkOf s.now) }
{
    let at = NodeRef {
        file: file_of(u, block),
        node: p.around,
    };
    match braces(u, s, block, at) {
        Found::Is(l) => plain_told(s, is_braces_at(u, block, n), p.slot, l),
        Found::Wait(item) => Found::Wait(item),
    }
}

fn item_want(u: &Subject, s: &State, block: usize, p: Place, n: u32) -> Found<Mark, Item>
    requires { IsScene u.now s.now }
    ensures is { told_by (said s.now) result ≡ tell (sight s.now) (item_want (unit_of u.now) block p n) }
    ensures over { IfFound result (IsMarkOf s.now) }
{
    if is_pair(kind_of(nodes_in(u, block), n)) {
        Found::Is(nothing_wanted(s))
    } else {
        plain_want(u, s, block, p, n)
    }
}

fn element_want(u: &Subject, s: &State, block: usize, p: Place, around: &Node) -> Found<Mark, Item>
    requires { IsScene u.now s.now }
    ensures is { told_by (said s.now) result ≡ tell (sight s.now) (element_want (unit_of u.now) block p around.now) }
    ensures over { IfFound result (IsMarkOf s.now) }
{
    match part_of(around, p.slot) {
        Some(n) => item_want(u, s, block, p, n),
        None => Found::Is(nothing_wanted(s)),
    }
}

/// A key, or an element with a key.
fn pair_wanted(
    u: &Subject,
    s: &State,
    block: usize,
    p: Place,
    around: &Node,
    i: usize,
    shape: Shape,
) -> Mark
    requires scene { IsScene u.now s.now }
    requires shape { IsShapeOf s.now shape }
    ensures is { said s.now result ≡ pair_wanted (unit_of u.now) block p around.now i (shape_in s.now shape) }
    ensures over { IsMarkOf s.now result }
{
    if p.slot == 0 {
        return key_wanted(s, shape);
    }
    let braces = second_braces(u, block, around);
    keyed_wanted(
        u,
        s,
        file_of(u, block),
        nodes_in(u, block),
        braces,
        i,
        part_of(around, 0),
        shape,
    )
}

fn pair_told(
    u: &Subject,
    s: &State,
    block: usize,
    p: Place,
    around: &Node,
    i: usize,
    l: Option<Literal>,
) -> Found<Mark, Item>
    requires scene { IsScene u.now s.now }
    requires literal { MayBeLiteralOf s.now l }
    ensures is { told_by (said s.now) result ≡ tell (sight s.now) (by_shape (pair_wanted (unit_of u.now) block p around.now i) (may_be_literal s.now l)) }
    ensures over { IfFound result (IsMarkOf s.now) }
{
    match l {
        Some(l) => Found::Is(pair_wanted(u, s, block, p, around, i, l.shape)),
        None => Found::Is(nothing_wanted(s)),
    }
}

#[tactic(auto, using(rule_words::proofs::BindLaws::says_bind, rule_words::proofs::BindLaws::waits_bind))]
fn pair_in(
    u: &Subject,
    s: &State,
    block: usize,
    p: Place,
    around: &Node,
    outer: Place,
) -> Found<Mark, Item>
    requires { IsScene u.now s.now }
    ensures is { told_by (said s.now) result ≡ tell (sight s.now) (pair_in (unit_of u.now) block p around.now outer) }
    ensures over { IfFound result (IsMarkOf s.now) }
{
    let at = NodeRef {
        file: file_of(u, block),
        node: outer.around,
    };
    match braces(u, s, block, at) {
        Found::Is(l) => pair_told(u, s, block, p, around, outer.slot, l),
        Found::Wait(item) => Found::Wait(item),
    }
}

fn pair_want(u: &Subject, s: &State, block: usize, p: Place, around: &Node) -> Found<Mark, Item>
    requires { IsScene u.now s.now }
    ensures is { told_by (said s.now) result ≡ tell (sight s.now) (pair_want (unit_of u.now) block p around.now) }
    ensures over { IfFound result (IsMarkOf s.now) }
{
    let pair = NodeRef {
        file: file_of(u, block),
        node: p.around,
    };
    match u.place_at(pair) {
        Some(outer) => pair_in(u, s, block, p, around, outer),
        None => Found::Is(nothing_wanted(s)),
    }
}

// ---- all

fn composite_want(s: &State, slot: usize) -> Mark
    ensures is { said s.now result ≡ composite_want slot }
    ensures over { IsMarkOf s.now result }
{
    if slot == 0 {
        type_wanted(s)
    } else {
        nothing_wanted(s)
    }
}

fn form_wants(
    u: &Subject,
    s: &State,
    block: usize,
    p: Place,
    around: &Node,
    form: Form,
) -> Found<Mark, Item>
    requires { IsScene u.now s.now }
    ensures is { told_by (said s.now) result ≡ tell (sight s.now) (form_wants (unit_of u.now) block p around.now form) }
    ensures over { IfFound result (IsMarkOf s.now) }
{
    match form {
        Form::Composite => Found::Is(composite_want(s, p.slot)),
        Form::Braces => element_want(u, s, block, p, around),
        Form::Pair => pair_want(u, s, block, p, around),
        Form::Dots => Found::Is(type_wanted(s)),
        Form::Other => Found::Is(nothing_wanted(s)),
    }
}

/// What the node around wants of what stands at a place in it, or the item for whose mark that waits.
pub fn want_literal(
    u: &Subject,
    s: &State,
    block: usize,
    p: Place,
    around: &Node,
) -> Found<Mark, Item>
    requires { IsScene u.now s.now }
    ensures is { told_by (said s.now) result ≡ tell (sight s.now) (literal_wants (unit_of u.now) block p around.now) }
    ensures over { IfFound result (IsMarkOf s.now) }
{
    let form = form_of(around.kind);
    form_wants(u, s, block, p, around, form)
}
