//! What the places in primary expressions want.
ghost use Rattle.std.specs.Prelude.{◌≡◌, option_map};
ghost use Rattle.mark_walk.specs.Telling.{tell, Says};
ghost use Rattle.typed_marks.specs.Meanings.{Wishes};
ghost use Rattle.typed_tree.specs.Basics.{HasBasics};
ghost use Rattle.unit_read.specs.Subjects.{unit_of};
ghost use Rattle.rule_words.specs.Scenes.{sight, IsScene, told_by, IfFound, said, IsMarkOf, type_in, MayBeTypeOf};
ghost use Rattle.rule_words.specs.Words.{wanted_in};
ghost use Rattle.primary_rules.specs.InCode.{shape_in, IsShapeOf};
ghost use Rattle.primary_rules.specs.Wants.{int_wish, shape_wants, index_wanted, index_beside, before_part, key_wants, index_wants, slice_wants, assert_wants, wants_type, stands_for_type, star_demand, star_beside, star_own, star_asked, star_wanted, star_wants, paren_asked, paren_wanted, paren_wants, form_wants, primary_wants};

use crate::forms::{Form, form_of};
use crate::shape::{Shape, shape_of};
use crate::unary_wants::unary_wants;
use go_tree::Node;
use gv_base::Kind;
use op_rules::want_op;
use package_objects::part_of;
use rule_words::good::basic_type;
use rule_words::modes::is_type;
use rule_words::{look, mark_under, wanted_by};
use type_model::TypeId;
use type_questions::Found;
use typed_marks::{Item, Mark, Stage, State, Want};
use typed_tree::Want as Demand;
use unit_read::{Place, Subject};

// ---- indexes

fn int_wanted(s: &State, demand: Demand) -> Mark
    requires { HasBasics s.now.table }
    ensures is { said s.now result ≡ Wishes demand int_wish }
    ensures over { IsMarkOf s.now result }
{
    Mark::Wants(demand, Want::Takes(basic_type(s, Kind::Int)))
}

fn shape_wants(s: &State, shape: Shape) -> Mark
    requires basics { HasBasics s.now.table }
    requires shape { IsShapeOf s.now shape }
    ensures is { said s.now result ≡ shape_wants (shape_in s.now shape) }
    ensures over { IsMarkOf s.now result }
{
    match shape {
        Shape::Maps(key, _) => Mark::Wants(Demand::Operand, Want::Assigned(key)),
        Shape::Texts => int_wanted(s, Demand::Count),
        Shape::Slices(_) => int_wanted(s, Demand::Count),
        Shape::Arrays(_, _) => int_wanted(s, Demand::Count),
        Shape::Pointers(_) => int_wanted(s, Demand::Count),
        Shape::Channels(_, _) => int_wanted(s, Demand::Count),
        Shape::Interfaces => int_wanted(s, Demand::Count),
        Shape::Others => int_wanted(s, Demand::Count),
    }
}

fn index_wanted(s: &State, under: Option<TypeId>) -> Mark
    requires basics { HasBasics s.now.table }
    requires under { MayBeTypeOf s.now under }
    ensures is { Says (said s.now result) ≡ tell (sight s.now) (index_wanted (option_map (type_in s.now) under)) }
    ensures over { IsMarkOf s.now result }
{
    match under {
        Some(under) => shape_wants(s, shape_of(s, under)),
        None => int_wanted(s, Demand::Operand),
    }
}

fn index_beside(u: &Subject, s: &State, own: Mark) -> Found<Mark, Item>
    requires scene { IsScene u.now s.now }
    requires own { IsMarkOf s.now own }
    ensures is { told_by (said s.now) result ≡ tell (sight s.now) (index_beside (unit_of u.now) (said s.now own)) }
    ensures over { IfFound result (IsMarkOf s.now) }
{
    match mark_under(u, s, own) {
        Found::Is(under) => Found::Is(index_wanted(s, under)),
        Found::Wait(item) => Found::Wait(item),
    }
}

/// A part before anything is wanted of it.
fn before_part(u: &Subject, s: &State, block: usize, part: Option<u32>) -> Found<Mark, Item>
    requires scene { IsScene u.now s.now }
    ensures is { told_by (said s.now) result ≡ tell (sight s.now) (before_part (unit_of u.now) block part) }
    ensures over { IfFound result (IsMarkOf s.now) }
{
    match part {
        Some(n) => look(u, s, Stage::Before, block, n),
        None => Found::Is(Mark::Silent),
    }
}

fn key_wants(u: &Subject, s: &State, block: usize, around: &Node) -> Found<Mark, Item>
    requires scene { IsScene u.now s.now }
    ensures is { told_by (said s.now) result ≡ tell (sight s.now) (key_wants (unit_of u.now) block around.now) }
    ensures over { IfFound result (IsMarkOf s.now) }
{
    match before_part(u, s, block, part_of(around, 0)) {
        Found::Is(own) => index_beside(u, s, own),
        Found::Wait(item) => Found::Wait(item),
    }
}

/// Nothing but this is wanted.
pub fn wants(demand: Demand) -> Found<Mark, Item>
    ensures { result ≡ Found.Is (Mark.Wants demand Want.Free) }
{
    Found::Is(Mark::Wants(demand, Want::Free))
}

#[tactic(auto, unfolding(crate::specs::Wants::index_wants))]
fn index_wants(
    u: &Subject,
    s: &State,
    block: usize,
    slot: usize,
    around: &Node,
) -> Found<Mark, Item>
    requires scene { IsScene u.now s.now }
    ensures is { told_by (said s.now) result ≡ tell (sight s.now) (index_wants (unit_of u.now) block slot around.now) }
    ensures over { IfFound result (IsMarkOf s.now) }
{
    if slot == 0 {
        wants(Demand::Operand)
    } else {
        key_wants(u, s, block, around)
    }
}

fn slice_wants(s: &State, slot: usize) -> Found<Mark, Item>
    requires { HasBasics s.now.table }
    ensures is { told_by (said s.now) result ≡ tell (sight s.now) (slice_wants slot) }
    ensures over { IfFound result (IsMarkOf s.now) }
{
    if slot == 0 {
        wants(Demand::Operand)
    } else {
        Found::Is(int_wanted(s, Demand::Count))
    }
}

fn assert_wants(s: &State, slot: usize) -> Found<Mark, Item>
    ensures is { told_by (said s.now) result ≡ tell (sight s.now) (assert_wants slot) }
    ensures over { IfFound result (IsMarkOf s.now) }
{
    let _ = s;
    if slot == 0 {
        wants(Demand::Operand)
    } else {
        wants(Demand::Type)
    }
}

// ---- `*`

fn wants_type(demand: Demand) -> bool
    ensures { result ≡ wants_type demand }
{
    match demand {
        Demand::Type => true,
        Demand::Case => true,
        Demand::Nothing => false,
        Demand::Inside => false,
        Demand::Owner => false,
        Demand::Operand => false,
        Demand::Count => false,
        Demand::Constant => false,
    }
}

fn stands_for_type(s: &State, own: Mark) -> bool
    ensures { result ≡ stands_for_type (said s.now own) }
{
    let _ = s;
    match own {
        Mark::Good(x) => is_type(x.mode),
        Mark::Bad(_) => false,
        Mark::Outside(_) => false,
        Mark::Silent => false,
        Mark::Wants(_, _) => false,
        Mark::Declared(_) => false,
    }
}

fn star_demand(s: &State, own: Mark) -> Demand
    ensures { result ≡ star_demand (said s.now own) }
{
    if stands_for_type(s, own) {
        Demand::Inside
    } else {
        Demand::Operand
    }
}

fn star_beside(s: &State, own: Mark) -> Mark
    ensures is { Says (said s.now result) ≡ tell (sight s.now) (star_beside (said s.now own)) }
    ensures over { IsMarkOf s.now result }
{
    Mark::Wants(star_demand(s, own), Want::Free)
}

fn star_own(u: &Subject, s: &State, block: usize, around: &Node) -> Found<Mark, Item>
    requires scene { IsScene u.now s.now }
    ensures is { told_by (said s.now) result ≡ tell (sight s.now) (star_own (unit_of u.now) block around.now) }
    ensures over { IfFound result (IsMarkOf s.now) }
{
    match before_part(u, s, block, part_of(around, 0)) {
        Found::Is(own) => Found::Is(star_beside(s, own)),
        Found::Wait(item) => Found::Wait(item),
    }
}

fn star_asked(
    u: &Subject,
    s: &State,
    block: usize,
    around: &Node,
    whole: Demand,
) -> Found<Mark, Item>
    requires scene { IsScene u.now s.now }
    ensures is { told_by (said s.now) result ≡ tell (sight s.now) (star_asked (unit_of u.now) block around.now whole) }
    ensures over { IfFound result (IsMarkOf s.now) }
{
    if wants_type(whole) {
        wants(Demand::Type)
    } else {
        star_own(u, s, block, around)
    }
}

fn star_wanted(u: &Subject, s: &State, block: usize, around: &Node, m: Mark) -> Found<Mark, Item>
    requires scene { IsScene u.now s.now }
    requires mark { IsMarkOf s.now m }
    ensures is { told_by (said s.now) result ≡ tell (sight s.now) (star_wanted (unit_of u.now) block around.now (said s.now m)) }
    ensures over { IfFound result (IsMarkOf s.now) }
{
    let w = wanted_by(s, m);
    star_asked(u, s, block, around, w.demand)
}

fn star_wants(u: &Subject, s: &State, block: usize, whole: u32, around: &Node) -> Found<Mark, Item>
    requires scene { IsScene u.now s.now }
    ensures is { told_by (said s.now) result ≡ tell (sight s.now) (star_wants (unit_of u.now) block whole around.now) }
    ensures over { IfFound result (IsMarkOf s.now) }
{
    match look(u, s, Stage::Wanted, block, whole) {
        Found::Is(m) => star_wanted(u, s, block, around, m),
        Found::Wait(item) => Found::Wait(item),
    }
}

// ---- parentheses

fn paren_asked(
    u: &Subject,
    s: &State,
    block: usize,
    p: Place,
    around: &Node,
    whole: Demand,
) -> Found<Mark, Item>
    requires scene { IsScene u.now s.now }
    ensures is { told_by (said s.now) result ≡ tell (sight s.now) (paren_asked (unit_of u.now) block p around.now whole) }
    ensures over { IfFound result (IsMarkOf s.now) }
{
    if wants_type(whole) {
        wants(whole)
    } else {
        want_op(u, s, block, p, around)
    }
}

fn paren_wanted(
    u: &Subject,
    s: &State,
    block: usize,
    p: Place,
    around: &Node,
    m: Mark,
) -> Found<Mark, Item>
    requires scene { IsScene u.now s.now }
    requires mark { IsMarkOf s.now m }
    ensures is { told_by (said s.now) result ≡ tell (sight s.now) (paren_wanted (unit_of u.now) block p around.now (said s.now m)) }
    ensures over { IfFound result (IsMarkOf s.now) }
{
    let w = wanted_by(s, m);
    paren_asked(u, s, block, p, around, w.demand)
}

fn paren_wants(u: &Subject, s: &State, block: usize, p: Place, around: &Node) -> Found<Mark, Item>
    requires scene { IsScene u.now s.now }
    ensures is { told_by (said s.now) result ≡ tell (sight s.now) (paren_wants (unit_of u.now) block p around.now) }
    ensures over { IfFound result (IsMarkOf s.now) }
{
    match look(u, s, Stage::Wanted, block, p.around) {
        Found::Is(m) => paren_wanted(u, s, block, p, around, m),
        Found::Wait(item) => Found::Wait(item),
    }
}

// ---- forms

#[tactic(auto, unfolding(crate::specs::Wants::form_wants))]
fn form_wants(
    u: &Subject,
    s: &State,
    block: usize,
    p: Place,
    around: &Node,
    form: Form,
) -> Found<Mark, Item>
    requires scene { IsScene u.now s.now }
    ensures is { told_by (said s.now) result ≡ tell (sight s.now) (form_wants (unit_of u.now) block p around.now form) }
    ensures over { IfFound result (IsMarkOf s.now) }
{
    match form {
        Form::Selector => wants(Demand::Owner),
        Form::Index => index_wants(u, s, block, p.slot, around),
        Form::Slice(_) => slice_wants(s, p.slot),
        Form::Assert => assert_wants(s, p.slot),
        Form::Star => star_wants(u, s, block, p.around, around),
        Form::Unary => unary_wants(u, s, block, p, around),
        Form::Paren => paren_wants(u, s, block, p, around),
        Form::Other => wants(Demand::Nothing),
    }
}

/// What the place of a part wants, by the form of the node around it.
pub fn want_primary(
    u: &Subject,
    s: &State,
    block: usize,
    p: Place,
    around: &Node,
) -> Found<Mark, Item>
    requires scene { IsScene u.now s.now }
    ensures is { told_by (said s.now) result ≡ tell (sight s.now) (primary_wants (unit_of u.now) block p around.now) }
    ensures over { IfFound result (IsMarkOf s.now) }
{
    form_wants(u, s, block, p, around, form_of(around.kind))
}
