//! What the places in calls of built-in functions want.
ghost use Rattle.std.specs.Prelude.{◌≡◌, ◌&&◌, None, option_map};
ghost use Rattle.mark_walk.specs.Telling.{tell, Says};
ghost use Rattle.typed_tree.specs.Basics.{HasBasics};
ghost use Rattle.unit_read.specs.Subjects.{unit_of};
ghost use Rattle.std.specs.Option.{option_map_or};
ghost use Rattle.mark_walk.specs.Asks.{bind};
ghost use Rattle.rule_words.specs.Scenes.{sight, IsScene, told_by, IfFound, said, IsMarkOf, type_in, IsTypeOf, MayBeTypeOf};
ghost use Rattle.rule_words.specs.Wishes.{IsWishOf, before, wish_of};
ghost use Rattle.builtin_rules.specs.Musts.{is_byte};
ghost use Rattle.builtin_rules.specs.Types.{key_of};
ghost use Rattle.builtin_rules.specs.Wants.{any_wish, any_by, key_by, key_over, element_in, element_by, is_text, appended_wish, appended_to, spread_wish, spread_by, spread_own, spread_over, element_over, element_wants, taking_wants, builtin_wants};
ghost use Rattle.gv_base.specs.declared.constant.Kind.TheVariants as kind;
ghost use Rattle.type_model.specs.GoTypes.{BasicType};
ghost use Rattle.typed_tree.specs.declared.place.Want.TheVariants as demand;
ghost use Rattle.typed_marks.specs.Meanings.{Takes, Wishes};

use crate::lines::{Builtin, Taking, line_of, taken_at};
use crate::named::is_spread;
use crate::types::{is_byte, is_string, key_of, slice_of};
use crate::wishes::assigned_to;
use go_tree::Node;
use gv_base::Kind;
use rule_words::good::basic_type;
use rule_words::mark_under;
use rule_words::wishes::{before, fitting_default, nothing_wanted, operand};
use type_model::TypeId;
use type_questions::Found;
use typed_marks::{Item, Mark, State, Want};
use typed_tree::Want as Demand;
use unit_read::Subject;

// ---- any value

#[tactic(auto, unfolding(crate::specs::Wants::any_wish))]
fn any_wish(s: &State, own: Mark) -> Want
    requires basics { HasBasics s.now.table }
    requires own { IsMarkOf s.now own }
    ensures is { wish_of s.now result ≡ any_wish (said s.now own) }
    ensures within { IsWishOf s.now result }
{
    match own {
        Mark::Good(x) => fitting_default(s, x.of),
        Mark::Bad(_) => Want::Free,
        Mark::Outside(_) => Want::Free,
        Mark::Silent => Want::Free,
        Mark::Wants(_, _) => Want::Free,
        Mark::Declared(_) => Want::Free,
    }
}

#[tactic(auto, using(rule_words::proofs::BindLaws::says_bind, rule_words::proofs::BindLaws::waits_bind))]
fn any_wants(u: &Subject, s: &State, block: usize, around: &Node, slot: usize) -> Found<Mark, Item>
    requires scene { IsScene u.now s.now }
    ensures is { told_by (said s.now) result ≡ tell (sight s.now) (bind (before (unit_of u.now) block around.now slot) any_by) }
    ensures over { IfFound result (IsMarkOf s.now) }
{
    match before(u, s, block, around, slot) {
        Found::Is(own) => Found::Is(operand(any_wish(s, own))),
        Found::Wait(item) => Found::Wait(item),
    }
}

// ---- keys

fn key_in(s: &State, under: Option<TypeId>) -> Option<TypeId>
    requires basics { HasBasics s.now.table }
    requires under { MayBeTypeOf s.now under }
    ensures is { option_map (type_in s.now) result ≡ option_map_or key_of (option_map (type_in s.now) under) None }
    ensures within { MayBeTypeOf s.now result }
{
    match under {
        Some(under) => key_of(s, under),
        None => None,
    }
}

fn key_by(s: &State, under: Option<TypeId>) -> Mark
    requires basics { HasBasics s.now.table }
    requires under { MayBeTypeOf s.now under }
    ensures is { Says (said s.now result) ≡ tell (sight s.now) (key_by (option_map (type_in s.now) under)) }
    ensures over { IsMarkOf s.now result }
{
    let key = key_in(s, under);
    operand(assigned_to(s, key))
}

#[tactic(auto, using(rule_words::proofs::BindLaws::says_bind, rule_words::proofs::BindLaws::waits_bind))]
fn key_over(u: &Subject, s: &State, first: Mark) -> Found<Mark, Item>
    requires scene { IsScene u.now s.now }
    requires first { IsMarkOf s.now first }
    ensures is { told_by (said s.now) result ≡ tell (sight s.now) (key_over (unit_of u.now) (said s.now first)) }
    ensures over { IfFound result (IsMarkOf s.now) }
{
    match mark_under(u, s, first) {
        Found::Is(under) => Found::Is(key_by(s, under)),
        Found::Wait(item) => Found::Wait(item),
    }
}

#[tactic(auto, using(rule_words::proofs::BindLaws::says_bind, rule_words::proofs::BindLaws::waits_bind))]
fn key_wants(u: &Subject, s: &State, block: usize, around: &Node) -> Found<Mark, Item>
    requires scene { IsScene u.now s.now }
    ensures is { told_by (said s.now) result ≡ tell (sight s.now) (bind (before (unit_of u.now) block around.now 1) (key_over (unit_of u.now))) }
    ensures over { IfFound result (IsMarkOf s.now) }
{
    match before(u, s, block, around, 1) {
        Found::Is(first) => key_over(u, s, first),
        Found::Wait(item) => Found::Wait(item),
    }
}

// ---- elements

fn element_in(s: &State, under: Option<TypeId>) -> Option<TypeId>
    requires basics { HasBasics s.now.table }
    requires under { MayBeTypeOf s.now under }
    ensures is { option_map (type_in s.now) result ≡ element_in (option_map (type_in s.now) under) }
    ensures within { MayBeTypeOf s.now result }
{
    match under {
        Some(under) => slice_of(s, under),
        None => None,
    }
}

fn element_by(s: &State, under: Option<TypeId>) -> Mark
    requires basics { HasBasics s.now.table }
    requires under { MayBeTypeOf s.now under }
    ensures is { Says (said s.now result) ≡ tell (sight s.now) (element_by (option_map (type_in s.now) under)) }
    ensures over { IsMarkOf s.now result }
{
    let element = element_in(s, under);
    operand(assigned_to(s, element))
}

fn is_text(s: &State, own: Option<TypeId>) -> bool
    requires basics { HasBasics s.now.table }
    requires own { MayBeTypeOf s.now own }
    ensures { result ≡ is_text (option_map (type_in s.now) own) }
{
    match own {
        Some(own) => is_string(s, own),
        None => false,
    }
}

fn is_text_for(s: &State, own: Option<TypeId>, element: TypeId) -> bool
    requires basics { HasBasics s.now.table }
    requires own { MayBeTypeOf s.now own }
    requires element { IsTypeOf s.now element }
    ensures { result ≡ (is_byte (type_in s.now element) && is_text (option_map (type_in s.now) own)) }
{
    is_byte(s, element) && is_text(s, own)
}

fn appended_wish(s: &State, own: Option<TypeId>, slice: TypeId, element: TypeId) -> Want
    requires basics { HasBasics s.now.table }
    requires own { MayBeTypeOf s.now own }
    requires slice { IsTypeOf s.now slice }
    requires element { IsTypeOf s.now element }
    ensures is { wish_of s.now result ≡ appended_wish (option_map (type_in s.now) own) (type_in s.now slice) (type_in s.now element) }
    ensures within { IsWishOf s.now result }
{
    if is_text_for(s, own, element) {
        Want::Free
    } else {
        Want::Assigned(slice)
    }
}

fn appended_to(s: &State, own: Option<TypeId>, slice: TypeId) -> Want
    requires basics { HasBasics s.now.table }
    requires own { MayBeTypeOf s.now own }
    requires slice { IsTypeOf s.now slice }
    ensures is { wish_of s.now result ≡ appended_to (option_map (type_in s.now) own) (type_in s.now slice) }
    ensures within { IsWishOf s.now result }
{
    match slice_of(s, slice) {
        Some(element) => appended_wish(s, own, slice, element),
        None => Want::Free,
    }
}

#[tactic(auto, unfolding(crate::specs::Wants::spread_wish))]
fn spread_wish(s: &State, under: Option<TypeId>, own: Option<TypeId>) -> Want
    requires basics { HasBasics s.now.table }
    requires under { MayBeTypeOf s.now under }
    requires own { MayBeTypeOf s.now own }
    ensures is { wish_of s.now result ≡ spread_wish (option_map (type_in s.now) under) (option_map (type_in s.now) own) }
    ensures within { IsWishOf s.now result }
{
    match under {
        Some(slice) => appended_to(s, own, slice),
        None => Want::Free,
    }
}

fn spread_by(s: &State, under: Option<TypeId>, own: Option<TypeId>) -> Mark
    requires basics { HasBasics s.now.table }
    requires under { MayBeTypeOf s.now under }
    requires own { MayBeTypeOf s.now own }
    ensures is { Says (said s.now result) ≡ tell (sight s.now) (spread_by (option_map (type_in s.now) under) (option_map (type_in s.now) own)) }
    ensures over { IsMarkOf s.now result }
{
    operand(spread_wish(s, under, own))
}

#[tactic(auto, using(rule_words::proofs::BindLaws::says_bind, rule_words::proofs::BindLaws::waits_bind))]
fn spread_own(u: &Subject, s: &State, under: Option<TypeId>, own: Mark) -> Found<Mark, Item>
    requires scene { IsScene u.now s.now }
    requires under { MayBeTypeOf s.now under }
    requires own { IsMarkOf s.now own }
    ensures is { told_by (said s.now) result ≡ tell (sight s.now) (spread_own (unit_of u.now) (option_map (type_in s.now) under) (said s.now own)) }
    ensures over { IfFound result (IsMarkOf s.now) }
{
    match mark_under(u, s, own) {
        Found::Is(own) => Found::Is(spread_by(s, under, own)),
        Found::Wait(item) => Found::Wait(item),
    }
}

#[tactic(auto, using(rule_words::proofs::BindLaws::says_bind, rule_words::proofs::BindLaws::waits_bind))]
fn spread_over(
    u: &Subject,
    s: &State,
    block: usize,
    around: &Node,
    slot: usize,
    under: Option<TypeId>,
) -> Found<Mark, Item>
    requires scene { IsScene u.now s.now }
    requires under { MayBeTypeOf s.now under }
    ensures is { told_by (said s.now) result ≡ tell (sight s.now) (spread_over (unit_of u.now) block around.now slot (option_map (type_in s.now) under)) }
    ensures over { IfFound result (IsMarkOf s.now) }
{
    match before(u, s, block, around, slot) {
        Found::Is(own) => spread_own(u, s, under, own),
        Found::Wait(item) => Found::Wait(item),
    }
}

#[tactic(auto, unfolding(crate::specs::Wants::element_over))]
fn element_over(
    u: &Subject,
    s: &State,
    block: usize,
    around: &Node,
    slot: usize,
    under: Option<TypeId>,
) -> Found<Mark, Item>
    requires scene { IsScene u.now s.now }
    requires under { MayBeTypeOf s.now under }
    ensures is { told_by (said s.now) result ≡ tell (sight s.now) (element_over (unit_of u.now) block around.now slot (option_map (type_in s.now) under)) }
    ensures over { IfFound result (IsMarkOf s.now) }
{
    if is_spread(around.kind) {
        spread_over(u, s, block, around, slot, under)
    } else {
        Found::Is(element_by(s, under))
    }
}

#[tactic(auto, using(rule_words::proofs::BindLaws::says_bind, rule_words::proofs::BindLaws::waits_bind))]
fn element_wants(
    u: &Subject,
    s: &State,
    block: usize,
    around: &Node,
    slot: usize,
    first: Mark,
) -> Found<Mark, Item>
    requires scene { IsScene u.now s.now }
    requires first { IsMarkOf s.now first }
    ensures is { told_by (said s.now) result ≡ tell (sight s.now) (element_wants (unit_of u.now) block around.now slot (said s.now first)) }
    ensures over { IfFound result (IsMarkOf s.now) }
{
    match mark_under(u, s, first) {
        Found::Is(under) => element_over(u, s, block, around, slot, under),
        Found::Wait(item) => Found::Wait(item),
    }
}

#[tactic(auto, using(rule_words::proofs::BindLaws::says_bind, rule_words::proofs::BindLaws::waits_bind))]
fn first_element(
    u: &Subject,
    s: &State,
    block: usize,
    around: &Node,
    slot: usize,
) -> Found<Mark, Item>
    requires scene { IsScene u.now s.now }
    ensures is { told_by (said s.now) result ≡ tell (sight s.now) (bind (before (unit_of u.now) block around.now 1) (element_wants (unit_of u.now) block around.now slot)) }
    ensures over { IfFound result (IsMarkOf s.now) }
{
    match before(u, s, block, around, 1) {
        Found::Is(first) => element_wants(u, s, block, around, slot, first),
        Found::Wait(item) => Found::Wait(item),
    }
}

// ---- all

fn size_wants(s: &State) -> Mark
    requires basics { HasBasics s.now.table }
    ensures is { said s.now result ≡ Wishes demand.Count (Takes (BasicType kind.Int)) }
    ensures over { IsMarkOf s.now result }
{
    Mark::Wants(Demand::Count, Want::Takes(basic_type(s, Kind::Int)))
}

#[tactic(auto, unfolding(crate::specs::Wants::taking_wants))]
fn taking_wants(
    u: &Subject,
    s: &State,
    block: usize,
    around: &Node,
    slot: usize,
    takes: Taking,
) -> Found<Mark, Item>
    requires scene { IsScene u.now s.now }
    ensures is { told_by (said s.now) result ≡ tell (sight s.now) (taking_wants (unit_of u.now) block around.now slot takes) }
    ensures over { IfFound result (IsMarkOf s.now) }
{
    match takes {
        Taking::Value => Found::Is(operand(Want::Free)),
        Taking::Type => Found::Is(Mark::Wants(Demand::Type, Want::Free)),
        Taking::Size => Found::Is(size_wants(s)),
        Taking::Any => any_wants(u, s, block, around, slot),
        Taking::Key => key_wants(u, s, block, around),
        Taking::Element => first_element(u, s, block, around, slot),
    }
}

/// What the place of an argument of a built-in function wants.
#[tactic(auto, unfolding(crate::specs::Wants::builtin_wants))]
pub fn builtin_wants(
    u: &Subject,
    s: &State,
    block: usize,
    around: &Node,
    slot: usize,
    b: Option<Builtin>,
) -> Found<Mark, Item>
    requires scene { IsScene u.now s.now }
    ensures is { told_by (said s.now) result ≡ tell (sight s.now) (builtin_wants (unit_of u.now) block around.now slot b) }
    ensures over { IfFound result (IsMarkOf s.now) }
{
    match b {
        Some(b) => taking_wants(u, s, block, around, slot, taken_at(line_of(b), slot)),
        None => Found::Is(nothing_wanted()),
    }
}
