//! Which types the places of operands want (Go 1.17, "Operators", "Constant expressions").
ghost use Rattle.std.specs.Prelude.{◌≡◌, ◌&&◌, option_map};
ghost use Rattle.typed_tree.specs.Basics.{HasBasics};
ghost use Rattle.rule_words.specs.Scenes.{said, IsMarkOf, type_in, IsTypeOf, MayBeTypeOf};
ghost use Rattle.rule_words.specs.Good.{AreFactsOf, known_of};
ghost use Rattle.rule_words.specs.Values.{has_value};
ghost use Rattle.rule_words.specs.Wishes.{IsWishOf, wish_of};
ghost use Rattle.op_rules.specs.Wishes.{unchecked, checked, unchecked_type, default_type, shifted_by, shifted_over, shifted_wish, mixed, one_is_shifted, untyped_wish, typed_wish, beside_wish, by_beside, handed, operand_wish};

use crate::operators::compares;
use crate::types::{are_alike, common};
use const_eval::Operator;
use rule_words::types::{is_untyped, takes_default};
use rule_words::values::{has_value, is_shifted};
use rule_words::wishes::{default_of, fitting_default};
use type_model::TypeId;
use typed_marks::{Facts, Mark, State, Want};

/// What the whole takes, or the default of this type; nothing is tested here.
#[tactic(auto, unfolding(crate::specs::Wishes::unchecked))]
fn unchecked(s: &State, whole: Want, of: TypeId) -> Want
    requires basics { HasBasics s.now.table }
    requires whole { IsWishOf s.now whole }
    requires of { IsTypeOf s.now of }
    ensures is { wish_of s.now result ≡ unchecked (wish_of s.now whole) (type_in s.now of) }
    ensures within { IsWishOf s.now result }
{
    match whole {
        Want::Free => default_of(s, of),
        Want::Takes(to) => Want::Takes(to),
        Want::Fits(to) => Want::Takes(to),
        Want::Assigned(to) => Want::Takes(to),
    }
}

/// What the whole takes, or the default of this type; a constant is representable in it.
#[tactic(auto, unfolding(crate::specs::Wishes::checked))]
fn checked(s: &State, whole: Want, of: TypeId) -> Want
    requires basics { HasBasics s.now.table }
    requires whole { IsWishOf s.now whole }
    requires of { IsTypeOf s.now of }
    ensures is { wish_of s.now result ≡ checked (wish_of s.now whole) (type_in s.now of) }
    ensures within { IsWishOf s.now result }
{
    match whole {
        Want::Free => fitting_default(s, of),
        Want::Takes(to) => Want::Fits(to),
        Want::Fits(to) => Want::Fits(to),
        Want::Assigned(to) => Want::Fits(to),
    }
}

/// What the whole takes, or the default of the type of this mark.
#[tactic(auto, unfolding(crate::specs::Wishes::unchecked_type))]
pub fn unchecked_type(s: &State, whole: Want, own: Mark) -> Want
    requires basics { HasBasics s.now.table }
    requires whole { IsWishOf s.now whole }
    requires own { IsMarkOf s.now own }
    ensures is { wish_of s.now result ≡ unchecked_type (wish_of s.now whole) (said s.now own) }
    ensures within { IsWishOf s.now result }
{
    match own {
        Mark::Good(x) => unchecked(s, whole, x.of),
        Mark::Bad(_) => Want::Free,
        Mark::Outside(_) => Want::Free,
        Mark::Silent => Want::Free,
        Mark::Wants(_, _) => Want::Free,
        Mark::Declared(_) => Want::Free,
    }
}

/// The default of the type of this mark.
#[tactic(auto, unfolding(crate::specs::Wishes::default_type))]
pub fn default_type(s: &State, own: Mark) -> Want
    requires basics { HasBasics s.now.table }
    requires own { IsMarkOf s.now own }
    ensures is { wish_of s.now result ≡ default_type (said s.now own) }
    ensures within { IsWishOf s.now result }
{
    match own {
        Mark::Good(x) => default_of(s, x.of),
        Mark::Bad(_) => Want::Free,
        Mark::Outside(_) => Want::Free,
        Mark::Silent => Want::Free,
        Mark::Wants(_, _) => Want::Free,
        Mark::Declared(_) => Want::Free,
    }
}

// ---- shifts

fn have_values(s: &State, x: Facts, y: Facts) -> bool
    ensures { result ≡ (has_value (known_of s.now x).value && has_value (known_of s.now y).value) }
{
    has_value(s, x.value) && has_value(s, y.value)
}

#[tactic(auto, unfolding(crate::specs::Wishes::shifted_by))]
fn shifted_by(s: &State, whole: Want, x: Facts, count: Facts) -> Want
    requires basics { HasBasics s.now.table }
    requires whole { IsWishOf s.now whole }
    requires first { AreFactsOf s.now x }
    requires second { AreFactsOf s.now count }
    ensures is { wish_of s.now result ≡ shifted_by (wish_of s.now whole) (known_of s.now x) (known_of s.now count) }
    ensures within { IsWishOf s.now result }
{
    if have_values(s, x, count) {
        default_of(s, x.of)
    } else {
        checked(s, whole, x.of)
    }
}

#[tactic(auto, unfolding(crate::specs::Wishes::shifted_over))]
fn shifted_over(s: &State, whole: Want, count: Mark, x: Facts) -> Want
    requires basics { HasBasics s.now.table }
    requires whole { IsWishOf s.now whole }
    requires count { IsMarkOf s.now count }
    requires own { AreFactsOf s.now x }
    ensures is { wish_of s.now result ≡ shifted_over (wish_of s.now whole) (said s.now count) (known_of s.now x) }
    ensures within { IsWishOf s.now result }
{
    match count {
        Mark::Good(c) => shifted_by(s, whole, x, c),
        Mark::Bad(_) => default_of(s, x.of),
        Mark::Outside(_) => default_of(s, x.of),
        Mark::Silent => default_of(s, x.of),
        Mark::Wants(_, _) => default_of(s, x.of),
        Mark::Declared(_) => default_of(s, x.of),
    }
}

/// What the left operand of a shift takes.
#[tactic(auto, unfolding(crate::specs::Wishes::shifted_wish))]
pub fn shifted_wish(s: &State, own: Mark, count: Mark, whole: Want) -> Want
    requires basics { HasBasics s.now.table }
    requires own { IsMarkOf s.now own }
    requires count { IsMarkOf s.now count }
    requires whole { IsWishOf s.now whole }
    ensures is { wish_of s.now result ≡ shifted_wish (said s.now own) (said s.now count) (wish_of s.now whole) }
    ensures within { IsWishOf s.now result }
{
    match own {
        Mark::Good(x) => shifted_over(s, whole, count, x),
        Mark::Bad(_) => Want::Free,
        Mark::Outside(_) => Want::Free,
        Mark::Silent => Want::Free,
        Mark::Wants(_, _) => Want::Free,
        Mark::Declared(_) => Want::Free,
    }
}

// ---- other binary operators

#[tactic(auto, unfolding(crate::specs::Wishes::one_is_shifted))]
fn one_is_shifted(s: &State, x: Facts, y: Facts) -> bool
    requires basics { HasBasics s.now.table }
    requires first { AreFactsOf s.now x }
    requires second { AreFactsOf s.now y }
    ensures { result ≡ one_is_shifted (known_of s.now x) (known_of s.now y) }
{
    is_shifted(s, x) || is_shifted(s, y)
}

/// The type of two untyped operands; where they aren't of one class, the first's own.
#[tactic(auto, unfolding(crate::specs::Wishes::mixed))]
fn mixed(s: &State, a: TypeId, b: TypeId) -> TypeId
    requires basics { HasBasics s.now.table }
    requires first { IsTypeOf s.now a }
    requires second { IsTypeOf s.now b }
    ensures is { type_in s.now result ≡ mixed (type_in s.now a) (type_in s.now b) }
    ensures within { IsTypeOf s.now result }
{
    if are_alike(s, a, b) {
        common(s, a, b)
    } else {
        a
    }
}

#[tactic(auto, unfolding(crate::specs::Wishes::untyped_wish))]
fn untyped_wish(s: &State, whole: Want, x: Facts, y: Facts) -> Want
    requires basics { HasBasics s.now.table }
    requires whole { IsWishOf s.now whole }
    requires first { AreFactsOf s.now x }
    requires second { AreFactsOf s.now y }
    ensures is { wish_of s.now result ≡ untyped_wish (wish_of s.now whole) (known_of s.now x) (known_of s.now y) }
    ensures within { IsWishOf s.now result }
{
    let of = mixed(s, x.of, y.of);
    if one_is_shifted(s, x, y) {
        checked(s, whole, of)
    } else {
        unchecked(s, whole, of)
    }
}

/// What an untyped operand takes beside one of this type, with this underlying type.
#[tactic(auto, unfolding(crate::specs::Wishes::typed_wish))]
fn typed_wish(s: &State, of: TypeId, under: Option<TypeId>) -> Want
    requires basics { HasBasics s.now.table }
    requires of { IsTypeOf s.now of }
    requires under { MayBeTypeOf s.now under }
    ensures is { wish_of s.now result ≡ typed_wish (type_in s.now of) (option_map (type_in s.now) under) }
    ensures within { IsWishOf s.now result }
{
    if takes_default(s, under) {
        Want::Fits(of)
    } else {
        Want::Takes(of)
    }
}

#[tactic(auto, unfolding(crate::specs::Wishes::beside_wish))]
fn beside_wish(s: &State, whole: Want, y: Facts, under: Option<TypeId>, x: Facts) -> Want
    requires basics { HasBasics s.now.table }
    requires whole { IsWishOf s.now whole }
    requires beside { AreFactsOf s.now y }
    requires under { MayBeTypeOf s.now under }
    requires own { AreFactsOf s.now x }
    ensures is { wish_of s.now result ≡ beside_wish (wish_of s.now whole) (known_of s.now y) (option_map (type_in s.now) under) (known_of s.now x) }
    ensures within { IsWishOf s.now result }
{
    if is_untyped(s, y.of) {
        untyped_wish(s, whole, x, y)
    } else {
        typed_wish(s, y.of, under)
    }
}

#[tactic(auto, unfolding(crate::specs::Wishes::by_beside))]
fn by_beside(s: &State, whole: Want, beside: Mark, under: Option<TypeId>, x: Facts) -> Want
    requires basics { HasBasics s.now.table }
    requires whole { IsWishOf s.now whole }
    requires beside { IsMarkOf s.now beside }
    requires under { MayBeTypeOf s.now under }
    requires own { AreFactsOf s.now x }
    ensures is { wish_of s.now result ≡ by_beside (wish_of s.now whole) (said s.now beside) (option_map (type_in s.now) under) (known_of s.now x) }
    ensures within { IsWishOf s.now result }
{
    match beside {
        Mark::Good(y) => beside_wish(s, whole, y, under, x),
        Mark::Bad(_) => default_of(s, x.of),
        Mark::Outside(_) => default_of(s, x.of),
        Mark::Silent => default_of(s, x.of),
        Mark::Wants(_, _) => default_of(s, x.of),
        Mark::Declared(_) => default_of(s, x.of),
    }
}

/// The operands of a comparison take nothing of the whole.
#[tactic(auto, unfolding(crate::specs::Wishes::handed))]
fn handed(s: &State, op: Operator, whole: Want) -> Want
    requires whole { IsWishOf s.now whole }
    ensures is { wish_of s.now result ≡ handed op (wish_of s.now whole) }
    ensures within { IsWishOf s.now result }
{
    if compares(op) { Want::Free } else { whole }
}

/// What an operand takes, with another beside it, which has this underlying type.
#[tactic(auto, unfolding(crate::specs::Wishes::operand_wish))]
pub fn operand_wish(
    s: &State,
    op: Operator,
    own: Mark,
    beside: Mark,
    under: Option<TypeId>,
    whole: Want,
) -> Want
    requires basics { HasBasics s.now.table }
    requires own { IsMarkOf s.now own }
    requires beside { IsMarkOf s.now beside }
    requires under { MayBeTypeOf s.now under }
    requires whole { IsWishOf s.now whole }
    ensures is { wish_of s.now result ≡ operand_wish op (said s.now own) (said s.now beside) (option_map (type_in s.now) under) (wish_of s.now whole) }
    ensures within { IsWishOf s.now result }
{
    match own {
        Mark::Good(x) => by_beside(s, handed(s, op, whole), beside, under, x),
        Mark::Bad(_) => Want::Free,
        Mark::Outside(_) => Want::Free,
        Mark::Silent => Want::Free,
        Mark::Wants(_, _) => Want::Free,
        Mark::Declared(_) => Want::Free,
    }
}
