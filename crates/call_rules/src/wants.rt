//! What the places in a call want.
ghost use Rattle.std.specs.Prelude.{◌≡◌, option_map};
ghost use Rattle.mark_walk.specs.Telling.{tell, Says};
ghost use Rattle.typed_tree.specs.Basics.{HasBasics};
ghost use Rattle.unit_read.specs.Subjects.{unit_of};
ghost use Rattle.rule_words.specs.Scenes.{sight, IsScene, told_by, IfFound, said, IsMarkOf, type_in, IsTypeOf, MayBeTypeOf};
ghost use Rattle.rule_words.specs.Good.{AreFactsOf, known_of};
ghost use Rattle.rule_words.specs.Wishes.{IsWishOf, wish_of};
ghost use Rattle.builtin_rules.specs.InCode.{signature_by, IsSignatureOf};
ghost use Rattle.call_rules.specs.Wants.{param_wants, argument_wants, argument_by, constant_wish, value_wish, converted_wish, converted_in, converted_over, conversion_wants, function_wants, callee_wants, called_wants, slot_wants, call_wants};

use crate::callee::{Callee, callee_of};
use crate::given::param_at;
use builtin_rules::{assigned_to, builtin_in, builtin_wants, is_spread, signature_in};
use go_tree::Node;
use rule_words::types::takes_default;
use rule_words::values::value_at;
use rule_words::wishes::{before, default_of, fitting_default, nothing_wanted, operand};
use rule_words::{file_of, mark_under, under_of};
use type_model::{Signature, TypeId};
use type_questions::Found;
use typed_marks::{Facts, Item, Mark, State, Want};
use unit_read::{Place, Subject};

// ---- arguments of functions

fn param_wants(s: &State, spread: bool, slot: usize, sig: &Signature) -> Mark
    requires basics { HasBasics s.now.table }
    requires signature { IsSignatureOf s.now sig.now }
    ensures is { Says (said s.now result) ≡ tell (sight s.now) (param_wants spread slot (signature_by s.now sig.now)) }
    ensures over { IsMarkOf s.now result }
{
    let to = param_at(s, sig, spread, slot.saturating_sub(1));
    operand(assigned_to(s, to))
}

#[tactic(auto, unfolding(crate::specs::Wants::argument_wants))]
fn argument_wants(s: &State, spread: bool, slot: usize, of: TypeId) -> Mark
    requires basics { HasBasics s.now.table }
    requires of { IsTypeOf s.now of }
    ensures is { Says (said s.now result) ≡ tell (sight s.now) (argument_wants spread slot (type_in s.now of)) }
    ensures over { IsMarkOf s.now result }
{
    match signature_in(s, of) {
        Some(sig) => param_wants(s, spread, slot, sig),
        None => nothing_wanted(),
    }
}

fn argument_by(s: &State, spread: bool, slot: usize, of: Option<TypeId>) -> Mark
    requires basics { HasBasics s.now.table }
    requires of { MayBeTypeOf s.now of }
    ensures is { Says (said s.now result) ≡ tell (sight s.now) (argument_by spread slot (option_map (type_in s.now) of)) }
    ensures over { IsMarkOf s.now result }
{
    match of {
        Some(of) => argument_wants(s, spread, slot, of),
        None => nothing_wanted(),
    }
}

#[tactic(auto, using(rule_words::proofs::BindLaws::says_bind, rule_words::proofs::BindLaws::waits_bind))]
fn function_wants(u: &Subject, s: &State, around: &Node, slot: usize, f: Mark) -> Found<Mark, Item>
    requires scene { IsScene u.now s.now }
    requires callee { IsMarkOf s.now f }
    ensures is { told_by (said s.now) result ≡ tell (sight s.now) (function_wants (unit_of u.now) around.now slot (said s.now f)) }
    ensures over { IfFound result (IsMarkOf s.now) }
{
    match mark_under(u, s, f) {
        Found::Is(of) => Found::Is(argument_by(s, is_spread(around.kind), slot, of)),
        Found::Wait(item) => Found::Wait(item),
    }
}

// ---- operands of conversions

fn constant_wish(s: &State, under: Option<TypeId>, x: Facts) -> Want
    requires basics { HasBasics s.now.table }
    requires under { MayBeTypeOf s.now under }
    requires facts { AreFactsOf s.now x }
    ensures is { wish_of s.now result ≡ constant_wish (option_map (type_in s.now) under) (known_of s.now x) }
    ensures within { IsWishOf s.now result }
{
    if takes_default(s, under) {
        fitting_default(s, x.of)
    } else {
        default_of(s, x.of)
    }
}

fn value_wish(s: &State, to: TypeId, under: Option<TypeId>, x: Facts) -> Want
    requires basics { HasBasics s.now.table }
    requires to { IsTypeOf s.now to }
    requires under { MayBeTypeOf s.now under }
    requires facts { AreFactsOf s.now x }
    ensures is { wish_of s.now result ≡ value_wish (type_in s.now to) (option_map (type_in s.now) under) (known_of s.now x) (known_of s.now x).value }
    ensures within { IsWishOf s.now result }
{
    match value_at(s, x.value) {
        Some(_) => constant_wish(s, under, x),
        None => Want::Takes(to),
    }
}

#[tactic(auto, unfolding(crate::specs::Wants::converted_wish))]
fn converted_wish(s: &State, to: TypeId, under: Option<TypeId>, own: Mark) -> Want
    requires basics { HasBasics s.now.table }
    requires to { IsTypeOf s.now to }
    requires under { MayBeTypeOf s.now under }
    requires own { IsMarkOf s.now own }
    ensures is { wish_of s.now result ≡ converted_wish (type_in s.now to) (option_map (type_in s.now) under) (said s.now own) }
    ensures within { IsWishOf s.now result }
{
    match own {
        Mark::Good(x) => value_wish(s, to, under, x),
        Mark::Bad(_) => Want::Free,
        Mark::Outside(_) => Want::Free,
        Mark::Silent => Want::Free,
        Mark::Wants(_, _) => Want::Free,
        Mark::Declared(_) => Want::Free,
    }
}

fn converted_in(s: &State, to: TypeId, own: Mark, under: Option<TypeId>) -> Mark
    requires basics { HasBasics s.now.table }
    requires to { IsTypeOf s.now to }
    requires own { IsMarkOf s.now own }
    requires under { MayBeTypeOf s.now under }
    ensures is { Says (said s.now result) ≡ tell (sight s.now) (converted_in (type_in s.now to) (said s.now own) (option_map (type_in s.now) under)) }
    ensures over { IsMarkOf s.now result }
{
    operand(converted_wish(s, to, under, own))
}

#[tactic(auto, using(rule_words::proofs::BindLaws::says_bind, rule_words::proofs::BindLaws::waits_bind))]
fn converted_over(u: &Subject, s: &State, to: TypeId, own: Mark) -> Found<Mark, Item>
    requires scene { IsScene u.now s.now }
    requires to { IsTypeOf s.now to }
    requires own { IsMarkOf s.now own }
    ensures is { told_by (said s.now) result ≡ tell (sight s.now) (converted_over (unit_of u.now) (type_in s.now to) (said s.now own)) }
    ensures over { IfFound result (IsMarkOf s.now) }
{
    match under_of(u, s, to) {
        Found::Is(under) => Found::Is(converted_in(s, to, own, under)),
        Found::Wait(item) => Found::Wait(item),
    }
}

#[tactic(auto, using(rule_words::proofs::BindLaws::says_bind, rule_words::proofs::BindLaws::waits_bind), unfolding(crate::specs::Wants::conversion_wants))]
fn conversion_wants(
    u: &Subject,
    s: &State,
    block: usize,
    around: &Node,
    slot: usize,
    to: TypeId,
) -> Found<Mark, Item>
    requires scene { IsScene u.now s.now }
    requires to { IsTypeOf s.now to }
    ensures is { told_by (said s.now) result ≡ tell (sight s.now) (conversion_wants (unit_of u.now) block around.now slot (type_in s.now to)) }
    ensures over { IfFound result (IsMarkOf s.now) }
{
    match before(u, s, block, around, slot) {
        Found::Is(own) => converted_over(u, s, to, own),
        Found::Wait(item) => Found::Wait(item),
    }
}

// ---- all

#[tactic(auto, unfolding(crate::specs::Wants::callee_wants))]
fn callee_wants(
    u: &Subject,
    s: &State,
    block: usize,
    around: &Node,
    slot: usize,
    x: Facts,
    callee: Callee,
) -> Found<Mark, Item>
    requires scene { IsScene u.now s.now }
    requires facts { AreFactsOf s.now x }
    ensures is { told_by (said s.now) result ≡ tell (sight s.now) (callee_wants (unit_of u.now) block around.now slot (known_of s.now x) (said s.now (Mark.Good x)) callee) }
    ensures over { IfFound result (IsMarkOf s.now) }
{
    match callee {
        Callee::Value => function_wants(u, s, around, slot, Mark::Good(x)),
        Callee::Type => conversion_wants(u, s, block, around, slot, x.of),
        Callee::Builtin => {
            let b = builtin_in(u, file_of(u, block), around);
            builtin_wants(u, s, block, around, slot, b)
        }
        Callee::Refused(_) => Found::Is(nothing_wanted()),
    }
}

/// By what is called.
#[tactic(auto, unfolding(crate::specs::Wants::called_wants))]
fn called_wants(
    u: &Subject,
    s: &State,
    block: usize,
    around: &Node,
    slot: usize,
    f: Mark,
) -> Found<Mark, Item>
    requires scene { IsScene u.now s.now }
    requires callee { IsMarkOf s.now f }
    ensures is { told_by (said s.now) result ≡ tell (sight s.now) (called_wants (unit_of u.now) block around.now slot (said s.now f)) }
    ensures over { IfFound result (IsMarkOf s.now) }
{
    match f {
        Mark::Good(x) => callee_wants(u, s, block, around, slot, x, callee_of(x.mode)),
        Mark::Bad(_) => Found::Is(nothing_wanted()),
        Mark::Outside(_) => Found::Is(nothing_wanted()),
        Mark::Silent => Found::Is(nothing_wanted()),
        Mark::Wants(_, _) => Found::Is(nothing_wanted()),
        Mark::Declared(_) => Found::Is(nothing_wanted()),
    }
}

#[tactic(auto, using(rule_words::proofs::BindLaws::says_bind, rule_words::proofs::BindLaws::waits_bind), unfolding(crate::specs::Wants::slot_wants))]
fn slot_wants(u: &Subject, s: &State, block: usize, around: &Node, slot: usize) -> Found<Mark, Item>
    requires scene { IsScene u.now s.now }
    ensures is { told_by (said s.now) result ≡ tell (sight s.now) (slot_wants (unit_of u.now) block around.now slot) }
    ensures over { IfFound result (IsMarkOf s.now) }
{
    match before(u, s, block, around, 0) {
        Found::Is(f) => called_wants(u, s, block, around, slot, f),
        Found::Wait(item) => Found::Wait(item),
    }
}

/// What the place of a part of a call wants.
pub fn want_call(u: &Subject, s: &State, block: usize, p: Place, around: &Node) -> Found<Mark, Item>
    requires scene { IsScene u.now s.now }
    ensures is { told_by (said s.now) result ≡ tell (sight s.now) (call_wants (unit_of u.now) block p around.now) }
    ensures over { IfFound result (IsMarkOf s.now) }
{
    if p.slot == 0 {
        Found::Is(nothing_wanted())
    } else {
        slot_wants(u, s, block, around, p.slot)
    }
}
