//! What the places of operands want.
ghost use Rattle.std.specs.Prelude.{◌≡◌, ◌-◌, option_map};
ghost use Rattle.mark_walk.specs.Telling.{tell};
ghost use Rattle.typed_tree.specs.Basics.{HasBasics};
ghost use Rattle.unit_read.specs.Subjects.{unit_of};
ghost use Rattle.rule_words.specs.Scenes.{sight, IsScene, told_by, IfFound, said, IsMarkOf, type_in, MayBeTypeOf};
ghost use Rattle.rule_words.specs.Words.{wanted_in};
ghost use Rattle.rule_words.specs.Wishes.{IsWishOf, wish_of};
ghost use Rattle.op_rules.specs.Wants.{whole, unchecked_by, whole_handed, handing_on, count_by, count_wants, shifted_in, operand_in, operand_over, operand_with, operand_in_whole, operand_beside, operand_wants, is_count, operator_wants, operator_asked, binary_wants, form_wants, op_wants};

use crate::forms::{Form, binary_in, form_of};
use crate::operators::shifts;
use crate::wishes::{default_type, operand_wish, shifted_wish, unchecked_type};
use const_eval::Operator;
use go_tree::Node;
use rule_words::wishes::before;
use rule_words::{file_of, look, mark_under};
use type_model::TypeId;
use type_questions::Found;
use typed_marks::{Item, Mark, Stage, State, Want};
use typed_tree::Want as Demand;
use unit_read::{Place, Subject};

// ---- marks

/// What is wanted of the whole.
#[tactic(auto, unfolding(crate::specs::Wants::whole))]
fn whole(u: &Subject, s: &State, block: usize, p: Place) -> Found<Mark, Item>
    requires scene { IsScene u.now s.now }
    ensures is { told_by (said s.now) result ≡ tell (sight s.now) (whole (unit_of u.now) block p) }
    ensures over { IfFound result (IsMarkOf s.now) }
{
    look(u, s, Stage::Wanted, block, p.around)
}

fn wish_by(s: &State, m: Mark) -> Want
    requires { IsMarkOf s.now m }
    ensures is { wish_of s.now result ≡ (wanted_in (said s.now m)).wish }
    ensures over { IsWishOf s.now result }
{
    match m {
        Mark::Wants(_, want) => want,
        Mark::Good(_) => Want::Free,
        Mark::Bad(_) => Want::Free,
        Mark::Outside(_) => Want::Free,
        Mark::Silent => Want::Free,
        Mark::Declared(_) => Want::Free,
    }
}

// ---- parentheses and unary operators

#[tactic(auto, unfolding(crate::specs::Wants::unchecked_by))]
fn unchecked_by(s: &State, demand: Demand, own: Mark, w: Mark) -> Mark
    requires basics { HasBasics s.now.table }
    requires own { IsMarkOf s.now own }
    requires whole { IsMarkOf s.now w }
    ensures is { said s.now result ≡ unchecked_by demand (said s.now own) (said s.now w) }
    ensures over { IsMarkOf s.now result }
{
    let want = wish_by(s, w);
    Mark::Wants(demand, unchecked_type(s, want, own))
}

fn whole_handed(
    u: &Subject,
    s: &State,
    block: usize,
    p: Place,
    demand: Demand,
    own: Mark,
) -> Found<Mark, Item>
    requires scene { IsScene u.now s.now }
    requires own { IsMarkOf s.now own }
    ensures is { told_by (said s.now) result ≡ tell (sight s.now) (whole_handed (unit_of u.now) block p demand (said s.now own)) }
    ensures over { IfFound result (IsMarkOf s.now) }
{
    match whole(u, s, block, p) {
        Found::Is(w) => Found::Is(unchecked_by(s, demand, own, w)),
        Found::Wait(item) => Found::Wait(item),
    }
}

fn handing_on(
    u: &Subject,
    s: &State,
    block: usize,
    p: Place,
    around: &Node,
    demand: Demand,
) -> Found<Mark, Item>
    requires scene { IsScene u.now s.now }
    ensures is { told_by (said s.now) result ≡ tell (sight s.now) (handing_on (unit_of u.now) block p around.now demand) }
    ensures over { IfFound result (IsMarkOf s.now) }
{
    match before(u, s, block, around, 0) {
        Found::Is(own) => whole_handed(u, s, block, p, demand, own),
        Found::Wait(item) => Found::Wait(item),
    }
}

// ---- counts of shifts

#[tactic(auto, unfolding(crate::specs::Wants::count_by))]
fn count_by(s: &State, own: Mark) -> Mark
    requires basics { HasBasics s.now.table }
    requires own { IsMarkOf s.now own }
    ensures is { said s.now result ≡ count_by (said s.now own) }
    ensures over { IsMarkOf s.now result }
{
    Mark::Wants(Demand::Count, default_type(s, own))
}

fn count_wants(u: &Subject, s: &State, block: usize, around: &Node) -> Found<Mark, Item>
    requires scene { IsScene u.now s.now }
    ensures is { told_by (said s.now) result ≡ tell (sight s.now) (count_wants (unit_of u.now) block around.now) }
    ensures over { IfFound result (IsMarkOf s.now) }
{
    match before(u, s, block, around, 1) {
        Found::Is(own) => Found::Is(count_by(s, own)),
        Found::Wait(item) => Found::Wait(item),
    }
}

// ---- other operands

#[tactic(auto, unfolding(crate::specs::Wants::shifted_in))]
fn shifted_in(s: &State, own: Mark, count: Mark, w: Mark) -> Mark
    requires basics { HasBasics s.now.table }
    requires own { IsMarkOf s.now own }
    requires count { IsMarkOf s.now count }
    requires whole { IsMarkOf s.now w }
    ensures is { said s.now result ≡ shifted_in (said s.now own) (said s.now count) (said s.now w) }
    ensures over { IsMarkOf s.now result }
{
    let want = wish_by(s, w);
    Mark::Wants(Demand::Operand, shifted_wish(s, own, count, want))
}

#[tactic(auto, unfolding(crate::specs::Wants::operand_in))]
fn operand_in(
    s: &State,
    op: Operator,
    own: Mark,
    beside: Mark,
    w: Mark,
    under: Option<TypeId>,
) -> Mark
    requires basics { HasBasics s.now.table }
    requires own { IsMarkOf s.now own }
    requires beside { IsMarkOf s.now beside }
    requires whole { IsMarkOf s.now w }
    requires under { MayBeTypeOf s.now under }
    ensures is { said s.now result ≡ operand_in op (said s.now own) (said s.now beside) (said s.now w) (option_map (type_in s.now) under) }
    ensures over { IsMarkOf s.now result }
{
    let want = wish_by(s, w);
    let want = operand_wish(s, op, own, beside, under, want);
    Mark::Wants(Demand::Operand, want)
}

fn operand_over(
    u: &Subject,
    s: &State,
    op: Operator,
    own: Mark,
    beside: Mark,
    w: Mark,
) -> Found<Mark, Item>
    requires scene { IsScene u.now s.now }
    requires own { IsMarkOf s.now own }
    requires beside { IsMarkOf s.now beside }
    requires whole { IsMarkOf s.now w }
    ensures is { told_by (said s.now) result ≡ tell (sight s.now) (operand_over (unit_of u.now) op (said s.now own) (said s.now beside) (said s.now w)) }
    ensures over { IfFound result (IsMarkOf s.now) }
{
    match mark_under(u, s, beside) {
        Found::Is(under) => Found::Is(operand_in(s, op, own, beside, w, under)),
        Found::Wait(item) => Found::Wait(item),
    }
}

#[tactic(auto, unfolding(crate::specs::Wants::operand_with))]
fn operand_with(
    u: &Subject,
    s: &State,
    op: Operator,
    own: Mark,
    beside: Mark,
    w: Mark,
) -> Found<Mark, Item>
    requires scene { IsScene u.now s.now }
    requires own { IsMarkOf s.now own }
    requires beside { IsMarkOf s.now beside }
    requires whole { IsMarkOf s.now w }
    ensures is { told_by (said s.now) result ≡ tell (sight s.now) (operand_with (unit_of u.now) op (said s.now own) (said s.now beside) (said s.now w)) }
    ensures over { IfFound result (IsMarkOf s.now) }
{
    if shifts(op) {
        Found::Is(shifted_in(s, own, beside, w))
    } else {
        operand_over(u, s, op, own, beside, w)
    }
}

fn operand_in_whole(
    u: &Subject,
    s: &State,
    block: usize,
    p: Place,
    op: Operator,
    own: Mark,
    beside: Mark,
) -> Found<Mark, Item>
    requires scene { IsScene u.now s.now }
    requires own { IsMarkOf s.now own }
    requires beside { IsMarkOf s.now beside }
    ensures is { told_by (said s.now) result ≡ tell (sight s.now) (operand_in_whole (unit_of u.now) block p op (said s.now own) (said s.now beside)) }
    ensures over { IfFound result (IsMarkOf s.now) }
{
    match whole(u, s, block, p) {
        Found::Is(w) => operand_with(u, s, op, own, beside, w),
        Found::Wait(item) => Found::Wait(item),
    }
}

fn other_slot(slot: usize) -> usize
    ensures { result ≡ 1 - slot }
{
    if slot == 0 { 1 } else { 0 }
}

fn operand_beside(
    u: &Subject,
    s: &State,
    block: usize,
    p: Place,
    around: &Node,
    op: Operator,
    own: Mark,
) -> Found<Mark, Item>
    requires scene { IsScene u.now s.now }
    requires own { IsMarkOf s.now own }
    ensures is { told_by (said s.now) result ≡ tell (sight s.now) (operand_beside (unit_of u.now) block p around.now op (said s.now own)) }
    ensures over { IfFound result (IsMarkOf s.now) }
{
    let slot = other_slot(p.slot);
    match before(u, s, block, around, slot) {
        Found::Is(beside) => operand_in_whole(u, s, block, p, op, own, beside),
        Found::Wait(item) => Found::Wait(item),
    }
}

fn operand_wants(
    u: &Subject,
    s: &State,
    block: usize,
    p: Place,
    around: &Node,
    op: Operator,
) -> Found<Mark, Item>
    requires scene { IsScene u.now s.now }
    ensures is { told_by (said s.now) result ≡ tell (sight s.now) (operand_wants (unit_of u.now) block p around.now op) }
    ensures over { IfFound result (IsMarkOf s.now) }
{
    match before(u, s, block, around, p.slot) {
        Found::Is(own) => operand_beside(u, s, block, p, around, op, own),
        Found::Wait(item) => Found::Wait(item),
    }
}

// ---- binary operators

#[tactic(auto, unfolding(crate::specs::Wants::is_count))]
fn is_count(op: Operator, slot: usize) -> bool
    ensures { result ≡ is_count op slot }
{
    shifts(op) && slot == 1
}

#[tactic(auto, unfolding(crate::specs::Wants::operator_wants))]
fn operator_wants(
    u: &Subject,
    s: &State,
    block: usize,
    p: Place,
    around: &Node,
    op: Operator,
) -> Found<Mark, Item>
    requires scene { IsScene u.now s.now }
    ensures is { told_by (said s.now) result ≡ tell (sight s.now) (operator_wants (unit_of u.now) block p around.now op) }
    ensures over { IfFound result (IsMarkOf s.now) }
{
    if is_count(op, p.slot) {
        count_wants(u, s, block, around)
    } else {
        operand_wants(u, s, block, p, around, op)
    }
}

#[tactic(auto, unfolding(crate::specs::Wants::operator_asked))]
pub fn operator_asked(
    u: &Subject,
    s: &State,
    block: usize,
    p: Place,
    around: &Node,
    op: Option<Operator>,
) -> Found<Mark, Item>
    requires scene { IsScene u.now s.now }
    ensures is { told_by (said s.now) result ≡ tell (sight s.now) (operator_asked (unit_of u.now) block p around.now op) }
    ensures over { IfFound result (IsMarkOf s.now) }
{
    match op {
        Some(op) => operator_wants(u, s, block, p, around, op),
        None => Found::Is(Mark::Wants(Demand::Operand, Want::Free)),
    }
}

#[tactic(auto, unfolding(crate::specs::Wants::binary_wants))]
fn binary_wants(u: &Subject, s: &State, block: usize, p: Place, around: &Node) -> Found<Mark, Item>
    requires scene { IsScene u.now s.now }
    ensures is { told_by (said s.now) result ≡ tell (sight s.now) (binary_wants (unit_of u.now) block p around.now) }
    ensures over { IfFound result (IsMarkOf s.now) }
{
    let file = file_of(u, block);
    let op = binary_in(u, file, around);
    operator_asked(u, s, block, p, around, op)
}

// ---- forms

#[tactic(auto, unfolding(crate::specs::Wants::form_wants))]
fn form_wants(
    u: &Subject,
    s: &State,
    block: usize,
    p: Place,
    around: &Node,
    form: Form,
) -> Found<Mark, Item>
    requires scene { IsScene u.now s.now }
    ensures is { told_by (said s.now) result ≡ tell (sight s.now) (form_wants (unit_of u.now) block p around.now form) }
    ensures over { IfFound result (IsMarkOf s.now) }
{
    match form {
        Form::Literal(_) => Found::Is(Mark::Wants(Demand::Nothing, Want::Free)),
        Form::Name => Found::Is(Mark::Wants(Demand::Nothing, Want::Free)),
        Form::Selector => Found::Is(Mark::Wants(Demand::Owner, Want::Free)),
        Form::Paren => handing_on(u, s, block, p, around, Demand::Inside),
        Form::Unary => handing_on(u, s, block, p, around, Demand::Operand),
        Form::Binary => binary_wants(u, s, block, p, around),
        Form::Other => Found::Is(Mark::Wants(Demand::Nothing, Want::Free)),
    }
}

/// What the place of a part wants, by the node around it.
pub fn want_op(u: &Subject, s: &State, block: usize, p: Place, around: &Node) -> Found<Mark, Item>
    requires scene { IsScene u.now s.now }
    ensures is { told_by (said s.now) result ≡ tell (sight s.now) (op_wants (unit_of u.now) block p around.now) }
    ensures over { IfFound result (IsMarkOf s.now) }
{
    let form = form_of(around.kind);
    form_wants(u, s, block, p, around, form)
}
