//! The indexes of slice expressions.
ghost use Rattle.std.specs.Prelude.{◌≡◌, true, option_map, IfSome};
ghost use Rattle.std.specs.Option.{option_map_or};
ghost use Rattle.typed_marks.specs.Meanings.{constant_at};
ghost use Rattle.typed_tree.specs.Basics.{HasBasics};
ghost use Rattle.rule_words.specs.Scenes.{part_in, parts_in, IsSeenOf, AreSeenOf};
ghost use Rattle.primary_rules.specs.InCode.{operand_in, IsOperandOf, parts_of, ArePartsOf, chosen_of, AreChosenOf};
ghost use Rattle.primary_rules.specs.Slicing.{bound_part, bound_parts, is_index_if, are_indexes, is_at_most, lies_within, value_of, is_within_if, are_within, at_most, is_ordered_with, are_ordered, are_in_order};

use crate::forms::Bounds;
use crate::indexing::is_index;
use crate::operand::Operand;
use gv_base::Const;
use rule_words::Seen;
use rule_words::good::part_at;
use rule_words::values::value_at;
use typed_marks::{ConstId, State};

/// The indexes of a slice expression, each as it was read; those that are left out are None.
#[derive(Clone, Copy, PartialEq, Eq, Drop)]
pub struct Parts {
    pub low: Option<Seen>,
    pub high: Option<Seen>,
    pub max: Option<Seen>,
}

/// The same, each good.
#[derive(Clone, Copy, PartialEq, Eq, Drop)]
pub struct Chosen {
    pub low: Option<Operand>,
    pub high: Option<Operand>,
    pub max: Option<Operand>,
}

fn bound_part(s: &State, parts: &[Seen], slot: Option<usize>) -> Option<Seen>
    requires { AreSeenOf s.now parts.now }
    ensures is { option_map (part_in s.now) result ≡ bound_part (parts_in s.now parts.now) slot }
    ensures over { IfSome result (IsSeenOf s.now) }
{
    match slot {
        Some(i) => Some(part_at(s, parts, i)),
        None => None,
    }
}

/// The indexes of a slice expression.
pub fn bound_parts(s: &State, parts: &[Seen], slots: Bounds) -> Parts
    requires { AreSeenOf s.now parts.now }
    ensures is { parts_of s.now result ≡ bound_parts (parts_in s.now parts.now) slots }
    ensures over { ArePartsOf s.now result }
{
    Parts {
        low: bound_part(s, parts, slots.low),
        high: bound_part(s, parts, slots.high),
        max: bound_part(s, parts, slots.max),
    }
}

// ---- E42

fn is_index_if(s: &State, b: Option<Operand>) -> bool
    requires basics { HasBasics s.now.table }
    requires bound { IfSome b (IsOperandOf s.now) }
    ensures { result ≡ is_index_if (option_map (operand_in s.now) b) }
{
    match b {
        Some(x) => is_index(s, x),
        None => true,
    }
}

#[tactic(auto, unfolding(crate::specs::Slicing::are_indexes))]
pub fn are_indexes(s: &State, b: Chosen) -> bool
    requires basics { HasBasics s.now.table }
    requires bounds { AreChosenOf s.now b }
    ensures { result ≡ are_indexes (chosen_of s.now b) }
{
    is_index_if(s, b.low) && (is_index_if(s, b.high) && is_index_if(s, b.max))
}

// ---- E43

fn is_at_most(n: i128, size: Option<u64>) -> bool
    ensures { result ≡ is_at_most n size }
{
    match size {
        Some(many) => n <= many as i128,
        None => true,
    }
}

fn lies_within(size: Option<u64>, c: &Const) -> bool
    ensures { result ≡ lies_within size c.now }
{
    match c {
        Const::Int(n) => 0 <= *n && is_at_most(*n, size),
        Const::Truth(_) => true,
        Const::Text(_) => true,
    }
}

fn constant_within(s: &State, size: Option<u64>, value: Option<ConstId>) -> bool
    ensures { result ≡ option_map_or (lies_within size) (constant_at s.now.constants.items value) true }
{
    match value_at(s, value) {
        Some(c) => lies_within(size, c),
        None => true,
    }
}

fn is_within_if(s: &State, size: Option<u64>, b: Option<Operand>) -> bool
    ensures { result ≡ is_within_if size (option_map (operand_in s.now) b) }
{
    match b {
        Some(x) => constant_within(s, size, x.value),
        None => true,
    }
}

#[tactic(auto, unfolding(crate::specs::Slicing::are_within))]
pub fn are_within(s: &State, size: Option<u64>, b: Chosen) -> bool
    ensures { result ≡ are_within size (chosen_of s.now b) }
{
    is_within_if(s, size, b.low) && (is_within_if(s, size, b.high) && is_within_if(s, size, b.max))
}

// ---- E45

fn is_least(n: i128, other: &Const) -> bool
    ensures { result ≡ at_most (Const.Int n) other.now }
{
    match other {
        Const::Int(m) => n <= *m,
        Const::Truth(_) => true,
        Const::Text(_) => true,
    }
}

fn at_most(c: &Const, other: &Const) -> bool
    ensures { result ≡ at_most c.now other.now }
{
    match c {
        Const::Int(n) => is_least(*n, other),
        Const::Truth(_) => true,
        Const::Text(_) => true,
    }
}

fn is_ordered_with(s: &State, other: Option<ConstId>, c: &Const) -> bool
    ensures { result ≡ is_ordered_with (constant_at s.now.constants.items other) c.now }
{
    match value_at(s, other) {
        Some(d) => at_most(c, d),
        None => true,
    }
}

fn is_ordered(s: &State, value: Option<ConstId>, other: Option<ConstId>) -> bool
    ensures { result ≡ option_map_or (is_ordered_with (constant_at s.now.constants.items other)) (constant_at s.now.constants.items value) true }
{
    match value_at(s, value) {
        Some(c) => is_ordered_with(s, other, c),
        None => true,
    }
}

fn value_of(s: &State, b: Option<Operand>) -> Option<ConstId>
    ensures { constant_at s.now.constants.items result ≡ value_of (option_map (operand_in s.now) b) }
{
    let _ = s;
    match b {
        Some(x) => x.value,
        None => None,
    }
}

#[tactic(auto, unfolding(crate::specs::Slicing::are_ordered))]
fn are_ordered(s: &State, a: Option<Operand>, b: Option<Operand>) -> bool
    ensures { result ≡ are_ordered (option_map (operand_in s.now) a) (option_map (operand_in s.now) b) }
{
    let value = value_of(s, a);
    let other = value_of(s, b);
    is_ordered(s, value, other)
}

#[tactic(auto, unfolding(crate::specs::Slicing::are_in_order))]
pub fn are_in_order(s: &State, b: Chosen) -> bool
    ensures { result ≡ are_in_order (chosen_of s.now b) }
{
    are_ordered(s, b.low, b.high) && (are_ordered(s, b.low, b.max) && are_ordered(s, b.high, b.max))
}
