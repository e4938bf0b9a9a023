//! The sizes with which types are made (Go 1.17, "Making slices, maps and channels").
ghost use Rattle.std.specs.Prelude.{◌≡◌, ◌&&◌, ◌==◌, length};
ghost use Rattle.typed_tree.specs.Basics.{HasBasics};
ghost use Rattle.typed_tree.specs.Operands.{fits_in, is_natural};
ghost use Rattle.gv_base.specs.declared.constant.Const.{Const};
ghost use Rattle.gv_base.specs.declared.constant.Kind.{Kind};
ghost use Rattle.typed_marks.specs.Meanings.{constant_at};
ghost use Rattle.rule_words.specs.Scenes.{type_in, IsTypeOf, parts_in, AreSeenOf};
ghost use Rattle.builtin_rules.specs.InCode.{argument_in, IsArgumentOf};
ghost use Rattle.builtin_rules.specs.Musts.{is_size, one_size, size_value, is_below, below_value, are_in_order, two_sizes, slice_sizes, other_sizes, is_filled, is_made};

use crate::arguments::{Argument, argument_at};
use crate::parts::part_count;
use crate::shapes::{is_filled, is_slice};
use gv_base::{Const, Kind, fits};
use rule_words::Seen;
use rule_words::types::{counted, is_integer};
use rule_words::values::value_at;
use type_model::TypeId;
use typed_marks::{ConstId, State};

fn is_natural(c: &Const) -> bool
    ensures { result ≡ is_natural c.now }
{
    match c {
        Const::Int(n) => 0 <= *n,
        Const::Truth(_) => false,
        Const::Text(_) => false,
    }
}

fn fits_int(c: &Const) -> bool
    ensures { result ≡ fits_in c.now Kind.Int }
{
    fits(c, Kind::Int)
}

fn is_constant_size(c: &Const) -> bool
    ensures { result ≡ (fits_in c.now Kind.Int && is_natural c.now) }
{
    fits_int(c) && is_natural(c)
}

fn is_size(s: &State, a: Argument) -> bool
    requires basics { HasBasics s.now.table }
    requires argument { IsArgumentOf s.now a }
    ensures { result ≡ is_size (argument_in s.now a) }
{
    match value_at(s, a.value) {
        Some(c) => is_constant_size(c),
        None => is_integer(s, counted(s, a.of, a.under)),
    }
}

#[tactic(auto, unfolding(crate::specs::Musts::one_size))]
fn one_size(s: &State, parts: &[Seen], slot: usize) -> bool
    requires basics { HasBasics s.now.table }
    requires parts { AreSeenOf s.now parts.now }
    ensures { result ≡ one_size (parts_in s.now parts.now) slot }
{
    match argument_at(s, parts, slot) {
        Some(a) => is_size(s, a),
        None => false,
    }
}

fn size_id(s: &State, parts: &[Seen], slot: usize) -> Option<ConstId>
    requires { AreSeenOf s.now parts.now }
    ensures { constant_at s.now.constants.items result ≡ size_value (parts_in s.now parts.now) slot }
{
    match argument_at(s, parts, slot) {
        Some(a) => a.value,
        None => None,
    }
}

fn is_below_integer(a: i128, b: &Const) -> bool
    ensures { result ≡ is_below (Const.Int a) b.now }
{
    match b {
        Const::Int(b) => a <= *b,
        Const::Truth(_) => false,
        Const::Text(_) => false,
    }
}

fn is_below(a: &Const, b: &Const) -> bool
    ensures { result ≡ is_below a.now b.now }
{
    match a {
        Const::Int(a) => is_below_integer(*a, b),
        Const::Truth(_) => false,
        Const::Text(_) => false,
    }
}

fn below_value(s: &State, a: &Const, b: Option<ConstId>) -> bool
    ensures { result ≡ below_value a.now (constant_at s.now.constants.items b) }
{
    match value_at(s, b) {
        Some(b) => is_below(a, b),
        None => true,
    }
}

fn are_in_order(s: &State, a: Option<ConstId>, b: Option<ConstId>) -> bool
    ensures { result ≡ are_in_order (constant_at s.now.constants.items a) (constant_at s.now.constants.items b) }
{
    match value_at(s, a) {
        Some(a) => below_value(s, a, b),
        None => true,
    }
}

fn sizes_in_order(s: &State, parts: &[Seen]) -> bool
    requires { AreSeenOf s.now parts.now }
    ensures { result ≡ are_in_order (size_value (parts_in s.now parts.now) 2) (size_value (parts_in s.now parts.now) 3) }
{
    let a = size_id(s, parts, 2);
    let b = size_id(s, parts, 3);
    are_in_order(s, a, b)
}

fn second_size(s: &State, parts: &[Seen]) -> bool
    requires basics { HasBasics s.now.table }
    requires parts { AreSeenOf s.now parts.now }
    ensures { result ≡ (one_size (parts_in s.now parts.now) 3 && are_in_order (size_value (parts_in s.now parts.now) 2) (size_value (parts_in s.now parts.now) 3)) }
{
    one_size(s, parts, 3) && sizes_in_order(s, parts)
}

/// A length and a capacity.
#[tactic(auto, unfolding(crate::specs::Musts::two_sizes))]
fn two_sizes(s: &State, parts: &[Seen]) -> bool
    requires basics { HasBasics s.now.table }
    requires parts { AreSeenOf s.now parts.now }
    ensures { result ≡ two_sizes (parts_in s.now parts.now) }
{
    one_size(s, parts, 2) && second_size(s, parts)
}

fn slice_sizes(s: &State, parts: &[Seen]) -> bool
    requires basics { HasBasics s.now.table }
    requires parts { AreSeenOf s.now parts.now }
    ensures { result ≡ slice_sizes (parts_in s.now parts.now) }
{
    if part_count(s, parts) == 4 {
        two_sizes(s, parts)
    } else {
        one_size(s, parts, 2)
    }
}

fn has_one_size(s: &State, parts: &[Seen]) -> bool
    requires basics { HasBasics s.now.table }
    requires parts { AreSeenOf s.now parts.now }
    ensures { result ≡ ((length (parts_in s.now parts.now) == 3) && one_size (parts_in s.now parts.now) 2) }
{
    part_count(s, parts) == 3 && one_size(s, parts, 2)
}

fn other_sizes(s: &State, parts: &[Seen]) -> bool
    requires basics { HasBasics s.now.table }
    requires parts { AreSeenOf s.now parts.now }
    ensures { result ≡ other_sizes (parts_in s.now parts.now) }
{
    if part_count(s, parts) == 2 {
        true
    } else {
        has_one_size(s, parts)
    }
}

fn is_filled_with(s: &State, parts: &[Seen], of: TypeId) -> bool
    requires basics { HasBasics s.now.table }
    requires parts { AreSeenOf s.now parts.now }
    requires of { IsTypeOf s.now of }
    ensures { result ≡ (is_filled (type_in s.now of) && other_sizes (parts_in s.now parts.now)) }
{
    is_filled(s, of) && other_sizes(s, parts)
}

/// Whether a type is made with these sizes.
#[tactic(auto, unfolding(crate::specs::Musts::is_made))]
pub fn is_made(s: &State, parts: &[Seen], of: TypeId) -> bool
    requires basics { HasBasics s.now.table }
    requires parts { AreSeenOf s.now parts.now }
    requires of { IsTypeOf s.now of }
    ensures { result ≡ is_made (parts_in s.now parts.now) (type_in s.now of) }
{
    if is_slice(s, of) {
        slice_sizes(s, parts)
    } else {
        is_filled_with(s, parts, of)
    }
}
