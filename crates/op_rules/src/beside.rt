//! An untyped operand beside another (Go 1.17, "Operators", "Comparison operators").
ghost use Rattle.std.specs.Prelude.{◌≡◌};
ghost use Rattle.typed_tree.specs.Basics.{HasBasics};
ghost use Rattle.typed_marks.specs.Meanings.{constant_at};
ghost use Rattle.rule_words.specs.Scenes.{type_in, IsTypeOf};
ghost use Rattle.rule_words.specs.Types.{is_of};
ghost use Rattle.op_rules.specs.Beside.{kind_goes, fits_beside, basic_goes, value_goes, goes_beside, agrees};
ghost use Rattle.op_rules.specs.InCode.{operand_in, IsOperandOf};

use crate::kinds::is_boolean;
use crate::operand::Operand;
use crate::types::{are_alike, holds_nil, is_empty_interface, is_nil_type};
use gv_base::Kind;
use rule_words::types::{is_untyped, kind_of};
use rule_words::values::{fits_in, value_at};
use type_model::TypeId;
use type_rel::has_integers;
use typed_marks::{ConstId, State};

/// What is no constant is a comparison, or a shift.
#[tactic(auto, unfolding(crate::specs::Beside::kind_goes))]
fn kind_goes(kind: Kind, to: Kind) -> bool
    ensures { result ≡ kind_goes kind to }
{
    (is_boolean(kind) && is_boolean(to)) || (has_integers(kind) && has_integers(to))
}

#[tactic(auto, unfolding(crate::specs::Beside::fits_beside))]
fn fits_beside(s: &State, value: Option<ConstId>, kind: Kind, to: Kind) -> bool
    ensures { result ≡ fits_beside (constant_at s.now.constants.items value) kind to }
{
    match value_at(s, value) {
        Some(c) => fits_in(c, to),
        None => kind_goes(kind, to),
    }
}

#[tactic(auto, unfolding(rule_words::specs::Types::is_of))]
fn fits_type(s: &State, value: Option<ConstId>, kind: Kind, at: TypeId) -> bool
    requires basics { HasBasics s.now.table }
    requires at { IsTypeOf s.now at }
    ensures { result ≡ is_of (fits_beside (constant_at s.now.constants.items value) kind) (type_in s.now at) }
{
    match kind_of(s, at) {
        Some(to) => fits_beside(s, value, kind, to),
        None => false,
    }
}

#[tactic(auto, unfolding(rule_words::specs::Types::is_of, crate::specs::Beside::basic_goes))]
fn basic_goes(s: &State, x: Operand, at: TypeId) -> bool
    requires basics { HasBasics s.now.table }
    requires operand { IsOperandOf s.now x }
    requires at { IsTypeOf s.now at }
    ensures { result ≡ basic_goes (operand_in s.now x) (type_in s.now at) }
{
    match kind_of(s, x.of) {
        Some(kind) => fits_type(s, x.value, kind, at),
        None => false,
    }
}

#[tactic(auto, unfolding(crate::specs::Beside::value_goes))]
fn value_goes(s: &State, x: Operand, at: TypeId) -> bool
    requires basics { HasBasics s.now.table }
    requires operand { IsOperandOf s.now x }
    requires at { IsTypeOf s.now at }
    ensures { result ≡ value_goes (operand_in s.now x) (type_in s.now at) }
{
    is_empty_interface(s, at) || basic_goes(s, x, at)
}

/// An untyped operand goes beside one of this underlying type.
#[tactic(auto, unfolding(crate::specs::Beside::goes_beside))]
pub fn goes_beside(s: &State, x: Operand, at: TypeId) -> bool
    requires basics { HasBasics s.now.table }
    requires operand { IsOperandOf s.now x }
    requires at { IsTypeOf s.now at }
    ensures { result ≡ goes_beside (operand_in s.now x) (type_in s.now at) }
{
    if is_nil_type(s, x.of) {
        holds_nil(s, at)
    } else {
        value_goes(s, x, at)
    }
}

/// An untyped operand agrees with another.
#[tactic(auto, unfolding(crate::specs::Beside::agrees))]
pub fn agrees(s: &State, x: Operand, y: Operand) -> bool
    requires basics { HasBasics s.now.table }
    requires first { IsOperandOf s.now x }
    requires second { IsOperandOf s.now y }
    ensures { result ≡ agrees (operand_in s.now x) (operand_in s.now y) }
{
    if is_untyped(s, y.of) {
        are_alike(s, x.of, y.of)
    } else {
        goes_beside(s, x, y.at)
    }
}
