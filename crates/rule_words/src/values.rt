//! Values of operands, and shifts that have none.
ghost use Rattle.std.specs.Prelude.{◌≡◌, ◌&&◌};
ghost use Rattle.std.specs.Option.{option_copied};
ghost use Rattle.type_rel.specs.Kinds.{is_untyped, is_integer};
ghost use Rattle.typed_tree.specs.Basics.{HasBasics};
ghost use Rattle.typed_tree.specs.Operands.{fits_in};
ghost use Rattle.typed_marks.specs.Meanings.{constant_at};
ghost use Rattle.rule_words.specs.Good.{known_of, AreFactsOf};
ghost use Rattle.rule_words.specs.Scenes.{type_in, IsTypeOf};
ghost use Rattle.rule_words.specs.Types.{is_of};
ghost use Rattle.rule_words.specs.Values.{has_value, is_shifted, assigned_type};

use crate::types::kind_of;
use gv_base::{Const, Kind, fits};
use type_model::TypeId;
use type_rel::{has_integers, is_free};
use typed_marks::{ConstId, Facts, State};

/// The value of this number.
pub fn value_at(s: &State, value: Option<ConstId>) -> Option<&Const>
    ensures { option_copied result ≡ constant_at s.now.constants.items value }
{
    match value {
        Some(id) => s.constants.get(id.0 as usize),
        None => None,
    }
}

/// There is such a value.
pub fn has_value(s: &State, value: Option<ConstId>) -> bool
    ensures { result ≡ has_value (constant_at s.now.constants.items value) }
{
    match value_at(s, value) {
        Some(_) => true,
        None => false,
    }
}

/// The constant is representable by a value of the kind.
pub fn fits_in(c: &Const, kind: Kind) -> bool
    ensures { result ≡ fits_in c.now kind }
{
    fits(c, kind)
}

// ---- shifts

fn is_loose_integer(kind: Kind) -> bool
    ensures { result ≡ (is_untyped kind && is_integer kind) }
{
    is_free(kind) && has_integers(kind)
}

#[tactic(auto, unfolding(crate::specs::Types::is_of))]
fn is_loose(s: &State, t: TypeId) -> bool
    requires basics { HasBasics s.now.table }
    requires within { IsTypeOf s.now t }
    ensures { result ≡ is_of (λ kind. is_untyped kind && is_integer kind) (type_in s.now t) }
{
    match kind_of(s, t) {
        Some(kind) => is_loose_integer(kind),
        None => false,
    }
}

/// An untyped integer that is no constant.
#[tactic(auto, unfolding(crate::specs::Values::is_shifted))]
pub fn is_shifted(s: &State, x: Facts) -> bool
    requires basics { HasBasics s.now.table }
    requires facts { AreFactsOf s.now x }
    ensures { result ≡ is_shifted (known_of s.now x) }
{
    is_loose(s, x.of) && !has_value(s, x.value)
}

/// The type with which an operand is assigned.
pub fn assigned_type(s: &State, x: Facts) -> TypeId
    requires basics { HasBasics s.now.table }
    requires facts { AreFactsOf s.now x }
    ensures is { type_in s.now result ≡ assigned_type (known_of s.now x) }
    ensures within { IsTypeOf s.now result }
{
    if is_shifted(s, x) { x.last } else { x.of }
}
