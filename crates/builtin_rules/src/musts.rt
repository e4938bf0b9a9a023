//! What the arguments of built-in functions must be, E55 (Go 1.17, "Built-in functions").
ghost use Rattle.std.specs.Prelude.{◌≡◌, option_map};
ghost use Rattle.mark_walk.specs.Telling.{tell};
ghost use Rattle.typed_tree.specs.Basics.{HasBasics};
ghost use Rattle.unit_read.specs.Subjects.{unit_of};
ghost use Rattle.rule_words.specs.Scenes.{sight, IsScene, told_by, IfFound, type_in, IsTypeOf, MayBeTypeOf, parts_in, AreSeenOf};
ghost use Rattle.builtin_rules.specs.Musts.{second_copied, or_itself, pointed, measured_base, measured_ask, looks_through, shape_ask, is_met};

use crate::arguments::argument_at;
use crate::lines::Must;
use crate::shapes::{copies, has_capacity, has_length, is_array, is_map, is_sender, is_slice};
use crate::sizes::is_made;
use crate::types::base_of;
use rule_words::{Seen, under_of};
use type_model::TypeId;
use type_questions::Found;
use typed_marks::{Item, State};
use unit_read::Subject;

// ---- `copy`

fn second_copied(s: &State, parts: &[Seen], of: TypeId) -> bool
    requires basics { HasBasics s.now.table }
    requires parts { AreSeenOf s.now parts.now }
    requires of { IsTypeOf s.now of }
    ensures { result ≡ second_copied (parts_in s.now parts.now) (type_in s.now of) }
{
    match argument_at(s, parts, 2) {
        Some(a) => copies(s, of, a.under),
        None => false,
    }
}

// ---- E55

fn or_itself(s: &State, of: TypeId, under: TypeId) -> TypeId
    requires basics { HasBasics s.now.table }
    requires of { IsTypeOf s.now of }
    requires under { IsTypeOf s.now under }
    ensures is { type_in s.now result ≡ or_itself (type_in s.now of) (type_in s.now under) }
    ensures within { IsTypeOf s.now result }
{
    if is_array(s, under) { under } else { of }
}

fn pointed(s: &State, of: TypeId, under: Option<TypeId>) -> Option<TypeId>
    requires basics { HasBasics s.now.table }
    requires of { IsTypeOf s.now of }
    requires under { MayBeTypeOf s.now under }
    ensures is { option_map (type_in s.now) result ≡ pointed (type_in s.now of) (option_map (type_in s.now) under) }
    ensures within { MayBeTypeOf s.now result }
{
    match under {
        Some(under) => Some(or_itself(s, of, under)),
        None => None,
    }
}

#[tactic(auto, using(rule_words::proofs::BindLaws::says_bind, rule_words::proofs::BindLaws::waits_bind))]
fn measured_base(u: &Subject, s: &State, of: TypeId, base: TypeId) -> Found<Option<TypeId>, Item>
    requires scene { IsScene u.now s.now }
    requires of { IsTypeOf s.now of }
    requires base { IsTypeOf s.now base }
    ensures is { told_by (option_map (type_in s.now)) result ≡ tell (sight s.now) (measured_base (unit_of u.now) (type_in s.now of) (type_in s.now base)) }
    ensures within { IfFound result (MayBeTypeOf s.now) }
{
    match under_of(u, s, base) {
        Found::Is(under) => Found::Is(pointed(s, of, under)),
        Found::Wait(item) => Found::Wait(item),
    }
}

/// What is looked at of a type that may be a pointer to an array.
#[tactic(auto, unfolding(crate::specs::Musts::measured_ask))]
fn measured(u: &Subject, s: &State, of: TypeId) -> Found<Option<TypeId>, Item>
    requires scene { IsScene u.now s.now }
    requires of { IsTypeOf s.now of }
    ensures is { told_by (option_map (type_in s.now)) result ≡ tell (sight s.now) (measured_ask (unit_of u.now) (type_in s.now of)) }
    ensures within { IfFound result (MayBeTypeOf s.now) }
{
    match base_of(s, of) {
        Some(base) => measured_base(u, s, of, base),
        None => Found::Is(Some(of)),
    }
}

fn looks_through(must: Must) -> bool
    ensures { result ≡ looks_through must }
{
    match must {
        Must::Measured => true,
        Must::Capacious => true,
        _ => false,
    }
}

/// The type that is looked at, from the underlying type of the first argument.
#[tactic(auto, unfolding(crate::specs::Musts::shape_ask))]
pub fn shape(u: &Subject, s: &State, must: Must, under: TypeId) -> Found<Option<TypeId>, Item>
    requires scene { IsScene u.now s.now }
    requires under { IsTypeOf s.now under }
    ensures is { told_by (option_map (type_in s.now)) result ≡ tell (sight s.now) (shape_ask (unit_of u.now) must (type_in s.now under)) }
    ensures within { IfFound result (MayBeTypeOf s.now) }
{
    if looks_through(must) {
        measured(u, s, under)
    } else {
        Found::Is(Some(under))
    }
}

/// Whether the arguments are what they must be, where this type is looked at.
#[tactic(auto, unfolding(crate::specs::Musts::is_met))]
pub fn is_met(s: &State, must: Must, parts: &[Seen], of: TypeId) -> bool
    requires basics { HasBasics s.now.table }
    requires parts { AreSeenOf s.now parts.now }
    requires of { IsTypeOf s.now of }
    ensures { result ≡ is_met must (parts_in s.now parts.now) (type_in s.now of) }
{
    match must {
        Must::Anything => true,
        Must::Good => true,
        Must::Slice => is_slice(s, of),
        Must::Map => is_map(s, of),
        Must::Sender => is_sender(s, of),
        Must::Measured => has_length(s, of),
        Must::Capacious => has_capacity(s, of),
        Must::Pair => second_copied(s, parts, of),
        Must::Made => is_made(s, parts, of),
    }
}
