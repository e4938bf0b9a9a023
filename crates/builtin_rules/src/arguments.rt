//! Good arguments of built-in functions.
ghost use Rattle.std.specs.Prelude.{◌≡◌, ◌&&◌, length, nat_le, option_map, IfSome};
ghost use Rattle.rule_words.specs.Scenes.{type_in, MayBeTypeOf, part_in, parts_in, IsSeenOf, AreSeenOf};
ghost use Rattle.rule_words.specs.Good.{AreFactsOf, known_of};
ghost use Rattle.builtin_rules.specs.InCode.{argument_in, IsArgumentOf};
ghost use Rattle.builtin_rules.specs.Musts.{known_argument, good_argument, argument_at, is_there, is_fine, are_known};

use crate::lines::Must;
use crate::parts::part_count;
use rule_words::Seen;
use rule_words::good::part_at;
use type_model::TypeId;
use typed_marks::{ConstId, Facts, Mark, State};

/// A good argument, with the underlying type of its final type.
#[derive(Clone, Copy, Drop)]
pub struct Argument {
    pub of: TypeId,
    pub value: Option<ConstId>,
    pub under: TypeId,
}

fn known_argument(s: &State, under: Option<TypeId>, x: Facts) -> Option<Argument>
    requires under { MayBeTypeOf s.now under }
    requires facts { AreFactsOf s.now x }
    ensures is { option_map (argument_in s.now) result ≡ known_argument (option_map (type_in s.now) under) (known_of s.now x) }
    ensures within { IfSome result (IsArgumentOf s.now) }
{
    let _ = s;
    match under {
        Some(under) => Some(Argument {
            of: x.of,
            value: x.value,
            under,
        }),
        None => None,
    }
}

fn good_argument(s: &State, p: Seen) -> Option<Argument>
    requires { IsSeenOf s.now p }
    ensures is { option_map (argument_in s.now) result ≡ good_argument (part_in s.now p).under (part_in s.now p).mark }
    ensures within { IfSome result (IsArgumentOf s.now) }
{
    match p.mark {
        Mark::Good(x) => known_argument(s, p.under, x),
        Mark::Bad(_) => None,
        Mark::Outside(_) => None,
        Mark::Silent => None,
        Mark::Wants(_, _) => None,
        Mark::Declared(_) => None,
    }
}

/// An argument, if it is good.
#[tactic(auto, unfolding(crate::specs::Musts::argument_at))]
pub fn argument_at(s: &State, parts: &[Seen], slot: usize) -> Option<Argument>
    requires { AreSeenOf s.now parts.now }
    ensures is { option_map (argument_in s.now) result ≡ argument_at (parts_in s.now parts.now) slot }
    ensures within { IfSome result (IsArgumentOf s.now) }
{
    good_argument(s, part_at(s, parts, slot))
}

fn is_there(s: &State, parts: &[Seen], slot: usize) -> bool
    requires { AreSeenOf s.now parts.now }
    ensures { result ≡ is_there (parts_in s.now parts.now) slot }
{
    match argument_at(s, parts, slot) {
        Some(_) => true,
        None => false,
    }
}

fn ends_before(s: &State, parts: &[Seen], slot: usize) -> bool
    ensures { result ≡ nat_le (length (parts_in s.now parts.now)) slot }
{
    part_count(s, parts) <= slot
}

/// An argument that was given is good.
fn is_fine(s: &State, parts: &[Seen], slot: usize) -> bool
    requires { AreSeenOf s.now parts.now }
    ensures { result ≡ is_fine (parts_in s.now parts.now) slot }
{
    ends_before(s, parts, slot) || is_there(s, parts, slot)
}

fn are_there(s: &State, parts: &[Seen]) -> bool
    requires { AreSeenOf s.now parts.now }
    ensures { result ≡ (is_there (parts_in s.now parts.now) 1 && is_there (parts_in s.now parts.now) 2) }
{
    is_there(s, parts, 1) && is_there(s, parts, 2)
}

fn are_fine(s: &State, parts: &[Seen]) -> bool
    requires { AreSeenOf s.now parts.now }
    ensures { result ≡ (is_fine (parts_in s.now parts.now) 2 && is_fine (parts_in s.now parts.now) 3) }
{
    is_fine(s, parts, 2) && is_fine(s, parts, 3)
}

fn all_fine(s: &State, parts: &[Seen]) -> bool
    requires { AreSeenOf s.now parts.now }
    ensures { result ≡ (is_there (parts_in s.now parts.now) 1 && (is_fine (parts_in s.now parts.now) 2 && is_fine (parts_in s.now parts.now) 3)) }
{
    is_there(s, parts, 1) && are_fine(s, parts)
}

/// Whether the arguments on which a test rests are good.
#[tactic(auto, unfolding(crate::specs::Musts::are_known))]
pub fn are_known(s: &State, must: Must, parts: &[Seen]) -> bool
    requires { AreSeenOf s.now parts.now }
    ensures { result ≡ are_known must (parts_in s.now parts.now) }
{
    match must {
        Must::Anything => true,
        Must::Pair => are_there(s, parts),
        Must::Made => all_fine(s, parts),
        Must::Good => is_there(s, parts, 1),
        Must::Slice => is_there(s, parts, 1),
        Must::Map => is_there(s, parts, 1),
        Must::Sender => is_there(s, parts, 1),
        Must::Measured => is_there(s, parts, 1),
        Must::Capacious => is_there(s, parts, 1),
    }
}
