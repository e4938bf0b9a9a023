//! What places wish.
ghost use Rattle.std.specs.Prelude.{◌≡◌};
ghost use Rattle.mark_walk.specs.Telling.{tell};
ghost use Rattle.typed_tree.specs.Basics.{HasBasics};
ghost use Rattle.unit_read.specs.Subjects.{unit_of};
ghost use Rattle.rule_words.specs.Scenes.{sight, IsScene, told_by, IfFound, said, IsMarkOf, type_in, IsTypeOf};
ghost use Rattle.rule_words.specs.Wishes.{wish_of, IsWishOf, default_of, fitting_default, before};

use crate::good::basic_type;
use crate::marks::look;
use crate::types::kind_of;
use crate::wanted::default_kind;
use go_tree::Node;
use package_objects::part_of;
use type_model::TypeId;
use type_questions::Found;
use typed_marks::{Item, Mark, Stage, State, Want};
use typed_tree::Want as Demand;
use unit_read::Subject;

/// Nothing is known of what stands there.
pub fn nothing_wanted() -> Mark
    ensures { result ≡ Mark.Wants Demand.Nothing Want.Free }
{
    Mark::Wants(Demand::Nothing, Want::Free)
}

/// A single value.
pub fn operand(want: Want) -> Mark
    ensures { result ≡ Mark.Wants Demand.Operand want }
{
    Mark::Wants(Demand::Operand, want)
}

/// The default type of an untyped operand, which what stands around tests.
pub fn default_of(s: &State, of: TypeId) -> Want
    requires basics { HasBasics s.now.table }
    requires of { IsTypeOf s.now of }
    ensures is { wish_of s.now result ≡ default_of (type_in s.now of) }
    ensures within { IsWishOf s.now result }
{
    match kind_of(s, of) {
        Some(kind) => Want::Takes(basic_type(s, default_kind(kind))),
        None => Want::Free,
    }
}

/// The default type of an untyped operand, in which a constant is representable.
pub fn fitting_default(s: &State, of: TypeId) -> Want
    requires basics { HasBasics s.now.table }
    requires of { IsTypeOf s.now of }
    ensures is { wish_of s.now result ≡ fitting_default (type_in s.now of) }
    ensures within { IsWishOf s.now result }
{
    match kind_of(s, of) {
        Some(kind) => Want::Fits(basic_type(s, default_kind(kind))),
        None => Want::Free,
    }
}

/// A part before anything is wanted of it.
#[tactic(auto, unfolding(crate::specs::Wishes::before))]
pub fn before(u: &Subject, s: &State, block: usize, around: &Node, slot: usize) -> Found<Mark, Item>
    requires scene { IsScene u.now s.now }
    ensures is { told_by (said s.now) result ≡ tell (sight s.now) (before (unit_of u.now) block around.now slot) }
    ensures over { IfFound result (IsMarkOf s.now) }
{
    match part_of(around, slot) {
        Some(n) => look(u, s, Stage::Before, block, n),
        None => Found::Is(Mark::Silent),
    }
}
