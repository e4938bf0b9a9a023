//! Whether an untyped constant is representable in the type that it takes (Go 1.17, "Representability").
ghost use Rattle.std.specs.Prelude.{◌≡◌, ◌&&◌, not, true, option_map, Some};
ghost use Rattle.mark_walk.specs.Telling.{tell};
ghost use Rattle.type_rel.specs.Kinds.{is_integer};
ghost use Rattle.typed_tree.specs.Basics.{HasBasics};
ghost use Rattle.typed_tree.specs.Operands.{fits_in};
ghost use Rattle.typed_marks.specs.Meanings.{constant_at};
ghost use Rattle.unit_read.specs.Subjects.{unit_of};
ghost use Rattle.rule_words.specs.Answers.{is_plain};
ghost use Rattle.rule_words.specs.Scenes.{sight, IsScene, told_by, IfFound, said, IsMarkOf, type_in, IsTypeOf, MayBeTypeOf};
ghost use Rattle.rule_words.specs.Good.{AreFactsOf, known_of};
ghost use Rattle.rule_words.specs.Types.{is_of};
ghost use Rattle.op_rules.specs.Placed.{is_whole, overflows, goes_into, overflowing, represented_value, represented};

use gv_base::{Const, Kind};
use rule_words::types::{is_untyped, kind_of};
use rule_words::under_of;
use rule_words::values::{fits_in, value_at};
use type_model::TypeId;
use type_questions::Found;
use type_rel::has_integers;
use typed_marks::{ConstId, Facts, Item, Mark, State};
use typed_tree::CONSTANT_OVERFLOW;
use unit_read::Subject;

fn is_whole(c: &Const) -> bool
    ensures { result ≡ is_whole c.now }
{
    match c {
        Const::Int(_) => true,
        Const::Truth(_) => false,
        Const::Text(_) => false,
    }
}

fn leaves_out(c: &Const, kind: Kind) -> bool
    ensures { result ≡ (is_integer kind && not (fits_in c.now kind)) }
{
    has_integers(kind) && !fits_in(c, kind)
}

/// An integer that isn't representable in an integer type.
#[tactic(auto, unfolding(crate::specs::Placed::overflows))]
fn overflows(c: &Const, kind: Kind) -> bool
    ensures { result ≡ overflows c.now kind }
{
    is_whole(c) && leaves_out(c, kind)
}

#[tactic(auto, unfolding(rule_words::specs::Types::is_of))]
fn overflows_type(s: &State, c: &Const, under: TypeId) -> bool
    requires basics { HasBasics s.now.table }
    requires under { IsTypeOf s.now under }
    ensures { result ≡ is_of (overflows c.now) (type_in s.now under) }
{
    match kind_of(s, under) {
        Some(kind) => overflows(c, kind),
        None => false,
    }
}

#[tactic(auto, unfolding(crate::specs::Placed::goes_into))]
fn goes_into(s: &State, c: &Const, under: TypeId) -> bool
    requires basics { HasBasics s.now.table }
    requires under { IsTypeOf s.now under }
    ensures { result ≡ goes_into c.now (type_in s.now under) }
{
    !overflows_type(s, c, under)
}

fn overflowing(s: &State, x: Facts, c: &Const, under: Option<TypeId>) -> Mark
    requires basics { HasBasics s.now.table }
    requires facts { AreFactsOf s.now x }
    requires under { MayBeTypeOf s.now under }
    ensures is { said s.now result ≡ overflowing (known_of s.now x) c.now (option_map (type_in s.now) under) }
    ensures over { IsMarkOf s.now result }
    ensures plain { is_plain result ≡ true }
{
    let Some(under) = under else {
        return Mark::Silent;
    };
    // E30
    if !goes_into(s, c, under) {
        return Mark::Bad(CONSTANT_OVERFLOW);
    }
    Mark::Good(x)
}

fn represented_in(u: &Subject, s: &State, x: Facts, c: &Const) -> Found<Mark, Item>
    requires scene { IsScene u.now s.now }
    requires facts { AreFactsOf s.now x }
    ensures is { told_by (said s.now) result ≡ tell (sight s.now) (represented_value (unit_of u.now) (known_of s.now x) (Some c.now)) }
    ensures over { IfFound result (λ m. IsMarkOf s.now m × (is_plain m ≡ true)) }
{
    match under_of(u, s, x.last) {
        Found::Is(under) => Found::Is(overflowing(s, x, c, under)),
        Found::Wait(item) => Found::Wait(item),
    }
}

fn represented_value(u: &Subject, s: &State, x: Facts, value: Option<ConstId>) -> Found<Mark, Item>
    requires scene { IsScene u.now s.now }
    requires facts { AreFactsOf s.now x }
    ensures is { told_by (said s.now) result ≡ tell (sight s.now) (represented_value (unit_of u.now) (known_of s.now x) (constant_at s.now.constants.items value)) }
    ensures over { IfFound result (λ m. IsMarkOf s.now m × (is_plain m ≡ true)) }
{
    match value_at(s, value) {
        Some(c) => represented_in(u, s, x, c),
        None => Found::Is(Mark::Good(x)),
    }
}

/// An untyped constant is representable in the type that it takes.
pub fn represented(u: &Subject, s: &State, x: Facts) -> Found<Mark, Item>
    requires scene { IsScene u.now s.now }
    requires facts { AreFactsOf s.now x }
    ensures is { told_by (said s.now) result ≡ tell (sight s.now) (represented (unit_of u.now) (known_of s.now x)) }
    ensures over { IfFound result (λ m. IsMarkOf s.now m × (is_plain m ≡ true)) }
{
    if is_untyped(s, x.of) {
        represented_value(u, s, x, x.value)
    } else {
        Found::Is(Mark::Good(x))
    }
}
