//! Typed operands of different types (Go 1.17, "Operators", "Comparison operators").
ghost use Rattle.std.specs.Prelude.{◌≡◌};
ghost use Rattle.rule_words.specs.Scenes.{sight};
ghost use Rattle.mark_walk.specs.Telling.{tell};
ghost use Rattle.typed_tree.specs.Basics.{HasBasics};
ghost use Rattle.rule_words.specs.Steps.{step_in, IsStepOf, pair_in, IsPairOf};
ghost use Rattle.rule_words.specs.Wishes.{IsWishOf, wish_of};
ghost use Rattle.op_rules.specs.Binary.{pair_of, pair_ask, are_basic, is_open, different};
ghost use Rattle.op_rules.specs.InCode.{operand_in, IsOperandOf};

use crate::comparing::truth;
use crate::operand::Operand;
use crate::operators::equates;
use crate::types::is_basic;
use const_eval::Operator;
use rule_words::answered::bad;
use rule_words::types::is_interface;
use rule_words::{Asked, Pair, Rest, Step};
use typed_marks::{State, Want};
use typed_tree::MISMATCHED_OPERANDS;

#[tactic(auto, unfolding(crate::specs::Binary::pair_of))]
fn pair_of(s: &State, x: Operand, y: Operand, want: Want) -> Pair
    requires basics { HasBasics s.now.table }
    requires first { IsOperandOf s.now x }
    requires second { IsOperandOf s.now y }
    requires want { IsWishOf s.now want }
    ensures is { pair_in s.now result ≡ pair_of (operand_in s.now x) (operand_in s.now y) (wish_of s.now want) }
    ensures over { IsPairOf s.now result }
{
    Pair {
        x: x.of,
        y: y.of,
        x_interface: is_interface(s, x.at),
        y_interface: is_interface(s, y.at),
        good: truth(s, want),
    }
}

/// Whether the first is assignable to the second is asked first.
#[tactic(auto, unfolding(crate::specs::Binary::pair_ask))]
fn ask_pair(s: &State, p: Pair) -> Step
    requires pair { IsPairOf s.now p }
    ensures is { step_in s.now result ≡ tell (sight s.now) (pair_ask (pair_in s.now p)) }
    ensures over { IsStepOf s.now result }
{
    if p.y_interface {
        Step::Puts(Asked::Methods(p.x), Rest::EitherBy(p))
    } else {
        Step::Puts(Asked::Assignable(p.x, None, p.y), Rest::Either(p))
    }
}

#[tactic(auto, unfolding(crate::specs::Binary::are_basic))]
fn are_basic(s: &State, x: Operand, y: Operand) -> bool
    requires basics { HasBasics s.now.table }
    requires first { IsOperandOf s.now x }
    requires second { IsOperandOf s.now y }
    ensures { result ≡ are_basic (operand_in s.now x) (operand_in s.now y) }
{
    is_basic(s, x.at) && is_basic(s, y.at)
}

#[tactic(auto, unfolding(crate::specs::Binary::is_open))]
fn is_open(s: &State, op: Operator, x: Operand, y: Operand) -> bool
    requires basics { HasBasics s.now.table }
    requires first { IsOperandOf s.now x }
    requires second { IsOperandOf s.now y }
    ensures { result ≡ is_open op (operand_in s.now x) (operand_in s.now y) }
{
    equates(op) && !are_basic(s, x, y)
}

/// E33, E35.
#[tactic(auto, unfolding(crate::specs::Binary::different))]
pub fn judge_different(s: &State, op: Operator, x: Operand, y: Operand, want: Want) -> Step
    requires basics { HasBasics s.now.table }
    requires first { IsOperandOf s.now x }
    requires second { IsOperandOf s.now y }
    requires want { IsWishOf s.now want }
    ensures is { step_in s.now result ≡ tell (sight s.now) (different op (operand_in s.now x) (operand_in s.now y) (wish_of s.now want)) }
    ensures over { IsStepOf s.now result }
{
    // E33
    if !is_open(s, op, x, y) {
        return Step::Says(bad(MISMATCHED_OPERANDS));
    }
    let p = pair_of(s, x, y, want);
    ask_pair(s, p)
}
