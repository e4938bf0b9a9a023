//! Operands of primary expressions, and what these give.
ghost use Rattle.std.specs.Prelude.{◌≡◌, true, option_map, IfSome};
ghost use Rattle.rule_words.specs.Answers.{answer_in, IsAnswerOf};
ghost use Rattle.rule_words.specs.Scenes.{type_in, IsTypeOf, MayBeTypeOf, part_in, IsSeenOf};
ghost use Rattle.rule_words.specs.Good.{AreFactsOf, known_of};
ghost use Rattle.primary_rules.specs.InCode.{operand_in, IsOperandOf};
ghost use Rattle.primary_rules.specs.Operands.{operand_of, operand_at, is_variable, part_mode, standing};

use rule_words::{Answer, Seen};
use type_model::TypeId;
use typed_marks::{ConstId, Facts, Mark, State};
use typed_tree::Mode;

/// An operand: what it stands for, its type, its value where it is a constant, its final type and the underlying type of that.
#[derive(Clone, Copy, PartialEq, Eq, Drop)]
pub struct Operand {
    pub mode: Mode,
    pub of: TypeId,
    pub value: Option<ConstId>,
    pub last: TypeId,
    pub under: TypeId,
}

// ---- parts

fn known_operand(s: &State, x: Facts, under: Option<TypeId>) -> Option<Operand>
    requires facts { AreFactsOf s.now x }
    requires under { MayBeTypeOf s.now under }
    ensures is { option_map (operand_in s.now) result ≡ option_map (operand_of (known_of s.now x)) (option_map (type_in s.now) under) }
    ensures within { IfSome result (IsOperandOf s.now) }
{
    match under {
        Some(under) => Some(Operand {
            mode: x.mode,
            of: x.of,
            value: x.value,
            last: x.last,
            under,
        }),
        None => None,
    }
}

/// The operand that a part is, where it is good.
#[tactic(auto, unfolding(crate::specs::Operands::operand_at))]
pub fn operand_at(s: &State, p: Seen) -> Option<Operand>
    requires { IsSeenOf s.now p }
    ensures is { option_map (operand_in s.now) result ≡ operand_at (part_in s.now p) }
    ensures within { IfSome result (IsOperandOf s.now) }
{
    match p.mark {
        Mark::Good(x) => known_operand(s, x, p.under),
        Mark::Bad(_) => None,
        Mark::Outside(_) => None,
        Mark::Silent => None,
        Mark::Wants(_, _) => None,
        Mark::Declared(_) => None,
    }
}

// ---- modes

/// What stands for a variable has an address.
pub fn is_variable(mode: Mode) -> bool
    ensures { result ≡ is_variable mode }
{
    match mode {
        Mode::Variable => true,
        Mode::NoValue => false,
        Mode::TypeName => false,
        Mode::Constant => false,
        Mode::MapIndex => false,
        Mode::Value => false,
        Mode::CommaOk => false,
        Mode::Nil => false,
        Mode::Builtin => false,
        Mode::Package => false,
        Mode::Many => false,
    }
}

/// A part of a variable is one.
pub fn part_mode(addressable: bool) -> Mode
    ensures { result ≡ part_mode addressable }
{
    if addressable {
        Mode::Variable
    } else {
        Mode::Value
    }
}

// ---- kinds

// ---- answers

/// What has this type, which is its final type too.
pub fn standing(s: &State, mode: Mode, of: TypeId) -> Answer
    requires { IsTypeOf s.now of }
    ensures is { answer_in s.now result ≡ standing mode (type_in s.now of) }
    ensures over { IsAnswerOf s.now result }
{
    Answer::Mark(Mark::Good(Facts {
        mode,
        of,
        value: None,
        last: of,
    }))
}
