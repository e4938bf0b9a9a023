//! Operands of operators.
ghost use Rattle.std.specs.Prelude.{◌≡◌, option_map, IfSome};
ghost use Rattle.typed_tree.specs.Basics.{HasBasics};
ghost use Rattle.typed_marks.specs.Meanings.{known_in, AreWithin};
ghost use Rattle.type_model.specs.Tables.{types_in, count};
ghost use Rattle.std.specs.Prelude.{length};
ghost use Rattle.rule_words.specs.Scenes.{type_in, MayBeTypeOf, part_in, IsSeenOf};
ghost use Rattle.op_rules.specs.Operands.{operand_of, operand_at};
ghost use Rattle.op_rules.specs.InCode.{operand_in, IsOperandOf};

use rule_words::Seen;
use rule_words::types::counted;
use type_model::TypeId;
use typed_marks::{ConstId, Facts, Mark, State};

/// An operand: its type, its value where it is a constant, the type at which operators count it, and the underlying type of its final type.
#[derive(Clone, Copy, PartialEq, Eq, Drop)]
pub struct Operand {
    pub of: TypeId,
    pub value: Option<ConstId>,
    pub at: TypeId,
    pub under: TypeId,
}

fn known_operand(s: &State, x: Facts, under: Option<TypeId>) -> Option<Operand>
    requires basics { HasBasics s.now.table }
    requires facts { AreWithin (count s.now.table) (length s.now.constants.items) x }
    requires under { MayBeTypeOf s.now under }
    ensures is { option_map (operand_in s.now) result ≡ option_map (operand_of (known_in (types_in s.now.table) s.now.constants.items x)) (option_map (type_in s.now) under) }
    ensures within { IfSome result (IsOperandOf s.now) }
{
    match under {
        Some(under) => Some(Operand {
            of: x.of,
            value: x.value,
            at: counted(s, x.of, under),
            under,
        }),
        None => None,
    }
}

/// The operand that a part is, where it is good.
#[tactic(auto, unfolding(crate::specs::Operands::operand_at))]
pub fn operand_at(s: &State, p: Seen) -> Option<Operand>
    requires basics { HasBasics s.now.table }
    requires part { IsSeenOf s.now p }
    ensures is { option_map (operand_in s.now) result ≡ operand_at (part_in s.now p) }
    ensures within { IfSome result (IsOperandOf s.now) }
{
    match p.mark {
        Mark::Good(x) => known_operand(s, x, p.under),
        Mark::Bad(_) => None,
        Mark::Outside(_) => None,
        Mark::Silent => None,
        Mark::Wants(_, _) => None,
        Mark::Declared(_) => None,
    }
}
