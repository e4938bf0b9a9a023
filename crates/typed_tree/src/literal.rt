//! Literals (Go 1.17, "Integer literals", "Rune literals" and "String literals").
ghost use Rattle.std.specs.Prelude.{IfOk};
ghost use Rattle.typed_tree.specs.Basics.{Says};
ghost use Rattle.typed_tree.specs.Constants.{text_mark, int_literal_mark, rune_literal_mark, text_literal_mark};

use crate::constants::constant_mark;
use crate::mark::Mark;
use crate::rule::Limit;
use go_tree::{IntValue, int_value, rune_value, text_value};
use gv_base::{Const, ConstText, Kind, NoMemory};
use std::alloc::Global;

/// The mark of an integer literal, from its bytes.
pub fn judge_int(bytes: &[u8]) -> Mark
    ensures { Says result (int_literal_mark bytes.now) }
{
    match int_value(bytes) {
        IntValue::Value(n) => constant_mark(Kind::UntypedInt, Const::Int(n)),
        IntValue::Wide => Mark::Outside(Limit::Wide),
    }
}

/// The mark of a rune literal, from its bytes.
pub fn judge_rune(bytes: &[u8]) -> Mark
    ensures { Says result (rune_literal_mark bytes.now) }
{
    constant_mark(Kind::UntypedRune, Const::Int(rune_value(bytes) as i128))
}

/// The mark of a text.
fn text_mark(text: Vec<u8>) -> Mark
    ensures { Says result (text_mark text.items) }
{
    if text.len() > ConstText::LIMIT {
        return Mark::Outside(Limit::LongText);
    }
    constant_mark(Kind::UntypedText, Const::Text(ConstText::new(text)))
}

/// The mark of a text literal, from its bytes.
pub fn judge_text(alloc: Global, bytes: &[u8]) -> Result<Mark, NoMemory>
    ensures { IfOk result (λ m. Says m (text_literal_mark bytes.now)) }
{
    let text = text_value(alloc, bytes)?;
    Ok(text_mark(text))
}
