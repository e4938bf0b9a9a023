//! What the place of an expression wants of it, and a blank there.
ghost use Rattle.typed_tree.specs.Basics.{Says};
ghost use Rattle.typed_tree.specs.Places.{blank_mark};

use crate::mark::Mark;
use crate::rule::{BLANK_USED_AS_VALUE, NOT_A_TYPE};

/// What a place wants of the expression that stands there (Go 1.17, "Expressions").
#[derive(Clone, Copy, Debug, PartialEq, Eq, Drop)]
pub enum Want {
    /// Nothing.
    Nothing,
    /// A value, a type or a built-in function: between parentheses.
    Inside,
    /// What has members: a value, a type or a package, before the dot of a selector.
    Owner,
    /// A single value: an operand.
    Operand,
    /// A single value that isn't nil: a shift count.
    Count,
    /// A type.
    Type,
    /// A type, or nil: a case of a type switch.
    Case,
    /// A constant, of the declared type where there is one.
    Constant,
}

/// The mark of a blank at a place: E10 where a type is wanted, else E17.
pub fn judge_blank(want: Want) -> Mark
    ensures { Says result (blank_mark want) }
{
    match want {
        // E10
        Want::Type => Mark::Bad(NOT_A_TYPE),
        Want::Case => Mark::Bad(NOT_A_TYPE),
        // E17
        Want::Nothing => Mark::Bad(BLANK_USED_AS_VALUE),
        Want::Inside => Mark::Bad(BLANK_USED_AS_VALUE),
        Want::Owner => Mark::Bad(BLANK_USED_AS_VALUE),
        Want::Operand => Mark::Bad(BLANK_USED_AS_VALUE),
        Want::Count => Mark::Bad(BLANK_USED_AS_VALUE),
        Want::Constant => Mark::Bad(BLANK_USED_AS_VALUE),
    }
}
