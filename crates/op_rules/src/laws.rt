//! What the tests of operators stand for, for those who reason about them. The functions do nothing.
ghost use Rattle.op_rules.specs.Loose.{GoesAsAssigned, BasicsAreApart};

/// An untyped operand that is no shift goes beside a typed one exactly where it is assignable to its type.
pub fn what_goes_beside_is_assignable()
    ensures { GoesAsAssigned }
{}

/// Of two types whose underlying types are basic a typed value of the one is assignable to the other only where they are identical.
pub fn basic_types_are_apart()
    ensures { BasicsAreApart }
{}
