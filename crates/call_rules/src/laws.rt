//! What the tests of conversions stand for, for those who reason about them. The functions do nothing.
ghost use Rattle.call_rules.specs.Laws.{ConstantsConvert};

/// A constant is converted to a type with a basic underlying type where it is convertible to it, and there alone: else E53.
pub fn constants_are_converted_where_convertible()
    ensures { ConstantsConvert }
{}
