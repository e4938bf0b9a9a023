//! Shifts by any count (Go 1.17, "Integer operators").
ghost use Rattle.std.specs.Prelude.{◌≡◌, ◌≤ℤ◌, ◌≤◌, ◌<◌, ◌^◌, ◌*ℤ◌, pos, unsigned_abs};
ghost use Rattle.std.specs.Int.{int_shr};
ghost use Rattle.const_eval.specs.Answers.{whole};
ghost use Rattle.const_eval.specs.Integers.{shift_left, shift_right};

use crate::answer::{ConstAnswer, narrow};
use crate::integer::product;

/// The bits of an integer without its sign.
const BITS: i128 = 127;

pub fn left(x: i128, count: i128) -> ConstAnswer
    ensures { result ≡ shift_left x count }
{
    if count < 0 {
        return ConstAnswer::BadOperands;
    }
    if count < BITS {
        return product(x, power(count));
    }
    left_far(x, count)
}

fn power(count: i128) -> i128
    requires low { pos 0 ≤ℤ count }
    requires high { unsigned_abs count < 127 }
    ensures { result ≡ pos (2 ^ unsigned_abs count) }
{
    1 << count
}

/// -1 alone has room for 127 more places, and 0 for any number.
fn left_far(x: i128, count: i128) -> ConstAnswer
    requires { pos 127 ≤ℤ count }
    ensures { result ≡ whole (x *ℤ pos (2 ^ unsigned_abs count)) }
{
    if x == 0 {
        return narrow(0);
    }
    if x == -1 && count == BITS {
        return narrow(i128::MIN);
    }
    ConstAnswer::Wide
}

pub fn right(x: i128, count: i128) -> ConstAnswer
    ensures { result ≡ shift_right x count }
{
    if count < 0 {
        return ConstAnswer::BadOperands;
    }
    if count < BITS {
        return narrow(right_near(x, count));
    }
    narrow(right_far(x, count))
}

fn right_near(x: i128, count: i128) -> i128
    requires low { pos 0 ≤ℤ count }
    requires high { unsigned_abs count < 127 }
    ensures { result ≡ int_shr x (unsigned_abs count) }
{
    x >> count
}

/// Nothing but the sign is left.
fn right_far(x: i128, count: i128) -> i128
    requires { pos 127 ≤ℤ count }
    ensures { result ≡ int_shr x (unsigned_abs count) }
{
    if x < 0 { -1 } else { 0 }
}
