//! The operators on bits, over two's complement (Go 1.17, "Integer operators").
ghost use Rattle.std.specs.Prelude.{◌≡◌};
ghost use Rattle.const_eval.specs.Bits.{and_of, or_of, xor_of, and_not_of, complement_of, AndsDigits, OrsDigits, XorsDigits, ComplementsDigits};

pub fn and(x: i128, y: i128) -> i128
    ensures value { result ≡ and_of x y }
    ensures digits { AndsDigits x y result }
{
    x & y
}

pub fn or(x: i128, y: i128) -> i128
    ensures value { result ≡ or_of x y }
    ensures digits { OrsDigits x y result }
{
    x | y
}

pub fn xor(x: i128, y: i128) -> i128
    ensures value { result ≡ xor_of x y }
    ensures digits { XorsDigits x y result }
{
    x ^ y
}

pub fn complement(x: i128) -> i128
    ensures value { result ≡ complement_of x }
    ensures digits { ComplementsDigits x result }
{
    !x
}

pub fn and_not(x: i128, y: i128) -> i128
    ensures { result ≡ and_not_of x y }
{
    and(x, complement(y))
}
