//! The set of a directive's flags.
ghost use Rattle.std.specs.Prelude.{◌≡◌, ◌≤◌};
ghost use Rattle.printf_format.specs.Flags.{weight_of, flags_of};

/// The weight, if the flag stands among the bytes.
fn weight_of(bytes: &[u8], flag: u8, weight: u8) -> u8
    ensures value { result ≡ weight_of bytes.now flag weight }
    ensures most { result ≤ weight }
{
    if bytes.contains(&flag) { weight } else { 0 }
}

/// The set of the flags among the bytes.
pub(crate) fn flags_of(bytes: &[u8]) -> u8
    ensures { result ≡ flags_of bytes.now }
{
    weight_of(bytes, b'+', 1)
        + weight_of(bytes, b'-', 2)
        + weight_of(bytes, b'#', 4)
        + weight_of(bytes, b'0', 8)
        + weight_of(bytes, b' ', 16)
}
