//! The kinds of a function as a number, from three tests.
ghost use Rattle.std.specs.Prelude.{◌≡◌, ◌≤◌, ◌+◌, if◌then◌else◌};
ghost use Rattle.vet_printf.specs.Kinds.{weight, kinds_number};

fn weight(holds: bool, number: u8) -> u8
    ensures is { result ≡ weight holds number }
    ensures most { result ≤ number }
{
    if holds { number } else { 0 }
}

/// 1 for print, 2 for printf and 4 for errorf, added.
pub(crate) fn kinds_number(print: bool, printf: bool, errorf: bool) -> u8
    ensures { result ≡ kinds_number print printf errorf }
{
    weight(print, 1) + (weight(printf, 2) + weight(errorf, 4))
}
