//! Whether the errors of a reply are those that comments expect.
ghost use Rattle.std.specs.Prelude.{◌↔◌, IsTrue};
ghost use Rattle.check_cases.specs.Comparison.{IsColumn, Meets, AreMet};

use crate::expected::Expected;
use crate::found::Found;

/// The column is the one that is expected, if one is.
fn is_column(wanted: Option<u64>, column: u64) -> bool
    ensures { IsTrue result ↔ IsColumn wanted column }
{
    match wanted {
        Some(wanted) => wanted == column,
        None => true,
    }
}

/// The error is the one that is expected: by path, line, text, and column where one is given.
pub fn meets(wanted: &Expected<'_>, error: &Found<'_>) -> bool
    ensures { IsTrue result ↔ Meets wanted.now error.now }
{
    if wanted.path != error.path {
        return false;
    }
    if wanted.line != error.line {
        return false;
    }
    if wanted.text != error.text {
        return false;
    }
    is_column(wanted.column, error.column)
}

/// The errors are exactly those that are expected, in their order.
pub fn are_met(wanted: &[Expected<'_>], errors: &[Found<'_>]) -> bool
    ensures { IsTrue result ↔ AreMet wanted.now errors.now }
{
    if wanted.len() != errors.len() {
        return false;
    }
    for at in 0..wanted.len() {
        if !meets(&wanted[at], &errors[at]) {
            return false;
        }
    }
    true
}
