//! The order of names.
ghost use Rattle.std.specs.Prelude.{◌≡◌};
ghost use Rattle.gv_base.specs.Files.{is_before};
ghost use Rattle.fact_codec.specs.Tables.{rises_from, names_rise};

use gv_base::Text;

/// Whether a name comes before another in byte order.
fn precedes(one: &[u8], other: &[u8]) -> bool
    ensures { result ≡ is_before one.now other.now }
{
    one.cmp(other).is_lt()
}

fn follows<F>(last: &(Text, F), next: &(Text, F)) -> bool
    ensures { result ≡ is_before last.now.0 next.now.0 }
{
    precedes(last.0.as_str().as_bytes(), next.0.as_str().as_bytes())
}

/// Whether the names are distinct and in byte order.
pub(crate) fn rise<F>(list: &[(Text, F)]) -> bool
    ensures { result ≡ names_rise list.now }
{
    let Some((first, rest)) = list.split_first() else {
        return true;
    };
    let mut last = first;
    let mut rest = rest;
    while let [next, more @ ..] = rest {
        if !follows(last, next) {
            return false;
        }
        last = next;
        rest = more;
    }
    true
}
