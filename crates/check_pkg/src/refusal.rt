//! What refuses a package.
ghost use Rattle.std.specs.Prelude.{◌≡◌};
ghost use Rattle.check_pkg.specs.Faults.{limit_number};

use gv_base::Place;
use typed_tree::{Limit, Rule};

/// Why a mark refuses its package.
#[derive(Clone, Copy, Debug, PartialEq, Eq, PartialOrd, Ord, Drop)]
pub enum Fault {
    Rule(Rule),
    Limit(Limit),
}

/// A mark that refuses the package, at its place.
#[derive(Clone, Copy, Debug, PartialEq, Eq, Drop)]
pub struct Refusal {
    pub place: Place,
    pub fault: Fault,
}

/// The number of a limit, from 0.
pub fn limit_number(limit: Limit) -> u8
    ensures { result ≡ limit_number limit }
{
    match limit {
        Limit::Float => 0,
        Limit::Complex => 1,
        Limit::Wide => 2,
        Limit::LongText => 3,
        Limit::WideType => 4,
        Limit::Unsafe => 5,
        Limit::Cgo => 6,
        Limit::DotImport => 7,
        Limit::BuildConstraint => 8,
    }
}
