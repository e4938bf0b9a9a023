//! The order of need of a package's objects.
#![tactic(auto)]

mod explore;
mod laws;
mod moves;
mod needed;
mod number;
mod order;
mod pick;
mod quiet;
mod rows;
mod seeds;
mod spot;
mod tables;
mod view;

pub use laws::needs_are_of_four_cases;
pub use needed::Needed;
pub use number::numbers_of;
pub use order::order_of;
pub use quiet::{is_quiet, quiet_rows};
pub use spot::{Entry, Form, Role, Root};
pub use view::View;
