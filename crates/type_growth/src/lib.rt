//! Questions about types while declarations are still being made: answers that last, and names that are waited for.
#![tactic(auto)]

mod laws;
mod missing;
mod reply;

pub use laws::held_types_last;
pub use missing::is_missing;
pub use reply::Reply;
