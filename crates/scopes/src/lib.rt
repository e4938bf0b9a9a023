//! Which declaration a use denotes.
#![tactic(auto)]

mod declare;
mod first;
mod laws;
mod roles;
mod scope;
mod visible;
mod walk;

pub use first::first_in_block;
pub use laws::regions_are_laid;
pub use roles::role;
pub use scope::{Declares, Form, Handed, Named, Role};
pub use visible::{Declaration, Use, denoted, one_denoted};
pub use walk::collect;
