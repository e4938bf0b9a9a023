//! Loads packages by the typing rules of Go, and runs analyzers over them.
#![tactic(auto)]

mod analyzing;
mod crew;
mod env;
mod kept;
mod kit;
mod known;
mod laws;
mod loaded;
mod loading;
mod read;
mod storing;
mod tell;

pub use action_graph::{Kit, Load, LoadInput, RunOf, RunOutcome, Trees, Unloaded};
pub use crew::new_kits;
pub use kit::GoKit;
pub use laws::one_loaded;
pub use loaded::Loaded;
