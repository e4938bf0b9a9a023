//! Files of cases: those that hold several texts, and those of a case a line.
#![tactic(auto)]

mod bundle;
mod folder;
mod lines;
mod showing;

pub use bundle::{Section, cut, sections};
pub use folder::names;
pub use lines::{Case, bytes_of, cases, is_answered};
pub use showing::shown;
