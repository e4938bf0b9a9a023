//! Which `return`s without values stand where a result's name denotes something else.
#![tactic(auto)]

mod bare;
mod early;
mod functions;
mod regions;
mod results;
mod shadowed;
mod table;
mod uses;

pub use results::Stage;
pub use shadowed::shadowed_returns;
