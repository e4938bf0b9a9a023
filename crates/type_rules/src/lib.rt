//! The rules of type expressions (Go 1.17, "Types").
#![tactic(auto)]

mod copies;
mod differing;
mod embedding;
pub mod fields;
pub mod interfaces;
mod joining;
mod ordering;
mod params;
pub mod receivers;
pub mod signatures;
pub mod structs;
mod taken;
pub mod types;

pub use embedding::judge_embedding;
pub use joining::judge_element;
