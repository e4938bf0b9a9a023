//! Whether types and signatures are one, as tests (Go 1.17, "Type identity").
#![tactic(auto)]

mod identity;

pub use identity::{same_signature, same_type};
