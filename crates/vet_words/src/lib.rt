//! Words of analyzers: forms of nodes, what marks say of them, what is called, which expressions are quiet, texts, and diagnostics.
#![tactic(auto)]

mod called;
mod diagnosing;
mod forms;
mod marked;
mod methods;
mod quiet;
mod texts;

pub use called::{Function, function_at};
pub use diagnosing::{diagnose, diagnose_at, end_of, start_of};
pub use forms::{bare, is_call};
pub use marked::{is_constant, is_conversion, is_nil, known_at, names_type};
pub use methods::{is_function, selects_method};
pub use quiet::{is_quiet, quiet_rows};
pub use texts::{is_same, key_at, spelling};
