//! What refuses a package, by the marks of its items, by its imports and by late rules, in order and each once; what an accepted package
//! exports; and what is kept of it. The marks are those of any rules.
#![tactic(auto)]

mod ahead;
mod block;
mod elsewhere;
mod exports;
mod faults;
mod gaps;
mod import_names;
mod import_refusals;
mod in_bodies;
mod initial;
mod judging;
mod late_rules;
mod leading;
mod order;
mod places;
mod read;
mod references;
mod refusal;
mod sources;
mod typing;
mod used;

pub use judging::{Checked, Outcome, check};
pub use refusal::{Fault, Refusal, limit_number};
pub use sources::{known, texts};
pub use typing::{Flags, Typed};
