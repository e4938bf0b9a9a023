//! What other packages see of a package, over the types of a table.
#![tactic(auto)]

mod copying;
mod interface;
mod laws;

pub use copying::{copied_methods, copied_name, copied_signature};
pub use interface::{ExportForm, Exported, ExportedType, Interface};
pub use laws::faces_stay_as_a_table_grows;
