//! The export text of a package: what other packages see of it, as bytes.
#![tactic(auto)]

mod exporting;
mod fronts;
mod interface_reading;
mod interface_writing;
mod laws;
mod listing;
mod mentioning;
mod method_reading;
mod reaching;
mod rising;
mod skimming;
mod type_skimming;

pub use exporting::{export, gather};
pub use interface_reading::read;
pub use interface_writing::write;
pub use laws::{faces_are_read, one_export_of_a_package, one_face_text};
pub use mentioning::mentions;
pub use reaching::reached;
pub use skimming::text_mentions;
