//! The commands of a script: how each is spelled, the command that bytes begin with, and how a script is read.
#![tactic(auto)]

mod fields;
mod fieldset;
mod halt;
mod path;
mod reading;
mod script;
mod word;

pub use fieldset::Fields;
pub use halt::Halt;
pub use reading::{LIMIT, each_script_is_read_to_its_end, one_reading_of_a_script};
pub use script::{Command, Next, next_command};
pub use word::Word;
