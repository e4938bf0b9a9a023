//! How a package is read: where its nodes stand, which passages of its files are read as one, and what its imports lead to.
#![tactic(auto)]

mod entries;
mod environment;
mod exported;
mod few;
mod first_names;
mod lead;
mod leads;
mod passage;
mod passage_list;
mod place;
mod places;
mod seen;
mod subject;
mod texts;

pub use entries::Entries;
pub use environment::{Environment, path_index};
pub use exported::{exported_of, judge_lead};
pub use few::{entry, entry_rows};
pub use first_names::{add_name, find, index};
pub use lead::Lead;
pub use leads::lead_rows;
pub use passage::Passage;
pub use passage_list::passages;
pub use place::{Place, Standing};
pub use places::place_row;
pub use seen::SeenTypes;
pub use subject::{Subject, cell, flag};
