//! `printf`: calls of functions that print by a format.
#![tactic(auto)]

mod analyzer;
mod arguments;
mod asking;
mod buckets;
mod by_type;
mod calls;
mod checking;
mod const_texts;
mod fact_text;
mod failing;
mod fault;
mod fitting;
mod formats;
mod handing;
mod items;
mod judging;
mod kept;
mod kind_rows;
mod kinds;
mod known;
mod laws;
mod listed;
mod owners;
mod params;
mod printing;
mod readers;
mod says;
mod searching;
mod sets;
mod shapes;
mod spreads;
mod standing;
mod suiting;
mod taking;
mod telling;
mod touching;
mod verb;
mod walk;
mod ways;
mod wrapping;

pub use analyzer::Printed;
pub use asking::{Asked, Wanted};
pub use by_type::argument_of;
pub use calls::Printf;
pub use fault::{Argument, Classes, Fault, directive_fault, first_fault};
pub use formats::{format_fault, has_possible};
pub use laws::{one_list_found, one_wraps_text};
pub use says::fault_text;
pub use shapes::Shape;
pub use verb::{Class, Takes, Verb, verb_of};
pub use ways::Way;
pub use wrapping::{
    wrappers_by_numbers, wrappers_by_tables, wrapping_is_local, wrapping_is_monotone,
};
