//! The rules of variables with values: how many values a specification needs, what their places want, and the variables that it declares.
#![tactic(auto)]

mod assigning;
mod counts;
mod forms;
mod objects;
mod rules;
mod several;
mod sharing;
mod wants;

pub use forms::{bare, is_receive, name_count, shared_value, value_count, variable_reads};
pub use objects::{by_value as object_by_value, judge_variable_object, valued as valued_object};
pub use rules::judge_variables;
pub use several::{given_to, results_of};
pub use sharing::{is_shared, judge_shared};
pub use wants::want_variable;
