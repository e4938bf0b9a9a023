//! The text of a type over a table: types as rows of pieces, written and read without recursion.
#![tactic(auto)]

mod fields;
mod ordering;
mod piece_reading;
mod piece_writing;
mod pieces;
mod placing;
mod taking;
mod type_laws;
mod type_reading;
mod type_rows;
mod type_writing;
mod values;

pub use fields::{read_bit, read_name, read_value};
pub use ordering::{method_precedes, precedes};
pub use piece_writing::{put_name, put_truth};
pub use pieces::{Piece, Run, Sort};
pub use type_laws::{type_ends, types_are_read};
pub use type_reading::read_type;
pub use type_rows::Todo;
pub use type_writing::{put_function, put_type};
pub use values::Value;
