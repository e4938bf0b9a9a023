//! Tokens and trees of Go source, and the definitions of lexing and spelling.
#![tactic(auto)]

mod access;
mod bindings;
mod class;
mod constraint;
mod escape;
mod grammar;
mod head;
mod import_path;
mod kind;
mod number;
mod part;
mod part_list;
mod quoted;
mod spelling;
mod token;
mod tree;
mod value;

pub use access::{node_in, tree_in};
pub use bindings::{Bindings, Object};
pub use class::{Class, Digits, Escape, State};
pub use constraint::{Comment, behind_blanks};
pub use escape::{is_rune, is_text};
pub use grammar::{Category, Ending, Guard, Setting, Shape, Sort, Stage, Symbol, Terminal};
pub use head::{Head, ImportLine, LocalName, is_import};
pub use import_path::{Segment, are_segments};
pub use kind::is_function;
pub use number::number_kind;
pub use part_list::Parts;
pub use quoted::text_value;
pub use spelling::token_text;
pub use token::{Item, Piece, Token, TokenKind, Why};
pub use tree::{FileTree, Node, NodeKind, NodeRef};
pub use value::{IntValue, int_value, rune_value};
