use go_tree::{Token, Why};
use gv_base::Row;

/// What a text is: its tokens, or the offset in bytes where it is refused, and why.
#[derive(Drop)]
pub enum Scan {
    Tokens(Row<Token>),
    Refused { offset: u32, why: Why },
}
