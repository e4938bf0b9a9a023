//! Tokens, and what stands next in a text (Go 1.17, "Lexical elements").
#[derive(Clone, Copy, Debug, PartialEq, Eq, Drop)]
pub enum TokenKind {
    Name,
    Int,
    Float,
    Imag,
    Rune,
    Text,
    /// The keyword's place among the 25, in byte order.
    Keyword(u8),
    /// The mark's place among the 47, in byte order.
    Mark(u8),
    Semi,
}

/// A token lies at these bytes of the source. An inserted semicolon has no bytes.
#[derive(Clone, Copy, Debug, PartialEq, Eq, Drop)]
pub struct Token {
    pub kind: TokenKind,
    pub start: u32,
    pub end: u32,
}

/// Why a text is no list of tokens.
#[derive(Clone, Copy, Debug, PartialEq, Eq, Drop)]
pub enum Why {
    NotUtf8,
    Nul,
    StrayMark,
    BadLexeme,
    Unclosed,
}

/// What stands next in a text: a gap, a lexeme, or bytes that are neither.
#[derive(Clone, Copy, Debug, PartialEq, Eq, Drop)]
pub enum Item {
    Space,
    Newline,
    Lexeme(TokenKind),
    Wrong(Why),
}

/// A gap or a lexeme at the front of a text, with its number of bytes.
#[derive(Clone, Copy, Debug, PartialEq, Eq, Drop)]
pub struct Piece {
    pub item: Item,
    pub size: usize,
}
