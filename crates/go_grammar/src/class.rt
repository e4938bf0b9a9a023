//! The classes of tokens that the grammar tells apart.
ghost use Rattle.std.specs.Prelude.{◌≡◌, ◌↔◌, true, IsTrue};
ghost use Rattle.go_tree.specs.declared.token.TokenKind.TheVariants.{Keyword, Mark};
ghost use Rattle.go_tree.specs.Classes.{kind_class, is_blank, class_in, told, level_of};

use go_tree::{Token, TokenKind};

/// The class at the end of the tokens.
pub const END: u8 = 75;

/// The class of the name `_`.
const BLANK: u8 = 76;

/// The class of no token.
const UNKNOWN: u8 = 74;

/// The class of each mark, in byte order of their spellings.
#[rattlefmt::skip]
const MARKS: [u8; 47] = [
    47, 53, 60, 67, 63, 65, 67, 64, 67, // ! != % %= & && &= &^ &^=
    36, 37, 58, 67, 48, 44, 67, 32,     // ( ) * *= + ++ += ,
    49, 45, 67, 34, 35, 59, 67,         // - -- -= . ... / /=
    33, 43, 74,                         // : := ;
    54, 46, 61, 67, 55, 42, 52,         // < <- << <<= <= = ==
    56, 57, 62, 67,                     // > >= >> >>=
    38, 39, 51, 67,                     // [ ] ^ ^=
    40, 50, 67, 66, 41,                 // { | |= || }
];

/// The class of a token of this kind.
fn kind_class(kind: TokenKind) -> u8
    ensures { result ≡ kind_class kind }
{
    match kind {
        TokenKind::Name => 0,
        TokenKind::Int => 1,
        TokenKind::Float => 2,
        TokenKind::Imag => 3,
        TokenKind::Rune => 4,
        TokenKind::Text => 5,
        TokenKind::Keyword(place) => keyword_class(place),
        TokenKind::Semi => 31,
        TokenKind::Mark(place) => mark_class(place),
    }
}

fn keyword_class(place: u8) -> u8
    ensures { result ≡ kind_class (Keyword place) }
{
    if place < 25 { place + 6 } else { UNKNOWN }
}

fn mark_class(place: u8) -> u8
    ensures { result ≡ kind_class (Mark place) }
{
    if place < 47 {
        MARKS[place as usize]
    } else {
        UNKNOWN
    }
}

/// Whether the token is the one low line, in its source.
fn is_blank(source: &[u8], token: &Token) -> bool
    ensures { IsTrue result ↔ (is_blank source.now token.now ≡ true) }
{
    let start = token.start as usize;
    let end = token.end as usize;
    end == start + 1 && start < source.len() && source[start] == b'_'
}

/// The class of a token in its source.
pub fn class_in(source: &[u8], token: &Token) -> u8
    ensures { result ≡ class_in source.now token.now }
{
    let class = kind_class(token.kind);
    if class == 0 && is_blank(source, token) {
        BLANK
    } else {
        class
    }
}

/// The class that the grammar reads of a token of a class, before two others.
pub fn told(class: u8, second: u8, third: u8) -> u8
    ensures { result ≡ told class second third }
{
    match class {
        34 if second == 36 => { if third == 29 { 69 } else { 68 } }
        38 if second == 35 => 70,
        43 if second == 24 => 71,
        42 if second == 24 => 72,
        32 if second == 37 => 73,
        _ if class < 77 => class,
        _ => UNKNOWN,
    }
}

/// The level of an operator or a suffix of this class, 0 of all others.
pub fn level_of(class: u8) -> u8
    ensures { result ≡ level_of class }
{
    match class {
        34 | 36 | 38 | 68 => 8,
        48..=51 => 5,
        52..=57 => 4,
        58..=64 => 6,
        65 => 3,
        66 => 2,
        69 => 1,
        _ => 0,
    }
}
