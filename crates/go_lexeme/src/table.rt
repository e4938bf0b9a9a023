//! The keywords and the marks, and their places.
ghost use Rattle.std.specs.Prelude.{◌≡◌, ◌<◌, length, map, IfSome};
ghost use Rattle.go_tree.specs.Lexeme.{keywords, marks, place_of};
ghost use Rattle.go_lexeme.specs.Slots.{slot_of, slot_place};

use crate::byte::byte_at;

const KEYWORDS: [&[u8]; 25] = [
    b"break",
    b"case",
    b"chan",
    b"const",
    b"continue",
    b"default",
    b"defer",
    b"else",
    b"fallthrough",
    b"for",
    b"func",
    b"go",
    b"goto",
    b"if",
    b"import",
    b"interface",
    b"map",
    b"package",
    b"range",
    b"return",
    b"select",
    b"struct",
    b"switch",
    b"type",
    b"var",
];

const MARKS: [&[u8]; 47] = [
    b"!", b"!=", b"%", b"%=", b"&", b"&&", b"&=", b"&^", b"&^=", b"(", b")", b"*", b"*=", b"+",
    b"++", b"+=", b",", b"-", b"--", b"-=", b".", b"...", b"/", b"/=", b":", b":=", b";", b"<",
    b"<-", b"<<", b"<<=", b"<=", b"=", b"==", b">", b">=", b">>", b">>=", b"[", b"]", b"^", b"^=",
    b"{", b"|", b"|=", b"||", b"}",
];

/// At the slot of each keyword its place.
#[rattlefmt::skip]
const KEYWORD_SLOTS: [u8; 128] = [
    255, 255, 19, 24, 255, 255, 23, 255, 255, 20, 255, 255, 10, 255, 255, 255,
    255, 255, 255, 255, 255, 255, 255, 255, 255, 255, 255, 8, 255, 255, 255, 6,
    255, 5, 255, 255, 255, 255, 255, 255, 255, 2, 255, 255, 255, 255, 255, 255,
    255, 255, 255, 255, 255, 255, 255, 255, 255, 255, 255, 255, 255, 255, 255, 255,
    255, 255, 255, 255, 16, 13, 255, 255, 255, 255, 255, 255, 255, 255, 255, 7,
    255, 255, 255, 255, 3, 255, 255, 4, 255, 255, 255, 255, 255, 17, 255, 0,
    255, 255, 255, 21, 255, 255, 255, 9, 255, 18, 255, 255, 255, 11, 255, 12,
    255, 255, 255, 14, 255, 22, 255, 255, 255, 255, 255, 255, 15, 255, 255, 1,
];

/// At the slot of each mark its place.
#[rattlefmt::skip]
const MARK_SLOTS: [u8; 128] = [
    255, 255, 41, 255, 2, 255, 25, 255, 255, 255, 255, 4, 39, 255, 29, 30,
    255, 255, 255, 40, 31, 255, 12, 24, 255, 9, 255, 33, 255, 15, 26, 255,
    10, 255, 35, 255, 255, 27, 255, 11, 36, 37, 255, 19, 32, 255, 13, 255,
    255, 14, 255, 34, 28, 16, 255, 255, 255, 23, 255, 255, 17, 255, 255, 255,
    7, 8, 255, 20, 255, 255, 255, 255, 255, 255, 22, 18, 255, 255, 45, 255,
    255, 255, 255, 255, 44, 255, 255, 1, 255, 21, 255, 255, 255, 255, 42, 255,
    255, 255, 255, 255, 255, 43, 255, 255, 0, 255, 255, 255, 46, 255, 255, 255,
    5, 255, 255, 3, 255, 255, 255, 255, 255, 255, 6, 255, 255, 255, 38, 255,
];

/// The first two bytes and the size tell the slot. No two keywords have one slot, and no two marks.
#[inline(always)]
fn slot_of(word: &[u8]) -> usize
    ensures slot { result ≡ slot_of word.now }
    ensures within { result < 128 }
{
    let first = byte_at(word, 0) as usize;
    let second = byte_at(word, 1) as usize;
    (first * 7 + second * 6 + word.len() % 128) % 128
}

#[inline(always)]
fn place_in(table: &[&[u8]], slots: &[u8], word: &[u8]) -> Option<usize>
    requires { length slots.now ≡ 128 }
    ensures place { result ≡ slot_place (map (λ entry. entry.now) table.now) slots.now word.now }
    ensures within { IfSome result (λ k. k < length table.now) }
{
    let place = slots[slot_of(word)] as usize;
    if place >= table.len() {
        return None;
    }
    if table[place] == word {
        Some(place)
    } else {
        None
    }
}

/// The keyword's place among the 25.
pub(crate) fn keyword_place(word: &[u8]) -> Option<usize>
    ensures place { result ≡ place_of keywords word.now }
    ensures within { IfSome result (λ k. k < 25) }
{
    place_in(&KEYWORDS, &KEYWORD_SLOTS, word)
}

/// The mark's place among the 47.
pub(crate) fn mark_place(spelling: &[u8]) -> Option<usize>
    ensures place { result ≡ place_of marks spelling.now }
    ensures within { IfSome result (λ k. k < 47) }
{
    place_in(&MARKS, &MARK_SLOTS, spelling)
}
