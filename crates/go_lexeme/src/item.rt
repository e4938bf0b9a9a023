//! The item at the front of a text.
ghost use Rattle.std.specs.Prelude.{◌≡◌, ◌<◌, ◌≤◌, false, length, MatchOption, IfSome, slice_index, take, ◌==◌, ◌+◌};
ghost use Rattle.std.specs.List.{list_any};
ghost use Rattle.go_tree.specs.Lexeme.{word_item, number_item, mark_item, class_item, closed, text_item, rune_item, newline, block_item, is_operator, is_word_class, opener, class_at, item_of};
ghost use Rattle.go_tree.specs.Lexed.{Begins};
ghost use Rattle.go_lexeme.specs.Run.{goes_on, NoMark, IsMark, IsClassPiece, IsWordPiece};

use crate::byte::{byte_at, is_blank};
use crate::class::{class_of, opener, run};
use crate::table::{keyword_place, mark_place};
use crate::word::word_size;
use go_tree::{Class, Item, Piece, State, TokenKind, Why, is_rune, is_text, number_kind};

/// What a word is.
#[tactic(auto, unfolding(go_tree::specs::Lexeme::word_item))]
fn word_item(word: &[u8]) -> Item
    ensures { result ≡ word_item word.now }
{
    match keyword_place(word) {
        Some(place) => Item::Lexeme(TokenKind::Keyword(place as u8)),
        None => Item::Lexeme(TokenKind::Name),
    }
}

/// What the run of a number is.
#[tactic(auto, unfolding(go_tree::specs::Lexeme::number_item))]
fn number_item(run: &[u8]) -> Item
    requires { 0 < length run.now }
    ensures { result ≡ number_item run.now }
{
    match number_kind(run) {
        Some(kind) => Item::Lexeme(kind),
        None => Item::Wrong(Why::BadLexeme),
    }
}

const SEMICOLON: usize = 26;

/// What a mark is.
#[tactic(auto, unfolding(go_tree::specs::Lexeme::mark_item))]
fn mark_item(spelling: &[u8]) -> Option<Item>
    ensures { result ≡ mark_item spelling.now }
{
    match mark_place(spelling) {
        Some(SEMICOLON) => Some(Item::Lexeme(TokenKind::Semi)),
        Some(place) => Some(Item::Lexeme(TokenKind::Mark(place as u8))),
        None => {
            if spelling.len() == 1 {
                Some(Item::Wrong(Why::BadLexeme))
            } else {
                None
            }
        }
    }
}

/// The mark of this size at the front.
fn mark_of_size(rest: &[u8], size: usize) -> Option<Piece>
    ensures { MatchOption result (size ≤ length rest.now → mark_item (take size rest.now) ≡ None)
        (λ piece. (piece.size ≡ size) × (size ≤ length rest.now) × (mark_item (take size rest.now) ≡ Some piece.item)) }
{
    if size > rest.len() {
        return None;
    }
    match mark_item(&rest[..size]) {
        Some(item) => Some(Piece { item, size }),
        None => None,
    }
}

/// Whether a mark may have this byte behind its first.
#[inline(always)]
fn goes_on(b: u8) -> bool
    ensures { result ≡ goes_on b }
{
    match b {
        b'=' | b'&' | b'^' | b'+' | b'-' | b'.' | b'<' | b'>' | b'|' => true,
        _ => false,
    }
}

/// The longest mark at the front. Most have one byte, as the next one tells.
fn mark_at(rest: &[u8]) -> Piece
    requires { 0 < length rest.now }
    ensures { IsMark result rest.now }
{
    if goes_on(byte_at(rest, 1)) {
        long_mark_at(rest)
    } else {
        short_mark_at(rest)
    }
}

/// The mark of one byte at the front.
fn short_mark_at(rest: &[u8]) -> Piece
    requires some { 0 < length rest.now }
    requires short { goes_on (slice_index rest.now 1) ≡ false }
    ensures { IsMark result rest.now }
{
    if let Some(piece) = mark_of_size(rest, 1) {
        return piece;
    }
    Piece {
        item: Item::Wrong(Why::BadLexeme),
        size: 1,
    }
}

/// The longest mark at the front, of three sizes.
fn long_mark_at(rest: &[u8]) -> Piece
    requires { 0 < length rest.now }
    ensures { IsMark result rest.now }
{
    if let Some(piece) = mark_of_size(rest, 3) {
        return piece;
    }
    if let Some(piece) = mark_of_size(rest, 2) {
        return piece;
    }
    if let Some(piece) = mark_of_size(rest, 1) {
        return piece;
    }
    Piece {
        item: Item::Wrong(Why::BadLexeme),
        size: 1,
    }
}

/// What the bytes of a class are that end in a state.
#[tactic(auto, unfolding(go_tree::specs::Lexeme::class_item))]
fn class_item(class: Class, state: State, bytes: &[u8]) -> Item
    requires { 0 < length bytes.now }
    ensures { result ≡ class_item class state bytes.now }
{
    match class {
        Class::Word => word_item(bytes),
        Class::Number | Class::Fraction => number_item(bytes),
        Class::LineComment | Class::Blank => Item::Space,
        Class::LineEnd => Item::Newline,
        Class::BlockComment => closed(state, block_item(bytes)),
        Class::RawText => closed(state, Item::Lexeme(TokenKind::Text)),
        Class::QuotedText => closed(state, text_item(bytes)),
        Class::QuotedRune => closed(state, rune_item(bytes)),
        Class::Operator => Item::Wrong(Why::BadLexeme),
    }
}

/// A text between two double quotes.
fn text_item(bytes: &[u8]) -> Item
    ensures { result ≡ text_item bytes.now }
{
    if is_text(bytes) {
        Item::Lexeme(TokenKind::Text)
    } else {
        Item::Wrong(Why::BadLexeme)
    }
}

/// A rune between two single quotes.
fn rune_item(bytes: &[u8]) -> Item
    ensures { result ≡ rune_item bytes.now }
{
    if is_rune(bytes) {
        Item::Lexeme(TokenKind::Rune)
    } else {
        Item::Wrong(Why::BadLexeme)
    }
}

/// A literal with its end, or without.
fn closed(state: State, item: Item) -> Item
    ensures { result ≡ closed state item }
{
    match state {
        State::Shut => item,
        _ => Item::Wrong(Why::Unclosed),
    }
}

/// A comment with a line's end in it is one.
fn block_item(bytes: &[u8]) -> Item
    ensures { result ≡ block_item bytes.now }
{
    if has_line_end(bytes) {
        Item::Newline
    } else {
        Item::Space
    }
}

fn has_line_end(bytes: &[u8]) -> bool
    ensures { result ≡ list_any (λ b. b == newline) bytes.now }
{
    bytes.iter().any(|b| *b == b'\n')
}

fn is_operator(class: Class) -> bool
    ensures { result ≡ is_operator class }
{
    match class {
        Class::Operator => true,
        _ => false,
    }
}

/// The class of the piece at the front.
fn class_at(rest: &[u8]) -> Class
    requires { 0 < length rest.now }
    ensures class { result ≡ class_at rest.now }
    ensures within { opener result ≤ length rest.now }
{
    class_of(rest[0], byte_at(rest, 1))
}

/// The piece of a class at the front.
fn class_piece(class: Class, rest: &[u8]) -> Piece
    requires some { 0 < length rest.now }
    requires within { opener class ≤ length rest.now }
    ensures { IsClassPiece class rest.now result }
{
    let opened = opener(class);
    let (n, state) = run(class, rest[0], &rest[opened..]);
    let size = opened + n;
    Piece {
        item: class_item(class, state, &rest[..size]),
        size,
    }
}

fn is_word_class(class: Class) -> bool
    ensures { result ≡ is_word_class class }
{
    match class {
        Class::Word => true,
        _ => false,
    }
}

/// The word at the front, or a byte that begins none.
fn word_piece(rest: &[u8]) -> Piece
    requires { 0 < length rest.now }
    ensures { IsWordPiece result rest.now }
{
    let size = word_size(rest);
    if size == 0 {
        Piece {
            item: Item::Wrong(Why::BadLexeme),
            size: 1,
        }
    } else {
        Piece {
            item: word_item(&rest[..size]),
            size,
        }
    }
}

/// The piece at the front of a text that isn't empty.
pub fn piece_at(rest: &[u8]) -> Piece
    requires { 0 < length rest.now }
    ensures { Begins item_of result rest.now }
{
    if is_blank(rest[0]) {
        return Piece {
            item: Item::Space,
            size: 1,
        };
    }
    let class = class_at(rest);
    if is_operator(class) {
        mark_at(rest)
    } else if is_word_class(class) {
        word_piece(rest)
    } else {
        class_piece(class, rest)
    }
}
