//! The scanner.
ghost use Rattle.std.specs.Prelude.{◌≡◌, ◌<◌, ◌≤◌, ◌^◌, ◌+◌, ◌++◌, length, OnOk, OnErr, IfOk, ℕ, IfSome, MatchOption, List, Option, IsSomeAnd};
ghost use Rattle.go_tree.specs.declared.token.Token.{Token};
ghost use Rattle.go_tree.specs.declared.token.Why.{Why};
ghost use Rattle.go_scan.specs.Scan.{option_list};
ghost use Rattle.go_scan.specs.Scan.{IsScan, IsTokens, IsRefusal};
ghost use Rattle.go_tree.specs.Lexed.{Lexed, LexRefused, Passes, semicolon, item_tokens, due_after, closes, IsSound};

use crate::outcome::Scan;
use crate::text::{front_mark, text_fault};
use go_lexeme::piece_at;
use go_tree::{Item, Token, TokenKind, Why};
use gv_base::{NoMemory, Row};
use std::alloc::Global;

/// Whether a line whose last token is of this kind gets a semicolon.
fn closes(kind: TokenKind) -> bool
    ensures { result ≡ closes kind }
{
    match kind {
        TokenKind::Semi => false,
        TokenKind::Keyword(place) => place == 0 || place == 4 || place == 8 || place == 19,
        TokenKind::Mark(place) => {
            place == 10 || place == 14 || place == 18 || place == 39 || place == 46
        }
        _ => true,
    }
}

/// Where the line wants a semicolon after an item that ends at `end`.
pub(crate) fn due_after(item: Item, end: u32, due: Option<u32>) -> Option<u32>
    ensures { result ≡ due_after item end due }
{
    match item {
        Item::Space => due,
        Item::Newline => None,
        Item::Lexeme(kind) => if closes(kind) { Some(end) } else { None },
        Item::Wrong(_) => due,
    }
}

/// The token of an item, if it gives one.
pub(crate) fn item_token(item: Item, start: u32, end: u32, due: Option<u32>) -> Option<Token>
    ensures { item_tokens item start end due ≡ option_list result }
{
    match item {
        Item::Space => None,
        Item::Newline => semicolon(due),
        Item::Lexeme(kind) => Some(Token { kind, start, end }),
        Item::Wrong(_) => None,
    }
}

pub(crate) fn semicolon(due: Option<u32>) -> Option<Token>
    ensures { semicolon due ≡ option_list result }
{
    match due {
        Some(at) => Some(Token {
            kind: TokenKind::Semi,
            start: at,
            end: at,
        }),
        None => None,
    }
}

/// Adds the token, if there is one.
pub(crate) fn push_token(tokens: &mut Vec<Token>, token: Option<Token>) -> Result<(), NoMemory>
    ensures { OnOk result (tokens.new.items ≡ tokens.old.items ++ option_list token) }
{
    if let Some(token) = token {
        tokens.push(token)?;
    }
    Ok(())
}

/// The tokens of a text, or where and why it has none.
pub fn scan(alloc: Global, bytes: &[u8]) -> Result<Scan, NoMemory>
    requires { length bytes.now ≤ 2 ^ 24 }
    // What is answered holds of the text.
    ensures found { IfOk result (λ scan. IsScan bytes.now scan) }
    // A text that gives tokens gives these, and no refusal.
    ensures lexed { (tokens : List Token) → Lexed bytes.now tokens → IfOk result (λ scan. IsTokens tokens scan) }
    // A text that is refused is refused so.
    ensures refused { (offset : ℕ) (why : Why) → LexRefused bytes.now offset why → IfOk result (λ scan. IsRefusal offset why scan) }
{
    scan_text(alloc, bytes)
}

fn scan_text(alloc: Global, bytes: &[u8]) -> Result<Scan, NoMemory>
    requires { length bytes.now ≤ 2 ^ 24 }
    ensures { IfOk result (λ scan. IsScan bytes.now scan) }
{
    if let Some((offset, why)) = text_fault(bytes) {
        return Ok(Scan::Refused {
            offset: offset as u32,
            why,
        });
    }
    scan_pieces(alloc, bytes)
}

/// How many bytes a token of most files has at least, with the gaps beside it.
const BYTES_A_TOKEN: usize = 3;

/// The most tokens for which there is room at first.
const MOST_AT_FIRST: usize = 1 << 16;

/// For how many tokens of so many bytes there is room at first.
fn room(bytes: usize) -> usize {
    (bytes / BYTES_A_TOKEN).min(MOST_AT_FIRST)
}

fn scan_pieces(alloc: Global, bytes: &[u8]) -> Result<Scan, NoMemory>
    requires short { length bytes.now ≤ 2 ^ 24 }
    requires passes { Passes bytes.now }
    ensures { IfOk result (λ scan. IsScan bytes.now scan) }
{
    let mut tokens = Vec::with_capacity(alloc, room(bytes.len()))?;
    let mut due: Option<u32> = None;
    let mut at = front_mark(bytes);
    while at < bytes.len() {
        let piece = piece_at(&bytes[at..]);
        if let Item::Wrong(why) = piece.item {
            return Ok(Scan::Refused {
                offset: at as u32,
                why,
            });
        }
        let end = at + piece.size;
        push_token(
            &mut tokens,
            item_token(piece.item, at as u32, end as u32, due),
        )?;
        due = due_after(piece.item, end as u32, due);
        at = end;
    }
    push_token(&mut tokens, semicolon(due))?;
    Ok(Scan::Tokens(Row::new(tokens)))
}
