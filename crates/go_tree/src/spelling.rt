//! The texts of tokens and of nodes.
ghost use Rattle.std.specs.Prelude.{◌≡◌, ◌<◌, ◌++◌, ◌&&◌, [], length, IfOk, OnOk, bytes_eq};
ghost use Rattle.go_tree.specs.Spelling.{text_of, is_word, ends_word, begins_word, gap, spelled_after, spelling, is_semi, same_token, same_list, same_tokens, node_tokens};

use crate::part::byte_at;
use crate::token::{Token, TokenKind};
use crate::tree::FileTree;
use gv_base::NoMemory;
use std::alloc::{AllocError, Global};

/// The bytes of a token in its source. A token that doesn't lie there has what of it does.
#[tactic(auto, using(crate::proofs::TokenTexts::clamped))]
pub fn token_text<'a>(source: &'a [u8], token: &Token) -> &'a [u8]
    ensures { result.now ≡ text_of source.now token.now }
{
    let end = (token.end as usize).min(source.len());
    let start = (token.start as usize).min(end);
    &source[start..end]
}

/// Whether the byte is of a letter, a digit or `_`. Bytes past ASCII stand outside of literals only
/// in names.
fn is_word(byte: u8) -> bool
    ensures { result ≡ is_word byte }
{
    match byte {
        b'0'..=b'9' | b'A'..=b'Z' | b'_' | b'a'..=b'z' | 128..=255 => true,
        _ => false,
    }
}

fn ends_word(text: &[u8]) -> bool
    ensures { result ≡ ends_word text.now }
{
    is_word(byte_at(text, text.len().saturating_sub(1)))
}

fn begins_word(text: &[u8]) -> bool
    ensures { result ≡ begins_word text.now }
{
    is_word(byte_at(text, 0))
}

/// Whether a space stands between two texts.
fn is_apart(left: &[u8], right: &[u8]) -> bool
    ensures { result ≡ (ends_word left.now && begins_word right.now) }
{
    ends_word(left) && begins_word(right)
}

/// Writes the space between two texts, if there is one.
fn write_gap(out: &mut Vec<u8>, left: &[u8], right: &[u8]) -> Result<(), AllocError>
    ensures { OnOk result (out.new.items ≡ out.old.items ++ gap left.now right.now) }
{
    if is_apart(left, right) {
        out.push(b' ')?;
    }
    Ok(())
}

/// Writes the texts of tokens.
fn write_tokens(out: &mut Vec<u8>, source: &[u8], tokens: &[Token]) -> Result<(), AllocError>
    ensures { OnOk result (out.new.items ≡ out.old.items ++ spelled_after source.now [] tokens.now) }
{
    let mut left: &[u8] = &[];
    for token in tokens {
        let text = token_text(source, token);
        write_gap(out, left, text)?;
        out.extend_from_slice(text)?;
        left = text;
    }
    Ok(())
}

fn is_semi(kind: TokenKind) -> bool
    ensures { result ≡ is_semi kind }
{
    matches!(kind, TokenKind::Semi)
}

fn same_text(source: &[u8], x: &Token, y: &Token) -> bool
    ensures { result ≡ bytes_eq (text_of source.now x.now) (text_of source.now y.now) }
{
    token_text(source, x) == token_text(source, y)
}

fn both_semi(x: TokenKind, y: TokenKind) -> bool
    ensures { result ≡ (is_semi x && is_semi y) }
{
    is_semi(x) && is_semi(y)
}

fn same_token(source: &[u8], x: &Token, y: &Token) -> bool
    ensures { result ≡ same_token source.now x.now y.now }
{
    both_semi(x.kind, y.kind) || same_text(source, x, y)
}

/// Whether the tokens are the same one by one.
fn same_list(source: &[u8], xs: &[Token], ys: &[Token]) -> bool
    ensures { result ≡ same_list source.now xs.now ys.now }
{
    if xs.len() != ys.len() {
        return false;
    }
    for i in 0..xs.len() {
        if !same_token(source, &xs[i], &ys[i]) {
            return false;
        }
    }
    true
}

impl FileTree {
    /// The tokens of a node, from its first to its last.
    #[tactic(auto, using(crate::proofs::TokenTexts::clamped))]
    fn node_tokens(&self, node: u32) -> &[Token]
        requires { node < length self.now.nodes }
        ensures { result.now ≡ node_tokens self.now node }
    {
        let node = &self.nodes.as_slice()[node as usize];
        let tokens = self.tokens.as_slice();
        let end = (node.last as usize + 1).min(tokens.len());
        let start = (node.first as usize).min(end);
        &tokens[start..end]
    }

    /// The texts of a node's tokens, with a space only between two of which the left ends and the right
    /// begins with a letter, a digit or `_`. An inserted semicolon has no text.
    pub fn spelling(&self, alloc: Global, node: u32, source: &[u8]) -> Result<Vec<u8>, NoMemory>
        requires { node < length self.now.nodes }
        ensures { IfOk result (λ text. text.items ≡ spelling self.now node source.now) }
    {
        let mut text = Vec::new(alloc);
        write_tokens(&mut text, source, self.node_tokens(node))?;
        Ok(text)
    }

    /// Whether two nodes have the same tokens one by one. An inserted semicolon is as a written one.
    pub fn same_tokens(&self, a: u32, b: u32, source: &[u8]) -> bool
        requires first { a < length self.now.nodes }
        requires second { b < length self.now.nodes }
        ensures { result ≡ same_tokens self.now a b source.now }
    {
        same_list(source, self.node_tokens(a), self.node_tokens(b))
    }
}
