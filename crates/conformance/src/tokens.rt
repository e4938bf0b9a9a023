//! The tokens of a text.
use anyhow::{Result, bail};
use go_scan::{Scan, scan};
use go_tree::{IntValue, Token, TokenKind, int_value, rune_value, text_value};
use std::alloc::Global;
use std::fmt::Write;

/// The most bytes of a text.
const LIMIT: usize = 1 << 24;

fn word(kind: TokenKind) -> &'static str {
    match kind {
        TokenKind::Name => "name",
        TokenKind::Int => "int",
        TokenKind::Float => "float",
        TokenKind::Imag => "imag",
        TokenKind::Rune => "rune",
        TokenKind::Text => "text",
        TokenKind::Keyword(_) => "key",
        TokenKind::Mark(_) => "mark",
        TokenKind::Semi => "semi",
    }
}

/// The number of a keyword or a mark.
fn number(kind: TokenKind) -> Option<u8> {
    match kind {
        TokenKind::Keyword(number) | TokenKind::Mark(number) => Some(number),
        _ => None,
    }
}

fn write_int(out: &mut String, spelled: &[u8]) -> Result<()> {
    match int_value(spelled) {
        IntValue::Value(n) => write!(out, "={n}")?,
        IntValue::Wide => write!(out, "=wide")?,
    }
    Ok(())
}

fn write_text(out: &mut String, alloc: Global, spelled: &[u8]) -> Result<()> {
    let Ok(value) = text_value(alloc, spelled) else {
        bail!("no memory");
    };
    write!(out, "=")?;
    for b in &value {
        write!(out, "{b:02x}")?;
    }
    Ok(())
}

fn write_value(out: &mut String, alloc: Global, kind: TokenKind, spelled: &[u8]) -> Result<()> {
    match kind {
        TokenKind::Int => write_int(out, spelled),
        TokenKind::Rune => Ok(write!(out, "={}", rune_value(spelled))?),
        TokenKind::Text => write_text(out, alloc, spelled),
        _ => Ok(()),
    }
}

fn write_token(out: &mut String, alloc: Global, token: Token, text: &[u8]) -> Result<()> {
    write!(out, "{}", word(token.kind))?;
    if let Some(number) = number(token.kind) {
        write!(out, "{number}")?;
    }
    write!(out, " {}-{}", token.start, token.end)?;
    match text.get(token.start as usize..token.end as usize) {
        Some(spelled) => write_value(out, alloc, token.kind, spelled),
        None => bail!("a token outside the text"),
    }
}

fn write_tokens(out: &mut String, alloc: Global, tokens: &[Token], text: &[u8]) -> Result<()> {
    for (at, token) in tokens.iter().enumerate() {
        if at > 0 {
            write!(out, ", ")?;
        }
        write_token(out, alloc, *token, text)?;
    }
    writeln!(out, "")?;
    Ok(())
}

fn write_scan(out: &mut String, alloc: Global, text: &[u8]) -> Result<()> {
    if text.len() > LIMIT {
        bail!("too long");
    }
    match scan(alloc, text) {
        Ok(Scan::Tokens(tokens)) => write_tokens(out, alloc, tokens.as_slice(), text),
        Ok(Scan::Refused { offset, why }) => Ok(writeln!(out, "{why:?} at {offset}")?),
        Err(_) => bail!("no memory"),
    }
}

/// For each text the kinds and bytes of its tokens, with the values of literals; or why and where it is
/// refused.
pub fn tokens(alloc: Global, texts: &[&[u8]]) -> Result<String> {
    let mut out = String::new(alloc);
    for text in texts {
        write_scan(&mut out, alloc, text)?;
    }
    Ok(out)
}
