//! Rows of tokens, a character each, that are files and that are none.
use go_parse::{Chunk, parse_chunk};
use go_tree::{NodeKind, Token, TokenKind};
use gv_base::NoMemory;
use std::alloc::{AllocError, Global};
use std::test::Fail;

/// The token that one character stands for: `p` is `package`, `c` is `const`, a digit is a number,
/// another letter or `_` a name.
fn kind_of(character: u8) -> TokenKind {
    match character {
        b'p' => TokenKind::Keyword(17),
        b'c' => TokenKind::Keyword(3),
        b'0'..=b'9' => TokenKind::Int,
        b';' => TokenKind::Semi,
        b'+' => TokenKind::Mark(13),
        b'-' => TokenKind::Mark(17),
        b'*' => TokenKind::Mark(11),
        b'(' => TokenKind::Mark(9),
        b')' => TokenKind::Mark(10),
        b',' => TokenKind::Mark(16),
        b'=' => TokenKind::Mark(32),
        _ => TokenKind::Name,
    }
}

fn tokens_of(alloc: Global, text: &[u8]) -> Result<Vec<Token>, AllocError> {
    let mut tokens = Vec::new(alloc);
    let mut at = 0;
    for character in text {
        tokens.push(Token {
            kind: kind_of(*character),
            start: at,
            end: at.saturating_add(1),
        })?;
        at = at.saturating_add(1);
    }
    Ok(tokens)
}

fn chunk(alloc: Global, text: &[u8]) -> Result<Chunk, NoMemory> {
    let tokens = tokens_of(alloc, text)?;
    if tokens.len() < 1000 {
        parse_chunk(alloc, &tokens, text)
    } else {
        Err(NoMemory)
    }
}

/// `pn;cn=1+1+..;` with so many additions.
fn chain(alloc: Global, additions: usize) -> Result<Vec<u8>, AllocError> {
    let mut text = b"pn;cn=1".to_vec(alloc)?;
    for _addition in 0..additions {
        text.push(b'+')?;
        text.push(b'1')?;
    }
    text.push(b';')?;
    Ok(text)
}

#[test]
fn spells_files_of_constants(rt: HostRuntime) -> Result<(), Fail> {
    let files: [&[u8]; 11] = [
        b"pn;",
        b"pn;cn=1;",
        b"pn;cn=n;",
        b"pn;cn=n+1+n;cm=n;",
        b"pn;c_=1;",
        b"pn;cn;",
        b"pn;cnm=1;",
        b"pn;cn=-1;",
        b"pn;cn=1-1*1;",
        b"pn;cn=(1);",
        b"pn;cn,m=1,1;",
    ];
    for file in files {
        assert!(&rt; matches!(chunk(rt.alloc(), file)?, Chunk::Spelled(_)));
    }
    Ok(())
}

#[test]
fn refuses_other_tokens(rt: HostRuntime) -> Result<(), Fail> {
    let files: [&[u8]; 14] = [
        b"",
        b"p",
        b"pn",
        b"n;",
        b"p_;",
        b"pn;;",
        b"pn;cn1;",
        b"pn;cn=;",
        b"pn;cn=1",
        b"pn;cn=1+;",
        b"pn;cn=(1;",
        b"pn;cn,=1;",
        b"pn;n=1;",
        b"cn=1;",
    ];
    for file in files {
        assert!(&rt; matches!(chunk(rt.alloc(), file)?, Chunk::NoTree));
    }
    Ok(())
}

#[test]
fn adds_from_the_left(rt: HostRuntime) -> Result<(), Fail> {
    let found = chunk(rt.alloc(), b"pn;cn=1+m+1;")?;
    let mut kinds = Vec::new(rt.alloc());
    let mut parts = Vec::new(rt.alloc());
    if let Chunk::Spelled(tree) = &found {
        for node in tree.nodes.as_slice() {
            kinds.push(node.kind)?;
            for part in node.parts.as_slice() {
                parts.push(*part)?;
            }
        }
        assert!(&rt; tree.tops.as_slice() == [1, 9].as_slice());
    }
    assert!(&rt;
        kinds.as_slice()
            == [
                NodeKind::Name,
                NodeKind::Package,
                NodeKind::Name,
                NodeKind::Int,
                NodeKind::Name,
                NodeKind::Binary,
                NodeKind::Int,
                NodeKind::Binary,
                NodeKind::ConstValues,
                NodeKind::Const,
            ]
            .as_slice()
    );
    assert!(&rt; parts.as_slice() == [0, 3, 4, 5, 6, 2, 7, 8].as_slice());
    Ok(())
}

#[test]
fn nests_at_most_250_deep(rt: HostRuntime) -> Result<(), Fail> {
    let most = chain(rt.alloc(), 247)?;
    assert!(&rt; matches!(chunk(rt.alloc(), &most)?, Chunk::Spelled(_)));
    let more = chain(rt.alloc(), 248)?;
    assert!(&rt; matches!(chunk(rt.alloc(), &more)?, Chunk::TooDeep));
    Ok(())
}
