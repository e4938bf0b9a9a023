//! Files nested to the limit, and the first of two faults.
use go_tree::Why;
use gv_base::NoMemory;
use parse_file::{FileVerdict, parse_file};
use std::alloc::{AllocError, Global};
use std::test::Fail;

fn verdict(alloc: Global, bytes: &[u8]) -> Result<FileVerdict, NoMemory> {
    if bytes.len() <= 1 << 24 {
        parse_file(alloc, bytes)
    } else {
        Err(NoMemory)
    }
}

fn is_parsed(verdict: &FileVerdict) -> bool {
    matches!(verdict, FileVerdict::Parsed(_))
}

fn is_syntax(verdict: &FileVerdict, at: u32) -> bool {
    matches!(verdict, FileVerdict::Syntax { offset } if *offset == at)
}

fn is_too_deep(verdict: &FileVerdict, at: u32) -> bool {
    matches!(verdict, FileVerdict::TooDeep { offset } if *offset == at)
}

fn is_lexical(verdict: &FileVerdict, at: u32, because: Why) -> bool {
    matches!(verdict, FileVerdict::Lexical { offset, why } if *offset == at && *why == because)
}

/// A constant in so many parentheses, closed by so many.
fn nested(alloc: Global, opened: usize, closed: usize) -> Result<Vec<u8>, AllocError> {
    let mut text = b"package a\nconst A = ".to_vec(alloc)?;
    for _open in 0..opened {
        text.push(b'(')?;
    }
    text.push(b'1')?;
    for _close in 0..closed {
        text.push(b')')?;
    }
    Ok(text)
}

#[test]
fn nests_at_most_250_deep(rt: HostRuntime) -> Result<(), Fail> {
    // The constant, its values and the number are three of the 250.
    assert!(&rt; is_parsed(&verdict(rt.alloc(), &nested(rt.alloc(), 247, 247)?)?));
    for deep in [248, 100000] {
        let text = nested(rt.alloc(), deep, deep)?;
        assert!(&rt; is_too_deep(&verdict(rt.alloc(), &text)?, 10));
    }
    assert!(&rt; is_syntax(&verdict(rt.alloc(), &nested(rt.alloc(), 100000, 0)?)?, 10));
    Ok(())
}

#[test]
fn names_the_first_of_two_bad_pieces(rt: HostRuntime) -> Result<(), Fail> {
    let mut deep_first = nested(rt.alloc(), 300, 300)?;
    deep_first.extend_from_slice(b"\nvar = 1\n")?;
    assert!(&rt; is_too_deep(&verdict(rt.alloc(), &deep_first)?, 10));
    let two = b"package a\nvar = 1\nconst = 2\n";
    assert!(&rt; is_syntax(&verdict(rt.alloc(), two)?, 10));
    Ok(())
}

#[test]
fn names_the_lexeme_that_is_none(rt: HostRuntime) -> Result<(), Fail> {
    let rows: [(&[u8], u32); 2] = [
        (b"package a\nvar = 1\nconst S = 'ab'\n", 28),
        (b"package a\n\nconst S = 'ab'\n", 21),
    ];
    for (text, at) in rows {
        assert!(&rt; is_lexical(&verdict(rt.alloc(), text)?, at, Why::BadLexeme));
    }
    Ok(())
}
