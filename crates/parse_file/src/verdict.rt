//! What the bytes of a file are.
ghost use Rattle.std.specs.Prelude.{◌≡◌, ◌<◌, ◌≤◌, ◌^◌, ℕ, List, length, IfOk};
ghost use Rattle.go_tree.specs.Lexed.{Lexed};
ghost use Rattle.parse_file.specs.Verdict.{offset_at, IsVerdict};
ghost use Rattle.parse_file.specs.declared.verdict.FileVerdict.{FileVerdict};

use go_parse::{Verdict, parse_pieces};
use go_scan::{Scan, scan};
use go_tree::{FileTree, Token, Why};
use gv_base::NoMemory;
use std::alloc::Global;

/// What a file is. Offsets count bytes from 0.
#[derive(Drop)]
pub enum FileVerdict {
    /// Each piece is spelled by a tree of depth at most 250: the file's tree.
    Parsed(FileTree),
    /// The scanner refuses the text there.
    Lexical { offset: u32, why: Why },
    /// No tree spells the piece that begins there. An empty piece begins at its semicolon, one that
    /// is missing at the end of the text.
    Syntax { offset: u32 },
    /// The one tree that spells the piece nests deeper.
    TooDeep { offset: u32 },
}

/// Where the token of a number begins, the end of the text where there is none.
fn offset_at(tokens: &[Token], at: u32, end: usize) -> u32
    requires { end ≤ 2 ^ 24 }
    ensures { result ≡ offset_at tokens.now at end }
{
    if (at as usize) < tokens.len() {
        tokens[at as usize].start
    } else {
        end as u32
    }
}

/// The verdict of a text that has tokens.
fn parse_tokens(alloc: Global, bytes: &[u8], tokens: &[Token]) -> Result<FileVerdict, NoMemory>
    requires short { length bytes.now ≤ 2 ^ 24 }
    requires lexed { Lexed bytes.now tokens.now }
    ensures { IfOk result (λ verdict. IsVerdict bytes.now verdict) }
{
    match parse_pieces(alloc, tokens, bytes)? {
        Verdict::Parsed(tree) => Ok(FileVerdict::Parsed(tree)),
        Verdict::Syntax(at) => Ok(FileVerdict::Syntax {
            offset: offset_at(tokens, at, bytes.len()),
        }),
        Verdict::TooDeep(at) => Ok(FileVerdict::TooDeep {
            offset: offset_at(tokens, at, bytes.len()),
        }),
    }
}

/// The verdict of a file of at most 2^24 bytes (Go 1.17, "Source file organization"): Lexical where
/// the scanner refuses it, else that of the first piece, in turn, that no tree of depth at most 250
/// spells, else the file's tree.
pub fn parse_file(alloc: Global, bytes: &[u8]) -> Result<FileVerdict, NoMemory>
    requires { length bytes.now ≤ 2 ^ 24 }
    ensures { IfOk result (λ verdict. IsVerdict bytes.now verdict) }
{
    match scan(alloc, bytes)? {
        Scan::Tokens(tokens) => {
            let verdict = parse_tokens(alloc, bytes, tokens.as_slice())?;
            Ok(verdict)
        }
        Scan::Refused { offset, why } => Ok(FileVerdict::Lexical { offset, why }),
    }
}

/// A text has one verdict.
pub fn one_verdict()
    ensures { (text : List ℕ) (v w : FileVerdict) → IsVerdict text v → IsVerdict text w → v ≡ w }
{}
