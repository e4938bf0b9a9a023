//! The tree of a file's tokens.
ghost use Rattle.std.specs.Prelude.{◌≡◌, ◌<◌, ◌^◌, ℕ, List, length, IfOk, None, Option};
ghost use Rattle.go_parse.specs.Chunk.{AnswersChunk, AnswersVerdict, FindsOf};
ghost use Rattle.go_parse.specs.Machine.{state_of};
ghost use Rattle.go_parse.specs.Reading.{BadAt, Read, Reads};
ghost use Rattle.go_tree.specs.Classes.{classes};
ghost use Rattle.go_tree.specs.Pieces.{Spelled, Finding};
ghost use Rattle.go_tree.specs.declared.token.Token.{Token};
ghost use Rattle.go_tree.specs.declared.tree.FileTree.{FileTree};

use crate::parser::Parser;
use crate::pieces::{Reading, read};
use crate::token_classes::classes;
use go_tree::{FileTree, Token};
use gv_base::{NoMemory, Row};
use std::alloc::Global;

/// What the tokens of a file are.
#[derive(Drop)]
pub enum Chunk {
    /// The one tree that spells them, at most 250 deep.
    Spelled(FileTree),
    /// No tree spells them.
    NoTree,
    /// The one tree that spells them nests deeper.
    TooDeep,
}

/// What the pieces of a file are in turn. A piece is named by the number of its first token, which is
/// its semicolon where it is empty, and the number of tokens where a piece is missing.
#[derive(Drop)]
pub enum Verdict {
    /// Each piece is spelled, and this is the file's tree.
    Parsed(FileTree),
    /// No tree spells the piece.
    Syntax(u32),
    /// The one tree that spells the piece nests deeper than 250.
    TooDeep(u32),
}

/// The file's tree of a parser that has read all.
fn tree(parser: Parser, tokens: Vec<Token>) -> FileTree
    ensures { result ≡ record { tokens = tokens.items; nodes = parser.nodes.items; tops = parser.pending.items } }
{
    FileTree {
        tokens: Row::new(tokens),
        nodes: Row::new(parser.nodes),
        tops: Row::new(parser.pending),
    }
}

/// The chunk of a file that is spelled.
fn spelled(parser: Parser, deep: Option<u32>, tokens: Vec<Token>) -> Chunk
    ensures { (source : List ℕ) → Reads (classes source tokens.items) deep None (state_of parser) → AnswersChunk tokens.items source result }
{
    match deep {
        None => Chunk::Spelled(tree(parser, tokens)),
        Some(_) => Chunk::TooDeep,
    }
}

fn chunk_of(reading: Reading, tokens: Vec<Token>) -> Chunk
    ensures { (source : List ℕ) → Read (classes source tokens.items) reading → AnswersChunk tokens.items source result }
{
    match reading.bad {
        None => spelled(reading.parser, reading.deep, tokens),
        Some(_) => Chunk::NoTree,
    }
}

/// The verdict of a file that is spelled.
fn parsed(parser: Parser, deep: Option<u32>, tokens: Vec<Token>) -> Verdict
    ensures { (source : List ℕ) → Reads (classes source tokens.items) deep None (state_of parser) → AnswersVerdict tokens.items source result }
{
    match deep {
        None => Verdict::Parsed(tree(parser, tokens)),
        Some(at) => Verdict::TooDeep(at),
    }
}

/// The verdict of a file with a piece that is not spelled.
fn refused(at: u32, deep: Option<u32>) -> Verdict
    ensures { (tokens : List Token) (source : List ℕ) → BadAt (classes source tokens) deep at → AnswersVerdict tokens source result }
{
    match deep {
        None => Verdict::Syntax(at),
        Some(place) => Verdict::TooDeep(place),
    }
}

fn verdict_of(reading: Reading, tokens: Vec<Token>) -> Verdict
    ensures { (source : List ℕ) → Read (classes source tokens.items) reading → AnswersVerdict tokens.items source result }
{
    match reading.bad {
        None => parsed(reading.parser, reading.deep, tokens),
        Some(at) => refused(at, reading.deep),
    }
}

/// The tree of a file's tokens: `Spelled` exactly where a tree of depth at most 250 spells them,
/// `NoTree` exactly where none does, `TooDeep` exactly where one does and only deeper.
pub fn parse_chunk(alloc: Global, tokens: &[Token], source: &[u8]) -> Result<Chunk, NoMemory>
    requires { length tokens.now < 2 ^ 32 }
    ensures { IfOk result (λ chunk. AnswersChunk tokens.now source.now chunk) }
{
    let classes = classes(alloc, tokens, source)?;
    let reading = read(alloc, &classes)?;
    let copy = tokens.to_vec(alloc)?;
    Ok(chunk_of(reading, copy))
}

/// The verdict of a file's tokens: that of the first piece, in turn, that no tree of depth at most
/// 250 spells, else the file's tree.
pub fn parse_pieces(alloc: Global, tokens: &[Token], source: &[u8]) -> Result<Verdict, NoMemory>
    requires { length tokens.now < 2 ^ 32 }
    ensures { IfOk result (λ verdict. AnswersVerdict tokens.now source.now verdict) }
{
    let classes = classes(alloc, tokens, source)?;
    let reading = read(alloc, &classes)?;
    let copy = tokens.to_vec(alloc)?;
    Ok(verdict_of(reading, copy))
}

/// Two trees that spell the same tokens are one.
pub fn one_tree()
    ensures { (tokens : List Token) (source : List ℕ) (s t : FileTree) → Spelled tokens source s → Spelled tokens source t → s ≡ t }
{}

/// One thing is found of the same pieces.
pub fn one_finding()
    ensures { (tokens : List Token) (source : List ℕ) (v w : Finding) → FindsOf tokens source v → FindsOf tokens source w → v ≡ w }
{}
