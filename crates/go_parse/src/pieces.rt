//! The pieces of a file in turn.
ghost use Rattle.std.specs.Prelude.{◌≡◌, ◌<◌, ◌≤◌, ◌+◌, ◌-◌, ◌^◌, ℕ, List, length, drop, IfOk, Option, Some, None, [], IsTrue, ◌↔◌, take, cond, true};
ghost use Rattle.go_parse.specs.Reading.{first_size, deep_now, Stands, Stepped, Read};
ghost use Rattle.go_tree.specs.Arena.{highest};
ghost use Rattle.go_tree.specs.Pieces.{deeper, wanted, after, is_import, IsEnough};
ghost use Rattle.go_tree.specs.declared.grammar.Stage.TheVariants.{Imports, Declarations};

use crate::arena::highest;
use crate::parser::Parser;
use crate::token_classes::DEPTH_LIMIT;
use go_tree::{Category, Node, Stage};
use std::alloc::{AllocError, Global};

/// What the reading of a file's pieces came to.
#[derive(Drop)]
pub struct Reading {
    /// The parser, with the trees of the pieces.
    pub parser: Parser,
    /// The first token of the first piece that nests too deep.
    pub deep: Option<u32>,
    /// The first token of the piece that is not spelled, which ends the reading.
    pub bad: Option<u32>,
}

/// A reader between two pieces.
#[derive(Drop)]
pub struct Reader {
    parser: Parser,
    stage: Stage,
    deep: Option<u32>,
    at: usize,
}

/// The class of a semicolon.
const SEMICOLON: u8 = 31;

/// The class of `import`.
const IMPORT: u8 = 20;

/// The most tokens for whose nodes there is room at first.
const MOST_AT_FIRST: usize = 1 << 16;

/// The bracket depth after a token of a class.
fn deeper(depth: usize, class: u8) -> usize
    requires { depth < 2 ^ 32 }
    ensures { result ≡ deeper depth class }
{
    match class {
        36 | 38 | 40 => depth + 1,
        37 | 39 | 41 => depth.saturating_sub(1),
        _ => depth,
    }
}

/// Where the piece ends that begins at a place: at its semicolon, or at the end of the classes.
fn piece_end(classes: &[u8], from: usize) -> usize
    requires inside { from ≤ length classes.now }
    requires few { length classes.now < 2 ^ 32 }
    ensures { result ≡ from + first_size 0 (drop from classes.now) }
{
    let mut depth = 0;
    for at in from..classes.len() {
        let class = classes[at];
        if class == SEMICOLON && depth == 0 {
            return at;
        }
        depth = deeper(depth, class);
    }
    classes.len()
}

/// What a piece of a stage has to be.
fn wanted(stage: Stage) -> Category
    ensures { result ≡ wanted stage }
{
    match stage {
        Stage::Clause => Category::ClausePiece,
        Stage::Imports => Category::TopPiece,
        Stage::Declarations => Category::Declaration,
    }
}

/// Whether the tokens begin with `import`.
fn is_import(piece: &[u8]) -> bool
    ensures { result ≡ is_import piece.now }
{
    !piece.is_empty() && piece[0] == IMPORT
}

/// The stage after a piece.
fn after(stage: Stage, piece: &[u8]) -> Stage
    ensures { result ≡ after stage piece.now }
{
    match stage {
        Stage::Clause => Stage::Imports,
        Stage::Imports => after_import(is_import(piece)),
        Stage::Declarations => Stage::Declarations,
    }
}

fn after_import(again: bool) -> Stage
    ensures { result ≡ cond again Imports Declarations }
{
    if again {
        Stage::Imports
    } else {
        Stage::Declarations
    }
}

/// The place of the first piece that is too deep, past a piece of a depth.
fn deep_now(deep: Option<u32>, depth: u32, at: u32) -> Option<u32>
    ensures { result ≡ deep_now deep depth at }
{
    match deep {
        Some(place) => Some(place),
        None => too_deep(depth, at),
    }
}

fn too_deep(depth: u32, at: u32) -> Option<u32>
    ensures { result ≡ deep_now None depth at }
{
    if depth > DEPTH_LIMIT { Some(at) } else { None }
}

impl Reader {
    fn new(alloc: Global, nodes: Vec<Node>) -> Reader
        requires { nodes.items ≡ [] }
        ensures start { (cs : List ℕ) → Stands cs result }
        ensures at { result.at ≡ 0 }
    {
        Reader {
            parser: Parser::new(alloc, nodes),
            stage: Stage::Clause,
            deep: None,
            at: 0,
        }
    }

    /// Goes past a piece, which ends at its semicolon, if it is spelled.
    fn step(&mut self, classes: &[u8], end: usize) -> Result<bool, AllocError>
        requires few { length classes.now < 2 ^ 32 }
        requires stands { Stands classes.now self.old }
        requires inside { self.old.at ≤ length classes.now }
        requires end { end ≡ self.old.at + first_size 0 (drop self.old.at classes.now) }
        requires closed { end < length classes.now }
        ensures { IfOk result (λ good. Stepped good classes.now (end + 1) self.new) }
    {
        let before = height(&self.parser.heights);
        let front = front(classes, end);
        let good = self.parser.spell(wanted(self.stage), front, self.at)?;
        if !good {
            return Ok(false);
        }
        let depth = highest_from(&self.parser.heights, before);
        let piece = part(classes, self.at, end);
        self.deep = deep_now(self.deep, depth, self.at as u32);
        self.stage = after(self.stage, piece);
        self.at = end + 1;
        Ok(true)
    }

    /// What the reading came to, where what is left has no semicolon.
    fn end(self, classes: &[u8]) -> Reading
        requires few { length classes.now < 2 ^ 32 }
        requires stands { Stands classes.now self }
        requires inside { self.at ≤ length classes.now }
        requires open { length classes.now ≤ self.at + first_size 0 (drop self.at classes.now) }
        ensures { Read classes.now result }
    {
        if is_whole(self.at, classes.len(), self.stage) {
            return Reading {
                parser: self.parser,
                deep: self.deep,
                bad: None,
            };
        }
        Reading {
            parser: self.parser,
            deep: self.deep,
            bad: Some(self.at as u32),
        }
    }
}

/// How many trees stand side by side.
fn height(heights: &Vec<u32>) -> usize
    ensures { result ≡ length heights.now.items }
{
    heights.len()
}

/// The greatest of the heights from a place on, 0 of none.
#[tactic(auto, using(crate::proofs::PieceLaws::highest_past))]
fn highest_from(heights: &[u32], from: usize) -> u32
    ensures { result ≡ highest (drop from heights.now) }
{
    if from < heights.len() {
        highest(&heights[from..])
    } else {
        0
    }
}

/// The classes before a place.
fn front(classes: &[u8], end: usize) -> &[u8]
    requires { end ≤ length classes.now }
    ensures { result.now ≡ take end classes.now }
{
    &classes[..end]
}

/// The classes from a place to another.
fn part(classes: &[u8], from: usize, to: usize) -> &[u8]
    requires order { from ≤ to }
    requires inside { to ≤ length classes.now }
    ensures { result.now ≡ take (to - from) (drop from classes.now) }
{
    &classes[from..to]
}

/// Whether nothing is left and no piece is missing.
fn is_whole(at: usize, length: usize, stage: Stage) -> bool
    ensures { IsTrue result ↔ (at ≡ length) × IsEnough stage }
{
    at == length && is_enough(stage)
}

/// Whether no piece is missing at the end.
fn is_enough(stage: Stage) -> bool
    ensures { IsTrue result ↔ IsEnough stage }
{
    match stage {
        Stage::Clause => false,
        Stage::Imports => true,
        Stage::Declarations => true,
    }
}

/// How many nodes the list for those of so many tokens has room for at first: most files have three for four tokens, and few so many tokens.
fn room(tokens: usize) -> usize {
    let few = tokens.min(MOST_AT_FIRST);
    few - few / 4
}

/// Reads the pieces of a file in turn, up to one that is not spelled.
pub fn read(alloc: Global, classes: &[u8]) -> Result<Reading, AllocError>
    requires { length classes.now < 2 ^ 32 }
    ensures { IfOk result (λ reading. Read classes.now reading) }
{
    let nodes = Vec::with_capacity(alloc, room(classes.len()))?;
    let mut reader = Reader::new(alloc, nodes);
    loop {
        let end = piece_end(classes, reader.at);
        if end >= classes.len() {
            return Ok(reader.end(classes));
        }
        if !reader.step(classes, end)? {
            return Ok(Reading {
                bad: Some(reader.at as u32),
                parser: reader.parser,
                deep: reader.deep,
            });
        }
    }
}
