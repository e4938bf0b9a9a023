//! The families of cases, each a folder.
use crate::heads::heads;
use crate::labels::labels;
use crate::needs::needs;
use crate::pieces::pieces;
use crate::tokens::tokens;
use crate::types::answers;
use crate::uses::uses;
use anyhow::Result;
use std::alloc::Global;

/// What is asked of the texts of a case.
#[derive(Clone, Copy, Drop)]
pub enum Family {
    /// Their tokens.
    Tokens,
    /// How many pieces they are parsed in.
    Pieces,
    /// Their heads.
    Heads,
    /// What their names denote.
    Uses,
    /// What their labels and jumps denote.
    Labels,
    /// The order of need of their objects.
    Needs,
    /// How types relate.
    Types,
}

/// The family whose folder has this name.
pub fn family_of(name: &str) -> Option<Family> {
    match name {
        "tokens" => Some(Family::Tokens),
        "pieces" => Some(Family::Pieces),
        "heads" => Some(Family::Heads),
        "uses" => Some(Family::Uses),
        "labels" => Some(Family::Labels),
        "needs" => Some(Family::Needs),
        "types" => Some(Family::Types),
        _ => None,
    }
}

impl Family {
    /// What the product says of the texts.
    pub fn answer(self, alloc: Global, texts: &[&[u8]]) -> Result<String> {
        match self {
            Family::Tokens => tokens(alloc, texts),
            Family::Pieces => pieces(alloc, texts),
            Family::Heads => heads(alloc, texts),
            Family::Uses => uses(alloc, texts),
            Family::Labels => labels(alloc, texts),
            Family::Needs => needs(alloc, texts),
            Family::Types => answers(alloc, texts),
        }
    }
}
