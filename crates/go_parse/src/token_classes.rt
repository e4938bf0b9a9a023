//! The classes of tokens, by which the grammar's table reads them.
ghost use Rattle.std.specs.Prelude.{◌≡◌, ◌<◌, ◌≤◌, ◌^◌, IfOk, drop, length};
ghost use Rattle.go_tree.specs.Classes.{ahead, classes, next};

use go_grammar::{END, class_in, told};
use go_tree::Token;
use std::alloc::{AllocError, Global};

/// The most that a tree nests: a leaf has depth 1.
pub const DEPTH_LIMIT: u32 = 250;

/// The class of a comma, the least that others behind it may change.
const COMMA: u8 = 32;

/// The classes of the tokens in their source.
pub fn classes(alloc: Global, tokens: &[Token], source: &[u8]) -> Result<Vec<u8>, AllocError>
    ensures { IfOk result (λ found. found.items ≡ classes source.now tokens.now) }
{
    tokens
        .iter()
        .map(|token| class_in(source, token))
        .collect(alloc)
}

/// The class of the token at a place, that of the end past the last.
fn class_ahead(classes: &[u8], at: usize) -> u8
    ensures { result ≡ ahead (drop at classes.now) }
{
    if at < classes.len() { classes[at] } else { END }
}

/// The class that the grammar reads of the token at a place. Names, literals, keywords and semicolons are read alone.
#[tactic(auto, using(crate::proofs::Ahead::class_ahead, crate::proofs::Ahead::class_alone))]
pub(crate) fn class_at(classes: &[u8], at: usize) -> u8
    requires inside { at ≤ length classes.now }
    requires few { length classes.now < 2 ^ 32 }
    ensures { result ≡ next (drop at classes.now) }
{
    let class = class_ahead(classes, at);
    if class < COMMA {
        return class;
    }
    told(
        class,
        class_ahead(classes, at + 1),
        class_ahead(classes, at + 2),
    )
}
