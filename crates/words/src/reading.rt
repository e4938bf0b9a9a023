//! The reading of the words of a command line.
ghost use Rattle.std.specs.Prelude.{◌≡◌, ◌<◌, ℕ, List, [], map, length, slice_index_or, string_bytes, MatchResult};
ghost use Rattle.words.specs.Grammar.{Asks};
ghost use Rattle.words.specs.declared.asked.Words.{Words};
ghost use Rattle.words.specs.Machine.{reading};

use crate::asked::{Usage, Words};
use crate::draft::Draft;

/// The word at a place.
fn word_at(words: &[String], at: usize) -> &str
    requires { at < length words.now }
    ensures { result.now ≡ slice_index_or (map string_bytes words.now) at [] }
{
    words[at].as_str()
}

/// What words ask for, by the machine.
fn reading(words: &[String]) -> Option<Words>
    ensures { result ≡ reading (map string_bytes words.now) }
{
    let mut draft = Draft::START;
    for at in 0..words.len() {
        match draft.step(word_at(words, at)) {
            Some(next) => draft = next,
            None => return None,
        }
    }
    draft.finish()
}

/// What words ask for; `Usage` exactly where the grammar has no reading of them. The program's name
/// isn't among them.
pub fn read_words(words: &[String]) -> Result<Words, Usage>
    ensures { MatchResult result (λ call. Asks (map string_bytes words.now) call) (λ _. (call : Words) → Asks (map string_bytes words.now) call → ⊥) }
{
    match reading(words) {
        Some(words) => Ok(words),
        None => Err(Usage),
    }
}
