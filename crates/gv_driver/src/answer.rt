//! Answers, and their outcome texts.
ghost use Rattle.std.specs.Prelude.{◌≡◌, ◌∷◌, IfOk, drop};
ghost use Rattle.gv_driver.specs.Tables.{answer_in, answer_text, begins_with_one, export_part, is_good};

use crate::node::Answer;
use fact_cache::Cache;
use gv_base::{Bytes, NoMemory};
use std::alloc::Global;

fn begins_with_one_byte(text: &[u8]) -> bool
    ensures { result ≡ begins_with_one text.now }
{
    match text {
        [] => false,
        [first, ..] => *first == 49,
    }
}

fn tail(text: &[u8]) -> &[u8]
    ensures { result.now ≡ drop 1 text.now }
{
    if text.is_empty() { text } else { &text[1..] }
}

/// The answer that an outcome text tells.
pub(crate) fn read_answer(alloc: Global, cache: &Cache, text: &[u8]) -> Result<Answer, NoMemory>
    ensures { IfOk result (λ a. a ≡ answer_in text.now) }
{
    let rest = Bytes::counted(alloc, tail(tail(text)))?;
    if begins_with_one_byte(text) {
        Ok(Answer::Accepted(cache.keyed(rest)))
    } else {
        Ok(Answer::Refused(rest))
    }
}

fn text_after(alloc: Global, digit: u8, rest: &[u8]) -> Result<Vec<u8>, NoMemory>
    ensures { IfOk result (λ v. v.items ≡ digit ∷ 59 ∷ rest.now) }
{
    let mut text = Vec::new(alloc);
    text.push(digit)?;
    text.push(b';')?;
    text.extend_from_slice(rest)?;
    Ok(text)
}

/// The outcome text of an answer.
pub(crate) fn write_answer(alloc: Global, answer: &Answer) -> Result<Bytes, NoMemory>
    ensures { IfOk result (λ b. b ≡ answer_text answer.now) }
{
    match answer {
        Answer::Accepted(export) => {
            let text = text_after(alloc, b'1', export.as_slice())?;
            Ok(Bytes::new(text))
        }
        Answer::Refused(marks) => {
            let text = text_after(alloc, b'0', marks.as_slice())?;
            Ok(Bytes::new(text))
        }
    }
}

/// Whether the package is accepted.
pub(crate) fn is_accepted(answer: &Answer) -> bool
    ensures { result ≡ is_good answer.now }
{
    match answer {
        Answer::Accepted(_) => true,
        Answer::Refused(_) => false,
    }
}

/// The export text of an accepted package.
pub(crate) fn export_of(answer: &Answer) -> &[u8]
    ensures { result.now ≡ export_part answer.now }
{
    match answer {
        Answer::Accepted(export) => export.as_slice(),
        Answer::Refused(_) => b"",
    }
}

/// The export text of an accepted package, for one holder more.
pub(crate) fn shared_export(alloc: Global, answer: &Answer) -> Result<Bytes, NoMemory>
    ensures { IfOk result (λ b. b ≡ export_part answer.now) }
{
    match answer {
        Answer::Accepted(export) => {
            let more = export.copy(alloc)?;
            Ok(more)
        }
        Answer::Refused(_) => Ok(Bytes::new(Vec::new(alloc))),
    }
}
