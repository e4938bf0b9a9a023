//! What is said of a copied lock.
ghost use Rattle.std.specs.Prelude.{◌≡◌, codes, IfOk};
ghost use Rattle.findings.specs.Passes.{unit_in};
ghost use Rattle.vet_words.specs.Texts.{spelling_at};
ghost use Rattle.vet_locks.specs.Suspects.{said, text_of};

use crate::suspected::Words;
use findings::Pass;
use gv_base::NoMemory;
use std::alloc::Global;
use vet_words::spelling;

fn said(
    alloc: Global,
    p: &Pass,
    file: u32,
    front: &[u8],
    n: u32,
    back: &[u8],
) -> Result<Vec<u8>, NoMemory>
    ensures { IfOk result (λ text. text.items ≡ said front.now (spelling_at (unit_in p.now) file n) back.now) }
{
    let name = spelling(alloc, p, file, n)?;
    let mut text = Vec::new(alloc);
    text.extend_from_slice(front)?;
    text.extend_from_slice(&name)?;
    text.extend_from_slice(back)?;
    Ok(text)
}

fn plain(alloc: Global, words: &[u8]) -> Result<Vec<u8>, NoMemory>
    ensures { IfOk result (λ text. text.items ≡ words.now) }
{
    let mut text = Vec::new(alloc);
    text.extend_from_slice(words)?;
    Ok(text)
}

/// What is said of it.
pub fn text_of(alloc: Global, p: &Pass, file: u32, words: Words) -> Result<Vec<u8>, NoMemory>
    ensures { IfOk result (λ text. text.items ≡ text_of (unit_in p.now) file words) }
{
    match words {
        Words::Assigned(x) => {
            let text = said(alloc, p, file, b"assignment copies lock value to ", x, b"")?;
            Ok(text)
        }
        Words::Declared(x) => {
            let front = b"variable declaration copies lock value to ";
            let text = said(alloc, p, file, front, x, b"")?;
            Ok(text)
        }
        Words::Literal => {
            let text = plain(alloc, b"literal copies lock value")?;
            Ok(text)
        }
        Words::Returned => {
            let text = plain(alloc, b"return copies lock value")?;
            Ok(text)
        }
        Words::Argument(callee) => {
            let text = said(alloc, p, file, b"call of ", callee, b" copies lock value")?;
            Ok(text)
        }
        Words::Passed(name) => {
            let text = said(alloc, p, file, b"", name, b" passes lock by value")?;
            Ok(text)
        }
        Words::PassedByLiteral => {
            let text = plain(alloc, b"func passes lock by value")?;
            Ok(text)
        }
        Words::Ranged(x) => {
            let text = said(alloc, p, file, b"range var ", x, b" copies lock")?;
            Ok(text)
        }
    }
}
