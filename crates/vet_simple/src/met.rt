//! What is written of operands of a chain, and what was met in a run of them.
ghost use Rattle.std.specs.Prelude.{◌≡◌, ◌++◌, List, ℕ, Some, None, if◌then◌else◌, IfOk, OnOk};
ghost use Rattle.std.specs.Str.{bytes_eq};
ghost use Rattle.analysis_core.specs.declared.analyzer_name.AnalyzerName.TheVariants as analyzer;
ghost use Rattle.findings.specs.Passes.{unit_in};
ghost use Rattle.vet_words.specs.Diagnosing.{diagnosed_at};
ghost use Rattle.vet_simple.specs.Bools.{joined, redundant_word, suspect_word, pair_text};
ghost use Rattle.vet_simple.specs.InRuns.{kept, noted};

use crate::chains::Chain;
use analysis_core::{AnalyzerName, Diagnostic};
use findings::Pass;
use gv_base::NoMemory;
use std::alloc::Global;
use std::collections::HashMap;
use vet_words::{diagnose_at, spelling};

// ---- texts

fn joined(c: Chain) -> &'static [u8]
    ensures { result.now ≡ joined c }
{
    match c {
        Chain::And => b" && ",
        Chain::Or => b" || ",
    }
}

pub(crate) fn redundant_word(c: Chain) -> &'static [u8]
    ensures { result.now ≡ redundant_word c }
{
    match c {
        Chain::And => b"redundant and: ",
        Chain::Or => b"redundant or: ",
    }
}

pub(crate) fn suspect_word(c: Chain) -> &'static [u8]
    ensures { result.now ≡ suspect_word c }
{
    match c {
        Chain::And => b"suspect and: ",
        Chain::Or => b"suspect or: ",
    }
}

fn pair_text(
    alloc: Global,
    p: &Pass,
    file: u32,
    c: Chain,
    word: &[u8],
    x: u32,
    y: u32,
) -> Result<Vec<u8>, NoMemory>
    ensures { IfOk result (λ text. text.items ≡ pair_text (unit_in p.now) file c word.now x y) }
{
    let first = spelling(alloc, p, file, x)?;
    let second = spelling(alloc, p, file, y)?;
    let mut text = Vec::new(alloc);
    text.extend_from_slice(word)?;
    text.extend_from_slice(&first)?;
    text.extend_from_slice(joined(c))?;
    text.extend_from_slice(&second)?;
    Ok(text)
}

pub(crate) fn push_pair(
    alloc: Global,
    p: &Pass,
    file: u32,
    c: Chain,
    word: &[u8],
    x: u32,
    y: u32,
    found: &mut Vec<Diagnostic>,
) -> Result<(), NoMemory>
    ensures { OnOk result (found.new.items ≡ found.old.items ++ diagnosed_at (unit_in p.now) file x analyzer.Bools (pair_text (unit_in p.now) file c word.now x y) None) }
{
    let text = pair_text(alloc, p, file, c, word, x, y)?;
    diagnose_at(p, file, x, AnalyzerName::Bools, text, None, found)?;
    Ok(())
}

// ---- what was met

fn get(met: &HashMap<Vec<u8>, u32>, key: &[u8]) -> Option<u32>
    ensures { result ≡ kept met.now key.now }
{
    met.get(key).copied()
}

fn put(met: &mut HashMap<Vec<u8>, u32>, key: Vec<u8>, x: u32) -> Result<(), NoMemory>
    ensures { OnOk result ((k : List ℕ) → kept met.new k ≡ (if bytes_eq key.items k then Some x else kept met.old k)) }
{
    met.insert(key, x)?;
    Ok(())
}

/// What was noted under a key; where nothing was, this is noted.
pub(crate) fn note(
    met: &mut HashMap<Vec<u8>, u32>,
    key: Vec<u8>,
    x: u32,
) -> Result<Option<u32>, NoMemory>
    ensures before { IfOk result (λ o. o ≡ kept met.old key.items) }
    ensures after { OnOk result ((k : List ℕ) → kept met.new k ≡ noted (kept met.old k) (bytes_eq key.items k) x) }
{
    match get(met, &key) {
        Some(y) => Ok(Some(y)),
        None => {
            put(met, key, x)?;
            Ok(None)
        }
    }
}
