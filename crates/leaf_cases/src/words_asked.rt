//! Lists of words, and what they ask for.
use crate::told::said;
use gv_base::NoMemory;
use std::alloc::Global;
use words::read_words;

/// The words of a line behind its first one, between single spaces.
fn words_of(alloc: Global, line: &str) -> Result<Vec<String>, NoMemory> {
    let mut words = Vec::new(alloc);
    let mut pieces = line.split(' ');
    let _program = pieces.next();
    for word in pieces {
        words.push(String::from_str(alloc, word)?)?;
    }
    Ok(words)
}

/// `gvet WORD ..`: what the words ask for.
pub fn answer(alloc: Global, input: &str) -> Result<Vec<u8>, NoMemory> {
    let words = words_of(alloc, input)?;
    match read_words(&words) {
        Ok(call) => {
            let text = format!(in alloc;
                "{:?} workers {} only {} json {}",
                call.asked, call.workers, call.only, call.json
            )?;
            said(alloc, text.as_str())
        }
        Err(_) => said(alloc, "usage"),
    }
}
