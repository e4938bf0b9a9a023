//! Edits that overlap, fixes that are chosen, bytes that are rewritten.
ghost use Rattle.std.specs.Prelude.{◌<◌, ℕ, IsTrue, length, slice_index_or};
ghost use Rattle.fix_apply.specs.declared.edits.Edit.{Edit};
ghost use Rattle.fix_apply.specs.Edits.{Overlap};
ghost use Rattle.fix_apply.specs.Rewriting.{LieIn, AreApart};

use crate::told::{add, add_comma, number, said, unread};
use bundles::bytes_of;
use fix_apply::{Choice, Edit, Fix, choose, overlaps, rewrite};
use gv_base::{Bytes, NoMemory, Row};
use std::alloc::Global;

/// The edit of `START:END:TEXT`.
fn edit_of(alloc: Global, word: &str) -> Result<Edit, NoMemory> {
    let mut fields = word.split(':');
    let start = number(fields.next().unwrap_or(""));
    let end = number(fields.next().unwrap_or(""));
    let text = Bytes::of(alloc, fields.next().unwrap_or("").as_bytes())?;
    Ok(Edit { start, end, text })
}

/// The edits of words, all but the first, which is another thing.
fn edits_of(alloc: Global, words: &str) -> Result<Vec<Edit>, NoMemory> {
    let mut edits = Vec::new(alloc);
    let mut pieces = words.split(' ');
    let _first = pieces.next();
    for word in pieces {
        edits.push(edit_of(alloc, word)?)?;
    }
    Ok(edits)
}

/// The first word.
fn first_word(words: &str) -> &str {
    match words.split_once(" ") {
        Some((first, _behind)) => first,
        None => words,
    }
}

/// `EDIT EDIT`: whether they overlap, asked in both orders.
fn overlapping(alloc: Global, input: &str) -> Result<Vec<u8>, NoMemory> {
    let (first, second) = input.split_once(" ").unwrap_or((input, ""));
    let first = edit_of(alloc, first)?;
    let second = edit_of(alloc, second)?;
    let text = format!(in alloc;
        "{} {}",
        overlaps(&first, &second),
        overlaps(&second, &first)
    )?;
    said(alloc, text.as_str())
}

/// The fix of `FILE EDIT ..`.
fn fix_of(alloc: Global, words: &str) -> Result<Fix, NoMemory> {
    let edits = edits_of(alloc, words)?;
    Ok(Fix {
        file: number(first_word(words)),
        edits: Row::new(edits),
    })
}

/// `FIX, ..`: what becomes of each.
fn chosen(alloc: Global, input: &str) -> Result<Vec<u8>, NoMemory> {
    let mut fixes = Vec::new(alloc);
    for words in input.split(", ") {
        fixes.push(fix_of(alloc, words)?)?;
    }
    let mut out = Vec::new(alloc);
    for choice in &choose(alloc, &fixes)? {
        add_comma(&mut out)?;
        let text = format!(in alloc; "{choice:?}")?;
        add(&mut out, text.as_str())?;
    }
    Ok(out)
}

/// Whether each edit lies in so many bytes.
fn lie_in(bytes: &[u8], edits: &[Edit]) -> bool
    ensures { IsTrue result → LieIn bytes.now edits.now }
{
    for edit in edits {
        if edit.start > edit.end || edit.end as usize > bytes.len() {
            return false;
        }
    }
    true
}

/// Whether the edit overlaps none of those before it.
fn is_apart(edits: &[Edit], number: usize) -> bool
    requires { number < length edits.now }
    ensures { IsTrue result → (i : ℕ) (d : Edit) → i < number → ¬ (Overlap (slice_index_or edits.now i d) (slice_index_or edits.now number d)) }
{
    for i in 0..number {
        if overlaps(&edits[i], &edits[number]) {
            return false;
        }
    }
    true
}

/// Whether no two edits overlap.
fn are_apart(edits: &[Edit]) -> bool
    ensures { IsTrue result → AreApart edits.now }
{
    for number in 0..edits.len() {
        if !is_apart(edits, number) {
            return false;
        }
    }
    true
}

/// `TEXT EDIT ..`: what the edits make of the text, if they lie apart in it.
fn rewritten(alloc: Global, input: &str) -> Result<Vec<u8>, NoMemory> {
    let edits = edits_of(alloc, input)?;
    let bytes = bytes_of(alloc, first_word(input))?;
    if lie_in(&bytes, &edits) && are_apart(&edits) {
        let made = rewrite(alloc, &bytes, &edits)?;
        return Ok(made);
    }
    unread(alloc)
}

/// Fixes that end before the next begins, and as many that overlap the last of them alone.
fn many_fixes(alloc: Global, count: u32) -> Result<Vec<Fix>, NoMemory> {
    let mut fixes = Vec::new(alloc);
    for number in 0..count {
        let start = number.wrapping_mul(10);
        let words = format!(in alloc; "0 {start}:{}:", start.wrapping_add(5))?;
        fixes.push(fix_of(alloc, words.as_str())?)?;
    }
    let last = count.wrapping_sub(1).wrapping_mul(10);
    let (end, behind) = (last.wrapping_add(8), last.wrapping_add(9));
    let words = format!(in alloc; "0 {last}:{end}:a {behind}:{behind}:b")?;
    for _number in 0..count {
        fixes.push(fix_of(alloc, words.as_str())?)?;
    }
    Ok(fixes)
}

/// `NUMBER`: of twice so many fixes, how many of the first half are applied, and how many of the second overlap the last of the first.
fn many(alloc: Global, input: &str) -> Result<Vec<u8>, NoMemory> {
    let half = number(input) as u64;
    let fixes = many_fixes(alloc, number(input))?;
    let choices = choose(alloc, &fixes)?;
    let mut number = 0u64;
    let mut applied = 0u64;
    let mut blocked = 0u64;
    for choice in &choices {
        if number < half && *choice == Choice::Applied {
            applied = applied.saturating_add(1);
        }
        if number >= half && *choice == Choice::Overlaps(half.saturating_sub(1)) {
            blocked = blocked.saturating_add(1);
        }
        number = number.saturating_add(1);
    }
    let text = format!(in alloc;
        "{} fixes, applied {applied}, blocked {blocked}",
        choices.len()
    )?;
    said(alloc, text.as_str())
}

/// The answer to the input of a case of this file.
pub fn answer(alloc: Global, name: &str, input: &str) -> Result<Vec<u8>, NoMemory> {
    match name {
        "chosen" => chosen(alloc, input),
        "many" => many(alloc, input),
        "overlapping" => overlapping(alloc, input),
        "rewritten" => rewritten(alloc, input),
        _ => unread(alloc),
    }
}
