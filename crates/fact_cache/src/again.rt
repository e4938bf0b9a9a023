//! Entries by the numbers of texts that are kept already. No byte of a text is read.
ghost use Rattle.std.specs.Prelude.{◌≡◌, ◌<◌, ◌^◌, ℕ, true, false, None, OnOk, All, length, map, slice_index_or};
ghost use Rattle.fact_cache.specs.declared.spread.Key.{Key as Spread};
ghost use Rattle.fact_cache.specs.Inputs.{same_texts, same_input};
ghost use Rattle.fact_cache.specs.Spread.{text_mix, mixed_texts, bucket_of};
ghost use Rattle.fact_cache.specs.Kept.{uses_at, text_at, AreMixed};
ghost use Rattle.fact_cache.specs.Caches.{lookup};
ghost use Rattle.fact_cache.specs.Numbered.{input_in, entry_in, numbers_of, AreTaken, IsCache};

use crate::index::Index;
use crate::kept::Kept;
use crate::list::row_at;
use crate::numbered::Numbered;
use crate::spread::{Key, input_head, mix_number};
use gv_base::NoMemory;
use std::collections::VecDeque;

/// Whether the texts of two lists of numbers are the same. Kept texts are distinct, so their numbers tell.
fn are_same_numbers(kept: &Kept, a: &[usize], b: &[usize]) -> bool
    requires first { All (λ m. 0 < uses_at kept.now m) a.now }
    requires second { All (λ m. 0 < uses_at kept.now m) b.now }
    ensures { result ≡ same_texts (map (text_at kept.now) a.now) (map (text_at kept.now) b.now) }
{
    if a.len() != b.len() {
        return false;
    }
    for i in 0..a.len() {
        if !kept.is_same(a[i], b[i]) {
            return false;
        }
    }
    true
}

fn is_row_like(kept: &Kept, row: &Numbered, other: &Numbered) -> bool
    requires first { All (λ m. 0 < uses_at kept.now m) row.now.texts }
    requires second { All (λ m. 0 < uses_at kept.now m) other.now.texts }
    ensures { result ≡ same_input (input_in kept.now row.now) (input_in kept.now other.now) }
{
    if row.node != other.node {
        return false;
    }
    are_same_numbers(kept, row.texts.as_slice(), other.texts.as_slice())
}

fn text_number_of(key: Key, kept: &Kept, n: usize) -> u64
    requires mixed { AreMixed key kept.now }
    requires used { 0 < uses_at kept.now n }
    ensures { result ≡ text_mix key (text_at kept.now n) }
{
    kept.mix(n)
}

fn mix_numbers(key: Key, seed: u64, kept: &Kept, numbers: &[usize]) -> u64
    requires mixed { AreMixed key kept.now }
    requires used { All (λ m. 0 < uses_at kept.now m) numbers.now }
    ensures { result ≡ mixed_texts key seed (map (text_at kept.now) numbers.now) }
{
    let mut hash = seed;
    for n in numbers {
        hash = mix_number(key, hash, text_number_of(key, kept, *n));
    }
    hash
}

/// The head of the chain of a row's input.
#[tactic(auto, unfolding(crate::specs::Spread::bucket_of))]
pub(crate) fn row_head(key: Key, kept: &Kept, row: &Numbered) -> usize
    requires mixed { AreMixed key kept.now }
    requires used { All (λ m. 0 < uses_at kept.now m) row.now.texts }
    ensures value { result ≡ bucket_of key (input_in kept.now row.now) }
    ensures below { result < 2 ^ 16 }
{
    input_head(
        key,
        mix_numbers(key, row.node as u64, kept, row.texts.as_slice()),
    )
}

/// Whether a row has the input of this one.
pub(crate) fn has_input(
    key: Key,
    more: &[usize],
    kept: &Kept,
    index: &Index,
    rows: &VecDeque<Numbered>,
    row: &Numbered,
) -> bool
    requires cache { IsCache key more.now kept.now index.now rows.now.items }
    requires used { All (λ m. 0 < uses_at kept.now m) row.now.texts }
    ensures absent { result ≡ false → lookup (map (entry_in kept.now) rows.now.items) (input_in kept.now row.now) ≡ None }
    ensures there { result ≡ true → lookup (map (entry_in kept.now) rows.now.items) (input_in kept.now row.now) ≡ None → ⊥ }
{
    let mut at = index.last(row_head(key, kept, row));
    while at > 0 {
        let other = row_at(rows, at - 1);
        if is_row_like(kept, other, row) {
            return true;
        }
        at = index.before(at - 1);
    }
    false
}

fn number_at(numbers: &[usize], i: usize) -> usize
    requires { i < length numbers.now }
    ensures { result ≡ slice_index_or numbers.now i result }
{
    numbers[i]
}

/// Uses kept texts once more.
fn hold_again_all(kept: &mut Kept, numbers: &[usize]) -> Result<(), NoMemory>
    requires used { All (λ m. 0 < uses_at kept.old m) numbers.now }
    ensures taken { OnOk result (AreTaken kept.old kept.new (map (text_at kept.old) numbers.now) numbers.now) }
    ensures mixed { (key : Spread) → AreMixed key kept.old → AreMixed key kept.new }
{
    for i in 0..numbers.len() {
        let n = number_at(numbers, i);
        kept.hold_again(n)?;
    }
    Ok(())
}

/// Uses the texts of a row once more.
pub(crate) fn hold_row_again(kept: &mut Kept, row: &Numbered) -> Result<(), NoMemory>
    requires used { All (λ m. 0 < uses_at kept.old m) row.now.texts }
    requires outcome { 0 < uses_at kept.old row.now.outcome }
    ensures taken { OnOk result (AreTaken kept.old kept.new (map (text_at kept.old) (numbers_of row.now)) (numbers_of row.now)) }
    ensures mixed { (key : Spread) → AreMixed key kept.old → AreMixed key kept.new }
{
    hold_again_all(kept, row.texts.as_slice())?;
    kept.hold_again(row.outcome)?;
    Ok(())
}
