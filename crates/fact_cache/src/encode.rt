//! The text of a cache.
ghost use Rattle.std.specs.Prelude.{◌≡◌, ◌≤◌, ◌<◌, ◌+◌, ◌-◌, ◌++◌, ◌∷◌, [], ℕ, List, IfOk, OnOk, length, map, slice_index_or, slice_set};
ghost use Rattle.std.specs.List.{flat_map};
ghost use Rattle.gv_bytes.specs.Spelling.{text, natural, items};
ghost use Rattle.fact_cache.specs.declared.numbered.Numbered.{Numbered as Row};
ghost use Rattle.fact_cache.specs.Kept.{text_at};
ghost use Rattle.fact_cache.specs.CacheTexts.{HEADER, cache_text};
ghost use Rattle.fact_cache.specs.Numbered.{numbers_of};
ghost use Rattle.fact_cache.specs.Coded.{row_text};
ghost use Rattle.fact_cache.specs.Placed.{AreBelow};
ghost use Rattle.fact_cache.specs.Ranked.{rank_at, number_at, numbered_by, IsNoted};

use crate::coded::FRONT;
use crate::kept::Kept;
use crate::list::{Cache, row_at};
use crate::numbered::Numbered;
use gv_base::{Bytes, NoMemory};
use gv_bytes::{put_num, put_text};
use std::alloc::Global;
use std::collections::VecDeque;

fn height(order: &Vec<usize>) -> usize
    ensures { result ≡ length order.now.items }
{
    order.as_slice().len()
}

fn rank_of(ranks: &[usize], n: usize) -> usize
    ensures { result ≡ rank_at ranks.now n }
{
    match ranks.get(n) {
        None => 0,
        Some(rank) => *rank,
    }
}

fn set_rank(ranks: &mut Vec<usize>, n: usize, rank: usize)
    requires { n < length ranks.old.items }
    ensures { ranks.new.items ≡ slice_set ranks.old.items n rank }
{
    ranks[n] = rank;
}

/// Notes that a number is mentioned: where it is new, it comes next.
fn note(ranks: &mut Vec<usize>, order: &mut Vec<usize>, n: usize) -> Result<(), NoMemory>
    requires { n < length ranks.old.items }
    ensures size { length ranks.new.items ≡ length ranks.old.items }
    ensures noted { OnOk result ((before : List ℕ) → IsNoted ranks.old.items order.old.items before → IsNoted ranks.new.items order.new.items (before ++ n ∷ [])) }
{
    if rank_of(ranks, n) > 0 {
        return Ok(());
    }
    let next = height(order);
    order.push(n)?;
    set_rank(ranks, n, next + 1);
    Ok(())
}

fn note_at(numbers: &[usize], i: usize) -> usize
    requires { i < length numbers.now }
    ensures { result ≡ slice_index_or numbers.now i result }
{
    numbers[i]
}

fn note_all(
    ranks: &mut Vec<usize>,
    order: &mut Vec<usize>,
    numbers: &[usize],
) -> Result<(), NoMemory>
    requires { AreBelow (length ranks.old.items) numbers.now }
    ensures size { length ranks.new.items ≡ length ranks.old.items }
    ensures noted { OnOk result ((before : List ℕ) → IsNoted ranks.old.items order.old.items before → IsNoted ranks.new.items order.new.items (before ++ numbers.now)) }
{
    for i in 0..numbers.len() {
        let n = note_at(numbers, i);
        note(ranks, order, n)?;
    }
    Ok(())
}

fn note_row(ranks: &mut Vec<usize>, order: &mut Vec<usize>, row: &Numbered) -> Result<(), NoMemory>
    requires { AreBelow (length ranks.old.items) (numbers_of row.now) }
    ensures size { length ranks.new.items ≡ length ranks.old.items }
    ensures noted { OnOk result ((before : List ℕ) → IsNoted ranks.old.items order.old.items before → IsNoted ranks.new.items order.new.items (before ++ numbers_of row.now)) }
{
    note_all(ranks, order, row.texts.as_slice())?;
    note(ranks, order, row.outcome)?;
    Ok(())
}

fn row_count(rows: &VecDeque<Numbered>) -> usize
    ensures { result ≡ length rows.now.items }
{
    rows.len()
}

/// Notes all that rows mention.
fn note_rows(
    ranks: &mut Vec<usize>,
    order: &mut Vec<usize>,
    rows: &VecDeque<Numbered>,
) -> Result<(), NoMemory>
    requires { AreBelow (length ranks.old.items) (flat_map numbers_of rows.now.items) }
    ensures { OnOk result ((before : List ℕ) → IsNoted ranks.old.items order.old.items before → IsNoted ranks.new.items order.new.items (before ++ flat_map numbers_of rows.now.items)) }
{
    for i in 0..row_count(rows) {
        let row = row_at(rows, i);
        note_row(ranks, order, row)?;
    }
    Ok(())
}

/// No number has a rank yet.
fn unranked(alloc: Global, count: usize) -> Result<Vec<usize>, NoMemory>
    ensures { IfOk result (λ ranks. (length ranks.items ≡ count) × ((n : ℕ) → rank_at ranks.items n ≡ 0)) }
{
    let mut ranks = Vec::new(alloc);
    for _ in 0..count {
        ranks.push(0)?;
    }
    Ok(ranks)
}

/// A place's number in the text.
fn number_of(ranks: &[usize], n: usize) -> usize
    ensures { result ≡ number_at ranks.now n }
{
    rank_of(ranks, n).saturating_sub(1)
}

fn put_texts(out: &mut Vec<u8>, kept: &Kept, order: &[usize]) -> Result<(), NoMemory>
    ensures { OnOk result (out.new.items ≡ out.old.items ++ items (λ (n : ℕ). text (text_at kept.now n)) order.now) }
{
    put_num(out, order.len() as i128)?;
    for n in order {
        put_text(out, kept.text(*n))?;
    }
    Ok(())
}

fn put_numbers(out: &mut Vec<u8>, ranks: &[usize], numbers: &[usize]) -> Result<(), NoMemory>
    ensures { OnOk result (out.new.items ≡ out.old.items ++ items (λ (n : ℕ). natural (number_at ranks.now n)) numbers.now) }
{
    put_num(out, numbers.len() as i128)?;
    for n in numbers {
        put_num(out, number_of(ranks, *n) as i128)?;
    }
    Ok(())
}

fn put_natural(out: &mut Vec<u8>, n: usize) -> Result<(), NoMemory>
    ensures { OnOk result (out.new.items ≡ out.old.items ++ natural n) }
{
    put_num(out, n as i128)?;
    Ok(())
}

fn put_row(out: &mut Vec<u8>, ranks: &[usize], row: &Numbered) -> Result<(), NoMemory>
    ensures { OnOk result (out.new.items ≡ out.old.items ++ row_text (numbered_by ranks.now row.now)) }
{
    put_natural(out, row.node as usize)?;
    put_numbers(out, ranks, row.texts.as_slice())?;
    put_natural(out, number_of(ranks, row.outcome))?;
    Ok(())
}

fn put_rows(out: &mut Vec<u8>, ranks: &[usize], rows: &VecDeque<Numbered>) -> Result<(), NoMemory>
    ensures { OnOk result (out.new.items ≡ out.old.items ++ items (λ (r : Row). row_text (numbered_by ranks.now r)) rows.now.items) }
{
    put_num(out, row_count(rows) as i128)?;
    for i in 0..row_count(rows) {
        let row = row_at(rows, i);
        put_row(out, ranks, row)?;
    }
    Ok(())
}

fn write(
    alloc: Global,
    kept: &Kept,
    ranks: &[usize],
    order: &[usize],
    rows: &VecDeque<Numbered>,
) -> Result<Bytes, NoMemory>
    ensures { IfOk result (λ bytes. bytes ≡ HEADER ++ items (λ (n : ℕ). text (text_at kept.now n)) order.now ++ items (λ (r : Row). row_text (numbered_by ranks.now r)) rows.now.items) }
{
    let mut out = Vec::new(alloc);
    out.extend_from_slice(FRONT)?;
    put_texts(&mut out, kept, order)?;
    put_rows(&mut out, ranks, rows)?;
    Ok(Bytes::new(out))
}

impl Cache {
    /// The text of the cache: its distinct texts in order of first mention, then its entries by the numbers of
    /// their texts.
    pub fn encode(&self) -> Result<Bytes, NoMemory>
        ensures { IfOk result (λ bytes. bytes ≡ cache_text self.now) }
    {
        let mut ranks = unranked(self.alloc, self.kept.size())?;
        let mut order = Vec::new(self.alloc);
        note_rows(&mut ranks, &mut order, &self.rows)?;
        let bytes = write(self.alloc, &self.kept, &ranks, &order, &self.rows)?;
        Ok(bytes)
    }
}
