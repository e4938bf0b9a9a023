//! A cache made again of its texts and of rows of their numbers.
ghost use Rattle.std.specs.Prelude.{◌≡◌, ◌<◌, [], ℕ, true, false, None, IfOk, IfSome, IfNone, length, map, slice_index_or};
ghost use Rattle.std.specs.List.{flat_map};
ghost use Rattle.fact_cache.specs.Kept.{text_at, AreMixed, IsAbsent, IsThere};
ghost use Rattle.fact_cache.specs.Caches.{lookup, AreDistinct};
ghost use Rattle.fact_cache.specs.Numbered.{input_in, entry_in, numbers_of, AreTaken, IsCache};
ghost use Rattle.fact_cache.specs.Coded.{nth, decoded, AreApart, IsInOrder, AreCoded};
ghost use Rattle.fact_cache.specs.Placed.{place_at, placed, AreBelow, IsHeldNext, IsPut};

use crate::again::{has_input, hold_row_again, row_head};
use crate::index::Index;
use crate::kept::Kept;
use crate::list::append;
use crate::numbered::Numbered;
use crate::spread::Key;
use gv_base::{NoMemory, Row};
use std::alloc::Global;
use std::collections::VecDeque;

fn nth_text<'a>(texts: &[&'a [u8]], n: usize) -> &'a [u8]
    ensures { result.now ≡ nth (map (λ t. t.now) texts.now) n }
{
    match texts.get(n) {
        None => &[],
        Some(text) => *text,
    }
}

/// Holds a text that isn't kept yet, and adds its place; false where it is kept.
fn hold_text(
    key: Key,
    kept: &mut Kept,
    places: &mut Vec<usize>,
    text: &[u8],
) -> Result<bool, NoMemory>
    requires { AreMixed key kept.old }
    ensures mixed { AreMixed key kept.new }
    ensures held { IfOk result (λ fresh. fresh ≡ true → IsAbsent kept.old text.now × IsHeldNext kept.old kept.new text.now places.old.items places.new.items) }
    ensures there { IfOk result (λ fresh. fresh ≡ false → IsThere kept.old text.now) }
{
    let place = kept.hold_fresh(key, text)?;
    match place {
        None => Ok(false),
        Some(n) => {
            places.push(n)?;
            Ok(true)
        }
    }
}

/// Holds each text once; false where two are equal.
pub(crate) fn hold_texts(
    key: Key,
    kept: &mut Kept,
    places: &mut Vec<usize>,
    texts: &[&[u8]],
) -> Result<bool, NoMemory>
    requires mixed { AreMixed key kept.old }
    requires empty { kept.old ≡ [] }
    requires none { places.old.items ≡ [] }
    ensures mixed { AreMixed key kept.new }
    ensures taken { IfOk result (λ apart. apart ≡ true → AreTaken kept.old kept.new (map (λ t. t.now) texts.now) places.new.items) }
    ensures apart { IfOk result (λ apart. apart ≡ true → AreApart (map (λ t. t.now) texts.now)) }
    ensures same { IfOk result (λ apart. apart ≡ false → AreApart (map (λ t. t.now) texts.now) → ⊥) }
{
    for i in 0..texts.len() {
        let text = nth_text(texts, i);
        let fresh = hold_text(key, kept, places, text)?;
        if !fresh {
            return Ok(false);
        }
    }
    Ok(true)
}

fn place_of(places: &[usize], n: usize) -> usize
    ensures { result ≡ place_at places.now n }
{
    match places.get(n) {
        None => 0,
        Some(place) => *place,
    }
}

fn places_of(alloc: Global, places: &[usize], numbers: &[usize]) -> Result<Vec<usize>, NoMemory>
    ensures { IfOk result (λ list. list.items ≡ map (place_at places.now) numbers.now) }
{
    let mut list = Vec::new(alloc);
    for n in numbers {
        list.push(place_of(places, *n))?;
    }
    Ok(list)
}

fn placed_row(alloc: Global, places: &[usize], row: &Numbered) -> Result<Numbered, NoMemory>
    ensures { IfOk result (λ other. other ≡ placed places.now row.now) }
{
    let texts = places_of(alloc, places, row.texts.as_slice())?;
    let outcome = place_of(places, row.outcome);
    let texts = Row::new(texts);
    Ok(Numbered {
        node: row.node,
        texts,
        outcome,
    })
}

/// Adds the entry of a row of numbers; false where one has its input.
fn put_row(
    alloc: Global,
    key: Key,
    kept: &mut Kept,
    index: &mut Index,
    rows: &mut VecDeque<Numbered>,
    places: &[usize],
    coded: &Numbered,
) -> Result<bool, NoMemory>
    requires cache { IsCache key places.now kept.old index.old rows.old.items }
    requires below { AreBelow (length places.now) (numbers_of coded.now) }
    ensures put { IfOk result (λ fresh. fresh ≡ true → IsPut key places.now kept.old kept.new index.new rows.old.items rows.new.items (placed places.now coded.now)) }
    ensures found { IfOk result (λ fresh. fresh ≡ false → lookup (map (entry_in kept.old) rows.old.items) (input_in kept.old (placed places.now coded.now)) ≡ None → ⊥) }
{
    let row = placed_row(alloc, places, coded)?;
    if has_input(key, places, kept, index, rows, &row) {
        return Ok(false);
    }
    let head = row_head(key, kept, &row);
    hold_row_again(kept, &row)?;
    match append(index, rows, head, row) {
        Ok(()) => Ok(true),
        Err(_row) => Err(NoMemory),
    }
}

fn coded_at(coded: &[Numbered], i: usize) -> &Numbered
    requires { i < length coded.now }
    ensures { result.now ≡ slice_index_or coded.now i result.now }
{
    &coded[i]
}

/// Adds the entries of all rows; false where two have one input.
pub(crate) fn put_rows(
    alloc: Global,
    key: Key,
    kept: &mut Kept,
    index: &mut Index,
    rows: &mut VecDeque<Numbered>,
    places: &[usize],
    coded: &[Numbered],
) -> Result<bool, NoMemory>
    requires cache { IsCache key places.now kept.old index.old rows.old.items }
    requires none { rows.old.items ≡ [] }
    requires below { AreBelow (length places.now) (flat_map numbers_of coded.now) }
    ensures cache { IfOk result (λ apart. apart ≡ true → IsCache key places.now kept.new index.new rows.new.items) }
    ensures entries { IfOk result (λ apart. apart ≡ true → map (entry_in kept.new) rows.new.items ≡ map (decoded (map (text_at kept.old) places.now)) coded.now) }
    ensures same { IfOk result (λ apart. apart ≡ false → AreDistinct (map (decoded (map (text_at kept.old) places.now)) coded.now) → ⊥) }
{
    for i in 0..coded.len() {
        let row = coded_at(coded, i);
        let fresh = put_row(alloc, key, kept, index, rows, places, row)?;
        if !fresh {
            return Ok(false);
        }
    }
    Ok(true)
}
