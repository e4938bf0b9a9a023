//! A look-up of an input that is handed in as slices: nothing is copied.
ghost use Rattle.std.specs.Prelude.{◌≡◌, ◌<◌, ◌^◌, List, [], ℕ, length, map, option_map, slice_index_or};
ghost use Rattle.std.specs.Str.{bytes_eq};
ghost use Rattle.fact_cache.specs.Inputs.{same_texts, same_input};
ghost use Rattle.fact_cache.specs.Spread.{mixed_texts, bucket_of};
ghost use Rattle.fact_cache.specs.Caches.{lookup};
ghost use Rattle.fact_cache.specs.Kept.{text_at};
ghost use Rattle.fact_cache.specs.Numbered.{input_in, entry_in, IsCache};
ghost use Rattle.fact_cache.specs.declared.texts.Input.{Input};

use crate::index::Index;
use crate::kept::Kept;
use crate::numbered::Numbered;
use crate::spread::{Key, input_head, mix_number, text_number};
use std::collections::VecDeque;

fn mix_slices(key: Key, seed: u64, texts: &[&[u8]]) -> u64
    ensures { result ≡ mixed_texts key seed (map (λ t. t.now) texts.now) }
{
    let mut hash = seed;
    for text in texts {
        hash = mix_number(key, hash, text_number(key, *text));
    }
    hash
}

#[tactic(auto, unfolding(crate::specs::Spread::bucket_of))]
pub(crate) fn bucket(key: Key, node: u8, texts: &[&[u8]]) -> usize
    ensures value { result ≡ bucket_of key (record { node = node; texts = map (λ t. t.now) texts.now }) }
    ensures below { result < 2 ^ 16 }
{
    input_head(key, mix_slices(key, node as u64, texts))
}

fn is_same_text(kept: &Kept, n: usize, text: &[u8]) -> bool
    ensures { result ≡ bytes_eq (text_at kept.now n) text.now }
{
    kept.text(n) == text
}

fn are_same_texts(kept: &Kept, numbers: &[usize], texts: &[&[u8]]) -> bool
    ensures { result ≡ same_texts (map (text_at kept.now) numbers.now) (map (λ t. t.now) texts.now) }
{
    if numbers.len() != texts.len() {
        return false;
    }
    for i in 0..numbers.len() {
        if !is_same_text(kept, numbers[i], texts[i]) {
            return false;
        }
    }
    true
}

fn is_row_of(kept: &Kept, row: &Numbered, node: u8, texts: &[&[u8]]) -> bool
    ensures { result ≡ same_input (input_in kept.now row.now) (record { node = node; texts = map (λ t. t.now) texts.now }) }
{
    if row.node != node {
        return false;
    }
    are_same_texts(kept, row.texts.as_slice(), texts)
}

fn row_at(rows: &VecDeque<Numbered>, at: usize) -> &Numbered
    requires { at < length rows.now.items }
    ensures { result.now ≡ slice_index_or rows.now.items at result.now }
{
    &rows[at]
}

/// The outcome of the input of a node and these texts, whose chain begins at this head.
pub(crate) fn seek_from<'a>(
    key: Key,
    kept: &'a Kept,
    index: &Index,
    rows: &VecDeque<Numbered>,
    head: usize,
    node: u8,
    texts: &[&[u8]],
) -> Option<&'a [u8]>
    requires cache { IsCache key [] kept.now index.now rows.now.items }
    requires head { head ≡ bucket_of key (record { node = node; texts = map (λ t. t.now) texts.now }) }
    requires below { head < 2 ^ 16 }
    ensures { option_map (λ o. o.now) result ≡ lookup (map (entry_in kept.now) rows.now.items) (record { node = node; texts = map (λ t. t.now) texts.now }) }
{
    let _ = key;
    let mut at = index.last(head);
    while at > 0 {
        let row = row_at(rows, at - 1);
        if is_row_of(kept, row, node, texts) {
            return Some(kept.text(row.outcome));
        }
        at = index.before(at - 1);
    }
    None
}

/// The outcome of the input of a node and these texts.
pub(crate) fn seek_slices<'a>(
    key: Key,
    kept: &'a Kept,
    index: &Index,
    rows: &VecDeque<Numbered>,
    node: u8,
    texts: &[&[u8]],
) -> Option<&'a [u8]>
    requires { IsCache key [] kept.now index.now rows.now.items }
    ensures { option_map (λ o. o.now) result ≡ lookup (map (entry_in kept.now) rows.now.items) (record { node = node; texts = map (λ t. t.now) texts.now }) }
{
    let head = bucket(key, node, texts);
    seek_from(key, kept, index, rows, head, node, texts)
}
