//! Reading the parts of a cache's text: its texts as slices, and its entries as rows of their numbers.
ghost use Rattle.std.specs.Prelude.{◌≡◌, ◌-◌, ◌^◌, map};
ghost use Rattle.std.specs.Str.{bytes_eq};
ghost use Rattle.gv_bytes.specs.Reading.{Gives, natural_at, text_at, each_at, items_at};
ghost use Rattle.fact_cache.specs.CacheTexts.{HEADER};
ghost use Rattle.fact_cache.specs.Coded.{row_at, header_at, coded_of};

use crate::numbered::Numbered;
use gv_base::Row;
use gv_bytes::{Unread, read_natural, split_text};
use std::alloc::Global;

/// A cache's text begins with this: what it is, and the version of its form.
pub(crate) const FRONT: &[u8] = b"gvcache 1\n";

fn is_front(bytes: &[u8]) -> bool
    ensures { result ≡ bytes_eq bytes.now HEADER }
{
    bytes == FRONT
}

#[tactic(auto, unfolding(crate::specs::Coded::header_at))]
fn after_front(bytes: &[u8]) -> Result<&[u8], Unread>
    ensures { Gives (λ x. x.now) result (header_at bytes.now) }
{
    if bytes.len() < 10 {
        return Err(Unread::Unspelled);
    }
    let (front, rest) = bytes.split_at(10);
    if !is_front(front) {
        return Err(Unread::Unspelled);
    }
    Ok(rest)
}

fn text_of(bytes: &[u8]) -> Result<(&[u8], &[u8]), Unread>
    ensures { Gives (λ x. (x.0.now, x.1.now)) result (text_at bytes.now) }
{
    match split_text(bytes) {
        Some((text, rest)) => Ok((text, rest)),
        None => Err(Unread::Unspelled),
    }
}

/// That many texts, one after the other. Room is made for what is there, whatever the count says.
fn texts_of(alloc: Global, count: u64, bytes: &[u8]) -> Result<(Vec<&[u8]>, &[u8]), Unread>
    ensures { Gives (λ x. (map (λ t. t.now) x.0.items, x.1.now)) result (each_at text_at count bytes.now) }
{
    let mut list = Vec::new(alloc);
    let mut rest = bytes;
    for _ in 0..count {
        let (text, after) = text_of(rest)?;
        list.push(text)?;
        rest = after;
    }
    Ok((list, rest))
}

#[tactic(auto, unfolding(gv_bytes::specs::Reading::items_at))]
fn text_list(alloc: Global, bytes: &[u8]) -> Result<(Vec<&[u8]>, &[u8]), Unread>
    ensures { Gives (λ x. (map (λ t. t.now) x.0.items, x.1.now)) result (items_at text_at bytes.now) }
{
    let (count, rest) = read_natural(bytes, u64::MAX)?;
    let (list, rest) = texts_of(alloc, count, rest)?;
    Ok((list, rest))
}

fn number_of(bytes: &[u8]) -> Result<(usize, &[u8]), Unread>
    ensures { Gives (λ x. (x.0, x.1.now)) result (natural_at (2 ^ 64 - 1) bytes.now) }
{
    let (n, rest) = read_natural(bytes, u64::MAX)?;
    Ok((n as usize, rest))
}

fn numbers_of(alloc: Global, count: u64, bytes: &[u8]) -> Result<(Vec<usize>, &[u8]), Unread>
    ensures { Gives (λ x. (x.0.items, x.1.now)) result (each_at (natural_at (2 ^ 64 - 1)) count bytes.now) }
{
    let mut list = Vec::new(alloc);
    let mut rest = bytes;
    for _ in 0..count {
        let (number, after) = number_of(rest)?;
        list.push(number)?;
        rest = after;
    }
    Ok((list, rest))
}

#[tactic(auto, unfolding(gv_bytes::specs::Reading::items_at))]
fn number_list(alloc: Global, bytes: &[u8]) -> Result<(Vec<usize>, &[u8]), Unread>
    ensures { Gives (λ x. (x.0.items, x.1.now)) result (items_at (natural_at (2 ^ 64 - 1)) bytes.now) }
{
    let (count, rest) = read_natural(bytes, u64::MAX)?;
    let (list, rest) = numbers_of(alloc, count, rest)?;
    Ok((list, rest))
}

#[tactic(auto, unfolding(crate::specs::Coded::row_at))]
fn row_of(alloc: Global, bytes: &[u8]) -> Result<(Numbered, &[u8]), Unread>
    ensures { Gives (λ x. (x.0, x.1.now)) result (row_at bytes.now) }
{
    let (node, rest) = read_natural(bytes, 255)?;
    let (texts, rest) = number_list(alloc, rest)?;
    let (outcome, rest) = number_of(rest)?;
    let node = node as u8;
    let texts = Row::new(texts);
    Ok((
        Numbered {
            node,
            texts,
            outcome,
        },
        rest,
    ))
}

fn rows_of(alloc: Global, count: u64, bytes: &[u8]) -> Result<(Vec<Numbered>, &[u8]), Unread>
    ensures { Gives (λ x. (x.0.items, x.1.now)) result (each_at row_at count bytes.now) }
{
    let mut list = Vec::new(alloc);
    let mut rest = bytes;
    for _ in 0..count {
        let (row, after) = row_of(alloc, rest)?;
        list.push(row)?;
        rest = after;
    }
    Ok((list, rest))
}

#[tactic(auto, unfolding(gv_bytes::specs::Reading::items_at))]
fn row_list(alloc: Global, bytes: &[u8]) -> Result<(Vec<Numbered>, &[u8]), Unread>
    ensures { Gives (λ x. (x.0.items, x.1.now)) result (items_at row_at bytes.now) }
{
    let (count, rest) = read_natural(bytes, u64::MAX)?;
    let (list, rest) = rows_of(alloc, count, rest)?;
    Ok((list, rest))
}

/// The texts and the rows that all of the bytes spell.
#[tactic(auto, unfolding(crate::specs::Coded::coded_of))]
pub(crate) fn read_coded(alloc: Global, bytes: &[u8]) -> Result<(Vec<&[u8]>, Vec<Numbered>), Unread>
    ensures { Gives (λ x. (map (λ t. t.now) x.0.items, x.1.items)) result (coded_of bytes.now) }
{
    let rest = after_front(bytes)?;
    let (texts, rest) = text_list(alloc, rest)?;
    let (rows, rest) = row_list(alloc, rest)?;
    if !rest.is_empty() {
        return Err(Unread::Unspelled);
    }
    Ok((texts, rows))
}
