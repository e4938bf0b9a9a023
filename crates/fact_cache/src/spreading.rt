//! Texts beside the numbers by which they are spread: a text that several look-ups have in common is gone through once.
ghost use Rattle.std.specs.Prelude.{◌≡◌, ◌<◌, ◌^◌, ◌++◌, ◌∷◌, [], ℕ, List, IfOk, OnOk, OnErr, map, option_map};
ghost use Rattle.fact_cache.specs.Spread.{mixed, mixed_numbers, bucket_of, head_of, text_mix, AreSpread};
ghost use Rattle.fact_cache.specs.Caches.{lookup};
ghost use Rattle.fact_cache.specs.Numbered.{entry_in, IsCache};

use crate::index::Index;
use crate::kept::Kept;
use crate::keyed::{Keyed, is_key};
use crate::numbered::Numbered;
use crate::slices::{bucket, seek_from};
use crate::spread::{Key, input_head, mix_number, text_number};
use gv_base::NoMemory;
use std::alloc::Global;
use std::collections::VecDeque;
use std::marker::Model;

/// The texts of an input, in turn. A contract sees the list of them.
#[derive(Drop)]
pub struct Parts<'a> {
    key: Key,
    texts: Vec<&'a [u8]>,
    numbers: Vec<u64>,
}

impl<'a> Model for Parts<'a> {
    ghost use Rattle.std.specs.Prelude.{List, ℕ, map};
    ghost use Rattle.fact_cache.specs.Spread.{AreSpread};

    ghost Value = { List (List ℕ) };

    ghost view = { λ p. map (λ t. t.now) p.texts.items };

    ghost invariant = { λ p. AreSpread p.key (map (λ t. t.now) p.texts.items) p.numbers.items };
}

fn push_slice<'a>(texts: &mut Vec<&'a [u8]>, text: &'a [u8]) -> Result<(), NoMemory>
    ensures put { OnOk result (map (λ t. t.now) texts.new.items ≡ map (λ t. t.now) texts.old.items ++ text.now ∷ []) }
    ensures same { OnErr result (map (λ t. t.now) texts.new.items ≡ map (λ t. t.now) texts.old.items) }
{
    texts.push(text)?;
    Ok(())
}

/// Adds a text and a number, or neither.
fn push_both<'a>(
    texts: &mut Vec<&'a [u8]>,
    numbers: &mut Vec<u64>,
    text: &'a [u8],
    number: u64,
) -> Result<(), NoMemory>
    ensures texts { OnOk result (map (λ t. t.now) texts.new.items ≡ map (λ t. t.now) texts.old.items ++ text.now ∷ []) }
    ensures numbers { OnOk result (numbers.new.items ≡ numbers.old.items ++ number ∷ []) }
    ensures same_texts { OnErr result (map (λ t. t.now) texts.new.items ≡ map (λ t. t.now) texts.old.items) }
    ensures same_numbers { OnErr result (numbers.new.items ≡ numbers.old.items) }
{
    numbers.push(number)?;
    match push_slice(texts, text) {
        Ok(()) => Ok(()),
        Err(error) => {
            numbers.pop();
            Err(error)
        }
    }
}

/// Adds a text beside its number.
fn push_numbered<'a>(
    key: Key,
    texts: &mut Vec<&'a [u8]>,
    numbers: &mut Vec<u64>,
    text: &'a [u8],
    number: u64,
) -> Result<(), NoMemory>
    requires spread { AreSpread key (map (λ t. t.now) texts.old.items) numbers.old.items }
    requires number { number ≡ text_mix key text.now }
    ensures spread { AreSpread key (map (λ t. t.now) texts.new.items) numbers.new.items }
    ensures put { OnOk result (map (λ t. t.now) texts.new.items ≡ map (λ t. t.now) texts.old.items ++ text.now ∷ []) }
    ensures same { OnErr result (map (λ t. t.now) texts.new.items ≡ map (λ t. t.now) texts.old.items) }
{
    push_both(texts, numbers, text, number)?;
    Ok(())
}

fn copied_slices<'a>(alloc: Global, texts: &[&'a [u8]]) -> Result<Vec<&'a [u8]>, NoMemory>
    ensures { IfOk result (λ copy. map (λ t. t.now) copy.items ≡ map (λ t. t.now) texts.now) }
{
    let mut copy = Vec::with_capacity(alloc, texts.len())?;
    for text in texts {
        push_slice(&mut copy, *text)?;
    }
    Ok(copy)
}

fn copied_numbers(alloc: Global, numbers: &[u64]) -> Result<Vec<u64>, NoMemory>
    ensures { IfOk result (λ copy. copy.items ≡ numbers.now) }
{
    let mut copy = Vec::with_capacity(alloc, numbers.len())?;
    for number in numbers {
        copy.push(*number)?;
    }
    Ok(copy)
}

fn made<'a>(key: Key, texts: Vec<&'a [u8]>, numbers: Vec<u64>) -> Parts<'a>
    requires { AreSpread key (map (λ t. t.now) texts.items) numbers.items }
    ensures { result ≡ map (λ t. t.now) texts.entry.items }
{
    Parts {
        key,
        texts,
        numbers,
    }
}

fn mix_all(key: Key, seed: u64, numbers: &[u64]) -> u64
    ensures { result ≡ mixed_numbers key seed numbers.now }
{
    let mut hash = seed;
    for number in numbers {
        hash = mix_number(key, hash, *number);
    }
    hash
}

fn head_by(key: Key, node: u8, numbers: &[u64]) -> usize
    ensures value { result ≡ head_of (mixed key.factor (mixed_numbers key node numbers.now) 0) }
    ensures below { result < 2 ^ 16 }
{
    input_head(key, mix_all(key, node as u64, numbers))
}

/// The head of the chain of an input of these texts, which are numbered by a key of their own; where that is another, they are gone through again.
fn head_of_parts(key: Key, own: Key, node: u8, texts: &Vec<&[u8]>, numbers: &Vec<u64>) -> usize
    requires spread { AreSpread own (map (λ t. t.now) texts.now.items) numbers.now.items }
    ensures value { result ≡ bucket_of key (record { node = node; texts = map (λ t. t.now) texts.now.items }) }
    ensures below { result < 2 ^ 16 }
{
    if is_key(own, key) {
        let list = numbers.as_slice();
        return head_by(key, node, list);
    }
    let slices = texts.as_slice();
    bucket(key, node, slices)
}

impl<'a> Parts<'a> {
    /// No texts. They will be numbered by this key.
    pub(crate) fn new(alloc: Global, key: Key) -> Self
        ensures { result ≡ [] }
    {
        Parts {
            key,
            texts: Vec::new(alloc),
            numbers: Vec::new(alloc),
        }
    }

    /// Adds a text at the end.
    pub fn push(&mut self, text: &'a [u8]) -> Result<(), NoMemory>
        ensures put { OnOk result (self.new ≡ self.old ++ text.now ∷ []) }
        ensures same { OnErr result (self.new ≡ self.old) }
    {
        let number = text_number(self.key, text);
        push_numbered(self.key, &mut self.texts, &mut self.numbers, text, number)
    }

    /// Adds a text that has its number, which is made anew only where it is by another key.
    pub fn push_keyed(&mut self, text: &'a Keyed) -> Result<(), NoMemory>
        ensures put { OnOk result (self.new ≡ self.old ++ text.now ∷ []) }
        ensures same { OnErr result (self.new ≡ self.old) }
    {
        let number = text.number(self.key);
        push_numbered(
            self.key,
            &mut self.texts,
            &mut self.numbers,
            text.as_slice(),
            number,
        )
    }

    /// The same texts, to which others may be added. None of them is gone through.
    pub fn copy(&self, alloc: Global) -> Result<Parts<'a>, NoMemory>
        ensures { IfOk result (λ copy. copy ≡ self.now) }
    {
        let slices = self.texts.as_slice();
        let list = self.numbers.as_slice();
        let texts = copied_slices(alloc, slices)?;
        let numbers = copied_numbers(alloc, list)?;
        let copy = made(self.key, texts, numbers);
        Ok(copy)
    }

    fn slices(&self) -> &[&'a [u8]]
        ensures { map (λ t. t.now) result.now ≡ self.now }
    {
        self.texts.as_slice()
    }

    fn head(&self, key: Key, node: u8) -> usize
        ensures value { result ≡ bucket_of key (record { node = node; texts = self.now }) }
        ensures below { result < 2 ^ 16 }
    {
        head_of_parts(key, self.key, node, &self.texts, &self.numbers)
    }
}

/// The outcome of the input of a node and these texts.
pub(crate) fn seek_parts<'a>(
    key: Key,
    kept: &'a Kept,
    index: &Index,
    rows: &VecDeque<Numbered>,
    node: u8,
    parts: &Parts<'_>,
) -> Option<&'a [u8]>
    requires { IsCache key [] kept.now index.now rows.now.items }
    ensures { option_map (λ o. o.now) result ≡ lookup (map (entry_in kept.now) rows.now.items) (record { node = node; texts = parts.now }) }
{
    let head = parts.head(key, node);
    let slices = parts.slices();
    seek_from(key, kept, index, rows, head, node, slices)
}
