//! Texts, each kept once, with the number of its uses.
//!
//! A place whose uses have ended stays in its chain, empty, and the next text of its bucket takes it.
ghost use Rattle.std.specs.Prelude.{◌≡◌, ◌<◌, ◌+◌, ◌-◌, ◌^◌, ◌++◌, ◌∷◌, [], ℕ, Some, IfSome, IfNone, IfOk, OnOk, OnErr, length, slice_get, slice_set};
ghost use Rattle.fact_cache.specs.declared.kept.Place.{Place};
ghost use Rattle.fact_cache.specs.declared.spread.Key.{Key as Spread};
ghost use Rattle.std.specs.Str.{bytes_eq};
ghost use Rattle.fact_cache.specs.Spread.{text_mix, head_of};
ghost use Rattle.fact_cache.specs.Kept.{uses_at, text_at, mix_at, is_text_at, is_kept_at, IsMixOf, AreMixed, IsAbsent, IsThere, AreFound, IsChanged, IsHeld, IsFreed, kept_bytes};

use crate::index::Index;
use crate::spread::{Key, head, text_number};
use gv_base::{Bytes, NoMemory};
use std::alloc::Global;
use std::marker::Model;

#[derive(Drop)]
pub(crate) struct Place {
    bytes: Bytes,
    uses: usize,
    mix: u64,
}

/// A contract sees the list of the places.
#[derive(Drop)]
pub(crate) struct Kept {
    alloc: Global,
    index: Index,
    places: Vec<Place>,
    total: usize,
}

impl Model for Kept {
    ghost use Rattle.std.specs.Prelude.{List};
    ghost use Rattle.fact_cache.specs.declared.kept.Place.{Place};
    ghost use Rattle.fact_cache.specs.Kept.{AreKept};

    ghost Value = { List Place };

    ghost view = { λ k. k.places.items };

    ghost invariant = { λ k. AreKept k.index k.places.items k.total };
}

fn height(places: &Vec<Place>) -> usize
    ensures { result ≡ length places.now.items }
{
    places.as_slice().len()
}

fn uses(places: &[Place], n: usize) -> usize
    ensures { result ≡ uses_at places.now n }
{
    match places.get(n) {
        None => 0,
        Some(place) => place.uses,
    }
}

fn text(places: &[Place], n: usize) -> &[u8]
    ensures { result.now ≡ text_at places.now n }
{
    match places.get(n) {
        None => &[],
        Some(place) => place.bytes.as_slice(),
    }
}

fn mix(places: &[Place], n: usize) -> u64
    ensures { result ≡ mix_at places.now n }
{
    match places.get(n) {
        None => 0,
        Some(place) => place.mix,
    }
}

fn is_text(places: &[Place], n: usize, number: u64, bytes: &[u8]) -> bool
    ensures { result ≡ is_text_at places.now n number bytes.now }
{
    if uses(places, n) == 0 {
        return false;
    }
    if mix(places, n) != number {
        return false;
    }
    text(places, n) == bytes
}

/// Whether a text is kept at a place.
fn is_kept_at(places: &[Place], n: usize, bytes: &[u8]) -> bool
    ensures { result ≡ is_kept_at places.now n bytes.now }
{
    if uses(places, n) == 0 {
        return false;
    }
    text(places, n) == bytes
}

/// The place of a kept text.
fn seek(index: &Index, places: &[Place], number: u64, bytes: &[u8]) -> Option<usize>
    requires found { AreFound index.now places.now }
    requires number { IsMixOf places.now bytes.now number }
    ensures found { IfSome result (λ n. (0 < uses_at places.now n) × (text_at places.now n ≡ bytes.now)) }
    ensures absent { IfNone result (IsAbsent places.now bytes.now) }
{
    let mut at = index.last(head(number));
    while at > 0 {
        if is_text(places, at - 1, number, bytes) {
            return Some(at - 1);
        }
        at = index.before(at - 1);
    }
    None
}

/// A place of this bucket without uses.
fn spare(index: &Index, places: &[Place], bucket: usize) -> Option<usize>
    requires low { bucket < 2 ^ 16 }
    ensures { IfSome result (λ n. (slice_get index.now n ≡ Some bucket) × (uses_at places.now n ≡ 0)) }
{
    let mut at = index.last(bucket);
    while at > 0 {
        if uses(places, at - 1) == 0 {
            return Some(at - 1);
        }
        at = index.before(at - 1);
    }
    None
}

fn set_place(places: &mut Vec<Place>, n: usize, place: Place)
    requires { n < length places.old.items }
    ensures { places.new.items ≡ slice_set places.old.items n place }
{
    places[n] = place;
}

fn set_uses(places: &mut Vec<Place>, n: usize, uses: usize)
    requires { n < length places.old.items }
    ensures { places.new.items ≡ slice_set places.old.items n (record { bytes = text_at places.old.items n; uses = uses; mix = mix_at places.old.items n }) }
{
    places[n].uses = uses;
}

/// Adds a place at the end of its chain.
fn append(
    index: &mut Index,
    places: &mut Vec<Place>,
    bucket: usize,
    place: Place,
) -> Result<usize, NoMemory>
    requires low { bucket < 2 ^ 16 }
    ensures index { OnOk result (index.new ≡ index.old ++ bucket ∷ []) }
    ensures places { OnOk result (places.new.items ≡ places.old.items ++ place ∷ []) }
    ensures at { IfOk result (λ n. n ≡ length places.old.items) }
    ensures same_index { OnErr result (index.new ≡ index.old) }
    ensures same_places { OnErr result (places.new.items ≡ places.old.items) }
{
    let n = height(places);
    places.push(place)?;
    match index.push(bucket) {
        Ok(()) => Ok(n),
        Err(error) => {
            places.pop();
            Err(error)
        }
    }
}

fn copy(alloc: Global, bytes: &[u8]) -> Result<Bytes, NoMemory>
    ensures { IfOk result (λ b. b ≡ bytes.now) }
{
    let copy = Bytes::of(alloc, bytes)?;
    Ok(copy)
}

/// Keeps a text that isn't kept.
fn keep(
    index: &mut Index,
    places: &mut Vec<Place>,
    number: u64,
    bytes: Bytes,
) -> Result<usize, NoMemory>
    requires found { AreFound index.old places.old.items }
    requires absent { IsAbsent places.old.items bytes }
    ensures found { AreFound index.new places.new.items }
    ensures kept { IfOk result (λ n. IsChanged places.old.items places.new.items n 1 number bytes × (uses_at places.old.items n ≡ 0)) }
    ensures unchanged { OnErr result (places.new.items ≡ places.old.items) }
{
    let bucket = head(number);
    match spare(index, places, bucket) {
        Some(n) => {
            set_place(
                places,
                n,
                Place {
                    bytes,
                    uses: 1,
                    mix: number,
                },
            );
            Ok(n)
        }
        None => {
            let n = append(
                index,
                places,
                bucket,
                Place {
                    bytes,
                    uses: 1,
                    mix: number,
                },
            )?;
            Ok(n)
        }
    }
}

impl Kept {
    /// No texts, in no memory.
    pub(crate) fn new(alloc: Global) -> Self
        ensures { result ≡ [] }
    {
        Kept {
            alloc,
            index: Index::new(alloc),
            places: Vec::new(alloc),
            total: 0,
        }
    }

    /// The text of a place.
    pub(crate) fn text(&self, n: usize) -> &[u8]
        ensures { result.now ≡ text_at self.now n }
    {
        text(&self.places, n)
    }

    /// The bytes of all kept texts.
    pub(crate) fn total(&self) -> usize
        ensures value { result ≡ kept_bytes self.now }
        ensures distinct { (m : ℕ) → (n : ℕ) → 0 < uses_at self.now m → 0 < uses_at self.now n → text_at self.now m ≡ text_at self.now n → m ≡ n }
    {
        self.total
    }

    /// How many places there are, with and without uses.
    pub(crate) fn size(&self) -> usize
        ensures value { result ≡ length self.now }
        ensures distinct { (m : ℕ) → (n : ℕ) → 0 < uses_at self.now m → 0 < uses_at self.now n → text_at self.now m ≡ text_at self.now n → m ≡ n }
    {
        height(&self.places)
    }

    /// The number of a place's text in the mixes.
    pub(crate) fn mix(&self, n: usize) -> u64
        ensures { result ≡ mix_at self.now n }
    {
        mix(&self.places, n)
    }

    /// Whether two numbers of kept texts have the same text: no two places have.
    pub(crate) fn is_same(&self, m: usize, n: usize) -> bool
        requires first { 0 < uses_at self.now m }
        requires second { 0 < uses_at self.now n }
        ensures { result ≡ bytes_eq (text_at self.now m) (text_at self.now n) }
    {
        let _total = self.total;
        m == n
    }

    fn hold_new(&mut self, number: u64, bytes: Bytes) -> Result<usize, NoMemory>
        requires absent { IsAbsent self.old bytes }
        ensures held { IfOk result (λ n. IsHeld self.old self.new bytes n) }
        ensures mixed { (key : Spread) → number ≡ text_mix key bytes → AreMixed key self.old → AreMixed key self.new }
        ensures unchanged { OnErr result (self.new ≡ self.old) }
    {
        let total = match self.total.checked_add(bytes.as_slice().len()) {
            None => return Err(NoMemory),
            Some(total) => total,
        };
        let n = keep(&mut self.index, &mut self.places, number, bytes)?;
        self.total = total;
        Ok(n)
    }

    /// Uses a kept text once more.
    pub(crate) fn hold_again(&mut self, n: usize) -> Result<(), NoMemory>
        requires { 0 < uses_at self.old n }
        ensures held { OnOk result (IsHeld self.old self.new (text_at self.old n) n) }
        ensures mixed { (key : Spread) → AreMixed key self.old → AreMixed key self.new }
        ensures unchanged { OnErr result (self.new ≡ self.old) }
    {
        let uses = match uses(&self.places, n).checked_add(1) {
            None => return Err(NoMemory),
            Some(uses) => uses,
        };
        set_uses(&mut self.places, n, uses);
        Ok(())
    }

    /// Uses a text once more, and answers its place. Of a text that isn't kept a copy is kept, or one holder more where its holders are counted.
    pub(crate) fn hold(&mut self, key: Key, bytes: &Bytes) -> Result<usize, NoMemory>
        requires { AreMixed key self.old }
        ensures held { IfOk result (λ n. IsHeld self.old self.new bytes.now n) }
        ensures mixed { AreMixed key self.new }
        ensures unchanged { OnErr result (self.new ≡ self.old) }
    {
        let number = text_number(key, bytes.as_slice());
        match seek(&self.index, &self.places, number, bytes.as_slice()) {
            None => {
                let copy = bytes.copy(self.alloc)?;
                self.hold_new(number, copy)
            }
            Some(n) => {
                self.hold_again(n)?;
                Ok(n)
            }
        }
    }

    /// The same of a text that is likely to be kept at a place: where it is, its bytes are compared and aren't gone through for its number.
    pub(crate) fn hold_likely(
        &mut self,
        key: Key,
        bytes: &Bytes,
        likely: usize,
    ) -> Result<usize, NoMemory>
        requires { AreMixed key self.old }
        ensures held { IfOk result (λ n. IsHeld self.old self.new bytes.now n) }
        ensures mixed { AreMixed key self.new }
        ensures unchanged { OnErr result (self.new ≡ self.old) }
    {
        if is_kept_at(&self.places, likely, bytes.as_slice()) {
            self.hold_again(likely)?;
            return Ok(likely);
        }
        self.hold(key, bytes)
    }

    /// Keeps a text that isn't kept yet, and answers its place; `None` where it is kept.
    pub(crate) fn hold_fresh(&mut self, key: Key, bytes: &[u8]) -> Result<Option<usize>, NoMemory>
        requires { AreMixed key self.old }
        ensures fresh { IfOk result (λ place. IfSome place (λ n. IsHeld self.old self.new bytes.now n × IsAbsent self.old bytes.now)) }
        ensures there { IfOk result (λ place. IfNone place (IsThere self.old bytes.now)) }
        ensures mixed { AreMixed key self.new }
    {
        let number = text_number(key, bytes);
        match seek(&self.index, &self.places, number, bytes) {
            Some(_n) => Ok(None),
            None => {
                let own = copy(self.alloc, bytes)?;
                let n = self.hold_new(number, own)?;
                Ok(Some(n))
            }
        }
    }

    /// Uses a text once less. It takes no memory.
    pub(crate) fn free(&mut self, n: usize)
        requires { 0 < uses_at self.old n }
        ensures freed { IsFreed self.old self.new n }
        ensures mixed { (key : Spread) → AreMixed key self.old → AreMixed key self.new }
    {
        let uses = uses(&self.places, n) - 1;
        if uses > 0 {
            set_uses(&mut self.places, n, uses);
        } else {
            self.total -= text(&self.places, n).len();
            let bytes = Bytes::new(Vec::new(self.alloc));
            set_place(
                &mut self.places,
                n,
                Place {
                    bytes,
                    uses,
                    mix: 0,
                },
            );
        }
    }
}
