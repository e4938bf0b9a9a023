//! Chains of the places of a list, by bucket. Places are added at the end and dropped at the front.
ghost use Rattle.std.specs.Prelude.{◌≡◌, ◌≤◌, ◌<◌, ◌-◌, ◌+◌, ◌^◌, ◌++◌, ◌∷◌, [], ℕ, Some, IfOk, OnOk, OnErr, length, drop, slice_get, slice_index_or, slice_set};
ghost use Rattle.fact_cache.specs.declared.index.Link.{Link};
ghost use Rattle.fact_cache.specs.Indexes.{buckets_of, IsHead, IsIndexed};

use gv_base::NoMemory;
use std::alloc::Global;
use std::collections::VecDeque;
use std::marker::Model;

/// A place's bucket, and one more than the number of the last place before it in its bucket, or 0.
/// Numbers count from the first place ever put.
#[derive(Drop)]
struct Link {
    bucket: usize,
    next: usize,
}

/// A contract sees the list of the places' buckets.
#[derive(Drop)]
pub(crate) struct Index {
    dropped: usize,
    heads: Vec<usize>,
    links: VecDeque<Link>,
}

impl Model for Index {
    ghost use Rattle.std.specs.Prelude.{List, ℕ};
    ghost use Rattle.fact_cache.specs.Indexes.{buckets_of, IsIndexed};

    ghost Value = { List ℕ };

    ghost view = { λ i. buckets_of i.links.items };

    ghost invariant = { λ i. IsIndexed i.dropped i.links.items i.heads.items };
}

fn head_of(heads: &[usize], bucket: usize) -> usize
    ensures { result ≡ slice_index_or heads.now bucket 0 }
{
    match heads.get(bucket) {
        None => 0,
        Some(head) => *head,
    }
}

fn count_of(heads: &Vec<usize>) -> usize
    ensures { result ≡ length heads.now.items }
{
    heads.as_slice().len()
}

fn set_head(heads: &mut Vec<usize>, bucket: usize, head: usize)
    requires { bucket < length heads.old.items }
    ensures { heads.new.items ≡ slice_set heads.old.items bucket head }
{
    heads[bucket] = head;
}

/// Makes room for all heads.
fn fill(heads: &mut Vec<usize>) -> Result<(), NoMemory>
    ensures same { (b : ℕ) → slice_index_or heads.new.items b 0 ≡ slice_index_or heads.old.items b 0 }
    ensures full { OnOk result (2 ^ 16 ≤ length heads.new.items) }
{
    while count_of(heads) < 65536 {
        heads.push(0)?;
    }
    Ok(())
}

fn height(links: &VecDeque<Link>) -> usize
    ensures { result ≡ length links.now.items }
{
    links.len()
}

/// The number of the next place, counted from 1; refused where there were too many in all.
fn number(dropped: usize, links: &VecDeque<Link>) -> Result<usize, NoMemory>
    ensures { IfOk result (λ n. (n ≡ dropped + length links.now.items + 1) × (n < 2 ^ 64)) }
{
    if usize::MAX - height(links) <= dropped {
        return Err(NoMemory);
    }
    Ok(dropped + height(links) + 1)
}

/// Adds a place at the end of its chain.
fn push_link(
    dropped: usize,
    heads: &mut Vec<usize>,
    links: &mut VecDeque<Link>,
    bucket: usize,
) -> Result<(), NoMemory>
    requires indexed { IsIndexed dropped links.old.items heads.old.items }
    requires low { bucket < 2 ^ 16 }
    ensures indexed { IsIndexed dropped links.new.items heads.new.items }
    ensures put { OnOk result (buckets_of links.new.items ≡ buckets_of links.old.items ++ bucket ∷ []) }
    ensures unchanged { OnErr result (links.new.items ≡ links.old.items) }
{
    let number = number(dropped, links)?;
    fill(heads)?;
    let next = head_of(heads, bucket);
    links.push_back(Link { bucket, next })?;
    set_head(heads, bucket, number);
    Ok(())
}

fn link_at(links: &VecDeque<Link>, at: usize) -> &Link
    requires { at < length links.now.items }
    ensures { result.now ≡ slice_index_or links.now.items at result.now }
{
    &links[at]
}

fn next_at(dropped: usize, links: &VecDeque<Link>, at: usize) -> usize
    requires { at < length links.now.items }
    ensures { (l : Link) → slice_get links.now.items at ≡ Some l → result ≡ l.next - dropped }
{
    link_at(links, at).next.saturating_sub(dropped)
}

fn drop_link(links: &mut VecDeque<Link>)
    ensures { links.new.items ≡ drop 1 links.old.items }
{
    links.pop_front();
}

impl Index {
    /// No places. It takes no memory before the first `push`.
    pub(crate) fn new(alloc: Global) -> Self
        ensures { result ≡ [] }
    {
        Index {
            dropped: 0,
            heads: Vec::new(alloc),
            links: VecDeque::new(alloc),
        }
    }

    /// One more than the last place of a bucket, or 0.
    pub(crate) fn last(&self, bucket: usize) -> usize
        requires { bucket < 2 ^ 16 }
        ensures { IsHead self.now (length self.now) bucket result }
    {
        head_of(&self.heads, bucket).saturating_sub(self.dropped)
    }

    /// One more than the last place before this one in its bucket, or 0.
    pub(crate) fn before(&self, at: usize) -> usize
        requires { at < length self.now }
        ensures { IsHead self.now at (slice_index_or self.now at 0) result }
    {
        next_at(self.dropped, &self.links, at)
    }

    /// Adds a place at the end.
    pub(crate) fn push(&mut self, bucket: usize) -> Result<(), NoMemory>
        requires { bucket < 2 ^ 16 }
        ensures put { OnOk result (self.new ≡ self.old ++ bucket ∷ []) }
        ensures unchanged { OnErr result (self.new ≡ self.old) }
    {
        push_link(self.dropped, &mut self.heads, &mut self.links, bucket)
    }

    /// Drops the first place.
    pub(crate) fn pop(&mut self)
        requires { 0 < length self.old }
        ensures { self.new ≡ drop 1 self.old }
    {
        drop_link(&mut self.links);
        self.dropped += 1;
    }
}
