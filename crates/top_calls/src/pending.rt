//! Bytes that were taken and not yet answered.
ghost use Rattle.std.specs.Prelude.{◌≡◌, ◌≤◌, ◌++◌, ℕ, List, [], drop, length, vec_len, OnOk, OnErr};

use gv_base::NoMemory;
use std::alloc::Global;
use std::marker::Model;

/// Bytes that are added at the end and passed over at the front. A contract sees the list of those
/// that are left. What is passed over is dropped when bytes are added, so that many small steps
/// cost no more than the bytes themselves.
#[derive(Drop)]
pub struct Pending {
    bytes: Vec<u8>,
    start: usize,
}

impl Model for Pending {
    ghost Value = { List ℕ };

    ghost view = { λ p. drop p.start p.bytes.items };

    ghost invariant = { λ p. p.start ≤ vec_len p.bytes };
}

impl Pending {
    /// No bytes.
    pub fn new(alloc: Global) -> Self
        ensures { result ≡ [] }
    {
        Pending {
            bytes: Vec::new(alloc),
            start: 0,
        }
    }

    /// All that are left.
    pub fn as_slice(&self) -> &[u8]
        ensures { result.now ≡ self.now }
    {
        &self.bytes[self.start..]
    }

    /// How many are left.
    pub fn count(&self) -> usize
        ensures { result ≡ length self.now }
    {
        self.bytes.len() - self.start
    }

    /// Passes over the first of them.
    pub fn skip(&mut self, count: usize)
        requires { count ≤ length self.old }
        ensures { self.new ≡ drop count self.old }
    {
        self.start += count;
    }

    /// Adds bytes at the end.
    pub fn add(&mut self, more: &[u8]) -> Result<(), NoMemory>
        ensures added { OnOk result (self.new ≡ self.old ++ more.now) }
        ensures unchanged { OnErr result (self.new ≡ self.old) }
    {
        self.bytes.drain(..self.start);
        self.start = 0;
        self.bytes.extend_from_slice(more)?;
        Ok(())
    }
}
