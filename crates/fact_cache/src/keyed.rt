//! A text beside the number by which it is spread, which is made once for all inputs that have it.
ghost use Rattle.std.specs.Prelude.{◌≡◌, ◌==◌, IfOk};
ghost use Rattle.fact_cache.specs.Spread.{is_same_key, text_mix};

use crate::spread::{Key, text_number};
use gv_base::{Bytes, NoMemory};
use std::alloc::Global;
use std::marker::Model;

/// A text. A contract sees its bytes.
#[derive(Drop)]
pub struct Keyed {
    bytes: Bytes,
    key: Key,
    number: u64,
}

impl Model for Keyed {
    ghost use Rattle.std.specs.Prelude.{List, ℕ, ◌≡◌};
    ghost use Rattle.fact_cache.specs.Spread.{text_mix};

    ghost Value = { List ℕ };

    ghost view = { λ t. t.bytes };

    ghost invariant = { λ t. t.number ≡ text_mix t.key t.bytes };
}

fn is_same(a: u64, b: u64) -> bool
    ensures { result ≡ (a == b) }
{
    a == b
}

/// Whether two keys are the same.
pub(crate) fn is_key(a: Key, b: Key) -> bool
    ensures { result ≡ is_same_key a b }
{
    if !is_same(a.point, b.point) {
        return false;
    }
    is_same(a.factor, b.factor)
}

/// The number by a key of a text that has this one by its own.
fn number_by(key: Key, own: Key, number: u64, bytes: &[u8]) -> u64
    requires { number ≡ text_mix own bytes.now }
    ensures { result ≡ text_mix key bytes.now }
{
    if is_key(own, key) {
        return number;
    }
    text_number(key, bytes)
}

impl Keyed {
    /// These bytes.
    pub(crate) fn of(key: Key, bytes: Bytes) -> Self
        ensures { result ≡ bytes }
    {
        let number = text_number(key, bytes.as_slice());
        Keyed { bytes, key, number }
    }

    /// All of its bytes.
    pub fn as_slice(&self) -> &[u8]
        ensures { result.now ≡ self.now }
    {
        self.bytes.as_slice()
    }

    /// The same bytes for one holder more.
    pub fn copy(&self, alloc: Global) -> Result<Bytes, NoMemory>
        ensures { IfOk result (λ copy. copy ≡ self.now) }
    {
        let copy = self.bytes.copy(alloc)?;
        Ok(copy)
    }

    /// The number by this key.
    pub(crate) fn number(&self, key: Key) -> u64
        ensures { result ≡ text_mix key self.now }
    {
        number_by(key, self.key, self.number, self.bytes.as_slice())
    }
}
