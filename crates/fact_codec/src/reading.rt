//! Reading the text of a table.
ghost use Rattle.std.specs.Prelude.{◌≡◌, ◌≤◌, ℕ, List, IfOk, IfSome, Some, length, drop};
ghost use Rattle.gv_bytes.specs.Reading.{Gives, each_at, items_at};
ghost use Rattle.fact_codec.specs.Texts.{utf8_of, name_at, entry_at, table_in, AreFacts};
ghost use Rattle.fact_codec.specs.Tables.{AreInOrder};

use crate::kind::FactKind;
use crate::order::rise;
use crate::table::FactTable;
use gv_base::{NoMemory, Text};
use gv_bytes::{Unread, read_natural, split_text};
use std::alloc::Global;

/// The text of these bytes.
fn utf8(bytes: &[u8]) -> Result<&str, Unread>
    ensures { Gives (λ s. s.now) result (utf8_of bytes.now) }
{
    match std::str::from_utf8(bytes) {
        Ok(text) => Ok(text),
        Err(_) => Err(Unread::Unspelled),
    }
}

/// A name, copied.
#[tactic(auto, unfolding(crate::specs::Texts::name_at))]
fn name_of(alloc: Global, bytes: &[u8]) -> Result<(Text, &[u8]), Unread>
    ensures { Gives (λ x. (x.0, x.1.now)) result (name_at bytes.now) }
{
    let Some((spelled, rest)) = split_text(bytes) else {
        return Err(Unread::Unspelled);
    };
    let text = utf8(spelled)?;
    let copy = Text::of(alloc, text)?;
    Ok((copy, rest))
}

/// The bytes behind the first ones.
fn behind(bytes: &[u8], used: usize) -> &[u8]
    requires { used ≤ length bytes.now }
    ensures { result.now ≡ drop used bytes.now }
{
    bytes.split_at(used).1
}

fn fact_of<F: FactKind>(bytes: &[u8]) -> Result<(F, &[u8]), Unread>
    ensures { Gives (λ x. (x.0, x.1.now)) result (F.fact_at bytes.now) }
{
    match F::decode(bytes) {
        Some((fact, used)) => Ok((fact, behind(bytes, used))),
        None => Err(Unread::Unspelled),
    }
}

#[tactic(auto, unfolding(crate::specs::Texts::entry_at))]
fn entry_of<F: FactKind>(alloc: Global, bytes: &[u8]) -> Result<((Text, F), &[u8]), Unread>
    ensures { Gives (λ x. (x.0, x.1.now)) result (entry_at F.fact_at bytes.now) }
{
    let (name, rest) = name_of(alloc, bytes)?;
    let (fact, rest) = fact_of(rest)?;
    Ok(((name, fact), rest))
}

/// That many entries, one after the other. Room is made for what is there, whatever the count says.
fn entries_of<F: FactKind>(
    alloc: Global,
    count: u64,
    bytes: &[u8],
) -> Result<(Vec<(Text, F)>, &[u8]), Unread>
    ensures { Gives (λ x. (x.0.items, x.1.now)) result (each_at (entry_at F.fact_at) count bytes.now) }
{
    let mut list = Vec::new(alloc);
    let mut rest = bytes;
    for _ in 0..count {
        let (entry, after) = entry_of(alloc, rest)?;
        list.push(entry)?;
        rest = after;
    }
    Ok((list, rest))
}

#[tactic(auto, unfolding(gv_bytes::specs::Reading::items_at))]
fn list_of<F: FactKind>(alloc: Global, bytes: &[u8]) -> Result<(Vec<(Text, F)>, &[u8]), Unread>
    ensures { Gives (λ x. (x.0.items, x.1.now)) result (items_at (entry_at F.fact_at) bytes.now) }
{
    let (count, rest) = read_natural(bytes, u64::MAX)?;
    let (list, rest) = entries_of(alloc, count, rest)?;
    Ok((list, rest))
}

#[tactic(auto, unfolding(crate::specs::Texts::table_in))]
fn whole<F: FactKind>(alloc: Global, bytes: &[u8]) -> Result<Vec<(Text, F)>, Unread>
    ensures { Gives (λ v. v.items) result (table_in F.fact_at bytes.now) }
{
    let (list, rest) = list_of(alloc, bytes)?;
    if !rise(&list) {
        return Err(Unread::Unspelled);
    }
    if !rest.is_empty() {
        return Err(Unread::Unspelled);
    }
    Ok(list)
}

fn table_of<F>(alloc: Global, entries: Vec<(Text, F)>) -> FactTable<F>
    requires { AreInOrder entries.items }
    ensures { result ≡ entries.items }
{
    FactTable { alloc, entries }
}

impl<F: FactKind> FactTable<F> {
    /// The table that the bytes spell, all of the bytes. `None` exactly where they spell none: a field that is no
    /// number or text, a name that isn't UTF-8, another order of names, a name twice, something that is no fact of
    /// the kind, or bytes behind the end.
    pub fn read(alloc: Global, bytes: &[u8]) -> Result<Option<FactTable<F>>, NoMemory>
        // What is read is spelled so.
        ensures found { IfOk result (λ o. IfSome o (λ t. AreFacts F.spelling t bytes.now)) }
        // What is spelled so is read.
        ensures only { (t : List (List ℕ × F)) → AreFacts F.spelling t bytes.now → IfOk result (λ o. o ≡ Some t) }
    {
        match whole::<F>(alloc, bytes) {
            Ok(list) => Ok(Some(table_of(alloc, list))),
            Err(Unread::Unspelled) => Ok(None),
            Err(Unread::Memory) => Err(NoMemory),
        }
    }
}
