//! The numbers of declared names.
ghost use Rattle.std.specs.Prelude.{◌≡◌, ℕ, ◌<◌, ◌^◌, IfOk, OnOk, Some, length, slice_get, unwrap_or, if◌then◌else◌};
ghost use Rattle.object_order.specs.Views.{number_in, same_key};
ghost use Rattle.object_order.specs.Names.{AreNamed, AddsName, IsKeyAt};
ghost use Rattle.object_order.specs.Searches.{IsKept};

use crate::spot::Entry;
use crate::view::find;
use gv_base::NoMemory;
use std::alloc::Global;
use std::collections::HashMap;

fn count(entries: &Vec<Entry>) -> usize
    ensures { result ≡ length entries.now.items }
{
    entries.len()
}

fn name_key(entries: &Vec<Entry>, k: usize) -> (usize, usize)
    requires { k < length entries.now.items }
    ensures { IsKeyAt entries.now.items k result }
{
    let name = entries[k].name;
    (name.file as usize, name.node as usize)
}

/// Keeps a number under a key.
fn keep(
    numbers: &mut HashMap<(usize, usize), u32>,
    key: (usize, usize),
    number: u32,
) -> Result<(), NoMemory>
    ensures { OnOk result (IsKept (number_in numbers.old) (number_in numbers.new) key number) }
{
    numbers.insert(key, number)?;
    Ok(())
}

/// Keeps a number under a key that has none.
fn add_name(
    numbers: &mut HashMap<(usize, usize), u32>,
    key: (usize, usize),
    k: u32,
) -> Result<(), NoMemory>
    ensures { OnOk result (AddsName numbers.old numbers.new key k) }
{
    match find(numbers, key) {
        Some(_) => Ok(()),
        None => {
            keep(numbers, key, k)?;
            Ok(())
        }
    }
}

/// The number of the first declaration of each name. More than 2^32 are answered as want of memory.
pub fn numbers_of(
    alloc: Global,
    entries: &Vec<Entry>,
) -> Result<HashMap<(usize, usize), u32>, NoMemory>
    ensures { IfOk result (λ numbers. AreNamed entries.now.items numbers) }
{
    let mut numbers = HashMap::new(alloc);
    let end = count(entries);
    if end > 4_294_967_295 {
        return Err(NoMemory);
    }
    for k in 0..end {
        let key = name_key(entries, k);
        add_name(&mut numbers, key, k as u32)?;
    }
    Ok(numbers)
}
