//! A row in which few cells have something.
ghost use Rattle.std.specs.Prelude.{◌≡◌, ◌++◌, ◌<◌, ◌≤◌, ℕ, IfOk, OnOk, Some, length, slice_get};
ghost use Rattle.unit_read.specs.Entries.{stored, cell_in, entry_of, value_at, AreAscending, AreBelow, AreAbove};

use gv_base::NoMemory;
use std::alloc::Global;
use std::marker::Model;

/// How many entries have lower numbers.
fn place_of<T: Copy>(list: &Vec<(usize, T)>, n: usize) -> usize
    requires { AreAscending list.now.items }
    ensures within { result ≤ length list.now.items }
    ensures below { AreBelow list.now.items n result }
    ensures above { AreAbove list.now.items n result }
{
    list.partition_point(|entry| entry.0 < n)
}

fn entry_at<T: Copy>(list: &Vec<(usize, T)>, place: usize) -> Option<(usize, T)>
    ensures { result ≡ slice_get list.now.items place }
{
    list.get(place).copied()
}

/// What an entry has, if it has this number.
fn value_at<T: Copy>(n: usize, entry: Option<(usize, T)>) -> Option<T>
    ensures { result ≡ value_at n entry }
{
    match entry {
        Some((number, value)) => { if number == n { Some(value) } else { None } }
        None => None,
    }
}

/// What a cell has, where it has something, with its number.
fn add<T: Copy>(list: &mut Vec<(usize, T)>, n: usize, cell: Option<T>) -> Result<(), NoMemory>
    ensures { OnOk result (list.new.items ≡ list.old.items ++ entry_of n cell) }
{
    if let Some(value) = cell {
        list.push((n, value))?;
    }
    Ok(())
}

/// How many cells have something; only how much memory is asked for rests on it.
fn room_for<T: Copy>(row: &[Option<T>]) -> usize
    ensures { result ≤ length row.now }
{
    let mut room = 0;
    for n in 0..row.len() {
        if row[n].is_some() {
            room += 1;
        }
    }
    room
}

/// What few of the nodes of a file have. A contract sees them with their numbers.
#[derive(Drop)]
pub struct Entries<T> {
    list: Vec<(usize, T)>,
}

impl<T> Model for Entries<T> {
    ghost use Rattle.std.specs.Prelude.{ℕ, List};
    ghost use Rattle.unit_read.specs.Entries.{AreAscending};

    ghost Value = { List (ℕ × T) };

    ghost view = { λ e. e.list.items };

    ghost invariant = { λ e. AreAscending e.list.items };
}

impl<T: Copy> Entries<T> {
    /// What the cells of a row have.
    pub fn of(alloc: Global, row: &[Option<T>]) -> Result<Entries<T>, NoMemory>
        ensures { IfOk result (λ e. (n : ℕ) → stored e n ≡ cell_in row.now n) }
    {
        let mut list = Vec::with_capacity(alloc, room_for(row))?;
        for n in 0..row.len() {
            add(&mut list, n, row[n])?;
        }
        Ok(Entries { list })
    }

    /// What stands under a number.
    pub fn get(&self, n: usize) -> Option<T>
        ensures { result ≡ stored self.now n }
    {
        let place = place_of(&self.list, n);
        value_at(n, entry_at(&self.list, place))
    }
}
