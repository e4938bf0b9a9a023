//! For each type those of which it is a part.
ghost use Rattle.std.specs.Prelude.{◌≡◌, ◌++◌, ◌∷◌, ◌<◌, ◌^◌, [], ℕ, List, Some, IfOk, OnOk, length, slice_set, slice_get};
ghost use Rattle.vet_printf.specs.InTable.{AreRows, AreAdded, row_of};

use crate::shapes::Shape;
use gv_base::NoMemory;
use std::alloc::Global;
use std::marker::Model;

/// Numbers of types.
#[derive(Drop)]
pub(crate) struct Readers {
    items: Vec<u32>,
}

impl Model for Readers {
    ghost Value = { List ℕ };

    ghost view = { λ r. r.items.items };
}

impl Readers {
    fn new(alloc: Global) -> Self
        ensures { result ≡ [] }
    {
        Readers {
            items: Vec::new(alloc),
        }
    }

    pub(crate) fn as_slice(&self) -> &[u32]
        ensures { result.now ≡ self.now }
    {
        &self.items
    }

    pub(crate) fn add(&mut self, reader: u32) -> Result<(), NoMemory>
        ensures { OnOk result (self.new ≡ self.old ++ reader ∷ []) }
    {
        self.items.push(reader)?;
        Ok(())
    }
}

pub(crate) fn no_rows(alloc: Global, count: usize) -> Result<Vec<Readers>, NoMemory>
    ensures size { IfOk result (λ rows. length rows.items ≡ count) }
    ensures empty { IfOk result (λ rows. (j : ℕ) → row_of rows.items j ≡ []) }
{
    let mut rows = Vec::with_capacity(alloc, count)?;
    for i in 0..count {
        rows.push(Readers::new(alloc))?;
    }
    Ok(rows)
}

fn add_to(rows: &mut Vec<Readers>, at: u32, reader: u32) -> Result<(), NoMemory>
    requires { at < length rows.old.items }
    ensures { OnOk result (rows.new.items ≡ slice_set rows.old.items at (row_of rows.old.items at ++ reader ∷ [])) }
{
    rows[at as usize].add(reader)?;
    Ok(())
}

/// Adds a type to a row, if there is such a row.
fn add_reader(rows: &mut Vec<Readers>, at: u32, reader: u32) -> Result<(), NoMemory>
    ensures { OnOk result (AreAdded reader (at ∷ []) 1 rows.old.items rows.new.items) }
{
    if (at as usize) < rows.as_slice().len() {
        add_to(rows, at, reader)?;
    }
    Ok(())
}

/// Adds a type to the rows of its parts.
fn add_readers(rows: &mut Vec<Readers>, parts: &[u32], reader: u32) -> Result<(), NoMemory>
    ensures { OnOk result (AreAdded reader parts.now (length parts.now) rows.old.items rows.new.items) }
{
    for at in parts {
        add_reader(rows, *at, reader)?;
    }
    Ok(())
}

/// For each type those of which it is a part, as often as it is.
pub(crate) fn readers_of(alloc: Global, shapes: &[Shape]) -> Result<Vec<Readers>, NoMemory>
    requires { length shapes.now < 2 ^ 32 }
    ensures { IfOk result (λ rows. AreRows shapes.now (length shapes.now) rows.items) }
{
    let mut rows = no_rows(alloc, shapes.len())?;
    for i in 0..shapes.len() {
        let shape = &shapes[i];
        add_readers(&mut rows, shape.parts.as_slice(), i as u32)?;
    }
    Ok(rows)
}
