//! For each function those whose bodies mention it.
ghost use Rattle.std.specs.Prelude.{◌≡◌, ◌++◌, ◌∷◌, ◌<◌, ◌^◌, ◌↔◌, [], ℕ, List, Option, IfOk, OnOk, length, slice_set, slice_get, Some, Contains};
ghost use Rattle.never_returns.specs.Bodies.{AreRows, AreAdded, AreMentioned, row_of};

use crate::files::{Block, FileFlow, Function};
use flow::mentioned;
use gv_base::NoMemory;
use std::alloc::Global;
use std::marker::Model;

/// Numbers of functions.
#[derive(Drop)]
pub(crate) struct Readers {
    items: Vec<u32>,
}

impl Model for Readers {
    ghost Value = { List ℕ };

    ghost view = { λ r. r.items.items };
}

impl Readers {
    fn new(alloc: Global) -> Self
        ensures { result ≡ [] }
    {
        Readers {
            items: Vec::new(alloc),
        }
    }

    pub(crate) fn as_slice(&self) -> &[u32]
        ensures { result.now ≡ self.now }
    {
        &self.items
    }

    fn add(&mut self, reader: u32) -> Result<(), NoMemory>
        ensures { OnOk result (self.new ≡ self.old ++ reader ∷ []) }
    {
        self.items.push(reader)?;
        Ok(())
    }
}

fn no_rows(alloc: Global, count: usize) -> Result<Vec<Readers>, NoMemory>
    ensures size { IfOk result (λ rows. length rows.items ≡ count) }
    ensures empty { IfOk result (λ rows. (j : ℕ) → row_of rows.items j ≡ []) }
{
    let mut rows = Vec::new(alloc);
    for i in 0..count {
        rows.push(Readers::new(alloc))?;
    }
    Ok(rows)
}

fn add_to(rows: &mut Vec<Readers>, at: u32, reader: u32) -> Result<(), NoMemory>
    requires { at < length rows.old.items }
    ensures { OnOk result (rows.new.items ≡ slice_set rows.old.items at (row_of rows.old.items at ++ reader ∷ [])) }
{
    rows[at as usize].add(reader)?;
    Ok(())
}

/// Adds a function to a row, if there is such a row.
fn add_reader(rows: &mut Vec<Readers>, at: u32, reader: u32) -> Result<(), NoMemory>
    ensures { OnOk result (AreAdded reader (at ∷ []) 1 rows.old.items rows.new.items) }
{
    if (at as usize) < rows.as_slice().len() {
        add_to(rows, at, reader)?;
    }
    Ok(())
}

/// Adds a function to the rows of those that it mentions.
fn add_readers(rows: &mut Vec<Readers>, mentioned: &[u32], reader: u32) -> Result<(), NoMemory>
    ensures { OnOk result (AreAdded reader mentioned.now (length mentioned.now) rows.old.items rows.new.items) }
{
    for at in mentioned {
        add_reader(rows, *at, reader)?;
    }
    Ok(())
}

fn mentioned_in(alloc: Global, files: &[FileFlow], block: Block) -> Result<Vec<u32>, NoMemory>
    ensures { IfOk result (λ found. AreMentioned files.now (Some block) found.items) }
{
    if block.file as usize >= files.len() {
        return Ok(Vec::new(alloc));
    }
    let file = &files[block.file as usize];
    let found = mentioned(alloc, file.graph, file.calls, block.node)?;
    Ok(found)
}

fn mentioned_by(
    alloc: Global,
    files: &[FileFlow],
    body: Option<Block>,
) -> Result<Vec<u32>, NoMemory>
    ensures { IfOk result (λ found. AreMentioned files.now body found.items) }
{
    match body {
        None => Ok(Vec::new(alloc)),
        Some(block) => {
            let found = mentioned_in(alloc, files, block)?;
            Ok(found)
        }
    }
}

/// For each function those whose bodies mention it, as often as they do.
pub(crate) fn readers_of(
    alloc: Global,
    files: &[FileFlow],
    functions: &[Function],
) -> Result<Vec<Readers>, NoMemory>
    requires { length functions.now < 2 ^ 32 }
    ensures { IfOk result (λ rows. AreRows files.now functions.now (length functions.now) rows.items) }
{
    let mut rows = no_rows(alloc, functions.len())?;
    for i in 0..functions.len() {
        let function = &functions[i];
        let found = mentioned_by(alloc, files, function.body)?;
        add_readers(&mut rows, &found, i as u32)?;
    }
    Ok(rows)
}
