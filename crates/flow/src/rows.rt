//! Edges by where they begin.
ghost use Rattle.std.specs.Prelude.{◌≡◌, ◌++◌, ◌∷◌, [], ◌<◌, ◌↔◌, ℕ, List, OnOk, IfOk, IsTrue, cond, length, slice_set, Contains};
ghost use Rattle.flow.specs.Edges.{edge};
ghost use Rattle.flow.specs.Search.{row_at, StepsBy};

use crate::point::Edge;
use gv_base::NoMemory;
use std::alloc::Global;
use std::marker::Model;

/// The points to which a point leads. Most lead to one, which takes no memory but the row's own.
#[derive(Drop)]
pub(crate) struct Targets {
    is_one: bool,
    one: usize,
    items: Vec<usize>,
}

impl Model for Targets {
    ghost Value = { List ℕ };

    ghost view = { λ r. cond r.is_one (r.one ∷ []) r.items.items };
}

fn is_empty(items: &Vec<usize>) -> bool
    ensures { IsTrue result ↔ (items.now.items ≡ []) }
{
    items.is_empty()
}

impl Targets {
    pub(crate) fn new(alloc: Global) -> Self
        ensures { result ≡ [] }
    {
        Targets {
            is_one: false,
            one: 0,
            items: Vec::new(alloc),
        }
    }

    pub(crate) fn as_slice(&self) -> &[usize]
        ensures { result.now ≡ self.now }
    {
        if self.is_one {
            return std::slice::from_ref(&self.one);
        }
        &self.items
    }

    pub(crate) fn add(&mut self, target: usize) -> Result<(), NoMemory>
        ensures { OnOk result (self.new ≡ self.old ++ target ∷ []) }
    {
        if self.is_one {
            self.items.clear();
            self.items.push(self.one)?;
            self.items.push(target)?;
            self.is_one = false;
            return Ok(());
        }
        if is_empty(&self.items) {
            self.one = target;
            self.is_one = true;
            return Ok(());
        }
        self.items.push(target)?;
        Ok(())
    }
}

/// Empty rows are added until there is one for the point.
fn grow(alloc: Global, rows: &mut Vec<Targets>, from: usize) -> Result<(), NoMemory>
    ensures room { OnOk result (from < length rows.new.items) }
    ensures same { OnOk result ((p : ℕ) → row_at rows.new.items p ≡ row_at rows.old.items p) }
{
    while rows.as_slice().len() <= from {
        rows.push(Targets::new(alloc))?;
    }
    Ok(())
}

fn add_target(rows: &mut Vec<Targets>, e: Edge) -> Result<(), NoMemory>
    requires { e.from < length rows.old.items }
    ensures { OnOk result (rows.new.items ≡ slice_set rows.old.items e.from (row_at rows.old.items e.from ++ e.to ∷ [])) }
{
    rows[e.from].add(e.to)?;
    Ok(())
}

/// For each point those to which an edge leads from it. There is no row behind the last point from
/// which one leads. There is room for so many rows from the start.
pub(crate) fn rows_of(alloc: Global, edges: &[Edge], room: usize) -> Result<Vec<Targets>, NoMemory>
    ensures { IfOk result (λ rows. (p q : ℕ) → StepsBy rows.items p q ↔ Contains edges.now (edge p q)) }
{
    let mut rows = Vec::with_capacity(alloc, room)?;
    for e in edges {
        grow(alloc, &mut rows, e.from)?;
        add_target(&mut rows, *e)?;
    }
    Ok(rows)
}
