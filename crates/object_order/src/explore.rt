//! The graph of all spots that a search finds.
ghost use Rattle.std.specs.Prelude.{◌≡◌, ◌<◌, ◌∷◌, ◌^◌, [], IfOk, OnOk, slice_get, Some, None, length};
ghost use Rattle.object_order.specs.Trimmed.{trimmed_moves};
ghost use Rattle.object_order.specs.Quiet.{quiet_at};
ghost use Rattle.object_order.specs.Views.{world_of};
ghost use Rattle.object_order.specs.SpotRows.{kept_in};
ghost use Rattle.object_order.specs.Searches.{code, key_of, AreNumbered, Finds, IsRowOf, IsExplored, AddsRow};

use crate::moves::moves;
use crate::rows::{SpotRows, find, keep};
use crate::spot::{Mode, Spot};
use crate::view::View;
use gv_base::NoMemory;
use need_order::Graph;
use std::alloc::Global;

/// The spots that are found, the number of each, and a graph with a row for each.
#[derive(Drop)]
pub struct Explored {
    pub found: Vec<Spot>,
    pub numbers: SpotRows,
    pub graph: Graph,
}

fn code_of(mode: Mode) -> usize
    ensures { result ≡ code mode }
{
    match mode {
        Mode::Needs => 0,
        Mode::Reach => 1,
        Mode::Steps => 2,
        Mode::Follow => 3,
        Mode::Kin => 11,
        Mode::Direct => 4,
        Mode::Lengths => 5,
        Mode::Whole => 6,
        Mode::Aliases => 7,
        Mode::AliasSteps => 8,
        Mode::Embeds => 9,
        Mode::Alone => 10,
    }
}

/// A spot as two numbers.
pub fn key(spot: Spot) -> (usize, usize)
    ensures { result ≡ key_of spot }
{
    let mode = code_of(spot.mode);
    (spot.at.file as usize, spot.at.node as usize * 12 + mode)
}

/// How many spots have been found.
fn height(found: &Vec<Spot>) -> usize
    ensures value { result ≡ length found.now.items }
    ensures small { result < 2 ^ 63 }
{
    found.len()
}

/// Adds a spot that hasn't been found.
fn add_new(spot: Spot, numbers: &mut SpotRows, found: &mut Vec<Spot>) -> Result<u32, NoMemory>
    requires are { AreNumbered numbers.old found.old.items }
    requires fresh { kept_in numbers.old (key_of spot) ≡ None }
    requires few { length found.old.items < 4294967295 }
    ensures finds { OnOk result (Finds numbers.new found.old.items found.new.items (spot ∷ [])) }
    ensures number { IfOk result (λ n. slice_get found.new.items n ≡ Some spot) }
{
    let place = height(found);
    let number = place as u32;
    let own = key(spot);
    keep(numbers, own, number)?;
    found.push(spot)?;
    Ok(number)
}

/// The number of a spot, which is found where it wasn't.
fn number(spot: Spot, numbers: &mut SpotRows, found: &mut Vec<Spot>) -> Result<u32, NoMemory>
    requires { AreNumbered numbers.old found.old.items }
    ensures finds { OnOk result (Finds numbers.new found.old.items found.new.items (spot ∷ [])) }
    ensures number { IfOk result (λ n. slice_get found.new.items n ≡ Some spot) }
{
    let own = key(spot);
    match find(numbers, own) {
        Some(number) => Ok(number),
        None => {
            if height(found) >= 4_294_967_295 {
                return Err(NoMemory);
            }
            let number = add_new(spot, numbers, found)?;
            Ok(number)
        }
    }
}

/// The numbers of these spots, in place of what the row had.
fn row_of(
    these: &Vec<Spot>,
    numbers: &mut SpotRows,
    found: &mut Vec<Spot>,
    row: &mut Vec<u32>,
) -> Result<(), NoMemory>
    requires { AreNumbered numbers.old found.old.items }
    ensures finds { OnOk result (Finds numbers.new found.old.items found.new.items these.now.items) }
    ensures row { OnOk result (IsRowOf found.new.items row.new.items these.now.items) }
{
    row.clear();
    let end = height(these);
    for k in 0..end {
        let spot = spot_in(these, k);
        let number = number(spot, numbers, found)?;
        row.push(number)?;
    }
    Ok(())
}

/// A spot by its number.
fn spot_in(found: &Vec<Spot>, at: usize) -> Spot
    requires { at < length found.now.items }
    ensures { slice_get found.now.items at ≡ Some result }
{
    found[at]
}

/// Adds the row of a spot to the graph. What is lent for where the search goes on, and for its numbers, serves one spot after another.
fn add_row(
    view: &View,
    quiet: &Vec<Vec<bool>>,
    spot: Spot,
    next: &mut Vec<Spot>,
    row: &mut Vec<u32>,
    numbers: &mut SpotRows,
    found: &mut Vec<Spot>,
    graph: Graph,
) -> Result<Graph, NoMemory>
    requires { AreNumbered numbers.old found.old.items }
    ensures finds { OnOk result (Finds numbers.new found.old.items found.new.items (trimmed_moves (quiet_at quiet.now.items) (world_of view.now) spot)) }
    ensures row { IfOk result (λ longer. AddsRow found.new.items (trimmed_moves (quiet_at quiet.now.items) (world_of view.now) spot) graph longer) }
{
    moves(view, quiet, spot, next)?;
    row_of(next, numbers, found, row)?;
    let longer = graph.with(row)?;
    Ok(longer)
}

/// The graph of all spots to which the search leads from these, but for quiet nodes. More than 2^32 are answered as want of memory.
pub fn explore(
    alloc: Global,
    view: &View,
    quiet: &Vec<Vec<bool>>,
    seeds: &Vec<Spot>,
) -> Result<Explored, NoMemory>
    ensures { IfOk result (λ e. IsExplored (trimmed_moves (quiet_at quiet.now.items) (world_of view.now)) seeds.now.items e.found.items e.numbers e.graph) }
{
    let mut numbers = SpotRows::new(alloc, view.trees)?;
    let mut found = Vec::new(alloc);
    let mut next = Vec::new(alloc);
    let mut row = Vec::new(alloc);
    row_of(seeds, &mut numbers, &mut found, &mut row)?;
    let mut graph = Graph::new(alloc)?;
    let mut done = 0usize;
    while done < height(&found) {
        let spot = spot_in(&found, done);
        graph = add_row(
            view,
            quiet,
            spot,
            &mut next,
            &mut row,
            &mut numbers,
            &mut found,
            graph,
        )?;
        done += 1;
    }
    Ok(Explored {
        found,
        numbers,
        graph,
    })
}
