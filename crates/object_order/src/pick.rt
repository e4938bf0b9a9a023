//! What is picked from an order of spots: the objects.
ghost use Rattle.std.specs.Prelude.{◌≡◌, ℕ, ◌<◌, ◌||◌, ◌^◌, ◌++◌, [], IfOk, OnOk, length, slice_get, slice_set, Some};
ghost use Rattle.std.specs.List.{filter_map, cons_option};
ghost use Rattle.need_order.specs.declared.needed.Needed as vertex;
ghost use Rattle.need_order.specs.Graphs.{IsClosed};
ghost use Rattle.object_order.specs.Orders.{is_needs};
ghost use Rattle.object_order.specs.Picks.{AreFlags, flag_in, turn_of, picked_spot, picked, IsPicked};

use crate::explore::{Explored, key};
use crate::needed::Needed;
use crate::rows::{SpotRows, find};
use crate::spot::{Mode, Spot};
use go_tree::NodeRef;
use gv_base::NoMemory;
use need_order::full_order;
use std::alloc::Global;

fn no_flags(alloc: Global, count: usize) -> Result<Vec<bool>, NoMemory>
    ensures { IfOk result (λ flags. length flags.items ≡ count) }
{
    let flags = vec![in alloc; false; count]?;
    Ok(flags)
}

fn set_flag(flags: &mut Vec<bool>, item: need_order::Needed)
    requires { item.vertex < length flags.old.items }
    ensures { flags.new.items ≡ slice_set flags.old.items item.vertex item.cyclic }
{
    flags[item.vertex as usize] = item.cyclic;
}

fn item_at(order: &Vec<need_order::Needed>, k: usize) -> need_order::Needed
    requires { k < length order.now.items }
    ensures { slice_get order.now.items k ≡ Some result }
{
    order[k]
}

fn items(order: &Vec<need_order::Needed>) -> usize
    ensures { result ≡ length order.now.items }
{
    order.len()
}

/// The flag of each vertex.
fn flags_of(
    alloc: Global,
    order: &Vec<need_order::Needed>,
    count: usize,
) -> Result<Vec<bool>, NoMemory>
    requires within { (k : ℕ) (e : vertex.Needed) → slice_get order.now.items k ≡ Some e → e.vertex < count }
    requires once { (j k : ℕ) (e f : vertex.Needed) → slice_get order.now.items j ≡ Some e → slice_get order.now.items k ≡ Some f → e.vertex ≡ f.vertex → j ≡ k }
    ensures { IfOk result (λ flags. AreFlags order.now.items flags.items) }
{
    let mut flags = no_flags(alloc, count)?;
    let end = items(order);
    for k in 0..end {
        let item = item_at(order, k);
        set_flag(&mut flags, item);
    }
    Ok(flags)
}

fn flag_read(flags: &Vec<bool>, number: usize) -> Option<bool>
    ensures { result ≡ slice_get flags.now.items number }
{
    flags.get(number).copied()
}

/// The flag of a number; none is set beyond the list.
pub fn flag_at(flags: &Vec<bool>, number: u32) -> bool
    ensures { result ≡ flag_in flags.now.items number }
{
    match flag_read(flags, number as usize) {
        Some(flag) => flag,
        None => false,
    }
}

/// Whether the spot of a type's steps is marked.
fn turns(numbers: &SpotRows, flags: &Vec<bool>, at: NodeRef) -> bool
    ensures { result ≡ turn_of numbers.now flags.now.items at }
{
    let steps = key(Spot {
        mode: Mode::Steps,
        at,
    });
    match find(numbers, steps) {
        Some(number) => flag_at(flags, number),
        None => false,
    }
}

fn is_object(mode: Mode) -> bool
    ensures { result ≡ is_needs mode }
{
    match mode {
        Mode::Needs => true,
        _ => false,
    }
}

fn either(a: bool, b: bool) -> bool
    ensures { result ≡ (a || b) }
{
    a || b
}

fn pick_spot(numbers: &SpotRows, flags: &Vec<bool>, cyclic: bool, spot: Spot) -> Option<Needed>
    ensures { result ≡ picked_spot numbers.now flags.now.items cyclic spot }
{
    if is_object(spot.mode) {
        let cyclic = either(cyclic, turns(numbers, flags, spot.at));
        return Some(Needed {
            object: spot.at,
            cyclic,
        });
    }
    None
}

fn spot_at(found: &Vec<Spot>, vertex: u32) -> Option<Spot>
    ensures { result ≡ slice_get found.now.items vertex }
{
    found.get(vertex as usize).copied()
}

/// The object of a vertex that is one.
fn pick(
    found: &Vec<Spot>,
    numbers: &SpotRows,
    flags: &Vec<bool>,
    item: need_order::Needed,
) -> Option<Needed>
    ensures { result ≡ picked found.now.items numbers.now flags.now.items item }
{
    match spot_at(found, item.vertex) {
        Some(spot) => pick_spot(numbers, flags, item.cyclic, spot),
        None => None,
    }
}

fn put(list: &mut Vec<Needed>, one: Option<Needed>) -> Result<(), NoMemory>
    ensures { OnOk result (list.new.items ≡ list.old.items ++ cons_option one []) }
{
    if let Some(needed) = one {
        list.push(needed)?;
    }
    Ok(())
}

/// The objects in the order of their vertices.
fn pick_all(
    alloc: Global,
    found: &Vec<Spot>,
    numbers: &SpotRows,
    flags: &Vec<bool>,
    order: &Vec<need_order::Needed>,
) -> Result<Vec<Needed>, NoMemory>
    ensures { IfOk result (λ list. list.items ≡ filter_map (picked found.now.items numbers.now flags.now.items) order.now.items) }
{
    let mut list = Vec::new(alloc);
    let end = items(order);
    for k in 0..end {
        let item = item_at(order, k);
        let one = pick(found, numbers, flags, item);
        put(&mut list, one)?;
    }
    Ok(list)
}

/// The objects among the spots, in an order of need.
pub fn ordered(alloc: Global, explored: &Explored) -> Result<Vec<Needed>, NoMemory>
    requires few { length explored.now.graph < 2 ^ 32 }
    requires closed { IsClosed explored.now.graph }
    ensures { IfOk result (λ list. IsPicked explored.now.found.items explored.now.numbers explored.now.graph list.items) }
{
    let order = full_order(alloc, &explored.graph)?;
    let flags = flags_of(alloc, &order, explored.graph.len())?;
    let list = pick_all(alloc, &explored.found, &explored.numbers, &flags, &order)?;
    Ok(list)
}
