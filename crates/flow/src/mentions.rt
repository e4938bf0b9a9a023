//! Which functions a body calls.
ghost use Rattle.std.specs.Prelude.{◌≡◌, ◌↔◌, ℕ, List, Option, Some, IfOk, OnOk, Contains};
ghost use Rattle.flow.specs.Flow.{Mentions};
ghost use Rattle.go_tree.specs.declared.tree.FileTree.{FileTree};
ghost use Rattle.flow.specs.Search.{IsGraph, function_of, called_at, with_one, MentionsBy};

use crate::edges::before;
use crate::graph::Graph;
use crate::point::Call;
use crate::search::{call_at, reach};
use gv_base::NoMemory;
use std::alloc::Global;

fn function_of(call: Call) -> Option<u32>
    ensures { result ≡ function_of call }
{
    match call {
        Call::Passes => None,
        Call::Stops => None,
        Call::Function(function) => Some(function),
    }
}

/// The function that the statement behind a point calls.
fn called_at(calls: &[Call], p: usize) -> Option<u32>
    ensures { result ≡ called_at calls.now p }
{
    if p % 2 != 0 {
        return None;
    }
    function_of(call_at(calls, p / 2))
}

fn add(found: &mut Vec<u32>, one: Option<u32>) -> Result<(), NoMemory>
    ensures { OnOk result (found.new.items ≡ with_one found.old.items one) }
{
    match one {
        None => Ok(()),
        Some(function) => {
            found.push(function)?;
            Ok(())
        }
    }
}

fn called(alloc: Global, calls: &[Call], points: &[usize]) -> Result<Vec<u32>, NoMemory>
    ensures { IfOk result (λ found. (f : ℕ) → Contains found.items f ↔ ((p : ℕ) × Contains points.now p × (called_at calls.now p ≡ Some f))) }
{
    let mut found = Vec::new(alloc);
    for p in points {
        add(&mut found, called_at(calls, *p))?;
    }
    Ok(found)
}

/// The functions that a body calls at statements to which control leads from its start where no call stops
/// it, one for each such call. In time in step with what is reached of the body, and a byte for each of its
/// points.
pub fn mentioned(
    alloc: Global,
    graph: &Graph,
    calls: &[Call],
    body: u32,
) -> Result<Vec<u32>, NoMemory>
    ensures rows { IfOk result (λ found. (f : ℕ) → Contains found.items f ↔ MentionsBy graph.now calls.now body f) }
    ensures graph { IfOk result (λ found. (tree : FileTree) (labels : List (Option ℕ)) → IsGraph tree labels graph.now → (f : ℕ) → Contains found.items f ↔ Mentions tree labels calls.now body f) }
{
    let points = reach(alloc, graph.rows(), &[], &[], before(body))?;
    let found = called(alloc, calls, &points)?;
    Ok(found)
}
