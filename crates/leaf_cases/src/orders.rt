//! Small graphs: which vertices are cyclic, and which come before which.
use crate::told::{add, add_number, number, said};
use gv_base::NoMemory;
use need_order::{Graph, Needed, order};
use std::alloc::Global;

/// The numbers between the spaces of a text.
fn numbers(alloc: Global, text: &str) -> Result<Vec<u32>, NoMemory> {
    let mut numbers = Vec::new(alloc);
    for word in text.split(' ') {
        if !word.is_empty() {
            numbers.push(number(word))?;
        }
    }
    Ok(numbers)
}

/// The graph of `[1 2] [] [0]`.
fn graph_of(alloc: Global, text: &str) -> Result<Graph, NoMemory> {
    let mut graph = Graph::new(alloc)?;
    for part in text.split('[') {
        if let Some((row, _behind)) = part.split_once("]") {
            let row = numbers(alloc, row)?;
            graph = graph.with(&row)?;
        }
    }
    Ok(graph)
}

/// The order, where everything that is needed is a vertex.
fn order_of(alloc: Global, graph: &Graph) -> Result<Option<Vec<Needed>>, NoMemory> {
    if graph.is_closed() {
        if graph.len() < 1_000 {
            let order = order(alloc, graph)?;
            return Ok(Some(order));
        }
    }
    Ok(None)
}

/// Where the vertex stands; past the end, where it doesn't.
fn place(order: &[Needed], vertex: u32) -> usize {
    for at in 0..order.len() {
        if order[at].vertex == vertex {
            return at;
        }
    }
    order.len()
}

/// Adds the cyclic vertices by their numbers.
fn add_cyclic(
    alloc: Global,
    out: &mut Vec<u8>,
    order: &[Needed],
    count: u32,
) -> Result<(), NoMemory> {
    for vertex in 0..count {
        if let Some(needed) = order.get(place(order, vertex)) {
            let sign = if needed.cyclic { "" } else { "-" };
            let text = format!(in alloc; "{sign}{vertex} ")?;
            add(out, text.as_str())?;
        }
    }
    Ok(())
}

/// Adds those of the pairs `3<2` of which the first comes before the second.
fn add_pairs(out: &mut Vec<u8>, order: &[Needed], pairs: &str) -> Result<(), NoMemory> {
    for pair in pairs.split(' ') {
        if let Some((first, second)) = pair.split_once("<") {
            if place(order, number(first)) < place(order, number(second)) {
                add(out, pair)?;
                out.push(b' ')?;
            }
        }
    }
    Ok(())
}

/// `[NUMBER ..] .., PAIR ..`: how many vertices are in order, each by its number, with `-` before one that isn't cyclic, and the pairs that hold.
pub fn answer(alloc: Global, input: &str) -> Result<Vec<u8>, NoMemory> {
    let (rows, pairs) = input.split_once(", ").unwrap_or((input, ""));
    let graph = graph_of(alloc, rows)?;
    let Some(order) = order_of(alloc, &graph)? else {
        return said(alloc, "open");
    };
    let mut out = Vec::new(alloc);
    add_number(alloc, &mut out, order.len() as u64)?;
    add_cyclic(alloc, &mut out, &order, 1_000)?;
    add_pairs(&mut out, &order, pairs)?;
    Ok(out)
}
