//! Where each type of a package ends.
ghost use Rattle.std.specs.Prelude.{◌≡◌, ◌<◌, ◌^◌, length, ◌++◌, ◌∷◌, [], map, replicate, option_and_then, slice_get, slice_set, IfOk, Some, None};
ghost use Rattle.std.specs.List.{cons_option};
ghost use Rattle.object_order.specs.Views.{world_of};
ghost use Rattle.package_needs.specs.Links.{IsLink, AreLinks, row_of as row_in, AreEnds, AreArrivals, cell, ended, ended_to, link_at};
ghost use Rattle.package_needs.specs.Follow.{IsEnd};
ghost use Rattle.need_order.specs.Graphs.{IsClosed, Needs, IsOrder};
ghost use Rattle.package_needs.specs.declared.ends.Link.{Link};

use crate::follow::{given_by, peel, step_from};
use go_tree::NodeRef;
use gv_base::NoMemory;
use need_order::{Graph, Needed, order};
use object_order::{Entry, View};
use std::alloc::Global;

/// The type that a declaration gives, without parentheses, and the number of the declaration to which it goes on.
#[derive(Clone, Copy, Debug, PartialEq, Eq, Drop)]
pub struct Link {
    pub bare: NodeRef,
    pub to: Option<u32>,
}

fn link_of(view: &View, far: bool, entry: &Entry) -> Option<Link>
    ensures { IsLink (world_of view.now) view.now.entries.items far entry.now result }
{
    match given_by(far, entry) {
        Some(at) => {
            let bare = peel(view, at);
            let to = step_from(view, far, bare);
            Some(Link { bare, to })
        }
        None => None,
    }
}

fn links_of(alloc: Global, view: &View, far: bool) -> Result<Vec<Option<Link>>, NoMemory>
    ensures { IfOk result (λ links. AreLinks (world_of view.now) view.now.entries.items far links.items) }
{
    let mut links = Vec::new(alloc);
    for entry in &view.entries {
        links.push(link_of(view, far, entry))?;
    }
    Ok(links)
}

/// The number of the declaration to which a type goes on.
fn target(link: Option<Link>) -> Option<u32>
    ensures { result ≡ option_and_then (λ (l : Link). l.to) link }
{
    match link {
        Some(link) => link.to,
        None => None,
    }
}

fn row_for(alloc: Global, to: Option<u32>) -> Result<Vec<u32>, NoMemory>
    ensures { IfOk result (λ row. row.items ≡ cons_option to []) }
{
    let mut row = Vec::new(alloc);
    if let Some(to) = to {
        row.push(to)?;
    }
    Ok(row)
}

fn add_link(alloc: Global, graph: Graph, link: Option<Link>) -> Result<Graph, NoMemory>
    ensures { IfOk result (λ longer. longer ≡ graph ++ row_in link ∷ []) }
{
    let row = row_for(alloc, target(link))?;
    let longer = graph.with(&row)?;
    Ok(longer)
}

/// The types as a graph.
fn graph_of(alloc: Global, links: &Vec<Option<Link>>) -> Result<Graph, NoMemory>
    ensures { IfOk result (λ graph. graph ≡ map row_in links.now.items) }
{
    let mut graph = Graph::new(alloc)?;
    for link in links {
        graph = add_link(alloc, graph, *link)?;
    }
    Ok(graph)
}

fn no_ends(alloc: Global, count: usize) -> Result<Vec<Option<NodeRef>>, NoMemory>
    ensures { IfOk result (λ table. table.items ≡ replicate count None) }
{
    let table = vec![in alloc; None; count]?;
    Ok(table)
}

pub fn cell_at(table: &Vec<Option<NodeRef>>, n: u32) -> Option<NodeRef>
    ensures { result ≡ cell table.now.items n }
{
    match table.get(n as usize) {
        Some(end) => *end,
        None => None,
    }
}

fn ended_by(table: &Vec<Option<NodeRef>>, link: Link) -> Option<NodeRef>
    ensures { result ≡ ended_to table.now.items link.bare link.to }
{
    match link.to {
        Some(to) => cell_at(table, to),
        None => Some(link.bare),
    }
}

fn link_of_number(links: &Vec<Option<Link>>, n: u32) -> Option<Link>
    ensures { result ≡ link_at links.now.items n }
{
    match links.get(n as usize) {
        Some(link) => *link,
        None => None,
    }
}

/// Where the type of a declaration ends, where it is known of those to which it goes on.
fn end_now(links: &Vec<Option<Link>>, table: &Vec<Option<NodeRef>>, n: u32) -> Option<NodeRef>
    ensures { result ≡ ended table.now.items (link_at links.now.items n) }
{
    match link_of_number(links, n) {
        Some(link) => ended_by(table, link),
        None => None,
    }
}

fn item_at(order: &Vec<Needed>, k: usize) -> Needed
    requires { k < length order.now.items }
    ensures { slice_get order.now.items k ≡ Some result }
{
    order[k]
}

fn settle(links: &Vec<Option<Link>>, table: &mut Vec<Option<NodeRef>>, vertex: u32)
    requires { vertex < length table.old.items }
    ensures { table.new.items ≡ slice_set table.old.items vertex (ended table.old.items (link_at links.now.items vertex)) }
{
    let end = end_now(links, table, vertex);
    table[vertex as usize] = end;
}

fn height(order: &Vec<Needed>) -> usize
    ensures { result ≡ length order.now.items }
{
    order.len()
}

fn size(links: &Vec<Option<Link>>) -> usize
    ensures { result ≡ length links.now.items }
{
    links.len()
}

/// For each declaration where its links end: what it goes on to comes before it in the order, unless they go round in a circle.
fn settle_all(
    alloc: Global,
    links: &Vec<Option<Link>>,
    order: &Vec<Needed>,
) -> Result<Vec<Option<NodeRef>>, NoMemory>
    requires { IsOrder (Needs (map row_in links.now.items)) (length links.now.items) order.now.items }
    ensures { IfOk result (λ table. AreArrivals links.now.items table.items) }
{
    let mut table = no_ends(alloc, size(links))?;
    let end = height(order);
    for k in 0..end {
        settle(links, &mut table, item_at(order, k).vertex);
    }
    Ok(table)
}

fn order_of_links(alloc: Global, links: &Vec<Option<Link>>) -> Result<Vec<Needed>, NoMemory>
    requires { IsClosed (map row_in links.now.items) }
    ensures { IfOk result (λ order. IsOrder (Needs (map row_in links.now.items)) (length links.now.items) order.items) }
{
    let graph = graph_of(alloc, links)?;
    if size(links) > 4_294_967_295 {
        return Err(NoMemory);
    }
    let order = order(alloc, &graph)?;
    Ok(order)
}

/// For each declaration of a type where that type ends, through aliases alone or through all types. More than 2^32
/// declarations are answered as want of memory.
pub fn ends_of(alloc: Global, view: &View, far: bool) -> Result<Vec<Option<NodeRef>>, NoMemory>
    ensures { IfOk result (λ table. AreEnds (world_of view.now) view.now.entries.items far table.items) }
{
    let links = links_of(alloc, view, far)?;
    let order = order_of_links(alloc, &links)?;
    let table = settle_all(alloc, &links, &order)?;
    Ok(table)
}

/// Where a type ends: at a type that is no name of a type of the package; nowhere, where names go round in a circle.
pub fn end_of(view: &View, far: bool, table: &Vec<Option<NodeRef>>, at: NodeRef) -> Option<NodeRef>
    requires { AreEnds (world_of view.now) view.now.entries.items far table.now.items }
    ensures { IsEnd (world_of view.now) far at result }
{
    let bare = peel(view, at);
    let to = step_from(view, far, bare);
    ended_by(table, Link { bare, to })
}
