//! Which packages reach themselves by imports.
ghost use Rattle.std.specs.Prelude.{◌≡◌, ◌<◌, ◌^◌, ℕ, false, length, map, take, get_or, IfOk};
ghost use Rattle.std.specs.List.{All};
ghost use Rattle.need_order.specs.Graphs.{IsClosed};
ghost use Rattle.import_graph.specs.Tables.{AreFlags, imports_in, says_cyclic};

use crate::drafts::Draft;
use gv_base::NoMemory;
use need_order::{Graph, Needed};
use std::alloc::Global;

/// What each package imports.
fn graph_of(alloc: Global, drafts: &[Draft]) -> Result<Graph, NoMemory>
    ensures { IfOk result (λ graph. graph ≡ imports_in drafts.now) }
{
    let mut graph = Graph::new(alloc)?;
    for draft in drafts {
        graph = graph.with(draft.imports.as_slice())?;
    }
    Ok(graph)
}

/// A flag for each that the order calls cyclic.
fn flags_of(alloc: Global, count: usize, needed: &[Needed]) -> Result<Vec<bool>, NoMemory>
    requires { All (λ e. e.vertex < count) needed.now }
    ensures size { IfOk result (λ flags. length flags.items ≡ count) }
    ensures flags { IfOk result (λ flags. (k : ℕ) → k < count → get_or flags.items k false ≡ says_cyclic k needed.now) }
{
    let mut flags = vec![in alloc; false; count]?;
    for e in needed {
        if e.cyclic {
            flags[e.vertex as usize] = true;
        }
    }
    Ok(flags)
}

/// A flag for each that reaches itself.
pub fn cycles(alloc: Global, drafts: &[Draft]) -> Result<Vec<bool>, NoMemory>
    requires closed { IsClosed (imports_in drafts.now) }
    requires few { length drafts.now < 2 ^ 32 }
    ensures { IfOk result (λ flags. AreFlags (imports_in drafts.now) flags.items) }
{
    let graph = graph_of(alloc, drafts)?;
    let needed = need_order::order(alloc, &graph)?;
    let flags = flags_of(alloc, drafts.len(), &needed)?;
    Ok(flags)
}
