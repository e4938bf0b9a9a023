//! Carrying out the nodes of a package that is ready.
ghost use Rattle.std.specs.Prelude.{◌≡◌, ◌≤◌, ◌+◌, ◌<◌, ◌^◌, ℕ, Err, IfOk, OnErr, length};
ghost use Rattle.gv_driver.specs.Tallies.{tally};
ghost use Rattle.gv_driver.specs.Runs.{Breaks, MeetsCircle, Performs};
ghost use Rattle.gv_driver.specs.Waves.{IsOwnRow, MayMake};

use crate::node::Node;
use crate::package::done_of;
use crate::tree::PackageTexts;
use action_graph::{Kit, Trees, Unloaded};
use fact_cache::Cache;
use std::alloc::Global;

/// The nodes of a ready package: what comes of them over its environment, and what is reached from it. Trees of its files spare its load the parse.
pub(crate) fn perform<K: Kit>(
    alloc: Global,
    tree: &[PackageTexts],
    only: u16,
    cache: &Cache,
    kit: &mut K,
    table: &[Option<Node>],
    at: usize,
    trees: Option<Trees>,
) -> Result<Node, Unloaded>
    requires may { MayMake tree.now only cache.now table.now at }
    requires loads { K.loads kit.old + 2 < 2 ^ 63 }
    requires runs { K.runs kit.old + 15 < 2 ^ 63 }
    requires holds { K.holds kit.old }
    ensures holds { K.holds kit.new }
    ensures least { (K.loads kit.old ≤ K.loads kit.new) × (K.runs kit.old ≤ K.runs kit.new) }
    ensures performs { IfOk result (λ n. Performs tree.now only cache.now at n (tally (K.loads kit.old) (K.runs kit.old)) (tally (K.loads kit.new) (K.runs kit.new))) }
    ensures row { IfOk result (λ n. IsOwnRow tree.now cache.now table.now at n) }
    ensures begun { OnErr result (Breaks tree.now only cache.now at (tally (K.loads kit.old) (K.runs kit.old)) (tally (K.loads kit.new) (K.runs kit.new))) }
    ensures circle { result ≡ Err Unloaded.Stuck → MeetsCircle tree.now cache.now }
{
    let node = done_of(alloc, tree, only, cache, kit, table, &tree[at], trees)?;
    Ok(node)
}
