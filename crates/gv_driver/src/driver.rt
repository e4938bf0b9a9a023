//! Runs over a tree.
ghost use Rattle.std.specs.Prelude.{◌≡◌, ◌<◌, ◌≤◌, ◌+◌, ◌*◌, ◌^◌, ℕ, true, None, Some, Err, IfOk, OnErr, length, replicate, slice_get, sum_by};
ghost use Rattle.fact_cache.specs.Caches.{is_within, trimmed};
ghost use Rattle.gv_driver.specs.Trees.{IsTree};
ghost use Rattle.gv_driver.specs.Caches.{IsHonest};
ghost use Rattle.gv_driver.specs.Runs.{IsCutOff, MeetsCircle, Ran};
ghost use Rattle.gv_driver.specs.Standing.{AreFoundIn, AreVerdictsIn};
ghost use Rattle.gv_driver.specs.Tallies.{AreGrown, tally};

use crate::counts::counts;
use crate::diagnosed::findings;
use crate::facts::tell_facts;
use crate::keep::{entries_of, keep};
use crate::node::Node;
use crate::reply::Judgement;
use crate::report::verdicts;
use crate::tree::PackageTexts;
use crate::wave::run_all;
use action_graph::{Kit, PackageTrees, Unloaded, findings_stand};
use fact_cache::Cache;
use gv_base::{NoMemory, Row};
use std::alloc::Global;
use std::thread::Threads;

fn none_done(alloc: Global, count: usize) -> Result<Vec<Option<Node>>, NoMemory>
    ensures { IfOk result (λ table. table.items ≡ replicate count None) }
{
    let mut table = Vec::new(alloc);
    for p in 0..count {
        let _ = p;
        table.push(None)?;
    }
    Ok(table)
}

/// What comes of a tree. No entry is dropped; the clauses say what holds once the oldest are.
fn run_with<K: Kit + Send, R: Threads + Sync>(
    rt: &R,
    alloc: Global,
    tree: &[PackageTexts],
    trees: &PackageTrees,
    only: u16,
    cache: &mut Cache,
    kits: &mut [K],
) -> Result<Judgement, Unloaded>
where
    K::Loaded: Send,
    requires tree { IsTree tree.now }
    requires few { length tree.now < 2 ^ 28 }
    requires some { 0 < length kits.old }
    requires loads { (k : ℕ) (kit : K) → slice_get kits.old k ≡ Some kit → K.loads kit ≤ 2 ^ 62 }
    requires runs { (k : ℕ) (kit : K) → slice_get kits.old k ≡ Some kit → K.runs kit ≤ 2 ^ 62 }
    ensures loads { sum_by K.loads kits.new ≤ sum_by K.loads kits.old + length tree.now }
    ensures least { AreGrown K.loads K.runs kits.old kits.new }
    ensures runs { sum_by K.runs kits.new ≤ sum_by K.runs kits.old + 15 * length tree.now }
    ensures stand { IfOk result (λ reply. AreVerdictsIn tree.now reply.verdicts) }
    ensures found { IfOk result (λ reply. AreFoundIn tree.now reply.found) }
    ensures facts { IfOk result (λ reply. length reply.facts ≡ length tree.now) }
    ensures ran { IsHonest cache.old → IfOk result (λ reply. Ran tree.now only cache.old (trimmed cache.new) (tally (sum_by K.loads kits.old) (sum_by K.runs kits.old)) (tally (sum_by K.loads kits.new) (sum_by K.runs kits.new)) reply) }
    ensures cut_off { IsHonest cache.old → OnErr result (IsCutOff tree.now only cache.old (trimmed cache.new) (tally (sum_by K.loads kits.old) (sum_by K.runs kits.old)) (tally (sum_by K.loads kits.new) (sum_by K.runs kits.new))) }
    ensures circle { result ≡ Err Unloaded.Stuck → MeetsCircle tree.now cache.old }
    ensures honest { IsHonest cache.old → IsHonest cache.new }
{
    let mut table = none_done(alloc, tree.len())?;
    run_all(rt, alloc, tree, trees, only, cache, kits, &mut table)?;
    let list = verdicts(alloc, tree, &table)?;
    let found = findings(alloc, tree, &table)?;
    findings_stand();
    let counts = counts(&table);
    let entries = entries_of(alloc, &table)?;
    let facts = tell_facts(alloc, &table)?;
    keep(cache, entries)?;
    Ok(Judgement {
        verdicts: Row::new(list),
        found: Row::new(found),
        facts: Row::new(facts),
        counts,
    })
}

/// Judges a tree with the kits side by side, and with what the cache has; what was executed is kept. Over the accepted packages the analyzers
/// run whose bits `only` has: none for a check. It returns
/// over any cache, after at most one load and fifteen runs for each package, with a verdict for each package whose marks
/// stand in the package's files, and with diagnostics that do; no kit's counts fall. Where the cache is honest, the verdicts and the findings are
/// those of the sources, exactly the missing nodes are executed and the loads that a missing run needs, and the missing nodes' entries stand
/// behind the old ones. Where
/// it answers that rules go in a circle, some package of the tree is stuck. However it
/// ends, the oldest entries are then dropped until the cache's limits hold. Trees of files that were parsed before spare their packages' loads the
/// parse; nothing else depends on them.
#[tactic(auto, using(crate::proofs::CacheLaws::honest_trimmed, crate::proofs::CacheLaws::trimmed_is_within))]
pub fn run<K: Kit + Send, R: Threads + Sync>(
    rt: &R,
    alloc: Global,
    tree: &[PackageTexts],
    trees: &PackageTrees,
    only: u16,
    cache: &mut Cache,
    kits: &mut [K],
) -> Result<Judgement, Unloaded>
where
    K::Loaded: Send,
    requires tree { IsTree tree.now }
    requires few { length tree.now < 2 ^ 28 }
    requires some { 0 < length kits.old }
    requires loads { (k : ℕ) (kit : K) → slice_get kits.old k ≡ Some kit → K.loads kit ≤ 2 ^ 62 }
    requires runs { (k : ℕ) (kit : K) → slice_get kits.old k ≡ Some kit → K.runs kit ≤ 2 ^ 62 }
    ensures least { AreGrown K.loads K.runs kits.old kits.new }
    ensures bound { sum_by K.loads kits.new + sum_by K.runs kits.new ≤ sum_by K.loads kits.old + sum_by K.runs kits.old + 16 * length tree.now }
    ensures stand { IfOk result (λ reply. AreVerdictsIn tree.now reply.verdicts) }
    ensures found { IfOk result (λ reply. AreFoundIn tree.now reply.found) }
    ensures facts { IfOk result (λ reply. length reply.facts ≡ length tree.now) }
    ensures ran { IsHonest cache.old → IfOk result (λ reply. Ran tree.now only cache.old cache.new (tally (sum_by K.loads kits.old) (sum_by K.runs kits.old)) (tally (sum_by K.loads kits.new) (sum_by K.runs kits.new)) reply) }
    ensures cut_off { IsHonest cache.old → OnErr result (IsCutOff tree.now only cache.old cache.new (tally (sum_by K.loads kits.old) (sum_by K.runs kits.old)) (tally (sum_by K.loads kits.new) (sum_by K.runs kits.new))) }
    ensures circle { result ≡ Err Unloaded.Stuck → MeetsCircle tree.now cache.old }
    ensures honest { IsHonest cache.old → IsHonest cache.new }
    ensures within { is_within cache.new ≡ true }
{
    let reply = run_with(rt, alloc, tree, trees, only, cache, kits);
    cache.trim();
    reply
}
