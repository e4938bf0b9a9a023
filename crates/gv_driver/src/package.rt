//! The nodes of a package: its load, and its runs.
ghost use Rattle.std.specs.Prelude.{◌≡◌, ◌+◌, ◌<◌, ◌≤◌, ◌^◌, ℕ, Err, IfOk, OnOk, OnErr, length};
ghost use Rattle.action_graph.specs.Judging.{IsStuck};
ghost use Rattle.action_graph.specs.Nodes.{load_texts};
ghost use Rattle.gv_driver.specs.Analyzers.{AreAnalyzers, analyzers_of};
ghost use Rattle.gv_driver.specs.Given.{givens, givens_from};
ghost use Rattle.gv_driver.specs.Loads.{load_input};
ghost use Rattle.gv_driver.specs.Making.{AllApart, IsBegun, IsMade, IsOpened, Takes, digit};
ghost use Rattle.gv_driver.specs.Rows.{merged};
ghost use Rattle.gv_driver.specs.Tables.{IsRowOf, chosen_if, export_part, load_from, load_over};
ghost use Rattle.gv_driver.specs.Tallies.{tally};
ghost use Rattle.gv_driver.specs.Trees.{IsTree};

use crate::analyzers::analyzers;
use crate::answer::{export_of, is_accepted};
use crate::loading::{begun_of, release};
use crate::node::{Begun, Node};
use crate::parts::parts_of;
use crate::rows::{merged_row, row_of};
use crate::runs::runs_for;
use crate::tree::PackageTexts;
use action_graph::{Kit, Trees, Unloaded};
use fact_cache::{Cache, Parts};
use gv_base::Row;
use std::alloc::Global;

/// These, where the package is accepted; else none.
fn chosen(good: bool, numbers: &[u8]) -> &[u8]
    ensures { result.now ≡ chosen_if good numbers.now }
{
    if good { numbers } else { &[] }
}

/// The runs of a package over its load, which is given back to the kit behind them. The row is still empty.
fn with_runs<K: Kit>(
    alloc: Global,
    tree: &[PackageTexts],
    cache: &Cache,
    kit: &mut K,
    table: &[Option<Node>],
    env: &[u32],
    pack: &PackageTexts,
    numbers: &[u8],
    texts: Parts<'_>,
    begun: Begun<K::Loaded>,
) -> Result<Node, Unloaded>
    requires loads { K.loads kit.old + 1 < 2 ^ 63 }
    requires runs { K.runs kit.old + length numbers.now < 2 ^ 63 }
    requires holds { K.holds kit.old }
    requires numbers { AreAnalyzers numbers.now }
    requires texts { texts ≡ load_texts (load_over tree.now table.now env.now pack.now) }
    requires opened { IsOpened K.is_of K.keeps cache.now (load_over tree.now table.now env.now pack.now) begun }
    requires apart { AllApart (givens tree.now table.now env.now) }
    ensures holds { K.holds kit.new }
    ensures loads_least { K.loads kit.old ≤ K.loads kit.new }
    ensures runs_least { K.runs kit.old ≤ K.runs kit.new }
    ensures made { IfOk result (λ n. IsMade (givens tree.now table.now env.now) cache.now (load_over tree.now table.now env.now pack.now) numbers.now n) }
    ensures takes { (count : ℕ) → K.loads kit.old ≡ count + digit begun.loading.tried → IfOk result (λ n. Takes (givens tree.now table.now env.now) cache.now (load_over tree.now table.now env.now pack.now) numbers.now n (tally count (K.runs kit.old)) (tally (K.loads kit.new) (K.runs kit.new))) }
    ensures begun { (count : ℕ) → K.loads kit.old ≡ count + digit begun.loading.tried → OnErr result (IsBegun (givens tree.now table.now env.now) cache.now (load_over tree.now table.now env.now pack.now) numbers.now (tally count (K.runs kit.old)) (tally (K.loads kit.new) (K.runs kit.new))) }
    ensures circle { result ≡ Err Unloaded.Stuck → IsStuck (load_over tree.now table.now env.now pack.now) }
{
    let Begun {
        fresh,
        answer,
        loading,
    } = begun;
    let mut loading = loading;
    let numbers = chosen(is_accepted(&answer), numbers);
    let runs = runs_for(
        alloc,
        tree,
        cache,
        kit,
        table,
        env,
        pack,
        numbers,
        texts,
        &mut loading,
    )?;
    release(kit, loading);
    Ok(Node {
        fresh,
        answer,
        reach: Row::new(Vec::new(alloc)),
        runs: Row::new(runs),
    })
}

/// A package's nodes, over this environment: its load, and where it is accepted the runs of the analyzers that are chosen for it. The load is
/// executed where it or one of the runs is missing. The texts that all of them read are gone through once. The row is still empty.
fn made_of<K: Kit>(
    alloc: Global,
    tree: &[PackageTexts],
    only: u16,
    cache: &Cache,
    kit: &mut K,
    table: &[Option<Node>],
    env: &[u32],
    pack: &PackageTexts,
    trees: Option<Trees>,
) -> Result<Node, Unloaded>
    requires loads { K.loads kit.old + 2 < 2 ^ 63 }
    requires runs { K.runs kit.old + 15 < 2 ^ 63 }
    requires holds { K.holds kit.old }
    requires apart { AllApart (givens tree.now table.now env.now) }
    ensures holds { K.holds kit.new }
    ensures loads_least { K.loads kit.old ≤ K.loads kit.new }
    ensures runs_least { K.runs kit.old ≤ K.runs kit.new }
    ensures made { IfOk result (λ n. IsMade (givens tree.now table.now env.now) cache.now (load_over tree.now table.now env.now pack.now) (analyzers_of only pack.now.stub) n) }
    ensures takes { IfOk result (λ n. Takes (givens tree.now table.now env.now) cache.now (load_over tree.now table.now env.now pack.now) (analyzers_of only pack.now.stub) n (tally (K.loads kit.old) (K.runs kit.old)) (tally (K.loads kit.new) (K.runs kit.new))) }
    ensures begun { OnErr result (IsBegun (givens tree.now table.now env.now) cache.now (load_over tree.now table.now env.now pack.now) (analyzers_of only pack.now.stub) (tally (K.loads kit.old) (K.runs kit.old)) (tally (K.loads kit.new) (K.runs kit.new))) }
    ensures circle { result ≡ Err Unloaded.Stuck → IsStuck (load_over tree.now table.now env.now pack.now) }
{
    let numbers = analyzers(alloc, only, pack.stub)?;
    let parts = parts_of(cache, tree, table, env, pack)?;
    let begun = begun_of(alloc, tree, cache, kit, table, env, pack, &parts, trees)?;
    let node = with_runs(
        alloc, tree, cache, kit, table, env, pack, &numbers, parts, begun,
    )?;
    Ok(node)
}

fn with_row(node: Node, reach: Row<u32>) -> Node
    ensures fresh { result.fresh ≡ node.fresh }
    ensures answer { result.answer ≡ node.answer }
    ensures reach { result.reach ≡ reach }
    ensures runs { result.runs ≡ node.runs }
{
    let Node {
        fresh,
        answer,
        runs,
        ..
    } = node;
    Node {
        fresh,
        answer,
        reach,
        runs,
    }
}

/// A package's nodes over its environment, and what is reached from it.
pub(crate) fn done_of<K: Kit>(
    alloc: Global,
    tree: &[PackageTexts],
    only: u16,
    cache: &Cache,
    kit: &mut K,
    table: &[Option<Node>],
    pack: &PackageTexts,
    trees: Option<Trees>,
) -> Result<Node, Unloaded>
    requires tree { IsTree tree.now }
    requires size { length table.now ≡ length tree.now }
    requires few { length table.now < 2 ^ 32 }
    requires loads { K.loads kit.old + 2 < 2 ^ 63 }
    requires runs { K.runs kit.old + 15 < 2 ^ 63 }
    requires holds { K.holds kit.old }
    ensures holds { K.holds kit.new }
    ensures loads_least { K.loads kit.old ≤ K.loads kit.new }
    ensures runs_least { K.runs kit.old ≤ K.runs kit.new }
    ensures made { IfOk result (λ n. IsMade (givens_from tree.now table.now pack.now) cache.now (load_from tree.now table.now pack.now) (analyzers_of only pack.now.stub) n) }
    ensures row { IfOk result (λ n. IsRowOf tree.now table.now (merged table.now pack.now.imports) (export_part n.answer) n.reach) }
    ensures takes { IfOk result (λ n. Takes (givens_from tree.now table.now pack.now) cache.now (load_from tree.now table.now pack.now) (analyzers_of only pack.now.stub) n (tally (K.loads kit.old) (K.runs kit.old)) (tally (K.loads kit.new) (K.runs kit.new))) }
    ensures begun { OnErr result (IsBegun (givens_from tree.now table.now pack.now) cache.now (load_from tree.now table.now pack.now) (analyzers_of only pack.now.stub) (tally (K.loads kit.old) (K.runs kit.old)) (tally (K.loads kit.new) (K.runs kit.new))) }
    ensures circle { result ≡ Err Unloaded.Stuck → IsStuck (load_from tree.now table.now pack.now) }
{
    let env = merged_row(alloc, table, pack.imports.as_slice())?;
    let node = made_of(
        alloc,
        tree,
        only,
        cache,
        kit,
        table,
        env.as_slice(),
        pack,
        trees,
    )?;
    let reach = row_of(alloc, tree, table, env.as_slice(), export_of(&node.answer))?;
    Ok(with_row(node, reach))
}
