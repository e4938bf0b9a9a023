//! The runs of a package.
ghost use Rattle.std.specs.Prelude.{◌≡◌, ◌+◌, ◌<◌, ◌≤◌, ◌^◌, ◌++◌, ◌∷◌, ℕ, true, None, [], Err, IfOk, OnOk, OnErr, drop, length, map, take};
ghost use Rattle.action_graph.specs.Analyzing.{AreGivenOnce, IsRunLawful, IsRunOutcome};
ghost use Rattle.action_graph.specs.Judging.{IsLawful, IsStuck};
ghost use Rattle.action_graph.specs.Outcomes.{run_text};
ghost use Rattle.action_graph.specs.Nodes.{load_texts, run_texts};
ghost use Rattle.gv_driver.specs.Analyzers.{AreAnalyzers};
ghost use Rattle.gv_driver.specs.Caches.{IsHonest, left_of, missing_of};
ghost use Rattle.gv_driver.specs.Given.{givens};
ghost use Rattle.gv_driver.specs.Loads.{run_input, run_key, run_keys, run_over};
ghost use Rattle.gv_driver.specs.Tables.{load_over};
ghost use Rattle.gv_driver.specs.Tallies.{tally};
ghost use Rattle.gv_driver.specs.Making.{AllApart, AreRuns, AreShortRuns, AreSought, HasAnswered, IsAccepting, IsFilled, IsFit, IsLoading, Spends, asked_if, asked_in, asked_of, digit, filled, spent_by, text_for, texts_after, tried_after, with_text};

use crate::facts::facts_for;
use crate::input::{key_of_run, load_of};
use crate::loading::load_once;
use crate::node::{Loading, Node, RunNode};
use crate::parts::{cached, run_parts, with_facts};
use crate::tree::PackageTexts;
use action_graph::{Kit, LoadInput, RunInput, RunOf, RunOutcome, Unloaded, write_outcome};
use fact_cache::{Cache, Parts};
use gv_base::{Bytes, NoMemory, Row};
use std::alloc::Global;

/// What the cache has of a run; a missing one has no outcome yet.
fn sought(
    alloc: Global,
    cache: &Cache,
    texts: &Parts<'_>,
    run: &RunInput,
) -> Result<RunNode, NoMemory>
    requires texts { texts.now ≡ run_texts run.now }
    ensures number { IfOk result (λ n. n.analyzer ≡ run.now.analyzer) }
    ensures fresh { IfOk result (λ n. n.fresh ≡ left_of cache.now (run_input run.now)) }
    ensures short { IfOk result (λ n. length n.outcome < 2 ^ 64) }
    ensures found { IsHonest cache.now → IsRunLawful run.now → IfOk result (λ n. n.fresh ≡ None → IsRunOutcome run.now n.outcome) }
{
    match cached(cache, run.analyzer, texts) {
        Some(text) => {
            let outcome = Bytes::of(alloc, text)?;
            Ok(RunNode {
                analyzer: run.analyzer,
                fresh: None,
                outcome,
            })
        }
        None => {
            let key = key_of_run(alloc, run)?;
            Ok(RunNode {
                analyzer: run.analyzer,
                fresh: Some(key),
                outcome: Bytes::new(Vec::new(alloc)),
            })
        }
    }
}

/// Sets what a run reads beside the load.
fn set_run(
    alloc: Global,
    tree: &[PackageTexts],
    table: &[Option<Node>],
    env: &[u32],
    run: &mut RunInput,
    number: u8,
) -> Result<(), NoMemory>
    ensures load { run.new.load ≡ run.old.load }
    ensures is { OnOk result (run.new ≡ run_over (givens tree.now table.now env.now) number run.old.load) }
{
    let facts = facts_for(alloc, tree, table, number, env)?;
    run.analyzer = number;
    run.facts = Row::new(facts);
    Ok(())
}

/// The same, by the texts of the load, which other runs have in common with this one.
fn looked_up<'a>(
    alloc: Global,
    cache: &Cache,
    parts: &Parts<'a>,
    run: &'a RunInput,
) -> Result<RunNode, NoMemory>
    requires parts { parts.now ≡ load_texts run.now.load ++ [] ∷ [] }
    ensures number { IfOk result (λ n. n.analyzer ≡ run.now.analyzer) }
    ensures fresh { IfOk result (λ n. n.fresh ≡ left_of cache.now (run_input run.now)) }
    ensures short { IfOk result (λ n. length n.outcome < 2 ^ 64) }
    ensures found { IsHonest cache.now → IsRunLawful run.now → IfOk result (λ n. n.fresh ≡ None → IsRunOutcome run.now n.outcome) }
{
    let texts = with_facts(alloc, parts, run.facts.as_slice())?;
    let node = sought(alloc, cache, &texts, run)?;
    Ok(node)
}

/// The same, where what is run over and the texts are lent for times of their own.
fn looked_over(
    alloc: Global,
    cache: &Cache,
    parts: &Parts<'_>,
    run: &RunInput,
) -> Result<RunNode, NoMemory>
    requires parts { parts.now ≡ load_texts run.now.load ++ [] ∷ [] }
    ensures number { IfOk result (λ n. n.analyzer ≡ run.now.analyzer) }
    ensures fresh { IfOk result (λ n. n.fresh ≡ left_of cache.now (run_input run.now)) }
    ensures short { IfOk result (λ n. length n.outcome < 2 ^ 64) }
    ensures found { IsHonest cache.now → IsRunLawful run.now → IfOk result (λ n. n.fresh ≡ None → IsRunOutcome run.now n.outcome) }
{
    let node = looked_up(alloc, cache, parts, run)?;
    Ok(node)
}

/// What the cache has of the run of an analyzer over an accepted package, with the facts of the package's environment.
fn seek(
    alloc: Global,
    tree: &[PackageTexts],
    cache: &Cache,
    table: &[Option<Node>],
    env: &[u32],
    number: u8,
    parts: &Parts<'_>,
    run: &mut RunInput,
) -> Result<RunNode, NoMemory>
    requires parts { parts.now ≡ load_texts run.old.load ++ [] ∷ [] }
    ensures load { run.new.load ≡ run.old.load }
    ensures number { IfOk result (λ n. n.analyzer ≡ number) }
    ensures fresh { IfOk result (λ n. n.fresh ≡ left_of cache.now (run_key (givens tree.now table.now env.now) run.old.load number)) }
    ensures short { IfOk result (λ n. length n.outcome < 2 ^ 64) }
    ensures found { IsHonest cache.now → IsRunLawful (run_over (givens tree.now table.now env.now) number run.old.load) → IfOk result (λ n. n.fresh ≡ None → IsRunOutcome (run_over (givens tree.now table.now env.now) number run.old.load) n.outcome) }
{
    set_run(alloc, tree, table, env, run, number)?;
    let node = looked_over(alloc, cache, parts, run)?;
    Ok(node)
}

fn add_asked(asked: &mut Vec<RunOf>, run: RunOf) -> Result<(), NoMemory>
    ensures { OnOk result (asked.new.items ≡ asked.old.items ++ run ∷ []) }
{
    asked.push(run)?;
    Ok(())
}

/// Asks for a run that is missing.
fn ask(
    alloc: Global,
    tree: &[PackageTexts],
    table: &[Option<Node>],
    env: &[u32],
    node: &RunNode,
    asked: &mut Vec<RunOf>,
) -> Result<(), NoMemory>
    ensures { OnOk result (asked.new.items ≡ asked.old.items ++ asked_if node.now.fresh (asked_of (givens tree.now table.now env.now) node.now.analyzer)) }
{
    match &node.fresh {
        None => Ok(()),
        Some(_) => {
            let facts = facts_for(alloc, tree, table, node.analyzer, env)?;
            add_asked(
                asked,
                RunOf {
                    analyzer: node.analyzer,
                    facts: Row::new(facts),
                },
            )?;
            Ok(())
        }
    }
}

fn add_run(nodes: &mut Vec<RunNode>, node: RunNode) -> Result<(), NoMemory>
    ensures { OnOk result (nodes.new.items ≡ nodes.old.items ++ node ∷ []) }
{
    nodes.push(node)?;
    Ok(())
}

/// Looks up the runs of these analyzers over an accepted package, in turn, and asks for the missing ones.
fn seek_all(
    alloc: Global,
    tree: &[PackageTexts],
    cache: &Cache,
    table: &[Option<Node>],
    env: &[u32],
    numbers: &[u8],
    parts: &Parts<'_>,
    run: &mut RunInput,
    asked: &mut Vec<RunOf>,
) -> Result<Vec<RunNode>, NoMemory>
    requires numbers { AreAnalyzers numbers.now }
    requires parts { parts.now ≡ load_texts run.old.load ++ [] ∷ [] }
    requires none { asked.old.items ≡ [] }
    ensures load { run.new.load ≡ run.old.load }
    ensures sought { IfOk result (λ v. AreSought (givens tree.now table.now env.now) cache.now run.old.load numbers.now v.items) }
    ensures asked { IfOk result (λ v. asked.new.items ≡ asked_in (givens tree.now table.now env.now) v.items) }
{
    let mut nodes = Vec::new(alloc);
    for number in numbers {
        let node = seek(alloc, tree, cache, table, env, *number, parts, run)?;
        ask(alloc, tree, table, env, &node, asked)?;
        add_run(&mut nodes, node)?;
    }
    Ok(nodes)
}

/// Runs analyzers over a package, which is loaded before, if it wasn't. Where the load isn't accepted there is nothing to run over, and no
/// outcome: a cache that isn't honest may call such a package accepted.
fn outcomes_of<K: Kit>(
    alloc: Global,
    kit: &mut K,
    load: &LoadInput,
    asked: &[RunOf],
    loading: &mut Loading<K::Loaded>,
) -> Result<Vec<RunOutcome>, Unloaded>
    requires loads { K.loads kit.old < 2 ^ 63 }
    requires runs { K.runs kit.old + length asked.now < 2 ^ 63 }
    requires holds { K.holds kit.old }
    requires loading { IsLoading K.is_of K.keeps load.now loading.old }
    requires apart { AreGivenOnce asked.now }
    ensures holds { K.holds kit.new }
    ensures loading { IsLoading K.is_of K.keeps load.now loading.new }
    ensures loads { K.loads kit.new + digit loading.old.tried ≡ K.loads kit.old + digit loading.new.tried }
    ensures tried { OnOk result (loading.new.tried ≡ true) }
    ensures loads_least { K.loads kit.old ≤ K.loads kit.new }
    ensures least { K.runs kit.old ≤ K.runs kit.new }
    ensures runs { K.runs kit.new ≤ K.runs kit.old + length asked.now }
    ensures right { IsLawful load.now → IsAccepting load.now → IfOk result (λ outcomes. HasAnswered load.now asked.now outcomes.items) }
    ensures exact { IsLawful load.now → IsAccepting load.now → OnOk result (K.runs kit.new ≡ K.runs kit.old + length asked.now) }
    ensures circle { result ≡ Err Unloaded.Stuck → IsStuck load.now }
{
    load_once(kit, load, loading)?;
    match &loading.loaded {
        Some(loaded) => {
            let outcomes = kit.analyze(loaded, load, asked)?;
            Ok(outcomes)
        }
        None => Ok(Vec::new(alloc)),
    }
}

/// Gives a missing run the outcome at this place, if there is one, and answers the next place.
#[tactic(auto, using(crate::proofs::SoughtLaws::gives_none, crate::proofs::SoughtLaws::gives_some))]
fn give(
    alloc: Global,
    node: &mut RunNode,
    outcomes: &[RunOutcome],
    next: usize,
) -> Result<usize, NoMemory>
    ensures node { OnOk result (node.new ≡ with_text node.old (text_for node.old.fresh (drop next (map run_text outcomes.now)) node.old.outcome)) }
    ensures next { IfOk result (λ n. drop n (map run_text outcomes.now) ≡ texts_after node.old.fresh (drop next (map run_text outcomes.now))) }
    ensures short { length node.old.outcome < 2 ^ 64 → OnOk result (length node.new.outcome < 2 ^ 64) }
{
    if node.fresh.is_none() {
        return Ok(next);
    }
    match outcomes.get(next) {
        None => Ok(next),
        Some(outcome) => {
            let text = write_outcome(alloc, outcome)?;
            node.outcome = Bytes::new(text);
            Ok(next + 1)
        }
    }
}

/// Gives the missing runs these outcomes, in turn.
fn fill(alloc: Global, nodes: &mut Vec<RunNode>, outcomes: &[RunOutcome]) -> Result<(), NoMemory>
    ensures filled { OnOk result (nodes.new.items ≡ filled nodes.old.items (map run_text outcomes.now)) }
    ensures short { AreShortRuns nodes.old.items → OnOk result (AreShortRuns nodes.new.items) }
{
    let mut next = 0;
    for p in 0..nodes.len() {
        next = give(alloc, &mut nodes[p], outcomes, next)?;
    }
    Ok(())
}

/// Executes the runs that are asked for, if there are any, and gives the missing ones their outcomes.
#[tactic(auto, using(crate::proofs::SoughtLaws::nothing_asked, crate::proofs::SoughtLaws::tried_none, crate::proofs::SoughtLaws::tried_some, crate::proofs::SoughtLaws::begun_some))]
fn answered<K: Kit>(
    alloc: Global,
    kit: &mut K,
    load: &LoadInput,
    asked: &[RunOf],
    nodes: &mut Vec<RunNode>,
    loading: &mut Loading<K::Loaded>,
) -> Result<(), Unloaded>
    requires loads { K.loads kit.old < 2 ^ 63 }
    requires runs { K.runs kit.old + length asked.now < 2 ^ 63 }
    requires holds { K.holds kit.old }
    requires loading { IsLoading K.is_of K.keeps load.now loading.old }
    requires apart { AreGivenOnce asked.now }
    ensures holds { K.holds kit.new }
    ensures loading { IsLoading K.is_of K.keeps load.now loading.new }
    ensures loads { K.loads kit.new + digit loading.old.tried ≡ K.loads kit.old + digit loading.new.tried }
    ensures tried { OnOk result (loading.new.tried ≡ tried_after loading.old.tried asked.now) }
    ensures begun { digit loading.new.tried ≤ digit (tried_after loading.old.tried asked.now) }
    ensures loads_least { K.loads kit.old ≤ K.loads kit.new }
    ensures least { K.runs kit.old ≤ K.runs kit.new }
    ensures runs { K.runs kit.new ≤ K.runs kit.old + length asked.now }
    ensures filled { OnOk result (IsFilled load.now asked.now nodes.old.items nodes.new.items) }
    ensures short { AreShortRuns nodes.old.items → OnOk result (AreShortRuns nodes.new.items) }
    ensures exact { IsLawful load.now → IsAccepting load.now → OnOk result (K.runs kit.new ≡ K.runs kit.old + length asked.now) }
    ensures circle { result ≡ Err Unloaded.Stuck → IsStuck load.now }
{
    if asked.is_empty() {
        return Ok(());
    }
    let outcomes = outcomes_of(alloc, kit, load, asked, loading)?;
    fill(alloc, nodes, &outcomes)?;
    Ok(())
}

/// What a run over a package with this load reads, but for its analyzer and its facts.
fn run_input_of(
    alloc: Global,
    tree: &[PackageTexts],
    table: &[Option<Node>],
    env: &[u32],
    pack: &PackageTexts,
) -> Result<RunInput, NoMemory>
    ensures { IfOk result (λ run. run.load ≡ load_over tree.now table.now env.now pack.now) }
{
    let load = load_of(alloc, tree, table, env, pack)?;
    Ok(RunInput {
        analyzer: 0,
        load,
        facts: Row::new(Vec::new(alloc)),
    })
}

/// The runs of these analyzers over an accepted package, in turn, by the texts of what its load reads; where there is none nothing is made for it.
pub(crate) fn runs_for<K: Kit>(
    alloc: Global,
    tree: &[PackageTexts],
    cache: &Cache,
    kit: &mut K,
    table: &[Option<Node>],
    env: &[u32],
    pack: &PackageTexts,
    numbers: &[u8],
    texts: Parts<'_>,
    loading: &mut Loading<K::Loaded>,
) -> Result<Vec<RunNode>, Unloaded>
    requires loads { K.loads kit.old + 1 < 2 ^ 63 }
    requires runs { K.runs kit.old + length numbers.now < 2 ^ 63 }
    requires holds { K.holds kit.old }
    requires numbers { AreAnalyzers numbers.now }
    requires texts { texts ≡ load_texts (load_over tree.now table.now env.now pack.now) }
    requires loading { IsLoading K.is_of K.keeps (load_over tree.now table.now env.now pack.now) loading.old }
    requires apart { AllApart (givens tree.now table.now env.now) }
    ensures holds { K.holds kit.new }
    ensures loading { IsLoading K.is_of K.keeps (load_over tree.now table.now env.now pack.now) loading.new }
    ensures loads_least { K.loads kit.old ≤ K.loads kit.new }
    ensures least { K.runs kit.old ≤ K.runs kit.new }
    ensures made { IfOk result (λ v. AreRuns (givens tree.now table.now env.now) cache.now (load_over tree.now table.now env.now pack.now) numbers.now v.items) }
    ensures tried { OnOk result (loading.new.tried ≡ spent_by cache.now loading.old.tried (run_keys (givens tree.now table.now env.now) (load_over tree.now table.now env.now pack.now) numbers.now)) }
    ensures bound { OnOk result (K.runs kit.new ≤ K.runs kit.old + length (missing_of cache.now (run_keys (givens tree.now table.now env.now) (load_over tree.now table.now env.now pack.now) numbers.now))) }
    ensures exact { IsFit (givens tree.now table.now env.now) cache.now (load_over tree.now table.now env.now pack.now) → OnOk result (K.runs kit.new ≡ K.runs kit.old + length (missing_of cache.now (run_keys (givens tree.now table.now env.now) (load_over tree.now table.now env.now pack.now) numbers.now))) }
    ensures spends { (done : ℕ) × Spends cache.now (run_keys (givens tree.now table.now env.now) (load_over tree.now table.now env.now pack.now) (take done numbers.now)) loading.old.tried loading.new.tried (tally (K.loads kit.old) (K.runs kit.old)) (tally (K.loads kit.new) (K.runs kit.new)) }
    ensures circle { result ≡ Err Unloaded.Stuck → IsStuck (load_over tree.now table.now env.now pack.now) }
{
    if numbers.is_empty() {
        return Ok(Vec::new(alloc));
    }
    let mut run = run_input_of(alloc, tree, table, env, pack)?;
    let parts = run_parts(texts)?;
    let mut asked = Vec::new(alloc);
    let mut nodes = seek_all(
        alloc, tree, cache, table, env, numbers, &parts, &mut run, &mut asked,
    )?;
    answered(alloc, kit, &run.load, &asked, &mut nodes, loading)?;
    Ok(nodes)
}
