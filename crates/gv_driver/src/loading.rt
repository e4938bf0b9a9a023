//! The load of a package, executed at most once.
ghost use Rattle.std.specs.Prelude.{◌≡◌, ◌≤◌, ◌+◌, ◌<◌, ◌^◌, ℕ, true, false, Some, None, Err, IfOk, OnOk, OnErr};
ghost use Rattle.action_graph.specs.Judging.{IsLawful, IsOutcome, IsStuck, load_text};
ghost use Rattle.action_graph.specs.Nodes.{load_texts};
ghost use Rattle.gv_driver.specs.Caches.{IsHonest};
ghost use Rattle.gv_driver.specs.Loads.{load_input};
ghost use Rattle.gv_driver.specs.Making.{IsLoading, IsOpened, digit};
ghost use Rattle.gv_driver.specs.Opening.{loaded_in};
ghost use Rattle.gv_driver.specs.Tables.{answer_text, load_over};

use crate::answer::read_answer;
use crate::input::{key_of, load_of};
use crate::node::{Answer, Begun, Loading, Node};
use crate::parts::cached;
use crate::tree::PackageTexts;
use action_graph::{Kit, Load, LoadInput, Trees, Unloaded};
use fact_cache::{Cache, Input, Parts};
use std::alloc::Global;

/// What a kit gave for a load that reads this.
fn opened<L: Drop>(cache: &Cache, key: Input, load: Load<L>) -> Begun<L>
    ensures fresh { result.fresh ≡ Some key }
    ensures answer { answer_text result.answer ≡ load_text load }
    ensures loaded { result.loading.loaded ≡ loaded_in load }
    ensures tried { result.loading.tried ≡ true }
{
    match load {
        Load::Accepted { loaded, export } => Begun {
            fresh: Some(key),
            answer: Answer::Accepted(cache.keyed(export)),
            loading: Loading {
                loaded: Some(loaded),
                tried: true,
                trees: None,
            },
        },
        Load::Refused { marks } => Begun {
            fresh: Some(key),
            answer: Answer::Refused(marks),
            loading: Loading {
                loaded: None,
                tried: true,
                trees: None,
            },
        },
    }
}

/// What a cache had of a load.
fn found<L>(answer: Answer, trees: Option<Trees>) -> Begun<L>
    ensures fresh { result.fresh ≡ None }
    ensures answer { result.answer ≡ answer }
    ensures loaded { result.loading.loaded ≡ None }
    ensures tried { result.loading.tried ≡ false }
{
    Begun {
        fresh: None,
        answer,
        loading: Loading {
            loaded: None,
            tried: false,
            trees,
        },
    }
}

/// Executes a package's load.
fn executed<K: Kit>(
    alloc: Global,
    tree: &[PackageTexts],
    cache: &Cache,
    kit: &mut K,
    table: &[Option<Node>],
    env: &[u32],
    pack: &PackageTexts,
    trees: Option<Trees>,
) -> Result<Begun<K::Loaded>, Unloaded>
    requires loads { K.loads kit.old < 2 ^ 63 }
    requires holds { K.holds kit.old }
    ensures holds { K.holds kit.new }
    ensures fresh { IfOk result (λ b. b.fresh ≡ Some (load_input (load_over tree.now table.now env.now pack.now))) }
    ensures tried { IfOk result (λ b. b.loading.tried ≡ true) }
    ensures right { IsLawful (load_over tree.now table.now env.now pack.now) → IfOk result (λ b. IsOutcome (load_over tree.now table.now env.now pack.now) (answer_text b.answer)) }
    ensures loading { IfOk result (λ b. IsLoading K.is_of K.keeps (load_over tree.now table.now env.now pack.now) b.loading) }
    ensures counts { OnOk result (K.loads kit.new ≡ K.loads kit.old + 1) }
    ensures refused { OnErr result (K.loads kit.new ≡ K.loads kit.old) }
    ensures runs { K.runs kit.new ≡ K.runs kit.old }
    ensures circle { result ≡ Err Unloaded.Stuck → IsStuck (load_over tree.now table.now env.now pack.now) }
{
    let key = key_of(alloc, tree, table, env, pack)?;
    let input = load_of(alloc, tree, table, env, pack)?;
    let load = kit.load(&input, trees)?;
    Ok(opened(cache, key, load))
}

/// What the cache has of a package's load, by the texts that it reads, or else what the kit gives.
pub(crate) fn begun_of<K: Kit>(
    alloc: Global,
    tree: &[PackageTexts],
    cache: &Cache,
    kit: &mut K,
    table: &[Option<Node>],
    env: &[u32],
    pack: &PackageTexts,
    parts: &Parts<'_>,
    trees: Option<Trees>,
) -> Result<Begun<K::Loaded>, Unloaded>
    requires loads { K.loads kit.old < 2 ^ 63 }
    requires holds { K.holds kit.old }
    requires parts { parts.now ≡ load_texts (load_over tree.now table.now env.now pack.now) }
    ensures holds { K.holds kit.new }
    ensures opened { IfOk result (λ b. IsOpened K.is_of K.keeps cache.now (load_over tree.now table.now env.now pack.now) b) }
    ensures counts { IfOk result (λ b. K.loads kit.new ≡ K.loads kit.old + digit b.loading.tried) }
    ensures refused { OnErr result (K.loads kit.new ≡ K.loads kit.old) }
    ensures loads_least { K.loads kit.old ≤ K.loads kit.new }
    ensures runs { K.runs kit.new ≡ K.runs kit.old }
    ensures circle { result ≡ Err Unloaded.Stuck → IsStuck (load_over tree.now table.now env.now pack.now) }
{
    match cached(cache, 0, parts) {
        Some(outcome) => {
            let answer = read_answer(alloc, cache, outcome)?;
            Ok(found(answer, trees))
        }
        None => {
            let begun = executed(alloc, tree, cache, kit, table, env, pack, trees)?;
            Ok(begun)
        }
    }
}

/// What is known of a load that was executed.
fn loading_of<L: Drop>(load: Load<L>) -> Loading<L>
    ensures tried { result.tried ≡ true }
    ensures loaded { result.loaded ≡ loaded_in load }
{
    match load {
        Load::Accepted { loaded, export } => {
            let _unused = export;
            Loading {
                loaded: Some(loaded),
                tried: true,
                trees: None,
            }
        }
        Load::Refused { marks } => {
            let _unused = marks;
            Loading {
                loaded: None,
                tried: true,
                trees: None,
            }
        }
    }
}

/// Executes a load, if it wasn't.
pub(crate) fn load_once<K: Kit>(
    kit: &mut K,
    input: &LoadInput,
    loading: &mut Loading<K::Loaded>,
) -> Result<(), Unloaded>
    requires room { K.loads kit.old < 2 ^ 63 }
    requires holds { K.holds kit.old }
    requires loading { IsLoading K.is_of K.keeps input.now loading.old }
    ensures holds { K.holds kit.new }
    ensures loading { IsLoading K.is_of K.keeps input.now loading.new }
    ensures loads { K.loads kit.new + digit loading.old.tried ≡ K.loads kit.old + digit loading.new.tried }
    ensures tried { OnOk result (loading.new.tried ≡ true) }
    ensures same { OnErr result (loading.new.tried ≡ loading.old.tried) }
    ensures loads_least { K.loads kit.old ≤ K.loads kit.new }
    ensures runs { K.runs kit.new ≡ K.runs kit.old }
    ensures circle { result ≡ Err Unloaded.Stuck → IsStuck input.now }
{
    if loading.tried {
        return Ok(());
    }
    let load = kit.load(input, loading.trees.take())?;
    *loading = loading_of(load);
    Ok(())
}

/// Gives back to the kit what it loaded.
pub(crate) fn release<K: Kit>(kit: &mut K, loading: Loading<K::Loaded>)
    requires holds { K.holds kit.old }
    requires keeps { (l : K.Loaded) → loading.loaded ≡ Some l → K.keeps l }
    ensures holds { K.holds kit.new }
    ensures loads { K.loads kit.new ≡ K.loads kit.old }
    ensures runs { K.runs kit.new ≡ K.runs kit.old }
{
    let Loading { loaded, .. } = loading;
    match loaded {
        None => {}
        Some(loaded) => kit.release(loaded),
    }
}
