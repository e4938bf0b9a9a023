//! A wave: the nodes of all packages that are ready, made by the kits side by side and then put in order.
ghost use Rattle.std.specs.Prelude.{◌≡◌, ◌≤◌, ◌+◌, ◌*◌, ◌<◌, ◌^◌, ℕ, true, false, Some, Err, IfOk, OnOk, OnErr, length, map, slice_get, sum_by};
ghost use Rattle.wave_run.specs.Waves.{AllCan, AreServed};
ghost use Rattle.gv_driver.specs.Tables.{AreRows, IsReady, IsTable, waiting};
ghost use Rattle.gv_driver.specs.Tallies.{AreGrown, counts_of, tally};
ghost use Rattle.gv_driver.specs.Runs.{Goes, MeetsCircle, Stops};
ghost use Rattle.gv_driver.specs.Trees.{IsTree};
ghost use Rattle.gv_driver.specs.Waves.{AllDone, AllWithin, AreJobs, AreMade, CanDo, Comes, IsCameOf, IsSpentAt, IsWithin, MayMake, is_done, put_all, put_one};

use crate::jobs::{Job, count_of, importers_of, next_jobs, ready_jobs};
use crate::node::Node;
use crate::step::perform;
use crate::tree::PackageTexts;
use action_graph::{Kit, PackageTrees, Unloaded};
use fact_cache::Cache;
use gv_base::NoMemory;
use std::alloc::Global;
use std::thread::Threads;
use wave_run::{Step, Ticket, all_done};

/// What came of a package in a wave.
#[derive(Drop)]
pub enum Came {
    /// Its nodes.
    Done { at: u32, node: Node },
    /// Nothing: its rules go in a circle, or what is seen of it can't be told.
    Stuck,
}

/// What all workers of a wave share.
#[derive(Drop)]
struct Making<'a> {
    alloc: Global,
    tree: &'a [PackageTexts],
    trees: &'a PackageTrees,
    only: u16,
    cache: &'a Cache,
    table: &'a [Option<Node>],
}

fn as_told(made: Result<Node, Unloaded>, at: u32) -> Result<Came, NoMemory>
    ensures { Comes made at result }
{
    match made {
        Ok(node) => Ok(Came::Done { at, node }),
        Err(Unloaded::NoMemory) => Err(NoMemory),
        Err(Unloaded::Stuck) => Ok(Came::Stuck),
    }
}

impl<'a, K: Kit> Step<K, Job, Came> for Making<'a> {
    ghost lawful = { λ s number job. (job.place ≡ number) × MayMake s.tree.now s.only s.cache.now s.table.now job.at };

    ghost spent = { λ s job costs. IsSpentAt s.tree.now s.only s.cache.now job.at costs };

    ghost right = { λ s job costs came. IsCameOf s.tree.now s.only s.cache.now s.table.now job.at costs came };

    ghost can = { λ jobs kit. CanDo K.holds K.loads K.runs jobs kit };

    ghost count = { counts_of K.loads K.runs };

    ghost rest = { λ kit. 0 };

    fn step(&self, worker: &mut K, ticket: Ticket, job: &Job) -> Result<Came, NoMemory> {
        let _spent = ticket;
        let made = perform(
            self.alloc,
            self.tree,
            self.only,
            self.cache,
            worker,
            self.table,
            job.at as usize,
            self.trees.take(job.at as usize),
        );
        as_told(made, job.at)
    }
}

/// Puts the nodes of a package into the table.
fn put(table: &mut Vec<Option<Node>>, one: Came) -> Result<(), Unloaded>
    requires { IsWithin (length table.old.items) one }
    ensures put { OnOk result (table.new.items ≡ put_one table.old.items one) }
    ensures done { OnOk result (is_done one ≡ true) }
    ensures stuck { OnErr result ((is_done one ≡ false) × (result ≡ Err Unloaded.Stuck)) }
{
    match one {
        Came::Done { at, node } => {
            table[at as usize] = Some(node);
            Ok(())
        }
        Came::Stuck => Err(Unloaded::Stuck),
    }
}

/// Puts the nodes of the packages of a wave into the table, in their order. Where one is stuck, this is the end.
fn put_each(table: &mut Vec<Option<Node>>, made: Vec<Came>) -> Result<(), Unloaded>
    requires { AllWithin (length table.old.items) made.items }
    ensures put { OnOk result ((table.new.items ≡ put_all table.old.items made.items) × AllDone made.items) }
    ensures stuck { OnErr result ((AllDone made.items → ⊥) × (result ≡ Err Unloaded.Stuck)) }
{
    for one in made {
        put(table, one)?;
    }
    Ok(())
}

/// What comes of the packages of a wave.
fn made_all<K: Kit + Send, R: Threads + Sync>(
    rt: &R,
    alloc: Global,
    tree: &[PackageTexts],
    trees: &PackageTrees,
    only: u16,
    cache: &Cache,
    kits: &mut [K],
    table: &[Option<Node>],
    jobs: &Vec<Job>,
) -> Result<Vec<Came>, NoMemory>
where
    K::Loaded: Send,
    requires tree { IsTree tree.now }
    requires few { length tree.now < 2 ^ 32 }
    requires some { 0 < length kits.old }
    requires can { AllCan (CanDo K.holds K.loads K.runs) (length jobs.now.items + 1) kits.old }
    requires table { IsTable tree.now only cache.now table.now }
    requires rows { AreRows tree.now cache.now table.now }
    requires jobs { AreJobs tree.now table.now (length tree.now) jobs.now.items }
    ensures made { AreMade tree.now only cache.now table.now jobs.now.items (tally (sum_by K.loads kits.old) (sum_by K.runs kits.old)) (tally (sum_by K.loads kits.new) (sum_by K.runs kits.new)) result }
    ensures can { AreServed (CanDo K.holds K.loads K.runs) (counts_of K.loads K.runs) (length jobs.now.items + 1) kits.old kits.new }
{
    let making = Making {
        alloc,
        tree,
        trees,
        only,
        cache,
        table,
    };
    let made = all_done(rt, alloc, &making, kits, jobs)?;
    Ok(made)
}

/// One wave: the nodes of these packages are made by the kits, and put into the table.
fn wave<K: Kit + Send, R: Threads + Sync>(
    rt: &R,
    alloc: Global,
    tree: &[PackageTexts],
    trees: &PackageTrees,
    only: u16,
    cache: &Cache,
    kits: &mut [K],
    table: &mut Vec<Option<Node>>,
    jobs: &Vec<Job>,
) -> Result<(), Unloaded>
where
    K::Loaded: Send,
    requires tree { IsTree tree.now }
    requires few { length tree.now < 2 ^ 32 }
    requires some { 0 < length kits.old }
    requires can { AllCan (CanDo K.holds K.loads K.runs) (length jobs.now.items + 1) kits.old }
    requires table { IsTable tree.now only cache.now table.old.items }
    requires rows { AreRows tree.now cache.now table.old.items }
    requires jobs { AreJobs tree.now table.old.items (length tree.now) jobs.now.items }
    ensures can { AreServed (CanDo K.holds K.loads K.runs) (counts_of K.loads K.runs) (length jobs.now.items + 1) kits.old kits.new }
    ensures goes { OnOk result (Goes tree.now only cache.now table.old.items table.new.items (tally (sum_by K.loads kits.old) (sum_by K.runs kits.old)) (tally (sum_by K.loads kits.new) (sum_by K.runs kits.new))) }
    ensures put { OnOk result (waiting table.new.items + length jobs.now.items ≡ waiting table.old.items) }
    ensures rows { OnOk result (AreRows tree.now cache.now table.new.items) }
    ensures stops { OnErr result (Stops tree.now only cache.now table.old.items (tally (sum_by K.loads kits.old) (sum_by K.runs kits.old)) (tally (sum_by K.loads kits.new) (sum_by K.runs kits.new))) }
    ensures circle { result ≡ Err Unloaded.Stuck → MeetsCircle tree.now cache.now }
{
    let made = made_all(rt, alloc, tree, trees, only, cache, kits, table, jobs)?;
    put_each(table, made)?;
    Ok(())
}

/// Waves, until no package is ready.
fn waves<K: Kit + Send, R: Threads + Sync>(
    rt: &R,
    alloc: Global,
    tree: &[PackageTexts],
    trees: &PackageTrees,
    only: u16,
    cache: &Cache,
    kits: &mut [K],
    table: &mut Vec<Option<Node>>,
) -> Result<(), Unloaded>
where
    K::Loaded: Send,
    requires tree { IsTree tree.now }
    requires few { length tree.now < 2 ^ 32 }
    requires some { 0 < length kits.old }
    requires can { AllCan (CanDo K.holds K.loads K.runs) (2 * waiting table.old.items) kits.old }
    requires table { IsTable tree.now only cache.now table.old.items }
    requires rows { AreRows tree.now cache.now table.old.items }
    ensures goes { OnOk result (Goes tree.now only cache.now table.old.items table.new.items (tally (sum_by K.loads kits.old) (sum_by K.runs kits.old)) (tally (sum_by K.loads kits.new) (sum_by K.runs kits.new))) }
    ensures stops { OnErr result (Stops tree.now only cache.now table.old.items (tally (sum_by K.loads kits.old) (sum_by K.runs kits.old)) (tally (sum_by K.loads kits.new) (sum_by K.runs kits.new))) }
    ensures least { AreGrown K.loads K.runs kits.old kits.new }
    ensures done { OnOk result ((p : ℕ) → IsReady tree.now table.new.items p → ⊥) }
    ensures circle { result ≡ Err Unloaded.Stuck → MeetsCircle tree.now cache.now }
{
    let importers = importers_of(alloc, tree)?;
    let mut jobs = ready_jobs(alloc, tree, table)?;
    while count_of(&jobs) > 0 {
        wave(rt, alloc, tree, trees, only, cache, kits, table, &jobs)?;
        jobs = next_jobs(alloc, tree, table, &importers, &jobs)?;
    }
    Ok(())
}

/// What the kits keep from load to load is forgotten.
fn clear_all<K: Kit>(kits: &mut [K])
    ensures holds { (k : ℕ) (kit : K) → slice_get kits.new k ≡ Some kit → K.holds kit }
    ensures loads { map K.loads kits.new ≡ map K.loads kits.old }
    ensures runs { map K.runs kits.new ≡ map K.runs kits.old }
{
    for k in 0..kits.len() {
        kits[k].clear();
    }
}

/// Puts all nodes that a tree has into the table, wave by wave: each wave has all packages that are ready, since all that they import is
/// accepted. What a kit keeps from load to load it keeps during one run.
pub(crate) fn run_all<K: Kit + Send, R: Threads + Sync>(
    rt: &R,
    alloc: Global,
    tree: &[PackageTexts],
    trees: &PackageTrees,
    only: u16,
    cache: &Cache,
    kits: &mut [K],
    table: &mut Vec<Option<Node>>,
) -> Result<(), Unloaded>
where
    K::Loaded: Send,
    requires tree { IsTree tree.now }
    requires few { length tree.now < 2 ^ 28 }
    requires some { 0 < length kits.old }
    requires loads { (k : ℕ) (kit : K) → slice_get kits.old k ≡ Some kit → K.loads kit ≤ 2 ^ 62 }
    requires runs { (k : ℕ) (kit : K) → slice_get kits.old k ≡ Some kit → K.runs kit ≤ 2 ^ 62 }
    requires waits { waiting table.old.items ≡ length tree.now }
    requires table { IsTable tree.now only cache.now table.old.items }
    requires rows { AreRows tree.now cache.now table.old.items }
    ensures goes { OnOk result (Goes tree.now only cache.now table.old.items table.new.items (tally (sum_by K.loads kits.old) (sum_by K.runs kits.old)) (tally (sum_by K.loads kits.new) (sum_by K.runs kits.new))) }
    ensures stops { OnErr result (Stops tree.now only cache.now table.old.items (tally (sum_by K.loads kits.old) (sum_by K.runs kits.old)) (tally (sum_by K.loads kits.new) (sum_by K.runs kits.new))) }
    ensures least { AreGrown K.loads K.runs kits.old kits.new }
    ensures done { OnOk result ((p : ℕ) → IsReady tree.now table.new.items p → ⊥) }
    ensures circle { result ≡ Err Unloaded.Stuck → MeetsCircle tree.now cache.now }
{
    clear_all(kits);
    waves(rt, alloc, tree, trees, only, cache, kits, table)?;
    Ok(())
}
