//! The packages of a wave: some that are ready, if any is.
ghost use Rattle.std.specs.Prelude.{◌≡◌, ◌+◌, ◌<◌, ◌^◌, ◌++◌, ◌∷◌, [], ℕ, IfOk, OnOk, length};
ghost use Rattle.gv_driver.specs.Waves.{AreChosen, AreJobs, job_of};

use crate::node::Node;
use crate::ready::is_ready;
use crate::tree::PackageTexts;
use gv_base::NoMemory;
use std::alloc::Global;

/// A ready package, and its place in its wave.
#[derive(Drop)]
pub struct Job {
    pub place: u32,
    pub at: u32,
}

/// Adds a package to a wave.
fn push_job(jobs: &mut Vec<Job>, at: usize) -> Result<(), NoMemory>
    requires at { at < 2 ^ 32 }
    requires few { length jobs.old.items < 2 ^ 32 }
    ensures { OnOk result (jobs.new.items ≡ jobs.old.items ++ job_of (length jobs.old.items) at ∷ []) }
{
    let place = jobs.as_slice().len() as u32;
    jobs.push(Job {
        place,
        at: at as u32,
    })?;
    Ok(())
}

/// Adds a package to a wave, where it is ready.
fn add_ready(
    jobs: &mut Vec<Job>,
    tree: &[PackageTexts],
    table: &[Option<Node>],
    at: usize,
) -> Result<(), NoMemory>
    requires at { at < length tree.now }
    requires few { length tree.now < 2 ^ 32 }
    requires size { length table.now ≡ length tree.now }
    requires jobs { AreJobs tree.now table.now at jobs.old.items }
    ensures { OnOk result (AreJobs tree.now table.now (at + 1) jobs.new.items) }
{
    if !is_ready(tree, table, at) {
        return Ok(());
    }
    push_job(jobs, at)?;
    Ok(())
}

/// The packages that are ready, in their order.
pub(crate) fn ready_jobs(
    alloc: Global,
    tree: &[PackageTexts],
    table: &[Option<Node>],
) -> Result<Vec<Job>, NoMemory>
    requires few { length tree.now < 2 ^ 32 }
    requires size { length table.now ≡ length tree.now }
    ensures { IfOk result (λ jobs. AreJobs tree.now table.now (length tree.now) jobs.items) }
{
    let mut jobs = Vec::new(alloc);
    for at in 0..tree.len() {
        add_ready(&mut jobs, tree, table, at)?;
    }
    Ok(jobs)
}

/// An empty row for each.
fn blank(alloc: Global, count: usize) -> Result<Vec<Vec<u32>>, NoMemory> {
    let mut rows = Vec::new(alloc);
    for _n in 0..count {
        rows.push(Vec::new(alloc))?;
    }
    Ok(rows)
}

/// Adds a number to a row, where there is such a row.
fn push_at(rows: &mut Vec<Vec<u32>>, at: usize, n: u32) -> Result<(), NoMemory> {
    if at >= rows.len() {
        return Ok(());
    }
    rows[at].push(n)?;
    Ok(())
}

/// Adds a package to the row of each that it imports.
fn push_each(rows: &mut Vec<Vec<u32>>, imports: &[u32], at: usize) -> Result<(), NoMemory>
    requires { at < 2 ^ 32 }
{
    for import in imports {
        push_at(rows, *import as usize, at as u32)?;
    }
    Ok(())
}

/// For each package those that import it. They tell where the packages of the next wave are sought, so that no wave looks at all
/// packages: only speed rests on them.
pub(crate) fn importers_of(alloc: Global, tree: &[PackageTexts]) -> Result<Vec<Vec<u32>>, NoMemory>
    requires { length tree.now < 2 ^ 32 }
{
    let mut rows = blank(alloc, tree.len())?;
    for p in 0..tree.len() {
        push_each(&mut rows, tree[p].imports.as_slice(), p)?;
    }
    Ok(rows)
}

/// Adds what a row has.
fn push_row(found: &mut Vec<u32>, rows: &[Vec<u32>], at: usize) -> Result<(), NoMemory> {
    match rows.get(at) {
        None => Ok(()),
        Some(row) => {
            found.extend_from_slice(row.as_slice())?;
            Ok(())
        }
    }
}

/// The packages that import one of a wave, in order, some of them more than once.
fn above(alloc: Global, importers: &[Vec<u32>], wave: &[Job]) -> Result<Vec<u32>, NoMemory> {
    let mut found = Vec::new(alloc);
    for job in wave {
        push_row(&mut found, importers, job.at as usize)?;
    }
    found.sort_unstable();
    Ok(found)
}

/// Adds a package to a wave whose packages stand below this end, where it doesn't and is ready; and says where they end then.
fn add_next(
    jobs: &mut Vec<Job>,
    tree: &[PackageTexts],
    table: &[Option<Node>],
    at: usize,
    end: usize,
) -> Result<usize, NoMemory>
    requires few { length tree.now < 2 ^ 32 }
    requires size { length table.now ≡ length tree.now }
    requires jobs { AreChosen tree.now table.now end jobs.old.items }
    ensures { IfOk result (λ next. AreChosen tree.now table.now next jobs.new.items) }
{
    if at < end {
        return Ok(end);
    }
    if at >= tree.len() {
        return Ok(end);
    }
    if !is_ready(tree, table, at) {
        return Ok(end);
    }
    push_job(jobs, at)?;
    Ok(at + 1)
}

/// Those of these packages that are ready; one that stands behind a higher one is passed over.
fn chosen(
    alloc: Global,
    tree: &[PackageTexts],
    table: &[Option<Node>],
    candidates: &[u32],
) -> Result<Vec<Job>, NoMemory>
    requires few { length tree.now < 2 ^ 32 }
    requires size { length table.now ≡ length tree.now }
    ensures { IfOk result (λ jobs. (end : ℕ) × AreChosen tree.now table.now end jobs.items) }
{
    let mut jobs = Vec::new(alloc);
    let mut end = 0;
    for at in candidates {
        end = add_next(&mut jobs, tree, table, *at as usize, end)?;
    }
    Ok(jobs)
}

pub(crate) fn count_of(jobs: &Vec<Job>) -> usize
    ensures { result ≡ length jobs.now.items }
{
    jobs.as_slice().len()
}

/// Packages that are ready after a wave, in their order: those that import one of the wave's, since others would have been ready before; and where
/// none of those is ready, all are looked at, so that the waves end only where no package is ready.
pub(crate) fn next_jobs(
    alloc: Global,
    tree: &[PackageTexts],
    table: &[Option<Node>],
    importers: &[Vec<u32>],
    wave: &[Job],
) -> Result<Vec<Job>, NoMemory>
    requires few { length tree.now < 2 ^ 32 }
    requires size { length table.now ≡ length tree.now }
    ensures { IfOk result (λ jobs. AreJobs tree.now table.now (length tree.now) jobs.items) }
{
    let candidates = above(alloc, importers, wave)?;
    let next = chosen(alloc, tree, table, &candidates)?;
    if count_of(&next) > 0 {
        return Ok(next);
    }
    let all = ready_jobs(alloc, tree, table)?;
    Ok(all)
}
