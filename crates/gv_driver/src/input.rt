//! What a load reads. The texts of files and the export texts are shared by all that holds them.
ghost use Rattle.std.specs.Prelude.{◌≡◌, IfOk, map};
ghost use Rattle.gv_driver.specs.Loads.{load_input, run_input};
ghost use Rattle.gv_driver.specs.Tables.{load_over, pair_at};

use crate::node::Node;
use crate::parts::{path_at, shared_export_at};
use crate::tree::PackageTexts;
use action_graph::{LoadInput, RunInput, texts_of_load, texts_of_run_parts};
use fact_cache::Input;
use gv_base::{Bytes, NoMemory, Row, Text};
use std::alloc::Global;

fn copy_file(alloc: Global, file: &(Text, Bytes)) -> Result<(Text, Bytes), NoMemory>
    ensures { IfOk result (λ x. x ≡ file.now) }
{
    let path = file.0.copy(alloc)?;
    let bytes = file.1.copy(alloc)?;
    Ok((path, bytes))
}

fn copy_files(alloc: Global, files: &[(Text, Bytes)]) -> Result<Vec<(Text, Bytes)>, NoMemory>
    ensures { IfOk result (λ v. v.items ≡ files.now) }
{
    let mut copies = Vec::new(alloc);
    for file in files {
        copies.push(copy_file(alloc, file)?)?;
    }
    Ok(copies)
}

fn export_pair(
    alloc: Global,
    tree: &[PackageTexts],
    table: &[Option<Node>],
    number: u32,
) -> Result<(Text, Bytes), NoMemory>
    ensures { IfOk result (λ x. x ≡ pair_at tree.now table.now number) }
{
    let at = number as usize;
    let path = Text::of(alloc, path_at(tree, at))?;
    let export = shared_export_at(alloc, table, at)?;
    Ok((path, export))
}

fn export_pairs(
    alloc: Global,
    tree: &[PackageTexts],
    table: &[Option<Node>],
    numbers: &[u32],
) -> Result<Vec<(Text, Bytes)>, NoMemory>
    ensures { IfOk result (λ v. v.items ≡ map (pair_at tree.now table.now) numbers.now) }
{
    let mut pairs = Vec::new(alloc);
    for number in numbers {
        pairs.push(export_pair(alloc, tree, table, *number)?)?;
    }
    Ok(pairs)
}

/// What the load of a package reads: its path, its files, and the export texts of its environment.
pub(crate) fn load_of(
    alloc: Global,
    tree: &[PackageTexts],
    table: &[Option<Node>],
    env: &[u32],
    pack: &PackageTexts,
) -> Result<LoadInput, NoMemory>
    ensures { IfOk result (λ load. load ≡ load_over tree.now table.now env.now pack.now) }
{
    let path = pack.path.copy(alloc)?;
    let files = Row::new(copy_files(alloc, pack.files.as_slice())?);
    let env = Row::new(export_pairs(alloc, tree, table, env)?);
    Ok(LoadInput { path, files, env })
}

/// What the load of a package reads, as the cache keeps it. It stays until the run's end, so that it keeps no room to spare.
pub(crate) fn key_of(
    alloc: Global,
    tree: &[PackageTexts],
    table: &[Option<Node>],
    env: &[u32],
    pack: &PackageTexts,
) -> Result<Input, NoMemory>
    ensures { IfOk result (λ key. key ≡ load_input (load_over tree.now table.now env.now pack.now)) }
{
    let load = load_of(alloc, tree, table, env, pack)?;
    let mut texts = texts_of_load(alloc, &load)?;
    texts.shrink_to_fit();
    Ok(Input {
        node: 0,
        texts: Row::new(texts),
    })
}

/// What a run reads, as the cache keeps it.
pub(crate) fn key_of_run(alloc: Global, run: &RunInput) -> Result<Input, NoMemory>
    ensures { IfOk result (λ key. key ≡ run_input run.now) }
{
    let mut texts = texts_of_run_parts(
        alloc,
        run.load.path.as_str(),
        run.load.files.as_slice(),
        run.load.env.as_slice(),
        run.facts.as_slice(),
    )?;
    texts.shrink_to_fit();
    Ok(Input {
        node: run.analyzer,
        texts: Row::new(texts),
    })
}
