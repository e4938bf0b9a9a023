//! Keeping what was executed.
ghost use Rattle.std.specs.Prelude.{◌≡◌, ◌++◌, ◌∷◌, [], ℕ, None, Some, OnOk, OnErr, IfOk, List, length, map, take};
ghost use Rattle.fact_cache.specs.declared.list.Entry.{Entry};
ghost use Rattle.fact_cache.specs.Caches.{lookup};
ghost use Rattle.gv_driver.specs.Entries.{all_entries, entries_in, entry_if, run_entries};
ghost use Rattle.gv_driver.specs.Tables.{answer_text};
ghost use Rattle.gv_driver.specs.Runs.{CanKeep};

use crate::answer::write_answer;
use crate::node::{Answer, Node, RunNode};
use fact_cache::{Cache, Entry, Input};
use gv_base::{Bytes, NoMemory, Row};
use std::alloc::Global;

fn copy_texts(alloc: Global, texts: &[Bytes]) -> Result<Vec<Bytes>, NoMemory>
    ensures { IfOk result (λ v. v.items ≡ texts.now) }
{
    let mut copies = Vec::new(alloc);
    for text in texts {
        copies.push(text.copy(alloc)?)?;
    }
    Ok(copies)
}

fn copy_input(alloc: Global, input: &Input) -> Result<Input, NoMemory>
    ensures { IfOk result (λ i. i ≡ input.now) }
{
    let mut texts = copy_texts(alloc, input.texts.as_slice())?;
    texts.shrink_to_fit();
    Ok(Input {
        node: input.node,
        texts: Row::new(texts),
    })
}

fn push_load(
    alloc: Global,
    entries: &mut Vec<Option<Entry>>,
    fresh: &Option<Input>,
    answer: &Answer,
) -> Result<(), NoMemory>
    ensures { OnOk result (entries.new.items ≡ entries.old.items ++ map Some (entry_if fresh.now (answer_text answer.now))) }
{
    match fresh {
        None => Ok(()),
        Some(input) => {
            let input = copy_input(alloc, input)?;
            let outcome = write_answer(alloc, answer)?;
            entries.push(Some(Entry { input, outcome }))?;
            Ok(())
        }
    }
}

fn push_run(alloc: Global, entries: &mut Vec<Option<Entry>>, run: &RunNode) -> Result<(), NoMemory>
    ensures { OnOk result (entries.new.items ≡ entries.old.items ++ map Some (entry_if run.now.fresh run.now.outcome)) }
{
    match &run.fresh {
        None => Ok(()),
        Some(input) => {
            let input = copy_input(alloc, input)?;
            let outcome = run.outcome.copy(alloc)?;
            entries.push(Some(Entry { input, outcome }))?;
            Ok(())
        }
    }
}

fn push_runs(
    alloc: Global,
    entries: &mut Vec<Option<Entry>>,
    runs: &[RunNode],
) -> Result<(), NoMemory>
    ensures { OnOk result (entries.new.items ≡ entries.old.items ++ map Some (run_entries runs.now)) }
{
    for run in runs {
        push_run(alloc, entries, run)?;
    }
    Ok(())
}

fn push_node(
    alloc: Global,
    entries: &mut Vec<Option<Entry>>,
    node: &Option<Node>,
) -> Result<(), NoMemory>
    ensures { OnOk result (entries.new.items ≡ entries.old.items ++ map Some (entries_in node.now)) }
{
    match node {
        None => Ok(()),
        Some(node) => {
            push_load(alloc, entries, &node.fresh, &node.answer)?;
            push_runs(alloc, entries, node.runs.as_slice())?;
            Ok(())
        }
    }
}

/// The entries of what was executed, in node order.
pub(crate) fn entries_of(
    alloc: Global,
    table: &[Option<Node>],
) -> Result<Vec<Option<Entry>>, NoMemory>
    ensures { IfOk result (λ v. v.items ≡ map Some (all_entries table.now)) }
{
    let mut entries = Vec::new(alloc);
    for node in table {
        push_node(alloc, &mut entries, node)?;
    }
    Ok(entries)
}

fn keep_entry(cache: &mut Cache, entry: Entry) -> Result<(), NoMemory>
    requires { lookup cache.old entry.input ≡ None }
    ensures kept { OnOk result (cache.new ≡ cache.old ++ entry ∷ []) }
    ensures unchanged { OnErr result (cache.new ≡ cache.old) }
{
    let Entry { input, outcome } = entry;
    cache.put(input, outcome)?;
    Ok(())
}

/// Adds these entries, in order.
pub(crate) fn keep(cache: &mut Cache, mut entries: Vec<Option<Entry>>) -> Result<(), NoMemory>
    requires { (list : List Entry) × (entries.items ≡ map Some list) × CanKeep cache.old list }
    ensures whole { OnOk result ((list : List Entry) → entries.items ≡ map Some list → cache.new ≡ cache.old ++ list) }
    ensures part { OnErr result ((list : List Entry) → entries.items ≡ map Some list → (done : ℕ) × (cache.new ≡ cache.old ++ take done list)) }
{
    for p in 0..entries.len() {
        if let Some(entry) = entries[p].take() {
            keep_entry(cache, entry)?;
        }
    }
    Ok(())
}
