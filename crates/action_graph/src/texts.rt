//! The texts beside which an outcome is kept.
ghost use Rattle.std.specs.Prelude.{◌≡◌, ◌++◌, ◌∷◌, [], IfOk, OnOk};
ghost use Rattle.action_graph.specs.Nodes.{pairs, load_texts, run_texts};

use crate::kit::LoadInput;
use gv_base::{Bytes, NoMemory, Text};
use std::alloc::Global;

fn push_text(alloc: Global, texts: &mut Vec<Bytes>, text: &[u8]) -> Result<(), NoMemory>
    ensures { OnOk result (texts.new.items ≡ texts.old.items ++ text.now ∷ []) }
{
    let copy = Bytes::of(alloc, text)?;
    texts.push(copy)?;
    Ok(())
}

/// Adds a text with one holder more, where its holders are counted.
fn push_share(alloc: Global, texts: &mut Vec<Bytes>, text: &Bytes) -> Result<(), NoMemory>
    ensures { OnOk result (texts.new.items ≡ texts.old.items ++ text.now ∷ []) }
{
    let copy = text.copy(alloc)?;
    texts.push(copy)?;
    Ok(())
}

fn push_pair(alloc: Global, texts: &mut Vec<Bytes>, pair: &(Text, Bytes)) -> Result<(), NoMemory>
    ensures { OnOk result (texts.new.items ≡ (texts.old.items ++ pair.now.0 ∷ []) ++ pair.now.1 ∷ []) }
{
    push_text(alloc, texts, pair.0.as_str().as_bytes())?;
    push_share(alloc, texts, &pair.1)?;
    Ok(())
}

fn push_pairs(alloc: Global, texts: &mut Vec<Bytes>, list: &[(Text, Bytes)]) -> Result<(), NoMemory>
    ensures { OnOk result (texts.new.items ≡ texts.old.items ++ pairs list.now) }
{
    for pair in list {
        push_pair(alloc, texts, pair)?;
    }
    Ok(())
}

/// The texts of what a load reads: the package's path, its files, and its environment.
pub fn texts_of_parts(
    alloc: Global,
    path: &str,
    files: &[(Text, Bytes)],
    env: &[(Text, Bytes)],
) -> Result<Vec<Bytes>, NoMemory>
    ensures { IfOk result (λ v. v.items ≡ load_texts (record { path = path.now; files = files.now; env = env.now })) }
{
    let mut texts = Vec::new(alloc);
    push_text(alloc, &mut texts, path.as_bytes())?;
    push_pairs(alloc, &mut texts, files)?;
    push_text(alloc, &mut texts, b"")?;
    push_pairs(alloc, &mut texts, env)?;
    Ok(texts)
}

/// The texts of what a run reads: those of the load, and the facts.
pub fn texts_of_run_parts(
    alloc: Global,
    path: &str,
    files: &[(Text, Bytes)],
    env: &[(Text, Bytes)],
    facts: &[(Text, Bytes)],
) -> Result<Vec<Bytes>, NoMemory>
    ensures { IfOk result (λ v. v.items ≡ run_texts (record { analyzer = 0; load = record { path = path.now; files = files.now; env = env.now }; facts = facts.now })) }
{
    let mut texts = texts_of_parts(alloc, path, files, env)?;
    push_text(alloc, &mut texts, b"")?;
    push_pairs(alloc, &mut texts, facts)?;
    Ok(texts)
}

/// The texts of a load's input, all that it reads.
pub fn texts_of_load(alloc: Global, input: &LoadInput) -> Result<Vec<Bytes>, NoMemory>
    ensures { IfOk result (λ v. v.items ≡ load_texts input.now) }
{
    let texts = texts_of_parts(
        alloc,
        input.path.as_str(),
        input.files.as_slice(),
        input.env.as_slice(),
    )?;
    Ok(texts)
}
