//! A package as it is loaded.
ghost use Rattle.std.specs.Prelude.{◌≡◌, ◌<◌, ◌^◌, map, length, IfOk};
ghost use Rattle.action_graph.specs.Judging.{text_of};
ghost use Rattle.go_kit.specs.Keeping.{AreKnown};
ghost use Rattle.go_kit.specs.Loading.{IsKeeping, IsLoadOf, IsTypedOver};
ghost use Rattle.go_kit.specs.Reading.{AreFilesOf};

use crate::kept::Known;
use action_graph::LoadInput;
use check_pkg::Typed;
use go_tree::FileTree;
use gv_base::{Bytes, NoMemory, Text};
use package_faces::Interface;
use std::alloc::Global;
use std::collections::HashMap;
use type_model::TypeTable;

/// A package that was accepted: the trees of its files; what is kept of it, with the table of its types; the interfaces of its environment, and
/// the path and the text of which each was read; and what else is known over that table.
#[derive(Drop)]
pub struct Loaded {
    pub trees: Vec<FileTree>,
    pub typed: Typed,
    pub env: Vec<Interface>,
    pub texts: Vec<(Text, Bytes)>,
    pub known: HashMap<String, Known>,
}

/// The table of what is kept of a package.
pub(crate) fn table_in(typed: Typed) -> TypeTable
    ensures { result ≡ typed.state.table }
{
    let state = typed.state;
    state.table
}

fn copied_pair(alloc: Global, pair: &(Text, Bytes)) -> Result<(Text, Bytes), NoMemory>
    ensures { IfOk result (λ copy. copy ≡ pair.now) }
{
    let path = pair.0.copy(alloc)?;
    let text = pair.1.copy(alloc)?;
    Ok((path, text))
}

fn copied_pairs(alloc: Global, pairs: &[(Text, Bytes)]) -> Result<Vec<(Text, Bytes)>, NoMemory>
    ensures { IfOk result (λ copies. copies.items ≡ pairs.now) }
{
    let mut copies = Vec::with_capacity(alloc, pairs.len())?;
    for pair in pairs {
        let copy = copied_pair(alloc, pair)?;
        copies.push(copy)?;
    }
    Ok(copies)
}

/// An accepted package, with the trees of its files, the interfaces of its environment beside their texts, and what is known over its table.
pub(crate) fn loaded_of(
    alloc: Global,
    input: &LoadInput,
    trees: Vec<FileTree>,
    typed: Typed,
    known: HashMap<String, Known>,
    env: Vec<Interface>,
) -> Result<Loaded, NoMemory>
    requires files { AreFilesOf (map text_of input.now.files) trees.items }
    requires few { length input.now.files < 2 ^ 32 }
    requires typed { IsTypedOver input.now trees.items env.items typed }
    requires known { AreKnown typed.state.table known }
    ensures of { IfOk result (λ l. IsLoadOf l input.now) }
    ensures keeps { IfOk result IsKeeping }
{
    let texts = copied_pairs(alloc, input.env.as_slice())?;
    Ok(Loaded {
        trees,
        typed,
        env,
        texts,
        known,
    })
}
