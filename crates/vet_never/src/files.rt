//! What is known of the files of a package.
ghost use Rattle.std.specs.Prelude.{◌≡◌, ◌<◌, ◌≤◌, ◌^◌, List, Some, IfOk, length};
ghost use Rattle.go_tree.specs.Pieces.{Spelled};
ghost use Rattle.go_tree.specs.declared.tree.FileTree.{FileTree as OneTree};
ghost use Rattle.unit_read.specs.Units.{text_in, tree_at};
ghost use Rattle.findings.specs.Passes.{unit_in, marks_in, IsPass};
ghost use Rattle.vet_flow.specs.Unreachable.{AreTreesSpelled};
ghost use Rattle.vet_never.specs.declared.told.Told.{Told as ATold};
ghost use Rattle.vet_never.specs.Knowing.{IsKnown, IsFileKnown, AreFilesKnown, IsLent, AreLent};

use crate::calls::{Known, call_row};
use file_flow::{file_graph, file_labels};
use findings::Pass;
use flow::{Call, Graph};
use go_tree::FileTree;
use gv_base::NoMemory;
use never_returns::FileFlow;
use std::alloc::Global;

/// What is known of a file: the labels that its jumps denote, where control passes, and what its statements call, by number.
#[derive(Drop)]
pub(crate) struct FileKnown {
    pub labels: Vec<Option<u32>>,
    pub graph: Graph,
    pub calls: Vec<Call>,
}

fn text_in<'a>(p: &Pass<'a>, file: u32) -> &'a [u8]
    ensures { result.now ≡ text_in (unit_in p.now) file }
{
    let texts = p.subject.texts;
    if (file as usize) < texts.len() {
        texts[file as usize]
    } else {
        &[]
    }
}

fn node_count(tree: &FileTree) -> usize
    ensures { result ≡ length tree.now.nodes }
{
    tree.nodes.as_slice().len()
}

fn known_of(
    alloc: Global,
    p: &Pass,
    known: &Known<'_, '_>,
    file: u32,
    tree: &FileTree,
    bytes: &[u8],
) -> Result<FileKnown, NoMemory>
    requires pass { IsPass p.now }
    requires known { IsKnown (unit_in p.now) known.now }
    requires bytes { bytes.now ≡ text_in (unit_in p.now) file }
    requires spelled { Spelled tree.now.tokens bytes.now tree.now }
    requires small { length tree.now.nodes ≤ 2 ^ 32 }
    ensures { IfOk result (λ x. (row : List ATold) × IsFileKnown (unit_in p.now) (marks_in p.now) known.now file tree.now row x) }
{
    let labels = file_labels(alloc, tree, bytes)?;
    let graph = file_graph(alloc, tree, bytes, &labels)?;
    let calls = call_row(alloc, p, known, file, node_count(tree))?;
    Ok(FileKnown {
        labels,
        graph,
        calls,
    })
}

fn nth_tree<'a>(p: &Pass<'a>, file: u32) -> &'a FileTree
    requires { file < length p.now.subject.now.trees.now }
    ensures { tree_at (unit_in p.now) file ≡ Some result.now }
{
    &p.subject.trees[file as usize]
}

fn file_known(
    alloc: Global,
    p: &Pass,
    known: &Known<'_, '_>,
    file: u32,
) -> Result<FileKnown, NoMemory>
    requires pass { IsPass p.now }
    requires known { IsKnown (unit_in p.now) known.now }
    requires spelled { AreTreesSpelled (unit_in p.now) }
    requires there { file < length p.now.subject.now.trees.now }
    ensures { IfOk result (λ x. (row : List ATold) × ((tree : OneTree) → tree_at (unit_in p.now) file ≡ Some tree → IsFileKnown (unit_in p.now) (marks_in p.now) known.now file tree row x)) }
{
    let one = known_of(alloc, p, known, file, nth_tree(p, file), text_in(p, file))?;
    Ok(one)
}

/// What is known of each file.
pub(crate) fn all_known(
    alloc: Global,
    p: &Pass,
    known: &Known<'_, '_>,
) -> Result<Vec<FileKnown>, NoMemory>
    requires pass { IsPass p.now }
    requires known { IsKnown (unit_in p.now) known.now }
    requires spelled { AreTreesSpelled (unit_in p.now) }
    ensures { IfOk result (λ list. AreFilesKnown (unit_in p.now) (marks_in p.now) known.now (length p.now.subject.now.trees.now) list.items) }
{
    let mut list = Vec::new(alloc);
    for file in 0..p.subject.trees.len() {
        let one = file_known(alloc, p, known, file as u32)?;
        list.push(one)?;
    }
    Ok(list)
}

fn lent<'a>(trees: &'a [FileTree], list: &'a [FileKnown], i: usize) -> FileFlow<'a>
    requires tree { i < length trees.now }
    requires known { i < length list.now }
    ensures { IsLent trees.now list.now i result }
{
    let known = &list[i];
    FileFlow {
        tree: &trees[i],
        labels: &known.labels,
        graph: &known.graph,
        calls: &known.calls,
    }
}

/// The files as they are handed on.
pub(crate) fn all_lent<'a>(
    alloc: Global,
    trees: &'a [FileTree],
    list: &'a [FileKnown],
) -> Result<Vec<FileFlow<'a>>, NoMemory>
    requires { length list.now ≡ length trees.now }
    ensures { IfOk result (λ flows. AreLent trees.now list.now (length trees.now) flows.items) }
{
    let mut flows = Vec::new(alloc);
    for i in 0..trees.len() {
        flows.push(lent(trees, list, i))?;
    }
    Ok(flows)
}
