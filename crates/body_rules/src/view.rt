//! What is read of a file before its rules are asked.
ghost use Rattle.std.specs.Prelude.{◌≡◌, ◌<◌, ◌≤◌, ◌^◌, ◌↔◌, ℕ, Bool, true, false, IfOk, IsTrue, Option, length, get_or};
ghost use Rattle.node_values.specs.Parents.{AreParents};
ghost use Rattle.node_values.specs.Ranges.{starts};
ghost use Rattle.node_values.specs.Trees.{IsTree, IsOfKind, AreInnermost};
ghost use Rattle.body_rules.specs.declared.branches.Branch.TheVariants as w;
ghost use Rattle.body_rules.specs.Files.{IsFile, Reads, AreRead};
ghost use Rattle.body_rules.specs.Given.{given};
ghost use Rattle.body_rules.specs.Hands.{AreClauseEnds};
ghost use Rattle.body_rules.specs.Jumping.{AreNearest};
ghost use Rattle.body_rules.specs.Kinds.{is_block, is_goto, is_fall};
ghost use Rattle.body_rules.specs.Latest.{AreLatest};
ghost use Rattle.body_rules.specs.Views.{AreEndings, IfAny, IsRead};

use crate::branches::{Branch, Jumping, left_flags, nearest_in};
use crate::endings::{Ending, Endings, endings_of, flag_at};
use crate::file::File;
use crate::hands::{alone_of, clause_ends};
use crate::kinds::{is_block, is_fall, is_goto};
use crate::latest::{latest_of, number_at};
use go_tree::{Node, NodeKind};
use gv_base::NoMemory;
use node_values::{Stops, Targets, flag_targets, innermost, parents_of, starts_of};
use std::alloc::Global;

/// A file with a value of each sort for each node.
#[derive(Drop)]
pub(crate) struct View<'a> {
    pub file: &'a File<'a>,
    pub parents: Vec<usize>,
    pub begins: Vec<usize>,
    pub blocks: Vec<Option<usize>>,
    pub breaks: Vec<Option<usize>>,
    pub continues: Vec<Option<usize>>,
    pub latest: Vec<Option<usize>>,
    pub endings: Vec<Ending>,
    pub clause_ends: Vec<bool>,
    pub read: Vec<bool>,
}

/// What a node reads: the variable that it denotes, unless it is only assigned.
#[derive(Clone, Copy, Drop)]
struct Reading<'a> {
    file: &'a File<'a>,
    alone: &'a [bool],
}

impl<'a> Targets for Reading<'a> {
    ghost IsState = { λ s. IsTrue true };

    ghost count = { λ s. length s.file.now.nodes.now };

    ghost Leads = { λ s. Reads (given s.file.now) s.alone.now };

    fn count(&self) -> usize {
        self.file.nodes.len()
    }

    fn target(&self, n: usize) -> Option<usize> {
        if flag_at(self.alone, n) {
            return None;
        }
        number_at(self.file.meant, n)
    }
}

fn read_in(alloc: Global, f: &File, parents: &[usize]) -> Result<Vec<bool>, NoMemory>
    requires file { IsFile (given f.now) }
    requires parents { AreParents f.now.nodes.now (length f.now.nodes.now) parents.now }
    ensures { IfOk result (λ read. AreRead (given f.now) read.items) }
{
    let alone = alone_of(alloc, f.nodes, parents)?;
    let reading = Reading {
        file: f,
        alone: &alone,
    };
    let read = flag_targets(alloc, &reading, f.nodes.len())?;
    Ok(read)
}

struct Blocks;

impl Stops for Blocks {
    ghost kinds = { λ s. is_block };

    fn is_one(&self, kind: NodeKind) -> bool {
        is_block(kind)
    }
}

/// Whether there is a `goto`.
fn has_goto(nodes: &[Node]) -> bool
    ensures { (result ≡ true) ↔ ((n : ℕ) × IsOfKind is_goto nodes.now n) }
{
    for n in 0..nodes.len() {
        if is_goto(nodes[n].kind) {
            return true;
        }
    }
    false
}

/// Whether there is a `fallthrough`.
fn has_fall(nodes: &[Node]) -> bool
    ensures { (result ≡ true) ↔ ((n : ℕ) × IsOfKind is_fall nodes.now n) }
{
    for n in 0..nodes.len() {
        if is_fall(nodes[n].kind) {
            return true;
        }
    }
    false
}

/// The innermost block that holds each node, if there is a `goto` that asks for it.
fn blocks_in(
    alloc: Global,
    nodes: &[Node],
    parents: &[usize],
) -> Result<Vec<Option<usize>>, NoMemory>
    requires tree { IsTree nodes.now }
    requires parents { AreParents nodes.now (length nodes.now) parents.now }
    ensures { IfOk result (λ found. IfAny is_goto nodes.now (AreInnermost is_block nodes.now found.items)) }
{
    if !has_goto(nodes) {
        return Ok(Vec::new(alloc));
    }
    let found = innermost(alloc, &Blocks, nodes, parents)?;
    Ok(found)
}

/// The last declaration of variables before each node, in its block, likewise.
fn latest_in(
    alloc: Global,
    nodes: &[Node],
    blocks: &[Option<usize>],
) -> Result<Vec<Option<usize>>, NoMemory>
    requires few { length nodes.now ≤ 2 ^ 32 }
    ensures { IfOk result (λ found. IfAny is_goto nodes.now (AreLatest nodes.now blocks.now (length nodes.now) found.items)) }
{
    if !has_goto(nodes) {
        return Ok(Vec::new(alloc));
    }
    let found = latest_of(alloc, nodes, blocks)?;
    Ok(found)
}

/// Where a `fallthrough` may stand, if there is one.
fn clause_ends_in(alloc: Global, nodes: &[Node], parents: &[usize]) -> Result<Vec<bool>, NoMemory>
    requires tree { IsTree nodes.now }
    requires parents { AreParents nodes.now (length nodes.now) parents.now }
    ensures { IfOk result (λ found. IfAny is_fall nodes.now (AreClauseEnds nodes.now found.items)) }
{
    if !has_fall(nodes) {
        return Ok(Vec::new(alloc));
    }
    let found = clause_ends(alloc, nodes, parents)?;
    Ok(found)
}

fn endings_in(
    alloc: Global,
    f: &File,
    parents: &[usize],
    begins: &[usize],
    breaks: &[Option<usize>],
) -> Result<Vec<Ending>, NoMemory>
    requires file { IsFile (given f.now) }
    requires parents { AreParents f.now.nodes.now (length f.now.nodes.now) parents.now }
    requires begins { begins.now ≡ starts f.now.nodes.now }
    requires breaks { AreNearest w.Break f.now.nodes.now breaks.now }
    ensures { IfOk result (λ found. AreEndings (given f.now) found.items) }
{
    let jumping = Jumping {
        which: Branch::Break,
        nodes: f.nodes,
        labels: f.labels,
        parents,
        begins,
        nearest: breaks,
    };
    let left = left_flags(alloc, &jumping)?;
    let rule = Endings {
        nodes: f.nodes,
        left: &left,
        panics: f.panics,
    };
    let found = endings_of(alloc, &rule)?;
    Ok(found)
}

/// Reads a file, in time in step with its nodes.
pub(crate) fn view_of<'a>(alloc: Global, f: &'a File<'a>) -> Result<View<'a>, NoMemory>
    requires { IsFile (given f.now) }
    ensures { IfOk result (λ v. IsRead v × (v.file.now ≡ f.now)) }
{
    let parents = parents_of(alloc, f.nodes)?;
    let begins = starts_of(alloc, f.nodes)?;
    let blocks = blocks_in(alloc, f.nodes, &parents)?;
    let breaks = nearest_in(alloc, Branch::Break, f.nodes, &parents)?;
    let continues = nearest_in(alloc, Branch::Continue, f.nodes, &parents)?;
    let latest = latest_in(alloc, f.nodes, &blocks)?;
    let endings = endings_in(alloc, f, &parents, &begins, &breaks)?;
    let clause_ends = clause_ends_in(alloc, f.nodes, &parents)?;
    let read = read_in(alloc, f, &parents)?;
    Ok(View {
        file: f,
        parents,
        begins,
        blocks,
        breaks,
        continues,
        latest,
        endings,
        clause_ends,
        read,
    })
}
