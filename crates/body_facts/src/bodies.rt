//! All that the late rules of bodies find in a package.
ghost use Rattle.std.specs.Prelude.{◌≡◌, ◌<◌, ◌≤◌, ◌^◌, ◌↔◌, IfOk, Some, Contains, length, slice_get};
ghost use Rattle.go_tree.specs.Pieces.{Spelled};
ghost use Rattle.late_list.specs.declared.late.LateFault.{LateFault as OneFault};
ghost use Rattle.unit_read.specs.Index.{texts_of};
ghost use Rattle.unit_read.specs.Subjects.{unit_of, IsRead, cell};
ghost use Rattle.body_facts.specs.Facts.{AreFacts, IsBodyFault};
ghost use Rattle.body_facts.specs.Bodies.{AreBodies, AreFactsTo, IsTaken, AreFilesTo};
ghost use Rattle.body_rules.specs.Files.{IsFile};
ghost use Rattle.body_rules.specs.Given.{given};

use crate::facts::{Facts, facts_of, file_of};
use body_rules::{File, late_faults};
use go_tree::{FileTree, NodeRef};
use gv_base::NoMemory;
use label_uses::labels;
use late_list::LateFault;
use std::alloc::Global;
use unit_read::Subject;

pub(crate) fn tree_at<'a>(u: &Subject<'a>, k: usize) -> &'a FileTree
    requires { k < length u.now.trees.now }
    ensures { slice_get (unit_of u.now).trees k ≡ Some result.now }
{
    &u.trees[k]
}

pub(crate) fn text_at<'a>(u: &Subject<'a>, k: usize) -> &'a [u8]
    requires { k < length u.now.texts.now }
    ensures { slice_get (unit_of u.now).texts k ≡ Some result.now }
{
    u.texts[k]
}

/// The tables of one file.
fn one_facts(
    alloc: Global,
    u: &Subject,
    number: u32,
    bytes: &[u8],
    tree: &FileTree,
    meant: &Vec<Vec<Option<NodeRef>>>,
) -> Result<Facts, NoMemory>
    requires read { IsRead u.now }
    requires few { length tree.now.nodes ≤ 2 ^ 32 }
    requires spelled { Spelled tree.now.tokens bytes.now tree.now }
    ensures { IfOk result (λ f. AreFacts (unit_of u.now) (cell meant.now.items) number bytes.now tree.now f) }
{
    let found = labels(alloc, tree, bytes)?;
    let facts = facts_of(alloc, u, number, bytes, tree, &found, meant)?;
    Ok(facts)
}

fn all_facts(
    alloc: Global,
    u: &Subject,
    meant: &Vec<Vec<Option<NodeRef>>>,
) -> Result<Vec<Facts>, NoMemory>
    requires read { IsRead u.now }
    requires bodies { AreBodies (texts_of u.now.texts.now) u.now.trees.now }
    ensures { IfOk result (λ list. AreFactsTo (unit_of u.now) (cell meant.now.items) (length u.now.trees.now) list.items) }
{
    let mut list = Vec::new(alloc);
    for k in 0..u.trees.len() {
        let facts = one_facts(alloc, u, k as u32, text_at(u, k), tree_at(u, k), meant)?;
        list.push(facts)?;
    }
    Ok(list)
}

fn facts_at(list: &[Facts], k: usize) -> &Facts
    requires { k < length list.now }
    ensures { slice_get list.now k ≡ Some result.now }
{
    &list[k]
}

fn nth_tree(trees: &[FileTree], k: usize) -> &FileTree
    requires { k < length trees.now }
    ensures { slice_get trees.now k ≡ Some result.now }
{
    &trees[k]
}

fn all_files<'a>(
    alloc: Global,
    u: &Subject<'_>,
    trees: &'a [FileTree],
    facts: &'a [Facts],
    meant: &Vec<Vec<Option<NodeRef>>>,
) -> Result<Vec<File<'a>>, NoMemory>
    requires trees { trees.now ≡ u.now.trees.now }
    requires bodies { AreBodies (texts_of u.now.texts.now) u.now.trees.now }
    requires facts { AreFactsTo (unit_of u.now) (cell meant.now.items) (length trees.now) facts.now }
    ensures { IfOk result (λ list. AreFilesTo (unit_of u.now) (cell meant.now.items) (length trees.now) list.items) }
{
    let mut list = Vec::new(alloc);
    for k in 0..trees.len() {
        let tree = nth_tree(trees, k);
        let bytes = text_at(u, k);
        let file = file_of(facts_at(facts, k), u, k as u32, bytes, tree, meant);
        list.push(file)?;
    }
    Ok(list)
}

/// All that the late rules of bodies find in a package: by file, node and rule. Given is the declared name that each node of each file reads.
pub fn body_faults(
    alloc: Global,
    u: &Subject,
    meant: &Vec<Vec<Option<NodeRef>>>,
) -> Result<Vec<LateFault>, NoMemory>
    requires read { IsRead u.now }
    requires bodies { AreBodies (texts_of u.now.texts.now) u.now.trees.now }
    ensures { IfOk result (λ list. (x : OneFault) → Contains list.items x ↔ IsBodyFault (unit_of u.now) (cell meant.now.items) x) }
{
    let facts = all_facts(alloc, u, meant)?;
    let files = all_files(alloc, u, u.trees, &facts, meant)?;
    let list = late_faults(alloc, &files)?;
    Ok(list)
}
