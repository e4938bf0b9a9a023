//! What a run says of each package.
ghost use Rattle.std.specs.Prelude.{◌≡◌, IfOk, List, length};
ghost use Rattle.action_graph.specs.Marks.{AreSpelled};
ghost use Rattle.action_graph.specs.declared.marks.MarkLine.{MarkLine};
ghost use Rattle.gv_driver.specs.Reports.{AreShown, IsAnswerShown, IsShown};
ghost use Rattle.gv_driver.specs.Standing.{AllStand};

use crate::node::{Answer, Node};
use crate::reply::Verdict;
use crate::standing::all_stand;
use crate::tree::PackageTexts;
use action_graph::{MarkLine, read_marks};
use gv_base::{Bytes, NoMemory, Row, Text};
use std::alloc::Global;

/// The marks, where all of them stand in the files; else none.
fn standing(alloc: Global, files: &[(Text, Bytes)], marks: Vec<MarkLine>) -> Vec<MarkLine>
    ensures stand { AllStand files.now result.items }
    ensures same { AllStand files.now marks.items → result.items ≡ marks.items }
{
    if all_stand(files, &marks) {
        return marks;
    }
    Vec::new(alloc)
}

/// The marks that a text spells, where it spells some that stand in the files; else none. A cache may hold any text.
fn marks_of(alloc: Global, files: &[(Text, Bytes)], text: &[u8]) -> Result<Vec<MarkLine>, NoMemory>
    ensures stand { IfOk result (λ v. AllStand files.now v.items) }
    ensures right { (marks : List MarkLine) → AreSpelled marks text.now → AllStand files.now marks → IfOk result (λ v. v.items ≡ marks) }
{
    let read = read_marks(alloc, text)?;
    match read {
        Some(marks) => Ok(standing(alloc, files, marks)),
        None => Ok(Vec::new(alloc)),
    }
}

fn verdict_of(alloc: Global, files: &[(Text, Bytes)], answer: &Answer) -> Result<Verdict, NoMemory>
    ensures { IfOk result (λ v. IsAnswerShown files.now answer.now v) }
{
    match answer {
        Answer::Accepted(_) => Ok(Verdict::Accepted),
        Answer::Refused(text) => {
            let marks = marks_of(alloc, files, text.as_slice())?;
            Ok(Verdict::Refused(Row::new(marks)))
        }
    }
}

fn verdict_at(alloc: Global, pack: &PackageTexts, node: &Option<Node>) -> Result<Verdict, NoMemory>
    ensures { IfOk result (λ v. IsShown pack.now.files pack.now.sound node.now v) }
{
    if !pack.sound {
        return Ok(Verdict::Faulty);
    }
    match node {
        None => Ok(Verdict::Blocked),
        Some(node) => {
            let verdict = verdict_of(alloc, pack.files.as_slice(), &node.answer)?;
            Ok(verdict)
        }
    }
}

/// The verdict of each package, in order.
pub(crate) fn verdicts(
    alloc: Global,
    tree: &[PackageTexts],
    table: &[Option<Node>],
) -> Result<Vec<Verdict>, NoMemory>
    requires { length table.now ≡ length tree.now }
    ensures { IfOk result (λ v. AreShown tree.now table.now v.items (length tree.now)) }
{
    let mut list = Vec::new(alloc);
    for p in 0..tree.len() {
        list.push(verdict_at(alloc, &tree[p], &table[p])?)?;
    }
    Ok(list)
}
