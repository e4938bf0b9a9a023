//! What the analyzers found.
ghost use Rattle.std.specs.Prelude.{◌≡◌, ◌++◌, IfOk, List, OnOk, length};
ghost use Rattle.action_graph.specs.Outcomes.{outcome_text};
ghost use Rattle.action_graph.specs.Standing.{AllFound};
ghost use Rattle.analysis_core.specs.Findings.{AreFindings};
ghost use Rattle.analysis_core.specs.declared.diagnostic.Diagnostic.{Diagnostic};
ghost use Rattle.gv_driver.specs.Reports.{AllFoundShown, AreFoundShown, IsFoundShown};
ghost use Rattle.gv_driver.specs.Tables.{runs_of_node};
ghost use Rattle.std.specs.Prelude.{ℕ};

use crate::node::{Node, RunNode};
use crate::standing::all_found;
use crate::tree::PackageTexts;
use action_graph::findings_in;
use analysis_core::{Diagnostic, read_findings};
use gv_base::{Bytes, NoMemory, Row, Text};
use std::alloc::Global;

/// The diagnostics, where all of them are of this analyzer and stand in the files; else none.
fn standing(
    alloc: Global,
    files: &[(Text, Bytes)],
    analyzer: u8,
    found: Vec<Diagnostic>,
) -> Vec<Diagnostic>
    ensures stand { AllFound files.now analyzer result.items }
    ensures same { AllFound files.now analyzer found.items → result.items ≡ found.items }
{
    if all_found(files, analyzer, &found) {
        return found;
    }
    Vec::new(alloc)
}

/// The diagnostics that a findings text spells, where it spells some of this analyzer that stand in the files; else none.
fn told(
    alloc: Global,
    files: &[(Text, Bytes)],
    analyzer: u8,
    text: &[u8],
) -> Result<Vec<Diagnostic>, NoMemory>
    ensures stand { IfOk result (λ v. AllFound files.now analyzer v.items) }
    ensures right { (ds : List Diagnostic) → AreFindings ds text.now → AllFound files.now analyzer ds → IfOk result (λ v. v.items ≡ ds) }
{
    let read = read_findings(alloc, text)?;
    match read {
        Some(found) => Ok(standing(alloc, files, analyzer, found)),
        None => Ok(Vec::new(alloc)),
    }
}

/// What a run's outcome text shows. A cache may hold any text.
fn shown_in(
    alloc: Global,
    files: &[(Text, Bytes)],
    analyzer: u8,
    outcome: &[u8],
) -> Result<Vec<Diagnostic>, NoMemory>
    ensures { IfOk result (λ v. IsFoundShown files.now analyzer outcome.now v.items) }
{
    let found = told(alloc, files, analyzer, findings_in(outcome))?;
    Ok(found)
}

fn add_all(list: &mut Vec<Diagnostic>, mut found: Vec<Diagnostic>) -> Result<(), NoMemory>
    ensures { OnOk result (list.new.items ≡ list.old.items ++ found.items) }
{
    list.append(&mut found)?;
    Ok(())
}

/// What the outcome texts of these runs show, in turn.
fn found_in(
    alloc: Global,
    files: &[(Text, Bytes)],
    runs: &[RunNode],
) -> Result<Vec<Diagnostic>, NoMemory>
    ensures { IfOk result (λ v. AreFoundShown files.now runs.now v.items) }
{
    let mut list = Vec::new(alloc);
    for run in runs {
        let found = shown_in(alloc, files, run.analyzer, run.outcome.as_slice())?;
        add_all(&mut list, found)?;
    }
    Ok(list)
}

fn found_at(
    alloc: Global,
    pack: &PackageTexts,
    node: &Option<Node>,
) -> Result<Row<Diagnostic>, NoMemory>
    ensures { IfOk result (λ v. AreFoundShown pack.now.files (runs_of_node node.now) v) }
{
    match node {
        None => Ok(Row::new(Vec::new(alloc))),
        Some(node) => {
            let list = found_in(alloc, pack.files.as_slice(), node.runs.as_slice())?;
            Ok(Row::new(list))
        }
    }
}

/// What the analyzers found of each package, in order.
pub(crate) fn findings(
    alloc: Global,
    tree: &[PackageTexts],
    table: &[Option<Node>],
) -> Result<Vec<Row<Diagnostic>>, NoMemory>
    requires { length table.now ≡ length tree.now }
    ensures { IfOk result (λ v. AllFoundShown tree.now table.now v.items (length tree.now)) }
{
    let mut list = Vec::new(alloc);
    for p in 0..tree.len() {
        list.push(found_at(alloc, &tree[p], &table[p])?)?;
    }
    Ok(list)
}
