//! The lines of packages.
ghost use Rattle.std.specs.Prelude.{◌≡◌, ◌++◌, length, map, IfOk, OnOk};
ghost use Rattle.fact_lines.specs.Lines.{all_facts, analyzer_lines, fact_line, package_lines};

use crate::told::facts_told;
use analysis_core::FactLine;
use gv_base::{Bytes, NoMemory, Row, Text};
use import_graph::Package;
use std::alloc::Global;

fn fact_line(alloc: Global, path: &Text, analyzer: u8, told: Bytes) -> Result<FactLine, NoMemory>
    ensures { IfOk result (λ line. line ≡ fact_line path.now analyzer told) }
{
    let package = path.copy(alloc)?;
    Ok(FactLine {
        package,
        analyzer,
        text: told,
    })
}

/// Adds a line for each of these.
fn push_told(
    alloc: Global,
    lines: &mut Vec<FactLine>,
    path: &Text,
    analyzer: u8,
    told: Vec<Bytes>,
) -> Result<(), NoMemory>
    ensures { OnOk result (lines.new.items ≡ lines.old.items ++ map (fact_line path.now analyzer) told.items) }
{
    for text in told {
        let line = fact_line(alloc, path, analyzer, text)?;
        lines.push(line)?;
    }
    Ok(())
}

/// Adds the lines of an analyzer's facts of a package.
fn push_analyzer(
    alloc: Global,
    lines: &mut Vec<FactLine>,
    path: &Text,
    facts: &(u8, Bytes),
) -> Result<(), NoMemory>
    ensures { OnOk result (lines.new.items ≡ lines.old.items ++ analyzer_lines path.now facts.now) }
{
    let told = facts_told(alloc, facts.0, facts.1.as_slice())?;
    push_told(alloc, lines, path, facts.0, told)?;
    Ok(())
}

/// Adds those of all facts of a package.
fn push_package(
    alloc: Global,
    lines: &mut Vec<FactLine>,
    path: &Text,
    facts: &[(u8, Bytes)],
) -> Result<(), NoMemory>
    ensures { OnOk result (lines.new.items ≡ lines.old.items ++ package_lines path.now facts.now) }
{
    for pair in facts {
        push_analyzer(alloc, lines, path, pair)?;
    }
    Ok(())
}

/// The lines of the facts of a tree: by package in the order in which they are handed in, by analyzer as their facts are, and by name. Of each package
/// the number and the fact text of each analyzer are handed in.
pub fn all_facts(
    alloc: Global,
    packages: &[Package],
    facts: &[Row<(u8, Bytes)>],
) -> Result<Vec<FactLine>, NoMemory>
    requires { length facts.now ≡ length packages.now }
    ensures { IfOk result (λ lines. lines.items ≡ all_facts packages.now facts.now) }
{
    let mut lines = Vec::new(alloc);
    for k in 0..packages.len() {
        push_package(alloc, &mut lines, &packages[k].path, facts[k].as_slice())?;
    }
    Ok(lines)
}
