//! `unreachable`: statements that can't be reached.
ghost use Rattle.std.specs.Prelude.{◌≡◌, ◌∷◌, ◌++◌, [], None, Some, codes, IfOk, OnOk};
ghost use Rattle.unit_read.specs.Units.{node_at};
ghost use Rattle.unit_read.specs.Subjects.{flag};
ghost use Rattle.analysis_core.specs.declared.analyzer_name.AnalyzerName.TheVariants as analyzer;
ghost use Rattle.findings.specs.Gains.{Gains};
ghost use Rattle.findings.specs.Passes.{unit_in, marks_in, IsPass};
ghost use Rattle.vet_words.specs.Diagnosing.{diagnosed};
ghost use Rattle.vet_flow.specs.Unreachable.{IsUnreachable, AreUnreachable, AreTreesSpelled, AreDeadIn};

use crate::dead::dead_rows;
use analysis_core::{AnalyzerName, Diagnostic};
use findings::{Pass, Reports, run_over_nodes};
use go_tree::{Node, NodeRef};
use gv_base::NoMemory;
use std::alloc::Global;
use unit_read::flag;
use vet_words::diagnose;

fn dead_text(alloc: Global) -> Result<Vec<u8>, NoMemory>
    ensures { IfOk result (λ text. text.items ≡ codes "unreachable code") }
{
    let mut text = Vec::new(alloc);
    text.extend_from_slice(b"unreachable code")?;
    Ok(text)
}

fn push_dead(
    alloc: Global,
    p: &Pass,
    file: u32,
    node: &Node,
    found: &mut Vec<Diagnostic>,
) -> Result<(), NoMemory>
    ensures { OnOk result (found.new.items ≡ found.old.items ++ diagnosed (unit_in p.now) file analyzer.Unreachable (codes "unreachable code") None node.now ∷ []) }
{
    let text = dead_text(alloc)?;
    let diagnostic = diagnose(p, file, AnalyzerName::Unreachable, text, None, node);
    found.push(diagnostic)?;
    Ok(())
}

fn report_dead(
    alloc: Global,
    p: &Pass,
    dead: &Vec<Vec<bool>>,
    at: NodeRef,
    node: &Node,
    found: &mut Vec<Diagnostic>,
) -> Result<(), NoMemory>
    requires dead { AreDeadIn (unit_in p.now) (flag dead.now.items) }
    requires node { node_at (unit_in p.now) at ≡ Some node.now }
    ensures { OnOk result (Gains (IsUnreachable (unit_in p.now) (marks_in p.now) at node.now) found.old.items found.new.items) }
{
    if flag(dead, at) {
        push_dead(alloc, p, at.file, node, found)?;
        return Ok(());
    }
    Ok(())
}

/// The rule, with the flags of the statements that can't be reached.
#[derive(Drop)]
struct OverDead<'a> {
    dead: &'a Vec<Vec<bool>>,
}

impl<'a> Reports for OverDead<'a> {
    ghost reported = { λ s. IsUnreachable };

    ghost fits = { λ s u marks. AreDeadIn u (flag s.dead.now.items) };

    fn report_at(
        &self,
        alloc: Global,
        pass: &Pass,
        at: NodeRef,
        node: &Node,
        found: &mut Vec<Diagnostic>,
    ) -> Result<(), NoMemory> {
        report_dead(alloc, pass, self.dead, at, node, found)?;
        Ok(())
    }
}

fn run_over_dead(
    alloc: Global,
    p: &Pass,
    dead: &Vec<Vec<bool>>,
) -> Result<Vec<Diagnostic>, NoMemory>
    requires pass { IsPass p.now }
    requires dead { AreDeadIn (unit_in p.now) (flag dead.now.items) }
    ensures { IfOk result (λ found. AreUnreachable (unit_in p.now) (marks_in p.now) found.items) }
{
    let rule = OverDead { dead };
    let found = run_over_nodes(alloc, &rule, p)?;
    Ok(found)
}

/// Statements that can't be reached.
#[derive(Drop)]
pub struct Unreachable;

impl Unreachable {
    /// All of a package.
    pub fn run(&self, alloc: Global, pass: &Pass) -> Result<Vec<Diagnostic>, NoMemory>
        requires pass { IsPass pass.now }
        requires spelled { AreTreesSpelled (unit_in pass.now) }
        ensures { IfOk result (λ found. AreUnreachable (unit_in pass.now) (marks_in pass.now) found.items) }
    {
        let dead = dead_rows(alloc, pass)?;
        let found = run_over_dead(alloc, pass, &dead)?;
        Ok(found)
    }
}
