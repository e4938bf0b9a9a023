//! `bools`: what stands twice in a chain of `&&` or `||`, and comparisons of one operand that can't fail together.
ghost use Rattle.std.specs.Prelude.{◌≡◌, ◌<◌, ◌+◌, ◌++◌, ◌∷◌, [], ℕ, List, Some, None, is_some, length, slice_get, if◌then◌else◌, IfOk, OnOk};
ghost use Rattle.analysis_core.specs.declared.analyzer_name.AnalyzerName.TheVariants as analyzer;
ghost use Rattle.analysis_core.specs.declared.diagnostic.Diagnostic.{Diagnostic as OneDiagnostic};
ghost use Rattle.findings.specs.Passes.{unit_in, marks_in, IsPass};
ghost use Rattle.vet_words.specs.Diagnosing.{diagnosed_at};
ghost use Rattle.vet_words.specs.Quiet.{quiet_nodes};
ghost use Rattle.vet_words.specs.InCode.{AreRowsOf};
ghost use Rattle.vet_simple.specs.Bools.{redundant_word, pair_text, redundant, in_runs, in_chain, bools_found, IsBoolFound, AreBoolFound};
ghost use Rattle.vet_simple.specs.InRuns.{kept, IsTable, operand_key, AreSeen};

use crate::chains::{Chain, chain_of, is_inner, operands};
use crate::met::{note, push_pair, redundant_word};
use crate::suspects::report_suspect;
use analysis_core::Diagnostic;
use findings::{Pass, Reports, run_over_nodes};
use go_tree::{Node, NodeRef};
use gv_base::NoMemory;
use std::alloc::Global;
use std::collections::HashMap;
use vet_words::{is_quiet, key_at, quiet_rows};

// ---- what stands twice

fn push_again(
    alloc: Global,
    p: &Pass,
    file: u32,
    c: Chain,
    x: u32,
    before: Option<u32>,
    found: &mut Vec<Diagnostic>,
) -> Result<(), NoMemory>
    ensures { OnOk result (found.new.items ≡ found.old.items ++ (if is_some before then diagnosed_at (unit_in p.now) file x analyzer.Bools (pair_text (unit_in p.now) file c (redundant_word c) x x) None else [])) }
{
    if before.is_some() {
        push_pair(alloc, p, file, c, redundant_word(c), x, x, found)?;
    }
    Ok(())
}

/// Reports an operand that equals an earlier one of its run, and notes it.
fn report_again(
    alloc: Global,
    p: &Pass,
    file: u32,
    c: Chain,
    met: &mut HashMap<Vec<u8>, u32>,
    x: u32,
    found: &mut Vec<Diagnostic>,
) -> Result<(), NoMemory>
    ensures found { OnOk result ((run : List ℕ) → IsTable (operand_key (unit_in p.now) file) run met.old → found.new.items ≡ found.old.items ++ redundant (unit_in p.now) file c run x) }
    ensures met { OnOk result ((run : List ℕ) → IsTable (operand_key (unit_in p.now) file) run met.old → IsTable (operand_key (unit_in p.now) file) (run ++ x ∷ []) met.new) }
{
    let key = key_at(alloc, p, file, x)?;
    let before = note(met, key, x)?;
    push_again(alloc, p, file, c, x, before, found)?;
    Ok(())
}

// ---- runs

fn operand_at(list: &[u32], i: usize) -> u32
    requires { i < length list.now }
    ensures { slice_get list.now i ≡ Some result }
{
    list[i]
}

fn forget(alloc: Global, met: &mut HashMap<Vec<u8>, u32>)
    ensures { (k : List ℕ) → kept met.new k ≡ None }
{
    *met = HashMap::new(alloc);
}

/// Reports an operand by those of its run, or ends the run.
fn report_operand(
    alloc: Global,
    p: &Pass,
    quiet: &[Vec<bool>],
    file: u32,
    c: Chain,
    operands: &mut HashMap<Vec<u8>, u32>,
    compared: &mut HashMap<Vec<u8>, u32>,
    x: u32,
    found: &mut Vec<Diagnostic>,
) -> Result<(), NoMemory>
    requires pass { IsPass p.now }
    requires quiet { AreRowsOf (quiet_nodes (unit_in p.now) (marks_in p.now)) quiet.now (length (unit_in p.now).trees) }
    ensures { OnOk result ((xs : List ℕ) (start : List OneDiagnostic) (i : ℕ) → AreSeen (unit_in p.now) (marks_in p.now) file c xs start found.old.items i operands.old compared.old → slice_get xs i ≡ Some x → AreSeen (unit_in p.now) (marks_in p.now) file c xs start found.new.items (i + 1) operands.new compared.new) }
{
    if is_quiet(p, quiet, file, x) {
        report_again(alloc, p, file, c, operands, x, found)?;
        report_suspect(alloc, p, file, c, compared, x, found)?;
        return Ok(());
    }
    forget(alloc, operands);
    forget(alloc, compared);
    Ok(())
}

fn report_runs(
    alloc: Global,
    p: &Pass,
    quiet: &[Vec<bool>],
    file: u32,
    c: Chain,
    list: &[u32],
    found: &mut Vec<Diagnostic>,
) -> Result<(), NoMemory>
    requires pass { IsPass p.now }
    requires quiet { AreRowsOf (quiet_nodes (unit_in p.now) (marks_in p.now)) quiet.now (length (unit_in p.now).trees) }
    ensures { OnOk result (found.new.items ≡ found.old.items ++ in_runs (unit_in p.now) (marks_in p.now) file c [] list.now) }
{
    let mut operands = HashMap::new(alloc);
    let mut compared = HashMap::new(alloc);
    for i in 0..list.len() {
        let x = operand_at(list, i);
        report_operand(
            alloc,
            p,
            quiet,
            file,
            c,
            &mut operands,
            &mut compared,
            x,
            found,
        )?;
    }
    Ok(())
}

fn report_chain(
    alloc: Global,
    p: &Pass,
    quiet: &[Vec<bool>],
    file: u32,
    n: u32,
    c: Chain,
    found: &mut Vec<Diagnostic>,
) -> Result<(), NoMemory>
    requires pass { IsPass p.now }
    requires quiet { AreRowsOf (quiet_nodes (unit_in p.now) (marks_in p.now)) quiet.now (length (unit_in p.now).trees) }
    ensures { OnOk result (found.new.items ≡ found.old.items ++ in_chain (unit_in p.now) (marks_in p.now) file n c) }
{
    if is_inner(p, file, c, n) {
        return Ok(());
    }
    let list = operands(alloc, p, file, c, n)?;
    report_runs(alloc, p, quiet, file, c, &list, found)?;
    Ok(())
}

fn report_bools(
    alloc: Global,
    p: &Pass,
    quiet: &[Vec<bool>],
    at: NodeRef,
    node: &Node,
    found: &mut Vec<Diagnostic>,
) -> Result<(), NoMemory>
    requires pass { IsPass p.now }
    requires quiet { AreRowsOf (quiet_nodes (unit_in p.now) (marks_in p.now)) quiet.now (length (unit_in p.now).trees) }
    ensures { OnOk result (found.new.items ≡ found.old.items ++ bools_found (unit_in p.now) (marks_in p.now) at node.now) }
{
    match chain_of(p, at.file, node) {
        Some(c) => {
            report_chain(alloc, p, quiet, at.file, at.node, c, found)?;
            Ok(())
        }
        None => Ok(()),
    }
}

/// The rule, with what is quiet in the package.
#[derive(Drop)]
struct OverQuiet<'a> {
    quiet: &'a [Vec<bool>],
}

impl<'a> Reports for OverQuiet<'a> {
    ghost reported = { λ s. IsBoolFound };

    ghost fits = { λ s u marks. AreRowsOf (quiet_nodes u marks) s.quiet.now (length u.trees) };

    fn report_at(
        &self,
        alloc: Global,
        pass: &Pass,
        at: NodeRef,
        node: &Node,
        found: &mut Vec<Diagnostic>,
    ) -> Result<(), NoMemory> {
        report_bools(alloc, pass, self.quiet, at, node, found)?;
        Ok(())
    }
}

/// Chains of `&&` and `||`.
#[derive(Drop)]
pub struct Bools;

impl Bools {
    /// All of a package.
    pub fn run(&self, alloc: Global, pass: &Pass) -> Result<Vec<Diagnostic>, NoMemory>
        requires { IsPass pass.now }
        ensures { IfOk result (λ found. AreBoolFound (unit_in pass.now) (marks_in pass.now) found.items) }
    {
        let quiet = quiet_rows(alloc, pass)?;
        let rule = OverQuiet { quiet: &quiet };
        let found = run_over_nodes(alloc, &rule, pass)?;
        Ok(found)
    }
}
