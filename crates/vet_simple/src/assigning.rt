//! `assign`: what is assigned to itself.
ghost use Rattle.std.specs.Prelude.{◌≡◌, ◌<◌, ◌++◌, ◌∷◌, [], Some, None, if◌then◌else◌, length, slice_get, codes, IfOk, OnOk};
ghost use Rattle.std.specs.Option.{option_map_or};
ghost use Rattle.package_objects.specs.Declares.{items};
ghost use Rattle.unit_read.specs.Units.{nodes_at};
ghost use Rattle.findings.specs.Passes.{unit_in, marks_in, IsPass};
ghost use Rattle.vet_words.specs.Quiet.{quiet_nodes};
ghost use Rattle.vet_words.specs.InCode.{AreRowsOf};
ghost use Rattle.vet_simple.specs.Assigning.{is_assign, is_map_mode, is_map_index, are_quiet, is_alike, is_self, holds_at, is_self_pair, all_self, removal, self_text, self_at, self_if, self_pairs, self_lists, self_assigned, IsSelfAssigned, AreSelfAssigned};

use analysis_core::{AnalyzerName, Diagnostic};
use findings::{Pass, Reports, run_over_nodes};
use fix_apply::{Edit, Fix};
use go_tree::{Node, NodeKind, NodeRef};
use gv_base::{Bytes, NoMemory, Row};
use package_objects::{count, item, part_of};
use std::alloc::Global;
use typed_tree::Mode;
use vet_words::{
    bare, diagnose_at, end_of, is_quiet, is_same, known_at, quiet_rows, spelling, start_of,
};

fn is_assign(kind: NodeKind) -> bool
    ensures { result ≡ is_assign kind }
{
    matches!(kind, NodeKind::Assign)
}

// ---- pairs

fn is_map_mode(mode: Mode) -> bool
    ensures { result ≡ is_map_mode mode }
{
    matches!(mode, Mode::MapIndex)
}

fn is_map_index(p: &Pass, file: u32, n: u32) -> bool
    requires { IsPass p.now }
    ensures { result ≡ is_map_index (unit_in p.now) (marks_in p.now) file n }
{
    match known_at(p, file, bare(p.subject.nodes_at(file), n)) {
        Some(x) => is_map_mode(x.mode),
        None => false,
    }
}

fn are_quiet(p: &Pass, quiet: &[Vec<bool>], file: u32, x: u32, y: u32) -> bool
    requires { AreRowsOf (quiet_nodes (unit_in p.now) (marks_in p.now)) quiet.now (length (unit_in p.now).trees) }
    ensures { result ≡ are_quiet (unit_in p.now) (marks_in p.now) file x y }
{
    is_quiet(p, quiet, file, x) && is_quiet(p, quiet, file, y)
}

fn is_alike(alloc: Global, p: &Pass, file: u32, x: u32, y: u32) -> Result<bool, NoMemory>
    requires { IsPass p.now }
    ensures { IfOk result (λ b. b ≡ is_alike (unit_in p.now) (marks_in p.now) file x y) }
{
    if is_map_index(p, file, x) {
        return Ok(false);
    }
    let same = is_same(alloc, p, file, x, y)?;
    Ok(same)
}

/// Whether the sides of a pair are quiet and equal, and the left one is no element of a map.
fn is_self(
    alloc: Global,
    p: &Pass,
    quiet: &[Vec<bool>],
    file: u32,
    x: u32,
    y: u32,
) -> Result<bool, NoMemory>
    requires pass { IsPass p.now }
    requires quiet { AreRowsOf (quiet_nodes (unit_in p.now) (marks_in p.now)) quiet.now (length (unit_in p.now).trees) }
    ensures { IfOk result (λ b. b ≡ is_self (unit_in p.now) (marks_in p.now) file x y) }
{
    if !are_quiet(p, quiet, file, x, y) {
        return Ok(false);
    }
    let alike = is_alike(alloc, p, file, x, y)?;
    Ok(alike)
}

/// The two sides of a statement, as parts of nodes of a file.
#[derive(Clone, Copy, Drop)]
struct Sides {
    file: u32,
    left: Option<u32>,
    right: Option<u32>,
}

fn is_self_beside(
    alloc: Global,
    p: &Pass,
    quiet: &[Vec<bool>],
    s: Sides,
    i: usize,
    x: u32,
) -> Result<bool, NoMemory>
    requires pass { IsPass p.now }
    requires quiet { AreRowsOf (quiet_nodes (unit_in p.now) (marks_in p.now)) quiet.now (length (unit_in p.now).trees) }
    ensures { IfOk result (λ b. b ≡ holds_at (items (nodes_at (unit_in p.now) s.file) s.right) i (is_self (unit_in p.now) (marks_in p.now) s.file x)) }
{
    match item(p.subject.nodes_at(s.file), s.right, i) {
        Some(y) => {
            let pair = is_self(alloc, p, quiet, s.file, x, y)?;
            Ok(pair)
        }
        None => Ok(false),
    }
}

fn is_self_pair(
    alloc: Global,
    p: &Pass,
    quiet: &[Vec<bool>],
    s: Sides,
    i: usize,
) -> Result<bool, NoMemory>
    requires pass { IsPass p.now }
    requires quiet { AreRowsOf (quiet_nodes (unit_in p.now) (marks_in p.now)) quiet.now (length (unit_in p.now).trees) }
    ensures { IfOk result (λ b. b ≡ is_self_pair (unit_in p.now) (marks_in p.now) s.file (items (nodes_at (unit_in p.now) s.file) s.left) (items (nodes_at (unit_in p.now) s.file) s.right) i) }
{
    match item(p.subject.nodes_at(s.file), s.left, i) {
        Some(x) => {
            let pair = is_self_beside(alloc, p, quiet, s, i, x)?;
            Ok(pair)
        }
        None => Ok(false),
    }
}

fn left_count(p: &Pass, s: Sides) -> usize
    ensures { result ≡ length (items (nodes_at (unit_in p.now) s.file) s.left) }
{
    count(p.subject.nodes_at(s.file), s.left)
}

fn all_self(alloc: Global, p: &Pass, quiet: &[Vec<bool>], s: Sides) -> Result<bool, NoMemory>
    requires pass { IsPass p.now }
    requires quiet { AreRowsOf (quiet_nodes (unit_in p.now) (marks_in p.now)) quiet.now (length (unit_in p.now).trees) }
    ensures { IfOk result (λ b. b ≡ all_self (unit_in p.now) (marks_in p.now) s.file (items (nodes_at (unit_in p.now) s.file) s.left) (items (nodes_at (unit_in p.now) s.file) s.right)) }
{
    let count = left_count(p, s);
    for i in 0..count {
        let pair = is_self_pair(alloc, p, quiet, s, i)?;
        if !pair {
            return Ok(false);
        }
    }
    Ok(true)
}

// ---- what is reported

fn removal(alloc: Global, p: &Pass, file: u32, node: &Node) -> Result<Fix, NoMemory>
    ensures { IfOk result (λ fix. fix ≡ removal (unit_in p.now) file node.now) }
{
    let mut edits = Vec::new(alloc);
    edits.push(Edit {
        start: start_of(p, file, node.first),
        end: end_of(p, file, node.last),
        text: Bytes::new(Vec::new(alloc)),
    })?;
    Ok(Fix {
        file,
        edits: Row::new(edits),
    })
}

fn fix_if(
    alloc: Global,
    p: &Pass,
    file: u32,
    node: &Node,
    all: bool,
) -> Result<Option<Fix>, NoMemory>
    ensures { IfOk result (λ fix. fix ≡ (if all then Some (removal (unit_in p.now) file node.now) else None)) }
{
    if all {
        let fix = removal(alloc, p, file, node)?;
        Ok(Some(fix))
    } else {
        Ok(None)
    }
}

fn self_text(alloc: Global, p: &Pass, file: u32, x: u32) -> Result<Vec<u8>, NoMemory>
    ensures { IfOk result (λ text. text.items ≡ self_text (unit_in p.now) file x) }
{
    let name = spelling(alloc, p, file, x)?;
    let mut text = Vec::new(alloc);
    text.extend_from_slice(b"self-assignment of ")?;
    text.extend_from_slice(&name)?;
    Ok(text)
}

fn report_left(
    alloc: Global,
    p: &Pass,
    file: u32,
    fix: Option<Fix>,
    x: u32,
    found: &mut Vec<Diagnostic>,
) -> Result<(), NoMemory>
    ensures { OnOk result (found.new.items ≡ found.old.items ++ self_at (unit_in p.now) file fix x) }
{
    let text = self_text(alloc, p, file, x)?;
    diagnose_at(p, file, x, AnalyzerName::Assign, text, fix, found)?;
    Ok(())
}

fn report_pair(
    alloc: Global,
    p: &Pass,
    s: Sides,
    i: usize,
    fix: Option<Fix>,
    found: &mut Vec<Diagnostic>,
) -> Result<(), NoMemory>
    ensures { OnOk result (found.new.items ≡ found.old.items ++ option_map_or (self_at (unit_in p.now) s.file fix) (slice_get (items (nodes_at (unit_in p.now) s.file) s.left) i) []) }
{
    match item(p.subject.nodes_at(s.file), s.left, i) {
        Some(x) => {
            report_left(alloc, p, s.file, fix, x, found)?;
            Ok(())
        }
        None => Ok(()),
    }
}

fn report_nth(
    alloc: Global,
    p: &Pass,
    quiet: &[Vec<bool>],
    s: Sides,
    i: usize,
    fix: Option<Fix>,
    found: &mut Vec<Diagnostic>,
) -> Result<(), NoMemory>
    requires pass { IsPass p.now }
    requires quiet { AreRowsOf (quiet_nodes (unit_in p.now) (marks_in p.now)) quiet.now (length (unit_in p.now).trees) }
    ensures { OnOk result (found.new.items ≡ found.old.items ++ self_if (unit_in p.now) (marks_in p.now) s.file (items (nodes_at (unit_in p.now) s.file) s.left) (items (nodes_at (unit_in p.now) s.file) s.right) fix i) }
{
    let pair = is_self_pair(alloc, p, quiet, s, i)?;
    if pair {
        report_pair(alloc, p, s, i, fix, found)?;
    }
    Ok(())
}

/// Reports pairs; the fix goes with the first.
fn report_pairs(
    alloc: Global,
    p: &Pass,
    quiet: &[Vec<bool>],
    s: Sides,
    fix: Option<Fix>,
    found: &mut Vec<Diagnostic>,
) -> Result<(), NoMemory>
    requires pass { IsPass p.now }
    requires quiet { AreRowsOf (quiet_nodes (unit_in p.now) (marks_in p.now)) quiet.now (length (unit_in p.now).trees) }
    ensures { OnOk result (found.new.items ≡ found.old.items ++ self_pairs (unit_in p.now) (marks_in p.now) s.file (items (nodes_at (unit_in p.now) s.file) s.left) (items (nodes_at (unit_in p.now) s.file) s.right) fix) }
{
    let mut first = fix;
    let count = left_count(p, s);
    for i in 0..count {
        let own = first.take();
        report_nth(alloc, p, quiet, s, i, own, found)?;
    }
    Ok(())
}

fn report_sides(
    alloc: Global,
    p: &Pass,
    quiet: &[Vec<bool>],
    node: &Node,
    s: Sides,
    found: &mut Vec<Diagnostic>,
) -> Result<(), NoMemory>
    requires pass { IsPass p.now }
    requires quiet { AreRowsOf (quiet_nodes (unit_in p.now) (marks_in p.now)) quiet.now (length (unit_in p.now).trees) }
    ensures { OnOk result (found.new.items ≡ found.old.items ++ self_lists (unit_in p.now) (marks_in p.now) s.file node.now (items (nodes_at (unit_in p.now) s.file) s.left) (items (nodes_at (unit_in p.now) s.file) s.right)) }
{
    let nodes = p.subject.nodes_at(s.file);
    if count(nodes, s.left) != count(nodes, s.right) {
        return Ok(());
    }
    let all = all_self(alloc, p, quiet, s)?;
    let fix = fix_if(alloc, p, s.file, node, all)?;
    report_pairs(alloc, p, quiet, s, fix, found)?;
    Ok(())
}

fn report_assigned(
    alloc: Global,
    p: &Pass,
    quiet: &[Vec<bool>],
    at: NodeRef,
    node: &Node,
    found: &mut Vec<Diagnostic>,
) -> Result<(), NoMemory>
    requires pass { IsPass p.now }
    requires quiet { AreRowsOf (quiet_nodes (unit_in p.now) (marks_in p.now)) quiet.now (length (unit_in p.now).trees) }
    ensures { OnOk result (found.new.items ≡ found.old.items ++ self_assigned (unit_in p.now) (marks_in p.now) at node.now) }
{
    if !is_assign(node.kind) {
        return Ok(());
    }
    let s = Sides {
        file: at.file,
        left: part_of(node, 0),
        right: part_of(node, 1),
    };
    report_sides(alloc, p, quiet, node, s, found)?;
    Ok(())
}

/// The rule, with what is quiet in the package.
#[derive(Drop)]
struct OverQuiet<'a> {
    quiet: &'a [Vec<bool>],
}

impl<'a> Reports for OverQuiet<'a> {
    ghost reported = { λ s. IsSelfAssigned };

    ghost fits = { λ s u marks. AreRowsOf (quiet_nodes u marks) s.quiet.now (length u.trees) };

    fn report_at(
        &self,
        alloc: Global,
        pass: &Pass,
        at: NodeRef,
        node: &Node,
        found: &mut Vec<Diagnostic>,
    ) -> Result<(), NoMemory> {
        report_assigned(alloc, pass, self.quiet, at, node, found)?;
        Ok(())
    }
}

/// What is assigned to itself.
#[derive(Drop)]
pub struct Assign;

impl Assign {
    /// All of a package.
    pub fn run(&self, alloc: Global, pass: &Pass) -> Result<Vec<Diagnostic>, NoMemory>
        requires { IsPass pass.now }
        ensures { IfOk result (λ found. AreSelfAssigned (unit_in pass.now) (marks_in pass.now) found.items) }
    {
        let quiet = quiet_rows(alloc, pass)?;
        let rule = OverQuiet { quiet: &quiet };
        let found = run_over_nodes(alloc, &rule, pass)?;
        Ok(found)
    }
}
