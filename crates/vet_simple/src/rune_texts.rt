//! `stringintconv`: integers that are converted to strings of one rune.
ghost use Rattle.std.specs.Prelude.{◌≡◌, ◌<◌, ◌&&◌, ◌++◌, ◌∷◌, [], Some, None, true, false, option_map, option_and_then, if◌then◌else◌, codes, IfSome, IfOk, OnOk};
ghost use Rattle.std.specs.Option.{option_map_or};
ghost use Rattle.gv_base.specs.Kinds.{is_integer};
ghost use Rattle.package_objects.specs.Declares.{part};
ghost use Rattle.type_model.specs.GoTypes.{type_at};
ghost use Rattle.type_model.specs.Tables.{IsTable, types_in, count};
ghost use Rattle.unit_read.specs.Subjects.{flag};
ghost use Rattle.rule_words.specs.Good.{known_of, AreFactsOf};
ghost use Rattle.rule_words.specs.Scenes.{type_in, IsTypeOf};
ghost use Rattle.findings.specs.Passes.{unit_in, marks_in, IsPass};
ghost use Rattle.vet_words.specs.Marked.{known_at as known_of_node};
ghost use Rattle.vet_simple.specs.RuneTexts.{kind_told, kind_under, is_character, is_other_integer, target_kind, operand_kind, part_known, to_text, of_integer, gives_rune, rune_text, inserted, rune_edits, fits_rune, value_fits, goes_into_rune, rune_fix, rune_found, rune_operand, rune_callee, rune_parts, rune_texts, IsRuneText, AreRuneTexts};

use crate::text_types::is_text_kind;
use analysis_core::{AnalyzerName, Diagnostic};
use findings::{Pass, Reports, run_over_nodes};
use fix_apply::{Edit, Fix};
use go_tree::{Node, NodeRef};
use gv_base::{Bytes, Const, Kind, NoMemory, Row, fits};
use package_objects::{node_of, part_of};
use rule_words::values::value_at;
use std::alloc::Global;
use type_model::{Term, TypeId, TypeTable};
use typed_marks::{Facts, State};
use unit_read::flag;
use vet_words::{diagnose, end_of, is_conversion, known_at, spelling, start_of};

// ---- kinds

fn kind_told(t: &TypeTable, of: TypeId) -> Option<Kind>
    requires table { IsTable t.now }
    requires within { of.0 < count t.now }
    ensures { result ≡ kind_told (type_at (types_in t.now) of) }
{
    match t.term(of) {
        Term::Basic(kind) => Some(*kind),
        Term::Defined(_) => None,
        Term::Pointer(_) => None,
        Term::Slice(_) => None,
        Term::Array(_, _) => None,
        Term::Map(_, _) => None,
        Term::Chan(_, _) => None,
        Term::Func(_) => None,
        Term::Struct(_) => None,
        Term::Interface(_) => None,
    }
}

/// The kind of the underlying type.
fn kind_under(p: &Pass, of: TypeId) -> Option<Kind>
    requires pass { IsPass p.now }
    requires within { IsTypeOf p.now.state.now of }
    ensures { result ≡ kind_under (unit_in p.now) (marks_in p.now) (type_in p.now.state.now of) }
{
    match p.state.table.underlying(of) {
        Some(under) => kind_told(&p.state.table, under),
        None => None,
    }
}

fn is_character(kind: Kind) -> bool
    ensures { result ≡ is_character kind }
{
    matches!(kind, Kind::Uint8 | Kind::Int32)
}

fn is_other_integer(kind: Kind) -> bool
    ensures { result ≡ is_other_integer kind }
{
    kind.is_integer() && !is_character(kind)
}

// ---- conversions

fn part_known(p: &Pass, file: u32, node: &Node, i: usize) -> Option<Facts>
    requires { IsPass p.now }
    ensures is { option_map (known_of p.now.state.now) result ≡ part_known (marks_in p.now) file node.now i }
    ensures over { IfSome result (AreFactsOf p.now.state.now) }
{
    match part_of(node, i) {
        Some(n) => known_at(p, file, n),
        None => None,
    }
}

fn target_kind(p: &Pass, file: u32, node: &Node) -> Option<Kind>
    requires { IsPass p.now }
    ensures { result ≡ option_and_then (target_kind (unit_in p.now) (marks_in p.now)) (part_known (marks_in p.now) file node.now 0) }
{
    match part_known(p, file, node, 0) {
        Some(x) => kind_under(p, x.of),
        None => None,
    }
}

fn to_text(p: &Pass, file: u32, node: &Node) -> bool
    requires { IsPass p.now }
    ensures { result ≡ to_text (unit_in p.now) (marks_in p.now) file node.now }
{
    match target_kind(p, file, node) {
        Some(kind) => is_text_kind(kind),
        None => false,
    }
}

fn operand_kind(p: &Pass, file: u32, node: &Node) -> Option<Kind>
    requires { IsPass p.now }
    ensures { result ≡ option_and_then (operand_kind (unit_in p.now) (marks_in p.now)) (part_known (marks_in p.now) file node.now 1) }
{
    match part_known(p, file, node, 1) {
        Some(x) => kind_under(p, x.last),
        None => None,
    }
}

fn of_integer(p: &Pass, file: u32, node: &Node) -> bool
    requires { IsPass p.now }
    ensures { result ≡ of_integer (unit_in p.now) (marks_in p.now) file node.now }
{
    match operand_kind(p, file, node) {
        Some(kind) => is_other_integer(kind),
        None => false,
    }
}

fn gives_rune(p: &Pass, file: u32, node: &Node) -> bool
    requires { IsPass p.now }
    ensures { result ≡ gives_rune (unit_in p.now) (marks_in p.now) file node.now }
{
    is_conversion(p, file, node) && (to_text(p, file, node) && of_integer(p, file, node))
}

// ---- what is reported

fn rune_text(alloc: Global, p: &Pass, file: u32, callee: u32) -> Result<Vec<u8>, NoMemory>
    ensures { IfOk result (λ text. text.items ≡ rune_text (unit_in p.now) file callee) }
{
    let name = spelling(alloc, p, file, callee)?;
    let mut text = Vec::new(alloc);
    text.extend_from_slice(b"conversion to ")?;
    text.extend_from_slice(&name)?;
    text.extend_from_slice(b" yields a string of one rune")?;
    Ok(text)
}

fn inserted(alloc: Global, at: u32, text: &[u8]) -> Result<Edit, NoMemory>
    ensures { IfOk result (λ edit. edit ≡ inserted at text.now) }
{
    let text = Bytes::of(alloc, text)?;
    Ok(Edit {
        start: at,
        end: at,
        text,
    })
}

fn rune_edits(alloc: Global, p: &Pass, file: u32, operand: &Node) -> Result<Fix, NoMemory>
    ensures { IfOk result (λ fix. fix ≡ rune_edits (unit_in p.now) file operand.now) }
{
    let first = inserted(alloc, start_of(p, file, operand.first), b"rune(")?;
    let second = inserted(alloc, end_of(p, file, operand.last), b")")?;
    let mut edits = Vec::new(alloc);
    edits.push(first)?;
    edits.push(second)?;
    Ok(Fix {
        file,
        edits: Row::new(edits),
    })
}

fn fits_rune(c: &Const) -> bool
    ensures { result ≡ fits_rune c.now }
{
    fits(c, Kind::Int32)
}

fn value_fits(s: &State, x: Facts) -> bool
    ensures { result ≡ value_fits (known_of s.now x) }
{
    match value_at(s, x.value) {
        Some(c) => fits_rune(c),
        None => true,
    }
}

fn goes_into_rune(p: &Pass, file: u32, operand: u32) -> bool
    requires { IsPass p.now }
    ensures { result ≡ goes_into_rune (marks_in p.now) file operand }
{
    match known_at(p, file, operand) {
        Some(x) => value_fits(p.state, x),
        None => true,
    }
}

fn is_fixed(p: &Pass, free: &Vec<Vec<bool>>, at: NodeRef, operand: u32) -> bool
    requires { IsPass p.now }
    ensures { result ≡ (flag free.now.items at && goes_into_rune (marks_in p.now) at.file operand) }
{
    flag(free, at) && goes_into_rune(p, at.file, operand)
}

fn rune_fix(
    alloc: Global,
    p: &Pass,
    free: &Vec<Vec<bool>>,
    at: NodeRef,
    operand: u32,
    inner: &Node,
) -> Result<Option<Fix>, NoMemory>
    requires { IsPass p.now }
    ensures { IfOk result (λ fix. fix ≡ rune_fix (flag free.now.items) (unit_in p.now) (marks_in p.now) at operand inner.now) }
{
    if !is_fixed(p, free, at, operand) {
        return Ok(None);
    }
    let fix = rune_edits(alloc, p, at.file, inner)?;
    Ok(Some(fix))
}

fn report_inner(
    alloc: Global,
    p: &Pass,
    free: &Vec<Vec<bool>>,
    at: NodeRef,
    node: &Node,
    callee: u32,
    operand: u32,
    inner: &Node,
    found: &mut Vec<Diagnostic>,
) -> Result<(), NoMemory>
    requires { IsPass p.now }
    ensures { OnOk result (found.new.items ≡ found.old.items ++ rune_found (flag free.now.items) (unit_in p.now) (marks_in p.now) at node.now callee operand inner.now) }
{
    let text = rune_text(alloc, p, at.file, callee)?;
    let fix = rune_fix(alloc, p, free, at, operand, inner)?;
    let diagnostic = diagnose(p, at.file, AnalyzerName::StringIntConv, text, fix, node);
    found.push(diagnostic)?;
    Ok(())
}

fn report_operand(
    alloc: Global,
    p: &Pass,
    free: &Vec<Vec<bool>>,
    at: NodeRef,
    node: &Node,
    callee: u32,
    operand: u32,
    found: &mut Vec<Diagnostic>,
) -> Result<(), NoMemory>
    requires { IsPass p.now }
    ensures { OnOk result (found.new.items ≡ found.old.items ++ rune_operand (flag free.now.items) (unit_in p.now) (marks_in p.now) at node.now callee operand) }
{
    match node_of(p.subject.nodes_at(at.file), operand) {
        Some(inner) => {
            report_inner(alloc, p, free, at, node, callee, operand, inner, found)?;
            Ok(())
        }
        None => Ok(()),
    }
}

fn report_callee(
    alloc: Global,
    p: &Pass,
    free: &Vec<Vec<bool>>,
    at: NodeRef,
    node: &Node,
    callee: u32,
    found: &mut Vec<Diagnostic>,
) -> Result<(), NoMemory>
    requires { IsPass p.now }
    ensures { OnOk result (found.new.items ≡ found.old.items ++ rune_callee (flag free.now.items) (unit_in p.now) (marks_in p.now) at node.now callee) }
{
    match part_of(node, 1) {
        Some(operand) => {
            report_operand(alloc, p, free, at, node, callee, operand, found)?;
            Ok(())
        }
        None => Ok(()),
    }
}

fn report_parts(
    alloc: Global,
    p: &Pass,
    free: &Vec<Vec<bool>>,
    at: NodeRef,
    node: &Node,
    found: &mut Vec<Diagnostic>,
) -> Result<(), NoMemory>
    requires { IsPass p.now }
    ensures { OnOk result (found.new.items ≡ found.old.items ++ rune_parts (flag free.now.items) (unit_in p.now) (marks_in p.now) at node.now) }
{
    match part_of(node, 0) {
        Some(callee) => {
            report_callee(alloc, p, free, at, node, callee, found)?;
            Ok(())
        }
        None => Ok(()),
    }
}

fn report_rune(
    alloc: Global,
    p: &Pass,
    free: &Vec<Vec<bool>>,
    at: NodeRef,
    node: &Node,
    found: &mut Vec<Diagnostic>,
) -> Result<(), NoMemory>
    requires { IsPass p.now }
    ensures { OnOk result (found.new.items ≡ found.old.items ++ rune_texts (flag free.now.items) (unit_in p.now) (marks_in p.now) at node.now) }
{
    if gives_rune(p, at.file, node) {
        report_parts(alloc, p, free, at, node, found)?;
    }
    Ok(())
}

/// The rule, with the nodes at which `rune` denotes the predeclared type.
#[derive(Drop)]
struct OverFree<'a> {
    free: &'a Vec<Vec<bool>>,
}

impl<'a> Reports for OverFree<'a> {
    ghost reported = { λ s. IsRuneText (flag s.free.now.items) };

    ghost fits = { λ s u marks. Prim.Unit {0} };

    fn report_at(
        &self,
        alloc: Global,
        pass: &Pass,
        at: NodeRef,
        node: &Node,
        found: &mut Vec<Diagnostic>,
    ) -> Result<(), NoMemory> {
        report_rune(alloc, pass, self.free, at, node, found)?;
        Ok(())
    }
}

/// Integers that are converted to strings.
#[derive(Drop)]
pub struct StringIntConv;

impl StringIntConv {
    /// All of a package. `free` has a flag for each node of each file: whether `rune` denotes the predeclared type there.
    pub fn run(
        &self,
        alloc: Global,
        pass: &Pass,
        free: &Vec<Vec<bool>>,
    ) -> Result<Vec<Diagnostic>, NoMemory>
        requires { IsPass pass.now }
        ensures { IfOk result (λ found. AreRuneTexts (flag free.now.items) (unit_in pass.now) (marks_in pass.now) found.items) }
    {
        let rule = OverFree { free };
        let found = run_over_nodes(alloc, &rule, pass)?;
        Ok(found)
    }
}
