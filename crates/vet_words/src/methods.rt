//! Which methods nodes select (Go 1.17, "Selectors").
ghost use Rattle.std.specs.Prelude.{◌≡◌, ◌<◌, ◌↔◌, IfOk, IsTrue, true, option_map, option_and_then};
ghost use Rattle.package_objects.specs.Declares.{part};
ghost use Rattle.type_model.specs.GoTypes.{type_at};
ghost use Rattle.type_model.specs.Tables.{IsTable, types_in, count, declarations_in};
ghost use Rattle.typed_tree.specs.Places.{is_package};
ghost use Rattle.rule_words.specs.Good.{known_of, AreFactsOf};
ghost use Rattle.rule_words.specs.Scenes.{type_in, MayBeTypeOf};
ghost use Rattle.findings.specs.Passes.{unit_in, marks_in, IsPass};
ghost use Rattle.vet_words.specs.Forms.{is_selector};
ghost use Rattle.vet_words.specs.Marked.{known_at};
ghost use Rattle.vet_words.specs.Called.{owner_type, owner_of, IsMethodOf, SelectsMethod, names_function, IsFunction};
ghost use Rattle.vet_words.specs.InCode.{is_method_part, is_method};

use crate::called::function_at;
use crate::forms::is_selector;
use crate::marked::known_at;
use findings::Pass;
use go_tree::Node;
use gv_base::NoMemory;
use method_sets::{Selected, Selection, select, selection_lasts};
use package_objects::part_of;
use std::alloc::Global;
use type_model::{TypeId, TypeTable};
use typed_marks::{Facts, State};
use typed_tree::Mode;

// ---- what stands before the dot

fn is_package(mode: Mode) -> bool
    ensures { result ≡ is_package mode }
{
    matches!(mode, Mode::Package)
}

fn owner_type(s: &State, x: Facts) -> Option<TypeId>
    requires { AreFactsOf s.now x }
    ensures is { option_map (type_in s.now) result ≡ owner_type (known_of s.now x) }
    ensures over { MayBeTypeOf s.now result }
{
    let _ = s;
    if is_package(x.mode) { None } else { Some(x.of) }
}

fn owner_at(p: &Pass, file: u32, n: u32) -> Option<TypeId>
    requires { IsPass p.now }
    ensures is { option_map (type_in p.now.state.now) result ≡ option_and_then owner_type (known_at (marks_in p.now) file n) }
    ensures over { MayBeTypeOf p.now.state.now result }
{
    match known_at(p, file, n) {
        Some(x) => owner_type(p.state, x),
        None => None,
    }
}

fn owner_of(p: &Pass, file: u32, node: &Node) -> Option<TypeId>
    requires { IsPass p.now }
    ensures is { option_map (type_in p.now.state.now) result ≡ owner_of (marks_in p.now) file node.now }
    ensures over { MayBeTypeOf p.now.state.now result }
{
    match part_of(node, 0) {
        Some(n) => owner_at(p, file, n),
        None => None,
    }
}

// ---- what is selected

fn is_method_part(kind: Selected) -> bool
    ensures { result ≡ is_method_part kind }
{
    match kind {
        Selected::Field(_) => false,
        Selected::Method(_, _) => true,
    }
}

fn is_method(selection: Selection) -> bool
    ensures { result ≡ is_method selection }
{
    match selection {
        Selection::Found { path: _, kind } => is_method_part(kind),
        Selection::Ambiguous { depth: _ } => false,
        Selection::Absent => false,
    }
}

/// Whether a name, written in the package, selects a method from a type.
fn selects_from(alloc: Global, p: &Pass, name: &str, of: TypeId) -> Result<bool, NoMemory>
    requires pass { IsPass p.now }
    requires within { of.0 < count p.now.state.now.table }
    ensures { IfOk result (λ b. IsTrue b ↔ IsMethodOf (unit_in p.now) (declarations_in p.now.state.now.table) name.now (type_in p.now.state.now of)) }
{
    let selection = select(alloc, &p.state.table, of, name, p.subject.path_text())?;
    selection_lasts();
    Ok(is_method(selection))
}

fn selects_by(alloc: Global, p: &Pass, file: u32, node: &Node) -> Result<bool, NoMemory>
    requires pass { IsPass p.now }
    requires selects { is_selector node.now.kind ≡ true }
    ensures { IfOk result (λ b. IsTrue b ↔ SelectsMethod (unit_in p.now) (marks_in p.now) file node.now) }
{
    match owner_of(p, file, node) {
        Some(of) => {
            let found = selects_from(alloc, p, p.subject.spelled_text(file, node.last), of)?;
            Ok(found)
        }
        None => Ok(false),
    }
}

/// Whether a node selects a method.
pub fn selects_method(alloc: Global, p: &Pass, file: u32, node: &Node) -> Result<bool, NoMemory>
    requires { IsPass p.now }
    ensures { IfOk result (λ b. IsTrue b ↔ SelectsMethod (unit_in p.now) (marks_in p.now) file node.now) }
{
    if !is_selector(node.kind) {
        return Ok(false);
    }
    let found = selects_by(alloc, p, file, node)?;
    Ok(found)
}

fn names_function(p: &Pass, file: u32, n: u32) -> bool
    requires { IsPass p.now }
    ensures { result ≡ names_function (unit_in p.now) (marks_in p.now) file n }
{
    function_at(p, file, n).is_some()
}

/// Whether a node names a declared function or method.
pub fn is_function(
    alloc: Global,
    p: &Pass,
    file: u32,
    n: u32,
    node: &Node,
) -> Result<bool, NoMemory>
    requires { IsPass p.now }
    ensures { IfOk result (λ b. IsTrue b ↔ IsFunction (unit_in p.now) (marks_in p.now) file n node.now) }
{
    if names_function(p, file, n) {
        return Ok(true);
    }
    let found = selects_method(alloc, p, file, node)?;
    Ok(found)
}
