//! What nodes name.
ghost use Rattle.std.specs.Prelude.{◌≡◌, ◌⊎◌, ◌||◌, Some, None, true, option_map, option_and_then, slice_get, IfOk};
ghost use Rattle.typed_tree.specs.Places.{is_package, is_type};
ghost use Rattle.rule_words.specs.Good.{known_of, AreFactsOf};
ghost use Rattle.rule_words.specs.Scenes.{type_in, MayBeTypeOf};
ghost use Rattle.unit_read.specs.Units.{nodes_at, last_spelled};
ghost use Rattle.selected_methods.specs.Selected.{declared_by};
ghost use Rattle.findings.specs.Gains.{OfSome};
ghost use Rattle.findings.specs.Passes.{unit_in, marks_in, IsPass};
ghost use Rattle.vet_words.specs.Forms.{is_selector};
ghost use Rattle.vet_words.specs.Called.{function_at};
ghost use Rattle.member_names.specs.Named.{value_type, value_at, owner_of, IsMethodNamed, NamesMethod, NodeNamesMethod, IsNamed};
ghost use Rattle.member_names.specs.InCode.{found_named, Finds};

use crate::named::Named;
use crate::selecting::selected_from;
use findings::Pass;
use go_tree::{Node, NodeKind};
use gv_base::{NoMemory, Text};
use package_objects::{node_of, part_of};
use std::alloc::Global;
use type_model::TypeId;
use typed_marks::{Facts, State};
use typed_tree::Mode;
use vet_words::{Function, function_at, known_at};

// ---- what stands before the dot

fn is_no_value(mode: Mode) -> bool
    ensures { result ≡ (is_package mode || is_type mode) }
{
    matches!(mode, Mode::Package | Mode::TypeName)
}

fn value_type(s: &State, x: Facts) -> Option<TypeId>
    requires { AreFactsOf s.now x }
    ensures is { option_map (type_in s.now) result ≡ value_type (known_of s.now x) }
    ensures over { MayBeTypeOf s.now result }
{
    let _ = s;
    if is_no_value(x.mode) {
        None
    } else {
        Some(x.of)
    }
}

fn value_at(p: &Pass, file: u32, n: u32) -> Option<TypeId>
    requires { IsPass p.now }
    ensures is { option_map (type_in p.now.state.now) result ≡ value_at (marks_in p.now) file n }
    ensures over { MayBeTypeOf p.now.state.now result }
{
    match known_at(p, file, n) {
        Some(x) => value_type(p.state, x),
        None => None,
    }
}

fn owner_of(p: &Pass, file: u32, node: &Node) -> Option<TypeId>
    requires { IsPass p.now }
    ensures is { option_map (type_in p.now.state.now) result ≡ owner_of (marks_in p.now) file node.now }
    ensures over { MayBeTypeOf p.now.state.now result }
{
    match part_of(node, 0) {
        Some(n) => value_at(p, file, n),
        None => None,
    }
}

// ---- methods

fn is_selector(kind: NodeKind) -> bool
    ensures { result ≡ is_selector kind }
{
    matches!(kind, NodeKind::Selector)
}

fn owned_method(alloc: Global, p: &Pass, file: u32, node: &Node) -> Result<Option<Named>, NoMemory>
    requires { IsPass p.now }
    ensures { IfOk result (Finds (OfSome (owner_of (marks_in p.now) file node.now) (IsMethodNamed (unit_in p.now) (declared_by (unit_in p.now) (marks_in p.now)) (last_spelled (unit_in p.now) file node.now)))) }
{
    match owner_of(p, file, node) {
        Some(of) => {
            let named = selected_from(alloc, p, p.subject.spelled_text(file, node.last), of)?;
            Ok(named)
        }
        None => Ok(None),
    }
}

fn names_method(alloc: Global, p: &Pass, file: u32, node: &Node) -> Result<Option<Named>, NoMemory>
    requires { IsPass p.now }
    ensures { IfOk result (Finds (NamesMethod (unit_in p.now) (marks_in p.now) file node.now)) }
{
    if is_selector(node.kind) {
        let named = owned_method(alloc, p, file, node)?;
        return Ok(named);
    }
    Ok(None)
}

fn node_names_method(alloc: Global, p: &Pass, file: u32, n: u32) -> Result<Option<Named>, NoMemory>
    requires { IsPass p.now }
    ensures { IfOk result (Finds (NodeNamesMethod (unit_in p.now) (marks_in p.now) file n)) }
{
    match node_of(p.subject.nodes_at(file), n) {
        Some(node) => {
            let named = names_method(alloc, p, file, node)?;
            Ok(named)
        }
        None => Ok(None),
    }
}

// ---- both

fn copied(alloc: Global, x: Function) -> Result<Named, NoMemory>
    ensures { IfOk result (λ named. Some (x.entry.path.now, x.entry.name.now) ≡ found_named (Some named)) }
{
    let path = Text::of(alloc, x.path)?;
    let name = Text::of(alloc, x.name)?;
    Ok(Named { path, name })
}

/// The function or method that a node names: no method of an interface, and none of a type before the dot.
pub fn named_at(alloc: Global, p: &Pass, file: u32, n: u32) -> Result<Option<Named>, NoMemory>
    requires { IsPass p.now }
    ensures { IfOk result (Finds (IsNamed (unit_in p.now) (marks_in p.now) file n)) }
{
    match function_at(p, file, n) {
        Some(x) => {
            let named = copied(alloc, x)?;
            Ok(Some(named))
        }
        None => {
            let named = node_names_method(alloc, p, file, n)?;
            Ok(named)
        }
    }
}
