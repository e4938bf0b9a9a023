//! Lists of parameters.
ghost use Rattle.std.specs.Prelude.{◌≡◌, ◌++◌, ◌∷◌, [], ◌-◌, map, length, ◌&&◌, OnOk, IfOk};
ghost use Rattle.mark_walk.specs.Telling.{tell};
ghost use Rattle.type_model.specs.GoTypes.{AreBelow, types_at};
ghost use Rattle.type_model.specs.Tables.{types_in, count};
ghost use Rattle.rule_words.specs.Scenes.{sight, type_in, IsTypeOf, part_in, parts_in, IsSeenOf, AreSeenOf};
ghost use Rattle.rule_words.specs.Steps.{step_in, IsStepOf};
ghost use Rattle.typed_tree.specs.Basics.{HasBasics};
ghost use Rattle.package_objects.specs.Declares.{part};
ghost use Rattle.type_rules.specs.Signatures.{types_from, is_good, are_good, type_of_part, is_named_entry, entry_count, entry_count_at, repeated_type, param_types, nth_types, is_spread, is_variadic, params_rule};

use go_tree::{Node, NodeKind};
use gv_base::{Kind, NoMemory, Row};
use package_objects::{count, kind_of, node_of, part_count, part_of};
use rule_words::good::{basic_type, gives_type, known, part_at, silent};
use rule_words::{Seen, Step};
use std::alloc::Global;
use type_model::{Signature, Term, TypeId};
use typed_marks::State;

fn is_good(s: &State, p: Seen) -> bool
    requires { IsSeenOf s.now p }
    ensures { result ≡ is_good (part_in s.now p) }
{
    match known(s, p.mark) {
        Some(_) => true,
        None => false,
    }
}

fn both(a: bool, b: bool) -> bool
    ensures { result ≡ (a && b) }
{
    a && b
}

/// Whether the first n are good.
pub fn are_good(s: &State, parts: &[Seen], n: usize) -> bool
    requires { AreSeenOf s.now parts.now }
    ensures { result ≡ are_good (parts_in s.now parts.now) n }
{
    let mut good = true;
    for i in 0..n {
        good = both(good, is_good(s, part_at(s, parts, i)));
    }
    good
}

/// The type of a good part.
pub fn type_of_part(s: &State, p: Seen) -> TypeId
    requires basics { HasBasics s.now.table }
    requires seen { IsSeenOf s.now p }
    ensures is { type_in s.now result ≡ type_of_part (part_in s.now p) }
    ensures within { IsTypeOf s.now result }
{
    match known(s, p.mark) {
        Some(x) => x.of,
        None => basic_type(s, Kind::Bool),
    }
}

fn is_named_entry(kind: NodeKind) -> bool
    ensures { result ≡ is_named_entry kind }
{
    match kind {
        NodeKind::Param => true,
        _ => false,
    }
}

fn entry_count(nodes: &[Node], node: &Node) -> usize
    ensures { result ≡ entry_count nodes.now node.now }
{
    if is_named_entry(node.kind) {
        count(nodes, part_of(node, 0))
    } else {
        1
    }
}

fn entry_count_in(nodes: &[Node], n: u32) -> usize
    ensures { result ≡ entry_count_at nodes.now (Some n) }
{
    match node_of(nodes, n) {
        Some(node) => entry_count(nodes, node),
        None => 1,
    }
}

/// How many parameters an entry declares.
pub fn entry_count_at(nodes: &[Node], n: Option<u32>) -> usize
    ensures { result ≡ entry_count_at nodes.now n }
{
    match n {
        Some(n) => entry_count_in(nodes, n),
        None => 1,
    }
}

fn add_type(s: &State, of: TypeId, out: &mut Vec<TypeId>) -> Result<(), NoMemory>
    requires of { IsTypeOf s.now of }
    requires below { AreBelow (count s.now.table) out.old.items }
    ensures is { OnOk result (map (type_in s.now) out.new.items ≡ map (type_in s.now) out.old.items ++ type_in s.now of ∷ []) }
    ensures below { OnOk result (AreBelow (count s.now.table) out.new.items) }
{
    out.push(of)?;
    Ok(())
}

fn add_types(s: &State, of: TypeId, n: usize, out: &mut Vec<TypeId>) -> Result<(), NoMemory>
    requires of { IsTypeOf s.now of }
    requires below { AreBelow (count s.now.table) out.old.items }
    ensures is { OnOk result (map (type_in s.now) out.new.items ≡ map (type_in s.now) out.old.items ++ repeated_type (type_in s.now of) n) }
    ensures below { OnOk result (AreBelow (count s.now.table) out.new.items) }
{
    for i in 0..n {
        let _ = i;
        add_type(s, of, out)?;
    }
    Ok(())
}

/// Adds the types of the parameters of an entry.
fn add_entry(
    s: &State,
    nodes: &[Node],
    node: &Node,
    parts: &[Seen],
    i: usize,
    out: &mut Vec<TypeId>,
) -> Result<(), NoMemory>
    requires basics { HasBasics s.now.table }
    requires parts { AreSeenOf s.now parts.now }
    requires below { AreBelow (count s.now.table) out.old.items }
    ensures is { OnOk result (map (type_in s.now) out.new.items ≡ map (type_in s.now) out.old.items ++ nth_types nodes.now node.now (parts_in s.now parts.now) i) }
    ensures below { OnOk result (AreBelow (count s.now.table) out.new.items) }
{
    let of = type_of_part(s, part_at(s, parts, i));
    let n = entry_count_at(nodes, part_of(node, i));
    add_types(s, of, n, out)?;
    Ok(())
}

/// The types of the parameters.
fn param_types(
    alloc: Global,
    s: &State,
    nodes: &[Node],
    node: &Node,
    parts: &[Seen],
) -> Result<Vec<TypeId>, NoMemory>
    requires basics { HasBasics s.now.table }
    requires parts { AreSeenOf s.now parts.now }
    ensures are { IfOk result (λ list. map (type_in s.now) list.items ≡ param_types nodes.now node.now (parts_in s.now parts.now)) }
    ensures below { IfOk result (λ list. AreBelow (count s.now.table) list.items) }
{
    let mut out = Vec::new(alloc);
    for i in 0..part_count(node) {
        add_entry(s, nodes, node, parts, i, &mut out)?;
    }
    Ok(out)
}

fn param_row(
    alloc: Global,
    s: &State,
    nodes: &[Node],
    node: &Node,
    parts: &[Seen],
) -> Result<Vec<TypeId>, NoMemory>
    requires basics { HasBasics s.now.table }
    requires parts { AreSeenOf s.now parts.now }
    ensures are { IfOk result (λ list. types_at (types_in s.now.table) list.items ≡ types_from (param_types nodes.now node.now (parts_in s.now parts.now))) }
    ensures below { IfOk result (λ list. AreBelow (count s.now.table) list.items) }
{
    let list = param_types(alloc, s, nodes, node, parts)?;
    Ok(list)
}

fn is_spread(kind: NodeKind) -> bool
    ensures { result ≡ is_spread kind }
{
    match kind {
        NodeKind::SpreadParam => true,
        NodeKind::Variadic => true,
        _ => false,
    }
}

fn last_of(node: &Node) -> Option<u32>
    ensures { result ≡ part node.now (length node.now.parts - 1) }
{
    let n = part_count(node);
    if n == 0 {
        part_of(node, 0)
    } else {
        part_of(node, n - 1)
    }
}

fn is_variadic(nodes: &[Node], node: &Node) -> bool
    ensures { result ≡ is_variadic nodes.now node.now }
{
    match last_of(node) {
        Some(n) => is_spread(kind_of(nodes, n)),
        None => false,
    }
}

/// A list of parameters.
pub fn params(
    alloc: Global,
    s: &State,
    nodes: &[Node],
    node: &Node,
    parts: &[Seen],
) -> Result<Step, NoMemory>
    requires basics { HasBasics s.now.table }
    requires parts { AreSeenOf s.now parts.now }
    ensures is { IfOk result (λ step. step_in s.now step ≡ tell (sight s.now) (params_rule nodes.now node.now (parts_in s.now parts.now))) }
    ensures over { IfOk result (IsStepOf s.now) }
{
    if !are_good(s, parts, part_count(node)) {
        return Ok(silent());
    }
    let types = param_row(alloc, s, nodes, node, parts)?;
    Ok(gives_type(Term::Func(Signature {
        params: Row::new(types),
        results: Row::new(Vec::new(alloc)),
        variadic: is_variadic(nodes, node),
    })))
}
