//! What an interface embeds, beside its other elements (Go 1.17, "Interface types").
ghost use Rattle.std.specs.Prelude.{◌≡◌, ◌++◌, ◌∷◌, [], true, nat_lt, IfOk, OnOk, map, option_map, slice_get};
ghost use Rattle.mark_walk.specs.Telling.{tell};
ghost use Rattle.type_model.specs.GoTypes.{MethodsBelow};
ghost use Rattle.type_model.specs.Tables.{count};
ghost use Rattle.typed_marks.specs.States.{IsState};
ghost use Rattle.typed_tree.specs.Basics.{HasBasics};
ghost use Rattle.unit_read.specs.Subjects.{unit_of, IsRead};
ghost use Rattle.rule_words.specs.declared.read.How.TheVariants as h;
ghost use Rattle.rule_words.specs.Answers.{is_plain};
ghost use Rattle.rule_words.specs.Parts.{read_as};
ghost use Rattle.rule_words.specs.Scenes.{sight, IsScene, said, IsMarkOf, type_in, IsTypeOf, MayBeTypeOf, part_in, IsSeenOf, parts_in, AreSeenOf};
ghost use Rattle.rule_words.specs.Steps.{step_in, IsStepOf};
ghost use Rattle.rule_words.specs.Good.{known_of, AreFactsOf};
ghost use Rattle.type_rules.specs.Elements.{method_in};
ghost use Rattle.type_rules.specs.Joining.{comes_before, other_reads, nth_reads, others, clash_at, nth_clash, clash_among, joined, after_others, elem_of, elem_with, elem_known, elem_by, element_rule};

use crate::differing::{clash, either};
use crate::embedding::{is_interface, stays};
use crate::interfaces::{add_at, is_method, methods_told};
use go_tree::Node;
use gv_base::NoMemory;
use package_objects::{kind_of, part_count, part_of};
use rule_words::good::{broken, known, part_at, silent};
use rule_words::{How, Read, Seen, Step, parts, under_of};
use std::alloc::Global;
use type_model::{Method, TypeId};
use type_questions::Found;
use typed_marks::{Facts, Mark, Stage, State};
use typed_tree::{DUPLICATE_MEMBER, EMBEDS_NO_INTERFACE};
use unit_read::Subject;

fn is_below(j: usize, i: usize) -> bool
    ensures { result ≡ nat_lt j i }
{
    j < i
}

fn comes_before(nodes: &[Node], i: usize, j: usize, n: u32) -> bool
    ensures { result ≡ comes_before nodes.now i j n }
{
    either(is_method(kind_of(nodes, n)), is_below(j, i))
}

fn add_read(n: u32, out: &mut Vec<Read>) -> Result<(), NoMemory>
    ensures { OnOk result (out.new.items ≡ out.old.items ++ read_as h.TypeAndUnder n ∷ []) }
{
    out.push(Read {
        how: How::TypeAndUnder,
        node: n,
    })?;
    Ok(())
}

fn add_other(
    nodes: &[Node],
    i: usize,
    j: usize,
    n: u32,
    out: &mut Vec<Read>,
) -> Result<(), NoMemory>
    ensures { OnOk result (out.new.items ≡ out.old.items ++ other_reads nodes.now i j n) }
{
    if comes_before(nodes, i, j, n) {
        add_read(n, out)?;
    }
    Ok(())
}

fn add_nth(
    nodes: &[Node],
    around: &Node,
    i: usize,
    j: usize,
    out: &mut Vec<Read>,
) -> Result<(), NoMemory>
    ensures { OnOk result (out.new.items ≡ out.old.items ++ nth_reads nodes.now around.now i j) }
{
    if let Some(n) = part_of(around, j) {
        add_other(nodes, i, j, n, out)?;
    }
    Ok(())
}

/// What comes before the element of this number.
fn others(alloc: Global, nodes: &[Node], around: &Node, i: usize) -> Result<Vec<Read>, NoMemory>
    ensures { IfOk result (λ list. list.items ≡ others nodes.now around.now i) }
{
    let mut out = Vec::new(alloc);
    for j in 0..part_count(around) {
        add_nth(nodes, around, i, j, &mut out)?;
    }
    Ok(out)
}

fn clash_at(
    alloc: Global,
    u: &Subject,
    s: &State,
    file: u32,
    methods: &[Method],
    p: Seen,
    r: Read,
) -> Result<bool, NoMemory>
    requires read { IsRead u.now }
    requires state { IsState s.now }
    requires basics { HasBasics s.now.table }
    requires methods { MethodsBelow (count s.now.table) methods.now }
    requires part { IsSeenOf s.now p }
    ensures { IfOk result (λ found. found ≡ clash_at (unit_of u.now) file (map (method_in s.now) methods.now) (part_in s.now p) r) }
{
    let mut list = Vec::new(alloc);
    add_at(alloc, u, s, file, p, r.node, &mut list)?;
    Ok(clash(s, &list, methods))
}

fn read_at(reads: &[Read], k: usize) -> Option<Read>
    ensures { result ≡ slice_get reads.now k }
{
    reads.get(k).copied()
}

fn nth_clash(
    alloc: Global,
    u: &Subject,
    s: &State,
    file: u32,
    methods: &[Method],
    reads: &[Read],
    parts: &[Seen],
    k: usize,
) -> Result<bool, NoMemory>
    requires read { IsRead u.now }
    requires state { IsState s.now }
    requires basics { HasBasics s.now.table }
    requires methods { MethodsBelow (count s.now.table) methods.now }
    requires parts { AreSeenOf s.now parts.now }
    ensures { IfOk result (λ found. found ≡ nth_clash (unit_of u.now) file (map (method_in s.now) methods.now) reads.now (parts_in s.now parts.now) k) }
{
    let p = part_at(s, parts, k);
    match read_at(reads, k) {
        Some(r) => {
            let found = clash_at(alloc, u, s, file, methods, p, r)?;
            Ok(found)
        }
        None => Ok(false),
    }
}

/// Whether methods go together with those of the first n elements that were read.
fn clash_among(
    alloc: Global,
    u: &Subject,
    s: &State,
    file: u32,
    methods: &[Method],
    reads: &[Read],
    parts: &[Seen],
    n: usize,
) -> Result<bool, NoMemory>
    requires read { IsRead u.now }
    requires state { IsState s.now }
    requires basics { HasBasics s.now.table }
    requires methods { MethodsBelow (count s.now.table) methods.now }
    requires parts { AreSeenOf s.now parts.now }
    ensures { IfOk result (λ found. found ≡ clash_among (unit_of u.now) file (map (method_in s.now) methods.now) reads.now (parts_in s.now parts.now) n) }
{
    let mut found = false;
    for k in 0..n {
        let here = nth_clash(alloc, u, s, file, methods, reads, parts, k)?;
        found = either(found, here);
    }
    Ok(found)
}

fn joined(
    alloc: Global,
    u: &Subject,
    s: &State,
    file: u32,
    reads: &[Read],
    m: Mark,
    methods: &[Method],
    parts: &[Seen],
) -> Result<Step, NoMemory>
    requires read { IsRead u.now }
    requires state { IsState s.now }
    requires basics { HasBasics s.now.table }
    requires mark { IsMarkOf s.now m }
    requires plain { is_plain m ≡ true }
    requires methods { MethodsBelow (count s.now.table) methods.now }
    requires parts { AreSeenOf s.now parts.now }
    ensures is { IfOk result (λ step. step_in s.now step ≡ tell (sight s.now) (joined (unit_of u.now) file reads.now (said s.now m) (map (method_in s.now) methods.now) (parts_in s.now parts.now))) }
    ensures over { IfOk result (IsStepOf s.now) }
{
    let found = clash_among(alloc, u, s, file, methods, reads, parts, reads.len())?;
    if found {
        Ok(broken(DUPLICATE_MEMBER))
    } else {
        Ok(stays(m))
    }
}

/// E14, once what comes before is read.
fn after_others(
    alloc: Global,
    u: &Subject,
    s: &State,
    block: usize,
    file: u32,
    reads: &[Read],
    m: Mark,
    under: TypeId,
) -> Result<Step, NoMemory>
    requires scene { IsScene u.now s.now }
    requires mark { IsMarkOf s.now m }
    requires plain { is_plain m ≡ true }
    requires under { IsTypeOf s.now under }
    ensures is { IfOk result (λ step. step_in s.now step ≡ tell (sight s.now) (after_others (unit_of u.now) block file reads.now (said s.now m) (type_in s.now under))) }
    ensures over { IfOk result (IsStepOf s.now) }
{
    let methods = methods_told(s, under);
    let found = parts(alloc, u, s, Stage::Placed, block, reads)?;
    match found {
        Found::Is(list) => {
            let step = joined(alloc, u, s, file, reads, m, methods, &list)?;
            Ok(step)
        }
        Found::Wait(item) => Ok(Step::Waits(item)),
    }
}

fn elem_of(
    alloc: Global,
    u: &Subject,
    s: &State,
    block: usize,
    file: u32,
    reads: &[Read],
    m: Mark,
    under: TypeId,
) -> Result<Step, NoMemory>
    requires scene { IsScene u.now s.now }
    requires mark { IsMarkOf s.now m }
    requires plain { is_plain m ≡ true }
    requires under { IsTypeOf s.now under }
    ensures is { IfOk result (λ step. step_in s.now step ≡ tell (sight s.now) (elem_of (unit_of u.now) block file reads.now (said s.now m) (type_in s.now under))) }
    ensures over { IfOk result (IsStepOf s.now) }
{
    if is_interface(s, under) {
        let step = after_others(alloc, u, s, block, file, reads, m, under)?;
        Ok(step)
    } else {
        Ok(broken(EMBEDS_NO_INTERFACE))
    }
}

fn elem_with(
    alloc: Global,
    u: &Subject,
    s: &State,
    block: usize,
    file: u32,
    reads: &[Read],
    m: Mark,
    under: Option<TypeId>,
) -> Result<Step, NoMemory>
    requires scene { IsScene u.now s.now }
    requires mark { IsMarkOf s.now m }
    requires plain { is_plain m ≡ true }
    requires under { MayBeTypeOf s.now under }
    ensures is { IfOk result (λ step. step_in s.now step ≡ tell (sight s.now) (elem_with (unit_of u.now) block file reads.now (said s.now m) (option_map (type_in s.now) under))) }
    ensures over { IfOk result (IsStepOf s.now) }
{
    match under {
        Some(of) => {
            let step = elem_of(alloc, u, s, block, file, reads, m, of)?;
            Ok(step)
        }
        None => Ok(silent()),
    }
}

fn elem_known(
    alloc: Global,
    u: &Subject,
    s: &State,
    block: usize,
    file: u32,
    reads: &[Read],
    m: Mark,
    x: Facts,
) -> Result<Step, NoMemory>
    requires scene { IsScene u.now s.now }
    requires mark { IsMarkOf s.now m }
    requires plain { is_plain m ≡ true }
    requires facts { AreFactsOf s.now x }
    ensures is { IfOk result (λ step. step_in s.now step ≡ tell (sight s.now) (elem_known (unit_of u.now) block file reads.now (said s.now m) (known_of s.now x))) }
    ensures over { IfOk result (IsStepOf s.now) }
{
    match under_of(u, s, x.of) {
        Found::Is(under) => {
            let step = elem_with(alloc, u, s, block, file, reads, m, under)?;
            Ok(step)
        }
        Found::Wait(item) => Ok(Step::Waits(item)),
    }
}

fn elem_by(
    alloc: Global,
    u: &Subject,
    s: &State,
    block: usize,
    file: u32,
    reads: &[Read],
    m: Mark,
) -> Result<Step, NoMemory>
    requires scene { IsScene u.now s.now }
    requires mark { IsMarkOf s.now m }
    requires plain { is_plain m ≡ true }
    ensures is { IfOk result (λ step. step_in s.now step ≡ tell (sight s.now) (elem_by (unit_of u.now) block file reads.now (said s.now m))) }
    ensures over { IfOk result (IsStepOf s.now) }
{
    match known(s, m) {
        Some(x) => {
            let step = elem_known(alloc, u, s, block, file, reads, m, x)?;
            Ok(step)
        }
        None => Ok(stays(m)),
    }
}

/// The mark of a type name that is an element of an interface, by its number and from its mark as a type: E15, then E14 where a method of it stands
/// with another signature in what comes before.
pub fn judge_element(
    alloc: Global,
    u: &Subject,
    s: &State,
    block: usize,
    file: u32,
    around: &Node,
    i: usize,
    m: Mark,
) -> Result<Step, NoMemory>
    requires scene { IsScene u.now s.now }
    requires mark { IsMarkOf s.now m }
    requires plain { is_plain m ≡ true }
    ensures is { IfOk result (λ step. step_in s.now step ≡ tell (sight s.now) (element_rule (unit_of u.now) block file around.now i (said s.now m))) }
    ensures over { IfOk result (IsStepOf s.now) }
{
    let reads = others(alloc, u.nodes_at(file), around, i)?;
    let step = elem_by(alloc, u, s, block, file, &reads, m)?;
    Ok(step)
}
