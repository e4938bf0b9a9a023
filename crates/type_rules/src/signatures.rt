//! Signatures (Go 1.17, "Function types").
ghost use Rattle.std.specs.Prelude.{◌≡◌, ◌<◌, ◌∷◌, [], IfOk, IfSome, option_map, Some};
ghost use Rattle.std.specs.Option.{option_map_or};
ghost use Rattle.mark_walk.specs.Telling.{tell, Says};
ghost use Rattle.typed_marks.specs.declared.state.State.{State};
ghost use Rattle.typed_tree.specs.declared.mark.Mode.TheVariants as mode;
ghost use Rattle.rule_words.specs.Answers.{typed};
ghost use Rattle.type_model.specs.GoTypes.{AreBelow, types_at, NoType};
ghost use Rattle.type_model.specs.Tables.{types_in, count, IsTable};
ghost use Rattle.package_objects.specs.Declares.{is_params, is_block};
ghost use Rattle.unit_read.specs.Subjects.{unit_of};
ghost use Rattle.rule_words.specs.Scenes.{sight, IsScene, said, IsMarkOf, type_in, IsTypeOf};
ghost use Rattle.rule_words.specs.Steps.{step_in, IsStepOf};
ghost use Rattle.rule_words.specs.Good.{known_of, AreFactsOf};
ghost use Rattle.type_rules.specs.Signatures.{params_told, results_of, signature_type, joined_rule, resulting_rule, unless_block, results_node, results_rule, taking_rule, from_params, params_ask, signature_rule};
ghost use Rattle.type_rules.specs.Taken.{taken_in, IsTakenOf};

use crate::copies::types_copied;
use crate::taken::Taken;
use go_tree::{Node, NodeKind};
use gv_base::{NoMemory, Row};
use package_objects::{kind_of, part_of};
use rule_words::good::{gives_type, known, silent};
use rule_words::{Step, look};
use std::alloc::Global;
use type_model::{Signature, Term, TypeId};
use type_questions::Found;
use typed_marks::{Facts, Mark, Stage, State};
use unit_read::Subject;

fn taken(alloc: Global, signature: &Signature) -> Result<Taken, NoMemory>
    ensures types { IfOk result (λ t. t.types.items ≡ signature.now.params) }
    ensures variadic { IfOk result (λ t. t.variadic ≡ signature.now.variadic) }
{
    let types = types_copied(alloc, signature.params.as_slice())?;
    Ok(Taken {
        types,
        variadic: signature.variadic,
    })
}

/// The parameters that the mark of a list has.
fn params_told(alloc: Global, s: &State, of: TypeId) -> Result<Option<Taken>, NoMemory>
    requires state { IsTable s.now.table }
    requires within { IsTypeOf s.now of }
    ensures is { IfOk result (λ o. option_map (taken_in s.now) o ≡ params_told (type_in s.now of)) }
    ensures over { IfOk result (λ o. IfSome o (IsTakenOf s.now)) }
{
    match s.table.term(of) {
        Term::Func(signature) => {
            let t = taken(alloc, signature)?;
            Ok(Some(t))
        }
        _ => Ok(None),
    }
}

fn is_params(kind: NodeKind) -> bool
    ensures { result ≡ is_params kind }
{
    match kind {
        NodeKind::Params => true,
        _ => false,
    }
}

fn is_block(kind: NodeKind) -> bool
    ensures { result ≡ is_block kind }
{
    match kind {
        NodeKind::Block => true,
        _ => false,
    }
}

fn one(alloc: Global, of: TypeId) -> Result<Vec<TypeId>, NoMemory>
    ensures { IfOk result (λ list. list.items ≡ of ∷ []) }
{
    let mut list = Vec::new(alloc);
    list.push(of)?;
    Ok(list)
}

fn listed(alloc: Global, s: &State, of: TypeId) -> Result<Vec<TypeId>, NoMemory>
    requires state { IsTable s.now.table }
    requires within { IsTypeOf s.now of }
    ensures is { IfOk result (λ list. types_at (types_in s.now.table) list.items ≡ option_map_or (λ ps. ps.types) (params_told (type_in s.now of)) NoType) }
    ensures below { IfOk result (λ list. AreBelow (count s.now.table) list.items) }
{
    let told = params_told(alloc, s, of)?;
    match told {
        Some(t) => Ok(t.types),
        None => Ok(Vec::new(alloc)),
    }
}

/// The results: those of a list, or one type.
fn results_of(alloc: Global, s: &State, kind: NodeKind, of: TypeId) -> Result<Vec<TypeId>, NoMemory>
    requires state { IsTable s.now.table }
    requires within { IsTypeOf s.now of }
    ensures is { IfOk result (λ list. types_at (types_in s.now.table) list.items ≡ results_of kind (type_in s.now of)) }
    ensures below { IfOk result (λ list. AreBelow (count s.now.table) list.items) }
{
    if is_params(kind) {
        let list = listed(alloc, s, of)?;
        Ok(list)
    } else {
        let list = one(alloc, of)?;
        Ok(list)
    }
}

fn function(t: Taken, results: Vec<TypeId>) -> Step
    ensures is { (s : State) → step_in s result ≡ Says (typed mode.TypeName (signature_type (taken_in s t) (types_at (types_in s.table) results.items))) }
    ensures over { (s : State) → IsTakenOf s t → AreBelow (count s.table) results.items → IsStepOf s result }
{
    gives_type(Term::Func(Signature {
        params: Row::new(t.types),
        results: Row::new(results),
        variadic: t.variadic,
    }))
}

fn joined(alloc: Global, s: &State, kind: NodeKind, t: Taken, y: Facts) -> Result<Step, NoMemory>
    requires state { IsTable s.now.table }
    requires taken { IsTakenOf s.now t }
    requires facts { AreFactsOf s.now y }
    ensures is { IfOk result (λ step. step_in s.now step ≡ tell (sight s.now) (joined_rule kind (taken_in s.now t) (known_of s.now y))) }
    ensures over { IfOk result (IsStepOf s.now) }
{
    let results = results_of(alloc, s, kind, y.of)?;
    Ok(function(t, results))
}

fn resulting(alloc: Global, s: &State, kind: NodeKind, t: Taken, m: Mark) -> Result<Step, NoMemory>
    requires state { IsTable s.now.table }
    requires taken { IsTakenOf s.now t }
    requires mark { IsMarkOf s.now m }
    ensures is { IfOk result (λ step. step_in s.now step ≡ tell (sight s.now) (resulting_rule kind (taken_in s.now t) (said s.now m))) }
    ensures over { IfOk result (IsStepOf s.now) }
{
    match known(s, m) {
        Some(y) => {
            let step = joined(alloc, s, kind, t, y)?;
            Ok(step)
        }
        None => Ok(silent()),
    }
}

fn with_results(
    alloc: Global,
    u: &Subject,
    s: &State,
    block: usize,
    nodes: &[Node],
    n: u32,
    t: Taken,
) -> Result<Step, NoMemory>
    requires scene { IsScene u.now s.now }
    requires taken { IsTakenOf s.now t }
    ensures is { IfOk result (λ step. step_in s.now step ≡ tell (sight s.now) (results_rule (unit_of u.now) block nodes.now (Some n) (taken_in s.now t))) }
    ensures over { IfOk result (IsStepOf s.now) }
{
    match look(u, s, Stage::Placed, block, n) {
        Found::Is(m) => {
            let step = resulting(alloc, s, kind_of(nodes, n), t, m)?;
            Ok(step)
        }
        Found::Wait(item) => Ok(Step::Waits(item)),
    }
}

fn results(
    alloc: Global,
    u: &Subject,
    s: &State,
    block: usize,
    nodes: &[Node],
    node: Option<u32>,
    t: Taken,
) -> Result<Step, NoMemory>
    requires scene { IsScene u.now s.now }
    requires taken { IsTakenOf s.now t }
    ensures is { IfOk result (λ step. step_in s.now step ≡ tell (sight s.now) (results_rule (unit_of u.now) block nodes.now node (taken_in s.now t))) }
    ensures over { IfOk result (IsStepOf s.now) }
{
    match node {
        Some(n) => {
            let step = with_results(alloc, u, s, block, nodes, n, t)?;
            Ok(step)
        }
        None => Ok(function(t, Vec::new(alloc))),
    }
}

fn taking(
    alloc: Global,
    u: &Subject,
    s: &State,
    block: usize,
    nodes: &[Node],
    node: Option<u32>,
    x: Facts,
) -> Result<Step, NoMemory>
    requires scene { IsScene u.now s.now }
    requires facts { AreFactsOf s.now x }
    ensures is { IfOk result (λ step. step_in s.now step ≡ tell (sight s.now) (taking_rule (unit_of u.now) block nodes.now node (known_of s.now x))) }
    ensures over { IfOk result (IsStepOf s.now) }
{
    let told = params_told(alloc, s, x.of)?;
    match told {
        Some(t) => {
            let step = results(alloc, u, s, block, nodes, node, t)?;
            Ok(step)
        }
        None => Ok(silent()),
    }
}

fn from_params(
    alloc: Global,
    u: &Subject,
    s: &State,
    block: usize,
    nodes: &[Node],
    node: Option<u32>,
    m: Mark,
) -> Result<Step, NoMemory>
    requires scene { IsScene u.now s.now }
    requires mark { IsMarkOf s.now m }
    ensures is { IfOk result (λ step. step_in s.now step ≡ tell (sight s.now) (from_params (unit_of u.now) block nodes.now node (said s.now m))) }
    ensures over { IfOk result (IsStepOf s.now) }
{
    match known(s, m) {
        Some(x) => {
            let step = taking(alloc, u, s, block, nodes, node, x)?;
            Ok(step)
        }
        None => Ok(silent()),
    }
}

fn params_asked(
    alloc: Global,
    u: &Subject,
    s: &State,
    block: usize,
    nodes: &[Node],
    node: Option<u32>,
    n: u32,
) -> Result<Step, NoMemory>
    requires scene { IsScene u.now s.now }
    ensures is { IfOk result (λ step. step_in s.now step ≡ tell (sight s.now) (params_ask (unit_of u.now) block nodes.now node n)) }
    ensures over { IfOk result (IsStepOf s.now) }
{
    match look(u, s, Stage::Placed, block, n) {
        Found::Is(m) => {
            let step = from_params(alloc, u, s, block, nodes, node, m)?;
            Ok(step)
        }
        Found::Wait(item) => Ok(Step::Waits(item)),
    }
}

fn unless_block(nodes: &[Node], n: u32) -> Option<u32>
    ensures { result ≡ unless_block nodes.now n }
{
    if is_block(kind_of(nodes, n)) {
        None
    } else {
        Some(n)
    }
}

/// The node of the results, if there are any.
pub fn results_node(nodes: &[Node], node: &Node, i: usize) -> Option<u32>
    ensures { result ≡ results_node nodes.now node.now i }
{
    match part_of(node, i) {
        Some(n) => unless_block(nodes, n),
        None => None,
    }
}

/// The type of a function whose parameters are the part before this one.
pub fn judge_signature(
    alloc: Global,
    u: &Subject,
    s: &State,
    block: usize,
    nodes: &[Node],
    node: &Node,
    i: usize,
) -> Result<Step, NoMemory>
    requires scene { IsScene u.now s.now }
    requires few { i < 4 }
    ensures is { IfOk result (λ step. step_in s.now step ≡ tell (sight s.now) (signature_rule (unit_of u.now) block nodes.now node.now i)) }
    ensures over { IfOk result (IsStepOf s.now) }
{
    match part_of(node, i) {
        Some(n) => {
            let results = results_node(nodes, node, i + 1);
            let step = params_asked(alloc, u, s, block, nodes, results, n)?;
            Ok(step)
        }
        None => Ok(silent()),
    }
}
