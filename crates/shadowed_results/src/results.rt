//! Which names are those of results.
ghost use Rattle.std.specs.Prelude.{◌≡◌, ◌==◌, ◌&&◌, ◌<◌, ◌≤◌, ℕ, Bool, nat_lt, IfOk, length, get_or};
ghost use Rattle.go_tree.specs.declared.tree.Node.{Node};
ghost use Rattle.node_values.specs.Parents.{AreParents};
ghost use Rattle.node_values.specs.Trees.{IsTree};
ghost use Rattle.scopes.specs.Regions.{form_of, is_names, is_params, is_param};
ghost use Rattle.shadowed_results.specs.declared.results.Stage.TheVariants as s;
ghost use Rattle.shadowed_results.specs.Kinds.{bare_parts, from_last};
ghost use Rattle.shadowed_results.specs.Stages.{lists_results, is_first, stage_if, passed, stage_by, stage_rule, AreStages, is_named};

use crate::functions::from_last;
use go_tree::{Node, NodeKind, is_function};
use gv_base::NoMemory;
use node_values::{Hands, hand_down};
use scopes::{Form, role};
use std::alloc::Global;

/// What a node is in the list of a function's results.
#[derive(Clone, Copy, Debug, PartialEq, Eq, Drop)]
pub enum Stage {
    Outside,
    /// The list.
    List,
    /// A parameter in it, or a type alone.
    Parameter,
    /// The names of a parameter, together or one of them.
    Names,
}

fn is_params(form: Form) -> bool
    ensures { result ≡ is_params form }
{
    match form {
        Form::Params => true,
        Form::Name | Form::Names | Form::Param | Form::Bind | Form::Other => false,
    }
}

pub(crate) fn is_param(form: Form) -> bool
    ensures { result ≡ is_param form }
{
    match form {
        Form::Param => true,
        Form::Name | Form::Names | Form::Params | Form::Bind | Form::Other => false,
    }
}

fn is_names(form: Form) -> bool
    ensures { result ≡ is_names form }
{
    match form {
        Form::Names => true,
        Form::Name | Form::Params | Form::Param | Form::Bind | Form::Other => false,
    }
}

pub(crate) fn bare_parts(kind: NodeKind) -> usize
    ensures { result ≡ bare_parts kind }
{
    match kind {
        NodeKind::FuncDecl => 3,
        NodeKind::MethodDecl => 4,
        _ => 2,
    }
}

fn second_last(parts: &[u32], n: usize) -> bool
    requires { 2 ≤ length parts.now }
    ensures { result ≡ (from_last parts.now 2 == n) }
{
    from_last(parts, 2) as usize == n
}

fn lists_results(kind: NodeKind, parts: &[u32], n: usize) -> bool
    ensures { result ≡ lists_results kind parts.now n }
{
    if parts.len() < 2 {
        return false;
    }
    if bare_parts(kind) >= parts.len() {
        return false;
    }
    second_last(parts, n)
}

fn is_first(parts: &[u32], n: usize) -> bool
    ensures { result ≡ is_first parts.now n }
{
    match parts.first() {
        Some(part) => *part as usize == n,
        None => false,
    }
}

fn stage_if(test: bool, stage: Stage) -> Stage
    ensures { result ≡ stage_if test stage }
{
    if test { stage } else { Stage::Outside }
}

fn begins_with(kind: NodeKind, parts: &[u32], n: usize) -> bool
    ensures { result ≡ (is_param (form_of kind) && is_first parts.now n) }
{
    if is_param(role(kind).form) {
        return is_first(parts, n);
    }
    false
}

fn passed(own: Stage, kind: NodeKind, parts: &[u32], n: usize) -> Stage
    ensures { result ≡ passed own kind parts.now n }
{
    match own {
        Stage::Outside => Stage::Outside,
        Stage::List => stage_if(is_params(role(kind).form), Stage::Parameter),
        Stage::Parameter => stage_if(begins_with(kind, parts, n), Stage::Names),
        Stage::Names => stage_if(is_names(role(kind).form), Stage::Names),
    }
}

fn stage_by(kind: NodeKind, parts: &[u32], n: usize, own: Stage) -> Stage
    ensures { result ≡ stage_by kind parts.now n own }
{
    if is_function(kind) {
        return stage_if(lists_results(kind, parts, n), Stage::List);
    }
    passed(own, kind, parts, n)
}

struct Stages;

impl Hands<Stage> for Stages {
    ghost rule = { λ r. stage_rule };

    ghost top = { λ r. s.Outside };

    fn top(&self) -> Stage {
        Stage::Outside
    }

    fn hand(&self, p: usize, node: &Node, n: usize, own: Stage) -> Stage {
        let _ = p;
        stage_by(node.kind, node.parts.as_slice(), n, own)
    }
}

/// What each node is in the list of a function's results.
pub(crate) fn stages_of(
    alloc: Global,
    nodes: &[Node],
    parents: &[usize],
) -> Result<Vec<Stage>, NoMemory>
    requires tree { IsTree nodes.now }
    requires parents { AreParents nodes.now (length nodes.now) parents.now }
    ensures { IfOk result (λ found. AreStages nodes.now found.items) }
{
    let found = hand_down(alloc, &Stages, nodes, parents)?;
    Ok(found)
}

fn is_named(stage: Stage) -> bool
    ensures { result ≡ is_named stage }
{
    match stage {
        Stage::Outside => false,
        Stage::List => false,
        Stage::Parameter => false,
        Stage::Names => true,
    }
}

fn stage_at(stages: &[Stage], n: usize) -> Stage
    ensures { result ≡ get_or stages.now n s.Outside }
{
    if n < stages.len() {
        stages[n]
    } else {
        Stage::Outside
    }
}

/// Whether a node is a name of results, if it is a name.
pub(crate) fn is_result(stages: &[Stage], n: usize) -> bool
    ensures { result ≡ is_named (get_or stages.now n s.Outside) }
{
    is_named(stage_at(stages, n))
}
