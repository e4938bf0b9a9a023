//! The objects that are declared at names, and what is tested late of types.
ghost use Rattle.std.specs.Prelude.{◌≡◌, IfOk};
ghost use Rattle.mark_walk.specs.Telling.{tell};
ghost use Rattle.unit_read.specs.Subjects.{unit_of};
ghost use Rattle.rule_words.specs.Scenes.{sight, IsScene};
ghost use Rattle.rule_words.specs.Steps.{step_in, IsStepOf};
ghost use Rattle.elaborate.specs.Briefs.{step_of, IsBriefOf};
ghost use Rattle.go_rules.specs.Stages.{in_own, is_late, object_beside, object_in_place, object_of_part, object_of, object_as};

use crate::role::Role;
use crate::statements::{is_type_clause, judge_declared};
use decl_rules::judge_object;
use elaborate::{Brief, briefly, in_brief};
use go_tree::{Node, NodeKind, NodeRef};
use gv_base::NoMemory;
use rule_words::{Answer, Step};
use statement_rules::judge_clause_object;
use std::alloc::Global;
use typed_marks::{Mark, State};
use unit_read::{Place, Subject};

fn silent() -> Step
    ensures { result ≡ Step.Says (Answer.Mark Mark.Silent) }
{
    Step::Says(Answer::Mark(Mark::Silent))
}

pub fn is_late(kind: NodeKind) -> bool
    ensures { result ≡ is_late kind }
{
    match kind {
        NodeKind::MapType => true,
        NodeKind::StructType => true,
        _ => false,
    }
}

fn object_beside(
    alloc: Global,
    u: &Subject,
    s: &State,
    at: NodeRef,
    around: &Node,
) -> Result<Step, NoMemory>
    requires { IsScene u.now s.now }
    ensures is { IfOk result (λ step. step_in s.now step ≡ tell (sight s.now) (object_beside (unit_of u.now) at around.now)) }
    ensures over { IfOk result (IsStepOf s.now) }
{
    if is_late(around.kind) {
        judge_object(alloc, u, s, at)
    } else {
        Ok(silent())
    }
}

fn object_in_place(
    alloc: Global,
    u: &Subject,
    s: &State,
    at: NodeRef,
    p: Place,
) -> Result<Step, NoMemory>
    requires { IsScene u.now s.now }
    ensures is { IfOk result (λ step. step_in s.now step ≡ tell (sight s.now) (object_in_place (unit_of u.now) at p)) }
    ensures over { IfOk result (IsStepOf s.now) }
{
    let whole = NodeRef {
        file: at.file,
        node: p.around,
    };
    match u.node_at(whole) {
        Some(around) => object_beside(alloc, u, s, at, around),
        None => Ok(silent()),
    }
}

fn object_of_part(alloc: Global, u: &Subject, s: &State, at: NodeRef) -> Result<Step, NoMemory>
    requires { IsScene u.now s.now }
    ensures is { IfOk result (λ step. step_in s.now step ≡ tell (sight s.now) (object_of_part (unit_of u.now) at)) }
    ensures over { IfOk result (IsStepOf s.now) }
{
    match u.place_at(at) {
        Some(p) => object_in_place(alloc, u, s, at, p),
        None => Ok(silent()),
    }
}

/// Of a clause its variable.
fn object_of(
    alloc: Global,
    u: &Subject,
    s: &State,
    at: NodeRef,
    node: &Node,
) -> Result<Step, NoMemory>
    requires { IsScene u.now s.now }
    ensures is { IfOk result (λ step. step_in s.now step ≡ tell (sight s.now) (object_of (unit_of u.now) at node.now)) }
    ensures over { IfOk result (IsStepOf s.now) }
{
    if is_type_clause(node.kind) {
        return Ok(judge_clause_object(u, s, at, node));
    }
    object_of_part(alloc, u, s, at)
}

fn object_as(
    alloc: Global,
    u: &Subject,
    s: &State,
    role: Role,
    at: NodeRef,
    node: &Node,
) -> Result<Step, NoMemory>
    requires { IsScene u.now s.now }
    ensures is { IfOk result (λ step. step_in s.now step ≡ tell (sight s.now) (object_as role (unit_of u.now) at node.now)) }
    ensures over { IfOk result (IsStepOf s.now) }
{
    match role {
        Role::Part => object_of(alloc, u, s, at, node),
        Role::Key => Ok(silent()),
        Role::Declared => judge_declared(alloc, u, s, at),
        Role::Blank => Ok(silent()),
        Role::Untold => Ok(silent()),
    }
}

/// The object that is declared at a name, or what is tested late of a node, in the block of its file.
pub fn object(
    alloc: Global,
    u: &Subject,
    s: &State,
    role: Role,
    block: usize,
    at: NodeRef,
    node: &Node,
) -> Result<Brief, NoMemory>
    requires { IsScene u.now s.now }
    ensures is { IfOk result (λ brief. step_in s.now (step_of brief) ≡ tell (sight s.now) (in_own block at (object_as role (unit_of u.now) at node.now))) }
    ensures over { IfOk result (IsBriefOf s.now) }
{
    if block == at.file as usize {
        let step = object_as(alloc, u, s, role, at, node)?;
        let brief = in_brief(alloc, step)?;
        Ok(brief)
    } else {
        Ok(briefly::silent())
    }
}
