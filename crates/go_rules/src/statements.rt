//! What statements add to the rules of names.
ghost use Rattle.std.specs.Prelude.{◌≡◌, IfOk};
ghost use Rattle.mark_walk.specs.Telling.{tell};
ghost use Rattle.unit_read.specs.Subjects.{unit_of};
ghost use Rattle.rule_words.specs.Scenes.{sight, IsScene, said, IsMarkOf};
ghost use Rattle.rule_words.specs.Steps.{step_in, IsStepOf};
ghost use Rattle.go_rules.specs.Statements.{switched_use, switched_rule, stated_object, declared_in, declared_beside, declared_object, is_type_clause};

use crate::role::states_names;
use assign_rules::judge_statement_object;
use decl_rules::judge_object;
use go_tree::{Node, NodeKind, NodeRef};
use gv_base::NoMemory;
use rule_words::good::{broken, silent};
use rule_words::{Answer, Step, look};
use std::alloc::Global;
use type_questions::Found;
use typed_marks::{Mark, Stage, State};
use typed_tree::REDECLARED;
use unit_read::{Place, Subject};

// ---- the variable of a clause

fn switched_use(s: &State, m: Mark) -> Step
    requires { IsMarkOf s.now m }
    ensures is { step_in s.now result ≡ tell (sight s.now) (switched_use (said s.now m)) }
    ensures over { IsStepOf s.now result }
{
    let _ = s;
    match m {
        Mark::Good(x) => Step::Says(Answer::Mark(Mark::Good(x))),
        Mark::Bad(_) => silent(),
        Mark::Outside(_) => silent(),
        Mark::Silent => silent(),
        Mark::Wants(_, _) => silent(),
        Mark::Declared(_) => silent(),
    }
}

/// A use of a type switch's name: it denotes the variable of the clause in which it stands.
pub fn judge_switched(u: &Subject, s: &State, file: u32, clause: u32) -> Step
    requires { IsScene u.now s.now }
    ensures is { step_in s.now result ≡ tell (sight s.now) (switched_rule (unit_of u.now) file clause) }
    ensures over { IsStepOf s.now result }
{
    match look(u, s, Stage::Object, file as usize, clause) {
        Found::Is(m) => switched_use(s, m),
        Found::Wait(item) => Step::Waits(item),
    }
}

// ---- variables that statements declare

fn stated_object(u: &Subject, s: &State, name: NodeRef, p: Place, around: &Node) -> Step
    requires { IsScene u.now s.now }
    ensures is { step_in s.now result ≡ tell (sight s.now) (stated_object (unit_of u.now) name p around.now) }
    ensures over { IsStepOf s.now result }
{
    // E1
    if u.is_redeclared(name) {
        return broken(REDECLARED);
    }
    judge_statement_object(u, s, name.file, around, p.index)
}

fn declared_in(
    alloc: Global,
    u: &Subject,
    s: &State,
    name: NodeRef,
    p: Place,
    around: &Node,
) -> Result<Step, NoMemory>
    requires { IsScene u.now s.now }
    ensures is { IfOk result (λ step. step_in s.now step ≡ tell (sight s.now) (declared_in (unit_of u.now) name p around.now)) }
    ensures over { IfOk result (IsStepOf s.now) }
{
    if states_names(around.kind, p.slot) {
        return Ok(stated_object(u, s, name, p, around));
    }
    judge_object(alloc, u, s, name)
}

fn declared_beside(
    alloc: Global,
    u: &Subject,
    s: &State,
    name: NodeRef,
    p: Place,
) -> Result<Step, NoMemory>
    requires { IsScene u.now s.now }
    ensures is { IfOk result (λ step. step_in s.now step ≡ tell (sight s.now) (declared_beside (unit_of u.now) name p)) }
    ensures over { IfOk result (IsStepOf s.now) }
{
    let whole = NodeRef {
        file: name.file,
        node: p.around,
    };
    match u.node_at(whole) {
        Some(around) => declared_in(alloc, u, s, name, p, around),
        None => Ok(silent()),
    }
}

/// The mark of the object that is declared at a name, or what it waits for.
pub fn judge_declared(
    alloc: Global,
    u: &Subject,
    s: &State,
    name: NodeRef,
) -> Result<Step, NoMemory>
    requires { IsScene u.now s.now }
    ensures is { IfOk result (λ step. step_in s.now step ≡ tell (sight s.now) (declared_object (unit_of u.now) name)) }
    ensures over { IfOk result (IsStepOf s.now) }
{
    match u.place_at(name) {
        Some(p) => declared_beside(alloc, u, s, name, p),
        None => Ok(silent()),
    }
}

// ---- clauses

/// A clause that a type switch may have.
pub fn is_type_clause(kind: NodeKind) -> bool
    ensures { result ≡ is_type_clause kind }
{
    match kind {
        NodeKind::TypeCase => true,
        NodeKind::Default => true,
        _ => false,
    }
}
