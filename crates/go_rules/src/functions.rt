//! Function literals.
ghost use Rattle.std.specs.Prelude.{◌≡◌, IfOk};
ghost use Rattle.mark_walk.specs.Telling.{tell};
ghost use Rattle.unit_read.specs.Subjects.{unit_of};
ghost use Rattle.unit_read.specs.Units.{nodes_at};
ghost use Rattle.rule_words.specs.Answers.{answer_in, IsAnswerOf};
ghost use Rattle.rule_words.specs.Scenes.{sight, IsScene, said, IsMarkOf, type_in, IsTypeOf};
ghost use Rattle.rule_words.specs.Steps.{step_in, IsStepOf};
ghost use Rattle.type_rules.specs.Signatures.{signature_rule};
ghost use Rattle.go_rules.specs.Functions.{value_of, valued, function_rule};

use go_tree::{Node, NodeRef};
use gv_base::NoMemory;
use rule_words::{Answer, Step};
use std::alloc::Global;
use type_model::TypeId;
use type_rules::signatures::judge_signature;
use typed_marks::{Facts, Mark, State};
use typed_tree::Mode;
use unit_read::Subject;

fn value_of(s: &State, of: TypeId) -> Answer
    requires { IsTypeOf s.now of }
    ensures is { answer_in s.now result ≡ value_of (type_in s.now of) }
    ensures over { IsAnswerOf s.now result }
{
    let _ = s;
    Answer::Mark(Mark::Good(Facts {
        mode: Mode::Value,
        of,
        value: None,
        last: of,
    }))
}

fn valued_mark(s: &State, m: Mark) -> Answer
    requires { IsMarkOf s.now m }
    ensures is { answer_in s.now result ≡ valued (said s.now m) }
    ensures over { IsAnswerOf s.now result }
{
    match m {
        Mark::Good(x) => value_of(s, x.of),
        Mark::Bad(rule) => Answer::Mark(Mark::Bad(rule)),
        Mark::Outside(limit) => Answer::Mark(Mark::Outside(limit)),
        Mark::Silent => Answer::Mark(Mark::Silent),
        Mark::Wants(_, _) => Answer::Mark(Mark::Silent),
        Mark::Declared(_) => Answer::Mark(Mark::Silent),
    }
}

/// A value of the type that an answer gives.
fn valued(s: &State, answer: Answer) -> Answer
    requires { IsAnswerOf s.now answer }
    ensures is { answer_in s.now result ≡ valued (answer_in s.now answer) }
    ensures over { IsAnswerOf s.now result }
{
    match answer {
        Answer::Mark(m) => valued_mark(s, m),
        Answer::Type(_, term) => Answer::Type(Mode::Value, term),
        Answer::Constant(of, _, _) => value_of(s, of),
    }
}

/// The type of its signature.
fn signature_of(
    alloc: Global,
    u: &Subject,
    s: &State,
    block: usize,
    at: NodeRef,
    node: &Node,
) -> Result<Step, NoMemory>
    requires { IsScene u.now s.now }
    ensures is { IfOk result (λ step. step_in s.now step ≡ tell (sight s.now) (signature_rule (unit_of u.now) block (nodes_at (unit_of u.now) at.file) node.now 0)) }
    ensures over { IfOk result (IsStepOf s.now) }
{
    judge_signature(alloc, u, s, block, u.nodes_at(at.file), node, 0)
}

/// How far the rule of a function literal goes: it is a value of the type of its signature.
pub fn judge_function(
    alloc: Global,
    u: &Subject,
    s: &State,
    block: usize,
    at: NodeRef,
    node: &Node,
) -> Result<Step, NoMemory>
    requires { IsScene u.now s.now }
    ensures is { IfOk result (λ step. step_in s.now step ≡ tell (sight s.now) (function_rule (unit_of u.now) block at node.now)) }
    ensures over { IfOk result (IsStepOf s.now) }
{
    let step = signature_of(alloc, u, s, block, at, node)?;
    match step {
        Step::Says(answer) => Ok(Step::Says(valued(s, answer))),
        Step::Waits(item) => Ok(Step::Waits(item)),
        // a signature puts no question
        Step::Puts(_, _) => unreachable!(),
    }
}
