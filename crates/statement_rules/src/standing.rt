//! Expressions as statements, `go` and `defer`.
ghost use Rattle.std.specs.Prelude.{◌≡◌, true};
ghost use Rattle.mark_walk.specs.Telling.{tell};
ghost use Rattle.unit_read.specs.Subjects.{unit_of};
ghost use Rattle.rule_words.specs.Answers.{is_plain};
ghost use Rattle.rule_words.specs.Good.{known_of, AreFactsOf};
ghost use Rattle.rule_words.specs.Scenes.{sight, IsScene, said, IsMarkOf};
ghost use Rattle.rule_words.specs.Steps.{step_in, IsStepOf};
ghost use Rattle.statement_rules.specs.Standing.{gives_value, builtin_gives_value, is_refused, callee_known, callee_told, callee_rule, called_by, called_rule, standing_fault, other_rule, standing_at, standing_known, standing_rule, communicating_known, communicating_rule, started_known, started_told, started_part, go_rule};

use assign_rules::kinds::is_call;
use assign_rules::selecting::receives_at;
use assign_rules::words::{is_builtin_mode, nothing_mark};
use go_tree::{Node, NodeRef};
use package_objects::{kind_of, node_of, part_of};
use rule_words::good::{broken, good, known, silent};
use rule_words::{Answer, Step, look};
use type_questions::Found;
use typed_marks::{Facts, Mark, Stage, State};
use typed_tree::{
    BAD_SELECT_CASE, BUILTIN_MUST_BE_CALLED, Mode, NOT_A_CALL, NOT_A_STATEMENT, Rule,
};
use unit_read::Subject;
use variable_rules::bare;

// ---- calls

/// A built-in function that gives a value.
fn gives_value(name: &[u8]) -> bool
    ensures { result ≡ gives_value name.now }
{
    name == b"append".as_slice()
        || (name == b"cap".as_slice()
            || (name == b"len".as_slice()
                || (name == b"make".as_slice() || name == b"new".as_slice())))
}

fn builtin_gives_value(u: &Subject, file: u32, n: u32) -> bool
    ensures { result ≡ builtin_gives_value (unit_of u.now) file n }
{
    let node = bare(u.nodes_at(file), n);
    gives_value(u.name_at(NodeRef { file, node }))
}

fn is_refused(u: &Subject, file: u32, n: u32, mode: Mode) -> bool
    ensures { result ≡ is_refused (unit_of u.now) file n mode }
{
    match mode {
        Mode::TypeName => true,
        Mode::Builtin => builtin_gives_value(u, file, n),
        _ => false,
    }
}

fn says(m: Mark) -> Step
    ensures { result ≡ Step.Says (Answer.Mark m) }
{
    Step::Says(Answer::Mark(m))
}

fn callee_known(u: &Subject, s: &State, file: u32, n: u32, good: Mark, rule: Rule, f: Facts) -> Step
    requires mark { IsMarkOf s.now good }
    requires plain { is_plain good ≡ true }
    requires facts { AreFactsOf s.now f }
    ensures is { step_in s.now result ≡ tell (sight s.now) (callee_known (unit_of u.now) file n (said s.now good) rule (known_of s.now f)) }
    ensures over { IsStepOf s.now result }
{
    let _ = s;
    if is_refused(u, file, n, f.mode) {
        broken(rule)
    } else {
        says(good)
    }
}

fn callee_told(u: &Subject, s: &State, file: u32, n: u32, good: Mark, rule: Rule, m: Mark) -> Step
    requires good { IsMarkOf s.now good }
    requires plain { is_plain good ≡ true }
    requires mark { IsMarkOf s.now m }
    ensures is { step_in s.now result ≡ tell (sight s.now) (callee_told (unit_of u.now) file n (said s.now good) rule (said s.now m)) }
    ensures over { IsStepOf s.now result }
{
    match known(s, m) {
        Some(f) => callee_known(u, s, file, n, good, rule, f),
        None => silent(),
    }
}

fn callee(u: &Subject, s: &State, block: usize, file: u32, good: Mark, rule: Rule, n: u32) -> Step
    requires scene { IsScene u.now s.now }
    requires good { IsMarkOf s.now good }
    requires plain { is_plain good ≡ true }
    ensures is { step_in s.now result ≡ tell (sight s.now) (callee_rule (unit_of u.now) block file (said s.now good) rule n) }
    ensures over { IsStepOf s.now result }
{
    match look(u, s, Stage::Placed, block, n) {
        Found::Is(m) => callee_told(u, s, file, n, good, rule, m),
        Found::Wait(item) => Step::Waits(item),
    }
}

fn called_by(
    u: &Subject,
    s: &State,
    block: usize,
    file: u32,
    good: Mark,
    rule: Rule,
    call: &Node,
) -> Step
    requires scene { IsScene u.now s.now }
    requires good { IsMarkOf s.now good }
    requires plain { is_plain good ≡ true }
    ensures is { step_in s.now result ≡ tell (sight s.now) (called_by (unit_of u.now) block file (said s.now good) rule call.now) }
    ensures over { IsStepOf s.now result }
{
    match part_of(call, 0) {
        Some(n) => callee(u, s, block, file, good, rule, n),
        None => silent(),
    }
}

/// A call as a statement: it is good, or breaks this rule.
#[tactic(auto, unfolding(crate::specs::Standing::called_rule))]
fn called(u: &Subject, s: &State, block: usize, file: u32, n: u32, good: Mark, rule: Rule) -> Step
    requires scene { IsScene u.now s.now }
    requires good { IsMarkOf s.now good }
    requires plain { is_plain good ≡ true }
    ensures is { step_in s.now result ≡ tell (sight s.now) (called_rule (unit_of u.now) block file n (said s.now good) rule) }
    ensures over { IsStepOf s.now result }
{
    match node_of(u.nodes_at(file), n) {
        Some(call) => called_by(u, s, block, file, good, rule, call),
        None => silent(),
    }
}

// ---- expressions

fn standing_fault(mode: Mode) -> Rule
    ensures { result ≡ standing_fault mode }
{
    if is_builtin_mode(mode) {
        BUILTIN_MUST_BE_CALLED
    } else {
        NOT_A_STATEMENT
    }
}

fn other(u: &Subject, s: &State, file: u32, n: u32, x: Facts) -> Step
    requires { AreFactsOf s.now x }
    ensures is { step_in s.now result ≡ tell (sight s.now) (other_rule (unit_of u.now) file n (known_of s.now x)) }
    ensures over { IsStepOf s.now result }
{
    let _ = s;
    if receives_at(u, file, n) {
        good(x)
    } else {
        broken(standing_fault(x.mode))
    }
}

fn standing_at(u: &Subject, s: &State, block: usize, file: u32, n: u32, x: Facts) -> Step
    requires scene { IsScene u.now s.now }
    requires facts { AreFactsOf s.now x }
    ensures is { step_in s.now result ≡ tell (sight s.now) (standing_at (unit_of u.now) block file n (known_of s.now x)) }
    ensures over { IsStepOf s.now result }
{
    if is_call(kind_of(u.nodes_at(file), n)) {
        called(u, s, block, file, n, Mark::Good(x), NOT_A_STATEMENT)
    } else {
        other(u, s, file, n, x)
    }
}

fn standing_known(u: &Subject, s: &State, block: usize, file: u32, n: u32, x: Facts) -> Step
    requires scene { IsScene u.now s.now }
    requires facts { AreFactsOf s.now x }
    ensures is { step_in s.now result ≡ tell (sight s.now) (standing_known (unit_of u.now) block file n (known_of s.now x)) }
    ensures over { IsStepOf s.now result }
{
    let n = bare(u.nodes_at(file), n);
    standing_at(u, s, block, file, n, x)
}

/// How far the rule goes of an expression that is a statement, from its own mark: E56, E70.
pub fn judge_standing(u: &Subject, s: &State, block: usize, file: u32, n: u32, m: Mark) -> Step
    requires scene { IsScene u.now s.now }
    requires mark { IsMarkOf s.now m }
    ensures is { step_in s.now result ≡ tell (sight s.now) (standing_rule (unit_of u.now) block file n (said s.now m)) }
    ensures over { IsStepOf s.now result }
{
    match m {
        Mark::Good(x) => standing_known(u, s, block, file, n, x),
        Mark::Bad(rule) => says(Mark::Bad(rule)),
        Mark::Outside(limit) => says(Mark::Outside(limit)),
        Mark::Silent => says(Mark::Silent),
        Mark::Wants(_, _) => says(Mark::Silent),
        Mark::Declared(_) => says(Mark::Silent),
    }
}

// ---- in a clause of a select statement

fn communicating_known(u: &Subject, s: &State, file: u32, n: u32, x: Facts) -> Step
    requires { AreFactsOf s.now x }
    ensures is { step_in s.now result ≡ tell (sight s.now) (communicating_known (unit_of u.now) file n (known_of s.now x)) }
    ensures over { IsStepOf s.now result }
{
    let _ = s;
    let n = bare(u.nodes_at(file), n);
    if receives_at(u, file, n) {
        good(x)
    } else {
        broken(BAD_SELECT_CASE)
    }
}

/// How far the rule goes of an expression in a clause of a select statement, from its own mark: E86.
pub fn judge_communicating(u: &Subject, s: &State, file: u32, n: u32, m: Mark) -> Step
    requires { IsMarkOf s.now m }
    ensures is { step_in s.now result ≡ tell (sight s.now) (communicating_rule (unit_of u.now) file n (said s.now m)) }
    ensures over { IsStepOf s.now result }
{
    match m {
        Mark::Good(x) => communicating_known(u, s, file, n, x),
        Mark::Bad(rule) => says(Mark::Bad(rule)),
        Mark::Outside(limit) => says(Mark::Outside(limit)),
        Mark::Silent => says(Mark::Silent),
        Mark::Wants(_, _) => says(Mark::Silent),
        Mark::Declared(_) => says(Mark::Silent),
    }
}

// ---- `go`, `defer`

fn started_known(u: &Subject, s: &State, block: usize, file: u32, n: u32, x: Facts) -> Step
    requires scene { IsScene u.now s.now }
    requires facts { AreFactsOf s.now x }
    ensures is { step_in s.now result ≡ tell (sight s.now) (started_known (unit_of u.now) block file n (known_of s.now x)) }
    ensures over { IsStepOf s.now result }
{
    let _ = x;
    if is_call(kind_of(u.nodes_at(file), n)) {
        called(u, s, block, file, n, nothing_mark(s), NOT_A_CALL)
    } else {
        broken(NOT_A_CALL)
    }
}

fn started_told(u: &Subject, s: &State, block: usize, file: u32, n: u32, m: Mark) -> Step
    requires scene { IsScene u.now s.now }
    requires mark { IsMarkOf s.now m }
    ensures is { step_in s.now result ≡ tell (sight s.now) (started_told (unit_of u.now) block file n (said s.now m)) }
    ensures over { IsStepOf s.now result }
{
    match known(s, m) {
        Some(x) => started_known(u, s, block, file, n, x),
        None => silent(),
    }
}

fn started_part(u: &Subject, s: &State, block: usize, file: u32, n: u32) -> Step
    requires { IsScene u.now s.now }
    ensures is { step_in s.now result ≡ tell (sight s.now) (started_part (unit_of u.now) block file n) }
    ensures over { IsStepOf s.now result }
{
    match look(u, s, Stage::Placed, block, n) {
        Found::Is(m) => started_told(u, s, block, file, n, m),
        Found::Wait(item) => Step::Waits(item),
    }
}

/// How far the rule of `go` and `defer` goes: E71.
pub fn judge_go(u: &Subject, s: &State, block: usize, file: u32, node: &Node) -> Step
    requires { IsScene u.now s.now }
    ensures is { step_in s.now result ≡ tell (sight s.now) (go_rule (unit_of u.now) block file node.now) }
    ensures over { IsStepOf s.now result }
{
    match part_of(node, 0) {
        Some(n) => started_part(u, s, block, file, n),
        None => silent(),
    }
}
