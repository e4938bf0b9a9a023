//! Lengths and capacities, and where they are constants (Go 1.17, "Length and capacity").
ghost use Rattle.std.specs.Prelude.{◌≡◌, Some};
ghost use Rattle.mark_walk.specs.Telling.{tell};
ghost use Rattle.typed_tree.specs.Basics.{HasBasics};
ghost use Rattle.typed_marks.specs.Meanings.{constant_at};
ghost use Rattle.unit_read.specs.Subjects.{unit_of};
ghost use Rattle.rule_words.specs.Answers.{answer_in, IsAnswerOf};
ghost use Rattle.rule_words.specs.Scenes.{sight, IsScene, type_in, IsTypeOf, parts_in, AreSeenOf};
ghost use Rattle.rule_words.specs.Steps.{step_in, IsStepOf};
ghost use Rattle.builtin_rules.specs.Builtin.{int_value, int_constant, sized, array_count, count_of_type, text_count, constant_count, argument_text, count_rule};

use crate::arguments::argument_at;
use crate::quiet::quiet;
use crate::types::size_of;
use crate::values::value_of;
use go_tree::Node;
use gv_base::{Const, Kind};
use package_objects::part_of;
use rule_words::good::basic_type;
use rule_words::values::value_at;
use rule_words::{Answer, Seen, Step};
use type_model::TypeId;
use type_questions::Found;
use typed_marks::{ConstId, State};
use unit_read::Subject;

/// An `int` that is no constant.
pub fn int_value(s: &State) -> Answer
    requires basics { HasBasics s.now.table }
    ensures is { answer_in s.now result ≡ int_value }
    ensures over { IsAnswerOf s.now result }
{
    Answer::Mark(value_of(s, basic_type(s, Kind::Int)))
}

fn int_constant(s: &State, n: u64) -> Answer
    requires basics { HasBasics s.now.table }
    ensures is { answer_in s.now result ≡ int_constant n }
    ensures over { IsAnswerOf s.now result }
{
    let int = basic_type(s, Kind::Int);
    Answer::Constant(int, int, Const::Int(n as i128))
}

fn sized(s: &State, n: u64, quiet: bool) -> Answer
    requires basics { HasBasics s.now.table }
    ensures is { answer_in s.now result ≡ sized n quiet }
    ensures over { IsAnswerOf s.now result }
{
    if quiet {
        int_constant(s, n)
    } else {
        int_value(s)
    }
}

#[tactic(auto, using(rule_words::proofs::BindLaws::says_bind, rule_words::proofs::BindLaws::waits_bind))]
fn array_quiet(u: &Subject, s: &State, block: usize, file: u32, at: u32, n: u64) -> Step
    requires scene { IsScene u.now s.now }
    ensures is { step_in s.now result ≡ tell (sight s.now) (array_count (unit_of u.now) block file (Some at) n) }
    ensures over { IsStepOf s.now result }
{
    match quiet(u, s, block, file, at) {
        Found::Is(quiet) => Step::Says(sized(s, n, quiet)),
        Found::Wait(item) => Step::Waits(item),
    }
}

fn array_count(u: &Subject, s: &State, block: usize, file: u32, at: Option<u32>, n: u64) -> Step
    requires scene { IsScene u.now s.now }
    ensures is { step_in s.now result ≡ tell (sight s.now) (array_count (unit_of u.now) block file at n) }
    ensures over { IsStepOf s.now result }
{
    match at {
        Some(at) => array_quiet(u, s, block, file, at, n),
        None => Step::Says(int_value(s)),
    }
}

#[tactic(auto, unfolding(crate::specs::Builtin::count_of_type))]
fn count_of_type(u: &Subject, s: &State, block: usize, file: u32, node: &Node, of: TypeId) -> Step
    requires scene { IsScene u.now s.now }
    requires of { IsTypeOf s.now of }
    ensures is { step_in s.now result ≡ tell (sight s.now) (count_of_type (unit_of u.now) block file node.now (type_in s.now of)) }
    ensures over { IsStepOf s.now result }
{
    match size_of(s, of) {
        Some(n) => array_count(u, s, block, file, part_of(node, 1), n),
        None => Step::Says(int_value(s)),
    }
}

fn text_count(c: &Const) -> Option<u64>
    ensures { result ≡ text_count c.now }
{
    match c {
        Const::Text(text) => Some(text.bytes().len() as u64),
        Const::Int(_) => None,
        Const::Truth(_) => None,
    }
}

fn constant_count(s: &State, value: Option<ConstId>) -> Option<u64>
    ensures { result ≡ constant_count (constant_at s.now.constants.items value) }
{
    match value_at(s, value) {
        Some(c) => text_count(c),
        None => None,
    }
}

fn argument_text(s: &State, parts: &[Seen]) -> Option<u64>
    requires { AreSeenOf s.now parts.now }
    ensures { result ≡ argument_text (parts_in s.now parts.now) }
{
    match argument_at(s, parts, 1) {
        Some(a) => constant_count(s, a.value),
        None => None,
    }
}

/// How far the rule of a length or a capacity goes, where this type is looked at.
#[tactic(auto, unfolding(crate::specs::Builtin::count_rule))]
pub fn judge_length(
    u: &Subject,
    s: &State,
    block: usize,
    file: u32,
    node: &Node,
    parts: &[Seen],
    of: TypeId,
) -> Step
    requires scene { IsScene u.now s.now }
    requires parts { AreSeenOf s.now parts.now }
    requires of { IsTypeOf s.now of }
    ensures is { step_in s.now result ≡ tell (sight s.now) (count_rule (unit_of u.now) block file node.now (parts_in s.now parts.now) (type_in s.now of)) }
    ensures over { IsStepOf s.now result }
{
    match argument_text(s, parts) {
        Some(n) => Step::Says(int_constant(s, n)),
        None => count_of_type(u, s, block, file, node, of),
    }
}
