//! Calls of built-in functions (Go 1.17, "Built-in functions").
ghost use Rattle.std.specs.Prelude.{◌≡◌, option_map};
ghost use Rattle.mark_walk.specs.Telling.{tell, Says};
ghost use Rattle.type_model.specs.GoTypes.{InterfaceOf, NoMethod};
ghost use Rattle.typed_tree.specs.Basics.{HasBasics};
ghost use Rattle.typed_tree.specs.declared.mark.Mode.TheVariants as mode;
ghost use Rattle.unit_read.specs.Subjects.{unit_of};
ghost use Rattle.rule_words.specs.Answers.{typed};
ghost use Rattle.rule_words.specs.Words.{need};
ghost use Rattle.rule_words.specs.Scenes.{sight, IsScene, type_in, IsTypeOf, MayBeTypeOf, parts_in, AreSeenOf, said, IsMarkOf};
ghost use Rattle.rule_words.specs.Steps.{step_in, IsStepOf};
ghost use Rattle.builtin_rules.specs.Builtin.{same_type_given, pointer_given, given_rule, met_rule, shaped_rule, first_under, known_rule, arguments_rule, counted_line, line_rule, builtin_rule};

use crate::arguments::{are_known, argument_at};
use crate::lengths::{int_value, judge_length};
use crate::lines::{Builtin, Gives, Line, line_of, may_spread, takes_as_many};
use crate::musts::{is_met, shape};
use crate::parts::{argument_count, says};
use crate::values::{nothing, value_of};
use go_tree::Node;
use gv_base::{Kind, Row};
use rule_words::good::{basic_type, broken, part_at, silent};
use rule_words::{Answer, Seen, Step};
use std::alloc::Global;
use type_model::{Term, TypeId};
use type_questions::Found;
use typed_marks::{Mark, State};
use typed_tree::{BAD_BUILTIN_ARGUMENT, BAD_DOTS, Mode, WRONG_NUMBER_OF_ARGUMENTS};
use unit_read::Subject;

// ---- what is given

/// A value of the type that the first argument has, or is.
fn same_given(s: &State, m: Mark) -> Step
    requires mark { IsMarkOf s.now m }
    ensures is { step_in s.now result ≡ tell (sight s.now) (need (said s.now m) same_type_given) }
    ensures over { IsStepOf s.now result }
{
    match m {
        Mark::Good(x) => says(value_of(s, x.of)),
        Mark::Bad(_) => silent(),
        Mark::Outside(_) => silent(),
        Mark::Silent => silent(),
        Mark::Wants(_, _) => silent(),
        Mark::Declared(_) => silent(),
    }
}

/// A pointer to the type that the first argument is.
fn pointer_given(s: &State, m: Mark) -> Step
    requires mark { IsMarkOf s.now m }
    ensures is { step_in s.now result ≡ tell (sight s.now) (need (said s.now m) pointer_given) }
    ensures over { IsStepOf s.now result }
{
    match m {
        Mark::Good(x) => Step::Says(Answer::Type(Mode::Value, Term::Pointer(x.of))),
        Mark::Bad(_) => silent(),
        Mark::Outside(_) => silent(),
        Mark::Silent => silent(),
        Mark::Wants(_, _) => silent(),
        Mark::Declared(_) => silent(),
    }
}

fn any_given(alloc: Global, s: &State) -> Step
    ensures is { step_in s.now result ≡ Says (typed mode.Value (InterfaceOf NoMethod)) }
    ensures over { IsStepOf s.now result }
{
    let _ = s;
    Step::Says(Answer::Type(Mode::Value, Term::Interface(Row::new(Vec::new(alloc)))))
}

#[tactic(auto, unfolding(crate::specs::Builtin::given_rule))]
fn judge_given(
    alloc: Global,
    u: &Subject,
    s: &State,
    block: usize,
    file: u32,
    node: &Node,
    parts: &[Seen],
    of: TypeId,
    gives: Gives,
) -> Step
    requires scene { IsScene u.now s.now }
    requires parts { AreSeenOf s.now parts.now }
    requires of { IsTypeOf s.now of }
    ensures is { step_in s.now result ≡ tell (sight s.now) (given_rule (unit_of u.now) block file node.now (parts_in s.now parts.now) (type_in s.now of) gives) }
    ensures over { IsStepOf s.now result }
{
    match gives {
        Gives::Nothing => says(nothing(s)),
        Gives::Int => Step::Says(int_value(s)),
        Gives::Any => any_given(alloc, s),
        Gives::Same => same_given(s, part_at(s, parts, 1).mark),
        Gives::Pointer => pointer_given(s, part_at(s, parts, 1).mark),
        Gives::Count => judge_length(u, s, block, file, node, parts, of),
    }
}

// ---- tests

fn judge_met(
    alloc: Global,
    u: &Subject,
    s: &State,
    block: usize,
    file: u32,
    node: &Node,
    parts: &[Seen],
    l: Line,
    of: TypeId,
) -> Step
    requires scene { IsScene u.now s.now }
    requires parts { AreSeenOf s.now parts.now }
    requires of { IsTypeOf s.now of }
    ensures is { step_in s.now result ≡ tell (sight s.now) (met_rule (unit_of u.now) block file node.now (parts_in s.now parts.now) l (type_in s.now of)) }
    ensures over { IsStepOf s.now result }
{
    // E55
    if !is_met(s, l.must, parts, of) {
        return broken(BAD_BUILTIN_ARGUMENT);
    }
    judge_given(alloc, u, s, block, file, node, parts, of, l.gives)
}

fn judge_shaped(
    alloc: Global,
    u: &Subject,
    s: &State,
    block: usize,
    file: u32,
    node: &Node,
    parts: &[Seen],
    l: Line,
    of: Option<TypeId>,
) -> Step
    requires scene { IsScene u.now s.now }
    requires parts { AreSeenOf s.now parts.now }
    requires of { MayBeTypeOf s.now of }
    ensures is { step_in s.now result ≡ tell (sight s.now) (shaped_rule (unit_of u.now) block file node.now (parts_in s.now parts.now) l (option_map (type_in s.now) of)) }
    ensures over { IsStepOf s.now result }
{
    match of {
        Some(of) => judge_met(alloc, u, s, block, file, node, parts, l, of),
        None => silent(),
    }
}

/// The underlying type of the first argument.
fn first_under(s: &State, parts: &[Seen]) -> TypeId
    requires basics { HasBasics s.now.table }
    requires parts { AreSeenOf s.now parts.now }
    ensures is { type_in s.now result ≡ first_under (parts_in s.now parts.now) }
    ensures within { IsTypeOf s.now result }
{
    match argument_at(s, parts, 1) {
        Some(a) => a.under,
        None => basic_type(s, Kind::UntypedNil),
    }
}

#[tactic(auto, using(rule_words::proofs::BindLaws::says_bind, rule_words::proofs::BindLaws::waits_bind), unfolding(crate::specs::Builtin::known_rule))]
fn judge_known(
    alloc: Global,
    u: &Subject,
    s: &State,
    block: usize,
    file: u32,
    node: &Node,
    parts: &[Seen],
    l: Line,
) -> Step
    requires scene { IsScene u.now s.now }
    requires parts { AreSeenOf s.now parts.now }
    ensures is { step_in s.now result ≡ tell (sight s.now) (known_rule (unit_of u.now) block file node.now (parts_in s.now parts.now) l) }
    ensures over { IsStepOf s.now result }
{
    let under = first_under(s, parts);
    match shape(u, s, l.must, under) {
        Found::Is(of) => judge_shaped(alloc, u, s, block, file, node, parts, l, of),
        Found::Wait(item) => Step::Waits(item),
    }
}

#[tactic(auto, unfolding(crate::specs::Builtin::arguments_rule))]
fn judge_arguments(
    alloc: Global,
    u: &Subject,
    s: &State,
    block: usize,
    file: u32,
    node: &Node,
    parts: &[Seen],
    l: Line,
) -> Step
    requires scene { IsScene u.now s.now }
    requires parts { AreSeenOf s.now parts.now }
    ensures is { step_in s.now result ≡ tell (sight s.now) (arguments_rule (unit_of u.now) block file node.now (parts_in s.now parts.now) l) }
    ensures over { IsStepOf s.now result }
{
    if are_known(s, l.must, parts) {
        judge_known(alloc, u, s, block, file, node, parts, l)
    } else {
        silent()
    }
}

#[tactic(auto, unfolding(crate::specs::Builtin::counted_line))]
fn judge_counted(
    alloc: Global,
    u: &Subject,
    s: &State,
    block: usize,
    file: u32,
    node: &Node,
    parts: &[Seen],
    spread: bool,
    l: Line,
) -> Step
    requires scene { IsScene u.now s.now }
    requires parts { AreSeenOf s.now parts.now }
    ensures is { step_in s.now result ≡ tell (sight s.now) (counted_line (unit_of u.now) block file node.now (parts_in s.now parts.now) spread l) }
    ensures over { IsStepOf s.now result }
{
    // E51
    if !takes_as_many(l, spread, argument_count(s, parts)) {
        return broken(WRONG_NUMBER_OF_ARGUMENTS);
    }
    judge_arguments(alloc, u, s, block, file, node, parts, l)
}

#[tactic(auto, unfolding(crate::specs::Builtin::line_rule))]
fn judge_line(
    alloc: Global,
    u: &Subject,
    s: &State,
    block: usize,
    file: u32,
    node: &Node,
    parts: &[Seen],
    spread: bool,
    l: Line,
) -> Step
    requires scene { IsScene u.now s.now }
    requires parts { AreSeenOf s.now parts.now }
    ensures is { step_in s.now result ≡ tell (sight s.now) (line_rule (unit_of u.now) block file node.now (parts_in s.now parts.now) spread l) }
    ensures over { IsStepOf s.now result }
{
    // E52
    if !may_spread(l, spread) {
        return broken(BAD_DOTS);
    }
    judge_counted(alloc, u, s, block, file, node, parts, spread, l)
}

/// How far the rule of a call of a built-in function goes: E52, E51, E55.
#[tactic(auto, unfolding(crate::specs::Builtin::builtin_rule))]
pub fn judge_builtin(
    alloc: Global,
    u: &Subject,
    s: &State,
    block: usize,
    file: u32,
    node: &Node,
    parts: &[Seen],
    spread: bool,
    b: Option<Builtin>,
) -> Step
    requires scene { IsScene u.now s.now }
    requires parts { AreSeenOf s.now parts.now }
    ensures is { step_in s.now result ≡ tell (sight s.now) (builtin_rule (unit_of u.now) block file node.now (parts_in s.now parts.now) spread b) }
    ensures over { IsStepOf s.now result }
{
    match b {
        Some(b) => judge_line(alloc, u, s, block, file, node, parts, spread, line_of(b)),
        None => silent(),
    }
}
