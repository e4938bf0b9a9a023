//! Conditions.
ghost use Rattle.std.specs.Prelude.{◌≡◌, option_map};
ghost use Rattle.mark_walk.specs.Telling.{tell};
ghost use Rattle.typed_tree.specs.Basics.{HasBasics};
ghost use Rattle.unit_read.specs.Subjects.{unit_of};
ghost use Rattle.rule_words.specs.Good.{known_of, AreFactsOf};
ghost use Rattle.rule_words.specs.Scenes.{sight, IsScene, said, IsMarkOf, type_in, IsTypeOf, MayBeTypeOf};
ghost use Rattle.rule_words.specs.Steps.{step_in, IsStepOf};
ghost use Rattle.statement_rules.specs.Conditions.{condition_under, condition_told, condition_known, condition_placed, condition_part, conditional_rule, handed_placed, handed_part, handing_rule};

use assign_rules::kinds::condition_of;
use assign_rules::words::{held_if, holds, is_boolean};
use go_tree::Node;
use rule_words::good::{good, known, silent};
use rule_words::{Step, look, under_of};
use type_model::TypeId;
use type_questions::Found;
use typed_marks::{Facts, Mark, Stage, State};
use typed_tree::CONDITION_IS_NOT_BOOLEAN;
use unit_read::Subject;

fn condition_under(s: &State, under: TypeId) -> Step
    requires basics { HasBasics s.now.table }
    requires under { IsTypeOf s.now under }
    ensures is { step_in s.now result ≡ tell (sight s.now) (condition_under (type_in s.now under)) }
    ensures over { IsStepOf s.now result }
{
    held_if(s, is_boolean(s, under), CONDITION_IS_NOT_BOOLEAN)
}

fn condition_told(s: &State, under: Option<TypeId>) -> Step
    requires basics { HasBasics s.now.table }
    requires under { MayBeTypeOf s.now under }
    ensures is { step_in s.now result ≡ tell (sight s.now) (condition_told (option_map (type_in s.now) under)) }
    ensures over { IsStepOf s.now result }
{
    match under {
        Some(under) => condition_under(s, under),
        None => silent(),
    }
}

fn condition_known(u: &Subject, s: &State, x: Facts) -> Step
    requires scene { IsScene u.now s.now }
    requires facts { AreFactsOf s.now x }
    ensures is { step_in s.now result ≡ tell (sight s.now) (condition_known (unit_of u.now) (known_of s.now x)) }
    ensures over { IsStepOf s.now result }
{
    match under_of(u, s, x.last) {
        Found::Is(under) => condition_told(s, under),
        Found::Wait(item) => Step::Waits(item),
    }
}

fn condition_placed(u: &Subject, s: &State, m: Mark) -> Step
    requires scene { IsScene u.now s.now }
    requires mark { IsMarkOf s.now m }
    ensures is { step_in s.now result ≡ tell (sight s.now) (condition_placed (unit_of u.now) (said s.now m)) }
    ensures over { IsStepOf s.now result }
{
    match known(s, m) {
        Some(x) => condition_known(u, s, x),
        None => silent(),
    }
}

fn condition_part(u: &Subject, s: &State, block: usize, n: u32) -> Step
    requires { IsScene u.now s.now }
    ensures is { step_in s.now result ≡ tell (sight s.now) (condition_part (unit_of u.now) block n) }
    ensures over { IsStepOf s.now result }
{
    match look(u, s, Stage::Placed, block, n) {
        Found::Is(m) => condition_placed(u, s, m),
        Found::Wait(item) => Step::Waits(item),
    }
}

/// How far the rule of a statement goes that may have a condition: E76.
pub fn judge_conditional(u: &Subject, s: &State, block: usize, file: u32, node: &Node) -> Step
    requires { IsScene u.now s.now }
    ensures is { step_in s.now result ≡ tell (sight s.now) (conditional_rule (unit_of u.now) block file node.now) }
    ensures over { IsStepOf s.now result }
{
    match condition_of(node.kind, u.nodes_at(file), node) {
        Some(n) => condition_part(u, s, block, n),
        None => holds(s),
    }
}

// ---- what stands for what is in it

fn handed_placed(s: &State, m: Mark) -> Step
    requires { IsMarkOf s.now m }
    ensures is { step_in s.now result ≡ tell (sight s.now) (handed_placed (said s.now m)) }
    ensures over { IsStepOf s.now result }
{
    match known(s, m) {
        Some(x) => good(x),
        None => silent(),
    }
}

fn handed_part(u: &Subject, s: &State, block: usize, n: u32) -> Step
    requires { IsScene u.now s.now }
    ensures is { step_in s.now result ≡ tell (sight s.now) (handed_part (unit_of u.now) block n) }
    ensures over { IsStepOf s.now result }
{
    match look(u, s, Stage::Placed, block, n) {
        Found::Is(m) => handed_placed(s, m),
        Found::Wait(item) => Step::Waits(item),
    }
}

/// The mark of a part, which stands for what is in it.
pub fn judge_handing(u: &Subject, s: &State, block: usize, o: Option<u32>) -> Step
    requires { IsScene u.now s.now }
    ensures is { step_in s.now result ≡ tell (sight s.now) (handing_rule (unit_of u.now) block o) }
    ensures over { IsStepOf s.now result }
{
    match o {
        Some(n) => handed_part(u, s, block, n),
        None => silent(),
    }
}
