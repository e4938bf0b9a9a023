//! The variables that range clauses declare.
ghost use Rattle.std.specs.Prelude.{◌≡◌};
ghost use Rattle.mark_walk.specs.Telling.{tell};
ghost use Rattle.unit_read.specs.Subjects.{unit_of};
ghost use Rattle.rule_words.specs.Good.{known_of, AreFactsOf};
ghost use Rattle.rule_words.specs.Scenes.{sight, IsScene, said, IsMarkOf};
ghost use Rattle.rule_words.specs.Steps.{step_in, IsStepOf};
ghost use Rattle.assign_rules.specs.InCode.{ranged_in, IsRangedOf, ranging_in, IsRangingOf};
ghost use Rattle.assign_rules.specs.Ranging.{named_of, named_told, named_known, named_placed, named_operand, range_object};

use crate::ranging::{Ranged, Ranging, ranged_type, ranging_of};
use crate::words::variable;
use go_tree::Node;
use package_objects::part_of;
use rule_words::good::{known, silent};
use rule_words::{Step, look};
use type_questions::Found;
use typed_marks::{Facts, Mark, Stage, State};
use unit_read::Subject;

// ---- the variables that are declared

fn named_of(s: &State, i: usize, r: Ranged) -> Step
    requires { IsRangedOf s.now r }
    ensures is { step_in s.now result ≡ tell (sight s.now) (named_of i (ranged_in s.now r)) }
    ensures over { IsStepOf s.now result }
{
    match ranged_type(s, i, r) {
        Some(of) => variable(s, of),
        None => silent(),
    }
}

fn named_told(s: &State, i: usize, told: Ranging) -> Step
    requires { IsRangingOf s.now told }
    ensures is { step_in s.now result ≡ tell (sight s.now) (named_told i (ranging_in s.now told)) }
    ensures over { IsStepOf s.now result }
{
    match told {
        Ranging::Unknown => silent(),
        Ranging::Refused => silent(),
        Ranging::Gives(r) => named_of(s, i, r),
    }
}

fn named_known(u: &Subject, s: &State, i: usize, x: Facts) -> Step
    requires scene { IsScene u.now s.now }
    requires facts { AreFactsOf s.now x }
    ensures is { step_in s.now result ≡ tell (sight s.now) (named_known (unit_of u.now) i (known_of s.now x)) }
    ensures over { IsStepOf s.now result }
{
    match ranging_of(u, s, x) {
        Found::Is(told) => named_told(s, i, told),
        Found::Wait(item) => Step::Waits(item),
    }
}

fn named_placed(u: &Subject, s: &State, i: usize, m: Mark) -> Step
    requires scene { IsScene u.now s.now }
    requires mark { IsMarkOf s.now m }
    ensures is { step_in s.now result ≡ tell (sight s.now) (named_placed (unit_of u.now) i (said s.now m)) }
    ensures over { IsStepOf s.now result }
{
    match known(s, m) {
        Some(x) => named_known(u, s, i, x),
        None => silent(),
    }
}

fn named_operand(u: &Subject, s: &State, file: u32, i: usize, n: u32) -> Step
    requires { IsScene u.now s.now }
    ensures is { step_in s.now result ≡ tell (sight s.now) (named_operand (unit_of u.now) file i n) }
    ensures over { IsStepOf s.now result }
{
    match look(u, s, Stage::Placed, file as usize, n) {
        Found::Is(m) => named_placed(u, s, i, m),
        Found::Wait(item) => Step::Waits(item),
    }
}

/// How far the rule goes of the name at a place on the left of a range clause.
pub fn range_object(u: &Subject, s: &State, file: u32, node: &Node, i: usize) -> Step
    requires { IsScene u.now s.now }
    ensures is { step_in s.now result ≡ tell (sight s.now) (range_object (unit_of u.now) file node.now i) }
    ensures over { IsStepOf s.now result }
{
    match part_of(node, 1) {
        Some(n) => named_operand(u, s, file, i, n),
        None => silent(),
    }
}
