//! Words of the rules of statements.
ghost use Rattle.std.specs.Prelude.{◌≡◌, true};
ghost use Rattle.mark_walk.specs.Telling.{tell, Says};
ghost use Rattle.typed_tree.specs.Basics.{HasBasics};
ghost use Rattle.typed_tree.specs.Operands.{is_boolean};
ghost use Rattle.unit_read.specs.Subjects.{unit_of};
ghost use Rattle.typed_marks.specs.Meanings.{Right};
ghost use Rattle.rule_words.specs.Answers.{is_plain};
ghost use Rattle.rule_words.specs.Good.{known_of, AreFactsOf};
ghost use Rattle.rule_words.specs.Words.{nothing};
ghost use Rattle.rule_words.specs.Scenes.{sight, IsScene, told_by, IfFound, said, IsMarkOf, type_in, IsTypeOf};
ghost use Rattle.rule_words.specs.Steps.{step_in, IsStepOf};
ghost use Rattle.rule_words.specs.Types.{is_of};
ghost use Rattle.rule_words.specs.Wishes.{IsWishOf, wish_of};
ghost use Rattle.assign_rules.specs.Words.{holds, held_if, settled, settled_if, variable, is_builtin_mode, own_default, loose_operand};

use gv_base::Kind;
use rule_words::good::{basic_type, broken, good, known};
use rule_words::types::kind_of;
use rule_words::wishes::{default_of, operand};
use rule_words::{Step, look};
use type_model::TypeId;
use type_questions::Found;
use typed_marks::{Facts, Item, Mark, Stage, State, Want};
use typed_tree::{BAD_SELECT_CASE, Mode, Rule};
use unit_read::Subject;

fn nothing_facts(s: &State) -> Facts
    requires { HasBasics s.now.table }
    ensures is { Right (known_of s.now result) ≡ nothing }
    ensures over { AreFactsOf s.now result }
{
    let of = basic_type(s, Kind::UntypedNil);
    Facts {
        mode: Mode::NoValue,
        of,
        value: None,
        last: of,
    }
}

/// The mark of what has no value.
pub fn nothing_mark(s: &State) -> Mark
    requires { HasBasics s.now.table }
    ensures is { said s.now result ≡ nothing }
    ensures over { IsMarkOf s.now result }
    ensures plain { is_plain result ≡ true }
{
    Mark::Good(nothing_facts(s))
}

/// A statement that holds has no value.
pub fn holds(s: &State) -> Step
    requires { HasBasics s.now.table }
    ensures is { step_in s.now result ≡ tell (sight s.now) holds }
    ensures over { IsStepOf s.now result }
{
    good(nothing_facts(s))
}

/// The statement holds, or breaks this rule.
pub fn held_if(s: &State, b: bool, rule: Rule) -> Step
    requires { HasBasics s.now.table }
    ensures is { step_in s.now result ≡ tell (sight s.now) (held_if b rule) }
    ensures over { IsStepOf s.now result }
{
    if b { holds(s) } else { broken(rule) }
}

fn settled(s: &State, bad: bool) -> Step
    requires { HasBasics s.now.table }
    ensures is { step_in s.now result ≡ tell (sight s.now) (settled bad) }
    ensures over { IsStepOf s.now result }
{
    held_if(s, !bad, BAD_SELECT_CASE)
}

/// A test before that of where the statement stands: E86.
pub fn settled_if(s: &State, b: bool, rule: Rule, bad: bool) -> Step
    requires { HasBasics s.now.table }
    ensures is { step_in s.now result ≡ tell (sight s.now) (settled_if b rule bad) }
    ensures over { IsStepOf s.now result }
{
    if b { settled(s, bad) } else { broken(rule) }
}

/// A variable of a type.
pub fn variable(s: &State, of: TypeId) -> Step
    requires { IsTypeOf s.now of }
    ensures is { step_in s.now result ≡ Says (variable (type_in s.now of)) }
    ensures over { IsStepOf s.now result }
{
    let _ = s;
    good(Facts {
        mode: Mode::Variable,
        of,
        value: None,
        last: of,
    })
}

// ---- modes

pub fn is_builtin_mode(mode: Mode) -> bool
    ensures { result ≡ is_builtin_mode mode }
{
    matches!(mode, Mode::Builtin)
}

// ---- types

fn has_truths(kind: Kind) -> bool
    ensures { result ≡ is_boolean kind }
{
    matches!(kind, Kind::Bool | Kind::UntypedBool)
}

/// A boolean type.
#[tactic(auto, unfolding(rule_words::specs::Types::is_of))]
pub fn is_boolean(s: &State, t: TypeId) -> bool
    requires basics { HasBasics s.now.table }
    requires within { IsTypeOf s.now t }
    ensures { result ≡ is_of is_boolean (type_in s.now t) }
{
    match kind_of(s, t) {
        Some(kind) => has_truths(kind),
        None => false,
    }
}

// ---- wishes

fn own_default(s: &State, own: Mark) -> Want
    requires basics { HasBasics s.now.table }
    requires own { IsMarkOf s.now own }
    ensures is { wish_of s.now result ≡ own_default (said s.now own) }
    ensures within { IsWishOf s.now result }
{
    match known(s, own) {
        Some(x) => default_of(s, x.of),
        None => Want::Free,
    }
}

/// A single value whose type isn't known to be needed.
#[tactic(auto, unfolding(crate::specs::Words::loose_operand))]
pub fn loose_operand(u: &Subject, s: &State, block: usize, n: u32) -> Found<Mark, Item>
    requires { IsScene u.now s.now }
    ensures is { told_by (said s.now) result ≡ tell (sight s.now) (loose_operand (unit_of u.now) block n) }
    ensures over { IfFound result (IsMarkOf s.now) }
{
    match look(u, s, Stage::Before, block, n) {
        Found::Is(own) => Found::Is(operand(own_default(s, own))),
        Found::Wait(item) => Found::Wait(item),
    }
}
