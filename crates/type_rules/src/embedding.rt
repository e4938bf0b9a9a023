//! What an interface embeds (Go 1.17, "Interface types").
ghost use Rattle.std.specs.Prelude.{◌≡◌, true, option_map};
ghost use Rattle.mark_walk.specs.Asks.{bind};
ghost use Rattle.mark_walk.specs.Telling.{tell};
ghost use Rattle.type_model.specs.Tables.{IsTable};
ghost use Rattle.typed_marks.specs.States.{IsState};
ghost use Rattle.unit_read.specs.Subjects.{unit_of};
ghost use Rattle.rule_words.specs.declared.answer.Answer.TheVariants as answer;
ghost use Rattle.rule_words.specs.declared.step.Step.TheVariants as step;
ghost use Rattle.rule_words.specs.Answers.{is_plain};
ghost use Rattle.rule_words.specs.Scenes.{sight, IsScene, said, IsMarkOf, type_in, IsTypeOf, MayBeTypeOf};
ghost use Rattle.rule_words.specs.Steps.{step_in, IsStepOf};
ghost use Rattle.rule_words.specs.Good.{known_of, AreFactsOf};
ghost use Rattle.type_rules.specs.Interfaces.{is_interface, embeds, embeds_type, embeds_known, embedding_rule};

use rule_words::good::{broken, known, silent};
use rule_words::{Answer, Step, under_of};
use type_model::{Term, TypeId};
use type_questions::Found;
use typed_marks::{Facts, Mark, State};
use typed_tree::EMBEDS_NO_INTERFACE;
use unit_read::Subject;

pub fn is_interface(s: &State, of: TypeId) -> bool
    requires table { IsTable s.now.table }
    requires within { IsTypeOf s.now of }
    ensures { result ≡ is_interface (type_in s.now of) }
{
    match s.table.term(of) {
        Term::Interface(_) => true,
        Term::Basic(_) => false,
        Term::Defined(_) => false,
        Term::Pointer(_) => false,
        Term::Slice(_) => false,
        Term::Array(_, _) => false,
        Term::Map(_, _) => false,
        Term::Chan(_, _) => false,
        Term::Func(_) => false,
        Term::Struct(_) => false,
    }
}

/// What isn't refused stays as it is.
pub fn stays(m: Mark) -> Step
    ensures { result ≡ step.Says (answer.Mark m) }
{
    Step::Says(Answer::Mark(m))
}

fn embeds(s: &State, m: Mark, under: TypeId) -> Step
    requires state { IsState s.now }
    requires mark { IsMarkOf s.now m }
    requires plain { is_plain m ≡ true }
    requires under { IsTypeOf s.now under }
    ensures is { step_in s.now result ≡ tell (sight s.now) (embeds (said s.now m) (type_in s.now under)) }
    ensures over { IsStepOf s.now result }
{
    if is_interface(s, under) {
        stays(m)
    } else {
        broken(EMBEDS_NO_INTERFACE)
    }
}

fn embeds_type(s: &State, m: Mark, under: Option<TypeId>) -> Step
    requires state { IsState s.now }
    requires mark { IsMarkOf s.now m }
    requires plain { is_plain m ≡ true }
    requires under { MayBeTypeOf s.now under }
    ensures is { step_in s.now result ≡ tell (sight s.now) (embeds_type (said s.now m) (option_map (type_in s.now) under)) }
    ensures over { IsStepOf s.now result }
{
    match under {
        Some(of) => embeds(s, m, of),
        None => silent(),
    }
}

fn embeds_known(u: &Subject, s: &State, m: Mark, x: Facts) -> Step
    requires scene { IsScene u.now s.now }
    requires mark { IsMarkOf s.now m }
    requires plain { is_plain m ≡ true }
    requires facts { AreFactsOf s.now x }
    ensures is { step_in s.now result ≡ tell (sight s.now) (embeds_known (unit_of u.now) (said s.now m) (known_of s.now x)) }
    ensures over { IsStepOf s.now result }
{
    match under_of(u, s, x.of) {
        Found::Is(under) => embeds_type(s, m, under),
        Found::Wait(item) => Step::Waits(item),
    }
}

/// The mark of a type name that an interface embeds, from its mark as a type: E15.
pub fn judge_embedding(u: &Subject, s: &State, m: Mark) -> Step
    requires scene { IsScene u.now s.now }
    requires mark { IsMarkOf s.now m }
    requires plain { is_plain m ≡ true }
    ensures is { step_in s.now result ≡ tell (sight s.now) (embedding_rule (unit_of u.now) (said s.now m)) }
    ensures over { IsStepOf s.now result }
{
    match known(s, m) {
        Some(x) => embeds_known(u, s, m, x),
        None => stays(m),
    }
}
