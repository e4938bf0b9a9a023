//! Good parts.
ghost use Rattle.std.specs.Prelude.{◌≡◌, option_map, IfSome, slice_get};
ghost use Rattle.rule_words.specs.Parts.{part_at};
ghost use Rattle.rule_words.specs.Scenes.{said, IsMarkOf, part_in, parts_in, IsSeenOf, AreSeenOf, type_in, IsTypeOf};
ghost use Rattle.type_model.specs.GoTypes.{BasicType};
ghost use Rattle.typed_tree.specs.Basics.{HasBasics};
ghost use Rattle.rule_words.specs.declared.step.Step.TheVariants as step;
ghost use Rattle.rule_words.specs.declared.answer.Answer.TheVariants as answer;
ghost use Rattle.typed_tree.specs.declared.mark.Mode.TheVariants as mode;
ghost use Rattle.typed_marks.specs.declared.mark.Mark.TheVariants as mark;
ghost use Rattle.rule_words.specs.Good.{known_told, known_of, AreFactsOf};

use crate::answer::Answer;
use crate::seen::Seen;
use crate::step::Step;
use gv_base::Kind;
use type_model::{Term, TypeId};
use typed_marks::{Facts, Mark, State};
use typed_tree::{Limit, Mode, Rule, basic};

/// What is known of what is good.
pub fn known(s: &State, m: Mark) -> Option<Facts>
    requires { IsMarkOf s.now m }
    ensures is { option_map (known_of s.now) result ≡ known_told (said s.now m) }
    ensures within { IfSome result (AreFactsOf s.now) }
{
    match m {
        Mark::Good(facts) => Some(facts),
        Mark::Bad(_) => None,
        Mark::Outside(_) => None,
        Mark::Silent => None,
        Mark::Wants(_, _) => None,
        Mark::Declared(_) => None,
    }
}

pub fn silent() -> Step
    ensures { result ≡ step.Says (answer.Mark mark.Silent) }
{
    Step::Says(Answer::Mark(Mark::Silent))
}

pub fn broken(rule: Rule) -> Step
    ensures { result ≡ step.Says (answer.Mark (mark.Bad rule)) }
{
    Step::Says(Answer::Mark(Mark::Bad(rule)))
}

pub fn beyond(limit: Limit) -> Step
    ensures { result ≡ step.Says (answer.Mark (mark.Outside limit)) }
{
    Step::Says(Answer::Mark(Mark::Outside(limit)))
}

pub fn gives_type(term: Term) -> Step
    ensures { result ≡ step.Says (answer.Type mode.TypeName term) }
{
    Step::Says(Answer::Type(Mode::TypeName, term))
}

pub fn good(facts: Facts) -> Step
    ensures { result ≡ step.Says (answer.Mark (mark.Good facts)) }
{
    Step::Says(Answer::Mark(Mark::Good(facts)))
}

fn seen_at(parts: &[Seen], i: usize) -> Option<Seen>
    ensures { result ≡ slice_get parts.now i }
{
    parts.get(i).copied()
}

/// One of the parts that were read; what isn't there is Silent.
pub fn part_at(s: &State, parts: &[Seen], i: usize) -> Seen
    requires { AreSeenOf s.now parts.now }
    ensures is { part_in s.now result ≡ part_at (parts_in s.now parts.now) i }
    ensures over { IsSeenOf s.now result }
{
    match seen_at(parts, i) {
        Some(seen) => seen,
        None => Seen {
            mark: Mark::Silent,
            under: None,
        },
    }
}

/// The number of a basic type.
pub fn basic_type(s: &State, kind: Kind) -> TypeId
    requires { HasBasics s.now.table }
    ensures is { type_in s.now result ≡ BasicType kind }
    ensures within { IsTypeOf s.now result }
{
    let _ = s;
    basic(kind)
}
