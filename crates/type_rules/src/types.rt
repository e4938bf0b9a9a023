//! Type expressions (Go 1.17, "Types").
ghost use Rattle.std.specs.Prelude.{◌≡◌};
ghost use Rattle.mark_walk.specs.Telling.{tell};
ghost use Rattle.typed_marks.specs.Meanings.{constant_at};
ghost use Rattle.rule_words.specs.Scenes.{sight, part_in, IsSeenOf};
ghost use Rattle.rule_words.specs.Steps.{step_in, IsStepOf};
ghost use Rattle.rule_words.specs.Good.{known_of, AreFactsOf};
ghost use Rattle.type_rules.specs.Types.{pointing_rule, slice_rule, chan_rule, map_of, map_rule, length_in, length_of, array_of, sized_rule, array_rule, same_rule};

use gv_base::Const;
use rule_words::good::{broken, gives_type, good, known, silent};
use rule_words::{Seen, Step};
use type_model::{Dir, Term};
use typed_marks::{ConstId, Facts, State};
use typed_tree::{BAD_ARRAY_LENGTH, Mode};

pub fn pointing(s: &State, p: Seen) -> Step
    requires { IsSeenOf s.now p }
    ensures is { step_in s.now result ≡ tell (sight s.now) (pointing_rule (part_in s.now p)) }
    ensures over { IsStepOf s.now result }
{
    match known(s, p.mark) {
        Some(x) => gives_type(Term::Pointer(x.of)),
        None => silent(),
    }
}

pub fn slice(s: &State, p: Seen) -> Step
    requires { IsSeenOf s.now p }
    ensures is { step_in s.now result ≡ tell (sight s.now) (slice_rule (part_in s.now p)) }
    ensures over { IsStepOf s.now result }
{
    match known(s, p.mark) {
        Some(x) => gives_type(Term::Slice(x.of)),
        None => silent(),
    }
}

pub fn chan(s: &State, direction: Dir, p: Seen) -> Step
    requires { IsSeenOf s.now p }
    ensures is { step_in s.now result ≡ tell (sight s.now) (chan_rule direction (part_in s.now p)) }
    ensures over { IsStepOf s.now result }
{
    match known(s, p.mark) {
        Some(x) => gives_type(Term::Chan(direction, x.of)),
        None => silent(),
    }
}

fn map_of(s: &State, key: Facts, p: Seen) -> Step
    requires key { AreFactsOf s.now key }
    requires part { IsSeenOf s.now p }
    ensures is { step_in s.now result ≡ tell (sight s.now) (map_of (known_of s.now key) (part_in s.now p)) }
    ensures over { IsStepOf s.now result }
{
    match known(s, p.mark) {
        Some(x) => gives_type(Term::Map(key.of, x.of)),
        None => silent(),
    }
}

pub fn map(s: &State, key: Seen, p: Seen) -> Step
    requires key { IsSeenOf s.now key }
    requires part { IsSeenOf s.now p }
    ensures is { step_in s.now result ≡ tell (sight s.now) (map_rule (part_in s.now key) (part_in s.now p)) }
    ensures over { IsStepOf s.now result }
{
    match known(s, key.mark) {
        Some(x) => map_of(s, x, p),
        None => silent(),
    }
}

/// The length of an array, if the constant is one.
fn length_in(c: &Const) -> Option<u64>
    ensures { result ≡ length_in c.now }
{
    match c {
        Const::Int(n) => {
            if *n >= 0 && *n <= 9_223_372_036_854_775_807 {
                Some(*n as u64)
            } else {
                None
            }
        }
        Const::Truth(_) => None,
        Const::Text(_) => None,
    }
}

fn length_at(constants: &[Const], id: ConstId) -> Option<u64>
    ensures { result ≡ length_of (constant_at constants.now (Some id)) }
{
    match constants.get(id.0 as usize) {
        Some(c) => length_in(c),
        None => None,
    }
}

fn length_of(constants: &[Const], value: Option<ConstId>) -> Option<u64>
    ensures { result ≡ length_of (constant_at constants.now value) }
{
    match value {
        Some(id) => length_at(constants, id),
        None => None,
    }
}

fn array_of(s: &State, p: Seen, n: u64) -> Step
    requires { IsSeenOf s.now p }
    ensures is { step_in s.now result ≡ tell (sight s.now) (array_of (part_in s.now p) n) }
    ensures over { IsStepOf s.now result }
{
    match known(s, p.mark) {
        Some(x) => gives_type(Term::Array(n, x.of)),
        None => silent(),
    }
}

/// E11, then the type.
fn sized(s: &State, size: Facts, p: Seen) -> Step
    requires part { IsSeenOf s.now p }
    ensures is { step_in s.now result ≡ tell (sight s.now) (sized_rule (known_of s.now size) (part_in s.now p)) }
    ensures over { IsStepOf s.now result }
{
    match length_of(&s.constants, size.value) {
        Some(n) => array_of(s, p, n),
        None => broken(BAD_ARRAY_LENGTH),
    }
}

pub fn array(s: &State, size: Seen, p: Seen) -> Step
    requires size { IsSeenOf s.now size }
    requires part { IsSeenOf s.now p }
    ensures is { step_in s.now result ≡ tell (sight s.now) (array_rule (part_in s.now size) (part_in s.now p)) }
    ensures over { IsStepOf s.now result }
{
    match known(s, size.mark) {
        Some(x) => sized(s, x, p),
        None => silent(),
    }
}

/// The type that is written for a parameter or a field.
pub fn same(s: &State, p: Seen) -> Step
    requires { IsSeenOf s.now p }
    ensures is { step_in s.now result ≡ tell (sight s.now) (same_rule (part_in s.now p)) }
    ensures over { IsStepOf s.now result }
{
    match known(s, p.mark) {
        Some(x) => good(Facts {
            mode: Mode::TypeName,
            of: x.of,
            value: None,
            last: x.of,
        }),
        None => silent(),
    }
}
