//! Constants (Go 1.17, "Constant declarations").
ghost use Rattle.std.specs.Prelude.{◌≡◌, Some, option_map};
ghost use Rattle.mark_walk.specs.Telling.{tell};
ghost use Rattle.unit_read.specs.Subjects.{unit_of, IsRead};
ghost use Rattle.rule_words.specs.Scenes.{sight, IsScene, said, IsMarkOf, part_in, IsSeenOf, type_in, IsTypeOf, MayBeTypeOf};
ghost use Rattle.rule_words.specs.Steps.{step_in, IsStepOf};
ghost use Rattle.rule_words.specs.Good.{known_of, AreFactsOf};
ghost use Rattle.decl_rules.specs.Objects.{placed_ask, untyped_constant, typed_constant, of_type, of_part, with_typing, typed_in, constant_in, block_of, constant_by, constant_rule};

use crate::declared::has_constants;
use const_tree::{Spec, is_repeated, typing_of, value_at};
use go_tree::{Node, NodeRef};
use rule_words::good::{good, known, silent};
use rule_words::{How, Read, Seen, Step, look, part};
use type_model::TypeId;
use type_questions::Found;
use typed_marks::{Facts, Mark, Stage, State};
use typed_tree::Mode;
use unit_read::Subject;

/// A constant of the type of its value.
fn untyped(s: &State, m: Mark) -> Step
    requires { IsMarkOf s.now m }
    ensures is { step_in s.now result ≡ tell (sight s.now) (untyped_constant (said s.now m)) }
    ensures over { IsStepOf s.now result }
{
    match known(s, m) {
        Some(x) => good(Facts {
            mode: x.mode,
            of: x.of,
            value: x.value,
            last: x.of,
        }),
        None => silent(),
    }
}

/// A constant of this type.
fn typed(s: &State, t: Facts, m: Mark) -> Step
    requires facts { AreFactsOf s.now t }
    requires mark { IsMarkOf s.now m }
    ensures is { step_in s.now result ≡ tell (sight s.now) (typed_constant (known_of s.now t) (said s.now m)) }
    ensures over { IsStepOf s.now result }
{
    match known(s, m) {
        Some(x) => good(Facts {
            mode: Mode::Constant,
            of: t.of,
            value: x.value,
            last: t.of,
        }),
        None => silent(),
    }
}

fn untyped_by(u: &Subject, s: &State, block: usize, n: u32) -> Step
    requires { IsScene u.now s.now }
    ensures is { step_in s.now result ≡ tell (sight s.now) (placed_ask (unit_of u.now) block (Some n) untyped_constant) }
    ensures over { IsStepOf s.now result }
{
    match look(u, s, Stage::Placed, block, n) {
        Found::Is(m) => untyped(s, m),
        Found::Wait(item) => Step::Waits(item),
    }
}

fn untyped_at(u: &Subject, s: &State, block: usize, value: Option<u32>) -> Step
    requires { IsScene u.now s.now }
    ensures is { step_in s.now result ≡ tell (sight s.now) (placed_ask (unit_of u.now) block value untyped_constant) }
    ensures over { IsStepOf s.now result }
{
    match value {
        Some(n) => untyped_by(u, s, block, n),
        None => silent(),
    }
}

fn typed_at(u: &Subject, s: &State, block: usize, value: Option<u32>, t: Facts) -> Step
    requires scene { IsScene u.now s.now }
    requires facts { AreFactsOf s.now t }
    ensures is { step_in s.now result ≡ tell (sight s.now) (placed_ask (unit_of u.now) block value (typed_constant (known_of s.now t))) }
    ensures over { IsStepOf s.now result }
{
    let Some(n) = value else {
        return silent();
    };
    match look(u, s, Stage::Placed, block, n) {
        Found::Is(m) => typed(s, t, m),
        Found::Wait(item) => Step::Waits(item),
    }
}

fn of_type(
    u: &Subject,
    s: &State,
    block: usize,
    value: Option<u32>,
    t: Facts,
    under: TypeId,
) -> Step
    requires scene { IsScene u.now s.now }
    requires facts { AreFactsOf s.now t }
    requires under { IsTypeOf s.now under }
    ensures is { step_in s.now result ≡ tell (sight s.now) (of_type (unit_of u.now) block value (known_of s.now t) (type_in s.now under)) }
    ensures over { IsStepOf s.now result }
{
    if has_constants(s, under) {
        typed_at(u, s, block, value, t)
    } else {
        silent()
    }
}

fn of_part(
    u: &Subject,
    s: &State,
    block: usize,
    value: Option<u32>,
    under: Option<TypeId>,
    t: Facts,
) -> Step
    requires scene { IsScene u.now s.now }
    requires facts { AreFactsOf s.now t }
    requires under { MayBeTypeOf s.now under }
    ensures is { step_in s.now result ≡ tell (sight s.now) (of_part (unit_of u.now) block value (option_map (type_in s.now) under) (known_of s.now t)) }
    ensures over { IsStepOf s.now result }
{
    match under {
        Some(of) => of_type(u, s, block, value, t, of),
        None => silent(),
    }
}

fn with_typing(u: &Subject, s: &State, block: usize, value: Option<u32>, p: Seen) -> Step
    requires scene { IsScene u.now s.now }
    requires part { IsSeenOf s.now p }
    ensures is { step_in s.now result ≡ tell (sight s.now) (with_typing (unit_of u.now) block value (part_in s.now p)) }
    ensures over { IsStepOf s.now result }
{
    match known(s, p.mark) {
        Some(t) => of_part(u, s, block, value, p.under, t),
        None => silent(),
    }
}

/// Its type is read where it is written.
fn typed_in(u: &Subject, s: &State, file: usize, block: usize, t: u32, value: Option<u32>) -> Step
    requires { IsScene u.now s.now }
    ensures is { step_in s.now result ≡ tell (sight s.now) (typed_in (unit_of u.now) file block t value) }
    ensures over { IsStepOf s.now result }
{
    let read = Read {
        how: How::TypeAndUnder,
        node: t,
    };
    match part(u, s, Stage::Placed, file, read) {
        Found::Is(p) => with_typing(u, s, block, value, p),
        Found::Wait(item) => Step::Waits(item),
    }
}

fn constant_in(
    u: &Subject,
    s: &State,
    file: usize,
    block: usize,
    typing: Option<u32>,
    value: Option<u32>,
) -> Step
    requires { IsScene u.now s.now }
    ensures is { step_in s.now result ≡ tell (sight s.now) (constant_in (unit_of u.now) file block typing value) }
    ensures over { IsStepOf s.now result }
{
    match typing {
        Some(t) => typed_in(u, s, file, block, t, value),
        None => untyped_at(u, s, block, value),
    }
}

/// The block in which the values of a specification are read.
fn block_of(u: &Subject, file: u32, nodes: &[Node], spec: Spec) -> Option<usize>
    requires { IsRead u.now }
    ensures { result ≡ block_of (unit_of u.now) file nodes.now spec }
{
    if is_repeated(nodes, spec) {
        u.copy_at(NodeRef {
            file,
            node: spec.node,
        })
    } else {
        Some(file as usize)
    }
}

fn constant_by(u: &Subject, s: &State, file: u32, nodes: &[Node], i: usize, spec: Spec) -> Step
    requires { IsScene u.now s.now }
    ensures is { step_in s.now result ≡ tell (sight s.now) (constant_by (unit_of u.now) file nodes.now i spec) }
    ensures over { IsStepOf s.now result }
{
    match block_of(u, file, nodes, spec) {
        Some(block) => constant_in(
            u,
            s,
            file as usize,
            block,
            typing_of(nodes, spec),
            value_at(nodes, spec, i),
        ),
        None => silent(),
    }
}

/// The constant that is the name of this place in its specification.
pub fn judge_constant(u: &Subject, s: &State, name: NodeRef, i: usize) -> Step
    requires { IsScene u.now s.now }
    ensures is { step_in s.now result ≡ tell (sight s.now) (constant_rule (unit_of u.now) name i) }
    ensures over { IsStepOf s.now result }
{
    match u.spec_at(name) {
        Some(spec) => constant_by(u, s, name.file, u.nodes_at(name.file), i, spec),
        None => silent(),
    }
}
