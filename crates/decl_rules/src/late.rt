//! What is tested late of the types that a type expression is made of (Go 1.17, "Map types", "Struct types").
ghost use Rattle.std.specs.Prelude.{◌≡◌, option_map};
ghost use Rattle.std.specs.Option.{option_map_or};
ghost use Rattle.mark_walk.specs.Asks.{done};
ghost use Rattle.mark_walk.specs.Telling.{tell};
ghost use Rattle.type_model.specs.Tables.{IsTable};
ghost use Rattle.typed_marks.specs.Meanings.{Quiet};
ghost use Rattle.typed_marks.specs.States.{IsState};
ghost use Rattle.unit_read.specs.Subjects.{unit_of};
ghost use Rattle.rule_words.specs.Scenes.{sight, IsScene, said, IsMarkOf, type_in, IsTypeOf, MayBeTypeOf};
ghost use Rattle.rule_words.specs.Steps.{step_in, IsStepOf};
ghost use Rattle.rule_words.specs.Good.{known_of, AreFactsOf};
ghost use Rattle.decl_rules.specs.Late.{key_of, key_mark, key_rule, map_part, may_be_embedded, embedded_under, embedded_known, embedded_of, embedded_mark, embedded_ask, embedded_rule, member_by, member_of_kind, member_part};

use go_tree::{Node, NodeKind, NodeRef};
use package_objects::part_of;
use rule_words::good::{broken, known, silent};
use rule_words::{Asked, Rest, Step, look, under_of};
use type_model::{Term, TypeId};
use type_questions::Found;
use typed_marks::{Facts, Mark, Stage, State};
use typed_tree::{BAD_EMBEDDED_TYPE, BAD_MAP_KEY};
use unit_read::{Place, Subject};

fn key_of(s: &State, x: Facts) -> Step
    requires { AreFactsOf s.now x }
    ensures is { step_in s.now result ≡ tell (sight s.now) (key_of (known_of s.now x)) }
    ensures over { IsStepOf s.now result }
{
    let _ = s;
    Step::Puts(
        Asked::Comparable(x.of),
        Rest::Held(Mark::Silent, BAD_MAP_KEY),
    )
}

fn key_mark(s: &State, m: Mark) -> Step
    requires { IsMarkOf s.now m }
    ensures is { step_in s.now result ≡ tell (sight s.now) (key_mark (said s.now m)) }
    ensures over { IsStepOf s.now result }
{
    match known(s, m) {
        Some(x) => key_of(s, x),
        None => silent(),
    }
}

/// E12 of a type in the place of a map's key.
fn key(u: &Subject, s: &State, at: NodeRef) -> Step
    requires { IsScene u.now s.now }
    ensures is { step_in s.now result ≡ tell (sight s.now) (key_rule (unit_of u.now) at) }
    ensures over { IsStepOf s.now result }
{
    match look(u, s, Stage::Placed, at.file as usize, at.node) {
        Found::Is(m) => key_mark(s, m),
        Found::Wait(item) => Step::Waits(item),
    }
}

/// What is said late of a part of a map type.
pub fn map_part(u: &Subject, s: &State, at: NodeRef, p: Place) -> Step
    requires { IsScene u.now s.now }
    ensures is { step_in s.now result ≡ tell (sight s.now) (map_part (unit_of u.now) at p) }
    ensures over { IsStepOf s.now result }
{
    if p.slot == 0 { key(u, s, at) } else { silent() }
}

fn may_be_embedded(s: &State, behind: bool, of: TypeId) -> bool
    requires table { IsTable s.now.table }
    requires within { IsTypeOf s.now of }
    ensures { result ≡ may_be_embedded behind (type_in s.now of) }
{
    match s.table.term(of) {
        Term::Pointer(_) => false,
        Term::Interface(_) => !behind,
        Term::Basic(_) => true,
        Term::Defined(_) => true,
        Term::Slice(_) => true,
        Term::Array(_, _) => true,
        Term::Map(_, _) => true,
        Term::Chan(_, _) => true,
        Term::Func(_) => true,
        Term::Struct(_) => true,
    }
}

fn embedded_under(s: &State, behind: bool, under: TypeId) -> Step
    requires state { IsState s.now }
    requires under { IsTypeOf s.now under }
    ensures is { step_in s.now result ≡ tell (sight s.now) (embedded_under behind (type_in s.now under)) }
    ensures over { IsStepOf s.now result }
{
    if may_be_embedded(s, behind, under) {
        silent()
    } else {
        broken(BAD_EMBEDDED_TYPE)
    }
}

fn embedded_known(s: &State, behind: bool, under: Option<TypeId>) -> Step
    requires state { IsState s.now }
    requires under { MayBeTypeOf s.now under }
    ensures is { step_in s.now result ≡ tell (sight s.now) (embedded_known behind (option_map (type_in s.now) under)) }
    ensures over { IsStepOf s.now result }
{
    match under {
        Some(of) => embedded_under(s, behind, of),
        None => silent(),
    }
}

fn embedded_of(u: &Subject, s: &State, behind: bool, x: Facts) -> Step
    requires scene { IsScene u.now s.now }
    requires facts { AreFactsOf s.now x }
    ensures is { step_in s.now result ≡ tell (sight s.now) (embedded_of (unit_of u.now) behind (known_of s.now x)) }
    ensures over { IsStepOf s.now result }
{
    match under_of(u, s, x.of) {
        Found::Is(under) => embedded_known(s, behind, under),
        Found::Wait(item) => Step::Waits(item),
    }
}

fn embedded_mark(u: &Subject, s: &State, behind: bool, m: Mark) -> Step
    requires scene { IsScene u.now s.now }
    requires mark { IsMarkOf s.now m }
    ensures is { step_in s.now result ≡ tell (sight s.now) (embedded_mark (unit_of u.now) behind (said s.now m)) }
    ensures over { IsStepOf s.now result }
{
    match known(s, m) {
        Some(x) => embedded_of(u, s, behind, x),
        None => silent(),
    }
}

fn embedded_ask(u: &Subject, s: &State, file: u32, behind: bool, n: u32) -> Step
    requires { IsScene u.now s.now }
    ensures is { step_in s.now result ≡ tell (sight s.now) (embedded_ask (unit_of u.now) file behind n) }
    ensures over { IsStepOf s.now result }
{
    match look(u, s, Stage::Placed, file as usize, n) {
        Found::Is(m) => embedded_mark(u, s, behind, m),
        Found::Wait(item) => Step::Waits(item),
    }
}

/// E13 of an embedded field.
fn embedded(u: &Subject, s: &State, file: u32, behind: bool, node: &Node) -> Step
    requires { IsScene u.now s.now }
    ensures is { step_in s.now result ≡ tell (sight s.now) (embedded_rule (unit_of u.now) file behind node.now) }
    ensures over { IsStepOf s.now result }
{
    match part_of(node, 0) {
        Some(n) => embedded_ask(u, s, file, behind, n),
        None => silent(),
    }
}

fn member(u: &Subject, s: &State, file: u32, node: &Node) -> Step
    requires { IsScene u.now s.now }
    ensures is { step_in s.now result ≡ tell (sight s.now) (member_by (unit_of u.now) file node.now.kind node.now) }
    ensures over { IsStepOf s.now result }
{
    match node.kind {
        NodeKind::Embedded => embedded(u, s, file, false, node),
        NodeKind::EmbeddedPointer => embedded(u, s, file, true, node),
        _ => silent(),
    }
}

/// What is said late of a member of a struct type.
pub fn member_part(u: &Subject, s: &State, at: NodeRef) -> Step
    requires { IsScene u.now s.now }
    ensures is { step_in s.now result ≡ tell (sight s.now) (member_part (unit_of u.now) at) }
    ensures over { IsStepOf s.now result }
{
    match u.node_at(at) {
        Some(node) => member(u, s, at.file, node),
        None => silent(),
    }
}
