//! E14 at the name of a method.
ghost use Rattle.std.specs.Prelude.{◌≡◌, Some, option_map};
ghost use Rattle.mark_walk.specs.Telling.{tell};
ghost use Rattle.type_model.specs.Tables.{IsTable};
ghost use Rattle.unit_read.specs.Methods.{is_repeated_method};
ghost use Rattle.unit_read.specs.Subjects.{unit_of, IsRead};
ghost use Rattle.rule_words.specs.Scenes.{sight, IsScene, said, IsMarkOf, type_in, IsTypeOf, MayBeTypeOf};
ghost use Rattle.rule_words.specs.Steps.{step_in, IsStepOf};
ghost use Rattle.rule_words.specs.Good.{known_of, AreFactsOf};
ghost use Rattle.decl_rules.specs.Objects.{is_its_field, beside_fields, of_owner, by_owner, owned_rule, unrepeated_rule, method_rule, method_part};

use crate::methods::{has_field, is_blank, owner_of};
use crate::objects::function_at;
use go_tree::NodeRef;
use rule_words::good::{broken, known, silent};
use rule_words::{Step, look, under_of};
use type_model::TypeId;
use type_questions::Found;
use typed_marks::{Facts, Mark, Stage, State};
use typed_tree::DUPLICATE_MEMBER;
use unit_read::{Place, Subject};

/// Whether a name is not blank and a field has it.
fn is_its_field(u: &Subject, s: &State, under: TypeId, name: &str) -> bool
    requires read { IsRead u.now }
    requires table { IsTable s.now.table }
    requires within { IsTypeOf s.now under }
    ensures { result ≡ is_its_field (unit_of u.now) name.now (type_in s.now under) }
{
    let owner = owner_of(u, name);
    !is_blank(name) && has_field(s, name, owner, under)
}

fn beside_struct(u: &Subject, s: &State, name: NodeRef, at: NodeRef, under: TypeId) -> Step
    requires scene { IsScene u.now s.now }
    requires under { IsTypeOf s.now under }
    ensures is { step_in s.now result ≡ tell (sight s.now) (beside_fields (unit_of u.now) name at (Some (type_in s.now under))) }
    ensures over { IsStepOf s.now result }
{
    if is_its_field(u, s, under, u.name_text(name)) {
        broken(DUPLICATE_MEMBER)
    } else {
        function_at(u, s, at.file, at.node)
    }
}

fn beside_fields(u: &Subject, s: &State, name: NodeRef, at: NodeRef, under: Option<TypeId>) -> Step
    requires scene { IsScene u.now s.now }
    requires under { MayBeTypeOf s.now under }
    ensures is { step_in s.now result ≡ tell (sight s.now) (beside_fields (unit_of u.now) name at (option_map (type_in s.now) under)) }
    ensures over { IsStepOf s.now result }
{
    match under {
        Some(under) => beside_struct(u, s, name, at, under),
        None => function_at(u, s, at.file, at.node),
    }
}

fn of_owner(u: &Subject, s: &State, name: NodeRef, at: NodeRef, x: Facts) -> Step
    requires scene { IsScene u.now s.now }
    requires facts { AreFactsOf s.now x }
    ensures is { step_in s.now result ≡ tell (sight s.now) (of_owner (unit_of u.now) name at (known_of s.now x)) }
    ensures over { IsStepOf s.now result }
{
    match under_of(u, s, x.of) {
        Found::Is(under) => beside_fields(u, s, name, at, under),
        Found::Wait(item) => Step::Waits(item),
    }
}

fn by_owner(u: &Subject, s: &State, name: NodeRef, at: NodeRef, m: Mark) -> Step
    requires scene { IsScene u.now s.now }
    requires mark { IsMarkOf s.now m }
    ensures is { step_in s.now result ≡ tell (sight s.now) (by_owner (unit_of u.now) name at (said s.now m)) }
    ensures over { IsStepOf s.now result }
{
    match known(s, m) {
        Some(x) => of_owner(u, s, name, at, x),
        None => function_at(u, s, at.file, at.node),
    }
}

/// Beside the fields of the type whose name stands there.
fn owned(u: &Subject, s: &State, name: NodeRef, at: NodeRef, t: NodeRef) -> Step
    requires { IsScene u.now s.now }
    ensures is { step_in s.now result ≡ tell (sight s.now) (owned_rule (unit_of u.now) name at t) }
    ensures over { IsStepOf s.now result }
{
    match look(u, s, Stage::Object, t.file as usize, t.node) {
        Found::Is(m) => by_owner(u, s, name, at, m),
        Found::Wait(item) => Step::Waits(item),
    }
}

fn unrepeated(u: &Subject, s: &State, name: NodeRef, at: NodeRef) -> Step
    requires { IsScene u.now s.now }
    ensures is { step_in s.now result ≡ tell (sight s.now) (unrepeated_rule (unit_of u.now) name at) }
    ensures over { IsStepOf s.now result }
{
    match u.owner(at) {
        Some(t) => owned(u, s, name, at, t),
        None => function_at(u, s, at.file, at.node),
    }
}

fn method(u: &Subject, s: &State, name: NodeRef, at: NodeRef) -> Step
    requires { IsScene u.now s.now }
    ensures is { step_in s.now result ≡ tell (sight s.now) (method_rule (unit_of u.now) name at) }
    ensures over { IsStepOf s.now result }
{
    if u.is_repeated_method(at) {
        broken(DUPLICATE_MEMBER)
    } else {
        unrepeated(u, s, name, at)
    }
}

/// The mark of the method at whose name this stands: E14 where an earlier method of its type has the name, or a field.
pub(crate) fn method_part(u: &Subject, s: &State, name: NodeRef, p: Place) -> Step
    requires { IsScene u.now s.now }
    ensures is { step_in s.now result ≡ tell (sight s.now) (method_part (unit_of u.now) name p) }
    ensures over { IsStepOf s.now result }
{
    if p.slot == 1 {
        let at = NodeRef {
            file: name.file,
            node: p.around,
        };
        method(u, s, name, at)
    } else {
        silent()
    }
}
