//! The mark of an object, by where its name stands.
ghost use Rattle.std.specs.Prelude.{◌≡◌, Some, IfOk, option_map};
ghost use Rattle.mark_walk.specs.Telling.{tell};
ghost use Rattle.unit_read.specs.Subjects.{unit_of, IsRead};
ghost use Rattle.unit_read.specs.Units.{type_name_at};
ghost use Rattle.rule_words.specs.Scenes.{sight, IsScene, said, IsMarkOf};
ghost use Rattle.rule_words.specs.Steps.{step_in, IsStepOf};
ghost use Rattle.decl_rules.specs.Objects.{variable_mark, function_mark, alias_mark, placed_ask, defined_rule, form_rule, kind_rule, object_in, placed_object, object_rule};

use crate::constant::judge_constant;
use crate::forms::{Named, named_form};
use crate::late::{map_part, member_part};
use crate::method_names::method_part;
use crate::refusal::{is_exempt, refusal_of};
use go_tree::{Node, NodeRef};
use gv_base::{NoMemory, Text};
use package_objects::part_of;
use rule_words::good::{broken, gives_type, good, known, silent};
use rule_words::{Step, look};
use std::alloc::Global;
use type_model::{Term, TypeName};
use type_questions::Found;
use typed_marks::{Facts, Mark, Stage, State};
use typed_tree::Mode;
use unit_read::{Place, Subject};
use variable_rules::judge_variable_object;

fn variable(s: &State, m: Mark) -> Step
    requires { IsMarkOf s.now m }
    ensures is { step_in s.now result ≡ tell (sight s.now) (variable_mark (said s.now m)) }
    ensures over { IsStepOf s.now result }
{
    match known(s, m) {
        Some(x) => good(Facts {
            mode: Mode::Variable,
            of: x.of,
            value: None,
            last: x.of,
        }),
        None => silent(),
    }
}

fn function(s: &State, m: Mark) -> Step
    requires { IsMarkOf s.now m }
    ensures is { step_in s.now result ≡ tell (sight s.now) (function_mark (said s.now m)) }
    ensures over { IsStepOf s.now result }
{
    match known(s, m) {
        Some(x) => good(Facts {
            mode: Mode::Value,
            of: x.of,
            value: None,
            last: x.of,
        }),
        None => silent(),
    }
}

fn alias(s: &State, m: Mark) -> Step
    requires { IsMarkOf s.now m }
    ensures is { step_in s.now result ≡ tell (sight s.now) (alias_mark (said s.now m)) }
    ensures over { IsStepOf s.now result }
{
    match known(s, m) {
        Some(x) => good(Facts {
            mode: x.mode,
            of: x.of,
            value: None,
            last: x.of,
        }),
        None => silent(),
    }
}

fn variable_by(u: &Subject, s: &State, file: u32, n: u32) -> Step
    requires { IsScene u.now s.now }
    ensures is { step_in s.now result ≡ tell (sight s.now) (placed_ask (unit_of u.now) file (Some n) variable_mark) }
    ensures over { IsStepOf s.now result }
{
    match look(u, s, Stage::Placed, file as usize, n) {
        Found::Is(m) => variable(s, m),
        Found::Wait(item) => Step::Waits(item),
    }
}

fn variable_at(u: &Subject, s: &State, file: u32, n: Option<u32>) -> Step
    requires { IsScene u.now s.now }
    ensures is { step_in s.now result ≡ tell (sight s.now) (placed_ask (unit_of u.now) file n variable_mark) }
    ensures over { IsStepOf s.now result }
{
    match n {
        Some(n) => variable_by(u, s, file, n),
        None => silent(),
    }
}

pub(crate) fn function_at(u: &Subject, s: &State, file: u32, n: u32) -> Step
    requires { IsScene u.now s.now }
    ensures is { step_in s.now result ≡ tell (sight s.now) (placed_ask (unit_of u.now) file (Some n) function_mark) }
    ensures over { IsStepOf s.now result }
{
    match look(u, s, Stage::Placed, file as usize, n) {
        Found::Is(m) => function(s, m),
        Found::Wait(item) => Step::Waits(item),
    }
}

fn alias_by(u: &Subject, s: &State, file: u32, n: u32) -> Step
    requires { IsScene u.now s.now }
    ensures is { step_in s.now result ≡ tell (sight s.now) (placed_ask (unit_of u.now) file (Some n) alias_mark) }
    ensures over { IsStepOf s.now result }
{
    match look(u, s, Stage::Placed, file as usize, n) {
        Found::Is(m) => alias(s, m),
        Found::Wait(item) => Step::Waits(item),
    }
}

fn alias_at(u: &Subject, s: &State, file: u32, n: Option<u32>) -> Step
    requires { IsScene u.now s.now }
    ensures is { step_in s.now result ≡ tell (sight s.now) (placed_ask (unit_of u.now) file n alias_mark) }
    ensures over { IsStepOf s.now result }
{
    match n {
        Some(n) => alias_by(u, s, file, n),
        None => silent(),
    }
}

/// The name of the defined type that is declared at a node.
pub fn type_name(alloc: Global, u: &Subject, at: NodeRef, local: u64) -> Result<TypeName, NoMemory>
    requires read { IsRead u.now }
    requires local { option_map (λ n. n.local) (type_name_at (unit_of u.now) at) ≡ Some local }
    ensures { IfOk result (λ n. Some n ≡ type_name_at (unit_of u.now) at) }
{
    let package = Text::of(alloc, u.path_text())?;
    let name = Text::of(alloc, u.name_text(at))?;
    Ok(TypeName {
        package,
        name,
        local,
    })
}

fn defined(alloc: Global, u: &Subject, s: &State, at: NodeRef) -> Result<Step, NoMemory>
    requires { IsScene u.now s.now }
    ensures is { IfOk result (λ step. step_in s.now step ≡ tell (sight s.now) (defined_rule (unit_of u.now) at)) }
    ensures over { IfOk result (IsStepOf s.now) }
{
    match u.local_at(at) {
        Some(local) => {
            let name = type_name(alloc, u, at, local)?;
            Ok(gives_type(Term::Defined(name)))
        }
        None => Ok(silent()),
    }
}

fn judge_form(
    alloc: Global,
    u: &Subject,
    s: &State,
    name: NodeRef,
    p: Place,
    node: &Node,
    form: Named,
) -> Result<Step, NoMemory>
    requires { IsScene u.now s.now }
    ensures is { IfOk result (λ step. step_in s.now step ≡ tell (sight s.now) (form_rule (unit_of u.now) name p node.now form)) }
    ensures over { IfOk result (IsStepOf s.now) }
{
    let file = name.file;
    match form {
        Named::Constant => Ok(judge_constant(u, s, name, p.index)),
        Named::Typed => Ok(variable_at(u, s, file, part_of(node, 1))),
        Named::Valued => Ok(judge_variable_object(u, s, file, node, p.index)),
        Named::Param => Ok(variable_at(u, s, file, Some(p.around))),
        Named::Function => Ok(function_at(u, s, file, p.around)),
        Named::Method => Ok(method_part(u, s, name, p)),
        Named::Defined => {
            let step = defined(alloc, u, s, name)?;
            Ok(step)
        }
        Named::Alias => Ok(alias_at(u, s, file, part_of(node, 1))),
        Named::Map => Ok(map_part(u, s, name, p)),
        Named::Struct => Ok(member_part(u, s, name)),
    }
}

fn judge_kind(
    alloc: Global,
    u: &Subject,
    s: &State,
    name: NodeRef,
    p: Place,
    node: &Node,
) -> Result<Step, NoMemory>
    requires { IsScene u.now s.now }
    ensures is { IfOk result (λ step. step_in s.now step ≡ tell (sight s.now) (kind_rule (unit_of u.now) name p node.now)) }
    ensures over { IfOk result (IsStepOf s.now) }
{
    match named_form(node.kind) {
        Some(form) => {
            let step = judge_form(alloc, u, s, name, p, node, form)?;
            Ok(step)
        }
        None => Ok(silent()),
    }
}

fn object_in(
    alloc: Global,
    u: &Subject,
    s: &State,
    name: NodeRef,
    p: Place,
    node: &Node,
) -> Result<Step, NoMemory>
    requires { IsScene u.now s.now }
    ensures is { IfOk result (λ step. step_in s.now step ≡ tell (sight s.now) (object_in (unit_of u.now) name p node.now)) }
    ensures over { IfOk result (IsStepOf s.now) }
{
    match refusal_of(u, name, is_exempt(u.nodes_at(name.file), node)) {
        Some(rule) => Ok(broken(rule)),
        None => {
            let step = judge_kind(alloc, u, s, name, p, node)?;
            Ok(step)
        }
    }
}

fn placed_object(
    alloc: Global,
    u: &Subject,
    s: &State,
    name: NodeRef,
    p: Place,
) -> Result<Step, NoMemory>
    requires { IsScene u.now s.now }
    ensures is { IfOk result (λ step. step_in s.now step ≡ tell (sight s.now) (placed_object (unit_of u.now) name p)) }
    ensures over { IfOk result (IsStepOf s.now) }
{
    let at = NodeRef {
        file: name.file,
        node: p.around,
    };
    match u.node_at(at) {
        Some(node) => {
            let step = object_in(alloc, u, s, name, p, node)?;
            Ok(step)
        }
        None => Ok(silent()),
    }
}

/// The mark of the object that is declared at a name, or what it waits for.
pub fn judge_object(alloc: Global, u: &Subject, s: &State, name: NodeRef) -> Result<Step, NoMemory>
    requires { IsScene u.now s.now }
    ensures is { IfOk result (λ step. step_in s.now step ≡ tell (sight s.now) (object_rule (unit_of u.now) name)) }
    ensures over { IfOk result (IsStepOf s.now) }
{
    match u.place_at(name) {
        Some(p) => {
            let step = placed_object(alloc, u, s, name, p)?;
            Ok(step)
        }
        None => Ok(silent()),
    }
}
