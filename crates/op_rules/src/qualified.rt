//! Qualified identifiers (Go 1.17, "Qualified identifiers").
ghost use Rattle.std.specs.Prelude.{◌≡◌, ◌<◌, IfOk, Some, IfSome, length};
ghost use Rattle.std.specs.Option.{option_copied};
ghost use Rattle.mark_walk.specs.Telling.{tell};
ghost use Rattle.package_faces.specs.Interfaces.{id_of};
ghost use Rattle.type_model.specs.Tables.{types_in, count};
ghost use Rattle.typed_tree.specs.Basics.{HasBasics};
ghost use Rattle.typed_tree.specs.Places.{exported_mark};
ghost use Rattle.typed_marks.specs.Meanings.{known_in, AreWithin};
ghost use Rattle.unit_read.specs.Exports.{mark_in, uses_in, IsUseIn};
ghost use Rattle.unit_read.specs.Imports.{exported_of};
ghost use Rattle.unit_read.specs.Subjects.{unit_of, IsRead};
ghost use Rattle.rule_words.specs.Scenes.{sight, IsScene, said, IsMarkOf, part_in, IsSeenOf};
ghost use Rattle.rule_words.specs.Answers.{answer_in, IsAnswerOf};
ghost use Rattle.rule_words.specs.Steps.{step_in, IsStepOf};
ghost use Rattle.rule_words.specs.Wanting.{wanted_of, IsWantedOf};
ghost use Rattle.rule_words.specs.Wishes.{IsWishOf, wish_of};
ghost use Rattle.op_rules.specs.Names.{wished, owner_at, selected, owned, selector_rule};

use crate::name::{blank, with_last};
use crate::types::is_basic;
use go_tree::{Node, NodeRef, Object};
use gv_base::{Const, NoMemory};
use package_faces::{ExportForm, Exported};
use package_objects::part_of;
use rule_words::answered::{bad, silent};
use rule_words::modes::is_package;
use rule_words::{Answer, Seen, Step, Wanted, exported, is_blank};
use std::alloc::Global;
use typed_marks::{Facts, Mark, State, Want};
use typed_tree::{Mode, NO_SUCH_FIELD_OR_METHOD, NOT_EXPORTED_BY_PACKAGE};
use unit_read::Subject;

fn owner_at(u: &Subject, at: NodeRef, node: &Node) -> Option<Object>
    requires { IsRead u.now }
    ensures { result ≡ owner_at (unit_of u.now) at node.now }
{
    match part_of(node, 0) {
        Some(n) => u.object_at(NodeRef {
            file: at.file,
            node: n,
        }),
        None => None,
    }
}

fn copied(alloc: Global, c: &Const) -> Result<Const, NoMemory>
    ensures { IfOk result (λ copy. copy ≡ c.now) }
{
    match c {
        Const::Truth(b) => Ok(Const::Truth(*b)),
        Const::Int(n) => Ok(Const::Int(*n)),
        Const::Text(text) => {
            let copy = text.copy(alloc)?;
            Ok(Const::Text(copy))
        }
    }
}

/// A use of what is exported in this form.
fn judge_form(alloc: Global, s: &State, want: Want, form: &ExportForm) -> Result<Answer, NoMemory>
    requires basics { HasBasics s.now.table }
    requires within { (id_of form.now).0 < count s.now.table }
    requires want { IsWishOf s.now want }
    ensures is { IfOk result (λ answer. answer_in s.now answer ≡ wished (wish_of s.now want) (exported_mark (Some (mark_in (types_in s.now.table) form.now)))) }
    ensures over { IfOk result (IsAnswerOf s.now) }
{
    match form {
        ExportForm::Constant(of, c) => {
            let value = copied(alloc, c)?;
            Ok(with_last(s, Mode::Constant, *of, Some(value), want))
        }
        ExportForm::Variable(of) => Ok(with_last(s, Mode::Variable, *of, None, want)),
        ExportForm::Function(of) => Ok(with_last(s, Mode::Value, *of, None, want)),
        ExportForm::Own(of) => Ok(with_last(s, Mode::TypeName, *of, None, want)),
        ExportForm::Alias(of) => Ok(with_last(s, Mode::TypeName, *of, None, want)),
    }
}

/// What a package has for a name: E9 where it hasn't the name.
fn judge_exported(
    alloc: Global,
    s: &State,
    want: Want,
    exported: Option<&Exported>,
) -> Result<Answer, NoMemory>
    requires basics { HasBasics s.now.table }
    requires within { IfSome (option_copied exported) (IsUseIn (count s.now.table)) }
    requires want { IsWishOf s.now want }
    ensures is { IfOk result (λ answer. answer_in s.now answer ≡ wished (wish_of s.now want) (exported_mark (uses_in (types_in s.now.table) (option_copied exported.entry)))) }
    ensures over { IfOk result (IsAnswerOf s.now) }
{
    match exported {
        Some(exported) => {
            let answer = judge_form(alloc, s, want, &exported.form)?;
            Ok(answer)
        }
        // E9
        None => Ok(bad(NOT_EXPORTED_BY_PACKAGE)),
    }
}

fn judge_member(
    alloc: Global,
    u: &Subject,
    s: &State,
    name: &[u8],
    owner: Option<Object>,
    want: Want,
) -> Result<Answer, NoMemory>
    requires scene { IsScene u.now s.now }
    requires want { IsWishOf s.now want }
    ensures is { IfOk result (λ answer. answer_in s.now answer ≡ wished (wish_of s.now want) (exported_mark (exported_of (unit_of u.now) name.now owner))) }
    ensures over { IfOk result (IsAnswerOf s.now) }
{
    let exported = exported(u, s, name, owner);
    let answer = judge_exported(alloc, s, want, exported)?;
    Ok(answer)
}

fn judge_selected(
    alloc: Global,
    u: &Subject,
    s: &State,
    name: &[u8],
    owner: Option<Object>,
    want: Want,
    x: Facts,
) -> Result<Answer, NoMemory>
    requires scene { IsScene u.now s.now }
    requires want { IsWishOf s.now want }
    requires facts { AreWithin (count s.now.table) (length s.now.constants.items) x }
    ensures is { IfOk result (λ answer. answer_in s.now answer ≡ selected (unit_of u.now) name.now owner (wish_of s.now want) (known_in (types_in s.now.table) s.now.constants.items x)) }
    ensures over { IfOk result (IsAnswerOf s.now) }
{
    if is_package(x.mode) {
        let answer = judge_member(alloc, u, s, name, owner, want)?;
        return Ok(answer);
    }
    // E20
    if is_basic(s, x.of) {
        return Ok(bad(NO_SUCH_FIELD_OR_METHOD));
    }
    Ok(silent())
}

fn judge_owned(
    alloc: Global,
    u: &Subject,
    s: &State,
    name: &[u8],
    owner: Option<Object>,
    want: Want,
    a: Mark,
) -> Result<Step, NoMemory>
    requires scene { IsScene u.now s.now }
    requires want { IsWishOf s.now want }
    requires mark { IsMarkOf s.now a }
    ensures is { IfOk result (λ step. step_in s.now step ≡ tell (sight s.now) (owned (unit_of u.now) name.now owner (wish_of s.now want) (said s.now a))) }
    ensures over { IfOk result (IsStepOf s.now) }
{
    let Mark::Good(x) = a else {
        return Ok(Step::Says(silent()));
    };
    let answer = judge_selected(alloc, u, s, name, owner, want, x)?;
    Ok(Step::Says(answer))
}

/// How far the rule of a selector goes: E17, E10, E9, E20.
#[tactic(auto, unfolding(crate::specs::Names::selector_rule))]
pub fn judge_selector(
    alloc: Global,
    u: &Subject,
    s: &State,
    at: NodeRef,
    node: &Node,
    a: Seen,
    w: Wanted,
) -> Result<Step, NoMemory>
    requires scene { IsScene u.now s.now }
    requires part { IsSeenOf s.now a }
    requires wanted { IsWantedOf s.now w }
    ensures is { IfOk result (λ step. step_in s.now step ≡ tell (sight s.now) (selector_rule (unit_of u.now) at node.now (part_in s.now a) (wanted_of s.now w))) }
    ensures over { IfOk result (IsStepOf s.now) }
{
    let name = u.spelled(at.file, node.last);
    if is_blank(name) {
        return Ok(Step::Says(blank(s, w.demand, w.want)));
    }
    let owner = owner_at(u, at, node);
    let step = judge_owned(alloc, u, s, name, owner, w.want, a.mark)?;
    Ok(step)
}
