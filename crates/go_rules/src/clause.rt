//! The package clause.
ghost use Rattle.std.specs.Prelude.{◌≡◌, IfOk};
ghost use Rattle.go_tree.specs.Head.{head_of};
ghost use Rattle.mark_walk.specs.Telling.{tell, Says};
ghost use Rattle.type_model.specs.GoTypes.{BasicType};
ghost use Rattle.typed_tree.specs.Basics.{HasBasics};
ghost use Rattle.unit_read.specs.Subjects.{unit_of};
ghost use Rattle.unit_read.specs.Units.{text_in};
ghost use Rattle.rule_words.specs.Scenes.{sight, type_in, IsTypeOf};
ghost use Rattle.rule_words.specs.Steps.{step_in, IsStepOf};
ghost use Rattle.rule_words.specs.Words.{nothing};
ghost use Rattle.go_rules.specs.Clause.{constraint_limit, clause_limit, clause_mark, clause_rule};

use go_tree::FileTree;
use gv_base::{Kind, NoMemory};
use rule_words::{Answer, Step};
use std::alloc::Global;
use type_model::TypeId;
use typed_marks::{Facts, Mark, State};
use typed_tree::{Limit, Mode, basic};
use unit_read::Subject;

fn constraint_limit(constraint: Option<u32>) -> Option<Limit>
    ensures { result ≡ constraint_limit constraint }
{
    match constraint {
        Some(_) => Some(Limit::BuildConstraint),
        None => None,
    }
}

fn limit_of(alloc: Global, tree: &FileTree, text: &[u8]) -> Result<Option<Limit>, NoMemory>
    ensures { IfOk result (λ limit. limit ≡ constraint_limit (head_of tree.now text.now).constraint) }
{
    let head = tree.head(alloc, text)?;
    Ok(constraint_limit(head.constraint))
}

fn text_in<'a>(u: &Subject<'a>, file: u32) -> &'a [u8]
    ensures { result.now ≡ text_in (unit_of u.now) file }
{
    if (file as usize) < u.texts.len() {
        u.texts[file as usize]
    } else {
        &[]
    }
}

fn clause_limit(alloc: Global, u: &Subject, file: u32) -> Result<Option<Limit>, NoMemory>
    ensures { IfOk result (λ limit. limit ≡ clause_limit (unit_of u.now) file) }
{
    match u.tree_at(file) {
        Some(tree) => {
            let limit = limit_of(alloc, tree, text_in(u, file))?;
            Ok(limit)
        }
        None => Ok(None),
    }
}

fn basic_type(s: &State, kind: Kind) -> TypeId
    requires { HasBasics s.now.table }
    ensures is { type_in s.now result ≡ BasicType kind }
    ensures within { IsTypeOf s.now result }
{
    let _ = s;
    basic(kind)
}

/// What has no value.
pub fn nothing(s: &State) -> Step
    requires { HasBasics s.now.table }
    ensures is { step_in s.now result ≡ Says nothing }
    ensures over { IsStepOf s.now result }
{
    let of = basic_type(s, Kind::UntypedNil);
    Step::Says(Answer::Mark(Mark::Good(Facts {
        mode: Mode::NoValue,
        of,
        value: None,
        last: of,
    })))
}

fn clause_mark(s: &State, limit: Option<Limit>) -> Step
    requires { HasBasics s.now.table }
    ensures is { step_in s.now result ≡ Says (clause_mark limit) }
    ensures over { IsStepOf s.now result }
{
    match limit {
        Some(limit) => Step::Says(Answer::Mark(Mark::Outside(limit))),
        None => nothing(s),
    }
}

/// The mark of the package clause of a file, which bears its build constraint.
pub fn judge_clause(alloc: Global, u: &Subject, s: &State, file: u32) -> Result<Step, NoMemory>
    requires { HasBasics s.now.table }
    ensures is { IfOk result (λ step. step_in s.now step ≡ tell (sight s.now) (clause_rule (unit_of u.now) file)) }
    ensures over { IfOk result (IsStepOf s.now) }
{
    let limit = clause_limit(alloc, u, file)?;
    Ok(clause_mark(s, limit))
}
