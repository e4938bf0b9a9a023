//! The marks of literals, by their types.
ghost use Rattle.std.specs.Prelude.{◌≡◌, None, option_map, IfOk};
ghost use Rattle.type_model.specs.Tables.{IsTable};
ghost use Rattle.typed_tree.specs.Basics.{HasBasics};
ghost use Rattle.unit_read.specs.Subjects.{unit_of};
ghost use Rattle.unit_read.specs.Units.{nodes_at};
ghost use Rattle.rule_words.specs.Words.{nothing as nothing_said};
ghost use Rattle.rule_words.specs.Answers.{answer_in, IsAnswerOf};
ghost use Rattle.rule_words.specs.Scenes.{type_in, IsTypeOf, MayBeTypeOf};
ghost use Rattle.rule_words.specs.declared.answer.Answer.TheVariants as answer;
ghost use Rattle.typed_marks.specs.declared.mark.Mark.TheVariants as mark;
ghost use Rattle.literal_rules.specs.Rules.{value_of, made, sized, struct_mark, placed_mark, row_mark, map_mark};
ghost use Rattle.literal_rules.specs.InCode.{fields_in, keys_in, AreKeysOf};

use crate::fields::fields_of;
use crate::items::has_bad;
use crate::maps::map_fault;
use crate::rows::{end_of, positions, row_fault};
use crate::structs::struct_fault;
use go_tree::Node;
use gv_base::{Kind, NoMemory};
use rule_words::Answer;
use rule_words::good::basic_type;
use std::alloc::Global;
use type_model::{Term, TypeId};
use typed_marks::{Facts, Mark, State};
use typed_tree::{Mode, Rule};
use unit_read::Subject;

/// This rule is broken.
pub fn bad(rule: Rule) -> Answer
    ensures { result ≡ answer.Mark (mark.Bad rule) }
{
    Answer::Mark(Mark::Bad(rule))
}

/// Nothing is said.
pub fn silent() -> Answer
    ensures { result ≡ answer.Mark mark.Silent }
{
    Answer::Mark(Mark::Silent)
}

/// What is good, of a type that is its final type.
pub fn good(mode: Mode, of: TypeId) -> Mark
    ensures { result ≡ mark.Good (record { mode = mode; of = of; value = None; last = of }) }
{
    Mark::Good(Facts {
        mode,
        of,
        value: None,
        last: of,
    })
}

fn value_of(s: &State, of: TypeId) -> Answer
    requires { IsTypeOf s.now of }
    ensures is { answer_in s.now result ≡ value_of (type_in s.now of) }
    ensures over { IsAnswerOf s.now result }
{
    let _ = s;
    Answer::Mark(good(Mode::Value, of))
}

/// A literal of a type.
fn made(s: &State, of: Option<TypeId>) -> Answer
    requires { MayBeTypeOf s.now of }
    ensures is { answer_in s.now result ≡ made (option_map (type_in s.now) of) }
    ensures over { IsAnswerOf s.now result }
{
    match of {
        Some(of) => value_of(s, of),
        None => silent(),
    }
}

/// A literal of a type, or of `[...]T` with as many elements.
fn sized(s: &State, count: u64, e: TypeId, of: Option<TypeId>) -> Answer
    requires element { IsTypeOf s.now e }
    requires of { MayBeTypeOf s.now of }
    ensures is { answer_in s.now result ≡ sized count (type_in s.now e) (option_map (type_in s.now) of) }
    ensures over { IsAnswerOf s.now result }
{
    match of {
        Some(of) => value_of(s, of),
        None => Answer::Type(Mode::Value, Term::Array(count, e)),
    }
}

// ---- by shape

/// Of a literal of a struct type with these fields.
pub fn struct_mark(
    alloc: Global,
    u: &Subject,
    s: &State,
    file: u32,
    of: Option<TypeId>,
    fields: TypeId,
    v: &Node,
) -> Result<Answer, NoMemory>
    requires table { IsTable s.now.table }
    requires of { MayBeTypeOf s.now of }
    requires fields { IsTypeOf s.now fields }
    ensures is { IfOk result (λ answer. answer_in s.now answer ≡ struct_mark (unit_of u.now) file (option_map (type_in s.now) of) (fields_in (type_in s.now fields)) (nodes_at (unit_of u.now) file) v.now) }
    ensures over { IfOk result (IsAnswerOf s.now) }
{
    let list = fields_of(s, fields);
    let fault = struct_fault(alloc, u, s, file, list, u.nodes_at(file), v)?;
    match fault {
        Some(rule) => Ok(bad(rule)),
        None => Ok(made(s, of)),
    }
}

fn placed_mark(
    alloc: Global,
    s: &State,
    of: Option<TypeId>,
    e: TypeId,
    limit: u64,
    places: &[Option<u128>],
) -> Result<Answer, NoMemory>
    requires of { MayBeTypeOf s.now of }
    requires element { IsTypeOf s.now e }
    ensures is { IfOk result (λ answer. answer_in s.now answer ≡ placed_mark (option_map (type_in s.now) of) (type_in s.now e) limit places.now) }
    ensures over { IfOk result (IsAnswerOf s.now) }
{
    let fault = row_fault(alloc, limit, places)?;
    match fault {
        Some(rule) => Ok(bad(rule)),
        None => Ok(sized(s, end_of(limit, places), e, of)),
    }
}

/// Of a literal of elements of a type, whose indices are below a limit.
pub fn row_mark(
    alloc: Global,
    s: &State,
    of: Option<TypeId>,
    e: TypeId,
    limit: u64,
    keys: &[Option<Mark>],
) -> Result<Answer, NoMemory>
    requires of { MayBeTypeOf s.now of }
    requires element { IsTypeOf s.now e }
    requires keys { AreKeysOf s.now keys.now }
    ensures is { IfOk result (λ answer. answer_in s.now answer ≡ row_mark (option_map (type_in s.now) of) (type_in s.now e) limit (keys_in s.now keys.now)) }
    ensures over { IfOk result (IsAnswerOf s.now) }
{
    if has_bad(s, keys) {
        return Ok(silent());
    }
    let places = positions(alloc, s, keys)?;
    let answer = placed_mark(alloc, s, of, e, limit, &places)?;
    Ok(answer)
}

/// Of a literal of a map type.
pub fn map_mark(
    alloc: Global,
    s: &State,
    of: Option<TypeId>,
    keys: &[Option<Mark>],
) -> Result<Answer, NoMemory>
    requires table { IsTable s.now.table }
    requires of { MayBeTypeOf s.now of }
    requires keys { AreKeysOf s.now keys.now }
    ensures is { IfOk result (λ answer. answer_in s.now answer ≡ map_mark (option_map (type_in s.now) of) (keys_in s.now keys.now)) }
    ensures over { IfOk result (IsAnswerOf s.now) }
{
    if has_bad(s, keys) {
        return Ok(silent());
    }
    let fault = map_fault(alloc, s, keys)?;
    match fault {
        Some(rule) => Ok(bad(rule)),
        None => Ok(made(s, of)),
    }
}

/// What is good and has no value.
pub fn nothing(s: &State) -> Answer
    requires { HasBasics s.now.table }
    ensures is { answer_in s.now result ≡ nothing_said }
    ensures over { IsAnswerOf s.now result }
{
    Answer::Mark(good(Mode::NoValue, basic_type(s, Kind::UntypedNil)))
}
