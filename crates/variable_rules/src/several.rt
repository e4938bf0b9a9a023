//! What one value gives to several names.
ghost use Rattle.std.specs.Prelude.{◌≡◌, ◌==◌, length, option_map, if◌then◌else◌, Some, None, IfSome, slice_get};
ghost use Rattle.type_model.specs.GoTypes.{AreBelow};
ghost use Rattle.type_model.specs.Tables.{count, IsTable};
ghost use Rattle.typed_tree.specs.Basics.{HasBasics};
ghost use Rattle.rule_words.specs.Good.{known_of, AreFactsOf};
ghost use Rattle.rule_words.specs.Scenes.{type_in, IsTypeOf, MayBeTypeOf};
ghost use Rattle.variable_rules.specs.Several.{results_of, ok_type, with_ok, given_by, given_to};
ghost use Rattle.variable_rules.specs.InCode.{types_of};

use gv_base::Kind;
use rule_words::good::basic_type;
use type_model::{Term, TypeId};
use typed_marks::{Facts, State};
use typed_tree::Mode;

/// The results of a function type.
pub fn results_of(s: &State, of: TypeId) -> &[TypeId]
    requires table { IsTable s.now.table }
    requires within { IsTypeOf s.now of }
    ensures is { types_of s.now result.now ≡ results_of (type_in s.now of) }
    ensures below { AreBelow (count s.now.table) result.now }
{
    match s.table.term(of) {
        Term::Func(signature) => signature.results.as_slice(),
        Term::Basic(_) => &[],
        Term::Defined(_) => &[],
        Term::Pointer(_) => &[],
        Term::Slice(_) => &[],
        Term::Array(_, _) => &[],
        Term::Map(_, _) => &[],
        Term::Chan(_, _) => &[],
        Term::Struct(_) => &[],
        Term::Interface(_) => &[],
    }
}

fn id_at(list: &[TypeId], i: usize) -> Option<TypeId>
    ensures { result ≡ slice_get list.now i }
{
    list.get(i).copied()
}

/// One of some types.
fn nth(s: &State, list: &[TypeId], i: usize) -> Option<TypeId>
    requires { AreBelow (count s.now.table) list.now }
    ensures is { option_map (type_in s.now) result ≡ slice_get (types_of s.now list.now) i }
    ensures within { MayBeTypeOf s.now result }
{
    let _ = s;
    id_at(list, i)
}

fn result_at(s: &State, x: Facts, count: usize, i: usize) -> Option<TypeId>
    requires table { IsTable s.now.table }
    requires facts { AreFactsOf s.now x }
    ensures is { option_map (type_in s.now) result ≡ (if length (results_of (type_in s.now x.of)) == count then slice_get (results_of (type_in s.now x.of)) i else None) }
    ensures within { MayBeTypeOf s.now result }
{
    let results = results_of(s, x.of);
    if results.len() == count {
        nth(s, results, i)
    } else {
        None
    }
}

/// The type of the second value.
fn second(s: &State, i: usize) -> Option<TypeId>
    requires { HasBasics s.now.table }
    ensures is { option_map (type_in s.now) result ≡ (if i == 1 then Some ok_type else None) }
    ensures within { MayBeTypeOf s.now result }
{
    if i == 1 {
        Some(basic_type(s, Kind::Bool))
    } else {
        None
    }
}

fn with_ok(s: &State, of: TypeId, i: usize) -> Option<TypeId>
    requires basics { HasBasics s.now.table }
    requires of { IsTypeOf s.now of }
    ensures is { option_map (type_in s.now) result ≡ with_ok (type_in s.now of) i }
    ensures within { MayBeTypeOf s.now result }
{
    if i == 0 { Some(of) } else { second(s, i) }
}

fn pair_at(s: &State, of: TypeId, count: usize, i: usize) -> Option<TypeId>
    requires basics { HasBasics s.now.table }
    requires of { IsTypeOf s.now of }
    ensures is { option_map (type_in s.now) result ≡ (if count == 2 then with_ok (type_in s.now of) i else None) }
    ensures within { MayBeTypeOf s.now result }
{
    if count == 2 { with_ok(s, of, i) } else { None }
}

/// The type of what a value gives to the name at a place, of so many; None where it doesn't give so many values.
pub fn given_to(s: &State, x: Facts, count: usize, i: usize) -> Option<TypeId>
    requires basics { HasBasics s.now.table }
    requires facts { AreFactsOf s.now x }
    ensures is { option_map (type_in s.now) result ≡ given_to (known_of s.now x) count i }
    ensures within { MayBeTypeOf s.now result }
{
    match x.mode {
        Mode::Many => result_at(s, x, count, i),
        Mode::CommaOk => pair_at(s, x.last, count, i),
        Mode::MapIndex => pair_at(s, x.last, count, i),
        Mode::NoValue => None,
        Mode::TypeName => None,
        Mode::Constant => None,
        Mode::Variable => None,
        Mode::Value => None,
        Mode::Nil => None,
        Mode::Builtin => None,
        Mode::Package => None,
    }
}
