//! Convertibility while names may still be undeclared.
ghost use Rattle.std.specs.Prelude.{◌≡◌, ◌<◌, MatchOption, option_map, IfSome};
ghost use Rattle.type_model.specs.GoTypes.{type_at, MethodsBelow};
ghost use Rattle.type_model.specs.Tables.{types_in, count, IsTable, declarations_in};
ghost use Rattle.type_growth.specs.Lasting.{IsReply};
ghost use Rattle.rel_growth.specs.Assign.{assign_of};
ghost use Rattle.rel_growth.specs.Convert.{part_of, part_in, IsKnownBelow, IsAwaitedBelow, EnoughToConvert, NeedsToConvert, SaysConvertible};

use crate::assigning::assign;
use type_growth::{Reply, is_missing};
use type_model::{Method, Term, TypeId, TypeTable};
use type_rel::{Operand, convertible};

fn part_of_term(term: &Term) -> Option<TypeId>
    ensures { result ≡ part_in term.now }
{
    match term {
        Term::Pointer(of) => Some(*of),
        Term::Slice(of) => Some(*of),
        Term::Basic(_) => None,
        Term::Defined(_) => None,
        Term::Array(_, _) => None,
        Term::Map(_, _) => None,
        Term::Chan(_, _) => None,
        Term::Func(_) => None,
        Term::Struct(_) => None,
        Term::Interface(_) => None,
    }
}

/// The base type of a pointer type, the element type of a slice type.
fn part(t: &TypeTable, a: TypeId) -> Option<TypeId>
    requires table { IsTable t.now }
    requires within { a.0 < count t.now }
    ensures is { option_map (λ id. type_at (types_in t.now) id) result ≡ part_of (type_at (types_in t.now) a) }
    ensures within { IfSome result (λ id. id.0 < count t.now) }
{
    part_of_term(t.term(a))
}

/// The type itself, or what stands below it, where that isn't declared.
fn awaited_below(t: &TypeTable, a: TypeId) -> Option<TypeId>
    requires table { IsTable t.now }
    requires within { a.0 < count t.now }
    ensures { MatchOption result (IsKnownBelow (declarations_in t.now) (type_at (types_in t.now) a)) (IsAwaitedBelow t.now (type_at (types_in t.now) a)) }
{
    match t.underlying(a) {
        None => Some(a),
        Some(under) => match part(t, under) {
            None => None,
            Some(of) => {
                if is_missing(t, of) {
                    return Some(of);
                }
                None
            }
        },
    }
}

/// Whether an operand may be converted to the type `to`, as `convertible` tells it, once enough is declared; else
/// a type that has to be declared first. It takes no memory.
pub fn convert(t: &TypeTable, x: &Operand, methods: &[Method], to: TypeId) -> Reply<bool>
    requires table { IsTable t.now }
    requires operand { x.now.of.0 < count t.now }
    requires methods { MethodsBelow (count t.now) methods.now }
    requires within { to.0 < count t.now }
    ensures { IsReply EnoughToConvert NeedsToConvert SaysConvertible t.now (assign_of t.now x.now methods.now to) result }
{
    match assign(t, x, methods, to) {
        Reply::Waits(id) => Reply::Waits(id),
        Reply::Is(yes) => {
            if yes {
                return Reply::Is(convertible(t, x, methods, to));
            }
            match awaited_below(t, x.of) {
                Some(id) => Reply::Waits(id),
                None => match awaited_below(t, to) {
                    Some(id) => Reply::Waits(id),
                    None => Reply::Is(convertible(t, x, methods, to)),
                },
            }
        }
    }
}
