//! The relations of types, asked over the marks so far.
ghost use Rattle.std.specs.Prelude.{◌<◌, IfOk};
ghost use Rattle.type_model.specs.GoTypes.{type_at, methods_of, MethodsBelow};
ghost use Rattle.type_model.specs.Tables.{types_in, count, IsTable, declarations_in};
ghost use Rattle.type_rel.specs.Answers.{IsInterface};
ghost use Rattle.type_growth.specs.Growth.{IsKnown};
ghost use Rattle.type_growth.specs.Lasting.{IsReply};
ghost use Rattle.rel_growth.specs.Assign.{assign_of};
ghost use Rattle.rel_growth.specs.Implement.{EnoughToImplement, NeedsToImplement, SaysImplements, implement_of};
ghost use Rattle.type_questions.specs.Questions.{AssignableTo, ConvertibleTo, IsComparable, MissingMethod, Holds, Implementing, IsFound};
ghost use Rattle.type_questions.specs.Judging.{IsInStep};

use crate::reach::reach;
use crate::reached::{Found, Reached};
use crate::seen::Seen;
use gv_base::NoMemory;
use rel_growth::{assign, compare, convert};
use std::alloc::Global;
use type_growth::{Reply, is_missing};
use type_model::{Method, TypeId, TypeTable};
use type_rel::{Implements, Operand, implements};

/// Whether an operand may be assigned to a variable of the type `to` (Go 1.17, "Assignability"). The methods
/// are the operand's method set, where `to` is an interface. It takes no memory.
pub fn assignable_to<S: Seen>(
    seen: &S,
    t: &TypeTable,
    x: &Operand,
    methods: &[Method],
    to: TypeId,
) -> Found<Reached<bool>, S::Item>
    requires seen { S.IsSeen seen.now }
    requires table { IsTable t.now }
    requires step { IsInStep t.now (S.base (S.subject seen.now)) (S.under (S.subject seen.now)) S.reads (S.so_far seen.now) }
    requires operand { x.now.of.0 < count t.now }
    requires methods { MethodsBelow (count t.now) methods.now }
    requires within { to.0 < count t.now }
    ensures { IsFound (S.base (S.subject seen.now)) (S.under (S.subject seen.now)) S.reads (S.so_far seen.now) (AssignableTo (assign_of t.now x.now methods.now to)) Holds result }
{
    let reply = assign(t, x, methods, to);
    reach(seen, t, reply)
}

/// Whether an operand may be converted to the type `to` (Go 1.17, "Conversions"). It takes no memory.
pub fn convertible_to<S: Seen>(
    seen: &S,
    t: &TypeTable,
    x: &Operand,
    methods: &[Method],
    to: TypeId,
) -> Found<Reached<bool>, S::Item>
    requires seen { S.IsSeen seen.now }
    requires table { IsTable t.now }
    requires step { IsInStep t.now (S.base (S.subject seen.now)) (S.under (S.subject seen.now)) S.reads (S.so_far seen.now) }
    requires operand { x.now.of.0 < count t.now }
    requires methods { MethodsBelow (count t.now) methods.now }
    requires within { to.0 < count t.now }
    ensures { IsFound (S.base (S.subject seen.now)) (S.under (S.subject seen.now)) S.reads (S.so_far seen.now) (ConvertibleTo (assign_of t.now x.now methods.now to)) Holds result }
{
    let reply = convert(t, x, methods, to);
    reach(seen, t, reply)
}

/// Whether values of a type may be compared (Go 1.17, "Comparison operators").
pub fn is_comparable<S: Seen>(
    alloc: Global,
    seen: &S,
    t: &TypeTable,
    of: TypeId,
) -> Result<Found<Reached<bool>, S::Item>, NoMemory>
    requires seen { S.IsSeen seen.now }
    requires table { IsTable t.now }
    requires step { IsInStep t.now (S.base (S.subject seen.now)) (S.under (S.subject seen.now)) S.reads (S.so_far seen.now) }
    requires within { of.0 < count t.now }
    ensures { IfOk result (λ found. IsFound (S.base (S.subject seen.now)) (S.under (S.subject seen.now)) S.reads (S.so_far seen.now) (IsComparable (type_at (types_in t.now) of)) Holds found) }
{
    let reply = compare(alloc, t, of)?;
    Ok(reach(seen, t, reply))
}

/// What `implements` answers, once the interface is declared.
fn implement(
    alloc: Global,
    t: &TypeTable,
    methods: &[Method],
    of: TypeId,
) -> Result<Reply<Implements>, NoMemory>
    requires table { IsTable t.now }
    requires methods { MethodsBelow (count t.now) methods.now }
    requires within { of.0 < count t.now }
    requires interface { IsKnown (declarations_in t.now) (type_at (types_in t.now) of) → IsInterface (declarations_in t.now) (type_at (types_in t.now) of) }
    ensures { IfOk result (IsReply EnoughToImplement NeedsToImplement SaysImplements t.now (implement_of t.now methods.now of)) }
{
    if is_missing(t, of) {
        return Ok(Reply::Waits(of));
    }
    let answer = implements(alloc, t, methods, of)?;
    Ok(Reply::Is(answer))
}

/// Whether a method set has each method of an interface, and else the first of them, by name, that it lacks
/// (Go 1.17, "Implementing an interface"). Once the type `of` is known it has to be an interface.
pub fn missing_method<S: Seen>(
    alloc: Global,
    seen: &S,
    t: &TypeTable,
    methods: &[Method],
    of: TypeId,
) -> Result<Found<Reached<Implements>, S::Item>, NoMemory>
    requires seen { S.IsSeen seen.now }
    requires table { IsTable t.now }
    requires step { IsInStep t.now (S.base (S.subject seen.now)) (S.under (S.subject seen.now)) S.reads (S.so_far seen.now) }
    requires methods { MethodsBelow (count t.now) methods.now }
    requires within { of.0 < count t.now }
    requires interface { IsKnown (declarations_in t.now) (type_at (types_in t.now) of) → IsInterface (declarations_in t.now) (type_at (types_in t.now) of) }
    ensures { IfOk result (λ found. IsFound (S.base (S.subject seen.now)) (S.under (S.subject seen.now)) S.reads (S.so_far seen.now) (MissingMethod (implement_of t.now methods.now of)) Implementing found) }
{
    let reply = implement(alloc, t, methods, of)?;
    Ok(reach(seen, t, reply))
}
