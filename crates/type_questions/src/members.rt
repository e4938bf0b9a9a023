//! What a type has, asked over the marks so far.
ghost use Rattle.std.specs.Prelude.{◌<◌, IfOk};
ghost use Rattle.type_model.specs.GoTypes.{type_at};
ghost use Rattle.type_model.specs.Tables.{types_in, count, IsTable};
ghost use Rattle.method_sets.specs.Levels.{chosen_in, select_of};
ghost use Rattle.method_sets.specs.Replies.{listed_in};
ghost use Rattle.type_questions.specs.Questions.{FieldOrMethod, MethodSet, Selecting, Listing, IsFound};
ghost use Rattle.type_questions.specs.Judging.{IsInStep, AreMethodsBelow, seen_as};

use crate::reach::reach;
use crate::reached::{Found, Reached};
use crate::seen::Seen;
use gv_base::NoMemory;
use method_sets::{Selection, choose, list};
use std::alloc::Global;
use type_model::{Method, TypeId, TypeTable};

/// What a name that is written in the package `from` selects from a type (Go 1.17, "Selectors").
pub fn field_or_method<S: Seen>(
    alloc: Global,
    seen: &S,
    t: &TypeTable,
    of: TypeId,
    name: &str,
    from: &str,
) -> Result<Found<Reached<Selection>, S::Item>, NoMemory>
    requires seen { S.IsSeen seen.now }
    requires table { IsTable t.now }
    requires step { IsInStep t.now (S.base (S.subject seen.now)) (S.under (S.subject seen.now)) S.reads (S.so_far seen.now) }
    requires within { of.0 < count t.now }
    ensures { IfOk result (λ found. IsFound (S.base (S.subject seen.now)) (S.under (S.subject seen.now)) S.reads (S.so_far seen.now) (FieldOrMethod (select_of t.now of name.now from.now)) (λ reached. Selecting (seen_as (chosen_in t.now) reached)) found) }
{
    let reply = choose(alloc, t, of, name, from)?;
    Ok(reach(seen, t, reply))
}

/// The methods of a type's method set, in order of name and package (Go 1.17, "Method sets").
pub fn method_set_of<S: Seen>(
    alloc: Global,
    seen: &S,
    t: &TypeTable,
    of: TypeId,
) -> Result<Found<Reached<Vec<Method>>, S::Item>, NoMemory>
    requires seen { S.IsSeen seen.now }
    requires table { IsTable t.now }
    requires step { IsInStep t.now (S.base (S.subject seen.now)) (S.under (S.subject seen.now)) S.reads (S.so_far seen.now) }
    requires within { of.0 < count t.now }
    ensures told { IfOk result (λ found. IsFound (S.base (S.subject seen.now)) (S.under (S.subject seen.now)) S.reads (S.so_far seen.now) (MethodSet (type_at (types_in t.now) of)) (λ reached. Listing (seen_as (λ methods. listed_in t.now methods.items) reached)) found) }
    ensures below { IfOk result (λ found. AreMethodsBelow t.now found) }
{
    let reply = list(alloc, t, of)?;
    Ok(reach(seen, t, reply))
}
