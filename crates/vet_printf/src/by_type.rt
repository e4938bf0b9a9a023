//! What is known of an argument by its type.
ghost use Rattle.std.specs.Prelude.{◌≡◌, ◌<◌, List, IfOk};
ghost use Rattle.type_model.specs.GoTypes.{GoType, type_at, type_of};
ghost use Rattle.type_model.specs.Tables.{IsTable, types_in, count, declarations_in};
ghost use Rattle.vet_printf.specs.Faults.{in_class};
ghost use Rattle.vet_printf.specs.InTable.{IsAsked, IsSuited};
ghost use Rattle.vet_printf.specs.Tables.{is_integer_form, is_integer_type, IsArgumentOf};

use crate::asking::{Asked, asked_of};
use crate::fault::{Argument, Classes};
use crate::suiting::suits;
use crate::verb::Class;
use gv_base::NoMemory;
use std::alloc::Global;
use type_model::{Term, TypeId, TypeTable};

fn is_integer_form(term: &Term) -> bool
    ensures { (types : List GoType) → result ≡ is_integer_form (type_of types term.now) }
{
    match term {
        Term::Basic(kind) => kind.is_integer(),
        Term::Defined(_) => false,
        Term::Pointer(_) => false,
        Term::Slice(_) => false,
        Term::Array(_, _) => false,
        Term::Map(_, _) => false,
        Term::Chan(_, _) => false,
        Term::Func(_) => false,
        Term::Struct(_) => false,
        Term::Interface(_) => false,
    }
}

fn is_integer_at(t: &TypeTable, u: TypeId) -> bool
    requires table { IsTable t.now }
    requires within { u.0 < count t.now }
    ensures { result ≡ is_integer_form (type_at (types_in t.now) u) }
{
    is_integer_form(t.term(u))
}

fn is_integer_type(t: &TypeTable, id: TypeId) -> bool
    requires table { IsTable t.now }
    requires within { id.0 < count t.now }
    ensures { result ≡ is_integer_type (declarations_in t.now) (type_at (types_in t.now) id) }
{
    match t.underlying(id) {
        Some(u) => is_integer_at(t, u),
        None => false,
    }
}

/// Which classes have arguments of a type.
fn classes_of(alloc: Global, t: &TypeTable, asked: Asked, id: TypeId) -> Result<Classes, NoMemory>
    requires table { IsTable t.now }
    requires within { id.0 < count t.now }
    requires asked { IsAsked t.now id.0 asked }
    ensures { IfOk result (λ x. (class : Class) → IsSuited t.now class id.0 (in_class x class)) }
{
    let boolean = suits(alloc, t, Class::Boolean, asked, id)?;
    let integer = suits(alloc, t, Class::Integer, asked, id)?;
    let integer_pointer = suits(alloc, t, Class::IntegerPointer, asked, id)?;
    let integer_text_pointer = suits(alloc, t, Class::IntegerTextPointer, asked, id)?;
    let integer_text = suits(alloc, t, Class::IntegerText, asked, id)?;
    let text = suits(alloc, t, Class::Text, asked, id)?;
    let reference = suits(alloc, t, Class::Reference, asked, id)?;
    let nothing = suits(alloc, t, Class::Nothing, asked, id)?;
    Ok(Classes {
        boolean,
        integer,
        integer_pointer,
        integer_text_pointer,
        integer_text,
        text,
        reference,
        nothing,
    })
}

/// What is known of an argument of a type.
pub fn argument_of(alloc: Global, t: &TypeTable, id: TypeId) -> Result<Argument, NoMemory>
    requires table { IsTable t.now }
    requires within { id.0 < count t.now }
    ensures { IfOk result (IsArgumentOf (declarations_in t.now) (type_at (types_in t.now) id)) }
{
    let integer = is_integer_type(t, id);
    let asked = asked_of(alloc, t, id)?;
    let classes = classes_of(alloc, t, asked, id)?;
    Ok(Argument {
        integer,
        error: asked.error,
        classes,
    })
}
