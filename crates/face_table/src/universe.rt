//! The table with which marking begins (Go 1.17, "Predeclared identifiers").
ghost use Rattle.std.specs.Prelude.{◌≡◌, ◌<◌, ◌∷◌, [], IfOk, OnOk, None};
ghost use Rattle.type_model.specs.GoTypes.{type_at};
ghost use Rattle.type_model.specs.Tables.{Extends, count, terms_in, types_in, declarations_in};
ghost use Rattle.type_model.specs.declared.term.Term.TheVariants.{Interface};
ghost use Rattle.type_model.specs.declared.term.TypeName.{TypeName as AName};
ghost use Rattle.typed_tree.specs.Basics.{HasBasics};
ghost use Rattle.typed_tree.specs.Universe.{error_name};
ghost use Rattle.face_table.specs.Fitting.{universe};
ghost use Rattle.face_table.specs.Universes.{error_method, error_under};

use gv_base::{NoMemory, Row, Text};
use std::alloc::Global;
use type_model::{Added, Method, Signature, Term, TypeId, TypeName, TypeTable};
use typed_tree::universe_table;

fn text(alloc: Global, word: &str) -> Result<Text, NoMemory>
    ensures { IfOk result (λ text. text ≡ word.now) }
{
    Ok(Text::new(String::from_str(alloc, word)?))
}

/// The type `string`, under its number.
fn results(alloc: Global) -> Result<Row<TypeId>, NoMemory>
    ensures { IfOk result (λ row. row ≡ record { 0 = 12 } ∷ []) }
{
    let mut list = Vec::new(alloc);
    list.push(TypeId(12))?;
    Ok(Row::new(list))
}

/// `Error() string`
fn error_method(alloc: Global) -> Result<Method, NoMemory>
    ensures { IfOk result (λ method. method ≡ error_method) }
{
    let name = text(alloc, "Error")?;
    let package = text(alloc, "")?;
    let results = results(alloc)?;
    Ok(Method {
        name,
        package,
        pointer: false,
        of: Signature {
            params: Row::new(Vec::new(alloc)),
            results,
            variadic: false,
        },
    })
}

/// `interface { Error() string }`
fn error_term(alloc: Global) -> Result<Term, NoMemory>
    ensures { IfOk result (λ term. term ≡ Interface (error_method ∷ [])) }
{
    let method = error_method(alloc)?;
    let mut methods = Vec::new(alloc);
    methods.push(method)?;
    Ok(Term::Interface(Row::new(methods)))
}

/// Adds the underlying type of `error`.
fn add_under(alloc: Global, t: &mut TypeTable) -> Result<TypeId, NoMemory>
    requires basics { HasBasics t.old }
    requires undeclared { (name : AName) → declarations_in t.old name ≡ None }
    ensures basics { OnOk result (HasBasics t.new) }
    ensures extends { OnOk result (Extends (terms_in t.old) (terms_in t.new)) }
    ensures undeclared { OnOk result ((name : AName) → declarations_in t.new name ≡ None) }
    ensures within { IfOk result (λ id. id.0 < count t.new) }
    ensures under { IfOk result (λ id. type_at (types_in t.new) id ≡ error_under) }
{
    let term = error_term(alloc)?;
    let added = t.add(term)?;
    match added {
        Added::Id(id) => Ok(id),
        Added::TooWide => unreachable!(),
    }
}

fn name_of_error(alloc: Global) -> Result<TypeName, NoMemory>
    ensures { IfOk result (λ name. name ≡ error_name) }
{
    let package = text(alloc, "")?;
    let name = text(alloc, "error")?;
    Ok(TypeName {
        package,
        name,
        local: 0,
    })
}

/// Declares `error`.
fn declare_error(alloc: Global, t: &mut TypeTable, under: TypeId) -> Result<(), NoMemory>
    requires basics { HasBasics t.old }
    requires undeclared { (name : AName) → declarations_in t.old name ≡ None }
    requires within { under.0 < count t.old }
    requires under { type_at (types_in t.old) under ≡ error_under }
    ensures basics { OnOk result (HasBasics t.new) }
    ensures extends { OnOk result (Extends (terms_in t.old) (terms_in t.new)) }
    ensures base { OnOk result ((name : AName) → declarations_in t.new name ≡ universe name) }
{
    let name = name_of_error(alloc)?;
    t.declare(name, under, Vec::new(alloc))?;
    Ok(())
}

/// The predeclared types, with `error` declared.
pub fn first_table(alloc: Global) -> Result<TypeTable, NoMemory>
    ensures basics { IfOk result (λ t. HasBasics t) }
    ensures base { IfOk result (λ t. (name : AName) → declarations_in t name ≡ universe name) }
{
    let mut t = universe_table(alloc)?;
    let under = add_under(alloc, &mut t)?;
    declare_error(alloc, &mut t, under)?;
    Ok(t)
}

/// The types of a table under their numbers, with `error` alone declared.
pub fn table_again(alloc: Global, table: TypeTable) -> Result<TypeTable, NoMemory>
    requires { HasBasics table }
    ensures basics { IfOk result (λ t. HasBasics t) }
    ensures extends { IfOk result (λ t. Extends (terms_in table) (terms_in t)) }
    ensures base { IfOk result (λ t. (name : AName) → declarations_in t name ≡ universe name) }
{
    let mut t = table.forget()?;
    let under = add_under(alloc, &mut t)?;
    declare_error(alloc, &mut t, under)?;
    Ok(t)
}
