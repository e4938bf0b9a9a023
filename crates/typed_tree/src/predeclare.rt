//! A table that has the predeclared types.
ghost use Rattle.std.specs.Prelude.{◌≡◌, ◌+◌, IfOk, OnOk};
ghost use Rattle.typed_tree.specs.Basics.{number_of_kind, HasKinds, IsUniverse};
ghost use Rattle.typed_tree.specs.Universe.{error_name};

use gv_base::{Kind, NoMemory, Text};
use std::alloc::Global;
use type_model::{Added, Term, TypeName, TypeTable};

/// The basic types, in the order of their numbers.
const KINDS: [Kind; 18] = [
    Kind::Bool,
    Kind::Int,
    Kind::Int8,
    Kind::Int16,
    Kind::Int32,
    Kind::Int64,
    Kind::Uint,
    Kind::Uint8,
    Kind::Uint16,
    Kind::Uint32,
    Kind::Uint64,
    Kind::Uintptr,
    Kind::Text,
    Kind::UntypedBool,
    Kind::UntypedInt,
    Kind::UntypedRune,
    Kind::UntypedText,
    Kind::UntypedNil,
];

/// Adds the basic type that comes next.
fn add_basic(t: &mut TypeTable, kind: Kind) -> Result<(), NoMemory>
    requires { HasKinds t.old (number_of_kind kind) }
    ensures { OnOk result (HasKinds t.new (number_of_kind kind + 1)) }
{
    let added = t.add(Term::Basic(kind))?;
    match added {
        Added::Id(_) => Ok(()),
        Added::TooWide => unreachable!(),
    }
}

/// Adds the basic types to a table without types.
fn add_basics(t: &mut TypeTable) -> Result<(), NoMemory>
    requires { HasKinds t.old 0 }
    ensures { OnOk result (HasKinds t.new 18) }
{
    for kind in KINDS {
        add_basic(t, kind)?;
    }
    Ok(())
}

/// The name of the type `error`, which is declared in no package.
fn name_of_error(alloc: Global) -> Result<TypeName, NoMemory>
    ensures { IfOk result (λ name. name ≡ error_name) }
{
    let package = Text::new(String::from_str(alloc, "")?);
    let name = Text::new(String::from_str(alloc, "error")?);
    Ok(TypeName {
        package,
        name,
        local: 0,
    })
}

/// Adds the type `error` behind the basic types.
fn add_error(alloc: Global, t: &mut TypeTable) -> Result<(), NoMemory>
    requires { HasKinds t.old 18 }
    ensures { OnOk result (IsUniverse t.new) }
{
    let name = name_of_error(alloc)?;
    let added = t.add(Term::Defined(name))?;
    match added {
        Added::Id(_) => Ok(()),
        Added::TooWide => unreachable!(),
    }
}

/// The table of the predeclared types (Go 1.17, "Predeclared identifiers"), and of the types of untyped constants.
/// `error` isn't declared in it.
pub fn universe_table(alloc: Global) -> Result<TypeTable, NoMemory>
    ensures { IfOk result (λ t. IsUniverse t) }
{
    let mut t = TypeTable::new(alloc)?;
    add_basics(&mut t)?;
    add_error(alloc, &mut t)?;
    Ok(t)
}
