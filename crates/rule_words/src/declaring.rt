//! Declarations of types.
ghost use Rattle.std.specs.Prelude.{◌≡◌, None, true, IfOk, OnOk, length};
ghost use Rattle.mark_walk.specs.Asks.{Adds};
ghost use Rattle.type_model.specs.GoTypes.{DefinedType, is_defined};
ghost use Rattle.type_model.specs.Tables.{declarations_in, IsTable};
ghost use Rattle.rel_growth.specs.Compare.{EnoughToCompare};
ghost use Rattle.typed_marks.specs.Items.{IsItem};
ghost use Rattle.typed_marks.specs.Meanings.{Declares};
ghost use Rattle.typed_marks.specs.States.{so_far};
ghost use Rattle.unit_read.specs.Subjects.{unit_of};
ghost use Rattle.rule_words.specs.Scenes.{IsScene, type_in, IsTypeOf};
ghost use Rattle.rule_words.specs.Declaring.{declaration_in, IsDeclaration};

use gv_base::NoMemory;
use std::alloc::Global;
use type_model::{Method, Term, TypeId, TypeName};
use typed_marks::{Item, State};
use unit_read::Subject;

/// How far the rule has gone that says what a type is declared with.
#[derive(Drop)]
pub enum Declaring {
    /// Nothing: it is refused or cyclic, or its type expression isn't good.
    Nothing,
    /// The item for whose mark the rule waits.
    Waits(Item),
    /// This defined type is declared with this underlying type and these methods, once all that it holds is declared.
    With(TypeId, TypeId, Vec<Method>),
}

fn copied(alloc: Global, name: &TypeName) -> Result<TypeName, NoMemory>
    ensures { IfOk result (λ copy. copy ≡ name.now) }
{
    let package = name.package.copy(alloc)?;
    let text = name.name.copy(alloc)?;
    Ok(TypeName {
        package,
        name: text,
        local: name.local,
    })
}

fn name_of(alloc: Global, s: &State, of: TypeId) -> Result<TypeName, NoMemory>
    requires table { IsTable s.now.table }
    requires within { IsTypeOf s.now of }
    requires defined { is_defined (type_in s.now of) ≡ true }
    ensures { IfOk result (λ name. type_in s.now of ≡ DefinedType name) }
{
    match s.table.term(of) {
        Term::Defined(name) => {
            let copy = copied(alloc, name)?;
            Ok(copy)
        }
        _ => unreachable!(),
    }
}

/// Declares a type, and marks its item, which has no mark.
pub fn declare(
    alloc: Global,
    u: &Subject,
    s: &mut State,
    item: Item,
    of: TypeId,
    under: TypeId,
    methods: Vec<Method>,
) -> Result<(), NoMemory>
    requires scene { IsScene u.now s.old }
    requires item { IsItem s.old.blocks.items item }
    requires unmarked { so_far s.old item ≡ None }
    requires is { IsDeclaration (unit_of u.now) s.old item of under methods.items }
    requires whole { EnoughToCompare (declarations_in s.old.table) (type_in s.old under) }
    ensures scene { OnOk result (IsScene u.now s.new) }
    ensures adds { OnOk result (Adds (so_far s.old) (so_far s.new) item (Declares (declaration_in s.old under methods.items))) }
    ensures blocks { OnOk result (s.new.blocks ≡ s.old.blocks) }
    ensures cells { OnOk result (length s.new.cells.items ≡ length s.old.cells.items) }
{
    let name = name_of(alloc, s, of)?;
    s.declare(item, of, name, under, methods)?;
    Ok(())
}
