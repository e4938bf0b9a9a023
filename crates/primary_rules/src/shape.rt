//! Underlying types by what a primary expression can make of them.
ghost use Rattle.std.specs.Prelude.{◌≡◌};
ghost use Rattle.type_model.specs.GoTypes.{type_of, IsOver};
ghost use Rattle.type_model.specs.Tables.{types_in};
ghost use Rattle.typed_tree.specs.Basics.{HasBasics};
ghost use Rattle.rule_words.specs.Scenes.{type_in, IsTypeOf};
ghost use Rattle.primary_rules.specs.InCode.{shape_in, IsShapeOf};
ghost use Rattle.primary_rules.specs.Shapes.{shape_of};

use type_model::{Dir, Term, TypeId};
use type_rel::has_texts;
use typed_marks::State;

/// A string type, typed or untyped, a slice, an array, a map, a pointer, a channel, an interface, or another.
#[derive(Clone, Copy, PartialEq, Eq, Drop)]
pub enum Shape {
    Texts,
    Slices(TypeId),
    Arrays(u64, TypeId),
    Maps(TypeId, TypeId),
    Pointers(TypeId),
    Channels(Dir, TypeId),
    Interfaces,
    Others,
}

#[tactic(auto, unfolding(crate::specs::Shapes::shape_of))]
fn shape_of_term(s: &State, t: TypeId, term: &Term) -> Shape
    requires within { IsTypeOf s.now t }
    requires over { IsOver t.0 term.now }
    ensures is { shape_in s.now result ≡ shape_of (type_of (types_in s.now.table) term.now) }
    ensures over { IsShapeOf s.now result }
{
    let _ = t;
    match term {
        Term::Basic(kind) => {
            if has_texts(*kind) {
                Shape::Texts
            } else {
                Shape::Others
            }
        }
        Term::Defined(_) => Shape::Others,
        Term::Pointer(of) => Shape::Pointers(*of),
        Term::Slice(of) => Shape::Slices(*of),
        Term::Array(size, of) => Shape::Arrays(*size, *of),
        Term::Map(key, of) => Shape::Maps(*key, *of),
        Term::Chan(direction, of) => Shape::Channels(*direction, *of),
        Term::Func(_) => Shape::Others,
        Term::Struct(_) => Shape::Others,
        Term::Interface(_) => Shape::Interfaces,
    }
}

/// The shape of a type.
pub fn shape_of(s: &State, t: TypeId) -> Shape
    requires basics { HasBasics s.now.table }
    requires within { IsTypeOf s.now t }
    ensures is { shape_in s.now result ≡ shape_of (type_in s.now t) }
    ensures over { IsShapeOf s.now result }
{
    shape_of_term(s, t, s.table.term(t))
}
