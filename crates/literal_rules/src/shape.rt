//! Which type a literal has, and what that makes of its elements.
ghost use Rattle.std.specs.Prelude.{◌≡◌, option_map, IfSome};
ghost use Rattle.type_model.specs.GoTypes.{type_of, IsOver};
ghost use Rattle.type_model.specs.Tables.{types_in, count, IsTable};
ghost use Rattle.rule_words.specs.Scenes.{said, IsMarkOf, type_in, IsTypeOf, MayBeTypeOf};
ghost use Rattle.literal_rules.specs.Shapes.{shape_of, literal_of, open_of, bare};
ghost use Rattle.rule_words.specs.Good.{known_of, AreFactsOf};
ghost use Rattle.rule_words.specs.Good.{known_told};
ghost use Rattle.literal_rules.specs.InCode.{shape_in, IsShapeOf, literal_in, IsLiteralOf, may_be_literal, MayBeLiteralOf};

use rule_words::good::known;
use type_model::{Term, TypeId};
use typed_marks::{Facts, Mark, State};
use typed_tree::Want as Demand;

/// Of which form a literal is.
#[derive(Clone, Copy, Drop)]
pub enum Shape {
    /// The fields of this struct type.
    Fields(TypeId),
    /// Elements of a type, with indices below a limit.
    Row(TypeId, u64),
    /// Elements by keys: the type of the keys, and that of the elements.
    Table(TypeId, TypeId),
    /// No literal has such a type.
    Other,
}

/// The type of a literal, if its length doesn't come of its elements, and what that makes of them.
#[derive(Clone, Copy, Drop)]
pub struct Literal {
    pub of: Option<TypeId>,
    pub shape: Shape,
}

fn shape_by(s: &State, under: TypeId, term: &Term) -> Shape
    requires within { IsTypeOf s.now under }
    requires over { IsOver under.0 term.now }
    requires is { type_in s.now under ≡ type_of (types_in s.now.table) term.now }
    ensures is { shape_in s.now result ≡ shape_of (type_in s.now under) }
    ensures over { IsShapeOf s.now result }
{
    match term {
        Term::Struct(_) => Shape::Fields(under),
        Term::Slice(of) => Shape::Row(*of, 9_223_372_036_854_775_808),
        Term::Array(size, of) => Shape::Row(*of, *size),
        Term::Map(key, of) => Shape::Table(*key, *of),
        Term::Basic(_) => Shape::Other,
        Term::Defined(_) => Shape::Other,
        Term::Pointer(_) => Shape::Other,
        Term::Chan(_, _) => Shape::Other,
        Term::Func(_) => Shape::Other,
        Term::Interface(_) => Shape::Other,
    }
}

/// By the underlying type.
pub fn shape_of(s: &State, under: TypeId) -> Shape
    requires table { IsTable s.now.table }
    requires within { IsTypeOf s.now under }
    ensures is { shape_in s.now result ≡ shape_of (type_in s.now under) }
    ensures over { IsShapeOf s.now result }
{
    shape_by(s, under, s.table.term(under))
}

/// A literal of a type with this underlying type.
pub fn literal_of(s: &State, of: TypeId, under: TypeId) -> Literal
    requires table { IsTable s.now.table }
    requires of { IsTypeOf s.now of }
    requires within { IsTypeOf s.now under }
    ensures is { literal_in s.now result ≡ literal_of (type_in s.now of) (type_in s.now under) }
    ensures over { IsLiteralOf s.now result }
{
    Literal {
        of: Some(of),
        shape: shape_of(s, under),
    }
}

/// A literal of a type, where the underlying type is known.
pub fn literal_told(s: &State, of: TypeId, under: Option<TypeId>) -> Option<Literal>
    requires table { IsTable s.now.table }
    requires of { IsTypeOf s.now of }
    requires within { MayBeTypeOf s.now under }
    ensures is { may_be_literal s.now result ≡ option_map (literal_of (type_in s.now of)) (option_map (type_in s.now) under) }
    ensures over { MayBeLiteralOf s.now result }
{
    match under {
        Some(under) => Some(literal_of(s, of, under)),
        None => None,
    }
}

fn open_of(s: &State, x: Facts) -> Literal
    requires { AreFactsOf s.now x }
    ensures is { literal_in s.now result ≡ open_of (known_of s.now x) }
    ensures over { IsLiteralOf s.now result }
{
    let _ = s;
    Literal {
        of: None,
        shape: Shape::Row(x.of, 9_223_372_036_854_775_807),
    }
}

/// A literal of `[...]T`, by the mark of `T`.
pub fn open_told(s: &State, m: Mark) -> Option<Literal>
    requires { IsMarkOf s.now m }
    ensures is { may_be_literal s.now result ≡ option_map open_of (known_told (said s.now m)) }
    ensures over { MayBeLiteralOf s.now result }
{
    match known(s, m) {
        Some(x) => Some(open_of(s, x)),
        None => None,
    }
}

/// A literal in a place of which no type is known.
pub fn bare(s: &State, demand: Demand) -> Option<Literal>
    ensures is { may_be_literal s.now result ≡ bare demand }
    ensures over { MayBeLiteralOf s.now result }
{
    let _ = s;
    let none = Literal {
        of: None,
        shape: Shape::Other,
    };
    match demand {
        Demand::Operand => Some(none),
        Demand::Count => Some(none),
        Demand::Constant => Some(none),
        Demand::Owner => Some(none),
        Demand::Nothing => None,
        Demand::Inside => None,
        Demand::Type => None,
        Demand::Case => None,
    }
}
