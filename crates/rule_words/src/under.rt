//! Underlying types.
ghost use Rattle.std.specs.Prelude.{◌≡◌, ◌<◌, ℕ, Some, None, option_map, IfSome, MatchOption};
ghost use Rattle.mark_walk.specs.Telling.{tell};
ghost use Rattle.type_model.specs.GoTypes.{DefinedType, type_at, type_of};
ghost use Rattle.type_model.specs.Tables.{types_in, count, IsTable, declarations_in};
ghost use Rattle.type_model.specs.declared.term.TypeName.{TypeName};
ghost use Rattle.typed_marks.specs.States.{so_far};
ghost use Rattle.unit_read.specs.Subjects.{unit_of, IsRead};
ghost use Rattle.rule_words.specs.Asking.{under_at, type_item, nowhere_of, item_for, under_ask, mark_under};
ghost use Rattle.rule_words.specs.Scenes.{sight, IsScene, told_by, IfFound, said, IsMarkOf, type_in, IsTypeOf, MayBeTypeOf};

use crate::marks::stands;
use go_tree::NodeRef;
use type_model::{Term, TypeId, TypeName, TypeTable};
use type_questions::Found;
use typed_marks::{Item, Mark, Stage, State};
use unit_read::Subject;

fn under_at(u: &Subject, at: NodeRef) -> Option<Item>
    requires { IsRead u.now }
    ensures { result ≡ under_at (unit_of u.now) at }
{
    if !stands(u, at.file as usize, at.node as usize) {
        return None;
    }
    Some(Item {
        stage: Stage::Under,
        block: at.file as usize,
        node: at.node as usize,
    })
}

/// The item that declares a defined type of this package.
fn type_item(u: &Subject, name: &TypeName) -> Option<Item>
    requires { IsRead u.now }
    ensures { result ≡ type_item (unit_of u.now) name.now }
{
    match u.type_node(name) {
        Some(at) => under_at(u, at),
        None => None,
    }
}

/// For what is waited where nothing that is known declares a type. It is never marked.
fn nowhere(u: &Subject) -> Item
    requires { IsRead u.now }
    ensures { result ≡ nowhere_of (unit_of u.now) }
{
    Item {
        stage: Stage::Under,
        block: u.passages.len(),
        node: 0,
    }
}

/// The item that declares a type of this name, of this package or of one that isn't known.
fn item_for(u: &Subject, name: &TypeName) -> Item
    requires { IsRead u.now }
    ensures { result ≡ item_for (unit_of u.now) name.now }
{
    match type_item(u, name) {
        Some(item) => item,
        None => nowhere(u),
    }
}

/// The item that declares a type, if it is a defined one.
fn item_of(u: &Subject, t: &TypeTable, of: TypeId) -> Option<Item>
    requires read { IsRead u.now }
    requires table { IsTable t.now }
    requires within { of.0 < count t.now }
    ensures { (name : TypeName) → type_at (types_in t.now) of ≡ DefinedType name → result ≡ Some (item_for (unit_of u.now) name) }
{
    match t.term(of) {
        Term::Defined(name) => Some(item_for(u, name)),
        _ => None,
    }
}

/// The item that has to be marked before more is known of what a type of a table is declared with: that which declares it, while it
/// has no mark. Where nothing that is known declares it, that never comes.
pub fn pending(u: &Subject, s: &State, t: &TypeTable, of: TypeId) -> Option<Item>
    requires scene { IsScene u.now s.now }
    requires table { IsTable t.now }
    requires within { of.0 < count t.now }
    ensures waits { IfSome result (λ item. so_far s.now item ≡ None) }
    ensures is { (name : TypeName) → type_at (types_in t.now) of ≡ DefinedType name → IfSome result (λ item. item_for (unit_of u.now) name ≡ item) }
    ensures none { (name : TypeName) → type_at (types_in t.now) of ≡ DefinedType name → result ≡ None → ¬ (so_far s.now (item_for (unit_of u.now) name) ≡ None) }
{
    match item_of(u, t, of) {
        Some(item) => { if s.is_marked(item) { None } else { Some(item) } }
        None => None,
    }
}

/// The underlying type of a type, or the item for which it waits, be it for ever. None where its declaration gives nothing.
pub fn under_of(u: &Subject, s: &State, of: TypeId) -> Found<Option<TypeId>, Item>
    requires scene { IsScene u.now s.now }
    requires within { IsTypeOf s.now of }
    ensures is { told_by (option_map (type_in s.now)) result ≡ tell (sight s.now) (under_ask (unit_of u.now) (type_in s.now of)) }
    ensures within { IfFound result (MayBeTypeOf s.now) }
{
    match s.table.underlying(of) {
        Some(under) => Found::Is(Some(under)),
        None => match pending(u, s, &s.table, of) {
            Some(item) => Found::Wait(item),
            None => Found::Is(None),
        },
    }
}

/// The underlying type of the final type of a good mark.
pub fn mark_under(u: &Subject, s: &State, m: Mark) -> Found<Option<TypeId>, Item>
    requires scene { IsScene u.now s.now }
    requires mark { IsMarkOf s.now m }
    ensures is { told_by (option_map (type_in s.now)) result ≡ tell (sight s.now) (mark_under (unit_of u.now) (said s.now m)) }
    ensures within { IfFound result (MayBeTypeOf s.now) }
{
    match m {
        Mark::Good(facts) => under_of(u, s, facts.last),
        Mark::Bad(_) => Found::Is(None),
        Mark::Outside(_) => Found::Is(None),
        Mark::Silent => Found::Is(None),
        Mark::Wants(_, _) => Found::Is(None),
        Mark::Declared(_) => Found::Is(None),
    }
}
