//! Range clauses.
ghost use Rattle.rule_words.specs.Asking.{under_ask};
ghost use Rattle.mark_walk.specs.Asks.{bind};
ghost use Rattle.std.specs.Prelude.{◌≡◌, option_map, ◌==◌, if◌then◌else◌, None};
ghost use Rattle.mark_walk.specs.Telling.{tell, Says};
ghost use Rattle.typed_tree.specs.Basics.{HasBasics};
ghost use Rattle.typed_tree.specs.Operands.{is_text};
ghost use Rattle.unit_read.specs.Subjects.{unit_of};
ghost use Rattle.rule_words.specs.Good.{known_of, AreFactsOf};
ghost use Rattle.rule_words.specs.Scenes.{sight, IsScene, told_by, IfFound, type_in, IsTypeOf, MayBeTypeOf};
ghost use Rattle.assign_rules.specs.InCode.{ranged_in, IsRangedOf, ranging_in, IsRangingOf};
ghost use Rattle.assign_rules.specs.Ranging.{pair_of, indexed, text_ranged, only_one, received_from, ranging_of, pointed_ranging, pointed_told, ranging_under, ranging_told, ranging_ask, ranged_type};

use gv_base::Kind;
use rule_words::good::basic_type;
use rule_words::under_of;
use type_model::{Dir, Term, TypeId};
use type_questions::Found;
use typed_marks::{Facts, Item, State};
use unit_read::Subject;

/// The types of the first and the second value; a channel gives one.
#[derive(Clone, Copy, PartialEq, Eq, Drop)]
pub struct Ranged {
    pub first: TypeId,
    pub second: Option<TypeId>,
}

/// What is known of the operand of a range clause.
#[derive(Clone, Copy, PartialEq, Eq, Drop)]
pub enum Ranging {
    /// Nothing: its underlying type isn't known.
    Unknown,
    /// It can't be ranged over.
    Refused,
    /// What a range over it gives.
    Gives(Ranged),
}

// ---- the table of the section

fn pair_of(s: &State, first: TypeId, second: TypeId) -> Ranged
    requires first { IsTypeOf s.now first }
    requires second { IsTypeOf s.now second }
    ensures is { ranged_in s.now result ≡ pair_of (type_in s.now first) (type_in s.now second) }
    ensures within { IsRangedOf s.now result }
{
    let _ = s;
    Ranged {
        first,
        second: Some(second),
    }
}

fn indexed(s: &State, of: TypeId) -> Ranged
    requires basics { HasBasics s.now.table }
    requires of { IsTypeOf s.now of }
    ensures is { ranged_in s.now result ≡ indexed (type_in s.now of) }
    ensures within { IsRangedOf s.now result }
{
    pair_of(s, basic_type(s, Kind::Int), of)
}

fn has_texts(kind: Kind) -> bool
    ensures { result ≡ is_text kind }
{
    matches!(kind, Kind::Text | Kind::UntypedText)
}

fn text_ranging(s: &State, kind: Kind) -> Ranging
    requires { HasBasics s.now.table }
    ensures is { ranging_in s.now result ≡ ranging_of (text_ranged kind) }
    ensures within { IsRangingOf s.now result }
{
    if has_texts(kind) {
        Ranging::Gives(indexed(s, basic_type(s, Kind::Int32)))
    } else {
        Ranging::Refused
    }
}

fn only_one(s: &State, of: TypeId) -> Ranged
    requires { IsTypeOf s.now of }
    ensures is { ranged_in s.now result ≡ only_one (type_in s.now of) }
    ensures within { IsRangedOf s.now result }
{
    let _ = s;
    Ranged {
        first: of,
        second: None,
    }
}

fn received_from(s: &State, direction: Dir, of: TypeId) -> Ranging
    requires { IsTypeOf s.now of }
    ensures is { ranging_in s.now result ≡ ranging_of (received_from direction (type_in s.now of)) }
    ensures within { IsRangingOf s.now result }
{
    match direction {
        Dir::Both => Ranging::Gives(only_one(s, of)),
        Dir::Receive => Ranging::Gives(only_one(s, of)),
        Dir::Send => Ranging::Refused,
    }
}

#[tactic(auto, unfolding(crate::specs::Ranging::pointed_ranging))]
fn pointed_ranging(s: &State, under: TypeId) -> Ranging
    requires basics { HasBasics s.now.table }
    requires within { IsTypeOf s.now under }
    ensures is { ranging_in s.now result ≡ pointed_ranging (type_in s.now under) }
    ensures within { IsRangingOf s.now result }
{
    match s.table.term(under) {
        Term::Array(_, of) => Ranging::Gives(indexed(s, *of)),
        Term::Basic(_) => Ranging::Refused,
        Term::Defined(_) => Ranging::Refused,
        Term::Pointer(_) => Ranging::Refused,
        Term::Slice(_) => Ranging::Refused,
        Term::Map(_, _) => Ranging::Refused,
        Term::Chan(_, _) => Ranging::Refused,
        Term::Func(_) => Ranging::Refused,
        Term::Struct(_) => Ranging::Refused,
        Term::Interface(_) => Ranging::Refused,
    }
}

fn pointed_in(s: &State, under: Option<TypeId>) -> Ranging
    requires basics { HasBasics s.now.table }
    requires within { MayBeTypeOf s.now under }
    ensures is { Says (ranging_in s.now result) ≡ tell (sight s.now) (pointed_told (option_map (type_in s.now) under)) }
    ensures within { IsRangingOf s.now result }
{
    match under {
        Some(under) => pointed_ranging(s, under),
        None => Ranging::Unknown,
    }
}

fn pointed(u: &Subject, s: &State, of: TypeId) -> Found<Ranging, Item>
    requires scene { IsScene u.now s.now }
    requires within { IsTypeOf s.now of }
    ensures is { told_by (ranging_in s.now) result ≡ tell (sight s.now) (bind (under_ask (unit_of u.now) (type_in s.now of)) pointed_told) }
    ensures within { IfFound result (IsRangingOf s.now) }
{
    match under_of(u, s, of) {
        Found::Is(under) => Found::Is(pointed_in(s, under)),
        Found::Wait(item) => Found::Wait(item),
    }
}

/// Of an underlying type, what a range over it gives.
#[tactic(auto, unfolding(crate::specs::Ranging::ranging_under))]
fn ranging_under(u: &Subject, s: &State, under: TypeId) -> Found<Ranging, Item>
    requires scene { IsScene u.now s.now }
    requires within { IsTypeOf s.now under }
    ensures is { told_by (ranging_in s.now) result ≡ tell (sight s.now) (ranging_under (unit_of u.now) (type_in s.now under)) }
    ensures within { IfFound result (IsRangingOf s.now) }
{
    match s.table.term(under) {
        Term::Array(_, of) => Found::Is(Ranging::Gives(indexed(s, *of))),
        Term::Slice(of) => Found::Is(Ranging::Gives(indexed(s, *of))),
        Term::Map(key, of) => Found::Is(Ranging::Gives(pair_of(s, *key, *of))),
        Term::Chan(direction, of) => Found::Is(received_from(s, *direction, *of)),
        Term::Basic(kind) => Found::Is(text_ranging(s, *kind)),
        Term::Pointer(of) => pointed(u, s, *of),
        Term::Defined(_) => Found::Is(Ranging::Refused),
        Term::Func(_) => Found::Is(Ranging::Refused),
        Term::Struct(_) => Found::Is(Ranging::Refused),
        Term::Interface(_) => Found::Is(Ranging::Refused),
    }
}

fn ranging_told(u: &Subject, s: &State, under: Option<TypeId>) -> Found<Ranging, Item>
    requires scene { IsScene u.now s.now }
    requires within { MayBeTypeOf s.now under }
    ensures is { told_by (ranging_in s.now) result ≡ tell (sight s.now) (ranging_told (unit_of u.now) (option_map (type_in s.now) under)) }
    ensures within { IfFound result (IsRangingOf s.now) }
{
    match under {
        Some(under) => ranging_under(u, s, under),
        None => Found::Is(Ranging::Unknown),
    }
}

/// What is known of the operand of a range clause.
#[tactic(auto, unfolding(crate::specs::Ranging::ranging_ask))]
pub fn ranging_of(u: &Subject, s: &State, x: Facts) -> Found<Ranging, Item>
    requires scene { IsScene u.now s.now }
    requires facts { AreFactsOf s.now x }
    ensures is { told_by (ranging_in s.now) result ≡ tell (sight s.now) (ranging_ask (unit_of u.now) (known_of s.now x)) }
    ensures within { IfFound result (IsRangingOf s.now) }
{
    match under_of(u, s, x.last) {
        Found::Is(under) => ranging_told(u, s, under),
        Found::Wait(item) => Found::Wait(item),
    }
}

fn second_of(s: &State, r: Ranged, i: usize) -> Option<TypeId>
    requires { IsRangedOf s.now r }
    ensures is { option_map (type_in s.now) result ≡ (if i == 1 then (ranged_in s.now r).second else None) }
    ensures within { MayBeTypeOf s.now result }
{
    let _ = s;
    if i == 1 { r.second } else { None }
}

/// The type of the value at a place.
pub fn ranged_type(s: &State, i: usize, r: Ranged) -> Option<TypeId>
    requires { IsRangedOf s.now r }
    ensures is { option_map (type_in s.now) result ≡ ranged_type i (ranged_in s.now r) }
    ensures within { MayBeTypeOf s.now result }
{
    if i == 0 {
        Some(r.first)
    } else {
        second_of(s, r, i)
    }
}
