//! Types of which built-in functions take values (Go 1.17, "Built-in functions").
ghost use Rattle.std.specs.Prelude.{◌≡◌, option_map};
ghost use Rattle.type_model.specs.GoTypes.{type_of};
ghost use Rattle.type_model.specs.Tables.{types_in};
ghost use Rattle.typed_tree.specs.Basics.{HasBasics};
ghost use Rattle.rule_words.specs.Scenes.{type_in, IsTypeOf, MayBeTypeOf};
ghost use Rattle.builtin_rules.specs.Musts.{has_length, has_capacity, is_slice, is_map, may_send, is_sender, is_chan, copies_from, copies_into, copies, is_array, is_filled};

use crate::types::{is_byte, is_string, slice_of, term_of};
use same_types::same_type;
use type_model::{Dir, Term, TypeId};
use type_rel::has_texts;
use typed_marks::State;

// ---- the first argument

#[tactic(auto, unfolding(crate::specs::Musts::has_length))]
fn has_length_term(s: &State, term: &Term) -> bool
    ensures { result ≡ has_length (type_of (types_in s.now.table) term.now) }
{
    let _ = s;
    match term {
        Term::Basic(kind) => has_texts(*kind),
        Term::Defined(_) => false,
        Term::Pointer(_) => false,
        Term::Slice(_) => true,
        Term::Array(_, _) => true,
        Term::Map(_, _) => true,
        Term::Chan(_, _) => true,
        Term::Func(_) => false,
        Term::Struct(_) => false,
        Term::Interface(_) => false,
    }
}

/// A string, an array, a slice, a map or a channel.
pub fn has_length(s: &State, t: TypeId) -> bool
    requires basics { HasBasics s.now.table }
    requires within { IsTypeOf s.now t }
    ensures { result ≡ has_length (type_in s.now t) }
{
    has_length_term(s, term_of(s, t))
}

#[tactic(auto, unfolding(crate::specs::Musts::has_capacity))]
fn has_capacity_term(s: &State, term: &Term) -> bool
    ensures { result ≡ has_capacity (type_of (types_in s.now.table) term.now) }
{
    let _ = s;
    match term {
        Term::Basic(_) => false,
        Term::Defined(_) => false,
        Term::Pointer(_) => false,
        Term::Slice(_) => true,
        Term::Array(_, _) => true,
        Term::Map(_, _) => false,
        Term::Chan(_, _) => true,
        Term::Func(_) => false,
        Term::Struct(_) => false,
        Term::Interface(_) => false,
    }
}

/// An array, a slice or a channel.
pub fn has_capacity(s: &State, t: TypeId) -> bool
    requires basics { HasBasics s.now.table }
    requires within { IsTypeOf s.now t }
    ensures { result ≡ has_capacity (type_in s.now t) }
{
    has_capacity_term(s, term_of(s, t))
}

/// A slice.
#[tactic(auto, unfolding(crate::specs::Musts::is_slice))]
pub fn is_slice(s: &State, t: TypeId) -> bool
    requires basics { HasBasics s.now.table }
    requires within { IsTypeOf s.now t }
    ensures { result ≡ is_slice (type_in s.now t) }
{
    match slice_of(s, t) {
        Some(_) => true,
        None => false,
    }
}

#[tactic(auto, unfolding(crate::specs::Musts::is_map))]
fn is_map_term(s: &State, term: &Term) -> bool
    ensures { result ≡ is_map (type_of (types_in s.now.table) term.now) }
{
    let _ = s;
    match term {
        Term::Basic(_) => false,
        Term::Defined(_) => false,
        Term::Pointer(_) => false,
        Term::Slice(_) => false,
        Term::Array(_, _) => false,
        Term::Map(_, _) => true,
        Term::Chan(_, _) => false,
        Term::Func(_) => false,
        Term::Struct(_) => false,
        Term::Interface(_) => false,
    }
}

/// A map.
pub fn is_map(s: &State, t: TypeId) -> bool
    requires basics { HasBasics s.now.table }
    requires within { IsTypeOf s.now t }
    ensures { result ≡ is_map (type_in s.now t) }
{
    is_map_term(s, term_of(s, t))
}

fn may_send(direction: Dir) -> bool
    ensures { result ≡ may_send direction }
{
    match direction {
        Dir::Both => true,
        Dir::Send => true,
        Dir::Receive => false,
    }
}

#[tactic(auto, unfolding(crate::specs::Musts::is_sender))]
fn is_sender_term(s: &State, term: &Term) -> bool
    ensures { result ≡ is_sender (type_of (types_in s.now.table) term.now) }
{
    let _ = s;
    match term {
        Term::Basic(_) => false,
        Term::Defined(_) => false,
        Term::Pointer(_) => false,
        Term::Slice(_) => false,
        Term::Array(_, _) => false,
        Term::Map(_, _) => false,
        Term::Chan(direction, _) => may_send(*direction),
        Term::Func(_) => false,
        Term::Struct(_) => false,
        Term::Interface(_) => false,
    }
}

/// A channel that isn't receive-only.
pub fn is_sender(s: &State, t: TypeId) -> bool
    requires basics { HasBasics s.now.table }
    requires within { IsTypeOf s.now t }
    ensures { result ≡ is_sender (type_in s.now t) }
{
    is_sender_term(s, term_of(s, t))
}

#[tactic(auto, unfolding(crate::specs::Musts::is_chan))]
fn is_chan_term(s: &State, term: &Term) -> bool
    ensures { result ≡ is_chan (type_of (types_in s.now.table) term.now) }
{
    let _ = s;
    match term {
        Term::Basic(_) => false,
        Term::Defined(_) => false,
        Term::Pointer(_) => false,
        Term::Slice(_) => false,
        Term::Array(_, _) => false,
        Term::Map(_, _) => false,
        Term::Chan(_, _) => true,
        Term::Func(_) => false,
        Term::Struct(_) => false,
        Term::Interface(_) => false,
    }
}

/// A channel.
fn is_chan(s: &State, t: TypeId) -> bool
    requires basics { HasBasics s.now.table }
    requires within { IsTypeOf s.now t }
    ensures { result ≡ is_chan (type_in s.now t) }
{
    is_chan_term(s, term_of(s, t))
}

/// A map or a channel.
pub fn is_filled(s: &State, t: TypeId) -> bool
    requires basics { HasBasics s.now.table }
    requires within { IsTypeOf s.now t }
    ensures { result ≡ is_filled (type_in s.now t) }
{
    is_map(s, t) || is_chan(s, t)
}

fn is_array_term(s: &State, term: &Term) -> bool
    ensures { result ≡ is_array (type_of (types_in s.now.table) term.now) }
{
    let _ = s;
    match term {
        Term::Basic(_) => false,
        Term::Defined(_) => false,
        Term::Pointer(_) => false,
        Term::Slice(_) => false,
        Term::Array(_, _) => true,
        Term::Map(_, _) => false,
        Term::Chan(_, _) => false,
        Term::Func(_) => false,
        Term::Struct(_) => false,
        Term::Interface(_) => false,
    }
}

/// An array.
pub fn is_array(s: &State, t: TypeId) -> bool
    requires basics { HasBasics s.now.table }
    requires within { IsTypeOf s.now t }
    ensures { result ≡ is_array (type_in s.now t) }
{
    is_array_term(s, term_of(s, t))
}

// ---- `copy`

fn copies_from(s: &State, element: TypeId, other: Option<TypeId>) -> bool
    requires basics { HasBasics s.now.table }
    requires element { IsTypeOf s.now element }
    requires other { MayBeTypeOf s.now other }
    ensures { result ≡ copies_from (type_in s.now element) (option_map (type_in s.now) other) }
{
    match other {
        Some(other) => same_type(&s.table, element, other),
        None => false,
    }
}

fn copies_into(s: &State, from: TypeId, element: TypeId) -> bool
    requires basics { HasBasics s.now.table }
    requires from { IsTypeOf s.now from }
    requires element { IsTypeOf s.now element }
    ensures { result ≡ copies_into (type_in s.now from) (type_in s.now element) }
{
    if is_string(s, from) {
        is_byte(s, element)
    } else {
        copies_from(s, element, slice_of(s, from))
    }
}

/// Whether a value of the second type is copied into one of the first.
#[tactic(auto, unfolding(crate::specs::Musts::copies))]
pub fn copies(s: &State, to: TypeId, from: TypeId) -> bool
    requires basics { HasBasics s.now.table }
    requires to { IsTypeOf s.now to }
    requires from { IsTypeOf s.now from }
    ensures { result ≡ copies (type_in s.now to) (type_in s.now from) }
{
    match slice_of(s, to) {
        Some(element) => copies_into(s, from, element),
        None => false,
    }
}
