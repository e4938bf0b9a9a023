//! What verbs take (package fmt of Go 1.17, "Printing"), as rows.
ghost use Rattle.std.specs.Prelude.{◌≡◌, ◌<◌};
ghost use Rattle.vet_printf.specs.Verbs.{has_flag, is_one_of, row, number_row, text_row, verb_of, takes_boolean, takes_integer, takes_text, takes_pointer, takes_reference, takes_kind, is_refused, refused_flag};

use gv_base::Kind;

/// A class of arguments.
#[derive(Clone, Copy, Drop)]
pub enum Class {
    Boolean,
    Integer,
    IntegerPointer,
    IntegerTextPointer,
    IntegerText,
    Text,
    /// Pointers, slices, maps, channels and functions.
    Reference,
    /// Floating-point and complex numbers, which this profile lacks.
    Nothing,
}

/// What a verb takes.
#[derive(Clone, Copy, Drop)]
pub enum Takes {
    NoArgument,
    Any,
    /// What has a method `Error`.
    Error,
    Of(Class),
}

/// A row of the table of verbs.
#[derive(Clone, Copy, Drop)]
pub struct Verb {
    /// The flags that it takes: 1 for `+`, 2 for `-`, 4 for `#`, 8 for `0` and 16 for the space.
    pub flags: u8,
    pub takes: Takes,
}

// ---- the table

pub(crate) fn is_one_of(verbs: &[u8], verb: char) -> bool
    ensures { result ≡ is_one_of verbs.now verb }
{
    for v in verbs {
        if *v as u32 == verb as u32 {
            return true;
        }
    }
    false
}

fn row(flags: u8, takes: Takes) -> Option<Verb>
    ensures { result ≡ row flags takes }
{
    Some(Verb { flags, takes })
}

fn number_row(verb: char) -> Option<Verb>
    ensures { result ≡ number_row verb }
{
    if is_one_of(b"d", verb) {
        row(27, Takes::Of(Class::IntegerPointer))
    } else if is_one_of(b"boO", verb) {
        row(31, Takes::Of(Class::IntegerPointer))
    } else if is_one_of(b"xX", verb) {
        row(31, Takes::Of(Class::IntegerTextPointer))
    } else if is_one_of(b"eEfFgG", verb) {
        row(31, Takes::Of(Class::Nothing))
    } else {
        None
    }
}

fn text_row(verb: char) -> Option<Verb>
    ensures { result ≡ text_row verb }
{
    if is_one_of(b"q", verb) {
        row(31, Takes::Of(Class::IntegerText))
    } else if is_one_of(b"s", verb) {
        row(27, Takes::Of(Class::Text))
    } else if is_one_of(b"c", verb) {
        row(2, Takes::Of(Class::Integer))
    } else if is_one_of(b"U", verb) {
        row(6, Takes::Of(Class::Integer))
    } else if is_one_of(b"p", verb) {
        row(6, Takes::Of(Class::Reference))
    } else {
        number_row(verb)
    }
}

/// The row of a verb. `None` exactly where it isn't known.
pub fn verb_of(verb: char) -> Option<Verb>
    ensures { result ≡ verb_of verb }
{
    if is_one_of(b"%", verb) {
        row(0, Takes::NoArgument)
    } else if is_one_of(b"v", verb) {
        row(31, Takes::Any)
    } else if is_one_of(b"w", verb) {
        row(31, Takes::Error)
    } else if is_one_of(b"T", verb) {
        row(2, Takes::Any)
    } else if is_one_of(b"t", verb) {
        row(2, Takes::Of(Class::Boolean))
    } else {
        text_row(verb)
    }
}

// ---- classes

fn takes_boolean(class: Class) -> bool
    ensures { result ≡ takes_boolean class }
{
    matches!(class, Class::Boolean)
}

fn takes_integer(class: Class) -> bool
    ensures { result ≡ takes_integer class }
{
    matches!(
        class,
        Class::Integer | Class::IntegerPointer | Class::IntegerTextPointer | Class::IntegerText
    )
}

pub(crate) fn takes_text(class: Class) -> bool
    ensures { result ≡ takes_text class }
{
    matches!(
        class,
        Class::IntegerTextPointer | Class::IntegerText | Class::Text
    )
}

pub(crate) fn takes_pointer(class: Class) -> bool
    ensures { result ≡ takes_pointer class }
{
    matches!(
        class,
        Class::IntegerPointer | Class::IntegerTextPointer | Class::Reference
    )
}

pub(crate) fn takes_reference(class: Class) -> bool
    ensures { result ≡ takes_reference class }
{
    matches!(class, Class::Reference)
}

/// Whether a class has the values of a kind.
pub(crate) fn takes_kind(class: Class, kind: Kind) -> bool
    ensures { result ≡ takes_kind class kind }
{
    (takes_boolean(class) && kind.is_boolean())
        || ((takes_integer(class) && kind.is_integer()) || (takes_text(class) && kind.is_string()))
}

// ---- flags

pub(crate) fn has_flag(flags: u8, weight: u8) -> bool
    requires { 0 < weight }
    ensures { result ≡ has_flag flags weight }
{
    (flags / weight) % 2 == 1
}

fn is_refused(verb: Verb, flags: u8, weight: u8) -> bool
    requires { 0 < weight }
    ensures { result ≡ is_refused verb flags weight }
{
    has_flag(flags, weight) && !has_flag(verb.flags, weight)
}

/// The first flag that a verb doesn't take, as it is written.
pub(crate) fn refused_flag(verb: Verb, flags: u8) -> Option<u8>
    ensures { result ≡ refused_flag verb flags }
{
    if is_refused(verb, flags, 1) {
        Some(b'+')
    } else if is_refused(verb, flags, 2) {
        Some(b'-')
    } else if is_refused(verb, flags, 4) {
        Some(b'#')
    } else if is_refused(verb, flags, 8) {
        Some(b'0')
    } else if is_refused(verb, flags, 16) {
        Some(b' ')
    } else {
        None
    }
}
