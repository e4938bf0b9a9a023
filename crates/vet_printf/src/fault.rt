//! What is wrong with a directive of a format, and with the arguments that a call gives to its format.
ghost use Rattle.std.specs.Prelude.{◌≡◌, ◌<◌, ◌^◌, ◌-◌, ◌&&◌, not, length, slice_get};
ghost use Rattle.vet_printf.specs.Faults.{in_class, takes_argument, argument_at, is_integer_at, is_taken_at, or_else, fault_if, flag_fault, wants_error, errorf_fault, beyond, beyond_stars, star_fault, star_faults, type_fault, count_fault, argument_fault, known_fault, directive_fault, first_fault};

use crate::verb::{Class, Takes, Verb, refused_flag, verb_of};
use printf_format::Directive;

/// Which classes have an argument.
#[derive(Clone, Copy, Drop)]
pub struct Classes {
    pub boolean: bool,
    pub integer: bool,
    pub integer_pointer: bool,
    pub integer_text_pointer: bool,
    pub integer_text: bool,
    pub text: bool,
    pub reference: bool,
    pub nothing: bool,
}

/// What is known of an argument behind the format.
#[derive(Clone, Copy, Drop)]
pub struct Argument {
    /// Whether its type is an integer type.
    pub integer: bool,
    /// Whether it has a method `Error`.
    pub error: bool,
    pub classes: Classes,
}

/// A fault of a directive, of a format or of a call.
#[derive(Clone, Copy, Drop)]
pub enum Fault {
    /// The verb isn't known.
    Unknown(char),
    /// The verb doesn't take the flag.
    Flag(char, u8),
    /// `%w` where no error is made.
    Errorf,
    /// An argument is read of so many that it isn't there.
    Reads(u32, u32),
    /// A star reads an argument that is no integer.
    Star(u32),
    /// The verb doesn't take the argument.
    WrongType(char, u32),
    /// The format ends where a verb is due.
    NoVerb,
    /// A `[` in an index's place begins none.
    BadIndex,
    /// As many arguments are read, and there are more.
    Needs(u32, u32),
    /// What is printed as it stands looks like a format.
    Possible,
}

// ---- arguments

fn in_class(x: Classes, class: Class) -> bool
    ensures { result ≡ in_class x class }
{
    match class {
        Class::Boolean => x.boolean,
        Class::Integer => x.integer,
        Class::IntegerPointer => x.integer_pointer,
        Class::IntegerTextPointer => x.integer_text_pointer,
        Class::IntegerText => x.integer_text,
        Class::Text => x.text,
        Class::Reference => x.reference,
        Class::Nothing => x.nothing,
    }
}

fn takes_argument(takes: Takes, x: Argument) -> bool
    ensures { result ≡ takes_argument takes x }
{
    match takes {
        Takes::NoArgument => true,
        Takes::Any => true,
        Takes::Error => x.error,
        Takes::Of(class) => in_class(x.classes, class),
    }
}

fn argument_at(list: &[Argument], n: u32) -> Option<Argument>
    ensures { result ≡ argument_at list.now n }
{
    list.get(n.saturating_sub(1) as usize).copied()
}

fn is_integer_at(list: &[Argument], n: u32) -> bool
    ensures { result ≡ is_integer_at list.now n }
{
    match argument_at(list, n) {
        Some(x) => x.integer,
        None => true,
    }
}

fn is_taken_at(list: &[Argument], takes: Takes, n: u32) -> bool
    ensures { result ≡ is_taken_at list.now takes n }
{
    match argument_at(list, n) {
        Some(x) => takes_argument(takes, x),
        None => true,
    }
}

pub(crate) fn count_of(list: &[Argument]) -> u32
    requires { length list.now < 2 ^ 32 }
    ensures { result ≡ length list.now }
{
    list.len() as u32
}

// ---- faults

pub(crate) fn or_else(a: Option<Fault>, b: Option<Fault>) -> Option<Fault>
    ensures { result ≡ or_else a b }
{
    match a {
        Some(fault) => Some(fault),
        None => b,
    }
}

pub(crate) fn fault_if(b: bool, fault: Fault) -> Option<Fault>
    ensures { result ≡ fault_if b fault }
{
    if b { Some(fault) } else { None }
}

fn flag_fault(verb: Verb, d: &Directive) -> Option<Fault>
    ensures { result ≡ flag_fault verb d.now }
{
    match refused_flag(verb, d.flags) {
        Some(flag) => Some(Fault::Flag(d.verb, flag)),
        None => None,
    }
}

fn wants_error(takes: Takes) -> bool
    ensures { result ≡ wants_error takes }
{
    match takes {
        Takes::NoArgument => false,
        Takes::Any => false,
        Takes::Error => true,
        Takes::Of(_) => false,
    }
}

fn is_misplaced(errorf: bool, verb: Verb) -> bool
    ensures { result ≡ (wants_error verb.takes && not errorf) }
{
    wants_error(verb.takes) && !errorf
}

fn errorf_fault(errorf: bool, verb: Verb) -> Option<Fault>
    ensures { result ≡ errorf_fault errorf verb }
{
    fault_if(is_misplaced(errorf, verb), Fault::Errorf)
}

fn beyond(count: u32, n: u32) -> Option<Fault>
    ensures { result ≡ beyond count n }
{
    fault_if(count < n, Fault::Reads(n, count))
}

fn beyond_stars(count: u32, stars: &[u32]) -> Option<Fault>
    ensures { result ≡ beyond_stars count stars.now }
{
    for n in stars {
        if let Some(fault) = beyond(count, *n) {
            return Some(fault);
        }
    }
    None
}

fn star_fault(list: &[Argument], n: u32) -> Option<Fault>
    ensures { result ≡ star_fault list.now n }
{
    fault_if(!is_integer_at(list, n), Fault::Star(n))
}

fn star_faults(list: &[Argument], stars: &[u32]) -> Option<Fault>
    ensures { result ≡ star_faults list.now stars.now }
{
    for n in stars {
        if let Some(fault) = star_fault(list, *n) {
            return Some(fault);
        }
    }
    None
}

fn type_fault(list: &[Argument], verb: Verb, d: &Directive) -> Option<Fault>
    ensures { result ≡ type_fault list.now verb d.now }
{
    fault_if(
        !is_taken_at(list, verb.takes, d.argument),
        Fault::WrongType(d.verb, d.argument),
    )
}

fn count_fault(list: &[Argument], d: &Directive) -> Option<Fault>
    requires { length list.now < 2 ^ 32 }
    ensures { result ≡ count_fault list.now d.now }
{
    let count = count_of(list);
    or_else(
        beyond_stars(count, d.stars.as_slice()),
        beyond(count, d.argument),
    )
}

fn argument_fault(list: &[Argument], verb: Verb, d: &Directive) -> Option<Fault>
    requires { length list.now < 2 ^ 32 }
    ensures { result ≡ argument_fault list.now verb d.now }
{
    or_else(
        count_fault(list, d),
        or_else(
            star_faults(list, d.stars.as_slice()),
            type_fault(list, verb, d),
        ),
    )
}

fn known_fault(errorf: bool, list: &[Argument], verb: Verb, d: &Directive) -> Option<Fault>
    requires { length list.now < 2 ^ 32 }
    ensures { result ≡ known_fault errorf list.now verb d.now }
{
    or_else(
        flag_fault(verb, d),
        or_else(errorf_fault(errorf, verb), argument_fault(list, verb, d)),
    )
}

/// The first fault of a directive. `errorf` tells whether its format makes an error.
pub fn directive_fault(errorf: bool, list: &[Argument], d: &Directive) -> Option<Fault>
    requires { length list.now < 2 ^ 32 }
    ensures { result ≡ directive_fault errorf list.now d.now }
{
    match verb_of(d.verb) {
        Some(verb) => known_fault(errorf, list, verb, d),
        None => Some(Fault::Unknown(d.verb)),
    }
}

/// That of the first of these directives that has one.
pub fn first_fault(errorf: bool, list: &[Argument], directives: &[Directive]) -> Option<Fault>
    requires { length list.now < 2 ^ 32 }
    ensures { result ≡ first_fault errorf list.now directives.now }
{
    for d in directives {
        if let Some(fault) = directive_fault(errorf, list, d) {
            return Some(fault);
        }
    }
    None
}
