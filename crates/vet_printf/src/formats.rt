//! What is wrong with a whole format, and with a text that is printed as it stands.
ghost use Rattle.std.specs.Prelude.{◌≡◌, ◌<◌, ◌^◌, ◌&&◌, not, is_some, codes, length};
ghost use Rattle.std.specs.List.{list_any};
ghost use Rattle.vet_printf.specs.Verbs.{has_flag, is_one_of, verb_of};
ghost use Rattle.vet_printf.specs.Formats.{larger, most_star, most_of, most_read, is_indexed, is_left, left_over, ending_fault, format_fault, is_possible, has_possible};

use crate::fault::{Argument, Fault, count_of, fault_if, first_fault, or_else};
use crate::verb::{has_flag, is_one_of, verb_of};
use printf_format::{Directive, Ending, FormatRead};

// ---- arguments that are left

fn larger(a: u32, b: u32) -> u32
    ensures { result ≡ larger a b }
{
    if a < b { b } else { a }
}

fn most_star(so_far: u32, stars: &[u32]) -> u32
    ensures { result ≡ most_star so_far stars.now }
{
    let mut most = so_far;
    for n in stars {
        most = larger(most, *n);
    }
    most
}

fn most_of(so_far: u32, d: &Directive) -> u32
    ensures { result ≡ most_of so_far d.now }
{
    larger(most_star(so_far, d.stars.as_slice()), d.argument)
}

fn most_read(so_far: u32, directives: &[Directive]) -> u32
    ensures { result ≡ most_read so_far directives.now }
{
    let mut most = so_far;
    for d in directives {
        most = most_of(most, d);
    }
    most
}

fn reads_by_index(d: &Directive) -> bool
    ensures { result ≡ d.now.indexed }
{
    d.indexed
}

fn is_indexed(directives: &[Directive]) -> bool
    ensures { result ≡ is_indexed directives.now }
{
    for d in directives {
        if reads_by_index(d) {
            return true;
        }
    }
    false
}

fn is_left(list: &[Argument], directives: &[Directive]) -> bool
    requires { length list.now < 2 ^ 32 }
    ensures { result ≡ is_left list.now directives.now }
{
    !is_indexed(directives) && most_read(0, directives) < count_of(list)
}

fn left_over(list: &[Argument], directives: &[Directive]) -> Option<Fault>
    requires { length list.now < 2 ^ 32 }
    ensures { result ≡ left_over list.now directives.now }
{
    let most = most_read(0, directives);
    let count = count_of(list);
    fault_if(is_left(list, directives), Fault::Needs(most, count))
}

// ---- a format

fn ending_fault(list: &[Argument], directives: &[Directive], ending: Ending) -> Option<Fault>
    requires { length list.now < 2 ^ 32 }
    ensures { result ≡ ending_fault list.now directives.now ending }
{
    match ending {
        Ending::Over => left_over(list, directives),
        Ending::NoVerb { at: _ } => Some(Fault::NoVerb),
        Ending::BadIndex { at: _ } => Some(Fault::BadIndex),
    }
}

/// The first fault of a format. `errorf` tells whether it makes an error.
pub fn format_fault(errorf: bool, list: &[Argument], read: &FormatRead) -> Option<Fault>
    requires { length list.now < 2 ^ 32 }
    ensures { result ≡ format_fault errorf list.now read.now }
{
    let directives = read.directives.as_slice();
    or_else(
        first_fault(errorf, list, directives),
        ending_fault(list, directives, read.ending),
    )
}

// ---- a text that is printed as it stands

fn is_known(verb: char) -> bool
    ensures { result ≡ is_some (verb_of verb) }
{
    verb_of(verb).is_some()
}

fn is_plain(d: &Directive) -> bool
    ensures { result ≡ (not (is_one_of (codes "%") d.now.verb) && not (has_flag d.now.flags 16)) }
{
    !is_one_of(b"%", d.verb) && !has_flag(d.flags, 16)
}

fn is_possible(d: &Directive) -> bool
    ensures { result ≡ is_possible d.now }
{
    is_known(d.verb) && is_plain(d)
}

fn any_possible(directives: &[Directive]) -> bool
    ensures { result ≡ list_any is_possible directives.now }
{
    for d in directives {
        if is_possible(d) {
            return true;
        }
    }
    false
}

/// Whether a text that is printed as it stands looks like a format.
pub fn has_possible(read: &FormatRead) -> bool
    ensures { result ≡ has_possible read.now }
{
    any_possible(read.directives.as_slice())
}
