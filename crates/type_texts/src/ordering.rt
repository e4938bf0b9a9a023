//! The order of names, and of names with their packages.
ghost use Rattle.std.specs.Prelude.{◌≡◌, IsTrue};
ghost use Rattle.type_model.specs.GoTypes.{methods_of};
ghost use Rattle.type_model.specs.Orders.{AreInOrder};
ghost use Rattle.type_model.specs.Tables.{types_in};
ghost use Rattle.package_faces.specs.Orders.{comes_before, stands_before};
ghost use Rattle.type_texts.specs.Orders.{methods_rise};

use gv_base::Text;
use std::cmp::Ordering;
use type_model::{Method, TypeTable};

/// Whether a name comes before another in byte order.
pub fn precedes(name: &Text, other: &Text) -> bool
    ensures { result ≡ comes_before name.now other.now }
{
    name.as_str().cmp(other.as_str()).is_lt()
}

/// The same of names with their packages.
pub fn method_precedes(one: &Method, other: &Method) -> bool
    ensures { result ≡ stands_before one.now.name one.now.«package» other.now.name other.now.«package» }
{
    match one.name.as_str().cmp(other.name.as_str()) {
        Ordering::Less => true,
        Ordering::Equal => precedes(&one.package, &other.package),
        Ordering::Greater => false,
    }
}

fn in_turn(_table: &TypeTable, methods: &[Method]) -> bool
    ensures { result ≡ methods_rise (methods_of (types_in _table.now) methods.now) }
{
    let Some((first, rest)) = methods.split_first() else {
        return true;
    };
    let mut last = first;
    let mut rest = rest;
    while let [next, more @ ..] = rest {
        if !method_precedes(last, next) {
            return false;
        }
        last = next;
        rest = more;
    }
    true
}

/// Whether the methods stand in order of name and package, each once.
pub fn are_in_order(table: &TypeTable, methods: &[Method]) -> bool
    ensures is { result ≡ methods_rise (methods_of (types_in table.now) methods.now) }
    ensures ordered { IsTrue result → AreInOrder methods.now }
{
    let answer = in_turn(table, methods);
    answer
}
