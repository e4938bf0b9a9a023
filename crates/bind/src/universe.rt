//! The names that the language declares.
ghost use Rattle.std.specs.Prelude.{◌≡◌, ℕ, List, IfOk};
ghost use Rattle.bind.specs.Places.{placed, place_from};
ghost use Rattle.bind.specs.Universe.{predeclared};

use crate::places::places;
use gv_base::NoMemory;
use std::alloc::Global;
use std::collections::HashMap;

/// The names of the universe block in byte order (Go 1.17, "Predeclared identifiers").
#[rattlefmt::skip]
const PREDECLARED: [&[u8]; 39] = [
    b"append", b"bool", b"byte", b"cap", b"close", b"complex", b"complex128", b"complex64",
    b"copy", b"delete", b"error", b"false", b"float32", b"float64", b"imag", b"int",
    b"int16", b"int32", b"int64", b"int8", b"iota", b"len", b"make", b"new", b"nil",
    b"panic", b"print", b"println", b"real", b"recover", b"rune", b"string", b"true",
    b"uint", b"uint16", b"uint32", b"uint64", b"uint8", b"uintptr",
];

/// The place of each predeclared name among them.
pub fn universe(alloc: Global) -> Result<HashMap<&'static [u8], usize>, NoMemory>
    ensures { IfOk result (λ table. (q : List ℕ) → placed table q ≡ place_from 0 predeclared q) }
{
    let table = places(alloc, &PREDECLARED)?;
    Ok(table)
}
