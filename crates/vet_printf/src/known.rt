//! What is known of functions by name and by number.
ghost use Rattle.std.specs.Prelude.{◌≡◌, ◌<◌, ◌^◌, ℕ, List, map, bytes_eq, option_map};
ghost use Rattle.std.specs.Option.{option_copied};
ghost use Rattle.go_tree.specs.Lexeme.{place_of};
ghost use Rattle.object_order.specs.Spots.{place};
ghost use Rattle.unit_read.specs.Index.{found};
ghost use Rattle.findings.specs.Passes.{unit_in, marks_in};
ghost use Rattle.handed_facts.specs.Handed.{path_in};
ghost use Rattle.least.specs.Tables.{member};
ghost use Rattle.member_names.specs.InCode.{named_in, found_named};
ghost use Rattle.own_functions.specs.Functions.{number};
ghost use Rattle.vet_printf.specs.Handing.{cell_in};
ghost use Rattle.vet_printf.specs.Knowing.{has_number, given_as, handed_in, called_at, own_place, IsKnown};
ghost use Rattle.vet_printf.specs.Wraps.{number_of};

use fact_codec::{WrapKind, Wraps};
use findings::Pass;
use handed_facts::Handed;
use member_names::Named;
use own_functions::Declared;
use std::collections::HashMap;
use unit_read::find;

/// What is known of a package's functions, and of those of other packages.
#[derive(Drop)]
pub(crate) struct Known<'k, 'a> {
    pub handed: &'k Handed<'a, Wraps>,
    pub list: &'a [Declared],
    pub numbers: &'k HashMap<&'a [u8], usize>,
    /// What each call with `...` calls.
    pub cells: &'k [Vec<Option<Named>>],
}

/// The number of a kind, as kinds are added.
pub(crate) fn number_of(kind: WrapKind) -> u8
    ensures { result ≡ number_of kind }
{
    match kind {
        WrapKind::Print => 1,
        WrapKind::Printf => 2,
        WrapKind::Errorf => 4,
    }
}

// ---- functions of other packages

fn has_kind(fact: &Wraps, kind: WrapKind) -> bool
    ensures { result ≡ has_number (number_of kind) fact.now }
{
    fact.has(kind)
}

fn given_as(known: &Known<'_, '_>, kind: WrapKind, path: &[u8], name: &str) -> bool
    requires { (q : List ℕ) → found known.now.handed.now.places q ≡ place_of (map path_in known.now.handed.now.given.now) q }
    ensures { result ≡ given_as known.now.handed.now.given.now known.now.handed.now.tables.items (number_of kind) path.now name.now }
{
    match known.handed.get(path, name) {
        Some(fact) => has_kind(fact, kind),
        None => false,
    }
}

/// Whether other packages' facts have a function with this kind.
pub(crate) fn is_given(p: &Pass, known: &Known<'_, '_>, kind: WrapKind, x: &Named) -> bool
    requires { IsKnown (unit_in p.now) (marks_in p.now) known.now }
    ensures { result ≡ handed_in known.now (member x.now.path x.now.name (number_of kind)) }
{
    let _ = p;
    given_as(known, kind, x.path.as_str().as_bytes(), x.name.as_str())
}

// ---- functions of the package

fn is_own(p: &Pass, x: &Named) -> bool
    ensures { result ≡ bytes_eq x.now.path (unit_in p.now).path }
{
    x.path.as_str().as_bytes() == p.subject.path
}

pub(crate) fn own_place(p: &Pass, known: &Known<'_, '_>, x: &Named) -> Option<usize>
    requires { IsKnown (unit_in p.now) (marks_in p.now) known.now }
    ensures { result ≡ own_place (unit_in p.now) x.now.path x.now.name }
{
    if is_own(p, x) {
        find(known.numbers, x.name.as_str().as_bytes())
    } else {
        None
    }
}

fn as_number(p: &Pass, i: usize) -> u32
    requires { i < 2 ^ 32 }
    ensures { result ≡ i }
{
    let _ = p;
    i as u32
}

/// The number of a function of the package.
pub(crate) fn own_number(p: &Pass, known: &Known<'_, '_>, x: &Named) -> Option<u32>
    requires { IsKnown (unit_in p.now) (marks_in p.now) known.now }
    ensures { result ≡ own_place (unit_in p.now) x.now.path x.now.name }
{
    match own_place(p, known, x) {
        Some(i) => Some(as_number(p, i)),
        None => None,
    }
}

// ---- what calls call

fn lent(cell: &Option<Named>) -> Option<&Named>
    ensures { option_map named_in (option_copied result) ≡ found_named cell.now }
{
    match cell {
        Some(x) => Some(x),
        None => None,
    }
}

fn cell_in(row: &Vec<Option<Named>>, n: u32) -> Option<&Named>
    ensures { option_map named_in (option_copied result) ≡ cell_in row.now.items n }
{
    match row.get(n as usize) {
        Some(cell) => lent(cell),
        None => None,
    }
}

/// What a call with `...` calls.
pub(crate) fn called_at<'k>(known: &Known<'k, '_>, file: u32, n: u32) -> Option<&'k Named>
    ensures { option_map named_in (option_copied result) ≡ called_at known.now (place file n) }
{
    match known.cells.get(file as usize) {
        Some(row) => cell_in(row, n),
        None => None,
    }
}
