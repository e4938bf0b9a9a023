//! How a call is looked at, by the kinds of what is called.
ghost use Rattle.std.specs.Prelude.{◌≡◌, ◌<◌, List, slice_get, slice_index_or};
ghost use Rattle.std.specs.Option.{option_copied};
ghost use Rattle.object_order.specs.Spots.{place};
ghost use Rattle.type_model.specs.GoTypes.{GoType, type_at, signature_of};
ghost use Rattle.type_model.specs.Tables.{IsTable, types_in, count};
ghost use Rattle.vet_printf.specs.Calls.{params_in, param_count, way_of, kinds_at};

use crate::verb::has_flag;
use go_tree::NodeRef;
use type_model::{Signature, Term, TypeId, TypeTable};

/// How a call is looked at.
#[derive(Clone, Copy, Drop)]
pub enum Way {
    /// By its format, which may make an error.
    Format(bool),
    /// By what is printed as it stands.
    Plain,
    Silent,
}

// ---- callees

#[tactic(auto, using(crate::proofs::CallLemmas::params_counted))]
fn params_in(of: &Signature) -> usize
    ensures { (types : List GoType) → result ≡ params_in (signature_of types of.now) }
{
    of.params.as_slice().len()
}

/// How many parameters a function has.
pub(crate) fn param_count(t: &TypeTable, of: TypeId) -> usize
    requires table { IsTable t.now }
    requires within { of.0 < count t.now }
    ensures { result ≡ param_count (type_at (types_in t.now) of) }
{
    match t.term(of) {
        Term::Func(of) => params_in(of),
        Term::Basic(_) => 0,
        Term::Defined(_) => 0,
        Term::Pointer(_) => 0,
        Term::Slice(_) => 0,
        Term::Array(_, _) => 0,
        Term::Map(_, _) => 0,
        Term::Chan(_, _) => 0,
        Term::Struct(_) => 0,
        Term::Interface(_) => 0,
    }
}

fn way_of(kinds: u8) -> Way
    ensures { result ≡ way_of kinds }
{
    if has_flag(kinds, 4) {
        Way::Format(true)
    } else if has_flag(kinds, 2) {
        Way::Format(false)
    } else if has_flag(kinds, 1) {
        Way::Plain
    } else {
        Way::Silent
    }
}

fn row_at(rows: &Vec<Vec<u8>>, file: u32) -> Option<&Vec<u8>>
    ensures { option_copied result ≡ slice_get rows.now.items file }
{
    rows.get(file as usize)
}

fn number_in(row: &Vec<u8>, n: u32) -> u8
    ensures { result ≡ slice_index_or row.now.items n 0 }
{
    match row.get(n as usize) {
        Some(number) => *number,
        None => 0,
    }
}

fn kinds_at(rows: &Vec<Vec<u8>>, at: NodeRef) -> u8
    ensures { result ≡ kinds_at rows.now.items at }
{
    match row_at(rows, at.file) {
        Some(row) => number_in(row, at.node),
        None => 0,
    }
}

pub(crate) fn way_at(kinds: &Vec<Vec<u8>>, file: u32, n: u32) -> Way
    ensures { result ≡ way_of (kinds_at kinds.now.items (place file n)) }
{
    way_of(kinds_at(kinds, NodeRef { file, node: n }))
}
