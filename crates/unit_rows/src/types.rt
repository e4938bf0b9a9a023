//! The defined types of a package by their names.
ghost use Rattle.std.specs.Prelude.{◌≡◌, ℕ, List, IfOk, OnOk};
ghost use Rattle.unit_read.specs.Index.{found};
ghost use Rattle.unit_read.specs.Subjects.{unit_of, top_name};
ghost use Rattle.unit_read.specs.Units.{named_by};
ghost use Rattle.unit_rows.specs.Drafts.{IsPlaced, AddsType};

use crate::top::is_top;
use go_tree::NodeRef;
use gv_base::NoMemory;
use std::alloc::Global;
use std::collections::HashMap;
use unit_read::{Subject, add_name};

/// Keeps a type under its name, if it is at package level and none is kept yet.
fn add_type<'a>(
    s: &Subject<'a>,
    at: NodeRef,
    named: &mut HashMap<&'a [u8], NodeRef>,
) -> Result<(), NoMemory>
    requires { IsPlaced s.now }
    ensures { OnOk result (AddsType (unit_of s.now) named.old named.new at) }
{
    if is_top(s, at) {
        add_name(named, s.name_at(at), at)?;
    }
    Ok(())
}

fn first_of<'a>(
    alloc: Global,
    s: &Subject<'a>,
    list: &[NodeRef],
) -> Result<HashMap<&'a [u8], NodeRef>, NoMemory>
    requires { IsPlaced s.now }
    ensures { IfOk result (λ named. (q : List ℕ) → found named q ≡ named_by (unit_of s.now) (top_name (unit_of s.now) q) list.now) }
{
    let mut named = HashMap::new(alloc);
    for k in 0..list.len() {
        add_type(s, list[k], &mut named)?;
    }
    Ok(named)
}

/// The first defined type of each name at package level.
pub fn named_types<'a>(
    alloc: Global,
    s: &Subject<'a>,
) -> Result<HashMap<&'a [u8], NodeRef>, NoMemory>
    requires { IsPlaced s.now }
    ensures { IfOk result (λ named. (q : List ℕ) → found named q ≡ named_by (unit_of s.now) (top_name (unit_of s.now) q) s.now.defined.items) }
{
    let named = first_of(alloc, s, s.defined.as_slice())?;
    Ok(named)
}
