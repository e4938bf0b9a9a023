//! What a node declares itself: each of some names, from a node on, in a block.
ghost use Rattle.std.specs.Prelude.{◌≡◌, ℕ, ◌<◌, ◌++◌, [], length, OnOk, cond, false};
ghost use Rattle.std.specs.List.{All};
ghost use Rattle.go_tree.specs.Forest.{Forest};
ghost use Rattle.scopes.specs.Regions.{declare, first_names, before, after, is_soft};
ghost use Rattle.scopes.specs.Walk.{Shows, IsFormed};

use crate::scope::{Declares, Named};
use crate::walk::push_first;
use go_tree::Node;
use gv_base::NoMemory;
use std::alloc::Global;

/// Adds a declaration of each name.
fn push_declared(
    names: &[usize],
    start: usize,
    block: usize,
    soft: bool,
    out: &mut Vec<Named>,
) -> Result<(), NoMemory>
    ensures { OnOk result (out.new.items ≡ out.old.items ++ declare start block soft names.now) }
{
    for name in names {
        out.push(Named {
            node: *name,
            start,
            end: block,
            soft,
        })?;
    }
    Ok(())
}

/// Adds a declaration of each name that is handed to a node, where it takes them.
pub fn push_taken(
    takes: bool,
    names: &[usize],
    start: usize,
    block: usize,
    out: &mut Vec<Named>,
) -> Result<(), NoMemory>
    ensures { OnOk result (out.new.items ≡ out.old.items ++ declare start block false (cond takes names.now [])) }
{
    if takes {
        push_declared(names, start, block, false, out)?;
    }
    Ok(())
}

/// Adds a declaration of each name that the first of these nodes is.
fn declare_first(
    alloc: Global,
    nodes: &[Node],
    parts: &[u32],
    start: usize,
    block: usize,
    soft: bool,
    out: &mut Vec<Named>,
) -> Result<(), NoMemory>
    requires formed { IsFormed nodes.now }
    requires parts { All (λ k. k < length nodes.now) parts.now }
    ensures { OnOk result ((m : ℕ) (f : Forest) → Shows nodes.now m parts.now f → out.new.items ≡ out.old.items ++ declare start block soft (first_names m f)) }
{
    let mut names = Vec::new(alloc);
    push_first(nodes, parts, &mut names)?;
    push_declared(&names, start, block, soft, out)?;
    Ok(())
}

/// Adds a declaration of each name that a node declares as it begins.
pub fn declare_before(
    alloc: Global,
    nodes: &[Node],
    declares: Declares,
    parts: &[u32],
    start: usize,
    block: usize,
    out: &mut Vec<Named>,
) -> Result<(), NoMemory>
    requires formed { IsFormed nodes.now }
    requires parts { All (λ k. k < length nodes.now) parts.now }
    ensures { OnOk result ((m : ℕ) (f : Forest) → Shows nodes.now m parts.now f → out.new.items ≡ out.old.items ++ declare start block false (before declares m f)) }
{
    match declares {
        Declares::Before => {
            declare_first(alloc, nodes, parts, start, block, false, out)?;
            Ok(())
        }
        Declares::Nothing | Declares::After | Declares::Assigns => Ok(()),
    }
}

/// Adds a declaration of each name that it declares as it ends.
pub fn declare_after(
    alloc: Global,
    nodes: &[Node],
    declares: Declares,
    parts: &[u32],
    start: usize,
    block: usize,
    out: &mut Vec<Named>,
) -> Result<(), NoMemory>
    requires formed { IsFormed nodes.now }
    requires parts { All (λ k. k < length nodes.now) parts.now }
    ensures { OnOk result ((m : ℕ) (f : Forest) → Shows nodes.now m parts.now f → out.new.items ≡ out.old.items ++ declare start block (is_soft declares) (after declares m f)) }
{
    match declares {
        Declares::After => {
            declare_first(alloc, nodes, parts, start, block, false, out)?;
            Ok(())
        }
        Declares::Assigns => {
            declare_first(alloc, nodes, parts, start, block, true, out)?;
            Ok(())
        }
        Declares::Nothing | Declares::Before => Ok(()),
    }
}
