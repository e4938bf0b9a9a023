//! The variables that are initialised by way of themselves.
ghost use Rattle.std.specs.Prelude.{◌≡◌, ◌≤◌, ◌^◌, ◌++◌, is_some, length, IfOk, OnOk};
ghost use Rattle.std.specs.List.{flat_map};
ghost use Rattle.object_order.specs.Views.{number_in, meant_in};
ghost use Rattle.value_circles.specs.Circles.{flag, AreInitialCircles};
ghost use Rattle.value_circles.specs.Chosen.{is_chosen, if_chosen};

use crate::flags::flag;
use crate::values::value_entries;
use go_tree::{FileTree, NodeRef};
use gv_base::NoMemory;
use name_circles::circles_of;
use object_order::{Entry, Needed, View, numbers_of};
use std::alloc::Global;
use std::collections::HashMap;

/// The declarations of one list, and then those of another.
fn joined(first: Vec<Entry>, second: Vec<Entry>) -> Result<Vec<Entry>, NoMemory>
    ensures { IfOk result (λ list. list.items ≡ first.items ++ second.items) }
{
    let mut all = first;
    let mut more = second;
    all.append(&mut more)?;
    Ok(all)
}

fn has(numbers: &HashMap<(usize, usize), u32>, at: NodeRef) -> bool
    ensures { result ≡ is_some (number_in numbers.now (at.file, at.node)) }
{
    numbers.contains_key(&(at.file as usize, at.node as usize))
}

/// The name leads back to itself, has a number among the variables, and isn't refused as a declaration that needs itself.
fn is_chosen(variables: &HashMap<(usize, usize), u32>, cyclic: &[Vec<bool>], needed: Needed) -> bool
    ensures { result ≡ is_chosen variables.now cyclic.now needed }
{
    if !needed.cyclic {
        return false;
    }
    if flag(cyclic, needed.object) {
        return false;
    }
    has(variables, needed.object)
}

fn add_if(
    variables: &HashMap<(usize, usize), u32>,
    cyclic: &[Vec<bool>],
    needed: Needed,
    out: &mut Vec<NodeRef>,
) -> Result<(), NoMemory>
    ensures { OnOk result (out.new.items ≡ out.old.items ++ if_chosen variables.now cyclic.now needed) }
{
    if is_chosen(variables, cyclic, needed) {
        out.push(needed.object)?;
    }
    Ok(())
}

fn chosen(
    alloc: Global,
    variables: &HashMap<(usize, usize), u32>,
    cyclic: &[Vec<bool>],
    order: &[Needed],
) -> Result<Vec<NodeRef>, NoMemory>
    ensures { IfOk result (λ list. list.items ≡ flat_map (if_chosen variables.now cyclic.now) order.now) }
{
    let mut out = Vec::new(alloc);
    for needed in order {
        add_if(variables, cyclic, *needed, &mut out)?;
    }
    Ok(out)
}

/// The package's variables that reach themselves by references in initial values and in `bodies`, by their names: E5. `meant` has for each node of
/// each file the variable, function or method to which it is a reference, `cyclic` the names that are refused as declarations that need themselves.
/// The time is in step with the nodes of values and bodies.
pub fn initial_circles(
    alloc: Global,
    trees: &[FileTree],
    meant: &[Vec<Option<NodeRef>>],
    cyclic: &[Vec<bool>],
    bodies: Vec<Entry>,
) -> Result<Vec<NodeRef>, NoMemory>
    requires few { length trees.now ≤ 2 ^ 32 }
    ensures { IfOk result (λ list. AreInitialCircles trees.now (meant_in meant.now) (flag cyclic.now) bodies.items list.items) }
{
    let variables = value_entries(alloc, trees)?;
    let own = numbers_of(alloc, &variables)?;
    let entries = joined(variables, bodies)?;
    let numbers = numbers_of(alloc, &entries)?;
    let view = View {
        trees,
        meant,
        entries,
        numbers,
        groups: Vec::new(alloc),
    };
    let order = circles_of(alloc, view)?;
    let list = chosen(alloc, &own, cyclic, &order)?;
    Ok(list)
}
