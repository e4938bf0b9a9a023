//! The names of a description that are no types and lead back to themselves, by a search among them alone.
ghost use Rattle.std.specs.Prelude.{◌≡◌, ◌++◌, [], IfOk, IfSome, OnOk, false, map, slice_get};
ghost use Rattle.std.specs.List.{cons_option, flat_map, list_all};
ghost use Rattle.std.specs.Option.{option_copied};
ghost use Rattle.object_order.specs.Names.{AreNamed};
ghost use Rattle.object_order.specs.Picks.{flag_in};
ghost use Rattle.object_order.specs.Quiet.{quiet_at};
ghost use Rattle.object_order.specs.Spots.{place};
ghost use Rattle.object_order.specs.Views.{number_in, entry_in, world_of};
ghost use Rattle.name_circles.specs.Values.{is_value, value_entry, flagged_in, chosen, chosen_items, cells_of, is_still, is_settled, is_still_name, is_still_group, are_apart, leads_on, if_kept, kept_entries, if_cyclic, AreValueCircles};

use crate::circles::circles_of;
use go_tree::NodeRef;
use gv_base::{NoMemory, Row};
use object_order::{Entry, Form, Needed, Root, View, is_quiet, numbers_of, quiet_rows};
use std::alloc::Global;
use std::collections::HashMap;

// ---- declarations by their names

fn number_of(numbers: &HashMap<(usize, usize), u32>, at: NodeRef) -> Option<u32>
    ensures { result ≡ number_in numbers.now (at.file, at.node) }
{
    let key = (at.file as usize, at.node as usize);
    numbers.get(&key).copied()
}

fn entry_of(entries: &Vec<Entry>, n: u32) -> Option<&Entry>
    ensures { option_copied result ≡ slice_get entries.now.items n }
{
    entries.get(n as usize)
}

fn entry_at<'a>(view: &'a View, at: NodeRef) -> Option<&'a Entry>
    ensures { option_copied result ≡ entry_in view.now.entries.items view.now.numbers at }
{
    match number_of(&view.numbers, at) {
        Some(n) => entry_of(&view.entries, n),
        None => None,
    }
}

fn flag_read(flags: &Vec<bool>, n: u32) -> Option<bool>
    ensures { result ≡ slice_get flags.now.items n }
{
    flags.get(n as usize).copied()
}

fn flag_at(flags: &Vec<bool>, n: u32) -> bool
    ensures { result ≡ flag_in flags.now.items n }
{
    match flag_read(flags, n) {
        Some(flag) => flag,
        None => false,
    }
}

/// The flag of the declaration of a name.
fn is_flagged(numbers: &HashMap<(usize, usize), u32>, flags: &Vec<bool>, u: NodeRef) -> bool
    ensures { result ≡ flagged_in numbers.now flags.now.items u }
{
    match number_of(numbers, u) {
        Some(n) => flag_at(flags, n),
        None => false,
    }
}

// ---- what nodes mention

/// What a node mentions, if its declaration is flagged.
fn chosen(
    numbers: &HashMap<(usize, usize), u32>,
    flags: &Vec<bool>,
    meant: Option<NodeRef>,
) -> Option<NodeRef>
    ensures { result ≡ chosen numbers.now flags.now.items meant }
{
    match meant {
        Some(u) => {
            if is_flagged(numbers, flags, u) {
                Some(u)
            } else {
                None
            }
        }
        None => None,
    }
}

fn chosen_row(
    alloc: Global,
    numbers: &HashMap<(usize, usize), u32>,
    flags: &Vec<bool>,
    row: &[Option<NodeRef>],
) -> Result<Vec<Option<NodeRef>>, NoMemory>
    ensures { IfOk result (λ cells. cells.items ≡ map (chosen numbers.now flags.now.items) row.now) }
{
    let mut cells = Vec::with_capacity(alloc, row.len())?;
    for cell in row {
        cells.push(chosen(numbers, flags, *cell))?;
    }
    Ok(cells)
}

/// What nodes mention whose declarations are flagged.
fn chosen_rows(
    alloc: Global,
    view: &View,
    flags: &Vec<bool>,
) -> Result<Vec<Vec<Option<NodeRef>>>, NoMemory>
    ensures { IfOk result (λ rows. map cells_of rows.items ≡ map (chosen_items view.now.numbers flags.now.items) view.now.meant.now) }
{
    let meant = view.meant;
    let mut rows = Vec::with_capacity(alloc, meant.len())?;
    for row in meant {
        let cells = chosen_row(alloc, &view.numbers, flags, row.as_slice())?;
        rows.push(cells)?;
    }
    Ok(rows)
}

// ---- declarations in which no value is mentioned

fn is_value(form: Form) -> bool
    ensures { result ≡ is_value form }
{
    match form {
        Form::Other => true,
        Form::Defined => false,
        Form::Alias => false,
    }
}

fn value_entry(entry: &Entry) -> bool
    ensures { result ≡ value_entry entry.now }
{
    is_value(entry.form)
}

fn is_quiet_root(quiet: &Vec<Vec<bool>>, file: u32, root: Root) -> bool
    ensures { result ≡ quiet_at quiet.now.items (place file root.node) }
{
    let at = NodeRef {
        file,
        node: root.node,
    };
    is_quiet(quiet, at)
}

/// Whether a declaration mentions nothing that counts, outside bodies.
fn is_still(quiet: &Vec<Vec<bool>>, entry: &Entry) -> bool
    ensures { result ≡ is_still quiet.now.items entry.now }
{
    let file = entry.name.file;
    entry
        .roots
        .as_slice()
        .iter()
        .all(|root| is_quiet_root(quiet, file, *root))
}

fn is_settled(quiet: &Vec<Vec<bool>>, entry: &Entry) -> bool
    ensures { result ≡ is_settled quiet.now.items entry.now }
{
    if is_value(entry.form) {
        return true;
    }
    is_still(quiet, entry)
}

/// Whether no type mentions anything that counts.
fn are_settled(quiet: &Vec<Vec<bool>>, entries: &[Entry]) -> bool
    ensures { result ≡ list_all (is_settled quiet.now.items) entries.now }
{
    entries.iter().all(|entry| is_settled(quiet, entry))
}

fn is_still_name(view: &View, quiet: &Vec<Vec<bool>>, m: NodeRef) -> bool
    ensures { result ≡ is_still_name view.now.entries.items view.now.numbers quiet.now.items m }
{
    match entry_at(view, m) {
        Some(entry) => is_still(quiet, entry),
        None => true,
    }
}

fn is_still_group(view: &View, quiet: &Vec<Vec<bool>>, group: &Vec<NodeRef>) -> bool
    ensures { result ≡ is_still_group view.now.entries.items view.now.numbers quiet.now.items group.now }
{
    group
        .as_slice()
        .iter()
        .all(|m| is_still_name(view, quiet, *m))
}

/// Whether no method does.
fn are_still(view: &View, quiet: &Vec<Vec<bool>>, groups: &[Vec<NodeRef>]) -> bool
    ensures { result ≡ list_all (is_still_group view.now.entries.items view.now.numbers quiet.now.items) groups.now }
{
    groups
        .iter()
        .all(|group| is_still_group(view, quiet, group))
}

/// Whether no type and no method mentions anything that counts.
fn are_apart(view: &View, quiet: &Vec<Vec<bool>>) -> bool
    ensures { result ≡ are_apart view.now.entries.items view.now.numbers view.now.groups.items quiet.now.items }
{
    if !are_settled(quiet, &view.entries) {
        return false;
    }
    are_still(view, quiet, &view.groups)
}

// ---- values

fn value_flags(alloc: Global, entries: &Vec<Entry>) -> Result<Vec<bool>, NoMemory>
    ensures { IfOk result (λ flags. flags.items ≡ map value_entry entries.now.items) }
{
    let mut flags = Vec::with_capacity(alloc, entries.len())?;
    for entry in entries {
        flags.push(value_entry(entry))?;
    }
    Ok(flags)
}

/// Whether it is a value whose declaration mentions one.
fn leads_on(quiet: &Vec<Vec<bool>>, entry: &Entry) -> bool
    ensures { result ≡ leads_on quiet.now.items entry.now }
{
    if is_value(entry.form) {
        return !is_still(quiet, entry);
    }
    false
}

fn leading_flags(
    alloc: Global,
    quiet: &Vec<Vec<bool>>,
    entries: &Vec<Entry>,
) -> Result<Vec<bool>, NoMemory>
    ensures { IfOk result (λ flags. flags.items ≡ map (leads_on quiet.now.items) entries.now.items) }
{
    let mut flags = Vec::with_capacity(alloc, entries.len())?;
    for entry in entries {
        flags.push(leads_on(quiet, entry))?;
    }
    Ok(flags)
}

fn copied(alloc: Global, entry: &Entry) -> Result<Entry, NoMemory>
    ensures { IfOk result (λ e. e ≡ entry.now) }
{
    let list = entry.roots.as_slice();
    let mut roots = Vec::with_capacity(alloc, list.len())?;
    roots.extend_from_slice(list)?;
    Ok(Entry {
        name: entry.name,
        form: entry.form,
        roots: Row::new(roots),
    })
}

fn add_entry(alloc: Global, entry: Option<&Entry>, out: &mut Vec<Entry>) -> Result<(), NoMemory>
    ensures { OnOk result (out.new.items ≡ out.old.items ++ cons_option (option_copied entry.entry) []) }
{
    if let Some(entry) = entry {
        out.push(copied(alloc, entry)?)?;
    }
    Ok(())
}

/// Adds the declaration of a name, if it is flagged.
fn add_kept(
    alloc: Global,
    view: &View,
    flags: &Vec<bool>,
    entry: &Entry,
    out: &mut Vec<Entry>,
) -> Result<(), NoMemory>
    ensures { OnOk result (out.new.items ≡ out.old.items ++ if_kept view.now.entries.items view.now.numbers flags.now.items entry.now) }
{
    if is_flagged(&view.numbers, flags, entry.name) {
        add_entry(alloc, entry_at(view, entry.name), out)?;
    }
    Ok(())
}

fn kept_entries(alloc: Global, view: &View, flags: &Vec<bool>) -> Result<Vec<Entry>, NoMemory>
    ensures { IfOk result (λ kept. kept.items ≡ kept_entries view.now.entries.items view.now.numbers flags.now.items) }
{
    let mut kept = Vec::new(alloc);
    for entry in &view.entries {
        add_kept(alloc, view, flags, entry, &mut kept)?;
    }
    Ok(kept)
}

// ---- circles

fn add_cyclic(needed: Needed, out: &mut Vec<NodeRef>) -> Result<(), NoMemory>
    ensures { OnOk result (out.new.items ≡ out.old.items ++ if_cyclic needed) }
{
    if needed.cyclic {
        out.push(needed.object)?;
    }
    Ok(())
}

fn cyclic_names(alloc: Global, order: &[Needed]) -> Result<Vec<NodeRef>, NoMemory>
    ensures { IfOk result (λ names. names.items ≡ flat_map if_cyclic order.now) }
{
    let mut names = Vec::new(alloc);
    for needed in order {
        add_cyclic(*needed, &mut names)?;
    }
    Ok(names)
}

/// The names that are no types and lead back to themselves; None where a type or a method mentions a value, so that a circle of values may go by way of
/// types. What mentions no value is left out of the search.
pub fn value_circles(alloc: Global, view: &View) -> Result<Option<Vec<NodeRef>>, NoMemory>
    requires { AreNamed view.now.entries.items view.now.numbers }
    ensures { IfOk result (λ o. IfSome o (λ list. AreValueCircles (world_of view.now) list.items)) }
{
    let values = value_flags(alloc, &view.entries)?;
    let all = chosen_rows(alloc, view, &values)?;
    let quiet = quiet_rows(alloc, false, view.trees, &all)?;
    if !are_apart(view, &quiet) {
        return Ok(None);
    }
    let leading = leading_flags(alloc, &quiet, &view.entries)?;
    let kept = kept_entries(alloc, view, &leading)?;
    let meant = chosen_rows(alloc, view, &leading)?;
    let numbers = numbers_of(alloc, &kept)?;
    let few = View {
        trees: view.trees,
        meant: &meant,
        entries: kept,
        numbers,
        groups: Vec::new(alloc),
    };
    let order = circles_of(alloc, few)?;
    let list = cyclic_names(alloc, &order)?;
    Ok(Some(list))
}
