//! The passages of a package's files.
ghost use Rattle.std.specs.Prelude.{◌≡◌, ◌++◌, ◌-◌, ◌≤◌, ◌^◌, length, map, IfOk, OnOk};
ghost use Rattle.std.specs.Option.{option_copied};
ghost use Rattle.std.specs.Prelude.{slice_get};
ghost use Rattle.package_objects.specs.Declares.{gather, part};
ghost use Rattle.const_tree.specs.Constants.{specs_in};
ghost use Rattle.unit_read.specs.Passages.{copied, nth_file, span_behind, values_span, copies_by, copies_from, nth_copy, copies_in, file_copies, passages};

use crate::passage::Passage;
use const_tree::{Spec, is_repeated, specs_in};
use go_tree::{FileTree, Node};
use gv_base::NoMemory;
use package_objects::{node_of, part_count, part_of};
use std::alloc::Global;
use typed_marks::Span;

/// Adds the passage of a list that comes after a node and ends before another.
fn add_span(
    file: u32,
    spec: Spec,
    end: u32,
    behind: Option<u32>,
    out: &mut Vec<Passage>,
) -> Result<(), NoMemory>
    ensures { OnOk result (out.new.items ≡ out.old.items ++ map (copied file spec) (span_behind end behind)) }
{
    if let Some(n) = behind {
        let low = n as usize + 1;
        out.push(Passage {
            file,
            spec: Some(spec),
            span: Span {
                low,
                end: end as usize,
            },
        })?;
    }
    Ok(())
}

fn before_values(node: &Node) -> Option<u32>
    ensures { result ≡ part node.now (length node.now.parts - 2) }
{
    part_of(node, part_count(node).saturating_sub(2))
}

/// Adds the passage of the values of one specification as another repeats them.
fn add_from(
    file: u32,
    nodes: &[Node],
    spec: Spec,
    source: u32,
    out: &mut Vec<Passage>,
) -> Result<(), NoMemory>
    ensures { OnOk result (out.new.items ≡ out.old.items ++ copies_from file nodes.now spec source) }
{
    if let Some(node) = node_of(nodes, source) {
        add_span(file, spec, source, before_values(node), out)?;
    }
    Ok(())
}

/// Adds what a specification repeats.
fn add_copy(file: u32, nodes: &[Node], spec: Spec, out: &mut Vec<Passage>) -> Result<(), NoMemory>
    ensures { OnOk result (out.new.items ≡ out.old.items ++ copies_by file nodes.now spec) }
{
    if is_repeated(nodes, spec) {
        if let Some(source) = spec.source {
            add_from(file, nodes, spec, source, out)?;
        }
    }
    Ok(())
}

fn spec_of(specs: &[Spec], i: usize) -> Option<Spec>
    ensures { result ≡ slice_get specs.now i }
{
    specs.get(i).copied()
}

/// Adds what the specification of a number repeats.
fn add_nth(
    file: u32,
    nodes: &[Node],
    specs: &[Spec],
    i: usize,
    out: &mut Vec<Passage>,
) -> Result<(), NoMemory>
    requires { specs.now ≡ specs_in nodes.now }
    ensures { OnOk result (out.new.items ≡ out.old.items ++ nth_copy file nodes.now i) }
{
    match spec_of(specs, i) {
        Some(spec) => add_copy(file, nodes, spec, out),
        None => Ok(()),
    }
}

fn add_copies(
    alloc: Global,
    file: u32,
    nodes: &[Node],
    out: &mut Vec<Passage>,
) -> Result<(), NoMemory>
    ensures { OnOk result (out.new.items ≡ out.old.items ++ gather (nth_copy file nodes.now) (length (specs_in nodes.now))) }
{
    let specs = specs_in(alloc, nodes)?;
    for i in 0..specs.len() {
        add_nth(file, nodes, &specs, i, out)?;
    }
    Ok(())
}

fn tree_of(trees: &[FileTree], file: u32) -> Option<&FileTree>
    ensures { option_copied result ≡ slice_get trees.now file }
{
    trees.get(file as usize)
}

fn add_file_copies(
    alloc: Global,
    trees: &[FileTree],
    file: u32,
    out: &mut Vec<Passage>,
) -> Result<(), NoMemory>
    ensures { OnOk result (out.new.items ≡ out.old.items ++ file_copies trees.now file) }
{
    if let Some(tree) = tree_of(trees, file) {
        add_copies(alloc, file, tree.nodes.as_slice(), out)?;
    }
    Ok(())
}

fn add_file(trees: &[FileTree], file: u32, out: &mut Vec<Passage>) -> Result<(), NoMemory>
    ensures { OnOk result (out.new.items ≡ out.old.items ++ nth_file trees.now file) }
{
    if let Some(tree) = tree_of(trees, file) {
        out.push(Passage {
            file,
            spec: None,
            span: Span {
                low: 0,
                end: tree.nodes.as_slice().len(),
            },
        })?;
    }
    Ok(())
}

/// The passages of a package: its files in turn, then the lists that specifications of each repeat.
pub fn passages(alloc: Global, trees: &[FileTree]) -> Result<Vec<Passage>, NoMemory>
    requires { length trees.now ≤ 2 ^ 32 }
    ensures { IfOk result (λ list. list.items ≡ passages trees.now) }
{
    let mut out = Vec::new(alloc);
    for file in 0..trees.len() {
        add_file(trees, file as u32, &mut out)?;
    }
    for file in 0..trees.len() {
        add_file_copies(alloc, trees, file as u32, &mut out)?;
    }
    Ok(out)
}
