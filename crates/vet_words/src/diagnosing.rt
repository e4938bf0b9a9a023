//! Diagnostics at nodes.
ghost use Rattle.std.specs.Prelude.{◌≡◌, ◌++◌, option_map, slice_get, IfOk, OnOk};
ghost use Rattle.std.specs.Option.{option_copied, option_map_or};
ghost use Rattle.findings.specs.Passes.{unit_in};
ghost use Rattle.vet_words.specs.Diagnosing.{start_of, end_of, diagnosed, diagnosed_at};

use analysis_core::{AnalyzerName, Diagnostic};
use findings::Pass;
use fix_apply::Fix;
use go_tree::{FileTree, Node, Token};
use gv_base::{Bytes, NoMemory, Place};
use package_objects::node_of;
use std::alloc::Global;

fn token_of(tree: &FileTree, token: u32) -> Option<&Token>
    ensures { option_copied result ≡ slice_get tree.now.tokens token }
{
    tree.tokens.as_slice().get(token as usize)
}

fn token_start(tree: &FileTree, token: u32) -> u32
    ensures { result ≡ option_map_or (λ t. t.start) (slice_get tree.now.tokens token) 0 }
{
    match token_of(tree, token) {
        Some(token) => token.start,
        None => 0,
    }
}

fn token_end(tree: &FileTree, token: u32) -> u32
    ensures { result ≡ option_map_or (λ t. t.end) (slice_get tree.now.tokens token) 0 }
{
    match token_of(tree, token) {
        Some(token) => token.end,
        None => 0,
    }
}

/// Where a token of a file begins.
pub fn start_of(p: &Pass, file: u32, token: u32) -> u32
    ensures { result ≡ start_of (unit_in p.now) file token }
{
    match p.subject.tree_at(file) {
        Some(tree) => token_start(tree, token),
        None => 0,
    }
}

/// Where it ends.
pub fn end_of(p: &Pass, file: u32, token: u32) -> u32
    ensures { result ≡ end_of (unit_in p.now) file token }
{
    match p.subject.tree_at(file) {
        Some(tree) => token_end(tree, token),
        None => 0,
    }
}

/// A diagnostic of a node.
pub fn diagnose(
    p: &Pass,
    file: u32,
    analyzer: AnalyzerName,
    text: Vec<u8>,
    fix: Option<Fix>,
    node: &Node,
) -> Diagnostic
    ensures { result ≡ diagnosed (unit_in p.now) file analyzer text.items fix node.now }
{
    let place = Place {
        file,
        offset: start_of(p, file, node.first),
    };
    Diagnostic {
        place,
        end: end_of(p, file, node.last),
        analyzer: analyzer.number(),
        text: Bytes::new(text),
        fix,
    }
}

/// Adds a diagnostic of the node of a number, if it is there.
pub fn diagnose_at(
    p: &Pass,
    file: u32,
    n: u32,
    analyzer: AnalyzerName,
    text: Vec<u8>,
    fix: Option<Fix>,
    found: &mut Vec<Diagnostic>,
) -> Result<(), NoMemory>
    ensures { OnOk result (found.new.items ≡ found.old.items ++ diagnosed_at (unit_in p.now) file n analyzer text.items fix) }
{
    match node_of(p.subject.nodes_at(file), n) {
        Some(node) => {
            let diagnostic = diagnose(p, file, analyzer, text, fix, node);
            found.push(diagnostic)?;
            Ok(())
        }
        None => Ok(()),
    }
}
