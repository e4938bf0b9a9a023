//! What the calls of a file call, by their spelling: a function or a method of the file by its name, and what a comment
//! `// stops NAME ..` lists. Parentheses don't count.
use crate::functions::{Declared, token_at};
use flow::Call;
use go_tree::{FileTree, Node, NodeKind};
use gv_base::NoMemory;
use std::alloc::Global;
use std::collections::HashMap;

/// What stands before the spellings of calls that stop control.
const STOPS: &[u8] = b"// stops ";

/// The deepest that a file nests.
const DEEPEST: u32 = 250;

/// The text of a node, from its first token to its last.
fn spelled<'a>(tree: &FileTree, text: &'a [u8], node: &Node) -> &'a [u8] {
    let tokens = tree.tokens.as_slice();
    let (Some(first), Some(last)) = (
        tokens.get(node.first as usize),
        tokens.get(node.last as usize),
    ) else {
        return b"";
    };
    let (start, end) = (first.start as usize, last.end as usize);
    if start <= end && end <= text.len() {
        return &text[start..end];
    }
    b""
}

/// What stands from a place on.
fn behind(text: &[u8], at: usize) -> &[u8] {
    if at <= text.len() {
        return &text[at..];
    }
    b""
}

/// Adds the words up to the end of the line.
fn add_words<'a>(known: &mut HashMap<&'a [u8], Call>, text: &'a [u8]) -> Result<(), NoMemory> {
    let mut from = 0;
    for at in 0..text.len() {
        if text[at] == b' ' || text[at] == b'\n' {
            if from < at {
                known.insert(&text[from..at], Call::Stops)?;
            }
            from = at + 1;
        }
        if text[at] == b'\n' {
            return Ok(());
        }
    }
    Ok(())
}

/// Adds the words of each comment.
fn add_listed<'a>(known: &mut HashMap<&'a [u8], Call>, text: &'a [u8]) -> Result<(), NoMemory> {
    for at in 0..text.len() {
        let here = &text[at..];
        if here.starts_with(STOPS) {
            add_words(known, behind(here, STOPS.len()))?;
        }
    }
    Ok(())
}

/// What is known by its spelling, and the methods by their names.
#[derive(Drop)]
struct Known<'a> {
    spelled: HashMap<&'a [u8], Call>,
    methods: HashMap<&'a [u8], Call>,
}

/// Adds a function or a method of the file, by its number.
fn add_declared<'a>(
    known: &mut Known<'a>,
    name: &'a [u8],
    is_method: bool,
    i: usize,
) -> Result<(), NoMemory> {
    if i > u32::MAX as usize {
        return Ok(());
    }
    let call = Call::Function(i as u32);
    if is_method {
        known.methods.insert(name, call)?;
    } else {
        known.spelled.insert(name, call)?;
    }
    Ok(())
}

fn known_in<'a>(
    alloc: Global,
    tree: &FileTree,
    text: &'a [u8],
    declared: &[Declared],
) -> Result<Known<'a>, NoMemory> {
    let mut known = Known {
        spelled: HashMap::new(alloc),
        methods: HashMap::new(alloc),
    };
    add_listed(&mut known.spelled, text)?;
    for i in 0..declared.len() {
        let one = declared[i];
        add_declared(&mut known, token_at(tree, text, one.name), one.is_method, i)?;
    }
    Ok(known)
}

/// The node that stands in parentheses, or the node itself.
fn bare(tree: &FileTree, n: u32) -> Option<&Node> {
    let mut at = n;
    for _depth in 0..DEEPEST {
        let node = tree.nodes.as_slice().get(at as usize)?;
        if !matches!(node.kind, NodeKind::Paren) {
            return Some(node);
        }
        at = first_part(node)?;
    }
    None
}

fn first_part(node: &Node) -> Option<u32> {
    match node.parts.as_slice().get(0) {
        Some(part) => Some(*part),
        None => None,
    }
}

/// What a callee is.
fn called(tree: &FileTree, text: &[u8], known: &Known<'_>, callee: &Node) -> Call {
    if let Some(call) = known.spelled.get(spelled(tree, text, callee)) {
        return *call;
    }
    if matches!(callee.kind, NodeKind::Selector) {
        if let Some(call) = known.methods.get(token_at(tree, text, callee.last)) {
            return *call;
        }
    }
    Call::Passes
}

/// What a node calls, if it is a call, in parentheses or not.
fn call_at(tree: &FileTree, text: &[u8], known: &Known<'_>, n: u32) -> Option<Call> {
    let node = bare(tree, n)?;
    if !matches!(node.kind, NodeKind::Call | NodeKind::CallSpread) {
        return None;
    }
    let callee = bare(tree, first_part(node)?)?;
    Some(called(tree, text, known, callee))
}

/// For each node what it calls, if it is a call.
pub fn calls_of(
    alloc: Global,
    tree: &FileTree,
    text: &[u8],
    declared: &[Declared],
) -> Result<Vec<Call>, NoMemory> {
    let known = known_in(alloc, tree, text, declared)?;
    let mut calls = Vec::new(alloc);
    for n in 0..tree.nodes.as_slice().len() {
        let call = if n <= u32::MAX as usize {
            call_at(tree, text, &known, n as u32)
        } else {
            None
        };
        calls.push(call.unwrap_or(Call::Passes))?;
    }
    Ok(calls)
}
