//! The functions and methods of a file that have a body and that a call may name.
use go_tree::{FileTree, Node, NodeKind, token_text};
use gv_base::NoMemory;
use never_returns::{Block, Function};
use std::alloc::Global;

/// The declaration of a function or a method: its node, the token of its name, and its body.
#[derive(Clone, Copy, Drop)]
pub struct Declared {
    pub node: u32,
    pub name: u32,
    pub is_method: bool,
    pub block: u32,
}

/// The text of a token.
pub fn token_at<'a>(tree: &FileTree, text: &'a [u8], token: u32) -> &'a [u8] {
    match tree.tokens.as_slice().get(token as usize) {
        Some(token) => token_text(text, token),
        None => b"",
    }
}

/// The first token of a node.
fn first_of(tree: &FileTree, n: u32) -> u32 {
    match tree.nodes.as_slice().get(n as usize) {
        Some(node) => node.first,
        None => 0,
    }
}

/// The place where a node begins in the text.
pub fn start_of(tree: &FileTree, n: u32) -> u32 {
    match tree.tokens.as_slice().get(first_of(tree, n) as usize) {
        Some(token) => token.start,
        None => 0,
    }
}

fn is_block(tree: &FileTree, n: u32) -> bool {
    match tree.nodes.as_slice().get(n as usize) {
        Some(node) => matches!(node.kind, NodeKind::Block),
        None => false,
    }
}

/// What a node declares, if it is a function or a method with a body.
fn declared_by(tree: &FileTree, n: u32, node: &Node) -> Option<Declared> {
    let is_method = matches!(node.kind, NodeKind::MethodDecl);
    if !is_method && !matches!(node.kind, NodeKind::FuncDecl) {
        return None;
    }
    let parts = node.parts.as_slice();
    let place = if is_method { 1 } else { 0 };
    let name = *parts.get(place)?;
    let block = *parts.last()?;
    if !is_block(tree, block) {
        return None;
    }
    Some(Declared {
        node: n,
        name: first_of(tree, name),
        is_method,
        block,
    })
}

/// Whether nothing can call what is declared: `_`, and a function `init`.
fn is_unnamed(tree: &FileTree, text: &[u8], one: Declared) -> bool {
    let name = token_at(tree, text, one.name);
    name == b"_".as_slice() || (name == b"init".as_slice() && !one.is_method)
}

fn add_declared(
    found: &mut Vec<Declared>,
    tree: &FileTree,
    text: &[u8],
    n: u32,
    node: &Node,
) -> Result<(), NoMemory> {
    if let Some(one) = declared_by(tree, n, node) {
        if !is_unnamed(tree, text, one) {
            found.push(one)?;
        }
    }
    Ok(())
}

/// The functions and methods with a body, in the order of the file, without those that nothing can call.
pub fn functions_of(
    alloc: Global,
    tree: &FileTree,
    text: &[u8],
) -> Result<Vec<Declared>, NoMemory> {
    let nodes = tree.nodes.as_slice();
    let mut found = Vec::new(alloc);
    for n in 0..nodes.len() {
        if n <= u32::MAX as usize {
            add_declared(&mut found, tree, text, n as u32, &nodes[n])?;
        }
    }
    Ok(found)
}

/// The same as bodies of one file.
pub fn bodies_of(alloc: Global, declared: &[Declared]) -> Result<Vec<Function>, NoMemory> {
    let mut bodies = Vec::new(alloc);
    for one in declared {
        bodies.push(Function {
            listed: false,
            body: Some(Block {
                file: 0,
                node: one.block,
            }),
        })?;
    }
    Ok(bodies)
}
