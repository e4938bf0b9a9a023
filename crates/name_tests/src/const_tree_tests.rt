//! A file of three specifications, and what each declares, worked out by hand.
use const_eval::Operator;
use const_tree::{
    binary_operator, is_repeated, name_at, name_count, spec_row, specs_in, typing_of,
    unary_operator, value_at, value_count,
};
use go_tree::{FileTree, Node, NodeKind, Parts, Token, TokenKind};
use gv_base::{NoMemory, Row};
use std::alloc::Global;
use std::test::Fail;

/// The nodes of `package p`, `const (A uint8 = 1 << iota; B; C, D = 2, 3)`, each with its parts and its first token.
const NODES: [(NodeKind, &[u32], u32); 18] = [
    (NodeKind::Name, &[], 1),
    (NodeKind::Package, &[0], 0),
    (NodeKind::Name, &[], 2),
    (NodeKind::Name, &[], 3),
    (NodeKind::Int, &[], 4),
    (NodeKind::Name, &[], 6),
    (NodeKind::Binary, &[4, 5], 4),
    (NodeKind::ConstTyped, &[2, 3, 6], 2),
    (NodeKind::Name, &[], 7),
    (NodeKind::ConstNames, &[8], 7),
    (NodeKind::Name, &[], 8),
    (NodeKind::Name, &[], 9),
    (NodeKind::Names, &[10, 11], 8),
    (NodeKind::Int, &[], 10),
    (NodeKind::Int, &[], 11),
    (NodeKind::Exprs, &[13, 14], 10),
    (NodeKind::ConstValues, &[12, 15], 8),
    (NodeKind::ConstGroup, &[7, 9, 16], 2),
];

/// The number of the mark of an operator.
fn mark_of(op: Operator) -> u8 {
    for mark in 0..47 {
        if Operator::from_mark(mark) == Some(op) {
            return mark;
        }
    }
    0
}

/// Twelve tokens, of which all that counts is that the one of number 5 is this operator.
fn tokens(alloc: Global, op: Operator) -> Result<Vec<Token>, NoMemory> {
    let mut tokens = Vec::new(alloc);
    for n in 0..12 {
        let kind = if n == 5 {
            TokenKind::Mark(mark_of(op))
        } else {
            TokenKind::Semi
        };
        tokens.push(Token {
            kind,
            start: 0,
            end: 0,
        })?;
    }
    Ok(tokens)
}

fn tree(alloc: Global, op: Operator) -> Result<FileTree, NoMemory> {
    let mut nodes = Vec::new(alloc);
    for (kind, parts, first) in NODES {
        let parts = Parts::new(parts.to_vec(alloc)?);
        nodes.push(Node {
            kind,
            first,
            last: first,
            parts,
        })?;
    }
    let tops = [1, 17].to_vec(alloc)?;
    Ok(FileTree {
        tokens: Row::new(tokens(alloc, op)?),
        nodes: Row::new(nodes),
        tops: Row::new(tops),
    })
}

#[test]
fn specifications_in_order(rt: HostRuntime) -> Result<(), Fail> {
    let alloc = rt.alloc();
    let tree = tree(alloc, Operator::ShiftLeft)?;
    let nodes = tree.nodes.as_slice();
    let specs = specs_in(alloc, nodes)?;
    // node, source, type, names and values with the first of each, whether they are repeated
    let rows: [(u32, u32, Option<u32>, usize, u32, usize, u32, bool); 3] = [
        (7, 7, Some(3), 1, 2, 1, 6, false),
        (9, 7, Some(3), 1, 8, 1, 6, true),
        (16, 16, None, 2, 10, 2, 13, false),
    ];
    assert_eq!(rt; specs.len(), 3);
    for at in 0..3 {
        let (node, source, typing, names, name, values, value, repeated) = rows[at];
        let spec = specs[at];
        assert_eq!(rt; spec.node, node);
        assert_eq!(rt; spec.iota, at as u64);
        assert!(rt; spec.source == Some(source));
        assert!(rt; typing_of(nodes, spec) == typing);
        assert_eq!(rt; name_count(nodes, spec), names);
        assert!(rt; name_at(nodes, spec, 0) == Some(name));
        assert_eq!(rt; value_count(nodes, spec), values);
        assert!(rt; value_at(nodes, spec, 0) == Some(value));
        assert_eq!(rt; is_repeated(nodes, spec), repeated);
    }
    Ok(())
}

#[test]
fn nodes_of_specifications(rt: HostRuntime) -> Result<(), Fail> {
    let alloc = rt.alloc();
    let tree = tree(alloc, Operator::ShiftLeft)?;
    let nodes = tree.nodes.as_slice();
    let specs = specs_in(alloc, nodes)?;
    let row = spec_row(alloc, nodes, &specs)?;
    assert_eq!(rt; row.len(), 18);
    for (node, spec) in [(6, 7), (8, 9), (14, 16)] {
        match row[node] {
            Some(found) => assert_eq!(rt; found.node, spec),
            None => assert!(rt; false),
        }
    }
    assert!(rt; row[17].is_none());
    Ok(())
}

#[test]
fn operators_of_nodes(rt: HostRuntime) -> Result<(), Fail> {
    let alloc = rt.alloc();
    for op in [Operator::ShiftLeft, Operator::Equal] {
        let tree = tree(alloc, op)?;
        let parts = [4, 5].to_vec(alloc)?;
        let shown = Node {
            kind: NodeKind::Binary,
            first: 5,
            last: 6,
            parts: Parts::new(parts),
        };
        // the first token, and the one before the right operand
        assert!(rt; unary_operator(&tree, &shown) == Some(op));
        assert!(rt; binary_operator(&tree, &shown) == Some(op));
    }
    Ok(())
}
