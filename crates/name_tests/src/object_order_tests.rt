//! A file of three declarations, and their order of need, worked out by hand.
use go_tree::{FileTree, Node, NodeKind, NodeRef, Parts};
use gv_base::{NoMemory, Row};
use object_order::{Entry, Form, Needed, Role, Root, View, numbers_of, order_of};
use std::alloc::Global;
use std::test::Fail;

/// The nodes of `package p; var x = c; const c = 1; type T T`, each with its parts.
const NODES: [(NodeKind, &[u32]); 14] = [
    (NodeKind::Name, &[]),
    (NodeKind::Package, &[0]),
    (NodeKind::Name, &[]),
    (NodeKind::Name, &[]),
    (NodeKind::VarValues, &[2, 3]),
    (NodeKind::Var, &[4]),
    (NodeKind::Name, &[]),
    (NodeKind::Int, &[]),
    (NodeKind::ConstValues, &[6, 7]),
    (NodeKind::Const, &[8]),
    (NodeKind::Name, &[]),
    (NodeKind::Name, &[]),
    (NodeKind::Defined, &[10, 11]),
    (NodeKind::TypeDecl, &[12]),
];

fn tree(alloc: Global) -> Result<FileTree, NoMemory> {
    let mut nodes = Vec::new(alloc);
    for (kind, parts) in NODES {
        let parts = Parts::new(parts.to_vec(alloc)?);
        nodes.push(Node {
            kind,
            first: 0,
            last: 0,
            parts,
        })?;
    }
    Ok(FileTree {
        tokens: Row::new(Vec::new(alloc)),
        nodes: Row::new(nodes),
        tops: Row::new([1, 5, 9, 13].to_vec(alloc)?),
    })
}

const fn at(node: u32) -> NodeRef {
    NodeRef { file: 0, node }
}

/// What each node mentions: 3 is `c`, and 11 is `T`.
fn meant(alloc: Global) -> Result<Vec<Option<NodeRef>>, NoMemory> {
    let mut row = Vec::new(alloc);
    for node in 0..14 {
        row.push(match node {
            3 => Some(at(6)),
            11 => Some(at(10)),
            _ => None,
        })?;
    }
    Ok(row)
}

fn entry(alloc: Global, name: u32, form: Form, role: Role, node: u32) -> Result<Entry, NoMemory> {
    let roots = [Root { role, node }].to_vec(alloc)?;
    Ok(Entry {
        name: at(name),
        form,
        roots: Row::new(roots),
    })
}

/// Where the object stands in the order; past the end, where it doesn't.
fn place(order: &[Needed], node: u32) -> usize {
    for place in 0..order.len() {
        if order[place].object == at(node) {
            return place;
        }
    }
    order.len()
}

/// Whether it is marked.
fn marked(order: &[Needed], node: u32) -> bool {
    for needed in order {
        if needed.object == at(node) {
            return needed.cyclic;
        }
    }
    false
}

#[test]
fn what_is_needed_comes_first(rt: HostRuntime) -> Result<(), Fail> {
    let alloc = rt.alloc();
    let mut trees = Vec::new(alloc);
    trees.push(tree(alloc)?)?;
    let mut rows = Vec::new(alloc);
    rows.push(meant(alloc)?)?;
    let mut entries = Vec::new(alloc);
    entries.push(entry(alloc, 2, Form::Other, Role::Resting, 3)?)?;
    entries.push(entry(alloc, 6, Form::Other, Role::Resting, 7)?)?;
    entries.push(entry(alloc, 10, Form::Defined, Role::Typing, 11)?)?;
    let numbers = numbers_of(alloc, &entries)?;
    assert_eq!(rt; numbers.len(), 3);
    let view = View {
        trees: &trees,
        meant: &rows,
        entries,
        numbers,
        groups: Vec::new(alloc),
    };
    let order = order_of(alloc, &view)?;
    assert_eq!(rt; order.len(), 3);
    assert!(rt; place(&order, 6) < place(&order, 2));
    assert!(rt; !marked(&order, 2) && !marked(&order, 6) && marked(&order, 10));
    Ok(())
}
