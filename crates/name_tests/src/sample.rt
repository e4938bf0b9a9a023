//! A small file with an import and a type, and its tree, worked out by hand.
ghost use Rattle.std.specs.Prelude.{◌≡◌, IfOk, codes, length};
ghost use Rattle.go_tree.specs.Arena.{node_of};
ghost use Rattle.go_tree.specs.Pieces.{Spelled};

use go_tree::{FileTree, Node, NodeKind, Parts, Token, TokenKind};
use gv_base::{NoMemory, Row};
use std::alloc::Global;

pub const SOURCE: &[u8] = b"package p;import \"x\";type T c;";

fn token(kind: TokenKind, start: u32, end: u32) -> Token
    ensures { result ≡ record { kind = kind; start = start; «end» = end } }
{
    Token { kind, start, end }
}

fn node(
    alloc: Global,
    kind: NodeKind,
    first: u32,
    last: u32,
    parts: &[u32],
) -> Result<Node, NoMemory>
    ensures { IfOk result (λ node. node ≡ node_of kind first last parts.now) }
{
    let parts = parts.to_vec(alloc)?;
    Ok(Node {
        kind,
        first,
        last,
        parts: Parts::new(parts),
    })
}

/// The tree of the source.
pub fn sample(alloc: Global) -> Result<FileTree, NoMemory>
    ensures spelled { IfOk result (λ tree. Spelled tree.tokens (codes "package p;import \"x\";type T c;") tree) }
    ensures size { IfOk result (λ tree. length tree.nodes ≡ 8) }
{
    let tokens = vec![in alloc;
        token(TokenKind::Keyword(17), 0, 7),
        token(TokenKind::Name, 8, 9),
        token(TokenKind::Semi, 9, 10),
        token(TokenKind::Keyword(14), 10, 16),
        token(TokenKind::Text, 17, 20),
        token(TokenKind::Semi, 20, 21),
        token(TokenKind::Keyword(23), 21, 25),
        token(TokenKind::Name, 26, 27),
        token(TokenKind::Name, 28, 29),
        token(TokenKind::Semi, 29, 30),
    ]?;
    let name = node(alloc, NodeKind::Name, 1, 1, &[])?;
    let clause = node(alloc, NodeKind::Package, 0, 1, &[0])?;
    let path = node(alloc, NodeKind::ImportPath, 4, 4, &[])?;
    let import = node(alloc, NodeKind::Import, 3, 4, &[2])?;
    let declared = node(alloc, NodeKind::Name, 7, 7, &[])?;
    let used = node(alloc, NodeKind::Name, 8, 8, &[])?;
    let defined = node(alloc, NodeKind::Defined, 7, 8, &[4, 5])?;
    let types = node(alloc, NodeKind::TypeDecl, 6, 8, &[6])?;
    let nodes = vec![in alloc; name, clause, path, import, declared, used, defined, types]?;
    let tops = vec![in alloc; 1, 3, 7]?;
    Ok(FileTree {
        tokens: Row::new(tokens),
        nodes: Row::new(nodes),
        tops: Row::new(tops),
    })
}
