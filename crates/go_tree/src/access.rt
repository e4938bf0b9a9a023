//! Nodes, tokens and texts of trees, by their numbers.
ghost use Rattle.std.specs.Prelude.{◌≡◌, slice_get, option_and_then};
ghost use Rattle.std.specs.Option.{option_copied};
ghost use Rattle.go_tree.specs.declared.tree.FileTree.{FileTree};
ghost use Rattle.go_tree.specs.Head.{node_at, token_at};
ghost use Rattle.go_tree.specs.Spelling.{text_of};

use crate::spelling::token_text;
use crate::token::{Token, TokenKind};
use crate::tree::{FileTree, Node, NodeKind, NodeRef};

impl Node {
    /// The number of its part at a place from 0; None where it has not so many.
    pub fn part(&self, place: usize) -> Option<u32>
        ensures { result ≡ slice_get self.now.parts place }
    {
        self.parts.as_slice().get(place).copied()
    }
}

impl FileTree {
    /// The node of a number; None where there is none.
    pub fn node(&self, n: u32) -> Option<&Node>
        ensures { option_copied result ≡ slice_get self.now.nodes n }
    {
        self.nodes.as_slice().get(n as usize)
    }

    /// The token of a number; an empty semicolon at the front where there is none.
    pub fn token(&self, at: u32) -> Token
        ensures { result ≡ token_at self.now at }
    {
        let tokens = self.tokens.as_slice();
        if (at as usize) < tokens.len() {
            tokens[at as usize]
        } else {
            Token {
                kind: TokenKind::Semi,
                start: 0,
                end: 0,
            }
        }
    }

    /// The kind of a node; `Name` where there is no such node.
    pub fn kind(&self, n: u32) -> NodeKind
        ensures { result ≡ (node_at self.now n).kind }
    {
        let nodes = self.nodes.as_slice();
        if (n as usize) < nodes.len() {
            nodes[n as usize].kind
        } else {
            NodeKind::Name
        }
    }

    /// The numbers of a node's parts from left to right; none where there is no such node.
    pub fn parts(&self, n: u32) -> &[u32]
        ensures { result.now ≡ (node_at self.now n).parts }
    {
        let nodes = self.nodes.as_slice();
        if (n as usize) < nodes.len() {
            nodes[n as usize].parts.as_slice()
        } else {
            &[]
        }
    }

    fn first_number(&self, n: u32) -> u32
        ensures { result ≡ (node_at self.now n).first }
    {
        let nodes = self.nodes.as_slice();
        if (n as usize) < nodes.len() {
            nodes[n as usize].first
        } else {
            0
        }
    }

    fn last_number(&self, n: u32) -> u32
        ensures { result ≡ (node_at self.now n).last }
    {
        let nodes = self.nodes.as_slice();
        if (n as usize) < nodes.len() {
            nodes[n as usize].last
        } else {
            0
        }
    }

    /// The token with which a node begins; the tree's first where there is no such node.
    pub fn first(&self, n: u32) -> Token
        ensures { result ≡ token_at self.now (node_at self.now n).first }
    {
        self.token(self.first_number(n))
    }

    /// The token with which a node ends; the tree's first where there is no such node.
    pub fn last(&self, n: u32) -> Token
        ensures { result ≡ token_at self.now (node_at self.now n).last }
    {
        self.token(self.last_number(n))
    }

    /// The bytes of the token with which a node begins: all of a name or of a literal.
    pub fn spelled<'a>(&self, source: &'a [u8], n: u32) -> &'a [u8]
        ensures { result.now ≡ text_of source.now (token_at self.now (node_at self.now n).first) }
    {
        token_text(source, &self.first(n))
    }
}

/// The tree of a file's number among those of a package; None where there is none.
pub fn tree_in(trees: &[FileTree], file: u32) -> Option<&FileTree>
    ensures { option_copied result ≡ slice_get trees.now file }
{
    trees.get(file as usize)
}

/// A node of one of a package's files; None where there is none.
pub fn node_in(trees: &[FileTree], at: NodeRef) -> Option<&Node>
    ensures { option_copied result ≡ option_and_then (λ (tree : FileTree). slice_get tree.nodes at.node) (slice_get trees.now at.file) }
{
    match tree_in(trees, at.file) {
        Some(tree) => tree.node(at.node),
        None => None,
    }
}
