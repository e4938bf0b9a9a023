//! What each use of a package's files denotes (Go 1.17, "Declarations and scope").
ghost use Rattle.std.specs.Prelude.{◌≡◌, ◌≤◌, ◌<◌, ◌⊎◌, ℕ, IsTrue, ◌↔◌, length};
ghost use Rattle.go_tree.specs.Bindings.{IsBefore, AreInOrder, AreBelow, AreAbove, Has};

use crate::tree::NodeRef;
use std::marker::Model;

/// What a use denotes.
#[derive(Clone, Copy, Debug, PartialEq, Eq, Drop)]
pub enum Object {
    /// A predeclared name, by its place among the 39 of "Predeclared identifiers" in byte order, from 0.
    Universe(u8),
    /// An import of the file of the use: its spec, an `ImportPath` or `ImportNamed` node. An import without a
    /// name of its own has no name node, so the spec stands for the one with a name too.
    Import(NodeRef),
    /// A name that is declared within a function: the `Name` node at which it is declared, a receiver, parameter or
    /// result in its parameter list, and the name of a type switch in its `Bind` node, whichever clause the use is in.
    Local(NodeRef),
    /// A package-level name: the `Name` node at which it is declared, in any file of the package.
    Package(NodeRef),
}

/// Whether a node comes before another: by file, then by number.
fn comes_before(a: NodeRef, b: NodeRef) -> bool
    ensures { IsTrue result ↔ IsBefore a b }
{
    if a.file == b.file {
        return a.node < b.node;
    }
    a.file < b.file
}

fn is_same(a: NodeRef, b: NodeRef) -> bool
    ensures { IsTrue result ↔ (a ≡ b) }
{
    a == b
}

/// How many entries come before a node.
fn place_of(uses: &[(NodeRef, Object)], at: NodeRef) -> usize
    requires { AreInOrder uses.now }
    ensures within { result ≤ length uses.now }
    ensures below { AreBelow uses.now at result }
    ensures above { AreAbove uses.now at result }
{
    let mut low = 0;
    let mut high = uses.len();
    while low < high {
        let middle = low + (high - low) / 2;
        if comes_before(uses[middle].0, at) {
            low = middle + 1;
        } else {
            high = middle;
        }
    }
    low
}

/// What the uses of a package denote. A contract sees the list of uses and their objects, in order of file and node.
#[derive(Drop)]
pub struct Bindings {
    uses: Vec<(NodeRef, Object)>,
}

impl Model for Bindings {
    ghost use Rattle.std.specs.Prelude.{List};
    ghost use Rattle.go_tree.specs.declared.tree.NodeRef.{NodeRef};
    ghost use Rattle.go_tree.specs.declared.bindings.Object.{Object};
    ghost use Rattle.go_tree.specs.Bindings.{AreInOrder};

    ghost Value = { List (NodeRef × Object) };

    ghost view = { λ b. b.uses.items };

    ghost invariant = { λ b. AreInOrder b.uses.items };
}

impl Bindings {
    /// These uses, which are distinct and in order of file and node. It takes no memory.
    pub fn of(uses: Vec<(NodeRef, Object)>) -> Self
        requires { AreInOrder uses.items }
        ensures { result ≡ uses.items }
    {
        Bindings { uses }
    }

    /// The uses, each with what it denotes, in order of file and node.
    pub fn entries(&self) -> &[(NodeRef, Object)]
        ensures { result.now ≡ self.now }
    {
        self.uses.as_slice()
    }

    /// What the node denotes; `None` exactly where the list has nothing for it. It takes no memory.
    pub fn declaration(&self, at: NodeRef) -> Option<Object>
        ensures { Has self.now at result }
    {
        let place = place_of(&self.uses, at);
        if place < self.uses.len() {
            let entry = self.uses[place];
            if is_same(entry.0, at) {
                return Some(entry.1);
            }
        }
        None
    }
}
