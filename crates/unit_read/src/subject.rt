//! What is kept of a package that has been read.
ghost use Rattle.std.specs.Prelude.{◌≡◌, ◌<◌, ◌-◌, Some, false, slice_get, slice_index_or, option_and_then};
ghost use Rattle.std.specs.Option.{option_copied};
ghost use Rattle.std.specs.Str.{bytes_eq};
ghost use Rattle.object_order.specs.Views.{group_in};
ghost use Rattle.type_model.specs.Tables.{is_same_name};
ghost use Rattle.unit_read.specs.Units.{text_in, tree_at, nodes_at, node_at, token_at, spelled, object_at, place_at, spec_at, passage_at, name_at, defined, type_name, type_node, copy_at};
ghost use Rattle.unit_read.specs.Entries.{entry};
ghost use Rattle.unit_read.specs.Imports.{lead_at};
ghost use Rattle.unit_read.specs.Members.{is_repeat};
ghost use Rattle.unit_read.specs.Methods.{methods_of, is_repeated_method};
ghost use Rattle.unit_read.specs.Subjects.{cell, flag, full_of, unit_of, IsRead};

use crate::entries::Entries;
use crate::environment::Environment;
use crate::few::entry;
use crate::first_names::find;
use crate::lead::Lead;
use crate::passage::Passage;
use crate::place::Place;
use const_tree::Spec;
use go_tree::{Bindings, FileTree, Node, NodeRef, Object, Token, token_text};
use std::collections::HashMap;
use type_model::TypeName;

/// A package: its path, its files in the order of their paths, what the uses in them denote, and the interfaces to which imports lead; then
/// its passages, and a row for each file with what is said of each of its nodes: what it denotes, where it stands; of few of them, to which
/// specification of constants they belong, and to what they lead as imports; the names of its defined types, and the first at package level of each name; and
/// flags: which names are declared before in their block, which need themselves, which lead back to themselves, and which members of structs and interfaces have the name of
/// an earlier one; by which block a list is repeated; and of which type a node declares a method, the methods of each type, as lists whose numbers
/// stand in `kin`, and which have the name of an earlier one of their type.
#[derive(Drop)]
pub struct Subject<'a> {
    pub path: &'a [u8],
    pub texts: &'a [&'a [u8]],
    pub trees: &'a [FileTree],
    pub uses: &'a Bindings,
    pub env: &'a Environment<'a>,
    pub passages: Vec<Passage>,
    pub objects: Vec<Vec<Option<Object>>>,
    pub places: Vec<Vec<Option<Place>>>,
    pub specs: Vec<Entries<Spec>>,
    pub leads: Vec<Entries<Lead>>,
    pub defined: Vec<NodeRef>,
    pub locals: Vec<Entries<usize>>,
    pub named: HashMap<&'a [u8], NodeRef>,
    pub redeclared: Vec<Vec<bool>>,
    pub cyclic: Vec<Vec<bool>>,
    pub circular: Vec<Vec<bool>>,
    pub repeats: Vec<Vec<bool>>,
    pub copies: Vec<Entries<usize>>,
    pub owners: Vec<Vec<Option<NodeRef>>>,
    pub groups: Vec<Vec<NodeRef>>,
    pub kin: Vec<Entries<usize>>,
    pub repeated: Vec<Vec<bool>>,
}

fn token_of<'a>(tree: &'a FileTree, token: u32) -> Option<&'a Token>
    ensures { option_copied result ≡ slice_get tree.now.tokens token }
{
    tree.tokens.as_slice().get(token as usize)
}

fn row_at<'a, T>(rows: &'a Vec<Vec<T>>, file: u32) -> Option<&'a Vec<T>>
    ensures { option_copied result ≡ slice_get rows.now.items file }
{
    rows.get(file as usize)
}

fn cell_at<T: Copy>(row: &Vec<Option<T>>, node: u32) -> Option<T>
    ensures { result ≡ option_and_then (λ o. o) (slice_get row.now.items node) }
{
    match row.get(node as usize) {
        Some(cell) => *cell,
        None => None,
    }
}

/// What a table has for a node.
pub fn cell<T: Copy>(rows: &Vec<Vec<Option<T>>>, at: NodeRef) -> Option<T>
    ensures { result ≡ cell rows.now.items at }
{
    match row_at(rows, at.file) {
        Some(row) => cell_at(row, at.node),
        None => None,
    }
}

fn flag_at(row: &Vec<bool>, node: u32) -> bool
    ensures { result ≡ slice_index_or row.now.items node false }
{
    match row.get(node as usize) {
        Some(flag) => *flag,
        None => false,
    }
}

/// What a table of flags has for a node.
pub fn flag(rows: &Vec<Vec<bool>>, at: NodeRef) -> bool
    ensures { result ≡ flag rows.now.items at }
{
    match row_at(rows, at.file) {
        Some(row) => flag_at(row, at.node),
        None => false,
    }
}

fn group_in(groups: &Vec<Vec<NodeRef>>, k: usize) -> &[NodeRef]
    ensures { result.now ≡ group_in groups.now.items k }
{
    match groups.get(k) {
        Some(list) => list.as_slice(),
        None => &[],
    }
}

fn nth(list: &Vec<NodeRef>, i: usize) -> Option<NodeRef>
    ensures { result ≡ slice_get list.now.items i }
{
    list.get(i).copied()
}

impl<'a> Subject<'a> {
    /// The tree of a file.
    pub fn tree_at(&self, file: u32) -> Option<&'a FileTree>
        ensures { option_copied result ≡ tree_at (unit_of self.now) file }
    {
        self.trees.get(file as usize)
    }

    /// The nodes of a file; none where there is no such file.
    pub fn nodes_at(&self, file: u32) -> &'a [Node]
        ensures { result.now ≡ nodes_at (unit_of self.now) file }
    {
        match self.tree_at(file) {
            Some(tree) => tree.nodes.as_slice(),
            None => &[],
        }
    }

    /// A node, if it is there.
    pub fn node_at(&self, at: NodeRef) -> Option<&'a Node>
        ensures { option_copied result ≡ node_at (unit_of self.now) at }
    {
        self.nodes_at(at.file).get(at.node as usize)
    }

    fn token_at(&self, file: u32, token: u32) -> Option<&'a Token>
        ensures { option_copied result ≡ token_at (unit_of self.now) file token }
    {
        match self.tree_at(file) {
            Some(tree) => token_of(tree, token),
            None => None,
        }
    }

    /// The bytes of a file.
    fn text_in(&self, file: u32) -> &'a [u8]
        ensures { result.now ≡ text_in (unit_of self.now) file }
    {
        if (file as usize) < self.texts.len() {
            self.texts[file as usize]
        } else {
            &[]
        }
    }

    /// The bytes of a token.
    pub fn spelled(&self, file: u32, token: u32) -> &'a [u8]
        ensures { result.now ≡ spelled (unit_of self.now) file token }
    {
        match self.token_at(file, token) {
            Some(token) => token_text(self.text_in(file), token),
            None => &[],
        }
    }

    /// The name that is written at a node.
    pub fn name_at(&self, at: NodeRef) -> &'a [u8]
        ensures { result.now ≡ name_at (unit_of self.now) at }
    {
        match self.node_at(at) {
            Some(node) => self.spelled(at.file, node.first),
            None => &[],
        }
    }

    /// What a node denotes.
    pub fn object_at(&self, at: NodeRef) -> Option<Object>
        requires { IsRead self.now }
        ensures { result ≡ object_at (unit_of self.now) at }
    {
        cell(&self.objects, at)
    }

    /// Where a node stands; None where it stands in no other.
    pub fn place_at(&self, at: NodeRef) -> Option<Place>
        requires { IsRead self.now }
        ensures { result ≡ place_at (unit_of self.now) at }
    {
        cell(&self.places, at)
    }

    /// What an import leads to.
    pub fn lead_at(&self, at: NodeRef) -> Option<Lead>
        requires { IsRead self.now }
        ensures { result ≡ lead_at (full_of self.now) at }
    {
        entry(&self.leads, at)
    }

    /// The specification of constants to which a node belongs.
    pub fn spec_at(&self, at: NodeRef) -> Option<Spec>
        requires { IsRead self.now }
        ensures { result ≡ spec_at (unit_of self.now) at }
    {
        entry(&self.specs, at)
    }

    /// The passage of a block.
    pub fn passage_at(&self, block: usize) -> Option<Passage>
        requires { IsRead self.now }
        ensures { result ≡ passage_at (unit_of self.now) block }
    {
        self.passages.get(block).copied()
    }

    /// What tells the defined type that is declared at a node apart from others of its name.
    pub fn local_at(&self, at: NodeRef) -> Option<u64>
        ensures { result ≡ entry self.now.locals.items at }
    {
        match entry(&self.locals, at) {
            Some(local) => Some(local as u64),
            None => None,
        }
    }

    /// Whether a name is declared before in its block (Go 1.17, "Declarations and scope").
    pub fn is_redeclared(&self, name: NodeRef) -> bool
        ensures { result ≡ (unit_of self.now).redeclared name }
    {
        flag(&self.redeclared, name)
    }

    /// Whether the declaration of a name needs itself.
    pub fn is_cyclic(&self, name: NodeRef) -> bool
        ensures { result ≡ (unit_of self.now).cyclic name }
    {
        flag(&self.cyclic, name)
    }

    /// Whether a name that is no type leads back to itself.
    pub fn is_circular(&self, name: NodeRef) -> bool
        ensures { result ≡ (unit_of self.now).circular name }
    {
        flag(&self.circular, name)
    }

    /// Whether a member of a struct or an interface has the name of an earlier one.
    pub fn is_repeat(&self, at: NodeRef) -> bool
        requires { IsRead self.now }
        ensures { result ≡ is_repeat (unit_of self.now) at }
    {
        flag(&self.repeats, at)
    }

    /// The block of the list that a specification of constants repeats.
    pub fn copy_at(&self, spec: NodeRef) -> Option<usize>
        requires { IsRead self.now }
        ensures { result ≡ copy_at (unit_of self.now) spec }
    {
        entry(&self.copies, spec)
    }

    /// The type of which a node declares a method, by the node of its name.
    pub fn owner(&self, at: NodeRef) -> Option<NodeRef>
        ensures { result ≡ (unit_of self.now).owner at }
    {
        cell(&self.owners, at)
    }

    /// The nodes that declare the methods of the type whose name stands at a node, in order of file and node.
    pub fn methods_of(&self, name: NodeRef) -> &[NodeRef]
        requires { IsRead self.now }
        ensures { result.now ≡ methods_of (unit_of self.now) name }
    {
        match entry(&self.kin, name) {
            Some(k) => group_in(&self.groups, k),
            None => &[],
        }
    }

    /// Whether the method that a node declares has the name of an earlier one of its type.
    pub fn is_repeated_method(&self, at: NodeRef) -> bool
        requires { IsRead self.now }
        ensures { result ≡ is_repeated_method (unit_of self.now) at }
    {
        flag(&self.repeated, at)
    }

    fn is_called(&self, at: NodeRef, name: &TypeName) -> bool
        requires read { IsRead self.now }
        requires defined { slice_get (defined (unit_of self.now)) (name.now.local - 1) ≡ Some at }
        requires path { name.now.«package» ≡ (unit_of self.now).path }
        ensures { result ≡ is_same_name (type_name (unit_of self.now) at) name.now }
    {
        self.name_at(at) == name.name.as_str().as_bytes() && self.local_at(at) == Some(name.local)
    }

    fn is_own(&self, name: &TypeName) -> bool
        ensures { result ≡ bytes_eq (unit_of self.now).path name.now.«package» }
    {
        self.path == name.package.as_str().as_bytes()
    }

    /// The defined type of this package that is declared in a function, by its number.
    fn inner(&self, name: &TypeName) -> Option<NodeRef>
        requires read { IsRead self.now }
        requires path { name.now.«package» ≡ (unit_of self.now).path }
        requires inner { 0 < name.now.local }
        ensures { result ≡ type_node (unit_of self.now) name.now }
    {
        match nth(&self.defined, (name.local - 1) as usize) {
            Some(at) => {
                if self.is_called(at, name) {
                    Some(at)
                } else {
                    None
                }
            }
            None => None,
        }
    }

    /// The node at which a defined type of this package is declared; None for one of another package.
    pub fn type_node(&self, name: &TypeName) -> Option<NodeRef>
        requires { IsRead self.now }
        ensures { result ≡ type_node (unit_of self.now) name.now }
    {
        if !self.is_own(name) {
            return None;
        }
        if name.local == 0 {
            find(&self.named, name.name.as_str().as_bytes())
        } else {
            self.inner(name)
        }
    }
}
