//! What is read of a package: its trees, what its uses denote, and its declarations.
ghost use Rattle.std.specs.Prelude.{◌≡◌, slice_get, option_and_then};
ghost use Rattle.std.specs.Option.{option_copied};
ghost use Rattle.object_order.specs.Views.{number_in, entry_in, itself, meant_in, group_in, kin_in};

use crate::spot::Entry;
use go_tree::{FileTree, NodeRef};
use std::collections::HashMap;

/// A package's trees, what its nodes mention, its declarations, and the number of each by its name's file and node.
#[derive(Drop)]
pub struct View<'a> {
    pub trees: &'a [FileTree],
    /// For each node of each file the declared name that it mentions: what it denotes, where that is one of the
    /// package's own, and nothing where the node is a field key.
    pub meant: &'a [Vec<Option<NodeRef>>],
    pub entries: Vec<Entry>,
    pub numbers: HashMap<(usize, usize), u32>,
    /// For each declaration the methods and aliases that name it as theirs.
    pub groups: Vec<Vec<NodeRef>>,
}

/// The number that is kept for a pair.
pub fn find(numbers: &HashMap<(usize, usize), u32>, key: (usize, usize)) -> Option<u32>
    ensures { result ≡ number_in numbers.now key }
{
    numbers.get(&key).copied()
}

/// The declaration of a name, if it is one.
pub fn entry_at<'a>(view: &'a View, at: NodeRef) -> Option<&'a Entry>
    ensures { option_copied result ≡ entry_in view.now.entries.items view.now.numbers at }
{
    match find(&view.numbers, (at.file as usize, at.node as usize)) {
        Some(number) => view.entries.get(number as usize),
        None => None,
    }
}

fn row_at<'a>(meant: &'a [Vec<Option<NodeRef>>], file: u32) -> Option<&'a Vec<Option<NodeRef>>>
    ensures { option_copied result ≡ slice_get meant.now file }
{
    meant.get(file as usize)
}

fn meant_in_row(row: &Vec<Option<NodeRef>>, node: u32) -> Option<NodeRef>
    ensures { result ≡ option_and_then itself (slice_get row.now.items node) }
{
    match row.get(node as usize) {
        Some(meant) => *meant,
        None => None,
    }
}

/// What the rows have for a node.
pub fn mention_at(meant: &[Vec<Option<NodeRef>>], at: NodeRef) -> Option<NodeRef>
    ensures { result ≡ meant_in meant.now at }
{
    match row_at(meant, at.file) {
        Some(row) => meant_in_row(row, at.node),
        None => None,
    }
}

/// The declared name that a node mentions.
pub fn meant_at(view: &View, at: NodeRef) -> Option<NodeRef>
    ensures { result ≡ meant_in view.now.meant.now at }
{
    mention_at(view.meant, at)
}

fn group_at(groups: &[Vec<NodeRef>], number: u32) -> &[NodeRef]
    ensures { result.now ≡ group_in groups.now number }
{
    if (number as usize) < groups.len() {
        return groups[number as usize].as_slice();
    }
    &[]
}

/// The methods and aliases that name this type as theirs.
pub fn kin_at<'a>(view: &'a View, at: NodeRef) -> &'a [NodeRef]
    ensures { result.now ≡ kin_in view.now.groups.items view.now.numbers at }
{
    match find(&view.numbers, (at.file as usize, at.node as usize)) {
        Some(number) => group_at(&view.groups, number),
        None => &[],
    }
}
