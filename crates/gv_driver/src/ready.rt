//! Whether a package can be loaded.
ghost use Rattle.std.specs.Prelude.{◌≡◌, ◌<◌, ◌↔◌, IsTrue, length, slice_get};
ghost use Rattle.gv_driver.specs.Tables.{AreGood, IsReady, accepted_in};

use crate::answer::is_accepted;
use crate::node::Node;
use crate::tree::PackageTexts;

fn is_accepted_at(table: &[Option<Node>], at: usize) -> bool
    ensures { result ≡ accepted_in (slice_get table.now at) }
{
    match table.get(at) {
        None => false,
        Some(None) => false,
        Some(Some(node)) => is_accepted(&node.answer),
    }
}

/// Whether each of these packages is done and accepted.
fn are_accepted(table: &[Option<Node>], numbers: &[u32]) -> bool
    ensures { IsTrue result ↔ AreGood table.now numbers.now }
{
    for number in numbers {
        if !is_accepted_at(table, *number as usize) {
            return false;
        }
    }
    true
}

/// Whether a package is sound and isn't done, and all that it imports is accepted.
pub(crate) fn is_ready(tree: &[PackageTexts], table: &[Option<Node>], at: usize) -> bool
    requires at { at < length tree.now }
    requires size { length table.now ≡ length tree.now }
    ensures { IsTrue result ↔ IsReady tree.now table.now at }
{
    if table[at].is_some() {
        return false;
    }
    if !tree[at].sound {
        return false;
    }
    are_accepted(table, tree[at].imports.as_slice())
}
