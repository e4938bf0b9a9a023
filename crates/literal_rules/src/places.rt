//! Where elements of literals stand.
ghost use Rattle.std.specs.Prelude.{◌≡◌};
ghost use Rattle.package_objects.specs.Declares.{kind_at};
ghost use Rattle.unit_read.specs.Subjects.{unit_of, IsRead};
ghost use Rattle.literal_rules.specs.Forms.{is_braces as is_braces_kind};
ghost use Rattle.literal_rules.specs.Wants.{nodes_in, second_braces};

use crate::forms::is_braces;
use go_tree::Node;
use package_objects::{kind_of, part_of};
use rule_words::file_of;
use unit_read::Subject;

/// The nodes of the file of a block.
pub fn nodes_in<'a>(u: &Subject<'a>, block: usize) -> &'a [Node]
    requires { IsRead u.now }
    ensures { result.now ≡ nodes_in (unit_of u.now) block }
{
    u.nodes_at(file_of(u, block))
}

/// Whether a node is braces.
pub fn is_braces_at(u: &Subject, block: usize, n: u32) -> bool
    requires { IsRead u.now }
    ensures { result ≡ is_braces_kind (kind_at (nodes_in (unit_of u.now) block) n) }
{
    is_braces(kind_of(nodes_in(u, block), n))
}

/// Whether the element with a key is braces.
pub fn second_braces(u: &Subject, block: usize, around: &Node) -> bool
    requires { IsRead u.now }
    ensures { result ≡ second_braces (unit_of u.now) block around.now }
{
    match part_of(around, 1) {
        Some(n) => is_braces_at(u, block, n),
        None => false,
    }
}
