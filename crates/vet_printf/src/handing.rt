//! What calls hand on.
ghost use Rattle.std.specs.Prelude.{◌≡◌, ◌<◌, ◌==◌, ◌&&◌, ◌||◌, not, false, length, if◌then◌else◌};
ghost use Rattle.std.specs.Option.{option_map_or};
ghost use Rattle.unit_read.specs.Units.{nodes_at};
ghost use Rattle.findings.specs.Passes.{unit_in, marks_in, IsPass};
ghost use Rattle.vet_printf.specs.Forwards.{nth_back, denotes, is_touched, format_of, hands_part, hands_some, hands_rest, hands_format, hands, AreTouched};

use crate::params::{format_of, nth_back, variadic_of};
use crate::touching::{denotes, is_touched};
use findings::Pass;
use go_tree::Node;

/// Whether a parameter is touched, by the row of its file.
fn touched_at(p: &Pass, file: u32, row: &[bool], q: u32) -> bool
    requires pass { IsPass p.now }
    requires row { AreTouched (unit_in p.now) file (length (nodes_at (unit_in p.now) file)) (nodes_at (unit_in p.now) file) row.now }
    ensures { result ≡ is_touched (unit_in p.now) file q }
{
    match row.get(q as usize) {
        Some(flag) => *flag,
        None => is_touched(p, file, q),
    }
}

fn denotes_back(p: &Pass, file: u32, call: &Node, back: usize, q: u32) -> bool
    requires { IsPass p.now }
    ensures { result ≡ option_map_or (denotes (unit_in p.now) file q) (nth_back call.now.parts back) false }
{
    match nth_back(call.parts.as_slice(), back) {
        Some(n) => denotes(p, file, q, n),
        None => false,
    }
}

fn hands_part(p: &Pass, file: u32, row: &[bool], call: &Node, back: usize, q: u32) -> bool
    requires pass { IsPass p.now }
    requires row { AreTouched (unit_in p.now) file (length (nodes_at (unit_in p.now) file)) (nodes_at (unit_in p.now) file) row.now }
    ensures { result ≡ hands_part (unit_in p.now) file call.now back q }
{
    !touched_at(p, file, row, q) && denotes_back(p, file, call, back, q)
}

fn hands_some(p: &Pass, file: u32, row: &[bool], call: &Node, back: usize, q: Option<u32>) -> bool
    requires pass { IsPass p.now }
    requires row { AreTouched (unit_in p.now) file (length (nodes_at (unit_in p.now) file)) (nodes_at (unit_in p.now) file) row.now }
    ensures { result ≡ hands_some (unit_in p.now) file call.now back q }
{
    match q {
        Some(q) => hands_part(p, file, row, call, back, q),
        None => false,
    }
}

fn hands_rest(p: &Pass, file: u32, row: &[bool], call: &Node, node: &Node) -> bool
    requires pass { IsPass p.now }
    requires row { AreTouched (unit_in p.now) file (length (nodes_at (unit_in p.now) file)) (nodes_at (unit_in p.now) file) row.now }
    ensures { result ≡ hands_rest (unit_in p.now) (marks_in p.now) file call.now node.now }
{
    hands_some(p, file, row, call, 1, variadic_of(p, file, node))
}

fn hands_before(p: &Pass, file: u32, row: &[bool], call: &Node, node: &Node) -> bool
    requires pass { IsPass p.now }
    requires row { AreTouched (unit_in p.now) file (length (nodes_at (unit_in p.now) file)) (nodes_at (unit_in p.now) file) row.now }
    ensures { result ≡ hands_some (unit_in p.now) file call.now 2 (format_of (unit_in p.now) (marks_in p.now) file node.now) }
{
    hands_some(p, file, row, call, 2, format_of(p, file, node))
}

fn hands_format(p: &Pass, file: u32, row: &[bool], call: &Node, node: &Node) -> bool
    requires pass { IsPass p.now }
    requires row { AreTouched (unit_in p.now) file (length (nodes_at (unit_in p.now) file)) (nodes_at (unit_in p.now) file) row.now }
    ensures { result ≡ hands_format (unit_in p.now) (marks_in p.now) file call.now node.now }
{
    hands_before(p, file, row, call, node) && hands_rest(p, file, row, call, node)
}

fn has_format(kind: u8) -> bool
    ensures { result ≡ ((kind == 2) || (kind == 4)) }
{
    kind == 2 || kind == 4
}

/// Whether a call in a declaration hands its last parameters on, as a call of a function of this kind.
pub(crate) fn hands(p: &Pass, file: u32, row: &[bool], call: &Node, node: &Node, kind: u8) -> bool
    requires pass { IsPass p.now }
    requires row { AreTouched (unit_in p.now) file (length (nodes_at (unit_in p.now) file)) (nodes_at (unit_in p.now) file) row.now }
    ensures { result ≡ hands (unit_in p.now) (marks_in p.now) file call.now node.now kind }
{
    if kind == 1 {
        hands_rest(p, file, row, call, node)
    } else {
        has_format(kind) && hands_format(p, file, row, call, node)
    }
}
