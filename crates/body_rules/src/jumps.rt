//! Jumps to labels.
ghost use Rattle.std.specs.Prelude.{◌≡◌, ◌<◌, ◌≤◌, ◌↔◌, ℕ, IsTrue, Option, Some, None, length, get_or, nat_lt, false};
ghost use Rattle.std.specs.Option.{option_map_or};
ghost use Rattle.node_values.specs.Ranges.{starts, IsTiled, IsWithin};
ghost use Rattle.node_values.specs.Trees.{IsTree, AreInnermost};
ghost use Rattle.go_tree.specs.declared.tree.Node.{Node};
ghost use Rattle.body_rules.specs.Kinds.{is_block};
ghost use Rattle.body_rules.specs.Jumps.{label_of, JumpsOver, JumpsInto};
ghost use Rattle.body_rules.specs.Latest.{AreLatest};

use crate::latest::number_at;
use go_tree::Node;

pub(crate) fn place_at(numbers: &[usize], n: usize) -> usize
    ensures { result ≡ get_or numbers.now n 0 }
{
    if n < numbers.len() { numbers[n] } else { 0 }
}

fn is_before(n: usize, other: Option<usize>) -> bool
    ensures { result ≡ option_map_or (λ d. nat_lt n d) other false }
{
    match other {
        Some(d) => n < d,
        None => false,
    }
}

/// Whether a jump to a label goes over the declaration of a variable of the label's block.
pub(crate) fn jumps_over(
    nodes: &[Node],
    blocks: &[Option<usize>],
    latest: &[Option<usize>],
    n: usize,
    l: usize,
) -> bool
    requires tree { IsTree nodes.now }
    requires label { l < length nodes.now }
    requires blocks { AreInnermost is_block nodes.now blocks.now }
    requires latest { AreLatest nodes.now blocks.now (length nodes.now) latest.now }
    ensures { IsTrue result ↔ JumpsOver nodes.now n l }
{
    match number_at(blocks, l) {
        Some(_) => is_before(n, number_at(latest, l)),
        None => false,
    }
}

pub(crate) fn is_within(found: &[usize], p: usize, n: usize) -> bool
    ensures { IsTrue result ↔ IsWithin found.now p n }
{
    if n >= p {
        return false;
    }
    place_at(found, p) <= n
}

/// Whether a jump to a label goes into the label's block from outside.
pub(crate) fn jumps_into(
    nodes: &[Node],
    blocks: &[Option<usize>],
    begins: &[usize],
    n: usize,
    l: usize,
) -> bool
    requires tree { IsTree nodes.now }
    requires tiled { IsTiled nodes.now }
    requires label { l < length nodes.now }
    requires blocks { AreInnermost is_block nodes.now blocks.now }
    requires begins { begins.now ≡ starts nodes.now }
    ensures { IsTrue result ↔ JumpsInto nodes.now n l }
{
    match number_at(blocks, l) {
        Some(b) => !is_within(begins, b, n),
        None => false,
    }
}
