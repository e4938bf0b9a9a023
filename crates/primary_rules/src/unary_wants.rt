//! What the places behind unary operators want.
ghost use Rattle.std.specs.Prelude.{◌≡◌};
ghost use Rattle.mark_walk.specs.Telling.{tell};
ghost use Rattle.const_tree.specs.Operators.{unary_operator};
ghost use Rattle.unit_read.specs.Subjects.{unit_of};
ghost use Rattle.rule_words.specs.Scenes.{sight, IsScene, told_by, IfFound, said, IsMarkOf};
ghost use Rattle.primary_rules.specs.Addresses.{passes};
ghost use Rattle.primary_rules.specs.Wants.{is_channel_type, arrow_demand, operator_wants, unary_asked, unary_wants};

use crate::rules::{takes_address, unary_in};
use crate::wants::wants;
use const_eval::Operator;
use go_tree::{Node, NodeKind};
use op_rules::want_op;
use package_objects::part_of;
use rule_words::file_of;
use type_questions::Found;
use typed_marks::{Item, Mark, State};
use typed_tree::Want as Demand;
use unit_read::{Place, Subject};

fn is_channel_type(kind: NodeKind) -> bool
    ensures { result ≡ is_channel_type kind }
{
    match kind {
        NodeKind::ChanType => true,
        NodeKind::SendChan => true,
        NodeKind::RecvChan => true,
        _ => false,
    }
}

fn is_channel_at(nodes: &[Node], n: u32) -> bool
    ensures { result ≡ passes is_channel_type nodes.now n }
{
    match nodes.get(n as usize) {
        Some(node) => is_channel_type(node.kind),
        None => false,
    }
}

fn arrow_demand(nodes: &[Node], part: Option<u32>) -> Demand
    ensures { result ≡ arrow_demand nodes.now part }
{
    let Some(n) = part else {
        return Demand::Operand;
    };
    if is_channel_at(nodes, n) {
        Demand::Type
    } else {
        Demand::Operand
    }
}

fn operator_wants(
    u: &Subject,
    s: &State,
    block: usize,
    p: Place,
    around: &Node,
    op: Operator,
) -> Found<Mark, Item>
    requires scene { IsScene u.now s.now }
    ensures is { told_by (said s.now) result ≡ tell (sight s.now) (operator_wants (unit_of u.now) block p around.now op) }
    ensures over { IfFound result (IsMarkOf s.now) }
{
    if takes_address(op) {
        wants(Demand::Operand)
    } else {
        want_op(u, s, block, p, around)
    }
}

fn unary_asked(
    u: &Subject,
    s: &State,
    block: usize,
    p: Place,
    around: &Node,
    op: Option<Operator>,
) -> Found<Mark, Item>
    requires scene { IsScene u.now s.now }
    ensures is { told_by (said s.now) result ≡ tell (sight s.now) (unary_asked (unit_of u.now) block p around.now op) }
    ensures over { IfFound result (IsMarkOf s.now) }
{
    match op {
        Some(op) => operator_wants(u, s, block, p, around, op),
        None => {
            let nodes = u.nodes_at(file_of(u, block));
            wants(arrow_demand(nodes, part_of(around, 0)))
        }
    }
}

/// What the place behind a unary operator wants.
#[tactic(auto, unfolding(crate::specs::Wants::unary_wants))]
pub fn unary_wants(
    u: &Subject,
    s: &State,
    block: usize,
    p: Place,
    around: &Node,
) -> Found<Mark, Item>
    requires scene { IsScene u.now s.now }
    ensures is { told_by (said s.now) result ≡ tell (sight s.now) (unary_wants (unit_of u.now) block p around.now) }
    ensures over { IfFound result (IsMarkOf s.now) }
{
    let op = unary_in(u, file_of(u, block), around);
    unary_asked(u, s, block, p, around, op)
}
