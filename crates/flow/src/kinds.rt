//! What a node is for control.
ghost use Rattle.std.specs.Prelude.{◌≡◌, drop};
ghost use Rattle.flow.specs.Kinds.{is_sequence, is_branching, is_loop, is_ending, is_inner, is_arm, is_list, is_block, is_post, is_default, is_condition, is_left, is_switch, step_role, steps_of};

use crate::point::Role;
use go_tree::NodeKind;

/// A node that holds statements in turn.
pub(crate) fn is_sequence(kind: NodeKind) -> bool
    ensures { result ≡ is_sequence kind }
{
    matches!(
        kind,
        NodeKind::Block
            | NodeKind::List
            | NodeKind::Label
            | NodeKind::Case
            | NodeKind::Default
            | NodeKind::TypeCase
            | NodeKind::Comm
            | NodeKind::Post
    )
}

/// A statement that passes through one of its arms.
pub(crate) fn is_branching(kind: NodeKind) -> bool
    ensures { result ≡ is_branching kind }
{
    matches!(
        kind,
        NodeKind::If | NodeKind::Switch | NodeKind::TypeSwitch | NodeKind::Select
    )
}

/// A `for` statement.
pub(crate) fn is_loop(kind: NodeKind) -> bool
    ensures { result ≡ is_loop kind }
{
    matches!(
        kind,
        NodeKind::For
            | NodeKind::ForClause
            | NodeKind::ForRange
            | NodeKind::ForRangeAssign
            | NodeKind::ForRangeDefine
    )
}

/// A statement that doesn't pass: control ends there or goes elsewhere.
pub(crate) fn is_ending(kind: NodeKind) -> bool
    ensures { result ≡ is_ending kind }
{
    matches!(
        kind,
        NodeKind::Return
            | NodeKind::Break
            | NodeKind::Continue
            | NodeKind::Goto
            | NodeKind::Fallthrough
    )
}

pub(crate) fn is_list(kind: NodeKind) -> bool
    ensures { result ≡ is_list kind }
{
    matches!(kind, NodeKind::List)
}

pub(crate) fn is_block(kind: NodeKind) -> bool
    ensures { result ≡ is_block kind }
{
    matches!(kind, NodeKind::Block)
}

pub(crate) fn is_post(kind: NodeKind) -> bool
    ensures { result ≡ is_post kind }
{
    matches!(kind, NodeKind::Post)
}

pub(crate) fn is_default(kind: NodeKind) -> bool
    ensures { result ≡ is_default kind }
{
    matches!(kind, NodeKind::Default)
}

pub(crate) fn is_condition(kind: NodeKind) -> bool
    ensures { result ≡ is_condition kind }
{
    matches!(kind, NodeKind::Condition)
}

/// A branch or a clause.
pub(crate) fn is_arm(kind: NodeKind) -> bool
    ensures { result ≡ is_arm kind }
{
    matches!(
        kind,
        NodeKind::Block
            | NodeKind::If
            | NodeKind::Case
            | NodeKind::Default
            | NodeKind::TypeCase
            | NodeKind::Comm
    )
}

/// A part of a branching statement or of a loop that is no header.
pub(crate) fn is_inner(kind: NodeKind) -> bool
    ensures { result ≡ is_inner kind }
{
    is_arm(kind) || (is_condition(kind) || is_post(kind))
}

/// A `switch` or a `select`: a `break` leaves it, and a `continue` in it speaks of a loop round it.
pub(crate) fn is_left(kind: NodeKind) -> bool
    ensures { result ≡ is_left kind }
{
    matches!(
        kind,
        NodeKind::Switch | NodeKind::TypeSwitch | NodeKind::Select
    )
}

/// Which parts of a sequence are its steps.
pub(crate) fn step_role(kind: NodeKind) -> Role
    ensures { result ≡ step_role kind }
{
    if matches!(
        kind,
        NodeKind::Case | NodeKind::Default | NodeKind::TypeCase
    ) {
        return Role::List;
    }
    Role::Any
}

fn behind_first(parts: &[u32]) -> &[u32]
    ensures { result.now ≡ drop 1 parts.now }
{
    if parts.len() == 0 {
        return parts;
    }
    &parts[1..]
}

/// The parts of a sequence without a label's name.
pub(crate) fn steps_of(kind: NodeKind, parts: &[u32]) -> &[u32]
    ensures { result.now ≡ steps_of kind parts.now }
{
    if matches!(kind, NodeKind::Label) {
        return behind_first(parts);
    }
    parts
}

pub(crate) fn is_switch(kind: NodeKind) -> bool
    ensures { result ≡ is_switch kind }
{
    matches!(kind, NodeKind::Switch)
}
