//! Kinds of nodes.
ghost use Rattle.std.specs.Prelude.{◌≡◌};
ghost use Rattle.body_rules.specs.Kinds.{is_declaration, is_method, is_loop, is_choice, is_clause, is_body, is_if, declares, is_default, is_condition, is_params, is_label, is_list, is_goto, is_break, is_continue, is_fall, is_return, is_call, is_paren, is_plain_for, is_clause_for, is_switch, is_type_switch, is_select, is_assigning, is_several, can_break, is_block, is_jump};
ghost use Rattle.body_rules.specs.Endings.{is_passed, is_final};

use go_tree::NodeKind;

pub(crate) fn is_declaration(kind: NodeKind) -> bool
    ensures { result ≡ is_declaration kind }
{
    matches!(kind, NodeKind::FuncDecl)
}

pub(crate) fn is_method(kind: NodeKind) -> bool
    ensures { result ≡ is_method kind }
{
    matches!(kind, NodeKind::MethodDecl)
}

/// A `for`.
pub(crate) fn is_loop(kind: NodeKind) -> bool
    ensures { result ≡ is_loop kind }
{
    matches!(
        kind,
        NodeKind::For
            | NodeKind::ForClause
            | NodeKind::ForRange
            | NodeKind::ForRangeAssign
            | NodeKind::ForRangeDefine
    )
}

/// A `switch` or `select`.
pub(crate) fn is_choice(kind: NodeKind) -> bool
    ensures { result ≡ is_choice kind }
{
    matches!(
        kind,
        NodeKind::Switch | NodeKind::TypeSwitch | NodeKind::Select
    )
}

pub(crate) fn is_clause(kind: NodeKind) -> bool
    ensures { result ≡ is_clause kind }
{
    matches!(
        kind,
        NodeKind::Case | NodeKind::Default | NodeKind::TypeCase | NodeKind::Comm
    )
}

pub(crate) fn is_body(kind: NodeKind) -> bool
    ensures { result ≡ is_body kind }
{
    matches!(kind, NodeKind::Block)
}

pub(crate) fn is_if(kind: NodeKind) -> bool
    ensures { result ≡ is_if kind }
{
    matches!(kind, NodeKind::If)
}

/// A statement that declares variables.
pub(crate) fn declares(kind: NodeKind) -> bool
    ensures { result ≡ declares kind }
{
    matches!(kind, NodeKind::Var | NodeKind::VarGroup | NodeKind::Define)
}

pub(crate) fn is_default(kind: NodeKind) -> bool
    ensures { result ≡ is_default kind }
{
    matches!(kind, NodeKind::Default)
}

pub(crate) fn is_condition(kind: NodeKind) -> bool
    ensures { result ≡ is_condition kind }
{
    matches!(kind, NodeKind::Condition)
}

pub(crate) fn is_params(kind: NodeKind) -> bool
    ensures { result ≡ is_params kind }
{
    matches!(kind, NodeKind::Params)
}

pub(crate) fn is_label(kind: NodeKind) -> bool
    ensures { result ≡ is_label kind }
{
    matches!(kind, NodeKind::Label)
}

pub(crate) fn is_list(kind: NodeKind) -> bool
    ensures { result ≡ is_list kind }
{
    matches!(kind, NodeKind::List)
}

pub(crate) fn is_goto(kind: NodeKind) -> bool
    ensures { result ≡ is_goto kind }
{
    matches!(kind, NodeKind::Goto)
}

pub(crate) fn is_break(kind: NodeKind) -> bool
    ensures { result ≡ is_break kind }
{
    matches!(kind, NodeKind::Break)
}

pub(crate) fn is_continue(kind: NodeKind) -> bool
    ensures { result ≡ is_continue kind }
{
    matches!(kind, NodeKind::Continue)
}

pub(crate) fn is_fall(kind: NodeKind) -> bool
    ensures { result ≡ is_fall kind }
{
    matches!(kind, NodeKind::Fallthrough)
}

pub(crate) fn is_return(kind: NodeKind) -> bool
    ensures { result ≡ is_return kind }
{
    matches!(kind, NodeKind::Return)
}

pub(crate) fn is_call(kind: NodeKind) -> bool
    ensures { result ≡ is_call kind }
{
    matches!(kind, NodeKind::Call)
}

pub(crate) fn is_paren(kind: NodeKind) -> bool
    ensures { result ≡ is_paren kind }
{
    matches!(kind, NodeKind::Paren)
}

pub(crate) fn is_plain_for(kind: NodeKind) -> bool
    ensures { result ≡ is_plain_for kind }
{
    matches!(kind, NodeKind::For)
}

pub(crate) fn is_clause_for(kind: NodeKind) -> bool
    ensures { result ≡ is_clause_for kind }
{
    matches!(kind, NodeKind::ForClause)
}

pub(crate) fn is_switch(kind: NodeKind) -> bool
    ensures { result ≡ is_switch kind }
{
    matches!(kind, NodeKind::Switch)
}

pub(crate) fn is_type_switch(kind: NodeKind) -> bool
    ensures { result ≡ is_type_switch kind }
{
    matches!(kind, NodeKind::TypeSwitch)
}

pub(crate) fn is_select(kind: NodeKind) -> bool
    ensures { result ≡ is_select kind }
{
    matches!(kind, NodeKind::Select)
}

/// An assignment of values.
pub(crate) fn is_assigning(kind: NodeKind) -> bool
    ensures { result ≡ is_assigning kind }
{
    matches!(
        kind,
        NodeKind::Assign | NodeKind::Define | NodeKind::ForRangeAssign | NodeKind::ForRangeDefine
    )
}

/// A list of operands.
pub(crate) fn is_several(kind: NodeKind) -> bool
    ensures { result ≡ is_several kind }
{
    matches!(kind, NodeKind::Exprs | NodeKind::Names)
}

/// What a `break` leaves.
pub(crate) fn can_break(kind: NodeKind) -> bool
    ensures { result ≡ can_break kind }
{
    if is_loop(kind) {
        return true;
    }
    is_choice(kind)
}

/// A block.
pub(crate) fn is_block(kind: NodeKind) -> bool
    ensures { result ≡ is_block kind }
{
    if is_body(kind) {
        return true;
    }
    if is_if(kind) {
        return true;
    }
    if can_break(kind) {
        return true;
    }
    is_clause(kind)
}

/// A statement that may name a label.
pub(crate) fn is_jump(kind: NodeKind) -> bool
    ensures { result ≡ is_jump kind }
{
    if is_break(kind) {
        return true;
    }
    if is_continue(kind) {
        return true;
    }
    is_goto(kind)
}

/// What ends as its last part does.
pub(crate) fn is_passed(kind: NodeKind) -> bool
    ensures { result ≡ is_passed kind }
{
    if is_paren(kind) {
        return true;
    }
    if is_list(kind) {
        return true;
    }
    if is_label(kind) {
        return true;
    }
    is_clause(kind)
}

/// Control doesn't pass these.
pub(crate) fn is_final(kind: NodeKind) -> bool
    ensures { result ≡ is_final kind }
{
    if is_return(kind) {
        return true;
    }
    is_goto(kind)
}
