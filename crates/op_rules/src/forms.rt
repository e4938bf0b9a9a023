//! The nodes that are operands and operators, by form (Go 1.17, "Operands", "Operators").
ghost use Rattle.std.specs.Prelude.{◌≡◌};
ghost use Rattle.const_tree.specs.Operators.{unary_operator, binary_operator};
ghost use Rattle.unit_read.specs.Subjects.{unit_of};
ghost use Rattle.op_rules.specs.Forms.{form_of, form_reads, op_reads, operator_in};

use const_eval::Operator;
use const_tree::{binary_operator, unary_operator};
use go_tree::{Node, NodeKind};
use rule_words::How;
use unit_read::Subject;

#[derive(Clone, Copy, Drop)]
pub enum Literal {
    Int,
    Rune,
    Text,
    Float,
    Imag,
}

/// What has rules here, and all else.
#[derive(Clone, Copy, Drop)]
pub enum Form {
    Literal(Literal),
    Name,
    Selector,
    Paren,
    Unary,
    Binary,
    Other,
}

/// The form of a node of a kind.
#[tactic(auto, unfolding(crate::specs::Forms::form_of))]
pub fn form_of(kind: NodeKind) -> Form
    ensures { result ≡ form_of kind }
{
    match kind {
        NodeKind::Int => Form::Literal(Literal::Int),
        NodeKind::Rune => Form::Literal(Literal::Rune),
        NodeKind::Text => Form::Literal(Literal::Text),
        NodeKind::Float => Form::Literal(Literal::Float),
        NodeKind::Imag => Form::Literal(Literal::Imag),
        NodeKind::Name => Form::Name,
        NodeKind::Selector => Form::Selector,
        NodeKind::Paren => Form::Paren,
        NodeKind::Unary => Form::Unary,
        NodeKind::Binary => Form::Binary,
        _ => Form::Other,
    }
}

fn form_reads(form: Form) -> Option<How>
    ensures { result ≡ form_reads form }
{
    match form {
        Form::Literal(_) => None,
        Form::Name => None,
        Form::Selector => Some(How::Mark),
        Form::Paren => Some(How::Mark),
        Form::Unary => Some(How::Value),
        Form::Binary => Some(How::Value),
        Form::Other => None,
    }
}

/// How the parts of a node are read.
pub fn op_reads(kind: NodeKind, slot: usize) -> Option<How>
    ensures { result ≡ op_reads kind slot }
{
    let _ = slot;
    form_reads(form_of(kind))
}

/// The operator of a unary expression.
#[tactic(auto, unfolding(crate::specs::Forms::operator_in))]
pub fn unary_in(u: &Subject, file: u32, node: &Node) -> Option<Operator>
    ensures { result ≡ operator_in unary_operator (unit_of u.now) file node.now }
{
    match u.tree_at(file) {
        Some(tree) => unary_operator(tree, node),
        None => None,
    }
}

/// The operator of a binary expression.
#[tactic(auto, unfolding(crate::specs::Forms::operator_in))]
pub fn binary_in(u: &Subject, file: u32, node: &Node) -> Option<Operator>
    ensures { result ≡ operator_in binary_operator (unit_of u.now) file node.now }
{
    match u.tree_at(file) {
        Some(tree) => binary_operator(tree, node),
        None => None,
    }
}
