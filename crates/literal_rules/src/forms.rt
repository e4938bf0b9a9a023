//! The nodes of composite literals, by form.
ghost use Rattle.std.specs.Prelude.{◌≡◌};
ghost use Rattle.literal_rules.specs.Forms.{form_of, is_composite, is_braces, is_pair, is_dots, is_name, literal_reads};

use go_tree::NodeKind;
use rule_words::How;

/// What has rules here, and all else.
#[derive(Clone, Copy, Drop)]
pub enum Form {
    /// A type with braces.
    Composite,
    /// Braces.
    Braces,
    /// A key with its element.
    Pair,
    /// `[...]T`.
    Dots,
    Other,
}

/// The form of a node of a kind.
pub fn form_of(kind: NodeKind) -> Form
    ensures { result ≡ form_of kind }
{
    match kind {
        NodeKind::Composite => Form::Composite,
        NodeKind::Value => Form::Braces,
        NodeKind::KeyValue => Form::Pair,
        NodeKind::DotsType => Form::Dots,
        _ => Form::Other,
    }
}

pub fn is_composite(kind: NodeKind) -> bool
    ensures { result ≡ is_composite kind }
{
    match kind {
        NodeKind::Composite => true,
        _ => false,
    }
}

pub fn is_braces(kind: NodeKind) -> bool
    ensures { result ≡ is_braces kind }
{
    match kind {
        NodeKind::Value => true,
        _ => false,
    }
}

pub fn is_pair(kind: NodeKind) -> bool
    ensures { result ≡ is_pair kind }
{
    match kind {
        NodeKind::KeyValue => true,
        _ => false,
    }
}

pub fn is_dots(kind: NodeKind) -> bool
    ensures { result ≡ is_dots kind }
{
    match kind {
        NodeKind::DotsType => true,
        _ => false,
    }
}

pub fn is_name(kind: NodeKind) -> bool
    ensures { result ≡ is_name kind }
{
    match kind {
        NodeKind::Name => true,
        _ => false,
    }
}

/// How the parts of a node are read: the rules of literals ask for them themselves.
pub fn literal_reads(kind: NodeKind, slot: usize) -> Option<How>
    ensures { result ≡ literal_reads kind slot }
{
    let _ = kind;
    let _ = slot;
    None
}
