//! The nodes that are primary expressions, and unary ones, by form.
ghost use Rattle.std.specs.Prelude.{◌≡◌};
ghost use Rattle.primary_rules.specs.Forms.{slots, form_of, assert_reads, form_reads, primary_reads};

use go_tree::NodeKind;
use rule_words::How;

/// Which parts of a slice expression are its indexes.
#[derive(Clone, Copy, Debug, PartialEq, Eq, Drop)]
pub struct Bounds {
    pub low: Option<usize>,
    pub high: Option<usize>,
    pub max: Option<usize>,
}

/// What has rules here, and all else.
#[derive(Clone, Copy, Debug, PartialEq, Eq, Drop)]
pub enum Form {
    Selector,
    Index,
    Slice(Bounds),
    Assert,
    Star,
    Unary,
    Paren,
    Other,
}

fn slots(low: Option<usize>, high: Option<usize>, max: Option<usize>) -> Bounds
    ensures { result ≡ slots low high max }
{
    Bounds { low, high, max }
}

/// The form of a node of a kind.
#[tactic(auto, unfolding(crate::specs::Forms::form_of))]
pub fn form_of(kind: NodeKind) -> Form
    ensures { result ≡ form_of kind }
{
    match kind {
        NodeKind::Selector => Form::Selector,
        NodeKind::Index => Form::Index,
        NodeKind::SliceAll => Form::Slice(slots(None, None, None)),
        NodeKind::SliceLow => Form::Slice(slots(Some(1), None, None)),
        NodeKind::SliceLowHigh => Form::Slice(slots(Some(1), Some(2), None)),
        NodeKind::SliceLowHighMax => Form::Slice(slots(Some(1), Some(2), Some(3))),
        NodeKind::SliceHigh => Form::Slice(slots(None, Some(1), None)),
        NodeKind::SliceHighMax => Form::Slice(slots(None, Some(1), Some(2))),
        NodeKind::Assert => Form::Assert,
        NodeKind::Star => Form::Star,
        NodeKind::Unary => Form::Unary,
        NodeKind::Paren => Form::Paren,
        _ => Form::Other,
    }
}

fn assert_reads(slot: usize) -> How
    ensures { result ≡ assert_reads slot }
{
    if slot == 0 {
        How::Value
    } else {
        How::TypeAndUnder
    }
}

fn form_reads(form: Form, slot: usize) -> Option<How>
    ensures { result ≡ form_reads form slot }
{
    match form {
        Form::Selector => Some(How::Mark),
        Form::Index => Some(How::Value),
        Form::Slice(_) => Some(How::Value),
        Form::Assert => Some(assert_reads(slot)),
        Form::Star => Some(How::Mark),
        Form::Unary => Some(How::Value),
        Form::Paren => Some(How::Mark),
        Form::Other => None,
    }
}

/// How the parts of a node are read.
pub fn primary_reads(kind: NodeKind, slot: usize) -> Option<How>
    ensures { result ≡ primary_reads kind slot }
{
    form_reads(form_of(kind), slot)
}
