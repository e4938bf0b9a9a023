//! Nodes, wherever they stand.
ghost use Rattle.std.specs.Prelude.{◌≡◌};
ghost use Rattle.rule_words.specs.Nodes.{is_paren, deepest};

use go_tree::NodeKind;

/// An expression between parentheses.
pub fn is_paren(kind: NodeKind) -> bool
    ensures { result ≡ is_paren kind }
{
    match kind {
        NodeKind::Paren => true,
        _ => false,
    }
}

/// Nodes nest no deeper.
#[tactic(auto, unfolding(crate::specs::Nodes::deepest))]
pub fn deepest() -> usize
    ensures { result ≡ deepest }
{
    256
}
