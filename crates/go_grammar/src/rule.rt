//! A rule of the grammar.
ghost use Rattle.std.specs.Prelude.{◌≡◌};
ghost use Rattle.go_grammar.specs.View.{rule_of};
ghost use Rattle.go_tree.specs.Rule as grammar;

use go_tree::{Ending, Guard, Symbol, Terminal};

/// One alternative that makes a node, or goes on with one.
#[derive(Clone, Copy, Drop)]
pub struct Rule {
    /// What the rule makes of its parts.
    pub ending: Ending,
    /// The level of an operand's rule, else 0.
    pub level: u8,
    /// The least level of its left side, where it goes on with one.
    pub left: u8,
    /// The classes of token before which the rule stands.
    pub before: Terminal,
    /// What the parts so far have to be.
    pub guard: Guard,
    pub symbols: &'static [Symbol],
}

/// A rule that stands whatever the parts so far are, and before any token.
pub(crate) fn row(ending: Ending, symbols: &'static [Symbol]) -> Rule
    ensures { rule_of result ≡ grammar.row ending symbols.now }
{
    when(Guard::Any, Terminal::Anything, ending, symbols)
}

/// A rule that stands only where the parts so far are such, and before such a token.
pub(crate) fn when(
    guard: Guard,
    before: Terminal,
    ending: Ending,
    symbols: &'static [Symbol],
) -> Rule
    ensures { rule_of result ≡ grammar.when guard before ending symbols.now }
{
    Rule {
        ending,
        level: 0,
        left: 0,
        before,
        guard,
        symbols,
    }
}

/// A rule of an operand: its level, and the least of its left side.
pub(crate) fn operand(ending: Ending, level: u8, left: u8, symbols: &'static [Symbol]) -> Rule
    ensures { rule_of result ≡ grammar.rule ending level left symbols.now }
{
    Rule {
        ending,
        level,
        left,
        before: Terminal::Anything,
        guard: Guard::Any,
        symbols,
    }
}
