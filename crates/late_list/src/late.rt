//! The late rules, and a view of a file that answers them.
ghost use Rattle.std.specs.Prelude.{◌≡◌, ◌<◌, ℕ, Bool, false};
ghost use Rattle.late_list.specs.Late.{rule_number, IsAnswer};
ghost use Rattle.gv_base.specs.declared.place.Place.{Place};
ghost use Rattle.late_list.specs.declared.late.LateRule.{LateRule};

use gv_base::Place;

/// A rule of bodies that is asked of each node once all names are bound.
#[derive(Clone, Copy, Debug, PartialEq, Eq, Drop)]
pub enum LateRule {
    /// E1: A label stands before it in its function.
    RedeclaredLabel,
    /// E6: No use of a local variable but on the left of an assignment.
    UnusedVariable,
    /// E88: A `return` without values where a name of a result denotes something else.
    ShadowedResult,
    /// E89: The body of a function with results may end.
    MissingReturn,
    /// E90: A jump to a label that its function lacks.
    UndefinedLabel,
    /// E91: No jump denotes a label.
    UnusedLabel,
    /// E93: A `goto` over the declaration of a variable of its label's block.
    OverVariable,
    /// E94: A `goto` from outside of its label's block.
    IntoBlock,
    /// E95: A `break` or `continue` with nothing to leave or to go on with.
    MisplacedBranch,
    /// E96: A `fallthrough` that is no end of a clause, or of the last clause, of an expression switch.
    MisplacedFallthrough,
}

/// All late rules.
pub const RULES: [LateRule; 10] = [
    LateRule::RedeclaredLabel,
    LateRule::UnusedVariable,
    LateRule::ShadowedResult,
    LateRule::MissingReturn,
    LateRule::UndefinedLabel,
    LateRule::UnusedLabel,
    LateRule::OverVariable,
    LateRule::IntoBlock,
    LateRule::MisplacedBranch,
    LateRule::MisplacedFallthrough,
];

/// The number of the rule of the language.
pub fn rule_number(rule: LateRule) -> u8
    ensures { result ≡ rule_number rule }
{
    match rule {
        LateRule::RedeclaredLabel => 1,
        LateRule::UnusedVariable => 6,
        LateRule::ShadowedResult => 88,
        LateRule::MissingReturn => 89,
        LateRule::UndefinedLabel => 90,
        LateRule::UnusedLabel => 91,
        LateRule::OverVariable => 93,
        LateRule::IntoBlock => 94,
        LateRule::MisplacedBranch => 95,
        LateRule::MisplacedFallthrough => 96,
    }
}

/// A fault that a late rule finds.
#[derive(Clone, Copy, Debug, PartialEq, Eq, Drop)]
pub struct LateFault {
    pub place: Place,
    pub rule: LateRule,
}

/// What is known of a file: each late rule is a test of a node.
pub trait Finds {
    /// What is known is right.
    ghost IsState: { Self → Type 0 };

    /// How many nodes there are.
    ghost count: { Self → ℕ };

    /// The place at which a rule finds a fault of a node.
    ghost IsFault: { Self → LateRule → ℕ → Place → Type 0 };

    /// Of which nodes rules are asked.
    ghost asked: { Self → ℕ → Bool };

    fn count(&self) -> usize
        ensures { result ≡ count self.now };

    /// Whether rules are asked of a node. Of the others, which are most, none finds anything.
    fn is_asked(&self, n: usize) -> bool
        requires { IsState self.now }
        ensures is { result ≡ asked self.now n }
        ensures none { result ≡ false → (rule : LateRule) → (place : Place) → IsFault self.now rule n place → ⊥ };

    fn find(&self, rule: LateRule, n: usize) -> Option<Place>
        requires { IsState self.now }
        ensures { IsAnswer (IsFault self.now rule n) result };
}
