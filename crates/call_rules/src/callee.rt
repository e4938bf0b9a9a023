//! What a call calls (Go 1.17, "Calls", "Conversions", "Built-in functions").
ghost use Rattle.std.specs.Prelude.{◌≡◌};
ghost use Rattle.call_rules.specs.Callees.{callee_of, calls};

use builtin_rules::{inner, is_call};
use go_tree::Node;
use package_objects::kind_of;
use typed_tree::{Mode, NOT_A_VALUE, Rule, SEVERAL_VALUES};

/// What a call calls.
#[derive(Clone, Copy, Drop)]
pub enum Callee {
    /// A value, of a function type if the call is good.
    Value,
    /// A type: the call is a conversion.
    Type,
    /// A built-in function.
    Builtin,
    /// What can't be called, by this rule.
    Refused(Rule),
}

/// What is called, by what it stands for.
#[tactic(auto, unfolding(crate::specs::Callees::callee_of))]
pub fn callee_of(mode: Mode) -> Callee
    ensures { result ≡ callee_of mode }
{
    match mode {
        Mode::Constant => Callee::Value,
        Mode::Variable => Callee::Value,
        Mode::MapIndex => Callee::Value,
        Mode::Value => Callee::Value,
        Mode::CommaOk => Callee::Value,
        Mode::Nil => Callee::Value,
        Mode::TypeName => Callee::Type,
        Mode::Builtin => Callee::Builtin,
        Mode::NoValue => Callee::Refused(NOT_A_VALUE),
        Mode::Package => Callee::Refused(NOT_A_VALUE),
        Mode::Many => Callee::Refused(SEVERAL_VALUES),
    }
}

/// A node that is a call, parentheses aside.
#[tactic(auto, unfolding(crate::specs::Callees::calls))]
pub fn calls(nodes: &[Node], n: u32) -> bool
    ensures { result ≡ calls nodes.now n }
{
    is_call(kind_of(nodes, inner(nodes, n)))
}
