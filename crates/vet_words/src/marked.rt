//! What marks say of nodes in their places.
ghost use Rattle.std.specs.Prelude.{◌≡◌, IfSome, option_map};
ghost use Rattle.typed_tree.specs.Places.{is_type, is_nil_mode, is_constant as is_constant_mode};
ghost use Rattle.typed_marks.specs.States.{so_far};
ghost use Rattle.rule_words.specs.Asking.{item};
ghost use Rattle.rule_words.specs.Good.{known_of, AreFactsOf};
ghost use Rattle.findings.specs.Passes.{marks_in, IsPass};
ghost use Rattle.vet_words.specs.Marked.{known_at, mode_is, names_type, is_nil, is_constant, calls_type, is_conversion};

use crate::forms::is_plain_call;
use findings::Pass;
use go_tree::Node;
use package_objects::part_of;
use rule_words::good::known;
use typed_marks::{Facts, Item, Stage};
use typed_tree::Mode;

fn placed(file: u32, n: u32) -> Item
    ensures { result ≡ item Stage.Placed file n }
{
    Item {
        stage: Stage::Placed,
        block: file as usize,
        node: n as usize,
    }
}

/// What is known of a node of a file.
pub fn known_at(p: &Pass, file: u32, n: u32) -> Option<Facts>
    requires { IsPass p.now }
    ensures is { option_map (known_of p.now.state.now) result ≡ known_at (marks_in p.now) file n }
    ensures over { IfSome result (AreFactsOf p.now.state.now) }
{
    match p.state.see(placed(file, n)) {
        Some(mark) => known(p.state, mark),
        None => None,
    }
}

fn is_type(mode: Mode) -> bool
    ensures { result ≡ is_type mode }
{
    matches!(mode, Mode::TypeName)
}

fn is_nil_mode(mode: Mode) -> bool
    ensures { result ≡ is_nil_mode mode }
{
    matches!(mode, Mode::Nil)
}

/// Whether a node stands for a type.
pub fn names_type(p: &Pass, file: u32, n: u32) -> bool
    requires { IsPass p.now }
    ensures { result ≡ names_type (marks_in p.now) file n }
{
    match known_at(p, file, n) {
        Some(x) => is_type(x.mode),
        None => false,
    }
}

/// Whether a node is `nil`.
pub fn is_nil(p: &Pass, file: u32, n: u32) -> bool
    requires { IsPass p.now }
    ensures { result ≡ is_nil (marks_in p.now) file n }
{
    match known_at(p, file, n) {
        Some(x) => is_nil_mode(x.mode),
        None => false,
    }
}

fn is_constant_mode(mode: Mode) -> bool
    ensures { result ≡ is_constant_mode mode }
{
    matches!(mode, Mode::Constant)
}

/// Whether a node is a constant.
pub fn is_constant(p: &Pass, file: u32, n: u32) -> bool
    requires { IsPass p.now }
    ensures { result ≡ is_constant (marks_in p.now) file n }
{
    match known_at(p, file, n) {
        Some(x) => is_constant_mode(x.mode),
        None => false,
    }
}

fn calls_type(p: &Pass, file: u32, node: &Node) -> bool
    requires { IsPass p.now }
    ensures { result ≡ calls_type (marks_in p.now) file node.now }
{
    match part_of(node, 0) {
        Some(n) => names_type(p, file, n),
        None => false,
    }
}

/// Whether a node is a conversion.
pub fn is_conversion(p: &Pass, file: u32, node: &Node) -> bool
    requires { IsPass p.now }
    ensures { result ≡ is_conversion (marks_in p.now) file node.now }
{
    is_plain_call(node.kind) && calls_type(p, file, node)
}
