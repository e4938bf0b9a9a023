//! Constant texts.
ghost use Rattle.std.specs.Prelude.{◌≡◌, ◌≤◌, length, IfSome};
ghost use Rattle.std.specs.Option.{option_copied};
ghost use Rattle.typed_marks.specs.Meanings.{constant_at};
ghost use Rattle.rule_words.specs.Good.{known_of};
ghost use Rattle.findings.specs.Passes.{marks_in, IsPass};
ghost use Rattle.vet_printf.specs.Calls.{const_text, known_text, text_at, part_text};

use findings::Pass;
use go_tree::Node;
use gv_base::Const;
use package_objects::part_of;
use typed_marks::{ConstId, Facts, State};
use vet_words::known_at;

fn const_text(c: &Const) -> Option<&[u8]>
    ensures is { option_copied result ≡ const_text c.now }
    ensures short { IfSome result (λ text. length text.now ≤ 65536) }
{
    match c {
        Const::Truth(_) => None,
        Const::Int(_) => None,
        Const::Text(text) => Some(text.bytes()),
    }
}

fn value_at<'a>(s: &'a State, value: Option<ConstId>) -> Option<&'a Const>
    ensures { option_copied result ≡ constant_at s.now.constants.items value }
{
    match value {
        Some(id) => s.constants.get(id.0 as usize),
        None => None,
    }
}

fn known_text<'a>(s: &'a State, x: Facts) -> Option<&'a [u8]>
    ensures is { option_copied result ≡ known_text (known_of s.now x) }
    ensures short { IfSome result (λ text. length text.now ≤ 65536) }
{
    match value_at(s, x.value) {
        Some(c) => const_text(c),
        None => None,
    }
}

fn text_at<'a>(p: &Pass<'a>, file: u32, n: u32) -> Option<&'a [u8]>
    requires { IsPass p.now }
    ensures is { option_copied result ≡ text_at (marks_in p.now) file n }
    ensures short { IfSome result (λ text. length text.now ≤ 65536) }
{
    match known_at(p, file, n) {
        Some(x) => known_text(p.state, x),
        None => None,
    }
}

/// The constant text that a part of a node is.
pub(crate) fn part_text<'a>(p: &Pass<'a>, file: u32, node: &Node, i: usize) -> Option<&'a [u8]>
    requires { IsPass p.now }
    ensures is { option_copied result ≡ part_text (marks_in p.now) file node.now i }
    ensures short { IfSome result (λ text. length text.now ≤ 65536) }
{
    match part_of(node, i) {
        Some(n) => text_at(p, file, n),
        None => None,
    }
}
