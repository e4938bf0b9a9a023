//! Of what a selector selects.
ghost use Rattle.std.specs.Prelude.{◌≡◌, option_map};
ghost use Rattle.mark_walk.specs.Asks.{filled};
ghost use Rattle.typed_marks.specs.Meanings.{Quiet};
ghost use Rattle.typed_marks.specs.States.{so_far, IsState};
ghost use Rattle.typed_tree.specs.Places.{is_package};
ghost use Rattle.unit_read.specs.Subjects.{unit_of, IsRead};
ghost use Rattle.rule_words.specs.Asking.{item};
ghost use Rattle.rule_words.specs.Good.{known_of, AreFactsOf};
ghost use Rattle.rule_words.specs.Scenes.{said, type_in, IsMarkOf, MayBeTypeOf};
ghost use Rattle.selected_methods.specs.Owners.{is_selector, is_good, type_known, type_told, judged, type_placed, owner_part, owner_good, owner_in, owner_of, selected_name};

use go_tree::{Node, NodeKind, NodeRef};
use package_objects::part_of;
use type_model::TypeId;
use typed_marks::{Facts, Item, Mark, Stage, State};
use typed_tree::Mode;
use unit_read::Subject;

// ---- words

fn is_selector(kind: NodeKind) -> bool
    ensures { result ≡ is_selector kind }
{
    matches!(kind, NodeKind::Selector)
}

fn is_package(mode: Mode) -> bool
    ensures { result ≡ is_package mode }
{
    matches!(mode, Mode::Package)
}

fn is_good(s: &State, mark: Mark) -> bool
    ensures { result ≡ is_good (said s.now mark) }
{
    let _ = s;
    match mark {
        Mark::Good(_) => true,
        Mark::Bad(_) => false,
        Mark::Outside(_) => false,
        Mark::Silent => false,
        Mark::Wants(_, _) => false,
        Mark::Declared(_) => false,
    }
}

// ---- what stands before the dot

fn type_known(s: &State, x: Facts) -> Option<TypeId>
    requires { AreFactsOf s.now x }
    ensures is { option_map (type_in s.now) result ≡ type_known (known_of s.now x) }
    ensures over { MayBeTypeOf s.now result }
{
    let _ = s;
    if is_package(x.mode) { None } else { Some(x.of) }
}

fn type_told(s: &State, mark: Mark) -> Option<TypeId>
    requires { IsMarkOf s.now mark }
    ensures is { option_map (type_in s.now) result ≡ type_told (said s.now mark) }
    ensures over { MayBeTypeOf s.now result }
{
    match mark {
        Mark::Good(x) => type_known(s, x),
        Mark::Bad(_) => None,
        Mark::Outside(_) => None,
        Mark::Silent => None,
        Mark::Wants(_, _) => None,
        Mark::Declared(_) => None,
    }
}

fn judged_item(file: u32, n: u32) -> Item
    ensures { result ≡ item Stage.Judged file n }
{
    Item {
        stage: Stage::Judged,
        block: file as usize,
        node: n as usize,
    }
}

fn is_good_at(s: &State, at: NodeRef) -> bool
    requires { IsState s.now }
    ensures { result ≡ is_good (judged (filled Quiet (so_far s.now)) at.file at.node) }
{
    match s.see(judged_item(at.file, at.node)) {
        Some(mark) => is_good(s, mark),
        None => false,
    }
}

fn placed_item(file: u32, n: u32) -> Item
    ensures { result ≡ item Stage.Placed file n }
{
    Item {
        stage: Stage::Placed,
        block: file as usize,
        node: n as usize,
    }
}

fn type_placed(s: &State, file: u32, n: u32) -> Option<TypeId>
    requires { IsState s.now }
    ensures is { option_map (type_in s.now) result ≡ type_placed (filled Quiet (so_far s.now)) file n }
    ensures over { MayBeTypeOf s.now result }
{
    match s.see(placed_item(file, n)) {
        Some(mark) => type_told(s, mark),
        None => None,
    }
}

fn owner_part(s: &State, at: NodeRef, node: &Node) -> Option<TypeId>
    requires { IsState s.now }
    ensures is { option_map (type_in s.now) result ≡ owner_part (filled Quiet (so_far s.now)) at node.now }
    ensures over { MayBeTypeOf s.now result }
{
    match part_of(node, 0) {
        Some(n) => type_placed(s, at.file, n),
        None => None,
    }
}

fn owner_good(s: &State, at: NodeRef, node: &Node) -> Option<TypeId>
    requires { IsState s.now }
    ensures is { option_map (type_in s.now) result ≡ owner_good (filled Quiet (so_far s.now)) at node.now }
    ensures over { MayBeTypeOf s.now result }
{
    if is_good_at(s, at) {
        owner_part(s, at, node)
    } else {
        None
    }
}

fn owner_in(s: &State, at: NodeRef, node: &Node) -> Option<TypeId>
    requires { IsState s.now }
    ensures is { option_map (type_in s.now) result ≡ owner_in (filled Quiet (so_far s.now)) at node.now }
    ensures over { MayBeTypeOf s.now result }
{
    if is_selector(node.kind) {
        owner_good(s, at, node)
    } else {
        None
    }
}

/// The type of what stands before the dot of a selector, or the type that it is.
pub(crate) fn owner_of(u: &Subject, s: &State, at: NodeRef) -> Option<TypeId>
    requires { IsState s.now }
    ensures is { option_map (type_in s.now) result ≡ owner_of (unit_of u.now) (filled Quiet (so_far s.now)) at }
    ensures over { MayBeTypeOf s.now result }
{
    match u.node_at(at) {
        Some(node) => owner_in(s, at, node),
        None => None,
    }
}

/// The name behind the dot.
pub(crate) fn selected_name<'a>(u: &Subject<'a>, at: NodeRef) -> &'a str
    requires { IsRead u.now }
    ensures { result.now ≡ selected_name (unit_of u.now) at }
{
    match u.node_at(at) {
        Some(node) => u.spelled_text(at.file, node.last),
        None => "",
    }
}
