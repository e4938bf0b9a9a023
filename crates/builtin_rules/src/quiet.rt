//! Whether an operand has receives, or calls that are no constants (Go 1.17, "Length and capacity").
ghost use Rattle.std.specs.Prelude.{◌≡◌, ◌<◌, length, slice_get, if◌then◌else◌, Some, None, false};
ghost use Rattle.mark_walk.specs.Asks.{bind};
ghost use Rattle.mark_walk.specs.Telling.{tell};
ghost use Rattle.typed_tree.specs.Places.{is_type, is_constant};
ghost use Rattle.unit_read.specs.Subjects.{unit_of};
ghost use Rattle.rule_words.specs.Scenes.{sight, IsScene, told_by, IfFound, said, IsMarkOf};
ghost use Rattle.builtin_rules.specs.Quiet.{is_good_as, has_operator, computes, unary_noise, noise_by, noise_of, mark_before, converts_ask, unless_constant, is_no_call_ask, is_no_receive_ask, every_ask, unless_loud, heard_whole, heard_by, heard_ask, parts_at, then_parts, quiet_within, quiet_ask};
ghost use Rattle.builtin_rules.specs.InCode.{ends};

use const_tree::unary_operator;
use go_tree::{FileTree, Node, NodeKind, NodeRef};
use package_objects::part_of;
use rule_words::look;
use rule_words::modes::{is_constant, is_type};
use type_questions::Found;
use typed_marks::{Item, Mark, Stage, State};
use unit_read::Subject;

/// What a node may have that isn't quiet.
#[derive(Clone, Copy, Drop)]
pub enum Noise {
    /// What its parts have.
    Plain,
    /// A call.
    Call,
    /// A function literal, in which nothing is looked at.
    Body,
    /// A receive.
    Receive,
}

// ---- marks

fn is_good_type(s: &State, m: Mark) -> bool
    ensures { result ≡ is_good_as is_type (said s.now m) }
{
    let _ = s;
    match m {
        Mark::Good(x) => is_type(x.mode),
        Mark::Bad(_) => false,
        Mark::Outside(_) => false,
        Mark::Silent => false,
        Mark::Wants(_, _) => false,
        Mark::Declared(_) => false,
    }
}

fn is_good_constant(s: &State, m: Mark) -> bool
    ensures { result ≡ is_good_as is_constant (said s.now m) }
{
    let _ = s;
    match m {
        Mark::Good(x) => is_constant(x.mode),
        Mark::Bad(_) => false,
        Mark::Outside(_) => false,
        Mark::Silent => false,
        Mark::Wants(_, _) => false,
        Mark::Declared(_) => false,
    }
}

// ---- what a node is

fn has_operator(node: &Node, tree: &FileTree) -> bool
    ensures { result ≡ has_operator node.now tree.now }
{
    match unary_operator(tree, node) {
        Some(_) => true,
        None => false,
    }
}

fn computes(u: &Subject, file: u32, node: &Node) -> bool
    ensures { result ≡ computes (unit_of u.now) file node.now }
{
    match u.tree_at(file) {
        Some(tree) => has_operator(node, tree),
        None => false,
    }
}

fn unary_noise(computes: bool) -> Noise
    ensures { result ≡ unary_noise computes }
{
    if computes {
        Noise::Plain
    } else {
        Noise::Receive
    }
}

fn noise_by(computes: bool, kind: NodeKind) -> Noise
    ensures { result ≡ noise_by computes kind }
{
    match kind {
        NodeKind::Call => Noise::Call,
        NodeKind::CallSpread => Noise::Call,
        NodeKind::FuncLit => Noise::Body,
        NodeKind::Unary => unary_noise(computes),
        _ => Noise::Plain,
    }
}

#[tactic(auto, unfolding(crate::specs::Quiet::noise_of))]
fn noise_of(u: &Subject, file: u32, node: &Node) -> Noise
    ensures { result ≡ noise_of (unit_of u.now) file node.now }
{
    noise_by(computes(u, file, node), node.kind)
}

// ---- calls and receives

fn mark_before(u: &Subject, s: &State, block: usize, n: Option<u32>) -> Found<Mark, Item>
    requires scene { IsScene u.now s.now }
    ensures is { told_by (said s.now) result ≡ tell (sight s.now) (mark_before (unit_of u.now) block n) }
    ensures over { IfFound result (IsMarkOf s.now) }
{
    match n {
        Some(n) => look(u, s, Stage::Before, block, n),
        None => Found::Is(Mark::Silent),
    }
}

#[tactic(auto, using(rule_words::proofs::BindLaws::says_bind, rule_words::proofs::BindLaws::waits_bind))]
fn converts(u: &Subject, s: &State, block: usize, node: &Node) -> Found<bool, Item>
    requires scene { IsScene u.now s.now }
    ensures { told_by (λ b. b) result ≡ tell (sight s.now) (converts_ask (unit_of u.now) block node.now) }
{
    match mark_before(u, s, block, part_of(node, 0)) {
        Found::Is(m) => Found::Is(is_good_type(s, m)),
        Found::Wait(item) => Found::Wait(item),
    }
}

fn unless_constant(u: &Subject, s: &State, block: usize, node: &Node, m: Mark) -> Found<bool, Item>
    requires scene { IsScene u.now s.now }
    requires mark { IsMarkOf s.now m }
    ensures { told_by (λ b. b) result ≡ tell (sight s.now) (unless_constant (unit_of u.now) block node.now (said s.now m)) }
{
    if is_good_constant(s, m) {
        Found::Is(true)
    } else {
        converts(u, s, block, node)
    }
}

/// Whether a call is a constant or a conversion.
#[tactic(auto, using(rule_words::proofs::BindLaws::says_bind, rule_words::proofs::BindLaws::waits_bind), unfolding(crate::specs::Quiet::is_no_call_ask))]
fn is_no_call(u: &Subject, s: &State, block: usize, n: u32, node: &Node) -> Found<bool, Item>
    requires scene { IsScene u.now s.now }
    ensures { told_by (λ b. b) result ≡ tell (sight s.now) (is_no_call_ask (unit_of u.now) block n node.now) }
{
    match look(u, s, Stage::Before, block, n) {
        Found::Is(m) => unless_constant(u, s, block, node, m),
        Found::Wait(item) => Found::Wait(item),
    }
}

#[tactic(auto, using(rule_words::proofs::BindLaws::says_bind, rule_words::proofs::BindLaws::waits_bind), unfolding(crate::specs::Quiet::is_no_receive_ask))]
fn is_no_receive(u: &Subject, s: &State, block: usize, n: u32) -> Found<bool, Item>
    requires scene { IsScene u.now s.now }
    ensures { told_by (λ b. b) result ≡ tell (sight s.now) (is_no_receive_ask (unit_of u.now) block n) }
{
    match look(u, s, Stage::Before, block, n) {
        Found::Is(m) => Found::Is(is_good_type(s, m)),
        Found::Wait(item) => Found::Wait(item),
    }
}

// ---- a node and what stands in it

fn unless_loud(quiet: bool) -> Option<bool>
    ensures { result ≡ (if quiet then None else Some false) }
{
    if quiet { None } else { Some(false) }
}

#[tactic(auto, using(rule_words::proofs::BindLaws::says_bind, rule_words::proofs::BindLaws::waits_bind))]
fn call_heard(
    u: &Subject,
    s: &State,
    block: usize,
    n: u32,
    node: &Node,
) -> Found<Option<bool>, Item>
    requires scene { IsScene u.now s.now }
    ensures { told_by (λ b. b) result ≡ tell (sight s.now) (bind (is_no_call_ask (unit_of u.now) block n node.now) unless_loud) }
{
    match is_no_call(u, s, block, n, node) {
        Found::Is(quiet) => Found::Is(unless_loud(quiet)),
        Found::Wait(item) => Found::Wait(item),
    }
}

#[tactic(auto, using(rule_words::proofs::BindLaws::says_bind, rule_words::proofs::BindLaws::waits_bind))]
fn receive_heard(u: &Subject, s: &State, block: usize, n: u32) -> Found<Option<bool>, Item>
    requires scene { IsScene u.now s.now }
    ensures { told_by (λ b. b) result ≡ tell (sight s.now) (bind (is_no_receive_ask (unit_of u.now) block n) heard_whole) }
{
    match is_no_receive(u, s, block, n) {
        Found::Is(quiet) => Found::Is(Some(quiet)),
        Found::Wait(item) => Found::Wait(item),
    }
}

#[tactic(auto, unfolding(crate::specs::Quiet::heard_by))]
fn heard_by(
    u: &Subject,
    s: &State,
    block: usize,
    n: u32,
    node: &Node,
    noise: Noise,
) -> Found<Option<bool>, Item>
    requires scene { IsScene u.now s.now }
    ensures { told_by (λ b. b) result ≡ tell (sight s.now) (heard_by (unit_of u.now) block n node.now noise) }
{
    match noise {
        Noise::Plain => Found::Is(None),
        Noise::Body => Found::Is(Some(true)),
        Noise::Call => call_heard(u, s, block, n, node),
        Noise::Receive => receive_heard(u, s, block, n),
    }
}

/// What is known of a node without its parts: whether it is quiet; None where its parts say so.
#[tactic(auto, unfolding(crate::specs::Quiet::heard_ask))]
fn heard(u: &Subject, s: &State, block: usize, file: u32, n: u32) -> Found<Option<bool>, Item>
    requires scene { IsScene u.now s.now }
    ensures { told_by (λ b. b) result ≡ tell (sight s.now) (heard_ask (unit_of u.now) block file n) }
{
    match u.node_at(NodeRef { file, node: n }) {
        Some(node) => heard_by(u, s, block, n, node, noise_of(u, file, node)),
        None => Found::Is(Some(true)),
    }
}

fn parts_at<'a>(u: &'a Subject, file: u32, n: u32) -> &'a [u32]
    ensures { result.now ≡ parts_at (unit_of u.now) file n }
{
    match u.node_at(NodeRef { file, node: n }) {
        Some(node) => node.parts.as_slice(),
        None => &[],
    }
}

fn nth(list: &[u32], i: usize) -> u32
    requires { i < length list.now }
    ensures { slice_get list.now i ≡ Some result }
{
    list[i]
}

fn ends(found: &Found<bool, Item>) -> bool
    ensures { result ≡ ends found.now }
{
    match found {
        Found::Is(quiet) => !*quiet,
        Found::Wait(_) => true,
    }
}

/// Whether all of these nodes are quiet, down to so many levels.
#[cycle(quietness)]
fn every(
    u: &Subject,
    s: &State,
    block: usize,
    file: u32,
    levels: usize,
    parts: &[u32],
) -> Found<bool, Item>
    requires scene { IsScene u.now s.now }
    ensures { told_by (λ b. b) result ≡ tell (sight s.now) (every_ask (quiet_within (unit_of u.now) block file levels) parts.now) }
{
    for i in 0..parts.len() {
        let n = nth(parts, i);
        let found = within(u, s, block, file, levels, n);
        if ends(&found) {
            return found;
        }
    }
    Found::Is(true)
}

/// What is known of a node, and if that is nothing, whether its parts are quiet, down to so many levels.
#[cycle(quietness)]
fn or_parts(
    u: &Subject,
    s: &State,
    block: usize,
    file: u32,
    levels: usize,
    n: u32,
    heard: Option<bool>,
) -> Found<bool, Item>
    requires scene { IsScene u.now s.now }
    ensures { told_by (λ b. b) result ≡ tell (sight s.now) (then_parts (quiet_within (unit_of u.now) block file levels) (parts_at (unit_of u.now) file n) heard) }
{
    match heard {
        Some(quiet) => Found::Is(quiet),
        None => every(u, s, block, file, levels, parts_at(u, file, n)),
    }
}

/// Whether a node and what stands in it are quiet, down to so many levels.
#[cycle(quietness)]
fn within(
    u: &Subject,
    s: &State,
    block: usize,
    file: u32,
    levels: usize,
    n: u32,
) -> Found<bool, Item>
    requires scene { IsScene u.now s.now }
    ensures { told_by (λ b. b) result ≡ tell (sight s.now) (quiet_within (unit_of u.now) block file levels n) }
{
    if levels == 0 {
        return Found::Is(false);
    }
    match heard(u, s, block, file, n) {
        Found::Is(known) => or_parts(u, s, block, file, levels - 1, n, known),
        Found::Wait(item) => Found::Wait(item),
    }
}

/// Whether an operand has no receives, and no calls but constants and conversions.
#[tactic(auto, unfolding(crate::specs::Quiet::quiet_ask))]
pub fn quiet(u: &Subject, s: &State, block: usize, file: u32, n: u32) -> Found<bool, Item>
    requires scene { IsScene u.now s.now }
    ensures { told_by (λ b. b) result ≡ tell (sight s.now) (quiet_ask (unit_of u.now) block file n) }
{
    within(u, s, block, file, u.nodes_at(file).len(), n)
}
