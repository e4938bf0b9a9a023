//! Names (Go 1.17, "Operands", "Iota").
ghost use Rattle.std.specs.Prelude.{◌≡◌, Some};
ghost use Rattle.mark_walk.specs.Telling.{tell};
ghost use Rattle.type_model.specs.Tables.{types_in, count};
ghost use Rattle.typed_tree.specs.Basics.{HasBasics, Says as SaysInTree};
ghost use Rattle.typed_tree.specs.Meanings.{Meaning as TreeMeaning, mark_in as tree_mark_in, IsWithin};
ghost use Rattle.unit_read.specs.Subjects.{unit_of, IsRead};
ghost use Rattle.rule_words.specs.Scenes.{sight, IsScene, said, IsMarkOf, type_in, IsTypeOf};
ghost use Rattle.rule_words.specs.Answers.{answer_in, IsAnswerOf};
ghost use Rattle.rule_words.specs.Steps.{step_in, IsStepOf};
ghost use Rattle.rule_words.specs.Wanting.{wanted_of, IsWantedOf};
ghost use Rattle.rule_words.specs.Wishes.{IsWishOf, wish_of};
ghost use Rattle.op_rules.specs.Names.{with_last, wished, begins, is_within_spec, spec_number, written_iota, iota_by, iota_of, predeclared, used, object_ask, denoted, blank, name_rule};

use const_tree::Spec;
use go_tree::{Node, NodeRef, Object};
use gv_base::Const;
use rule_words::answered::{bad, outside, silent};
use rule_words::{Answer, Step, Wanted, is_blank, last_of, look, operand};
use type_model::TypeId;
use type_questions::Found;
use typed_marks::{Mark, Stage, State, Want};
use typed_tree::{
    Mark as TreeMark, Mode, UNDEFINED, Want as Demand, judge_blank, judge_predeclared,
};
use unit_read::{Subject, judge_lead};

// ---- final types

pub fn with_last(s: &State, mode: Mode, of: TypeId, value: Option<Const>, want: Want) -> Answer
    requires basics { HasBasics s.now.table }
    requires of { IsTypeOf s.now of }
    requires want { IsWishOf s.now want }
    ensures is { answer_in s.now result ≡ with_last mode (type_in s.now of) value (wish_of s.now want) }
    ensures over { IsAnswerOf s.now result }
{
    match value {
        Some(c) => Answer::Constant(of, last_of(s, of, want), c),
        None => Answer::Mark(operand(s, mode, of, None, want)),
    }
}

/// A mark whose final type isn't known yet.
fn with_wish(s: &State, want: Want, m: TreeMark) -> Answer
    requires basics { HasBasics s.now.table }
    requires within { IsWithin (count s.now.table) m }
    requires want { IsWishOf s.now want }
    ensures is { answer_in s.now result ≡ wished (wish_of s.now want) (tree_mark_in (types_in s.now.table) m) }
    ensures over { IsAnswerOf s.now result }
{
    match m {
        TreeMark::Good(facts) => with_last(s, facts.mode, facts.of, facts.value, want),
        TreeMark::Bad(rule) => bad(rule),
        TreeMark::Outside(limit) => outside(limit),
        TreeMark::Silent => silent(),
    }
}

/// The same, of a mark that says something whatever the table.
pub fn wished(s: &State, want: Want, m: TreeMark) -> Answer
    requires basics { HasBasics s.now.table }
    requires within { IsWithin (count s.now.table) m }
    requires want { IsWishOf s.now want }
    ensures is { (meaning : TreeMeaning) → SaysInTree m meaning → answer_in s.now result ≡ wished (wish_of s.now want) meaning }
    ensures over { IsAnswerOf s.now result }
{
    with_wish(s, want, m)
}

// ---- `iota`

fn begins(u: &Subject, at: NodeRef, first: u32) -> bool
    ensures { result ≡ begins (unit_of u.now) at first }
{
    match u.node_at(at) {
        Some(node) => first <= node.first,
        None => false,
    }
}

/// The node is one of this specification.
fn is_within_spec(u: &Subject, at: NodeRef, spec: Spec) -> bool
    ensures { result ≡ is_within_spec (unit_of u.now) at spec }
{
    let whole = NodeRef {
        file: at.file,
        node: spec.node,
    };
    match u.node_at(whole) {
        Some(whole) => begins(u, at, whole.first),
        None => false,
    }
}

fn spec_number(u: &Subject, at: NodeRef, spec: Spec) -> Option<u64>
    ensures { result ≡ spec_number (unit_of u.now) at spec }
{
    if is_within_spec(u, at, spec) {
        Some(spec.iota)
    } else {
        None
    }
}

fn written_iota(u: &Subject, at: NodeRef) -> Option<u64>
    requires { IsRead u.now }
    ensures { result ≡ written_iota (unit_of u.now) at }
{
    match u.spec_at(at) {
        Some(spec) => spec_number(u, at, spec),
        None => None,
    }
}

fn iota_by(u: &Subject, at: NodeRef, spec: Option<Spec>) -> Option<u64>
    requires { IsRead u.now }
    ensures { result ≡ iota_by (unit_of u.now) at spec }
{
    match spec {
        Some(spec) => Some(spec.iota),
        None => written_iota(u, at),
    }
}

/// The value of `iota`, where it has one.
fn iota_of(u: &Subject, block: usize, at: NodeRef) -> Option<u64>
    requires { IsRead u.now }
    ensures { result ≡ iota_of (unit_of u.now) block at }
{
    match u.passage_at(block) {
        Some(passage) => iota_by(u, at, passage.spec),
        None => iota_by(u, at, None),
    }
}

/// The place of `iota` among the predeclared names.
const IOTA: u8 = 20;

/// The mark of a predeclared name: E3 for `iota` outside a constant declaration.
fn judge_universe(i: u8, iota: Option<u64>) -> TreeMark
    ensures { SaysInTree result (predeclared iota i) }
{
    match iota {
        Some(iota) => judge_predeclared(i, iota),
        None => {
            if i == IOTA {
                TreeMark::Bad(UNDEFINED)
            } else {
                judge_predeclared(i, 0)
            }
        }
    }
}

// ---- names

/// A use of what has this mark.
#[tactic(auto, unfolding(crate::specs::Names::used))]
pub fn used(s: &State, want: Want, m: Mark) -> Step
    requires basics { HasBasics s.now.table }
    requires mark { IsMarkOf s.now m }
    requires want { IsWishOf s.now want }
    ensures is { step_in s.now result ≡ tell (sight s.now) (used (wish_of s.now want) (said s.now m)) }
    ensures over { IsStepOf s.now result }
{
    match m {
        Mark::Good(x) => Step::Says(Answer::Mark(operand(s, x.mode, x.of, x.value, want))),
        Mark::Bad(_) => Step::Says(silent()),
        Mark::Outside(_) => Step::Says(silent()),
        Mark::Silent => Step::Says(silent()),
        Mark::Wants(_, _) => Step::Says(silent()),
        Mark::Declared(_) => Step::Says(silent()),
    }
}

fn judge_declared(u: &Subject, s: &State, name: NodeRef, want: Want) -> Step
    requires scene { IsScene u.now s.now }
    requires want { IsWishOf s.now want }
    ensures is { step_in s.now result ≡ tell (sight s.now) (object_ask (unit_of u.now) name (wish_of s.now want)) }
    ensures over { IsStepOf s.now result }
{
    match look(u, s, Stage::Object, name.file as usize, name.node) {
        Found::Is(m) => used(s, want, m),
        Found::Wait(item) => Step::Waits(item),
    }
}

fn judge_object(u: &Subject, s: &State, iota: Option<u64>, want: Want, object: Object) -> Step
    requires scene { IsScene u.now s.now }
    requires want { IsWishOf s.now want }
    ensures is { step_in s.now result ≡ tell (sight s.now) (denoted (unit_of u.now) iota (wish_of s.now want) (Some object)) }
    ensures over { IsStepOf s.now result }
{
    match object {
        Object::Universe(i) => Step::Says(wished(s, want, judge_universe(i, iota))),
        Object::Import(at) => Step::Says(wished(s, want, judge_lead(u.lead_at(at)))),
        Object::Local(name) => judge_declared(u, s, name, want),
        Object::Package(name) => judge_declared(u, s, name, want),
    }
}

fn judge_denoted(
    u: &Subject,
    s: &State,
    iota: Option<u64>,
    want: Want,
    object: Option<Object>,
) -> Step
    requires scene { IsScene u.now s.now }
    requires want { IsWishOf s.now want }
    ensures is { step_in s.now result ≡ tell (sight s.now) (denoted (unit_of u.now) iota (wish_of s.now want) object) }
    ensures over { IsStepOf s.now result }
{
    match object {
        Some(object) => judge_object(u, s, iota, want, object),
        // E3
        None => Step::Says(bad(UNDEFINED)),
    }
}

/// E17 a blank, E10 where a type is wanted.
pub fn blank(s: &State, demand: Demand, want: Want) -> Answer
    requires basics { HasBasics s.now.table }
    requires want { IsWishOf s.now want }
    ensures is { answer_in s.now result ≡ blank demand (wish_of s.now want) }
    ensures over { IsAnswerOf s.now result }
{
    wished(s, want, judge_blank(demand))
}

/// How far the rule of a name goes: E17, E10, E3.
#[tactic(auto, unfolding(crate::specs::Names::name_rule))]
pub fn judge_name(u: &Subject, s: &State, block: usize, at: NodeRef, node: &Node, w: Wanted) -> Step
    requires scene { IsScene u.now s.now }
    requires wanted { IsWantedOf s.now w }
    ensures is { step_in s.now result ≡ tell (sight s.now) (name_rule (unit_of u.now) block at node.now (wanted_of s.now w)) }
    ensures over { IsStepOf s.now result }
{
    if is_blank(u.spelled(at.file, node.first)) {
        return Step::Says(blank(s, w.demand, w.want));
    }
    judge_denoted(u, s, iota_of(u, block, at), w.want, u.object_at(at))
}
