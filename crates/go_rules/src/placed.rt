//! What a place makes of a node.
ghost use Rattle.std.specs.Prelude.{◌≡◌, IfOk};
ghost use Rattle.mark_walk.specs.Telling.{tell};
ghost use Rattle.typed_marks.specs.Meanings.{Right};
ghost use Rattle.unit_read.specs.Subjects.{unit_of};
ghost use Rattle.rule_words.specs.Scenes.{sight, IsScene, said, IsMarkOf};
ghost use Rattle.rule_words.specs.Steps.{step_in};
ghost use Rattle.rule_words.specs.Good.{known_of, AreFactsOf};
ghost use Rattle.elaborate.specs.Briefs.{step_of, ComesBriefly, IsBriefOf};
ghost use Rattle.go_rules.specs.Stages.{placed_with, placed_plain, type_wanted, placed_embedded, placed_argument, placed_shared, stated_good, placed_stated, placed_body, placed_as, placed_beside, placed_at, placed_after, placed_in};

use crate::role::{Placing, placing_at};
use call_rules::{is_passed, judge_passed};
use elaborate::briefly::{beyond, broken, silent};
use elaborate::{Brief, in_brief};
use go_tree::{Node, NodeRef};
use gv_base::NoMemory;
use op_rules::judge_placed;
use rule_words::modes::is_type;
use rule_words::{Wanted, wanted_by};
use statement_rules::{Placing as StatementPlacing, judge_statement_placed};
use std::alloc::Global;
use type_answers::ask_mark;
use type_questions::Found;
use type_rules::judge_element;
use typed_marks::{Facts, Mark, Stage, State, Want};
use typed_tree::{NOT_A_TYPE, Want as Demand};
use unit_read::{Place, Subject};
use variable_rules::{is_shared, judge_shared};

// ---- what is wanted there is tested

fn placed_with(alloc: Global, u: &Subject, s: &State, j: Mark, m: Mark) -> Result<Brief, NoMemory>
    requires scene { IsScene u.now s.now }
    requires judged { IsMarkOf s.now j }
    requires wanted { IsMarkOf s.now m }
    ensures comes { IfOk result (ComesBriefly u.now s.now (placed_with (unit_of u.now) (said s.now j) (said s.now m))) }
    ensures over { IfOk result (IsBriefOf s.now) }
{
    let w = wanted_by(s, m);
    let step = judge_placed(alloc, u, s, w, j)?;
    in_brief(alloc, step)
}

#[tactic(auto, using(type_answers::proofs::ComingLaws::bind_comes, type_answers::proofs::ComingLaws::bind_waits))]
fn placed_plain(
    alloc: Global,
    u: &Subject,
    s: &State,
    block: usize,
    at: NodeRef,
    j: Mark,
) -> Result<Brief, NoMemory>
    requires scene { IsScene u.now s.now }
    requires mark { IsMarkOf s.now j }
    ensures comes { IfOk result (ComesBriefly u.now s.now (placed_plain (unit_of u.now) block at (said s.now j))) }
    ensures over { IfOk result (IsBriefOf s.now) }
{
    match ask_mark(u, s, Stage::Wanted, block, at.node) {
        Found::Is(m) => placed_with(alloc, u, s, j, m),
        Found::Wait(item) => Ok(Brief::Waits(item)),
    }
}

// ---- what an interface embeds

/// What an interface embeds is a type, E10, and of these an interface, E15, whose methods agree with the others, E14.
fn embedded_good(
    alloc: Global,
    u: &Subject,
    s: &State,
    block: usize,
    at: NodeRef,
    p: Place,
    around: &Node,
    x: Facts,
) -> Result<Brief, NoMemory>
    requires scene { IsScene u.now s.now }
    requires facts { AreFactsOf s.now x }
    ensures is { IfOk result (λ brief. step_in s.now (step_of brief) ≡ tell (sight s.now) (placed_embedded (unit_of u.now) block at p around.now (Right (known_of s.now x)))) }
    ensures over { IfOk result (IsBriefOf s.now) }
{
    if is_type(x.mode) {
        let step = judge_element(alloc, u, s, block, at.file, around, p.slot, Mark::Good(x))?;
        let brief = in_brief(alloc, step)?;
        Ok(brief)
    } else {
        Ok(broken(NOT_A_TYPE))
    }
}

fn placed_embedded(
    alloc: Global,
    u: &Subject,
    s: &State,
    block: usize,
    at: NodeRef,
    p: Place,
    around: &Node,
    j: Mark,
) -> Result<Brief, NoMemory>
    requires scene { IsScene u.now s.now }
    requires mark { IsMarkOf s.now j }
    ensures is { IfOk result (λ brief. step_in s.now (step_of brief) ≡ tell (sight s.now) (placed_embedded (unit_of u.now) block at p around.now (said s.now j))) }
    ensures over { IfOk result (IsBriefOf s.now) }
{
    match j {
        Mark::Good(x) => embedded_good(alloc, u, s, block, at, p, around, x),
        Mark::Bad(rule) => Ok(broken(rule)),
        Mark::Outside(limit) => Ok(beyond(limit)),
        Mark::Silent => Ok(silent()),
        Mark::Wants(_, _) => Ok(silent()),
        Mark::Declared(_) => Ok(silent()),
    }
}

// ---- arguments

/// What a call calls, or an argument: a call's results may be the arguments of another.
#[tactic(auto, using(type_answers::proofs::ComingLaws::same_comes))]
fn placed_argument(
    alloc: Global,
    u: &Subject,
    s: &State,
    block: usize,
    at: NodeRef,
    p: Place,
    around: &Node,
    j: Mark,
) -> Result<Brief, NoMemory>
    requires scene { IsScene u.now s.now }
    requires mark { IsMarkOf s.now j }
    ensures comes { IfOk result (ComesBriefly u.now s.now (placed_argument (unit_of u.now) block at p around.now (said s.now j))) }
    ensures over { IfOk result (IsBriefOf s.now) }
{
    if is_passed(s, around, p.slot, j) {
        let step = judge_passed(alloc, u, s, block, around, j)?;
        return in_brief(alloc, step);
    }
    placed_plain(alloc, u, s, block, at, j)
}

// ---- one value for several variables

/// A part of a specification of variables of a type that is written.
#[tactic(auto, using(type_answers::proofs::ComingLaws::same_comes))]
fn placed_shared(
    alloc: Global,
    u: &Subject,
    s: &State,
    block: usize,
    at: NodeRef,
    p: Place,
    around: &Node,
    j: Mark,
) -> Result<Brief, NoMemory>
    requires scene { IsScene u.now s.now }
    requires mark { IsMarkOf s.now j }
    ensures comes { IfOk result (ComesBriefly u.now s.now (placed_shared (unit_of u.now) block at p around.now (said s.now j))) }
    ensures over { IfOk result (IsBriefOf s.now) }
{
    if is_shared(u, block, p, around) {
        let step = judge_shared(alloc, u, s, block, u.nodes_at(at.file), around, j)?;
        return in_brief(alloc, step);
    }
    placed_plain(alloc, u, s, block, at, j)
}

// ---- statements

fn stated_good(
    alloc: Global,
    u: &Subject,
    s: &State,
    block: usize,
    at: NodeRef,
    p: Place,
    around: &Node,
    placing: StatementPlacing,
    x: Facts,
) -> Result<Brief, NoMemory>
    requires scene { IsScene u.now s.now }
    requires facts { AreFactsOf s.now x }
    ensures comes { IfOk result (ComesBriefly u.now s.now (stated_good (unit_of u.now) block at p around.now placing (known_of s.now x))) }
    ensures over { IfOk result (IsBriefOf s.now) }
{
    let j = Mark::Good(x);
    let step = judge_statement_placed(alloc, u, s, block, at.file, p, around, at.node, j, placing)?;
    in_brief(alloc, step)
}

/// A part of a statement that makes more of it than what it wants.
#[tactic(auto, using(type_answers::proofs::ComingLaws::same_comes))]
fn placed_stated(
    alloc: Global,
    u: &Subject,
    s: &State,
    block: usize,
    at: NodeRef,
    p: Place,
    around: &Node,
    j: Mark,
    placing: StatementPlacing,
) -> Result<Brief, NoMemory>
    requires scene { IsScene u.now s.now }
    requires mark { IsMarkOf s.now j }
    ensures comes { IfOk result (ComesBriefly u.now s.now (placed_stated (unit_of u.now) block at p around.now (said s.now j) placing)) }
    ensures over { IfOk result (IsBriefOf s.now) }
{
    match j {
        Mark::Good(x) => stated_good(alloc, u, s, block, at, p, around, placing, x),
        Mark::Bad(rule) => Ok(broken(rule)),
        Mark::Outside(limit) => Ok(beyond(limit)),
        Mark::Silent => Ok(silent()),
        Mark::Wants(_, _) => Ok(silent()),
        Mark::Declared(_) => Ok(silent()),
    }
}

// ---- bodies

/// The body of a function: what is around it wants nothing of it.
fn placed_body(alloc: Global, u: &Subject, s: &State, j: Mark) -> Result<Brief, NoMemory>
    requires scene { IsScene u.now s.now }
    requires mark { IsMarkOf s.now j }
    ensures comes { IfOk result (ComesBriefly u.now s.now (placed_body (unit_of u.now) (said s.now j))) }
    ensures over { IfOk result (IsBriefOf s.now) }
{
    let nothing = Wanted {
        demand: Demand::Nothing,
        want: Want::Free,
    };
    let step = judge_placed(alloc, u, s, nothing, j)?;
    in_brief(alloc, step)
}

// ---- all

#[tactic(auto, using(type_answers::proofs::ComingLaws::same_comes))]
fn placed_as(
    alloc: Global,
    u: &Subject,
    s: &State,
    placing: Placing,
    block: usize,
    at: NodeRef,
    p: Place,
    around: &Node,
    j: Mark,
) -> Result<Brief, NoMemory>
    requires scene { IsScene u.now s.now }
    requires mark { IsMarkOf s.now j }
    ensures comes { IfOk result (ComesBriefly u.now s.now (placed_as placing (unit_of u.now) block at p around.now (said s.now j))) }
    ensures over { IfOk result (IsBriefOf s.now) }
{
    match placing {
        Placing::Plain => placed_plain(alloc, u, s, block, at, j),
        Placing::Embedded => placed_embedded(alloc, u, s, block, at, p, around, j),
        Placing::Argument => placed_argument(alloc, u, s, block, at, p, around, j),
        Placing::Shared => placed_shared(alloc, u, s, block, at, p, around, j),
        Placing::Body => placed_body(alloc, u, s, j),
        Placing::Stated(placing) => placed_stated(alloc, u, s, block, at, p, around, j, placing),
    }
}

fn placed_beside(
    alloc: Global,
    u: &Subject,
    s: &State,
    block: usize,
    at: NodeRef,
    node: &Node,
    j: Mark,
    p: Place,
    around: &Node,
) -> Result<Brief, NoMemory>
    requires scene { IsScene u.now s.now }
    requires mark { IsMarkOf s.now j }
    ensures comes { IfOk result (ComesBriefly u.now s.now (placed_beside (unit_of u.now) block at node.now (said s.now j) p around.now)) }
    ensures over { IfOk result (IsBriefOf s.now) }
{
    let placing = placing_at(u, at, node, p, around);
    placed_as(alloc, u, s, placing, block, at, p, around, j)
}

#[tactic(auto, using(type_answers::proofs::ComingLaws::same_comes))]
fn placed_at(
    alloc: Global,
    u: &Subject,
    s: &State,
    block: usize,
    at: NodeRef,
    node: &Node,
    j: Mark,
    p: Place,
) -> Result<Brief, NoMemory>
    requires scene { IsScene u.now s.now }
    requires mark { IsMarkOf s.now j }
    ensures comes { IfOk result (ComesBriefly u.now s.now (placed_at (unit_of u.now) block at node.now (said s.now j) p)) }
    ensures over { IfOk result (IsBriefOf s.now) }
{
    let whole = NodeRef {
        file: at.file,
        node: p.around,
    };
    match u.node_at(whole) {
        Some(around) => placed_beside(alloc, u, s, block, at, node, j, p, around),
        None => placed_plain(alloc, u, s, block, at, j),
    }
}

#[tactic(auto, using(type_answers::proofs::ComingLaws::same_comes))]
fn placed_after(
    alloc: Global,
    u: &Subject,
    s: &State,
    block: usize,
    at: NodeRef,
    node: &Node,
    j: Mark,
) -> Result<Brief, NoMemory>
    requires scene { IsScene u.now s.now }
    requires mark { IsMarkOf s.now j }
    ensures comes { IfOk result (ComesBriefly u.now s.now (placed_after (unit_of u.now) block at node.now (said s.now j))) }
    ensures over { IfOk result (IsBriefOf s.now) }
{
    match u.place_at(at) {
        Some(p) => placed_at(alloc, u, s, block, at, node, j, p),
        None => placed_plain(alloc, u, s, block, at, j),
    }
}

/// A node once its place has tested it.
#[tactic(auto, using(type_answers::proofs::ComingLaws::bind_comes, type_answers::proofs::ComingLaws::bind_waits))]
pub fn placed(
    alloc: Global,
    u: &Subject,
    s: &State,
    block: usize,
    at: NodeRef,
    node: &Node,
) -> Result<Brief, NoMemory>
    requires { IsScene u.now s.now }
    ensures comes { IfOk result (ComesBriefly u.now s.now (placed_in (unit_of u.now) block at node.now)) }
    ensures over { IfOk result (IsBriefOf s.now) }
{
    match ask_mark(u, s, Stage::Judged, block, at.node) {
        Found::Is(j) => placed_after(alloc, u, s, block, at, node, j),
        Found::Wait(item) => Ok(Brief::Waits(item)),
    }
}
