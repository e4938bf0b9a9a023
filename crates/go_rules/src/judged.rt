//! The rule of a node by its parts: before anything is wanted of it, and with what its place wants.
ghost use Rattle.std.specs.Prelude.{◌≡◌, None, IfOk};
ghost use Rattle.unit_read.specs.Subjects.{unit_of};
ghost use Rattle.rule_words.specs.Scenes.{IsScene, said, IsMarkOf, parts_in, AreSeenOf};
ghost use Rattle.rule_words.specs.Wanting.{wanted_of, IsWantedOf};
ghost use Rattle.type_answers.specs.Coming.{FoundBy};
ghost use Rattle.elaborate.specs.Briefs.{ComesBriefly, IsBriefOf};
ghost use Rattle.literal_rules.specs.Keys.{key_role};
ghost use Rattle.go_rules.specs.Families.{family, is_expression};
ghost use Rattle.go_rules.specs.Slots.{ComeTo};
ghost use Rattle.go_rules.specs.Stages.{from_parts, parts_read, with_parts, nothing_wanted, before_plain, before_in, before_as, judged_wanting, judged_with, judged_plain, judged_in, judged_key, key_judged, judged_as};

use crate::by_family::judge_by;
use crate::clause::nothing;
use crate::family::{family_of, is_expression};
use crate::own::is_own_type;
use crate::reads::{add_parts, add_reads};
use crate::role::{Role, clause_for};
use crate::room::Room;
use crate::statements::judge_switched;
use crate::uses::{free_use, judge_use};
use decl_rules::declared_name;
use elaborate::briefly::{broken, silent};
use elaborate::{Brief, in_brief};
use go_tree::{Node, NodeRef};
use gv_base::NoMemory;
use literal_rules::{KeyRole, key_role};
use package_objects::part_count;
use rule_words::{Seen, Wanted, wanted_by};
use std::alloc::Global;
use type_answers::ask_mark;
use type_questions::Found;
use typed_marks::{Item, Mark, Stage, State, Want};
use typed_tree::{NOT_A_TYPE, Want as Demand};
use unit_read::Subject;

fn from_parts(
    alloc: Global,
    u: &Subject,
    s: &State,
    block: usize,
    at: NodeRef,
    node: &Node,
    w: Wanted,
    list: &[Seen],
) -> Result<Brief, NoMemory>
    requires scene { IsScene u.now s.now }
    requires wanted { IsWantedOf s.now w }
    requires parts { AreSeenOf s.now list.now }
    ensures comes { IfOk result (ComesBriefly u.now s.now (from_parts (unit_of u.now) block at node.now (wanted_of s.now w) (parts_in s.now list.now))) }
    ensures over { IfOk result (IsBriefOf s.now) }
{
    let by = family_of(node.kind);
    let step = judge_by(alloc, u, s, by, block, at, node, list, w)?;
    in_brief(alloc, step)
}

/// The parts of a node, as they are read at a stage.
fn read_parts(
    room: &mut Room,
    u: &Subject,
    s: &State,
    stage: Stage,
    block: usize,
    at: NodeRef,
    node: &Node,
) -> Result<Option<Item>, NoMemory>
    requires { IsScene u.now s.now }
    ensures is { IfOk result (ComeTo u.now s.now (parts_read (unit_of u.now) stage block at node.now) (parts_in s.now room.new.seen.items)) }
    ensures over { IfOk result (λ waits. waits ≡ None → AreSeenOf s.now room.new.seen.items) }
{
    add_reads(&mut room.reads, u.nodes_at(at.file), node)?;
    let waits = add_parts(&mut room.seen, u, s, stage, block, &room.reads)?;
    Ok(waits)
}

/// Reads the parts of a node at a stage, and judges it with what its place wants.
#[tactic(auto, using(type_answers::proofs::ComingLaws::bind_waits))]
fn with_parts(
    alloc: Global,
    room: &mut Room,
    u: &Subject,
    s: &State,
    stage: Stage,
    block: usize,
    at: NodeRef,
    node: &Node,
    w: Wanted,
) -> Result<Brief, NoMemory>
    requires scene { IsScene u.now s.now }
    requires wanted { IsWantedOf s.now w }
    ensures comes { IfOk result (ComesBriefly u.now s.now (with_parts (unit_of u.now) stage block at node.now (wanted_of s.now w))) }
    ensures over { IfOk result (IsBriefOf s.now) }
{
    if part_count(node) == 0 {
        return from_parts(alloc, u, s, block, at, node, w, &[]);
    }
    let waits = read_parts(room, u, s, stage, block, at, node)?;
    match waits {
        None => from_parts(alloc, u, s, block, at, node, w, &room.seen),
        Some(item) => Ok(Brief::Waits(item)),
    }
}

/// The same, where a use needs no reading of parts.
#[tactic(auto, using(type_answers::proofs::ComingLaws::same_comes))]
fn with_use(
    alloc: Global,
    room: &mut Room,
    u: &Subject,
    s: &State,
    stage: Stage,
    block: usize,
    at: NodeRef,
    node: &Node,
    w: Wanted,
) -> Result<Brief, NoMemory>
    requires scene { IsScene u.now s.now }
    requires wanted { IsWantedOf s.now w }
    ensures comes { IfOk result (ComesBriefly u.now s.now (with_parts (unit_of u.now) stage block at node.now (wanted_of s.now w))) }
    ensures over { IfOk result (IsBriefOf s.now) }
{
    match free_use(u, at, node, w.want) {
        Some(name) => Ok(judge_use(u, s, name)),
        None => with_parts(alloc, room, u, s, stage, block, at, node, w),
    }
}

/// An expression or a type before anything is wanted of it.
#[tactic(auto, using(type_answers::proofs::ComingLaws::same_comes))]
fn before_plain(
    alloc: Global,
    room: &mut Room,
    u: &Subject,
    s: &State,
    block: usize,
    at: NodeRef,
    node: &Node,
) -> Result<Brief, NoMemory>
    requires { IsScene u.now s.now }
    ensures comes { IfOk result (ComesBriefly u.now s.now (before_plain (unit_of u.now) block at node.now)) }
    ensures over { IfOk result (IsBriefOf s.now) }
{
    if !is_expression(family_of(node.kind)) {
        return Ok(silent());
    }
    let nothing = Wanted {
        demand: Demand::Nothing,
        want: Want::Free,
    };
    with_use(alloc, room, u, s, Stage::Before, block, at, node, nothing)
}

#[tactic(auto, using(type_answers::proofs::ComingLaws::same_comes))]
fn before_in(
    alloc: Global,
    room: &mut Room,
    u: &Subject,
    s: &State,
    block: usize,
    at: NodeRef,
    node: &Node,
) -> Result<Brief, NoMemory>
    requires { IsScene u.now s.now }
    ensures comes { IfOk result (ComesBriefly u.now s.now (before_in (unit_of u.now) block at node.now)) }
    ensures over { IfOk result (IsBriefOf s.now) }
{
    match clause_for(u, at, node) {
        Some(clause) => in_brief(alloc, judge_switched(u, s, at.file, clause)),
        None => before_plain(alloc, room, u, s, block, at, node),
    }
}

/// A node before a type is wanted of it.
#[tactic(auto, using(type_answers::proofs::ComingLaws::same_comes))]
pub fn before(
    alloc: Global,
    room: &mut Room,
    u: &Subject,
    s: &State,
    role: Role,
    block: usize,
    at: NodeRef,
    node: &Node,
) -> Result<Brief, NoMemory>
    requires { IsScene u.now s.now }
    ensures comes { IfOk result (ComesBriefly u.now s.now (before_as role (unit_of u.now) block at node.now)) }
    ensures over { IfOk result (IsBriefOf s.now) }
{
    match role {
        Role::Part => before_in(alloc, room, u, s, block, at, node),
        Role::Key => Ok(silent()),
        Role::Declared => Ok(silent()),
        Role::Blank => Ok(silent()),
        Role::Untold => Ok(silent()),
    }
}

/// A node with what is wanted of it, over its parts in their places.
#[tactic(auto, using(type_answers::proofs::ComingLaws::same_comes))]
fn judged_wanting(
    alloc: Global,
    room: &mut Room,
    u: &Subject,
    s: &State,
    block: usize,
    at: NodeRef,
    node: &Node,
    w: Wanted,
) -> Result<Brief, NoMemory>
    requires scene { IsScene u.now s.now }
    requires wanted { IsWantedOf s.now w }
    ensures comes { IfOk result (ComesBriefly u.now s.now (judged_wanting (unit_of u.now) block at node.now (wanted_of s.now w))) }
    ensures over { IfOk result (IsBriefOf s.now) }
{
    if is_own_type(u, s, at, node, w) {
        return Ok(broken(NOT_A_TYPE));
    }
    with_use(alloc, room, u, s, Stage::Placed, block, at, node, w)
}

fn judged_with(
    alloc: Global,
    room: &mut Room,
    u: &Subject,
    s: &State,
    block: usize,
    at: NodeRef,
    node: &Node,
    m: Mark,
) -> Result<Brief, NoMemory>
    requires scene { IsScene u.now s.now }
    requires mark { IsMarkOf s.now m }
    ensures comes { IfOk result (ComesBriefly u.now s.now (judged_with (unit_of u.now) block at node.now (said s.now m))) }
    ensures over { IfOk result (IsBriefOf s.now) }
{
    let w = wanted_by(s, m);
    judged_wanting(alloc, room, u, s, block, at, node, w)
}

#[tactic(auto, using(type_answers::proofs::ComingLaws::bind_comes, type_answers::proofs::ComingLaws::bind_waits))]
fn judged_plain(
    alloc: Global,
    room: &mut Room,
    u: &Subject,
    s: &State,
    block: usize,
    at: NodeRef,
    node: &Node,
) -> Result<Brief, NoMemory>
    requires { IsScene u.now s.now }
    ensures comes { IfOk result (ComesBriefly u.now s.now (judged_plain (unit_of u.now) block at node.now)) }
    ensures over { IfOk result (IsBriefOf s.now) }
{
    match ask_mark(u, s, Stage::Wanted, block, at.node) {
        Found::Is(m) => judged_with(alloc, room, u, s, block, at, node, m),
        Found::Wait(item) => Ok(Brief::Waits(item)),
    }
}

/// The name of a type switch's variable denotes that of the clause around it.
#[tactic(auto, using(type_answers::proofs::ComingLaws::same_comes))]
fn judged_in(
    alloc: Global,
    room: &mut Room,
    u: &Subject,
    s: &State,
    block: usize,
    at: NodeRef,
    node: &Node,
) -> Result<Brief, NoMemory>
    requires { IsScene u.now s.now }
    ensures comes { IfOk result (ComesBriefly u.now s.now (judged_in (unit_of u.now) block at node.now)) }
    ensures over { IfOk result (IsBriefOf s.now) }
{
    match clause_for(u, at, node) {
        Some(clause) => in_brief(alloc, judge_switched(u, s, at.file, clause)),
        None => judged_plain(alloc, room, u, s, block, at, node),
    }
}

#[tactic(auto, using(type_answers::proofs::ComingLaws::same_comes))]
fn judged_key(
    alloc: Global,
    room: &mut Room,
    u: &Subject,
    s: &State,
    block: usize,
    at: NodeRef,
    node: &Node,
    key: KeyRole,
) -> Result<Brief, NoMemory>
    requires { IsScene u.now s.now }
    ensures comes { IfOk result (ComesBriefly u.now s.now (judged_key (unit_of u.now) block at node.now key)) }
    ensures over { IfOk result (IsBriefOf s.now) }
{
    match key {
        KeyRole::Field => in_brief(alloc, nothing(s)),
        KeyRole::Use => judged_in(alloc, room, u, s, block, at, node),
        KeyRole::Unknown => Ok(silent()),
    }
}

/// What a name before a colon is, or the item for which that waits.
#[tactic(auto, using(type_answers::proofs::ComingLaws::same_found))]
fn key_of(u: &Subject, s: &State, block: usize, at: NodeRef) -> Found<KeyRole, Item>
    requires { IsScene u.now s.now }
    ensures { FoundBy u.now s.now (λ role. role) (key_role (unit_of u.now) block at) result }
{
    key_role(u, s, block, at)
}

/// A name before a colon.
#[tactic(auto, using(type_answers::proofs::ComingLaws::bind_comes, type_answers::proofs::ComingLaws::bind_waits))]
fn key_judged(
    alloc: Global,
    room: &mut Room,
    u: &Subject,
    s: &State,
    block: usize,
    at: NodeRef,
    node: &Node,
) -> Result<Brief, NoMemory>
    requires { IsScene u.now s.now }
    ensures comes { IfOk result (ComesBriefly u.now s.now (key_judged (unit_of u.now) block at node.now)) }
    ensures over { IfOk result (IsBriefOf s.now) }
{
    match key_of(u, s, block, at) {
        Found::Is(key) => judged_key(alloc, room, u, s, block, at, node, key),
        Found::Wait(item) => Ok(Brief::Waits(item)),
    }
}

/// A node of which that is wanted what its place wants.
#[tactic(auto, using(type_answers::proofs::ComingLaws::same_comes))]
pub fn judged(
    alloc: Global,
    room: &mut Room,
    u: &Subject,
    s: &State,
    role: Role,
    block: usize,
    at: NodeRef,
    node: &Node,
) -> Result<Brief, NoMemory>
    requires { IsScene u.now s.now }
    ensures comes { IfOk result (ComesBriefly u.now s.now (judged_as role (unit_of u.now) block at node.now)) }
    ensures over { IfOk result (IsBriefOf s.now) }
{
    match role {
        Role::Part => judged_in(alloc, room, u, s, block, at, node),
        Role::Key => key_judged(alloc, room, u, s, block, at, node),
        Role::Declared => in_brief(alloc, declared_name(u, s, at)),
        Role::Blank => in_brief(alloc, nothing(s)),
        Role::Untold => Ok(silent()),
    }
}
