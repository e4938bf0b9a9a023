//! Parts of nodes, as rules read them.
ghost use Rattle.std.specs.Prelude.{◌≡◌, ◌<◌, IfOk, OnOk, [], length, slice_get, Some};
ghost use Rattle.std.specs.Global.{Vec};
ghost use Rattle.mark_walk.specs.Telling.{tell};
ghost use Rattle.unit_read.specs.Subjects.{unit_of};
ghost use Rattle.rule_words.specs.Parts.{stage_of};
ghost use Rattle.rule_words.specs.Asking.{marked_part, part_ask, parts_ask, known_part};
ghost use Rattle.rule_words.specs.Scenes.{sight, IsScene, told_by, IfFound, said, IsMarkOf, part_in, IsSeenOf, parts_in, AreSeenOf};

use crate::marks::look;
use crate::read::{How, Read};
use crate::seen::Seen;
use crate::under::mark_under;
use gv_base::NoMemory;
use std::alloc::Global;
use type_questions::Found;
use typed_marks::{Item, Mark, Stage, State};
use unit_read::Subject;

fn stage_of(how: How, stage: Stage) -> Stage
    ensures { result ≡ stage_of how stage }
{
    match how {
        How::Type => Stage::Placed,
        How::TypeAndUnder => Stage::Placed,
        How::Mark => stage,
        How::Value => stage,
    }
}

fn known(u: &Subject, s: &State, m: Mark) -> Found<Seen, Item>
    requires scene { IsScene u.now s.now }
    requires mark { IsMarkOf s.now m }
    ensures is { told_by (part_in s.now) result ≡ tell (sight s.now) (known_part (unit_of u.now) (said s.now m)) }
    ensures over { IfFound result (IsSeenOf s.now) }
{
    match mark_under(u, s, m) {
        Found::Is(under) => Found::Is(Seen { mark: m, under }),
        Found::Wait(item) => Found::Wait(item),
    }
}

fn marked(u: &Subject, s: &State, how: How, m: Mark) -> Found<Seen, Item>
    requires scene { IsScene u.now s.now }
    requires mark { IsMarkOf s.now m }
    ensures is { told_by (part_in s.now) result ≡ tell (sight s.now) (marked_part (unit_of u.now) how (said s.now m)) }
    ensures over { IfFound result (IsSeenOf s.now) }
{
    match how {
        How::Type => Found::Is(Seen {
            mark: m,
            under: None,
        }),
        How::TypeAndUnder => known(u, s, m),
        How::Mark => Found::Is(Seen {
            mark: m,
            under: None,
        }),
        How::Value => known(u, s, m),
    }
}

/// One part of a node, or the item for whose mark it waits.
pub fn part(u: &Subject, s: &State, stage: Stage, block: usize, read: Read) -> Found<Seen, Item>
    requires { IsScene u.now s.now }
    ensures is { told_by (part_in s.now) result ≡ tell (sight s.now) (part_ask (unit_of u.now) stage block read) }
    ensures over { IfFound result (IsSeenOf s.now) }
{
    match look(u, s, stage_of(read.how, stage), block, read.node) {
        Found::Is(m) => marked(u, s, read.how, m),
        Found::Wait(item) => Found::Wait(item),
    }
}

fn read_at(list: &[Read], i: usize) -> Read
    requires { i < length list.now }
    ensures { slice_get list.now i ≡ Some result }
{
    list[i]
}

/// All parts of a node that are read, in their order.
pub fn parts(
    alloc: Global,
    u: &Subject,
    s: &State,
    stage: Stage,
    block: usize,
    list: &[Read],
) -> Result<Found<Vec<Seen>, Item>, NoMemory>
    requires { IsScene u.now s.now }
    ensures is { IfOk result (λ found. told_by (λ (v : Vec Seen). parts_in s.now v.items) found ≡ tell (sight s.now) (parts_ask (unit_of u.now) stage block list.now)) }
    ensures over { IfOk result (λ found. IfFound found (λ v. AreSeenOf s.now v.items)) }
{
    let mut out = Vec::with_capacity(alloc, list.len())?;
    for i in 0..list.len() {
        let read = read_at(list, i);
        match part(u, s, stage, block, read) {
            Found::Is(seen) => out.push(seen)?,
            Found::Wait(item) => return Ok(Found::Wait(item)),
        }
    }
    Ok(Found::Is(out))
}
