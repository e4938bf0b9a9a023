//! What rules ask for of a package's marks, found as `FoundBy` says.
ghost use Rattle.std.specs.Prelude.{IfOk, option_map};
ghost use Rattle.std.specs.Global.{Vec};
ghost use Rattle.unit_read.specs.Subjects.{unit_of};
ghost use Rattle.rule_words.specs.Asking.{mark_ask, parts_ask, under_ask};
ghost use Rattle.rule_words.specs.Scenes.{IsScene, IfFound, said, IsMarkOf, type_in, IsTypeOf, MayBeTypeOf, parts_in, AreSeenOf};
ghost use Rattle.type_answers.specs.Coming.{FoundBy};

use gv_base::NoMemory;
use rule_words::{Read, Seen, look, parts, under_of};
use std::alloc::Global;
use type_model::TypeId;
use type_questions::Found;
use typed_marks::{Item, Mark, Stage, State};
use unit_read::Subject;

/// The mark of a node at a stage.
#[tactic(auto, using(crate::proofs::ComingLaws::same_found))]
pub fn ask_mark(u: &Subject, s: &State, stage: Stage, block: usize, n: u32) -> Found<Mark, Item>
    requires { IsScene u.now s.now }
    ensures is { FoundBy u.now s.now (said s.now) (mark_ask (unit_of u.now) stage block n) result }
    ensures over { IfFound result (IsMarkOf s.now) }
{
    look(u, s, stage, block, n)
}

/// The underlying type of a type; None where its declaration gives nothing.
#[tactic(auto, using(crate::proofs::ComingLaws::same_found))]
pub fn ask_under(u: &Subject, s: &State, of: TypeId) -> Found<Option<TypeId>, Item>
    requires scene { IsScene u.now s.now }
    requires within { IsTypeOf s.now of }
    ensures is { FoundBy u.now s.now (option_map (type_in s.now)) (under_ask (unit_of u.now) (type_in s.now of)) result }
    ensures within { IfFound result (MayBeTypeOf s.now) }
{
    under_of(u, s, of)
}

/// The parts of a node.
#[tactic(auto, using(crate::proofs::ComingLaws::same_found))]
pub fn ask_parts(
    alloc: Global,
    u: &Subject,
    s: &State,
    stage: Stage,
    block: usize,
    list: &[Read],
) -> Result<Found<Vec<Seen>, Item>, NoMemory>
    requires { IsScene u.now s.now }
    ensures is { IfOk result (FoundBy u.now s.now (λ (v : Vec Seen). parts_in s.now v.items) (parts_ask (unit_of u.now) stage block list.now)) }
    ensures over { IfOk result (λ found. IfFound found (λ v. AreSeenOf s.now v.items)) }
{
    let found = parts(alloc, u, s, stage, block, list)?;
    Ok(found)
}
