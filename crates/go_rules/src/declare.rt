//! What types are declared with.
ghost use Rattle.std.specs.Prelude.{◌≡◌, true, IfOk};
ghost use Rattle.mark_walk.specs.Telling.{tell};
ghost use Rattle.unit_read.specs.Subjects.{unit_of};
ghost use Rattle.rule_words.specs.Scenes.{sight, IsScene};
ghost use Rattle.rule_words.specs.Declaring.{declaring_in, IsDeclaringAt};
ghost use Rattle.decl_rules.specs.Under.{under_rule};
ghost use Rattle.elaborate.specs.Walks.{is_declaring};
ghost use Rattle.go_rules.specs.Stages.{in_own, stage_rule, node_rule, at_node, number, nth_rule, in_file, file_rule, rule};

use crate::number::number;
use decl_rules::judge_under;
use go_tree::NodeRef;
use gv_base::NoMemory;
use rule_words::Declaring;
use std::alloc::Global;
use typed_marks::{Item, State};
use unit_read::Subject;

/// What the type is declared with whose name stands at a node, in the block of its file.
fn declare_own(
    alloc: Global,
    u: &Subject,
    s: &State,
    item: Item,
    at: NodeRef,
) -> Result<Declaring, NoMemory>
    requires scene { IsScene u.now s.now }
    requires stage { is_declaring item.stage ≡ true }
    requires node { item.node ≡ at.node }
    ensures is { IfOk result (λ d. declaring_in s.now d ≡ tell (sight s.now) (in_own item.block at (under_rule (unit_of u.now) at))) }
    ensures over { IfOk result (IsDeclaringAt (unit_of u.now) s.now item) }
{
    if item.block == at.file as usize {
        let declaring = judge_under(alloc, u, s, at)?;
        Ok(declaring)
    } else {
        Ok(Declaring::Nothing)
    }
}

fn declare_at(
    alloc: Global,
    u: &Subject,
    s: &State,
    item: Item,
    at: NodeRef,
) -> Result<Declaring, NoMemory>
    requires scene { IsScene u.now s.now }
    requires stage { is_declaring item.stage ≡ true }
    requires node { item.node ≡ at.node }
    ensures is { IfOk result (λ d. declaring_in s.now d ≡ tell (sight s.now) (at_node (unit_of u.now) item at)) }
    ensures over { IfOk result (IsDeclaringAt (unit_of u.now) s.now item) }
{
    match u.node_at(at) {
        Some(_) => {
            let declaring = declare_own(alloc, u, s, item, at)?;
            Ok(declaring)
        }
        None => Ok(Declaring::Nothing),
    }
}

fn declare_nth(
    alloc: Global,
    u: &Subject,
    s: &State,
    item: Item,
    file: u32,
    node: u32,
) -> Result<Declaring, NoMemory>
    requires scene { IsScene u.now s.now }
    requires stage { is_declaring item.stage ≡ true }
    requires node { item.node ≡ node }
    ensures is { IfOk result (λ d. declaring_in s.now d ≡ tell (sight s.now) (nth_rule (unit_of u.now) item file node)) }
    ensures over { IfOk result (IsDeclaringAt (unit_of u.now) s.now item) }
{
    let declaring = declare_at(alloc, u, s, item, NodeRef { file, node })?;
    Ok(declaring)
}

fn declare_in(
    alloc: Global,
    u: &Subject,
    s: &State,
    item: Item,
    file: u32,
) -> Result<Declaring, NoMemory>
    requires scene { IsScene u.now s.now }
    requires stage { is_declaring item.stage ≡ true }
    ensures is { IfOk result (λ d. declaring_in s.now d ≡ tell (sight s.now) (in_file (unit_of u.now) item file)) }
    ensures over { IfOk result (IsDeclaringAt (unit_of u.now) s.now item) }
{
    match number(item.node) {
        Some(node) => {
            let declaring = declare_nth(alloc, u, s, item, file, node)?;
            Ok(declaring)
        }
        None => Ok(Declaring::Nothing),
    }
}

/// How far the rule goes that says what a type is declared with.
pub fn declare_item(
    alloc: Global,
    u: &Subject,
    s: &State,
    item: Item,
) -> Result<Declaring, NoMemory>
    requires scene { IsScene u.now s.now }
    requires stage { is_declaring item.stage ≡ true }
    ensures is { IfOk result (λ d. declaring_in s.now d ≡ tell (sight s.now) (rule (unit_of u.now) item)) }
    ensures over { IfOk result (IsDeclaringAt (unit_of u.now) s.now item) }
{
    match u.passage_at(item.block) {
        Some(passage) => {
            let declaring = declare_in(alloc, u, s, item, passage.file)?;
            Ok(declaring)
        }
        None => Ok(Declaring::Nothing),
    }
}
