//! Which `return`s without values stand where a result is shadowed.
ghost use Rattle.std.specs.Prelude.{◌≡◌, ◌<◌, ◌≤◌, ◌+◌, ◌^◌, ◌&&◌, ℕ, Bool, IfOk, is_some, length, map, get_or, replicate, false, None};
ghost use Rattle.go_tree.specs.Pieces.{Spelled};
ghost use Rattle.node_values.specs.Parents.{AreParents};
ghost use Rattle.scopes.specs.Denotes.{IsLaid, IsFlags, HasNames, AreAnswered};
ghost use Rattle.file_uses.specs.Locals.{AreAnsweredBy};
ghost use Rattle.file_uses.specs.Numbers.{number};
ghost use Rattle.shadowed_results.specs.Kinds.{is_bare_at};
ghost use Rattle.shadowed_results.specs.Shadows.{AreShadowed};
ghost use Rattle.shadowed_results.specs.InCode.{is_flagged, AreValues};

use crate::bare::is_bare_at;
use crate::early::any_may_shadow;
use crate::functions::{functions_of, number_at};
use crate::regions::{declared_names, turn_all};
use crate::results::stages_of;
use crate::table::{count_nodes, results_of};
use crate::uses::{all_uses, numbers_of};
use go_tree::FileTree;
use gv_base::NoMemory;
use node_values::{parents_of, spelled_nodes};
use scopes::{Declaration, denoted, first_in_block};
use std::alloc::Global;

fn has_answer(answers: &[Option<usize>], n: usize) -> bool
    ensures { result ≡ is_some (get_or answers.now n None) }
{
    match number_at(answers, n) {
        Some(_) => true,
        None => false,
    }
}

fn is_flagged(tree: &FileTree, answers: &[Option<usize>], n: usize) -> bool
    ensures { result ≡ is_flagged tree.now answers.now n }
{
    if is_bare_at(tree.nodes.as_slice(), n) {
        return has_answer(answers, n);
    }
    false
}

fn flags_of(
    alloc: Global,
    tree: &FileTree,
    answers: &[Option<usize>],
) -> Result<Vec<bool>, NoMemory>
    ensures { IfOk result (λ flags. AreValues (is_flagged tree.now answers.now) (length tree.now.nodes) flags.items) }
{
    let mut flags = Vec::new(alloc);
    for n in 0..count_nodes(tree) {
        flags.push(is_flagged(tree, answers, n))?;
    }
    Ok(flags)
}

/// The innermost declaration of its function's number, for each node.
fn answers_of(
    alloc: Global,
    declarations: &[Declaration],
    numbers: &[usize],
    count: usize,
) -> Result<Vec<Option<usize>>, NoMemory>
    requires laid { IsLaid declarations.now }
    requires names { HasNames declarations.now count }
    requires below { (k : ℕ) → number numbers.now k < count }
    ensures { IfOk result (λ answers. AreAnsweredBy declarations.now numbers.now answers.items) }
{
    let first = first_in_block(alloc, declarations)?;
    let uses = all_uses(alloc, numbers)?;
    let answers = denoted(alloc, declarations, &first, &uses, count)?;
    Ok(answers)
}

fn node_parents(alloc: Global, tree: &FileTree) -> Result<Vec<usize>, NoMemory>
    ensures { IfOk result (λ parents. AreParents tree.now.nodes (length tree.now.nodes) parents.items) }
{
    let parents = parents_of(alloc, tree.nodes.as_slice())?;
    Ok(parents)
}

/// As many flags as nodes, none of them set.
fn no_flags(alloc: Global, tree: &FileTree) -> Result<Vec<bool>, NoMemory>
    ensures { IfOk result (λ flags. flags.items ≡ replicate (length tree.now.nodes) false) }
{
    let flags = vec![in alloc; false; count_nodes(tree)]?;
    Ok(flags)
}

/// Which nodes of a file are `return`s without values where a result of their function is shadowed, by the names that the file declares.
fn swept_returns(alloc: Global, bytes: &[u8], tree: &FileTree) -> Result<Vec<bool>, NoMemory>
    requires spelled { Spelled tree.now.tokens bytes.now tree.now }
    requires fit { length tree.now.nodes ≤ 2 ^ 32 }
    ensures { IfOk result (λ flags. AreShadowed bytes.now tree.now flags.items) }
{
    spelled_nodes(tree, bytes);
    let nodes = tree.nodes.as_slice();
    let total = count_nodes(tree);
    let parents = node_parents(alloc, tree)?;
    let functions = functions_of(alloc, nodes, &parents)?;
    let stages = stages_of(alloc, nodes, &parents)?;
    let table = results_of(alloc, bytes, tree, &stages, &functions)?;
    let names = declared_names(alloc, tree)?;
    let declarations = turn_all(alloc, bytes, tree, &table, &functions, &names)?;
    let numbers = numbers_of(alloc, &functions, total)?;
    let answers = answers_of(alloc, &declarations, &numbers, total + 1)?;
    let flags = flags_of(alloc, tree, &answers)?;
    Ok(flags)
}

/// Which nodes of a file are `return`s without values where a result of their function is shadowed.
pub fn shadowed_returns(alloc: Global, bytes: &[u8], tree: &FileTree) -> Result<Vec<bool>, NoMemory>
    requires spelled { Spelled tree.now.tokens bytes.now tree.now }
    requires fit { length tree.now.nodes ≤ 2 ^ 32 }
    ensures { IfOk result (λ flags. AreShadowed bytes.now tree.now flags.items) }
{
    spelled_nodes(tree, bytes);
    if !any_may_shadow(tree.nodes.as_slice()) {
        let none = no_flags(alloc, tree)?;
        return Ok(none);
    }
    let flags = swept_returns(alloc, bytes, tree)?;
    Ok(flags)
}
