//! What the names of a file declare, and denote within its functions.
ghost use Rattle.std.specs.Prelude.{◌≡◌, ◌<◌, ◌≤◌, ◌^◌, [], ℕ, IfOk, length, map};
ghost use Rattle.std.specs.List.{All};
ghost use Rattle.go_tree.specs.Arena.{arena_of, flat, roots};
ghost use Rattle.go_tree.specs.Forest.{Forest};
ghost use Rattle.go_tree.specs.Pieces.{Spelled};
ghost use Rattle.scopes.specs.Denotes.{IsLaid, HasNames, IsFlags};
ghost use Rattle.scopes.specs.Laid.{numbered};
ghost use Rattle.scopes.specs.Regions.{Scope, declared};
ghost use Rattle.scopes.specs.Walk.{Shows, IsFormed};
ghost use Rattle.file_uses.specs.Assigned.{AreFlagged};
ghost use Rattle.file_uses.specs.Locals.{AreAnsweredBy};
ghost use Rattle.file_uses.specs.Numbers.{number};
ghost use Rattle.file_uses.specs.Read.{AreLocals};
ghost use Rattle.file_uses.specs.Uses.{ArePlain};

use crate::assigned::{mark_assigned, statement_keys};
use crate::locals::{all_uses, number_all};
use crate::numbers::{Numbers, count_nodes, number_names};
use crate::uses::plain_nodes;
use go_tree::FileTree;
use gv_base::NoMemory;
use scopes::{Declaration, Named, collect, denoted, first_in_block};
use std::alloc::Global;

/// What the names of a file declare, and denote within its functions.
#[derive(Drop)]
pub struct Locals {
    /// The names that the file declares, in the order in which their regions begin.
    pub names: Vec<Named>,
    /// Of each node, whether it is a use, if it is a name.
    pub uses: Vec<bool>,
    /// Of each node the place of the declaration that its name denotes within a function.
    pub answers: Vec<Option<usize>>,
}

/// The declarations by number, and which are the first of their name in their block.
#[derive(Drop)]
struct Firsts {
    declarations: Vec<Declaration>,
    first: Vec<bool>,
}

fn plain_names(alloc: Global, tree: &FileTree) -> Result<Vec<bool>, NoMemory>
    ensures { IfOk result (λ flags. ArePlain tree.now.nodes flags.items) }
{
    let flags = plain_nodes(alloc, tree.nodes.as_slice())?;
    Ok(flags)
}

/// The names that a file declares.
fn declared_names(alloc: Global, tree: &FileTree) -> Result<Vec<Named>, NoMemory>
    requires formed { IsFormed tree.now.nodes }
    requires fit { length tree.now.nodes ≤ 2 ^ 32 }
    requires tops { All (λ k. k < length tree.now.nodes) tree.now.tops }
    ensures { IfOk result (λ names. (f : Forest) → Shows tree.now.nodes 0 tree.now.tops f → names.items ≡ declared (record { block = length tree.now.nodes; within = []; around = [] }) 0 f) }
{
    let nodes = tree.nodes.as_slice();
    let tops = tree.tops.as_slice();
    let mut out = Vec::new(alloc);
    let mut next = 0;
    for part in tops {
        let top = *part as usize;
        collect(alloc, nodes, next, top, nodes.len(), &[], &[], &mut out)?;
        next = top + 1;
    }
    Ok(out)
}

/// The declarations by number, in a file of so many nodes.
fn firsts_of(
    alloc: Global,
    names: &Vec<Named>,
    numbers: &Numbers,
    total: usize,
) -> Result<Firsts, NoMemory>
    ensures declarations { IfOk result (λ r. r.declarations.items ≡ map (numbered (number numbers.now.of.items) total) names.now.items) }
    ensures first { IfOk result (λ r. IsFlags r.declarations.items r.first.items) }
{
    let declarations = number_all(alloc, names, &numbers.of, total)?;
    let first = first_in_block(alloc, &declarations)?;
    Ok(Firsts {
        declarations,
        first,
    })
}

/// What the name of each node denotes within a function.
fn answers_of(
    alloc: Global,
    firsts: &Firsts,
    numbers: &Numbers,
) -> Result<Vec<Option<usize>>, NoMemory>
    requires laid { IsLaid firsts.now.declarations.items }
    requires flags { IsFlags firsts.now.declarations.items firsts.now.first.items }
    requires names { HasNames firsts.now.declarations.items numbers.now.count }
    requires below { (k : ℕ) → number numbers.now.of.items k < numbers.now.count }
    ensures { IfOk result (λ answers. AreAnsweredBy firsts.now.declarations.items numbers.now.of.items answers.items) }
{
    let all = all_uses(alloc, &numbers.of)?;
    let answers = denoted(
        alloc,
        &firsts.declarations,
        &firsts.first,
        &all,
        numbers.count,
    )?;
    Ok(answers)
}

/// Which nodes are uses, if they are names.
fn uses_of(
    alloc: Global,
    tree: &FileTree,
    names: &Vec<Named>,
    numbers: &Numbers,
    firsts: &Firsts,
) -> Result<Vec<bool>, NoMemory>
    requires size { length names.now.items ≤ length firsts.now.first.items }
    ensures { IfOk result (λ flags. AreFlagged tree.now.nodes names.now.items numbers.now.of.items numbers.now.count firsts.now.first.items flags.items) }
{
    let keys = statement_keys(alloc, names, &numbers.of, numbers.count)?;
    let once = first_in_block(alloc, &keys)?;
    let mut uses = plain_names(alloc, tree)?;
    mark_assigned(names, &firsts.first, &once, &mut uses);
    Ok(uses)
}

/// What the names of a file declare, and denote within its functions.
pub fn read_locals(alloc: Global, bytes: &[u8], tree: &FileTree) -> Result<Locals, NoMemory>
    requires spelled { Spelled tree.now.tokens bytes.now tree.now }
    requires fit { length tree.now.nodes ≤ 2 ^ 32 }
    ensures { IfOk result (λ locals. (f : Forest) → arena_of tree.now.tokens f ≡ tree.now → AreLocals bytes.now tree.now f locals) }
{
    let numbers = number_names(alloc, bytes, tree)?;
    let names = declared_names(alloc, tree)?;
    let firsts = firsts_of(alloc, &names, &numbers, count_nodes(tree))?;
    let answers = answers_of(alloc, &firsts, &numbers)?;
    let uses = uses_of(alloc, tree, &names, &numbers, &firsts)?;
    Ok(Locals {
        names,
        uses,
        answers,
    })
}

/// The nodes of trees in one list show the trees, and each stands behind its parts.
pub fn nodes_show_trees()
    ensures { (f : Forest) → Shows (flat 0 f) 0 (roots 0 f) f × IsFormed (flat 0 f) }
{}
