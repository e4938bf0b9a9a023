//! Which nodes can be done next.
ghost use Rattle.std.specs.Prelude.{◌≡◌, ◌<◌, ◌^◌, ◌↔◌, IsTrue, IfOk, length, true};
ghost use Rattle.action_graph.specs.Work.{has_facts, IsAnalyzer, IsChosen, IsNumbered};
ghost use Rattle.action_graph.specs.Flags.{AreDone, IsLoadMarked, IsRunMarked, IsMarkedAt};
ghost use Rattle.action_graph.specs.Ready.{AreReady};

use crate::done::{are_done, are_set, done_table, is_set};
use crate::work::{ActionNode, PackageLine, node_at};
use gv_base::{NoMemory, Row};
use std::alloc::Global;

/// Whether the analyzer gives facts: ctrlflow and printf.
fn gives_facts(analyzer: u8) -> bool
    ensures { result ≡ has_facts analyzer }
{
    if analyzer == 4 {
        return true;
    }
    analyzer == 6
}

fn is_chosen(only: u16, analyzer: u8) -> bool
    requires { analyzer < 16 }
    ensures { IsTrue result ↔ IsChosen only analyzer }
{
    (only >> analyzer as u16) % 2 == 1
}

/// Whether the analyzer runs over such a package: over a stub those with facts alone do.
fn suits(line: &PackageLine, analyzer: u8) -> bool
    ensures { IsTrue result ↔ (line.now.stub ≡ true → has_facts analyzer ≡ true) }
{
    if !line.stub {
        return true;
    }
    gives_facts(analyzer)
}

fn is_load_ready(
    flags: &[bool],
    accepted: &[bool],
    line: &PackageLine,
    env: &[u32],
    package_number: u32,
) -> bool
    ensures { IsTrue result ↔ IsLoadMarked flags.now accepted.now line.now env.now package_number }
{
    if !line.sound {
        return false;
    }
    if is_set(flags, package_number as usize * 16) {
        return false;
    }
    if !are_set(accepted, line.imports.as_slice()) {
        return false;
    }
    are_done(flags, 0, env)
}

/// Whether what a run with facts reads is done.
fn are_facts_there(flags: &[bool], env: &[u32], analyzer: u8) -> bool
    ensures { IsTrue result ↔ (has_facts analyzer ≡ true → AreDone flags.now analyzer env.now) }
{
    if !gives_facts(analyzer) {
        return true;
    }
    are_done(flags, analyzer, env)
}

fn is_run_ready(
    flags: &[bool],
    accepted: &[bool],
    line: &PackageLine,
    env: &[u32],
    only: u16,
    analyzer: u8,
    package_number: u32,
) -> bool
    requires { IsAnalyzer analyzer }
    ensures { IsTrue result ↔ IsRunMarked flags.now accepted.now line.now env.now only analyzer package_number }
{
    if !is_chosen(only, analyzer) {
        return false;
    }
    if !suits(line, analyzer) {
        return false;
    }
    if !is_set(accepted, package_number as usize) {
        return false;
    }
    if is_set(flags, package_number as usize * 16 + analyzer as usize) {
        return false;
    }
    if !is_set(flags, package_number as usize * 16) {
        return false;
    }
    are_facts_there(flags, env, analyzer)
}

fn is_ready(
    flags: &[bool],
    accepted: &[bool],
    line: &PackageLine,
    env: &[u32],
    only: u16,
    node: ActionNode,
) -> bool
    requires { IsNumbered node }
    ensures { IsTrue result ↔ IsMarkedAt flags.now accepted.now line.now env.now only node }
{
    match node {
        ActionNode::Load(package_number) => {
            is_load_ready(flags, accepted, line, env, package_number)
        }
        ActionNode::Run(analyzer, package_number) => {
            is_run_ready(flags, accepted, line, env, only, analyzer, package_number)
        }
    }
}

/// The nodes that aren't done and whose prerequisites are, in node order: by package, its load first, then
/// by analyzer. `accepted` says of each package whether its load is done and accepted; `env` has the numbers
/// of the packages of its environment. `only` has the bit of each analyzer that is chosen.
pub fn ready(
    alloc: Global,
    done: &[ActionNode],
    accepted: &[bool],
    packages: &[PackageLine],
    env: &[Row<u32>],
    only: u16,
) -> Result<Vec<ActionNode>, NoMemory>
    requires few { length packages.now < 2 ^ 32 }
    requires accepted { length accepted.now ≡ length packages.now }
    requires env { length env.now ≡ length packages.now }
    ensures { IfOk result (λ nodes. AreReady done.now accepted.now packages.now env.now only nodes.items) }
{
    let places = packages.len() * 16;
    let flags = done_table(alloc, done, places)?;
    let mut nodes = Vec::new(alloc);
    for at in 0..places {
        let node = node_at(at);
        let line = &packages[at / 16];
        let row = env[at / 16].as_slice();
        if is_ready(&flags, accepted, line, row, only, node) {
            nodes.push(node)?;
        }
    }
    Ok(nodes)
}
