//! The reply of a run over the packages of a tree.
ghost use Rattle.std.specs.Prelude.{◌≡◌, ◌<◌, ◌^◌, [], length, All, IfOk};
ghost use Rattle.tree_findings.specs.Lines.{all_lines};
ghost use Rattle.tree_findings.specs.Mending.{FoundFits};
ghost use Rattle.fact_lines.specs.Lines.{all_facts};
ghost use Rattle.tree_findings.specs.Telling.{chosen_by, facts_reply, reply_with, IsTold, TellsFacts, TellsFixes, TellsFound};

use crate::lines::found_lines;
use crate::mending::{Mended, mend};
use analysis_core::{Command, Counts, Diagnostic, ErrorLine, FactLine, FoundLine, Options, Reply};
use fact_lines::all_facts;
use gv_base::{Bytes, Files, NoMemory, Row};
use import_graph::Package;
use std::alloc::Global;

/// The bits of the analyzers that have facts: the fourth and the sixth.
const WITH_FACTS: u16 = 80;

/// The analyzers that run, of those that are chosen.
pub fn chosen_by(options: Options) -> u16
    ensures { result ≡ chosen_by options.command options.only }
{
    match options.command {
        Command::Check => 0,
        Command::Report => options.only,
        Command::Facts => options.only & WITH_FACTS,
        Command::Fix => options.only,
    }
}

/// What a run gives of the packages of a tree.
#[derive(Drop)]
pub struct Results<'a> {
    pub packages: &'a [Package],
    /// The diagnostics of each, with its files counted from 0.
    pub found: &'a [Row<Diagnostic>],
    /// The facts of each, by analyzer: its number, and their text.
    pub facts: &'a [Row<(u8, Bytes)>],
    pub counts: Counts,
}

/// The reply to a report.
fn report_reply(
    alloc: Global,
    packages: u32,
    errors: Row<ErrorLine>,
    found: Vec<FoundLine>,
    counts: Counts,
) -> Reply
    ensures { result ≡ reply_with packages errors found.items [] [] counts }
{
    Reply {
        limit: None,
        packages,
        errors,
        diagnostics: Row::new(found),
        facts: Row::new(Vec::new(alloc)),
        choices: Row::new(Vec::new(alloc)),
        changed: Row::new(Vec::new(alloc)),
        counts,
    }
}

/// The reply to a fix.
fn fix_reply(
    alloc: Global,
    packages: u32,
    errors: Row<ErrorLine>,
    found: Vec<FoundLine>,
    mended: Mended,
    counts: Counts,
) -> Reply
    ensures { result ≡ reply_with packages errors found.items mended.choices mended.changed counts }
{
    Reply {
        limit: None,
        packages,
        errors,
        diagnostics: Row::new(found),
        facts: Row::new(Vec::new(alloc)),
        choices: mended.choices,
        changed: mended.changed,
        counts,
    }
}

/// The reply to `facts`.
fn facts_reply(
    alloc: Global,
    packages: u32,
    errors: Row<ErrorLine>,
    facts: Vec<FactLine>,
    counts: Counts,
) -> Reply
    ensures { result ≡ facts_reply packages errors facts.items counts }
{
    Reply {
        limit: None,
        packages,
        errors,
        diagnostics: Row::new(Vec::new(alloc)),
        facts: Row::new(facts),
        choices: Row::new(Vec::new(alloc)),
        changed: Row::new(Vec::new(alloc)),
        counts,
    }
}

fn report(
    alloc: Global,
    packages: u32,
    results: &Results<'_>,
    errors: Row<ErrorLine>,
) -> Result<Reply, NoMemory>
    requires { length results.now.found.now ≡ length results.now.packages.now }
    ensures told { IfOk result (TellsFound (all_lines results.now.packages.now results.now.found.now)) }
    ensures size { IfOk result (λ r. r.packages ≡ packages) }
    ensures errors { IfOk result (λ r. r.errors ≡ errors) }
    ensures counts { IfOk result (λ r. r.counts ≡ results.now.counts) }
{
    let found = found_lines(alloc, results.packages, results.found)?;
    Ok(report_reply(alloc, packages, errors, found, results.counts))
}

fn facts(
    alloc: Global,
    packages: u32,
    results: &Results<'_>,
    errors: Row<ErrorLine>,
) -> Result<Reply, NoMemory>
    requires { length results.now.facts.now ≡ length results.now.packages.now }
    ensures told { IfOk result (TellsFacts (all_facts results.now.packages.now results.now.facts.now)) }
    ensures size { IfOk result (λ r. r.packages ≡ packages) }
    ensures errors { IfOk result (λ r. r.errors ≡ errors) }
    ensures counts { IfOk result (λ r. r.counts ≡ results.now.counts) }
{
    let facts = all_facts(alloc, results.packages, results.facts)?;
    Ok(facts_reply(alloc, packages, errors, facts, results.counts))
}

fn fix(
    alloc: Global,
    files: &Files,
    packages: u32,
    results: &Results<'_>,
    errors: Row<ErrorLine>,
) -> Result<Reply, NoMemory>
    requires size { length results.now.found.now ≡ length results.now.packages.now }
    requires fit { All (FoundFits files.now) (all_lines results.now.packages.now results.now.found.now) }
    ensures told { IfOk result (TellsFixes files.now (all_lines results.now.packages.now results.now.found.now)) }
    ensures size { IfOk result (λ r. r.packages ≡ packages) }
    ensures errors { IfOk result (λ r. r.errors ≡ errors) }
    ensures counts { IfOk result (λ r. r.counts ≡ results.now.counts) }
{
    let found = found_lines(alloc, results.packages, results.found)?;
    let mended = mend(alloc, files, &found)?;
    Ok(fix_reply(alloc, packages, errors, found, mended, results.counts))
}

/// The reply of a run, with these error lines.
pub fn reply_to(
    alloc: Global,
    asked: Command,
    files: &Files,
    results: &Results<'_>,
    errors: Row<ErrorLine>,
) -> Result<Reply, NoMemory>
    requires few { length results.now.packages.now < 2 ^ 32 }
    requires size { length results.now.found.now ≡ length results.now.packages.now }
    requires facts { length results.now.facts.now ≡ length results.now.packages.now }
    requires fit { All (FoundFits files.now) (all_lines results.now.packages.now results.now.found.now) }
    ensures told { IfOk result (IsTold asked files.now (all_lines results.now.packages.now results.now.found.now) (all_facts results.now.packages.now results.now.facts.now)) }
    ensures size { IfOk result (λ r. r.packages ≡ length results.now.packages.now) }
    ensures errors { IfOk result (λ r. r.errors ≡ errors) }
    ensures counts { IfOk result (λ r. r.counts ≡ results.now.counts) }
{
    let packages = results.packages.len() as u32;
    match asked {
        Command::Check => Ok(Reply::of_check(alloc, packages, errors, results.counts)),
        Command::Report => {
            let reply = report(alloc, packages, results, errors)?;
            Ok(reply)
        }
        Command::Facts => {
            let reply = facts(alloc, packages, results, errors)?;
            Ok(reply)
        }
        Command::Fix => {
            let reply = fix(alloc, files, packages, results, errors)?;
            Ok(reply)
        }
    }
}
