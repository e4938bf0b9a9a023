//! The reply to a tree.
ghost use Rattle.std.specs.Prelude.{◌≡◌, ◌<◌, ◌≤◌, ◌+◌, ◌^◌, ℕ, All, true, [], Some, Err, length, slice_get, sum_by, IfOk, OnErr};
ghost use Rattle.analysis_core.specs.declared.command.Command.{Command as Asked};
ghost use Rattle.fact_cache.specs.Caches.{is_within};
ghost use Rattle.import_graph.specs.Packages.{paths_of};
ghost use Rattle.report_text.specs.ReplyStanding.{ReplyStands};
ghost use Rattle.import_graph.specs.Tables.{AreAscending};
ghost use Rattle.gv_driver.specs.Tallies.{AreGrown, tally};
ghost use Rattle.tree_findings.specs.Lines.{all_lines};
ghost use Rattle.tree_findings.specs.Mending.{FoundFits};
ghost use Rattle.tree_report.specs.Formed.{Holds, IsReplyOf};
ghost use Rattle.tree_report.specs.Keeping.{IsHeard};
ghost use Rattle.tree_report.specs.Limits.{IsFirstLimit};
ghost use Rattle.tree_report.specs.Reports.{AreFilesOf, HasCircle, IsHonest, IsSafe, IsStopped, MetCircle, Reports, ReportsLimit, ReportsPackages, TellsPackages, limit_reply};

use crate::formed::{Formed, Known, heard_of, known_of};
use crate::heard::Heard;
use crate::parsed::{Parsed, all_trees, nothing_parsed};
use crate::states::{Found, error_lines};
use crate::texts::{all_texts, shared_files};
use analysis_core::{Command, Counts, Options, Reply, TreeLimit};
use fact_cache::Cache;
use gv_base::{Files, NoMemory, Row, Text, files_are_in_order};
use gv_driver::{Judgement, Kit, Unloaded};
use import_graph::Package;
use std::alloc::Global;
use std::thread::Threads;
use tree_findings::{Results, chosen_by, reply_to};

/// The numbers of a run without nodes.
const NO_COUNTS: Counts = Counts {
    nodes: 0,
    missing: 0,
    loads: 0,
    runs: 0,
};

/// The paths of the packages.
fn paths_of(alloc: Global, packages: &[Package]) -> Result<Vec<Text>, NoMemory>
    ensures { IfOk result (λ paths. paths.items ≡ paths_of packages.now) }
{
    let mut paths = Vec::new(alloc);
    for pack in packages {
        let path = pack.path.copy(alloc)?;
        paths.push(path)?;
    }
    Ok(paths)
}

/// The reply of a run over the packages of a tree, as it is asked.
fn reply_of(
    alloc: Global,
    files: &Files,
    asked: Command,
    formed: &Formed,
    ran: &Judgement,
) -> Result<Reply, NoMemory>
    requires order { AreAscending (paths_of formed.now.packages.items) }
    requires few { length formed.now.packages.items ≤ 1024 }
    requires size { length ran.now.verdicts ≡ length formed.now.packages.items }
    requires found { length ran.now.found ≡ length formed.now.packages.items }
    requires facts { length ran.now.facts ≡ length formed.now.packages.items }
    requires fit { All (FoundFits files.now) (all_lines formed.now.packages.items ran.now.found) }
    ensures { IfOk result (λ reply. IsReplyOf files.now asked formed.now ran.now reply) }
{
    let outcomes = ran.verdicts.as_slice();
    let paths = paths_of(alloc, &formed.packages)?;
    let errors = error_lines(
        alloc,
        &Found {
            heads: &formed.heads,
            verdicts: &formed.refusals,
            packages: &formed.packages,
            outcomes,
            paths: &paths,
        },
    )?;
    let found = ran.found.as_slice();
    let results = Results {
        packages: &formed.packages,
        found,
        facts: ran.facts.as_slice(),
        counts: ran.counts,
    };
    let reply = reply_to(alloc, asked, files, &results, Row::new(errors))?;
    Ok(reply)
}

/// The reply of a run over a tree that is over a limit.
fn limit_reply(alloc: Global, limit: TreeLimit) -> Reply
    ensures { result ≡ limit_reply limit }
{
    Reply {
        limit: Some(limit),
        packages: 0,
        errors: Row::new(Vec::new(alloc)),
        diagnostics: Row::new(Vec::new(alloc)),
        facts: Row::new(Vec::new(alloc)),
        choices: Row::new(Vec::new(alloc)),
        changed: Row::new(Vec::new(alloc)),
        counts: NO_COUNTS,
    }
}

/// The reply to a tree that is over this limit first.
fn reply_over(alloc: Global, files: &Files, limit: TreeLimit) -> Reply
    requires { IsFirstLimit files.now limit }
    ensures limit { ReportsLimit files.now result }
    ensures stands { (asked : Asked) → ReplyStands files.now asked result }
    ensures changed { result.changed ≡ [] }
{
    limit_reply(alloc, limit)
}

/// The reply to a tree within the limits.
fn report_formed<K: Kit + Send, R: Threads + Sync>(
    rt: &R,
    alloc: Global,
    files: &Files,
    options: Options,
    formed: &Formed,
    parsed: Parsed,
    cache: &mut Cache,
    kits: &mut [K],
) -> Result<Reply, Unloaded>
where
    K::Loaded: Send,
    requires form { Holds files.now formed.now }
    requires some { 0 < length kits.old }
    requires loads { (k : ℕ) (kit : K) → slice_get kits.old k ≡ Some kit → K.loads kit ≤ 2 ^ 62 }
    requires runs { (k : ℕ) (kit : K) → slice_get kits.old k ≡ Some kit → K.runs kit ≤ 2 ^ 62 }
    ensures least { AreGrown K.loads K.runs kits.old kits.new }
    ensures bound { sum_by K.loads kits.new + sum_by K.runs kits.new ≤ sum_by K.loads kits.old + sum_by K.runs kits.old + 16384 }
    ensures changed { IfOk result (λ reply. AreFilesOf files.now reply.changed) }
    ensures stands { IfOk result (ReplyStands files.now options.command) }
    ensures safe { IfOk result (TellsPackages options.command files.now) }
    ensures told { IsHonest cache.old → IfOk result (ReportsPackages options.command options.only files.now cache.old cache.new) }
    ensures cut_off { IsHonest cache.old → OnErr result (IsStopped options.command options.only files.now cache.old cache.new (tally (sum_by K.loads kits.old) (sum_by K.runs kits.old)) (tally (sum_by K.loads kits.new) (sum_by K.runs kits.new))) }
    ensures loads { IsHonest cache.old → IfOk result (λ reply. sum_by K.loads kits.new ≡ sum_by K.loads kits.old + reply.counts.loads) }
    ensures runs { IsHonest cache.old → IfOk result (λ reply. sum_by K.runs kits.new ≡ sum_by K.runs kits.old + reply.counts.runs) }
    ensures circle { result ≡ Err Unloaded.Stuck → MetCircle files.now cache.old }
    ensures stuck { IsHonest cache.old → result ≡ Err Unloaded.Stuck → HasCircle files.now }
    ensures honest { IsHonest cache.old → IsHonest cache.new }
    ensures within { is_within cache.old ≡ true → is_within cache.new ≡ true }
{
    files_are_in_order(files);
    let tree = all_texts(alloc, files, &formed.packages)?;
    let trees = all_trees(alloc, parsed, formed.packages.as_slice())?;
    let ran = gv_driver::run(rt, alloc, &tree, &trees, chosen_by(options), cache, kits)?;
    let reply = reply_of(alloc, files, options.command, formed, &ran)?;
    Ok(reply)
}

/// Reports on a tree as it is asked, with the kits side by side, and with what the cache has; what was executed is kept. Of a tree over a limit the first one is told, and
/// nothing is looked up, executed or kept. Every tree is taken. Over any cache each place of the reply stands in one of the files, and each file that is changed is one of them.
/// Where a package is stuck, since its rules go in a circle or what is seen of it can't be told, nothing is told of the tree. After that, as after want of memory, no more
/// was executed than was missing or needed, and the cache has gained entries of what was missing alone. A cache within its limits stays there.
/// What was read for the last report serves where a file is the same, and what was read for this one is left for the next.
pub fn report_on<K: Kit + Send, R: Threads + Sync>(
    rt: &R,
    alloc: Global,
    files: &Files,
    options: Options,
    heard: &mut Heard,
    cache: &mut Cache,
    kits: &mut [K],
) -> Result<Reply, Unloaded>
where
    K::Loaded: Send,
    requires kept { IsHeard heard.old }
    requires some { 0 < length kits.old }
    requires loads { (k : ℕ) (kit : K) → slice_get kits.old k ≡ Some kit → K.loads kit ≤ 2 ^ 62 }
    requires runs { (k : ℕ) (kit : K) → slice_get kits.old k ≡ Some kit → K.runs kit ≤ 2 ^ 62 }
    ensures kept { IsHeard heard.new }
    ensures least { AreGrown K.loads K.runs kits.old kits.new }
    ensures bound { sum_by K.loads kits.new + sum_by K.runs kits.new ≤ sum_by K.loads kits.old + sum_by K.runs kits.old + 16384 }
    ensures changed { IfOk result (λ reply. AreFilesOf files.now reply.changed) }
    ensures stands { IfOk result (ReplyStands files.now options.command) }
    ensures safe { IfOk result (IsSafe options.command files.now cache.old cache.new (tally (sum_by K.loads kits.old) (sum_by K.runs kits.old)) (tally (sum_by K.loads kits.new) (sum_by K.runs kits.new))) }
    ensures told { IsHonest cache.old → IfOk result (Reports options.command options.only files.now cache.old cache.new) }
    ensures cut_off { IsHonest cache.old → OnErr result (IsStopped options.command options.only files.now cache.old cache.new (tally (sum_by K.loads kits.old) (sum_by K.runs kits.old)) (tally (sum_by K.loads kits.new) (sum_by K.runs kits.new))) }
    ensures loads { IsHonest cache.old → IfOk result (λ reply. sum_by K.loads kits.new ≡ sum_by K.loads kits.old + reply.counts.loads) }
    ensures runs { IsHonest cache.old → IfOk result (λ reply. sum_by K.runs kits.new ≡ sum_by K.runs kits.old + reply.counts.runs) }
    ensures circle { result ≡ Err Unloaded.Stuck → MetCircle files.now cache.old }
    ensures stuck { IsHonest cache.old → result ≡ Err Unloaded.Stuck → HasCircle files.now }
    ensures honest { IsHonest cache.old → IsHonest cache.new }
    ensures within { is_within cache.old ≡ true → is_within cache.new ≡ true }
{
    let mut parsed = nothing_parsed(alloc, heard, cache);
    let known = known_of(rt, alloc, kits.len(), files, heard, &mut parsed)?;
    match known {
        Known::Over(limit) => Ok(reply_over(alloc, files, limit)),
        Known::Of(formed) => {
            let shared = shared_files(alloc, files)?;
            let reply = report_formed(rt, alloc, files, options, &formed, parsed, cache, kits)?;
            *heard = heard_of(shared, formed);
            Ok(reply)
        }
    }
}
