//! A run.
ghost use Rattle.std.specs.Prelude.{◌≡◌, ◌≤◌, ◌<◌, ◌+◌, ◌^◌, ℕ, All, Some, Err, IfOk, length, slice_get, sum_by};
ghost use Rattle.gv_base.specs.Paths.{IsPath};
ghost use Rattle.folder.specs.Folders.{AreAtPaths};
ghost use Rattle.tree_report.specs.Tallies.{AreGrown};
ghost use Rattle.tree_runs.specs.Reports.{HasCircle, HasText, IsHeard, IsHonest, IsSafe, Reports, Spends, SpendsAtMost, work};

use crate::printing::printed;
use crate::report::{Task, TreeReport};
use analysis_core::Options;
use fact_cache::{Cache, each_cache_has_a_text};
use gv_base::Files;
use std::alloc::Global;
use std::thread::Threads;
use tree_report::{Heard, Kit, Unloaded, one_report_of_a_tree, report_on};

/// Runs over a tree as it is asked, with the kits side by side, and with what the cache has; what was executed is kept.
/// What was read for the last run serves where a file is the same.
pub fn run<W: Kit + Send, R: Threads + Sync>(
    rt: &R,
    alloc: Global,
    files: &Files,
    task: Task,
    heard: &mut Heard,
    cache: &mut Cache,
    kits: &mut [W],
) -> Result<TreeReport, Unloaded>
where
    W::Loaded: Send,
    requires some { 0 < length kits.old }
    requires loads { (k : ℕ) (kit : W) → slice_get kits.old k ≡ Some kit → W.loads kit ≤ 2 ^ 62 }
    requires runs { (k : ℕ) (kit : W) → slice_get kits.old k ≡ Some kit → W.runs kit ≤ 2 ^ 62 }
    requires paths { AreAtPaths files.now }
    requires heard { IsHeard heard.old }
    ensures heard { IsHeard heard.new }
    ensures least { AreGrown W.loads W.runs kits.old kits.new }
    ensures bound { sum_by W.loads kits.new + sum_by W.runs kits.new ≤ sum_by W.loads kits.old + sum_by W.runs kits.old + 16384 }
    ensures paths { IfOk result (λ report. All (λ changed. IsPath changed.path) report.changed) }
    ensures text { IfOk result (λ report. HasText cache.new) }
    ensures safe { IfOk result (IsSafe files.now task cache.old cache.new (work (sum_by W.loads kits.old) (sum_by W.runs kits.old)) (work (sum_by W.loads kits.new) (sum_by W.runs kits.new))) }
    ensures report { IsHonest cache.old → IfOk result (λ report. Reports files.now task cache.old cache.new report) }
    ensures exact { IsHonest cache.old → IfOk result (λ report. Spends (work (sum_by W.loads kits.old) (sum_by W.runs kits.old)) (work (sum_by W.loads kits.new) (sum_by W.runs kits.new)) report) }
    ensures most { IsHonest cache.old → SpendsAtMost files.now task cache.old (work (sum_by W.loads kits.old) (sum_by W.runs kits.old)) (work (sum_by W.loads kits.new) (sum_by W.runs kits.new)) }
    ensures circle { IsHonest cache.old → result ≡ Err Unloaded.Stuck → HasCircle files.now }
{
    one_report_of_a_tree();
    let options = Options {
        command: task.command,
        only: task.only,
    };
    let reply = report_on(rt, alloc, files, options, heard, cache, kits)?;
    let text = printed(alloc, files, task.form, task.command, &reply)?;
    each_cache_has_a_text(cache);
    let found = reply.is_found();
    Ok(TreeReport {
        text,
        found,
        counts: reply.counts,
        changed: reply.changed,
    })
}
