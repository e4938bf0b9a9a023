//! The state of a session, and what a command does to it.
ghost use Rattle.std.specs.Prelude.{◌≡◌, ◌≢◌, ◌≤◌, ◌<◌, ◌+◌, ◌^◌, All, false, Err, IfOk, OnOk, [], List, Option, length, sum_by, ℕ};
ghost use Rattle.analysis_core.specs.Replies.{stats_text};
ghost use Rattle.folder.specs.Folders.{AreAtPaths, put_all};
ghost use Rattle.gv_base.specs.Paths.{IsPath};
ghost use Rattle.top_calls.specs.Deeds.{act, deed_of, form_of, run, show_text, task_of};
ghost use Rattle.top_calls.specs.Desk.{IsReady, IsStuckRun, Serves, Tries, standing_of};
ghost use Rattle.top_calls.specs.Workers.{DidAtMost};
ghost use Rattle.tree_runs.specs.Reports.{Work, work};
ghost use Rattle.tree_runs.specs.Tallies.{AreGrown};

use crate::options::ToolOptions;
use crate::shown::show;
use analysis_core::{ChangedFile, Command as Kind, Counts};
use fact_cache::Cache;
use gv_base::{Bytes, Files, NoMemory};
use report_text::stats;
use scripts::{Command, Fields, Word};
use std::alloc::Global;
use std::thread::Threads;
use tree_runs::{Form, Heard, Kit, Task, Unloaded, nothing_heard, run};

/// What is answered to a command.
#[derive(Drop)]
pub struct Answer {
    pub reply: Bytes,
    /// It was a run, after which the cache is kept.
    pub ran: bool,
}

/// The files so far, what the last run found and how much work it was, and what earlier loads and runs of analyzers gave.
#[derive(Drop)]
pub struct Desk {
    pub files: Files,
    pub found: bool,
    pub cache: Cache,
    pub counts: Counts,
    /// What was read for the last run.
    pub heard: Heard,
}

/// The numbers before any run.
const NO_COUNTS: Counts = Counts {
    nodes: 0,
    missing: 0,
    loads: 0,
    runs: 0,
};

/// A path as a text.
fn path_text(path: &[u8]) -> &str
    requires { IsPath path.now }
    ensures { result.now ≡ path.now }
{
    match std::str::from_utf8(path) {
        Ok(text) => text,
        Err(_) => unreachable!(),
    }
}

/// The form of replies.
fn form_of(options: &ToolOptions) -> Form
    ensures { result ≡ form_of options.now }
{
    if options.brief {
        Form::Last
    } else {
        if options.json { Form::Json } else { Form::Text }
    }
}

/// What is asked of a run.
pub(crate) fn task_of(options: &ToolOptions, command: Kind) -> Task
    ensures { result ≡ task_of options.now command }
{
    Task {
        command,
        only: options.only,
        form: form_of(options),
    }
}

/// Sets files, one after the other.
fn put_changed(files: &mut Files, changed: &[ChangedFile]) -> Result<(), NoMemory>
    requires { All (λ f. IsPath f.path) changed.now }
    ensures put { OnOk result (files.new ≡ put_all files.old changed.now) }
    ensures paths { AreAtPaths files.old → AreAtPaths files.new }
{
    for file in changed {
        files.put(file.path.as_str(), file.bytes.as_slice())?;
    }
    Ok(())
}

/// An answer that says nothing.
fn silence(alloc: Global) -> Answer
    ensures reply { result.reply ≡ [] }
    ensures ran { result.ran ≡ false }
{
    Answer {
        reply: Bytes::new(Vec::new(alloc)),
        ran: false,
    }
}

/// An answer of a command that is no run.
fn told(reply: Bytes) -> Answer
    ensures reply { result.reply ≡ reply }
    ensures ran { result.ran ≡ false }
{
    Answer { reply, ran: false }
}

impl Desk {
    ghost use Rattle.gv_base.specs.Files.{del_file, put_file};
    ghost use Rattle.scripts.specs.Next.{command_of, fields_of};
    ghost use Rattle.scripts.specs.Script.{IsLawful};
    ghost use Rattle.top_calls.specs.Standing.{start_at};
    ghost use Rattle.top_calls.specs.declared.options.ToolOptions.{ToolOptions as Choice};
    ghost use Rattle.tree_runs.specs.Reports.{HasCircle, IsHonest};

    /// An empty tree, and this cache.
    pub fn new(alloc: Global, cache: Cache) -> Self
        ensures standing { (kept : Option (List ℕ)) → standing_of result 0 0 kept ≡ start_at [] cache kept }
        ensures ready { IsReady result }
    {
        Desk {
            files: Files::new(alloc),
            found: false,
            cache,
            counts: NO_COUNTS,
            heard: nothing_heard(alloc),
        }
    }

    /// Sets a file.
    fn put(&mut self, alloc: Global, path: &[u8], bytes: &[u8]) -> Result<Answer, NoMemory>
        requires { IsPath path.now }
        ensures serves { (options : Choice) (kits : Work) → IfOk result (λ answer. Serves options (act (λ s. put_file s.tree path.now bytes.now) (λ s. [])) self.old self.new kits kits answer) }
        ensures ready { IsReady self.old → IsReady self.new }
    {
        self.files.put(path_text(path), bytes)?;
        Ok(silence(alloc))
    }

    /// Removes a file.
    fn del(&mut self, alloc: Global, path: &[u8]) -> Answer
        requires { IsPath path.now }
        ensures serves { (options : Choice) (kits : Work) → Serves options (act (λ s. del_file s.tree path.now) (λ s. [])) self.old self.new kits kits result }
        ensures ready { IsReady self.old → IsReady self.new }
    {
        let _held = self.files.del(path_text(path));
        silence(alloc)
    }

    /// Tells a file.
    fn show(&self, alloc: Global, path: &[u8]) -> Result<Answer, NoMemory>
        requires { IsPath path.now }
        ensures serves { (options : Choice) (kits : Work) → IfOk result (λ answer. Serves options (act (λ s. s.tree) (λ s. show_text s.tree path.now)) self.now self.now kits kits answer) }
    {
        let reply = show(alloc, &self.files, path_text(path))?;
        Ok(told(reply))
    }

    /// Tells the numbers of the last run.
    fn stats(&self, alloc: Global) -> Result<Answer, NoMemory>
        ensures serves { (options : Choice) (kits : Work) → IfOk result (λ answer. Serves options (act (λ s. s.tree) (λ s. stats_text s.counts)) self.now self.now kits kits answer) }
    {
        let reply = stats(alloc, &self.counts)?;
        Ok(told(reply))
    }

    /// Runs over the tree as it is asked, and sets the files that this changes. The kits do at most 16,384 loads and runs of analyzers together.
    fn run<W: Kit + Send, R: Threads + Sync>(
        &mut self,
        rt: &R,
        alloc: Global,
        options: &ToolOptions,
        kind: Kind,
        kits: &mut [W],
    ) -> Result<Answer, Unloaded>
    where
        W::Loaded: Send,
        requires some { 0 < length kits.old }
        requires room { DidAtMost W.loads W.runs (2 ^ 62) kits.old }
        requires ready { IsReady self.old }
        ensures bound { sum_by W.loads kits.new + sum_by W.runs kits.new ≤ sum_by W.loads kits.old + sum_by W.runs kits.old + 16384 }
        ensures least { AreGrown W.loads W.runs kits.old kits.new }
        ensures size { length kits.new ≡ length kits.old }
        ensures ready { IsReady self.new }
        ensures serves { IfOk result (λ answer. Serves options.now (run kind) self.old self.new (work (sum_by W.loads kits.old) (sum_by W.runs kits.old)) (work (sum_by W.loads kits.new) (sum_by W.runs kits.new)) answer) }
        ensures tries { Tries options.now (run kind) self.old (work (sum_by W.loads kits.old) (sum_by W.runs kits.old)) (work (sum_by W.loads kits.new) (sum_by W.runs kits.new)) }
        ensures circle { IsHonest self.old.cache → result ≡ Err Unloaded.Stuck → HasCircle self.old.files }
    {
        let task = task_of(options, kind);
        let report = run(
            rt,
            alloc,
            &self.files,
            task,
            &mut self.heard,
            &mut self.cache,
            kits,
        )?;
        put_changed(&mut self.files, report.changed.as_slice())?;
        self.found = report.found;
        self.counts = report.counts;
        Ok(Answer {
            reply: report.text,
            ran: true,
        })
    }

    /// Carries a command out, and gives the answer to it.
    pub(crate) fn apply<W: Kit + Send, R: Threads + Sync>(
        &mut self,
        rt: &R,
        alloc: Global,
        options: &ToolOptions,
        command: Command<'_>,
        kits: &mut [W],
    ) -> Result<Answer, Unloaded>
    where
        W::Loaded: Send,
        requires lawful { IsLawful (command_of command) }
        requires goes { command.word ≢ Word.End }
        requires some { 0 < length kits.old }
        requires room { DidAtMost W.loads W.runs (2 ^ 62) kits.old }
        requires ready { IsReady self.old }
        ensures bound { sum_by W.loads kits.new + sum_by W.runs kits.new ≤ sum_by W.loads kits.old + sum_by W.runs kits.old + 16384 }
        ensures least { AreGrown W.loads W.runs kits.old kits.new }
        ensures size { length kits.new ≡ length kits.old }
        ensures ready { IsReady self.new }
        ensures serves { IfOk result (λ answer. Serves options.now (deed_of command.entry.word (fields_of command.entry.fields)) self.old self.new (work (sum_by W.loads kits.old) (sum_by W.runs kits.old)) (work (sum_by W.loads kits.new) (sum_by W.runs kits.new)) answer) }
        ensures tries { Tries options.now (deed_of command.entry.word (fields_of command.entry.fields)) self.old (work (sum_by W.loads kits.old) (sum_by W.runs kits.old)) (work (sum_by W.loads kits.new) (sum_by W.runs kits.new)) }
        ensures circle { IsHonest self.old.cache → result ≡ Err Unloaded.Stuck → IsStuckRun (deed_of command.entry.word (fields_of command.entry.fields)) self.old.files }
    {
        match command.word {
            Word::Put => match command.fields {
                Fields::With(path, bytes) => {
                    let answer = self.put(alloc, path, bytes)?;
                    Ok(answer)
                }
                Fields::Plain => unreachable!(),
                Fields::At(_) => unreachable!(),
            },
            Word::Del => match command.fields {
                Fields::At(path) => Ok(self.del(alloc, path)),
                Fields::Plain => unreachable!(),
                Fields::With(_, _) => unreachable!(),
            },
            Word::Show => match command.fields {
                Fields::At(path) => {
                    let answer = self.show(alloc, path)?;
                    Ok(answer)
                }
                Fields::Plain => unreachable!(),
                Fields::With(_, _) => unreachable!(),
            },
            Word::Check => self.run(rt, alloc, options, Kind::Check, kits),
            Word::Report => self.run(rt, alloc, options, Kind::Report, kits),
            Word::Facts => self.run(rt, alloc, options, Kind::Facts, kits),
            Word::Fix => self.run(rt, alloc, options, Kind::Fix, kits),
            Word::Stats => {
                let answer = self.stats(alloc)?;
                Ok(answer)
            }
            Word::End => unreachable!(),
        }
    }
}
