//! Small trees: the reply and the work of a run, twice.
ghost use Rattle.analysis_core.specs.declared.command.Command.TheVariants.{Check};
ghost use Rattle.report_text.specs.ReplyStanding.{ReplyStands};
ghost use Rattle.tree_report.specs.Keeping.{IsHeard};

use crate::told::{add, said};
use action_graph::Unloaded;
use analysis_core::{Command, Options, Reply};
use bundles::bytes_of;
use fact_cache::Cache;
use go_kit::GoKit;
use gv_base::{Files, NoMemory};
use report_text::text;
use std::alloc::Global;
use std::thread::Threads;
use tree_report::{Heard, nothing_heard, report_on};

/// Puts a file of one of eight paths.
fn put(files: &mut Files, path: &str, bytes: &[u8]) -> Result<(), NoMemory> {
    match path {
        "a.go" => files.put("a.go", bytes),
        "a/a.go" => files.put("a/a.go", bytes),
        "b.go" => files.put("b.go", bytes),
        "b/b.go" => files.put("b/b.go", bytes),
        "b/c.go" => files.put("b/c.go", bytes),
        "c/c.go" => files.put("c/c.go", bytes),
        "go.mod" => files.put("go.mod", bytes),
        "std/b/b.go" => files.put("std/b/b.go", bytes),
        _ => Ok(()),
    }
}

/// The tree of `PATH TEXT | ..`.
fn tree_of(alloc: Global, input: &str) -> Result<Files, NoMemory> {
    let mut files = Files::new(alloc);
    for part in input.split(" | ") {
        let (path, text) = part.split_once(" ").unwrap_or((part, ""));
        let bytes = bytes_of(alloc, text)?;
        put(&mut files, path, &bytes)?;
    }
    Ok(files)
}

/// What a reply to a check says.
fn reply_says(alloc: Global, files: &Files, reply: &Reply) -> Result<Vec<u8>, NoMemory>
    requires { ReplyStands files.now Check reply.now }
{
    let lines = text(alloc, reply, files, Command::Check)?;
    let mut out = lines.as_slice().to_vec(alloc)?;
    let text = format!(in alloc; "found {}, {:?}; ", reply.is_found(), reply.counts)?;
    add(&mut out, text.as_str())?;
    Ok(out)
}

/// A check runs no analyzer.
const CHECK: Options = Options {
    command: Command::Check,
    only: 0,
};

/// What is told of a tree, by a new kit.
fn told<R: Threads + Sync>(
    rt: &R,
    alloc: Global,
    files: &Files,
    heard: &mut Heard,
    cache: &mut Cache,
) -> Result<Vec<u8>, NoMemory>
    requires { IsHeard heard.old }
    ensures { IsHeard heard.new }
{
    let mut kits = [GoKit::new(alloc)];
    match report_on(rt, alloc, files, CHECK, heard, cache, &mut kits) {
        Ok(reply) => reply_says(alloc, files, &reply),
        Err(Unloaded::NoMemory) => Err(NoMemory),
        Err(Unloaded::Stuck) => said(alloc, "circle"),
    }
}

/// What is told of a tree twice, with one cache and what was read the first time.
fn told_twice<R: Threads + Sync>(
    rt: &R,
    alloc: Global,
    files: &Files,
) -> Result<Vec<u8>, NoMemory> {
    let mut cache = Cache::new(alloc);
    let mut heard = nothing_heard(alloc);
    let mut out = told(rt, alloc, files, &mut heard, &mut cache)?;
    let second = told(rt, alloc, files, &mut heard, &mut cache)?;
    out.extend_from_slice(&second)?;
    Ok(out)
}

/// The answer to the input of a case of this file.
pub fn answer<R: Threads + Sync>(rt: &R, alloc: Global, input: &str) -> Result<Vec<u8>, NoMemory> {
    let files = tree_of(alloc, input)?;
    told_twice(rt, alloc, &files)
}
