//! Runs the cases in the files that lie where it runs, a line each, and prints a line for each file: how many cases it has, and how
//! many of them are answered as they say. Each that isn't has a line before it.
#![tactic(auto)]

mod loads;
mod replies;
mod reply_items;
mod told;
mod trees;
mod work;

use anyhow::{Result, bail};
use bundles::{cases, is_answered, names};
use gv_base::NoMemory;
use std::fs;
use std::thread::Threads;

/// What the product answers to the input of a case, by its folder and file.
fn answer<R: Threads + Sync + AllocGlobal>(
    rt: &R,
    folder: &str,
    name: &str,
    input: &str,
) -> Result<Vec<u8>, NoMemory> {
    let alloc = rt.alloc();
    match folder {
        "loads" => loads::answer(alloc, name, input),
        "replies" => replies::answer(alloc, name, input),
        "trees" => trees::answer(rt, alloc, input),
        "work" => work::answer(alloc, name, input),
        _ => told::unread(alloc),
    }
}

/// Runs the cases of a file.
fn run_file<R: Threads + Sync + AllocGlobal>(
    host: &HostRuntime,
    rt: &R,
    folder: &str,
    name: &str,
) -> Result<()> {
    let path = format!(in rt.alloc(); "{folder}/{name}")?;
    let bytes = fs::read(host, path.as_str())?;
    let text = std::str::from_utf8(bytes.as_slice())?;
    let mut count = 0usize;
    let mut met = 0usize;
    for case in cases(rt.alloc(), text)?.as_slice() {
        let Ok(answer) = answer(rt, folder, name, case.input) else {
            bail!("no memory");
        };
        count = count.saturating_add(1);
        if is_answered(host, path.as_str(), case, &answer)? {
            met = met.saturating_add(1);
        }
    }
    println!(host; "{path}: cases {count}, answered as expected {met}")?;
    Ok(())
}

fn main(rt: HostRuntime) -> Result<()> {
    for folder in names(&rt, ".")?.as_slice() {
        for name in names(&rt, folder.as_str())?.as_slice() {
            run_file(&rt, &rt, folder.as_str(), name.as_str())?;
        }
    }
    Ok(())
}
