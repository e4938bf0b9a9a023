//! A program for tests: what `serde_json` reads of the JSON of replies. It prints a line for each reply; with a word it prints
//! the replies' JSON instead, for other readers.
#![tactic(auto)]

mod reading;
mod rows;

use analysis_core::Command;
use gv_base::{Files, NoMemory};
use reading::difference;
use report_text::{json, reply_stands};
use rows::{
    ANALYZERS, CHARACTERS, EACH_KIND, PACKAGES, Said, all_bytes, byte_rows, one_file, reply_of,
};
use std::env;
use std::process::ExitCode;

/// Prints the JSON of the reply that says these, or what `serde_json` reads of it.
fn show(
    rt: &HostRuntime,
    as_json: bool,
    files: &Files,
    name: &str,
    rows: &[Said<'_>],
) -> Result<(), NoMemory> {
    let alloc = rt.alloc();
    let reply = reply_of(alloc, rows)?;
    if !reply_stands(files, Command::Report, &reply) {
        let _printed = println!(rt; "{name}: a place doesn't stand in the file");
        return Ok(());
    }
    let bytes = json(alloc, &reply, files)?;
    let Ok(line) = std::str::from_utf8(bytes.as_slice()) else {
        let _printed = println!(rt; "{name}: it isn't UTF-8");
        return Ok(());
    };
    if as_json {
        let _printed = print!(rt; "{line}");
        return Ok(());
    }
    let how = difference(alloc, line, rows)?;
    if how.is_empty() {
        let count = rows.len();
        let _printed = println!(rt; "{name}: {count} read as they are said");
    } else {
        let _printed = println!(rt; "{name}: {how}");
    }
    Ok(())
}

fn show_all(rt: &HostRuntime, as_json: bool) -> Result<(), NoMemory> {
    let alloc = rt.alloc();
    let files = one_file(alloc)?;
    show(rt, as_json, &files, "nothing", &[])?;
    show(rt, as_json, &files, "each kind of line", &EACH_KIND)?;
    show(rt, as_json, &files, "characters", &CHARACTERS)?;
    show(rt, as_json, &files, "analyzers", &ANALYZERS)?;
    show(rt, as_json, &files, "packages", &PACKAGES)?;
    let bytes = all_bytes(alloc)?;
    let rows = byte_rows(alloc, &bytes)?;
    show(rt, as_json, &files, "each byte", &rows)?;
    Ok(())
}

/// Whether a word stands behind the program's name.
fn has_word(rt: &HostRuntime) -> bool {
    match env::args(rt) {
        Ok(mut words) => {
            let _program = words.next();
            words.next().is_some()
        }
        Err(_) => false,
    }
}

fn main(rt: HostRuntime) -> ExitCode {
    let as_json = has_word(&rt);
    match show_all(&rt, as_json) {
        Ok(()) => ExitCode::from(0),
        Err(_) => ExitCode::from(7),
    }
}
