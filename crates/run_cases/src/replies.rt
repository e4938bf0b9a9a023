//! Replies as text and as JSON, and the numbers of a run.
use crate::reply_items::{items_of, reply_of};
use crate::told::{number, said, unread};
use analysis_core::{Command, Counts, Reply};
use gv_base::{Files, NoMemory};
use report_text::{json, reply_stands, stats, text};
use std::alloc::Global;

/// The files in which places stand.
fn three_files(alloc: Global) -> Result<Files, NoMemory> {
    let mut files = Files::new(alloc);
    files.put("a.go", b"package a\n\nfunc g() {\n\tx = x\n\ty = y\n}\n")?;
    files.put("b.go", b"package b\n")?;
    files.put("c.go", b"package a\n\nconst A = B + 1\nconst B = A\n")?;
    Ok(files)
}

/// The bytes of a reply to a command.
fn printed(
    alloc: Global,
    files: &Files,
    reply: &Reply,
    asked: Command,
) -> Result<Vec<u8>, NoMemory> {
    if !reply_stands(files, asked, reply) {
        return said(alloc, "PLACES ELSEWHERE");
    }
    let bytes = text(alloc, reply, files, asked)?;
    let bytes = bytes.as_slice().to_vec(alloc)?;
    Ok(bytes)
}

/// The reply as JSON.
fn as_json(alloc: Global, files: &Files, reply: &Reply) -> Result<Vec<u8>, NoMemory> {
    if !reply_stands(files, Command::Report, reply) {
        return said(alloc, "PLACES ELSEWHERE");
    }
    let bytes = json(alloc, reply, files)?;
    let bytes = bytes.as_slice().to_vec(alloc)?;
    Ok(bytes)
}

/// Whether the reply has found something.
fn is_found(alloc: Global, reply: &Reply) -> Result<Vec<u8>, NoMemory> {
    said(alloc, if reply.is_found() { "found" } else { "nothing" })
}

/// `NODES MISSING LOADS RUNS`: the line of a run's numbers.
fn numbers(alloc: Global, input: &str) -> Result<Vec<u8>, NoMemory> {
    let mut words = input.split(' ');
    let counts = Counts {
        nodes: number(words.next().unwrap_or("")),
        missing: number(words.next().unwrap_or("")),
        loads: number(words.next().unwrap_or("")),
        runs: number(words.next().unwrap_or("")),
    };
    let bytes = stats(alloc, &counts)?;
    let bytes = bytes.as_slice().to_vec(alloc)?;
    Ok(bytes)
}

/// The reply of the items, as this file asks for it.
fn replied(alloc: Global, name: &str, input: &str) -> Result<Vec<u8>, NoMemory> {
    let files = three_files(alloc)?;
    let items = items_of(alloc, input)?;
    let reply = reply_of(alloc, items);
    match name {
        "check" => printed(alloc, &files, &reply, Command::Check),
        "facts" => printed(alloc, &files, &reply, Command::Facts),
        "fix" => printed(alloc, &files, &reply, Command::Fix),
        "found" => is_found(alloc, &reply),
        "json" => as_json(alloc, &files, &reply),
        "report" => printed(alloc, &files, &reply, Command::Report),
        _ => unread(alloc),
    }
}

/// The answer to the input of a case of this file.
pub fn answer(alloc: Global, name: &str, input: &str) -> Result<Vec<u8>, NoMemory> {
    if name == "numbers" {
        return numbers(alloc, input);
    }
    replied(alloc, name, input)
}
