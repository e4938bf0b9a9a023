//! A tree and what is told of it.
use crate::session::{reply, script_of};
use crate::trees::SourceFile;
use anyhow::{Result, bail};
use std::random::RandomSource;
use std::thread::Threads;

/// The names of a bundle's last section, which isn't a file but the reply that is due to the command of that name, with the status of a session
/// that ends with it.
const COMMANDS: [(&str, u8); 2] = [("report", 1), ("facts", 0)];

/// The status that is due after a command.
fn status_after(command: &str) -> Option<u8> {
    for (name, status) in COMMANDS.iter() {
        if *name == command {
            return Some(*status);
        }
    }
    None
}

/// Prints that the reply and the status are as expected, or what they are.
fn print_reply(
    rt: &HostRuntime,
    name: &str,
    due: (u8, &str),
    status: u8,
    text: &str,
) -> Result<()> {
    let (wanted, reply) = due;
    let lines = reply.lines().count();
    if status == wanted && text.trim_end() == reply.trim_end() {
        println!(rt; "{name}: as expected, lines {lines}")?;
        return Ok(());
    }
    println!(rt; "{name}: expected lines {lines}, status {status}, and this was the reply")?;
    println!(rt; "{text}")?;
    Ok(())
}

/// Has a tree reported on, or its facts told, and prints that the reply is that of its last section, or the reply.
pub fn run_reported<R: Threads + Sync + RandomSource>(
    rt: &HostRuntime,
    threads: &R,
    name: &str,
    sections: &[SourceFile<'_>],
) -> Result<()> {
    let Some((due, files)) = sections.split_last() else {
        bail!("a bundle without a file");
    };
    let Some(wanted) = status_after(due.path) else {
        bail!("a bundle that doesn't end with a reply");
    };
    let script = script_of(rt.alloc(), files, due.path)?;
    let (status, text) = reply(threads, rt.alloc(), script.as_str())?;
    print_reply(rt, name, (wanted, due.text), status, text.as_str())
}
