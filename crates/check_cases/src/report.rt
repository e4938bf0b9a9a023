//! A tree and what is printed of it.
use crate::comparison::{are_met, meets};
use crate::expected::{Expected, expected_in};
use crate::found::{Found, found_in};
use crate::session::{reply, script_of};
use crate::trees::SourceFile;
use anyhow::Result;
use bundles::shown;
use std::random::RandomSource;
use std::thread::Threads;

/// The folder of files in which no error is expected.
const ACCEPTED: &str = "accepted";

fn folder_of(path: &str) -> &str {
    match path.rsplit_once("/") {
        Some((folder, _name)) => folder,
        None => "",
    }
}

/// How many folders the files stand in; those of a folder follow each other.
fn folders(files: &[SourceFile<'_>]) -> usize {
    let mut count = 0usize;
    let mut last = "";
    for file in files {
        let folder = folder_of(file.path);
        if folder != last {
            count = count.saturating_add(1);
        }
        last = folder;
    }
    count
}

fn is_found(wanted: &Expected<'_>, errors: &[Found<'_>]) -> bool {
    for error in errors {
        if meets(wanted, error) {
            return true;
        }
    }
    false
}

fn is_expected(error: &Found<'_>, wanted: &[Expected<'_>]) -> bool {
    for one in wanted {
        if meets(one, error) {
            return true;
        }
    }
    false
}

/// Prints the errors that are expected and not found.
fn print_missing(
    rt: &HostRuntime,
    name: &str,
    wanted: &[Expected<'_>],
    errors: &[Found<'_>],
) -> Result<()> {
    for one in wanted {
        if is_found(one, errors) {
            continue;
        }
        let text = shown(one.text);
        match one.column {
            Some(column) => println!(rt;
                "{name}: {} line {} column {column}: `{text}` is expected and isn't found",
                one.path, one.line
            )?,
            None => println!(rt;
                "{name}: {} line {}: `{text}` is expected and isn't found",
                one.path, one.line
            )?,
        }
    }
    Ok(())
}

/// Prints the errors that are found and not expected.
fn print_more(
    rt: &HostRuntime,
    name: &str,
    wanted: &[Expected<'_>],
    errors: &[Found<'_>],
) -> Result<()> {
    for error in errors {
        if is_expected(error, wanted) {
            continue;
        }
        let text = shown(error.text);
        println!(rt;
            "{name}: {} line {} column {}: `{text}` is found and isn't expected",
            error.path, error.line, error.column
        )?;
    }
    Ok(())
}

/// Prints that the errors are as expected, or what differs.
fn print_errors(
    rt: &HostRuntime,
    name: &str,
    wanted: &[Expected<'_>],
    errors: &[Found<'_>],
) -> Result<()> {
    if are_met(wanted, errors) {
        println!(rt; "{name}: as expected, errors {}", wanted.len())?;
        return Ok(());
    }
    println!(rt;
        "{name}: expected errors {}, found {}",
        wanted.len(),
        errors.len()
    )?;
    print_missing(rt, name, wanted, errors)?;
    print_more(rt, name, wanted, errors)
}

/// Whether the reply's last line and the status are those of a check with so many errors. Where they aren't, prints
/// what differs.
fn ends_well(
    rt: &HostRuntime,
    name: &str,
    packages: usize,
    errors: usize,
    last: &str,
    status: u8,
) -> Result<bool> {
    let line = format!(in rt.alloc(); "packages {packages}, errors {errors}")?;
    let due = if errors > 0 { 1u8 } else { 0 };
    if last == line.as_str() && status == due {
        return Ok(true);
    }
    println!(rt;
        "{name}: the reply ends with `{last}` and status {status}, expected `{line}` and {due}"
    )?;
    Ok(false)
}

/// Checks a tree, and prints that its errors are as expected, or what differs.
pub fn run_tree<R: Threads + Sync + RandomSource>(
    rt: &HostRuntime,
    threads: &R,
    name: &str,
    group: &str,
    files: &[SourceFile<'_>],
) -> Result<()> {
    let wanted = expected_in(rt.alloc(), files)?;
    if group == ACCEPTED && wanted.len() > 0 {
        println!(rt; "{name}: stands among accepted files and expects errors")?;
    }
    let script = script_of(rt.alloc(), files, "check")?;
    let (status, text) = reply(threads, rt.alloc(), script.as_str())?;
    let (errors, last) = found_in(rt.alloc(), text.as_str())?;
    if ends_well(rt, name, folders(files), errors.len(), last, status)? {
        print_errors(rt, name, wanted.as_slice(), errors.as_slice())?;
    }
    Ok(())
}
