//! A tree in the tool's session.
ghost use Rattle.std.specs.Prelude.{◌≡◌, IfOk, length, sum_by};

use crate::trees::SourceFile;
use anyhow::{Result, bail};
use go_kit::{GoKit, new_kits};
use gv_base::{MemSink, SureKeeper, SureSource, SureTree};
use std::alloc::Global;
use std::fmt::Write;
use std::random::RandomSource;
use std::thread::Threads;
use top_calls::gvet::gvet;

/// The script that puts the files and then gives the command.
pub fn script_of(alloc: Global, files: &[SourceFile<'_>], command: &str) -> Result<String> {
    let mut script = String::new(alloc);
    for file in files {
        writeln!(script, "put {} {}", file.path, file.text.len())?;
        writeln!(script, "{}", file.text)?;
    }
    writeln!(script, "{command}")?;
    Ok(script)
}

/// As many kits as a call asks for.
fn crew(alloc: Global) -> Result<Vec<GoKit>>
    ensures size { IfOk result (λ v. length v.items ≡ 64) }
    ensures loads { IfOk result (λ v. sum_by (λ k. k.loads) v.items ≡ 0) }
    ensures runs { IfOk result (λ v. sum_by (λ k. k.runs) v.items ≡ 0) }
{
    match new_kits(alloc, 64) {
        Ok(kits) => Ok(kits),
        Err(_) => bail!("no memory"),
    }
}

/// What a session replies to the script, with its status.
pub fn reply<R: Threads + Sync + RandomSource>(
    threads: &R,
    alloc: Global,
    script: &str,
) -> Result<(u8, String)> {
    let mut words = Vec::new(alloc);
    words.push(String::from_str(alloc, "session")?)?;
    let mut tree = SureTree::new(alloc);
    let mut keeper = SureKeeper::new(alloc, None);
    let mut input = SureSource::new(script.as_bytes().to_vec(alloc)?);
    let mut output = MemSink::new(Vec::new(alloc), Vec::new(alloc), Vec::new(alloc));
    let mut kits = crew(alloc)?;
    let status = gvet(
        threads,
        alloc,
        words.as_slice(),
        &mut tree,
        &mut keeper,
        &mut input,
        &mut output,
        kits.as_mut_slice(),
    );
    match std::str::from_utf8(output.bytes()) {
        Ok(text) => Ok((status, String::from_str(alloc, text)?)),
        Err(_) => bail!("a reply that isn't text"),
    }
}
