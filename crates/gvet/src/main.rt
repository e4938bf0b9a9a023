//! The program: gvet over the current folder, standard input and standard output.
#![tactic(auto)]

ghost use Rattle.std.specs.Prelude.{◌≡◌, ◌≢◌, ◌⊎◌, IfOk, length, map, string_bytes, sum_by};
ghost use Rattle.std.specs.Process.{exit_status};
ghost use Rattle.words.specs.Grammar.{Asks};
ghost use Rattle.words.specs.declared.asked.Words.{Words};

use disk::{DirTree, FileKeeper, SystemDisk};
use go_kit::{GoKit, new_kits};
use gv_base::NoMemory;
use std::alloc::Global;
use std::io::{Input, Print};
use std::process::ExitCode;
use std::random::RandomSource;
use std::thread::Threads;
use std::{env, io};
use top_calls::adapters::{StdSink, StdSource};
use top_calls::gvet::gvet;
use top_calls::stop::{NO_MEMORY, USAGE, status_name};

/// The words of the call, without the program's name; or the status that there is without them.
fn words_of(rt: &HostRuntime) -> Result<Vec<String>, u8> {
    let mut words = match env::args(rt) {
        Ok(words) => words,
        Err(error) => {
            return Err(match error.kind() {
                io::ErrorKind::OutOfMemory => NO_MEMORY,
                _ => USAGE,
            });
        }
    };
    let _program = words.next();
    match words.collect(rt.alloc()) {
        Ok(words) => Ok(words),
        Err(_) => Err(NO_MEMORY),
    }
}

/// The name of the current folder.
const HERE: &str = ".";

/// A disk with the files of the current folder.
type Here = SystemDisk<HostRuntime>;

/// How many kits a call has: one for each worker that its words may ask for.
const KITS: u32 = 64;

/// The tree of the current folder, the keeper in it, and kits that have done nothing.
fn devices(
    rt: HostRuntime,
    alloc: Global,
) -> Result<(DirTree<Here>, FileKeeper<Here>, Vec<GoKit>), NoMemory>
    ensures size { IfOk result (λ d. length d.2.items ≡ 64) }
    ensures loads { IfOk result (λ d. sum_by (λ k. k.loads) d.2.items ≡ 0) }
    ensures runs { IfOk result (λ d. sum_by (λ k. k.runs) d.2.items ≡ 0) }
{
    let top = String::from_str(alloc, HERE)?;
    let tree = DirTree::new(alloc, SystemDisk::new(rt, top));
    let top = String::from_str(alloc, HERE)?;
    let keeper = FileKeeper::new(alloc, SystemDisk::new(rt, top));
    let kits = new_kits(alloc, KITS)?;
    Ok((tree, keeper, kits))
}

/// Calls the tool over the real devices. Where memory is wanting for these, nothing is read.
fn call<R: Threads + Sync + RandomSource + Input + Print>(
    host: HostRuntime,
    rt: &R,
    alloc: Global,
    words: &[String],
) -> u8
    ensures usage { ((call : Words) → Asks (map string_bytes words.now) call → ⊥) → (result ≡ 2) ⊎ (result ≡ 7) }
    ensures only_usage { (call : Words) → Asks (map string_bytes words.now) call → result ≢ 2 }
{
    match devices(host, alloc) {
        Err(_) => NO_MEMORY,
        Ok((tree, keeper, kits)) => {
            let mut tree = tree;
            let mut keeper = keeper;
            let mut input = StdSource::new(rt.reader());
            let mut output = StdSink::new(io::writer(rt));
            let mut kits = kits;
            gvet(
                rt,
                alloc,
                words,
                &mut tree,
                &mut keeper,
                &mut input,
                &mut output,
                kits.as_mut_slice(),
            )
        }
    }
}

/// Prints the name of a status on standard error, where it has one, and ends with its number.
fn end(rt: &HostRuntime, status: u8) -> ExitCode
    ensures { exit_status result ≡ status }
{
    let name = status_name(status);
    if !name.is_empty() {
        let _printed = eprintln!(rt; "{name}");
    }
    ExitCode::from(status)
}

fn main(rt: HostRuntime) -> ExitCode {
    let status = match words_of(&rt) {
        Ok(words) => call(rt, &rt, rt.alloc(), &words),
        Err(status) => status,
    };
    end(&rt, status)
}
