//! What is told of the files of a tree, by readers side by side.
ghost use Rattle.std.specs.Prelude.{◌≡◌, ◌≤◌, ◌<◌, List, All, length, IfOk};
ghost use Rattle.gv_base.specs.Files.{Entry};
ghost use Rattle.tree_report.specs.Limits.{limited_sizes};
ghost use Rattle.tree_report.specs.Keeping.{IsHeard};
ghost use Rattle.tree_report.specs.Telling.{AreTold};
ghost use Rattle.tree_report.specs.Readings.{AreReadings, AreToldFrom, IsToldAt, MayTell};

use crate::heard::Heard;
use crate::parsed::Parsed;
use crate::read::{Told, told_in};
use crate::readings::{Reading, Readings, readings_of};
use go_tree::Head;
use gv_base::{Files, NoMemory};
use parse_file::FileVerdict;
use std::alloc::Global;
use std::thread::Threads;
use wave_run::{Step, Ticket, all_done};

/// For how many bytes that are to be parsed there is one reader more.
const BYTES_EACH: u64 = 1 << 16;

/// What all readers share.
#[derive(Drop)]
struct Telling<'a> {
    alloc: Global,
    files: &'a Files,
    heard: &'a Heard,
}

impl<'a> Step<u8, Reading, Told> for Telling<'a> {
    ghost lawful = { λ s number job. (job.file ≡ number) × MayTell s.files.now s.heard.now number };

    ghost spent = { λ s job costs. Unit {0} };

    ghost right = { λ s job costs told. IsToldAt s.files.now job.file told };

    ghost can = { λ jobs reader. Unit {0} };

    ghost count = { λ i reader. 0 };

    ghost rest = { λ reader. 0 };

    fn step(&self, worker: &mut u8, ticket: Ticket, job: &Reading) -> Result<Told, NoMemory> {
        let _spent = ticket;
        let _reader = worker;
        let told = told_in(self.alloc, self.files, self.heard, job)?;
        Ok(told)
    }
}

/// The readers: one at least, and no more than so many workers, nor than there is to do.
fn readers_of(alloc: Global, workers: usize, fresh: u64) -> Result<Vec<u8>, NoMemory>
    ensures { IfOk result (λ readers. 0 < length readers.items) }
{
    let mut readers = Vec::new(alloc);
    readers.push(0u8)?;
    for more in 1..workers {
        if fresh / BYTES_EACH < more as u64 {
            return Ok(readers);
        }
        readers.push(0u8)?;
    }
    Ok(readers)
}

/// What is told of each file, in order.
fn each_told<R: Threads + Sync>(
    rt: &R,
    alloc: Global,
    workers: usize,
    files: &Files,
    heard: &Heard,
    readings: &Readings,
) -> Result<Vec<Told>, NoMemory>
    requires small { All (λ size. size ≤ 4194304) (limited_sizes files.now) }
    requires kept { IsHeard heard.now }
    requires jobs { AreReadings (length files.now) readings.now.list.items }
    ensures { IfOk result (λ told. AreToldFrom files.now 0 told.items) }
{
    let telling = Telling {
        alloc,
        files,
        heard,
    };
    let mut readers = readers_of(alloc, workers, readings.fresh)?;
    let told = all_done(rt, alloc, &telling, readers.as_mut_slice(), &readings.list)?;
    Ok(told)
}

/// The heads and the refusals of what was told; the trees go behind the others.
fn parts_told(
    alloc: Global,
    told: Vec<Told>,
    parsed: &mut Parsed,
) -> Result<(Vec<Option<Head>>, Vec<Option<FileVerdict>>), NoMemory>
    ensures { IfOk result (λ parts. (tree : List Entry) → AreToldFrom tree 0 told.items → AreTold tree (length tree) parts.0.items parts.1.items) }
{
    let mut heads = Vec::new(alloc);
    let mut refusals = Vec::new(alloc);
    for one in told {
        heads.push(one.head)?;
        refusals.push(one.refusal)?;
        parsed.keep(one.tree)?;
    }
    Ok((heads, refusals))
}

/// The heads of all files, and why files are refused; what was told of a file that is the same serves again. The trees that were made
/// go behind the others.
pub fn told_all<R: Threads + Sync>(
    rt: &R,
    alloc: Global,
    workers: usize,
    files: &Files,
    heard: &Heard,
    parsed: &mut Parsed,
) -> Result<(Vec<Option<Head>>, Vec<Option<FileVerdict>>), NoMemory>
    requires small { All (λ size. size ≤ 4194304) (limited_sizes files.now) }
    requires kept { IsHeard heard.now }
    ensures { IfOk result (λ told. AreTold files.now (length files.now) told.0.items told.1.items) }
{
    let readings = readings_of(alloc, files, heard, parsed.room)?;
    let told = each_told(rt, alloc, workers, files, heard, &readings)?;
    let parts = parts_told(alloc, told, parsed)?;
    Ok(parts)
}
