//! The files of a tree as jobs: where what was told of each may stand, and which trees stay.
ghost use Rattle.std.specs.Prelude.{◌≡◌, length, IfOk};
ghost use Rattle.tree_report.specs.Readings.{AreReadings};

use crate::heard::{Heard, is_held, place_from};
use gv_base::{Files, NoMemory};
use import_graph::is_source;
use std::alloc::Global;

/// A file that is to be told: its number, the place where it may stand among those of the last report, and whether its tree stays.
#[derive(Drop)]
pub struct Reading {
    pub file: u32,
    pub at: usize,
    pub keeps: bool,
}

/// All files, in order, and how many bytes of them are to be parsed.
#[derive(Drop)]
pub struct Readings {
    pub list: Vec<Reading>,
    pub fresh: u64,
}

/// How many bytes are to be parsed, and of how many more the trees may stay.
#[derive(Drop)]
struct Budget {
    fresh: u64,
    room: usize,
}

impl Budget {
    /// Counts a file that is to be parsed, and tells whether there is room for its tree, which then becomes less.
    fn has_room(&mut self, size: usize) -> bool {
        self.fresh = self.fresh.wrapping_add(size as u64);
        if size > self.room {
            return false;
        }
        self.room -= size;
        true
    }
}

/// Whether a file is to be parsed.
fn is_fresh(heard: &Heard, at: usize, path: &str, text: &[u8]) -> bool {
    if !is_source(path.as_bytes()) {
        return false;
    }
    !is_held(heard, at, path, text)
}

/// The job of a file.
fn reading_of(
    heard: &Heard,
    budget: &mut Budget,
    file: u32,
    at: usize,
    path: &str,
    text: &[u8],
) -> Reading
    ensures { result.file ≡ file }
{
    if is_fresh(heard, at, path, text) {
        let keeps = budget.has_room(text.len());
        return Reading { file, at, keeps };
    }
    Reading {
        file,
        at,
        keeps: false,
    }
}

/// The jobs of all files. So many bytes of text may have trees that stay: those of the first files that are to be parsed.
pub fn readings_of(
    alloc: Global,
    files: &Files,
    heard: &Heard,
    room: usize,
) -> Result<Readings, NoMemory>
    ensures { IfOk result (λ readings. AreReadings (length files.now) readings.list.items) }
{
    let mut list = Vec::new(alloc);
    let mut budget = Budget { fresh: 0, room };
    let mut at = 0;
    for file in 0..files.count() {
        let (path, text) = files.at(file);
        at = place_from(&heard.files, at, path);
        let reading = reading_of(heard, &mut budget, file, at, path, text);
        list.push(reading)?;
    }
    Ok(Readings {
        list,
        fresh: budget.fresh,
    })
}
