//! The state of a package.
ghost use Rattle.std.specs.Prelude.{◌≡◌, ◌<◌, ◌^◌, length, IsTrue, IfOk};
ghost use Rattle.import_graph.specs.Packages.{IsStateOf};
ghost use Rattle.import_graph.specs.Tables.{AreAscending};

use crate::fault::{clashes, is_broken, missing};
use crate::pack::PackState;
use go_tree::Head;
use gv_base::{NoMemory, Row, Text};
use std::alloc::Global;

/// The state of a package of these files, where `cyclic` says whether it reaches itself.
pub fn state_of(
    alloc: Global,
    heads: &[Option<Head>],
    names: &[Text],
    files: &[u32],
    cyclic: bool,
) -> Result<PackState, NoMemory>
    requires order { AreAscending names.now }
    requires few { length names.now < 2 ^ 32 }
    ensures { IfOk result (IsStateOf (IsTrue cyclic) heads.now names.now files.now) }
{
    if is_broken(heads, files) {
        return Ok(PackState::Broken);
    }
    let clashing = clashes(alloc, heads, files)?;
    if clashing.len() > 0 {
        return Ok(PackState::NameClash(Row::new(clashing)));
    }
    let lost = missing(alloc, heads, names, files)?;
    if lost.len() > 0 {
        return Ok(PackState::MissingImport(Row::new(lost)));
    }
    if cyclic {
        return Ok(PackState::ImportCycle);
    }
    Ok(PackState::Sound)
}
