//! The error lines of all packages.
ghost use Rattle.std.specs.Prelude.{◌≡◌, ◌<◌, ◌^◌, ◌++◌, length, IfOk, OnOk};
ghost use Rattle.import_graph.specs.Packages.{paths_of};
ghost use Rattle.import_graph.specs.Tables.{AreAscending};
ghost use Rattle.tree_report.specs.Lines.{state_lines, error_lines};

use crate::lines::{push_all_missing, push_broken, push_clashes, push_cycle};
use crate::outcomes::push_outcome;
use analysis_core::ErrorLine;
use go_tree::Head;
use gv_base::{NoMemory, Text};
use gv_driver::Verdict;
use import_graph::{PackState, Package};
use parse_file::FileVerdict;
use std::alloc::Global;

/// What the lines of a run are made of.
#[derive(Drop)]
pub struct Found<'a> {
    pub heads: &'a [Option<Head>],
    pub verdicts: &'a [Option<FileVerdict>],
    pub packages: &'a [Package],
    pub outcomes: &'a [Verdict],
    /// The paths of the packages.
    pub paths: &'a [Text],
}

/// Adds the lines of a package, by its state.
fn push_state(
    alloc: Global,
    lines: &mut Vec<ErrorLine>,
    found: &Found<'_>,
    pack: &Package,
    outcome: &Verdict,
) -> Result<(), NoMemory>
    requires paths { found.now.paths.now ≡ paths_of found.now.packages.now }
    requires order { AreAscending found.now.paths.now }
    requires few { length found.now.paths.now < 2 ^ 32 }
    ensures { OnOk result (lines.new.items ≡ lines.old.items ++ state_lines found.now.heads.now found.now.verdicts.now found.now.packages.now found.now.outcomes.now pack.now outcome.now pack.now.state) }
{
    let path = pack.path.as_str();
    let files = pack.files.as_slice();
    match &pack.state {
        PackState::Broken => push_broken(alloc, lines, path, found.verdicts, files),
        PackState::NameClash(places) => push_clashes(alloc, lines, path, places.as_slice()),
        PackState::MissingImport(_) => {
            push_all_missing(alloc, lines, found.heads, found.paths, path, files)
        }
        PackState::ImportCycle => push_cycle(alloc, lines, path),
        PackState::Sound => push_outcome(
            alloc,
            lines,
            found.packages,
            found.outcomes,
            pack,
            outcome,
        ),
    }
}

/// The error lines of a tree.
pub fn error_lines(alloc: Global, found: &Found<'_>) -> Result<Vec<ErrorLine>, NoMemory>
    requires paths { found.now.paths.now ≡ paths_of found.now.packages.now }
    requires order { AreAscending found.now.paths.now }
    requires few { length found.now.paths.now < 2 ^ 32 }
    requires outcomes { length found.now.outcomes.now ≡ length found.now.packages.now }
    ensures { IfOk result (λ lines. lines.items ≡ error_lines found.now.heads.now found.now.verdicts.now found.now.packages.now found.now.outcomes.now) }
{
    let mut lines = Vec::new(alloc);
    for k in 0..found.packages.len() {
        push_state(
            alloc,
            &mut lines,
            found,
            &found.packages[k],
            &found.outcomes[k],
        )?;
    }
    Ok(lines)
}
