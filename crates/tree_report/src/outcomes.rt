//! The error lines of packages that are sound.
ghost use Rattle.std.specs.Prelude.{◌≡◌, ◌++◌, [], map, flat_map, get_or, IfOk, OnOk};
ghost use Rattle.import_graph.specs.Packages.{paths_of};
ghost use Rattle.gv_driver.specs.declared.reply.Verdict.TheVariants.{Faulty};
ghost use Rattle.tree_report.specs.Lines.{is_accepted, blocked_lines_at, blocked_lines, mark_line, outcome_lines};

use crate::lines::{joined, push_at, push_whole};
use crate::marks::mark_text;
use analysis_core::ErrorLine;
use gv_base::{NoMemory, Place};
use gv_driver::{MarkLine, Verdict};
use import_graph::Package;
use std::alloc::Global;

fn is_accepted(outcome: &Verdict) -> bool
    ensures { result ≡ is_accepted outcome.now }
{
    matches!(outcome, Verdict::Accepted)
}

/// Whether the package of this number is accepted.
fn is_accepted_at(outcomes: &[Verdict], q: u32) -> bool
    ensures { result ≡ is_accepted (get_or outcomes.now q Faulty) }
{
    if q as usize >= outcomes.len() {
        return false;
    }
    is_accepted(&outcomes[q as usize])
}

/// The path of the package of this number.
fn path_at(packages: &[Package], q: u32) -> &[u8]
    ensures { result.now ≡ get_or (paths_of packages.now) q [] }
{
    if q as usize >= packages.len() {
        return &[];
    }
    packages[q as usize].path.as_str().as_bytes()
}

/// Adds the line of an import that isn't accepted.
fn push_blocker(
    alloc: Global,
    lines: &mut Vec<ErrorLine>,
    packages: &[Package],
    outcomes: &[Verdict],
    path: &str,
    q: u32,
) -> Result<(), NoMemory>
    ensures { OnOk result (lines.new.items ≡ lines.old.items ++ blocked_lines_at packages.now outcomes.now path.now q) }
{
    if is_accepted_at(outcomes, q) {
        return Ok(());
    }
    let text = joined(alloc, b"blocked by ", path_at(packages, q), b"")?;
    push_whole(alloc, lines, path, &text)
}

/// Adds the lines of a package that is blocked.
fn push_blocked(
    alloc: Global,
    lines: &mut Vec<ErrorLine>,
    packages: &[Package],
    outcomes: &[Verdict],
    path: &str,
    imports: &[u32],
) -> Result<(), NoMemory>
    ensures { OnOk result (lines.new.items ≡ lines.old.items ++ blocked_lines packages.now outcomes.now path.now imports.now) }
{
    for q in imports {
        push_blocker(alloc, lines, packages, outcomes, path, *q)?;
    }
    Ok(())
}

/// The number of a package's file, 0 where it has no such file.
fn file_at(files: &[u32], n: u32) -> u32
    ensures { result ≡ get_or files.now n 0 }
{
    if n as usize >= files.len() {
        return 0;
    }
    files[n as usize]
}

/// Adds the lines of marks.
fn push_marks(
    alloc: Global,
    lines: &mut Vec<ErrorLine>,
    path: &str,
    files: &[u32],
    marks: &[MarkLine],
) -> Result<(), NoMemory>
    ensures { OnOk result (lines.new.items ≡ lines.old.items ++ map (mark_line path.now files.now) marks.now) }
{
    for mark in marks {
        let at = Place {
            file: file_at(files, mark.at.file),
            offset: mark.at.offset,
        };
        push_at(alloc, lines, path, at, mark_text(mark.limit, mark.number))?;
    }
    Ok(())
}

/// Adds the lines of a sound package, by what came of it.
pub fn push_outcome(
    alloc: Global,
    lines: &mut Vec<ErrorLine>,
    packages: &[Package],
    outcomes: &[Verdict],
    pack: &Package,
    outcome: &Verdict,
) -> Result<(), NoMemory>
    ensures { OnOk result (lines.new.items ≡ lines.old.items ++ outcome_lines packages.now outcomes.now pack.now outcome.now) }
{
    let path = pack.path.as_str();
    match outcome {
        Verdict::Faulty => Ok(()),
        Verdict::Blocked => {
            let imports = pack.imports.as_slice();
            push_blocked(alloc, lines, packages, outcomes, path, imports)
        }
        Verdict::Refused(marks) => {
            let files = pack.files.as_slice();
            push_marks(alloc, lines, path, files, marks.as_slice())
        }
        Verdict::Accepted => Ok(()),
    }
}
