//! What becomes of the fixes of a tree's diagnostics.
ghost use Rattle.std.specs.Prelude.{◌≡◌, ◌<◌, ◌++◌, ℕ, length, All, IfOk, OnOk};
ghost use Rattle.fix_apply.specs.Rewriting.{LieIn, AreApart};
ghost use Rattle.analysis_core.specs.Replies.{file_numbered};
ghost use Rattle.tree_findings.specs.Mending.{changed_by, fixes_of, fix_list, changes_from, edits_at, row_at, FixFits, FoundFits, Fits, IsMended};

use crate::gather::{gathered, row_of};
use crate::lines::edits_again;
use analysis_core::{ChangedFile, FoundLine};
use fix_apply::{Choice, Edit, Fix, choose, rewrite};
use gv_base::{Bytes, Files, NoMemory, Row, Text};
use std::alloc::Global;

/// What becomes of the fixes, and the files that the applied ones change, with their new bytes.
#[derive(Drop)]
pub struct Mended {
    pub choices: Row<Choice>,
    pub changed: Row<ChangedFile>,
}

fn fix_again(alloc: Global, fix: &Fix) -> Result<Fix, NoMemory>
    ensures { IfOk result (λ more. more ≡ fix.now) }
{
    let edits = edits_again(alloc, fix.edits.as_slice())?;
    Ok(Fix {
        file: fix.file,
        edits,
    })
}

/// Adds the fix, if there is one.
fn push_fix(alloc: Global, fixes: &mut Vec<Fix>, fix: &Option<Fix>) -> Result<(), NoMemory>
    ensures { OnOk result (fixes.new.items ≡ fixes.old.items ++ fix_list fix.now) }
{
    match fix {
        None => Ok(()),
        Some(fix) => {
            let more = fix_again(alloc, fix)?;
            fixes.push(more)?;
            Ok(())
        }
    }
}

/// The fixes of diagnostics, in their order.
fn fixes_of(alloc: Global, found: &[FoundLine]) -> Result<Vec<Fix>, NoMemory>
    ensures { IfOk result (λ fixes. fixes.items ≡ fixes_of found.now) }
{
    let mut fixes = Vec::new(alloc);
    for line in found {
        push_fix(alloc, &mut fixes, &line.diagnostic.fix)?;
    }
    Ok(fixes)
}

/// Adds the file that these edits make of a file, if there are edits.
fn push_changed(
    alloc: Global,
    changed: &mut Vec<ChangedFile>,
    path: &str,
    bytes: &[u8],
    edits: &[Edit],
) -> Result<(), NoMemory>
    requires lie { LieIn bytes.now edits.now }
    requires apart { AreApart edits.now }
    ensures { OnOk result (changed.new.items ≡ changed.old.items ++ changed_by (path.now, bytes.now) edits.now) }
{
    if edits.is_empty() {
        return Ok(());
    }
    let path = Text::of(alloc, path)?;
    let new = rewrite(alloc, bytes, edits)?;
    changed.push(ChangedFile {
        path,
        bytes: Bytes::new(new),
    })?;
    Ok(())
}

/// The files that these edits of each file change, by path.
fn changes(
    alloc: Global,
    files: &Files,
    edits: &Vec<Vec<Edit>>,
) -> Result<Vec<ChangedFile>, NoMemory>
    requires size { length edits.now.items ≡ length files.now }
    requires fit { (n : ℕ) → n < length files.now → Fits (file_numbered files.now n).1 (row_at edits.now.items n) }
    ensures { IfOk result (λ changed. changed.items ≡ changes_from (edits_at edits.now.items) 0 files.now) }
{
    let mut changed = Vec::new(alloc);
    for file in 0..files.count() {
        let (path, bytes) = files.at(file);
        let row = row_of(edits, file as usize);
        push_changed(alloc, &mut changed, path, bytes, row)?;
    }
    Ok(changed)
}

/// What becomes of the fixes of diagnostics, taken in their order: one is applied, whole, exactly where none of its edits overlaps an edit of an
/// earlier applied fix of its file; and what the applied ones make of the files.
pub fn mend(alloc: Global, files: &Files, found: &[FoundLine]) -> Result<Mended, NoMemory>
    requires { All (FoundFits files.now) found.now }
    ensures { IfOk result (λ mended. IsMended files.now found.now mended.choices mended.changed) }
{
    let fixes = fixes_of(alloc, found)?;
    let choices = choose(alloc, &fixes)?;
    let edits = gathered(alloc, files.count() as usize, &fixes, &choices)?;
    let changed = changes(alloc, files, &edits)?;
    Ok(Mended {
        choices: Row::new(choices),
        changed: Row::new(changed),
    })
}
