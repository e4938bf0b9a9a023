//! The edits of the applied fixes, by file.
ghost use Rattle.std.specs.Prelude.{◌≡◌, ◌<◌, ◌++◌, ◌∷◌, ℕ, [], length, map, slice_index_or, slice_set, IfOk, OnOk};
ghost use Rattle.tree_findings.specs.Mending.{edits_by, edits_in, row_at, AreGathered, Adds};

use crate::lines::edit_again;
use fix_apply::{Choice, Edit, Fix};
use gv_base::NoMemory;
use std::alloc::Global;

/// An empty row for each file.
fn blank(alloc: Global, count: usize) -> Result<Vec<Vec<Edit>>, NoMemory>
    ensures size { IfOk result (λ rows. length rows.items ≡ count) }
    ensures empty { IfOk result (λ rows. (n : ℕ) → row_at rows.items n ≡ []) }
{
    let mut rows = Vec::new(alloc);
    for _n in 0..count {
        rows.push(Vec::new(alloc))?;
    }
    Ok(rows)
}

/// Adds an edit to a row.
fn push_at(rows: &mut Vec<Vec<Edit>>, at: usize, edit: Edit) -> Result<(), NoMemory>
    requires { at < length rows.old.items }
    ensures { OnOk result (map (λ row. row.items) rows.new.items ≡ slice_set (map (λ row. row.items) rows.old.items) at (row_at rows.old.items at ++ edit ∷ [])) }
{
    rows[at].push(edit)?;
    Ok(())
}

/// Adds edits to the row of a file.
fn push_all(
    alloc: Global,
    rows: &mut Vec<Vec<Edit>>,
    file: usize,
    edits: &[Edit],
) -> Result<(), NoMemory>
    requires { file < length rows.old.items }
    ensures { OnOk result (Adds file edits.now rows.old.items rows.new.items) }
{
    for edit in edits {
        let more = edit_again(alloc, edit)?;
        push_at(rows, file, more)?;
    }
    Ok(())
}

/// Adds the edits of a fix, where its file is one of these.
fn push_edits(alloc: Global, rows: &mut Vec<Vec<Edit>>, fix: &Fix) -> Result<(), NoMemory>
    ensures size { OnOk result (length rows.new.items ≡ length rows.old.items) }
    ensures each { OnOk result ((n : ℕ) → n < length rows.old.items → row_at rows.new.items n ≡ row_at rows.old.items n ++ edits_in n fix.now) }
{
    let file = fix.file as usize;
    if file >= rows.len() {
        return Ok(());
    }
    push_all(alloc, rows, file, fix.edits.as_slice())?;
    Ok(())
}

/// Adds the edits of a fix, where it is applied.
fn push_fix(
    alloc: Global,
    rows: &mut Vec<Vec<Edit>>,
    fix: &Fix,
    choice: Choice,
) -> Result<(), NoMemory>
    ensures size { OnOk result (length rows.new.items ≡ length rows.old.items) }
    ensures each { OnOk result ((n : ℕ) → n < length rows.old.items → row_at rows.new.items n ≡ row_at rows.old.items n ++ edits_by n fix.now choice) }
{
    match choice {
        Choice::Applied => {
            push_edits(alloc, rows, fix)?;
            Ok(())
        }
        Choice::Overlaps(_) => Ok(()),
    }
}

fn choice_numbered(choices: &[Choice], n: usize) -> Choice
    requires { n < length choices.now }
    ensures { result ≡ slice_index_or choices.now n result }
{
    choices[n]
}

/// The row of a file.
pub fn row_of(rows: &Vec<Vec<Edit>>, at: usize) -> &[Edit]
    requires { at < length rows.now.items }
    ensures { result.now ≡ row_at rows.now.items at }
{
    rows[at].as_slice()
}

/// For each file the edits of the applied fixes, in their order.
pub fn gathered(
    alloc: Global,
    count: usize,
    fixes: &[Fix],
    choices: &[Choice],
) -> Result<Vec<Vec<Edit>>, NoMemory>
    requires { length choices.now ≡ length fixes.now }
    ensures { IfOk result (λ rows. AreGathered count fixes.now choices.now rows.items) }
{
    let mut rows = blank(alloc, count)?;
    for k in 0..fixes.len() {
        let choice = choice_numbered(choices, k);
        push_fix(alloc, &mut rows, &fixes[k], choice)?;
    }
    Ok(rows)
}
