//! The diagnostics of packages as those of a tree.
ghost use Rattle.std.specs.Prelude.{◌≡◌, ◌++◌, get_or, length, map, IfOk, OnOk};
ghost use Rattle.tree_findings.specs.Lines.{fix_in_tree, diagnostic_in_tree, line_in_tree, all_lines, IsSettled};

use analysis_core::{Diagnostic, FoundLine, settle_found};
use fix_apply::{Edit, Fix};
use gv_base::{NoMemory, Place, Row};
use import_graph::Package;
use std::alloc::Global;

/// An edit again.
pub(crate) fn edit_again(alloc: Global, edit: &Edit) -> Result<Edit, NoMemory>
    ensures { IfOk result (λ more. more ≡ edit.now) }
{
    let text = edit.text.copy(alloc)?;
    Ok(Edit {
        start: edit.start,
        end: edit.end,
        text,
    })
}

/// Edits again.
pub(crate) fn edits_again(alloc: Global, edits: &[Edit]) -> Result<Row<Edit>, NoMemory>
    ensures { IfOk result (λ more. more ≡ edits.now) }
{
    let mut list = Vec::new(alloc);
    for edit in edits {
        let more = edit_again(alloc, edit)?;
        list.push(more)?;
    }
    Ok(Row::new(list))
}

/// The number in the tree of a package's file, 0 where the package has no such file.
fn file_in_tree(files: &[u32], file: u32) -> u32
    ensures { result ≡ get_or files.now file 0 }
{
    if file as usize >= files.len() {
        return 0;
    }
    files[file as usize]
}

fn some_fix_in_tree(alloc: Global, files: &[u32], fix: &Fix) -> Result<Fix, NoMemory>
    ensures { IfOk result (λ more. more ≡ record { file = get_or files.now fix.now.file 0; edits = fix.now.edits }) }
{
    let edits = edits_again(alloc, fix.edits.as_slice())?;
    let file = file_in_tree(files, fix.file);
    Ok(Fix { file, edits })
}

fn fix_in_tree(alloc: Global, files: &[u32], fix: &Option<Fix>) -> Result<Option<Fix>, NoMemory>
    ensures { IfOk result (λ more. more ≡ fix_in_tree files.now fix.now) }
{
    match fix {
        None => Ok(None),
        Some(fix) => {
            let more = some_fix_in_tree(alloc, files, fix)?;
            Ok(Some(more))
        }
    }
}

fn diagnostic_in_tree(
    alloc: Global,
    files: &[u32],
    found: &Diagnostic,
) -> Result<Diagnostic, NoMemory>
    ensures { IfOk result (λ more. more ≡ diagnostic_in_tree files.now found.now) }
{
    let text = found.text.copy(alloc)?;
    let fix = fix_in_tree(alloc, files, &found.fix)?;
    let file = file_in_tree(files, found.place.file);
    let place = Place {
        file,
        offset: found.place.offset,
    };
    Ok(Diagnostic {
        place,
        end: found.end,
        analyzer: found.analyzer,
        text,
        fix,
    })
}

fn line_in_tree(alloc: Global, pack: &Package, found: &Diagnostic) -> Result<FoundLine, NoMemory>
    ensures { IfOk result (λ line. line ≡ line_in_tree pack.now.path pack.now.files found.now) }
{
    let package = pack.path.copy(alloc)?;
    let diagnostic = diagnostic_in_tree(alloc, pack.files.as_slice(), found)?;
    Ok(FoundLine {
        package,
        diagnostic,
    })
}

/// Adds the diagnostics of a package.
fn push_lines(
    alloc: Global,
    lines: &mut Vec<FoundLine>,
    pack: &Package,
    found: &[Diagnostic],
) -> Result<(), NoMemory>
    ensures { OnOk result (lines.new.items ≡ lines.old.items ++ map (line_in_tree pack.now.path pack.now.files) found.now) }
{
    for diagnostic in found {
        let line = line_in_tree(alloc, pack, diagnostic)?;
        lines.push(line)?;
    }
    Ok(())
}

/// The diagnostics of all packages, one package after the other.
fn all_lines(
    alloc: Global,
    packages: &[Package],
    found: &[Row<Diagnostic>],
) -> Result<Vec<FoundLine>, NoMemory>
    requires { length found.now ≡ length packages.now }
    ensures { IfOk result (λ lines. lines.items ≡ all_lines packages.now found.now) }
{
    let mut lines = Vec::new(alloc);
    for k in 0..packages.len() {
        push_lines(alloc, &mut lines, &packages[k], found[k].as_slice())?;
    }
    Ok(lines)
}

/// The diagnostics of a tree in the order of its reply, each once: by package path, file path, offset, analyzer, text and end. Those of a package are
/// handed in with its files counted from 0.
pub fn found_lines(
    alloc: Global,
    packages: &[Package],
    found: &[Row<Diagnostic>],
) -> Result<Vec<FoundLine>, NoMemory>
    requires { length found.now ≡ length packages.now }
    ensures { IfOk result (λ lines. IsSettled (all_lines packages.now found.now) lines.items) }
{
    let mut lines = all_lines(alloc, packages, found)?;
    settle_found(&mut lines);
    Ok(lines)
}
