//! The error lines of a run.
ghost use Rattle.std.specs.Prelude.{◌≡◌, ◌++◌, ◌<◌, ◌^◌, ◌∷◌, [], None, map, flat_map, get_or, codes, length, IfOk, OnOk};
ghost use Rattle.std.specs.List.{filter};
ghost use Rattle.import_graph.specs.Packages.{head_at, lines_in, counts};
ghost use Rattle.import_graph.specs.Tables.{AreAscending};
ghost use Rattle.tree_report.specs.Lines.{line_at, line_without, why_text, refusal_lines, read_lines, broken_lines, clash_line, missing_line, missing_lines_at, missing_lines};

use analysis_core::ErrorLine;
use go_tree::{Head, ImportLine, Why};
use gv_base::{Bytes, NoMemory, Place, Text};
use import_graph::{counts, place_in};
use parse_file::FileVerdict;
use std::alloc::Global;

/// Adds a line at a place.
pub fn push_at(
    alloc: Global,
    lines: &mut Vec<ErrorLine>,
    path: &str,
    at: Place,
    text: &[u8],
) -> Result<(), NoMemory>
    ensures { OnOk result (lines.new.items ≡ lines.old.items ++ line_at path.now at text.now ∷ []) }
{
    let package = Text::of(alloc, path)?;
    let text = Bytes::of(alloc, text)?;
    lines.push(ErrorLine {
        package,
        place: Some(at),
        text,
    })?;
    Ok(())
}

/// Adds a line of a package as a whole.
pub fn push_whole(
    alloc: Global,
    lines: &mut Vec<ErrorLine>,
    path: &str,
    text: &[u8],
) -> Result<(), NoMemory>
    ensures { OnOk result (lines.new.items ≡ lines.old.items ++ line_without path.now text.now ∷ []) }
{
    let package = Text::of(alloc, path)?;
    let text = Bytes::of(alloc, text)?;
    lines.push(ErrorLine {
        package,
        place: None,
        text,
    })?;
    Ok(())
}

/// Adds the line of a package that reaches itself.
pub fn push_cycle(alloc: Global, lines: &mut Vec<ErrorLine>, path: &str) -> Result<(), NoMemory>
    ensures { OnOk result (lines.new.items ≡ lines.old.items ++ line_without path.now (codes "import cycle") ∷ []) }
{
    push_whole(alloc, lines, path, b"import cycle")
}

fn why_text(why: Why) -> &'static [u8]
    ensures { result.now ≡ why_text why }
{
    match why {
        Why::NotUtf8 => b"lexical: not utf-8",
        Why::Nul => b"lexical: nul",
        Why::StrayMark => b"lexical: stray mark",
        Why::BadLexeme => b"lexical: bad lexeme",
        Why::Unclosed => b"lexical: unclosed",
    }
}

/// Adds the line of a file that is refused.
fn push_refusal(
    alloc: Global,
    lines: &mut Vec<ErrorLine>,
    path: &str,
    file: u32,
    verdict: &FileVerdict,
) -> Result<(), NoMemory>
    ensures { OnOk result (lines.new.items ≡ lines.old.items ++ refusal_lines path.now file verdict.now) }
{
    match verdict {
        FileVerdict::Parsed(_) => Ok(()),
        FileVerdict::Lexical { offset, why } => {
            let offset = *offset;
            push_at(alloc, lines, path, Place { file, offset }, why_text(*why))
        }
        FileVerdict::Syntax { offset } => {
            let offset = *offset;
            push_at(alloc, lines, path, Place { file, offset }, b"syntax error")
        }
        FileVerdict::TooDeep { offset } => {
            let offset = *offset;
            push_at(
                alloc,
                lines,
                path,
                Place { file, offset },
                b"nesting too deep",
            )
        }
    }
}

/// Adds the line of the file of this number, if it is refused.
fn push_read(
    alloc: Global,
    lines: &mut Vec<ErrorLine>,
    path: &str,
    verdicts: &[Option<FileVerdict>],
    file: u32,
) -> Result<(), NoMemory>
    ensures { OnOk result (lines.new.items ≡ lines.old.items ++ read_lines path.now file (get_or verdicts.now file None)) }
{
    if file as usize >= verdicts.len() {
        return Ok(());
    }
    match &verdicts[file as usize] {
        None => Ok(()),
        Some(verdict) => push_refusal(alloc, lines, path, file, verdict),
    }
}

/// Adds the lines of a broken package.
pub fn push_broken(
    alloc: Global,
    lines: &mut Vec<ErrorLine>,
    path: &str,
    verdicts: &[Option<FileVerdict>],
    files: &[u32],
) -> Result<(), NoMemory>
    ensures { OnOk result (lines.new.items ≡ lines.old.items ++ broken_lines verdicts.now path.now files.now) }
{
    for file in files {
        push_read(alloc, lines, path, verdicts, *file)?;
    }
    Ok(())
}

/// Adds the lines of package names that differ.
pub fn push_clashes(
    alloc: Global,
    lines: &mut Vec<ErrorLine>,
    path: &str,
    places: &[Place],
) -> Result<(), NoMemory>
    ensures { OnOk result (lines.new.items ≡ lines.old.items ++ map (clash_line path.now) places.now) }
{
    for at in places {
        push_at(alloc, lines, path, *at, b"package name differs")?;
    }
    Ok(())
}

/// The words, the bytes, and the other words behind them.
pub fn joined(alloc: Global, before: &[u8], bytes: &[u8], after: &[u8]) -> Result<Vec<u8>, NoMemory>
    ensures { IfOk result (λ text. text.items ≡ before.now ++ (bytes.now ++ after.now)) }
{
    let mut text = before.to_vec(alloc)?;
    text.extend_from_slice(bytes)?;
    text.extend_from_slice(after)?;
    Ok(text)
}

/// Adds the line of an import whose path is none of the paths.
fn push_missing(
    alloc: Global,
    lines: &mut Vec<ErrorLine>,
    paths: &[Text],
    path: &str,
    file: u32,
    line: &ImportLine,
) -> Result<(), NoMemory>
    requires order { AreAscending paths.now }
    requires few { length paths.now < 2 ^ 32 }
    ensures { OnOk result (lines.new.items ≡ lines.old.items ++ missing_lines_at paths.now path.now file line.now) }
{
    match place_in(paths, line.path.as_slice()) {
        Some(_) => Ok(()),
        None => {
            let text = joined(alloc, b"missing import \"", line.path.as_slice(), b"\"")?;
            let offset = line.at;
            push_at(alloc, lines, path, Place { file, offset }, &text)?;
            Ok(())
        }
    }
}

/// Adds the lines of these imports that are missing.
fn push_imports(
    alloc: Global,
    lines: &mut Vec<ErrorLine>,
    paths: &[Text],
    path: &str,
    file: u32,
    imports: &[ImportLine],
) -> Result<(), NoMemory>
    requires order { AreAscending paths.now }
    requires few { length paths.now < 2 ^ 32 }
    ensures { OnOk result (lines.new.items ≡ lines.old.items ++ flat_map (missing_lines_at paths.now path.now file) (filter counts imports.now)) }
{
    for line in imports {
        if counts(line) {
            push_missing(alloc, lines, paths, path, file, line)?;
        }
    }
    Ok(())
}

/// Adds the lines of a file's imports that are missing.
fn push_file(
    alloc: Global,
    lines: &mut Vec<ErrorLine>,
    heads: &[Option<Head>],
    paths: &[Text],
    path: &str,
    file: u32,
) -> Result<(), NoMemory>
    requires order { AreAscending paths.now }
    requires few { length paths.now < 2 ^ 32 }
    ensures { OnOk result (lines.new.items ≡ lines.old.items ++ flat_map (missing_lines_at paths.now path.now file) (lines_in (head_at heads.now file))) }
{
    if file as usize >= heads.len() {
        return Ok(());
    }
    match &heads[file as usize] {
        None => Ok(()),
        Some(head) => push_imports(alloc, lines, paths, path, file, head.imports.as_slice()),
    }
}

/// Adds the lines of missing imports.
pub fn push_all_missing(
    alloc: Global,
    lines: &mut Vec<ErrorLine>,
    heads: &[Option<Head>],
    paths: &[Text],
    path: &str,
    files: &[u32],
) -> Result<(), NoMemory>
    requires order { AreAscending paths.now }
    requires few { length paths.now < 2 ^ 32 }
    ensures { OnOk result (lines.new.items ≡ lines.old.items ++ missing_lines heads.now paths.now path.now files.now) }
{
    for file in files {
        push_file(alloc, lines, heads, paths, path, *file)?;
    }
    Ok(())
}
