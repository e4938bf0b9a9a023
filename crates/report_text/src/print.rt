//! Lines with places, and the numbers of a run.
ghost use Rattle.std.specs.Prelude.{◌≡◌, ◌≤◌, ◌<◌, ◌++◌, ◌∷◌, ◌^◌, ℕ, List, [], length, codes, IfOk, OnOk, All, flat_map, string_bytes};
ghost use Rattle.gv_base.specs.Lines.{IsTableOf};
ghost use Rattle.analysis_core.specs.Replies.{file_numbered, place_text, error_line, stats_text};
ghost use Rattle.report_text.specs.Standing.{IsHand, LiesIn, StandsIn};

use analysis_core::{Counts, ErrorLine};
use gv_base::{Bytes, Files, Lines, NoMemory, Place};
use std::alloc::Global;

/// The lines of one of the files. Errors of one file stand together, so each file is read once.
#[derive(Drop)]
pub struct Hand {
    pub file: u32,
    pub lines: Lines,
}

/// The lines of this file: those at hand, where they are its.
pub(crate) fn turn_to(alloc: Global, files: &Files, hand: Hand, file: u32) -> Result<Hand, NoMemory>
    requires within { file < length files.now }
    requires short { length (file_numbered files.now file).1 ≤ 2 ^ 31 }
    requires hand { IsHand files.now hand }
    ensures is { IfOk result (λ h. IsHand files.now h) }
    ensures of { IfOk result (λ h. h.file ≡ file) }
{
    if hand.file == file {
        return Ok(hand);
    }
    let lines = Lines::new(alloc, files.at(file).1)?;
    Ok(Hand { file, lines })
}

/// A place as path, line and column, by the lines of its file.
pub(crate) fn place_text(
    alloc: Global,
    files: &Files,
    lines: &Lines,
    place: Place,
) -> Result<String, NoMemory>
    requires lies { LiesIn files.now place }
    requires lines { IsTableOf (file_numbered files.now place.file).1 lines.now }
    ensures { IfOk result (λ text. string_bytes text ≡ place_text files.now place) }
{
    let path = files.at(place.file).0;
    let (line, column) = lines.line_col(place.offset);
    let text = format!(in alloc; "{path}:{line}:{column}")?;
    Ok(text)
}

fn push_line(out: &mut Vec<u8>, head: &[u8], text: &[u8]) -> Result<(), NoMemory>
    ensures { OnOk result (out.new.items ≡ out.old.items ++ (head.now ++ (codes ": " ++ (text.now ++ 10 ∷ [])))) }
{
    out.extend_from_slice(head)?;
    out.extend_from_slice(b": ")?;
    out.extend_from_slice(text)?;
    out.push(b'\n')?;
    Ok(())
}

fn push_error(
    alloc: Global,
    files: &Files,
    hand: Hand,
    out: &mut Vec<u8>,
    error: &ErrorLine,
) -> Result<Hand, NoMemory>
    requires stands { StandsIn files.now error.now }
    requires hand { IsHand files.now hand }
    ensures is { IfOk result (λ h. IsHand files.now h) }
    ensures line { OnOk result (out.new.items ≡ out.old.items ++ error_line files.now error.now) }
{
    match error.place {
        None => {
            push_line(
                out,
                error.package.as_str().as_bytes(),
                error.text.as_slice(),
            )?;
            Ok(hand)
        }
        Some(place) => {
            let hand = turn_to(alloc, files, hand, place.file)?;
            let at = place_text(alloc, files, &hand.lines, place)?;
            push_line(out, at.as_bytes(), error.text.as_slice())?;
            Ok(hand)
        }
    }
}

pub(crate) fn push_errors(
    alloc: Global,
    files: &Files,
    out: &mut Vec<u8>,
    errors: &[ErrorLine],
) -> Result<(), NoMemory>
    requires stand { All (StandsIn files.now) errors.now }
    ensures { OnOk result (out.new.items ≡ out.old.items ++ flat_map (error_line files.now) errors.now) }
{
    let lines = Lines::new(alloc, &[])?;
    let mut hand = Hand {
        file: files.count(),
        lines,
    };
    for error in errors {
        hand = push_error(alloc, files, hand, out, error)?;
    }
    Ok(())
}

/// The bytes of the reply to `stats`.
pub fn stats(alloc: Global, counts: &Counts) -> Result<Bytes, NoMemory>
    ensures { IfOk result (λ text. text ≡ stats_text counts.now) }
{
    let nodes = counts.nodes;
    let missing = counts.missing;
    let loads = counts.loads;
    let runs = counts.runs;
    let text = format!(in alloc; "nodes {nodes}, missing {missing}, loads {loads}, runs {runs}\n")?;
    Ok(Bytes::new(text.into_bytes()))
}
