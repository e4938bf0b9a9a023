//! The lines of a run's reply, for each command.
ghost use Rattle.std.specs.Prelude.{◌≡◌, ◌<◌, ◌++◌, ◌∷◌, [], length, slice_index_or, IfOk, OnOk, All, MatchOption, flat_map};
ghost use Rattle.analysis_core.specs.Replies.{place_text, analyzer_text, said_line, found_line, fact_line, spot_if, fix_spots, spot_at, choice_text, fix_line, fix_lines, changed_line, middle};
ghost use Rattle.report_text.specs.Standing.{IsHand, LiesIn};
ghost use Rattle.report_text.specs.ReplyStanding.{spot_of, spots_of, SpotStands, FoundStands, Earlier, ReplyStands};

use crate::print::{Hand, place_text, turn_to};
use analysis_core::{ChangedFile, Command, FactLine, FoundLine, Reply, analyzer_text};
use fix_apply::Choice;
use gv_base::{Bytes, Files, Lines, NoMemory, Place};
use std::alloc::Global;

/// The place and the analyzer of a diagnostic that has a fix.
#[derive(Clone, Copy, Drop)]
pub struct Spot {
    pub place: Place,
    pub analyzer: u8,
}

pub(crate) fn first_hand(alloc: Global, files: &Files) -> Result<Hand, NoMemory>
    ensures { IfOk result (λ h. IsHand files.now h) }
{
    let lines = Lines::new(alloc, &[])?;
    Ok(Hand {
        file: files.count(),
        lines,
    })
}

fn push_said(out: &mut Vec<u8>, head: &[u8], name: &[u8], text: &[u8]) -> Result<(), NoMemory>
    ensures { OnOk result (out.new.items ≡ out.old.items ++ said_line head.now name.now text.now) }
{
    out.extend_from_slice(head)?;
    out.extend_from_slice(b": ")?;
    out.extend_from_slice(name)?;
    out.extend_from_slice(b": ")?;
    out.extend_from_slice(text)?;
    out.push(b'\n')?;
    Ok(())
}

/// A line of an analyzer at a place.
fn push_at(
    alloc: Global,
    files: &Files,
    hand: Hand,
    out: &mut Vec<u8>,
    spot: Spot,
    text: &[u8],
) -> Result<Hand, NoMemory>
    requires lies { LiesIn files.now spot.place }
    requires hand { IsHand files.now hand }
    ensures is { IfOk result (λ h. IsHand files.now h) }
    ensures line { OnOk result (out.new.items ≡ out.old.items ++ said_line (place_text files.now spot.place) (analyzer_text spot.analyzer) text.now) }
{
    let hand = turn_to(alloc, files, hand, spot.place.file)?;
    let at = place_text(alloc, files, &hand.lines, spot.place)?;
    let name = analyzer_text(spot.analyzer);
    push_said(out, at.as_bytes(), name.as_bytes(), text)?;
    Ok(hand)
}

fn push_found(
    alloc: Global,
    files: &Files,
    hand: Hand,
    out: &mut Vec<u8>,
    line: &FoundLine,
) -> Result<Hand, NoMemory>
    requires lies { FoundStands files.now line.now }
    requires hand { IsHand files.now hand }
    ensures is { IfOk result (λ h. IsHand files.now h) }
    ensures line { OnOk result (out.new.items ≡ out.old.items ++ found_line files.now line.now) }
{
    let spot = Spot {
        place: line.diagnostic.place,
        analyzer: line.diagnostic.analyzer,
    };
    let hand = push_at(
        alloc,
        files,
        hand,
        out,
        spot,
        line.diagnostic.text.as_slice(),
    )?;
    Ok(hand)
}

fn push_all_found(
    alloc: Global,
    files: &Files,
    out: &mut Vec<u8>,
    found: &[FoundLine],
) -> Result<(), NoMemory>
    requires stand { All (FoundStands files.now) found.now }
    ensures { OnOk result (out.new.items ≡ out.old.items ++ flat_map (found_line files.now) found.now) }
{
    let mut hand = first_hand(alloc, files)?;
    for line in found {
        hand = push_found(alloc, files, hand, out, line)?;
    }
    Ok(())
}

fn push_fact(out: &mut Vec<u8>, line: &FactLine) -> Result<(), NoMemory>
    ensures { OnOk result (out.new.items ≡ out.old.items ++ fact_line line.now) }
{
    let name = analyzer_text(line.analyzer);
    push_said(
        out,
        line.package.as_str().as_bytes(),
        name.as_bytes(),
        line.text.as_slice(),
    )?;
    Ok(())
}

fn push_facts(out: &mut Vec<u8>, facts: &[FactLine]) -> Result<(), NoMemory>
    ensures { OnOk result (out.new.items ≡ out.old.items ++ flat_map fact_line facts.now) }
{
    for line in facts {
        push_fact(out, line)?;
    }
    Ok(())
}

fn push_changed(out: &mut Vec<u8>, file: &ChangedFile) -> Result<(), NoMemory>
    ensures { OnOk result (out.new.items ≡ out.old.items ++ changed_line file.now) }
{
    out.extend_from_slice(b"changed ")?;
    out.extend_from_slice(file.path.as_str().as_bytes())?;
    out.push(b'\n')?;
    Ok(())
}

fn push_all_changed(out: &mut Vec<u8>, changed: &[ChangedFile]) -> Result<(), NoMemory>
    ensures { OnOk result (out.new.items ≡ out.old.items ++ flat_map changed_line changed.now) }
{
    for file in changed {
        push_changed(out, file)?;
    }
    Ok(())
}

fn note_spot(spots: &mut Vec<Spot>, line: &FoundLine) -> Result<(), NoMemory>
    ensures { OnOk result (spots_of spots.new.items ≡ spots_of spots.old.items ++ spot_if line.now line.now.diagnostic.fix) }
{
    match &line.diagnostic.fix {
        None => Ok(()),
        Some(_) => {
            spots.push(Spot {
                place: line.diagnostic.place,
                analyzer: line.diagnostic.analyzer,
            })?;
            Ok(())
        }
    }
}

/// The diagnostics that have fixes, in their order.
fn spots_in(alloc: Global, found: &[FoundLine]) -> Result<Vec<Spot>, NoMemory>
    ensures { IfOk result (λ spots. spots_of spots.items ≡ fix_spots found.now) }
{
    let mut spots = Vec::new(alloc);
    for line in found {
        note_spot(&mut spots, line)?;
    }
    Ok(spots)
}

fn spot_numbered(spots: &[Spot], n: usize) -> Spot
    requires { n < length spots.now }
    ensures is { spot_of result ≡ spot_at (spots_of spots.now) n }
    ensures at { result ≡ slice_index_or spots.now n result }
{
    spots[n]
}

/// The first choice, and those behind it.
fn split_choices(choices: &[Choice]) -> Option<(Choice, &[Choice])>
    ensures { MatchOption result (choices.now ≡ []) (λ x. choices.now ≡ x.0 ∷ x.1.now) }
{
    match choices.split_first() {
        None => None,
        Some((choice, more)) => Some((*choice, more)),
    }
}

/// What is said of a choice, by the lines of its own file where those are at hand.
fn choice_said(
    alloc: Global,
    files: &Files,
    hand: Hand,
    spots: &[Spot],
    choice: Choice,
) -> Result<(Bytes, Hand), NoMemory>
    requires stand { All (SpotStands files.now) spots.now }
    requires earlier { Earlier (length spots.now) choice }
    requires hand { IsHand files.now hand }
    ensures is { IfOk result (λ x. IsHand files.now x.1) }
    ensures said { IfOk result (λ x. x.0 ≡ choice_text files.now (spots_of spots.now) choice) }
{
    match choice {
        Choice::Applied => {
            let text = b"applied".as_slice().to_vec(alloc)?;
            Ok((Bytes::new(text), hand))
        }
        Choice::Overlaps(first) => {
            let spot = spot_numbered(spots, first as usize);
            let hand = turn_to(alloc, files, hand, spot.place.file)?;
            let at = place_text(alloc, files, &hand.lines, spot.place)?;
            let mut text = b"skipped, overlaps ".as_slice().to_vec(alloc)?;
            text.extend_from_slice(at.as_bytes())?;
            Ok((Bytes::new(text), hand))
        }
    }
}

fn push_fix(
    alloc: Global,
    files: &Files,
    hand: Hand,
    out: &mut Vec<u8>,
    spots: &[Spot],
    n: usize,
    choice: Choice,
) -> Result<Hand, NoMemory>
    requires within { n < length spots.now }
    requires stand { All (SpotStands files.now) spots.now }
    requires earlier { Earlier (length spots.now) choice }
    requires hand { IsHand files.now hand }
    ensures is { IfOk result (λ h. IsHand files.now h) }
    ensures line { OnOk result (out.new.items ≡ out.old.items ++ fix_line files.now (spots_of spots.now) (spot_at (spots_of spots.now) n) choice) }
{
    let spot = spot_numbered(spots, n);
    let (text, hand) = choice_said(alloc, files, hand, spots, choice)?;
    let hand = push_at(alloc, files, hand, out, spot, text.as_slice())?;
    Ok(hand)
}

fn push_fixes(
    alloc: Global,
    files: &Files,
    out: &mut Vec<u8>,
    spots: &[Spot],
    choices: &[Choice],
) -> Result<(), NoMemory>
    requires size { length choices.now ≡ length spots.now }
    requires stand { All (SpotStands files.now) spots.now }
    requires earlier { All (Earlier (length spots.now)) choices.now }
    ensures { OnOk result (out.new.items ≡ out.old.items ++ fix_lines files.now (spots_of spots.now) 0 choices.now) }
{
    let mut hand = first_hand(alloc, files)?;
    let mut rest = choices;
    let mut n = 0;
    while let Some((choice, more)) = split_choices(rest) {
        hand = push_fix(alloc, files, hand, out, spots, n, choice)?;
        rest = more;
        n += 1;
    }
    Ok(())
}

pub(crate) fn push_middle(
    alloc: Global,
    files: &Files,
    out: &mut Vec<u8>,
    asked: Command,
    reply: &Reply,
) -> Result<(), NoMemory>
    requires { ReplyStands files.now asked reply.now }
    ensures { OnOk result (out.new.items ≡ out.old.items ++ middle files.now asked reply.now) }
{
    match asked {
        Command::Check => Ok(()),
        Command::Report => {
            push_all_found(alloc, files, out, reply.diagnostics.as_slice())?;
            Ok(())
        }
        Command::Facts => {
            push_facts(out, reply.facts.as_slice())?;
            Ok(())
        }
        Command::Fix => {
            let spots = spots_in(alloc, reply.diagnostics.as_slice())?;
            push_fixes(alloc, files, out, &spots, reply.choices.as_slice())?;
            push_all_changed(out, reply.changed.as_slice())?;
            Ok(())
        }
    }
}
