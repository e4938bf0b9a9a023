//! Findings as bytes and in order, and the names of analyzers.
use crate::spelled::Reading;
use crate::told::{add, add_comma, number, said, unread};
use analysis_core::{
    AnalyzerName, Diagnostic, FoundLine, all_own, analyzer_text, key_text, read_findings,
    settle_found, write_findings,
};
use fix_apply::{Edit, Fix};
use gv_base::{Bytes, NoMemory, Place, Row, Text};
use std::alloc::Global;

/// The text of diagnostics; empty where a fix lies in another file than its diagnostic.
fn findings_text(alloc: Global, list: &[Diagnostic]) -> Result<Vec<u8>, NoMemory> {
    if !all_own(list) {
        return Ok(Vec::new(alloc));
    }
    let text = write_findings(alloc, list)?;
    Ok(text)
}

/// Adds the edits of a fix.
fn add_fix(alloc: Global, out: &mut Vec<u8>, fix: &Fix) -> Result<(), NoMemory> {
    let text = format!(in alloc; " fix {}", fix.file)?;
    add(out, text.as_str())?;
    for edit in fix.edits.as_slice() {
        let text = format!(in alloc; " {}-{} ", edit.start, edit.end)?;
        add(out, text.as_str())?;
        out.extend_from_slice(edit.text.as_slice())?;
    }
    Ok(())
}

/// Adds a diagnostic: its file, its place and its end, its analyzer, its text, and its fix.
fn add_finding(alloc: Global, out: &mut Vec<u8>, finding: &Diagnostic) -> Result<(), NoMemory> {
    add_comma(out)?;
    let place = finding.place;
    let text = format!(in alloc;
        "{} {}-{} {} ",
        place.file, place.offset, finding.end, finding.analyzer
    )?;
    add(out, text.as_str())?;
    out.extend_from_slice(finding.text.as_slice())?;
    match &finding.fix {
        None => Ok(()),
        Some(fix) => add_fix(alloc, out, fix),
    }
}

/// Findings, each as `add_finding` tells it.
pub fn read(alloc: Global, bytes: &[u8]) -> Result<Option<Reading>, NoMemory> {
    let Some(list) = read_findings(alloc, bytes)? else {
        return Ok(None);
    };
    let again = findings_text(alloc, &list)?;
    let mut says = Vec::new(alloc);
    for finding in &list {
        add_finding(alloc, &mut says, finding)?;
    }
    Ok(Some(Reading { says, again }))
}

/// The fix of `FILE:START:END:TEXT`.
fn fix_of(alloc: Global, word: &str) -> Result<Fix, NoMemory> {
    let mut fields = word.split(':');
    let file = number(fields.next().unwrap_or(""));
    let start = number(fields.next().unwrap_or(""));
    let end = number(fields.next().unwrap_or(""));
    let text = Bytes::of(alloc, fields.next().unwrap_or("").as_bytes())?;
    let mut edits = Vec::new(alloc);
    edits.push(Edit { start, end, text })?;
    Ok(Fix {
        file,
        edits: Row::new(edits),
    })
}

/// The finding of `FILE OFFSET END ANALYZER TEXT`, with ` FIX` behind it or not.
fn finding_of(alloc: Global, text: &str) -> Result<Diagnostic, NoMemory> {
    let mut words = text.split(' ');
    let file = number(words.next().unwrap_or(""));
    let offset = number(words.next().unwrap_or(""));
    let end = number(words.next().unwrap_or(""));
    let analyzer = (number(words.next().unwrap_or("")) % 256) as u8;
    let text = Bytes::of(alloc, words.next().unwrap_or("").as_bytes())?;
    let fix = match words.next() {
        None => None,
        Some(word) => Some(fix_of(alloc, word)?),
    };
    Ok(Diagnostic {
        place: Place { file, offset },
        end,
        analyzer,
        text,
        fix,
    })
}

/// `FINDING, ..`: their text.
fn written(alloc: Global, input: &str) -> Result<Vec<u8>, NoMemory> {
    let mut list = Vec::new(alloc);
    for text in input.split(", ") {
        list.push(finding_of(alloc, text)?)?;
    }
    findings_text(alloc, &list)
}

/// The line of `PACKAGE FINDING`.
fn line_of(alloc: Global, text: &str) -> Result<FoundLine, NoMemory> {
    let (package, finding) = text.split_once(" ").unwrap_or((text, ""));
    let package = Text::of(alloc, package)?;
    let diagnostic = finding_of(alloc, finding)?;
    Ok(FoundLine {
        package,
        diagnostic,
    })
}

/// `PACKAGE FINDING, ..`: the same in order.
fn ordered(alloc: Global, input: &str) -> Result<Vec<u8>, NoMemory> {
    let mut found = Vec::new(alloc);
    for text in input.split(", ") {
        found.push(line_of(alloc, text)?)?;
    }
    settle_found(&mut found);
    let mut out = Vec::new(alloc);
    for line in &found {
        add_finding(alloc, &mut out, &line.diagnostic)?;
        let text = format!(in alloc; " {}", line.package.as_str())?;
        add(&mut out, text.as_str())?;
    }
    Ok(out)
}

/// `NUMBER`: the name of the analyzer, the key of its findings, and the analyzer whose number this is.
fn analyzers(alloc: Global, input: &str) -> Result<Vec<u8>, NoMemory> {
    let number = (number(input) % 256) as u8;
    let text = format!(in alloc; "[{}] [{}]", analyzer_text(number), key_text(number))?;
    let mut out = said(alloc, text.as_str())?;
    if let Some(analyzer) = AnalyzerName::of_number(number) {
        let text = format!(in alloc; " {} {}", analyzer.number(), analyzer.text())?;
        add(&mut out, text.as_str())?;
    }
    Ok(out)
}

/// The answer to the input of a case of this file.
pub fn answer(alloc: Global, name: &str, input: &str) -> Result<Vec<u8>, NoMemory> {
    match name {
        "analyzers" => analyzers(alloc, input),
        "ordered" => ordered(alloc, input),
        "written" => written(alloc, input),
        _ => unread(alloc),
    }
}
