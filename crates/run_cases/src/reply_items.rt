//! What a reply says, of the items of a line.
use crate::told::number;
use analysis_core::{
    ChangedFile, Counts, Diagnostic, ErrorLine, FactLine, FoundLine, Reply, TreeLimit,
};
use bundles::bytes_of;
use fix_apply::{Choice, Edit, Fix};
use gv_base::{Bytes, NoMemory, Place, Row, Text};
use std::alloc::Global;

/// What is gathered of the items.
#[derive(Drop)]
pub struct Items {
    pub packages: u32,
    pub limit: Option<TreeLimit>,
    pub errors: Vec<ErrorLine>,
    pub found: Vec<FoundLine>,
    pub facts: Vec<FactLine>,
    pub choices: Vec<Choice>,
    pub changed: Vec<ChangedFile>,
}

/// The place of `FILE:OFFSET`; none where it is `-`.
fn place_of(word: &str) -> Option<Place> {
    let (file, offset) = word.split_once(":")?;
    Some(Place {
        file: number(file),
        offset: number(offset),
    })
}

/// `PACKAGE PLACE TEXT`
fn error_of(alloc: Global, text: &str) -> Result<ErrorLine, NoMemory> {
    let (package, rest) = text.split_once(" ").unwrap_or((text, ""));
    let (place, says) = rest.split_once(" ").unwrap_or((rest, ""));
    Ok(ErrorLine {
        package: Text::of(alloc, package)?,
        place: place_of(place),
        text: Bytes::new(bytes_of(alloc, says)?),
    })
}

/// A fix that removes what stands from a place to offset 24.
fn removal(alloc: Global, place: Place) -> Result<Fix, NoMemory> {
    let mut edits = Vec::new(alloc);
    edits.push(Edit {
        start: place.offset,
        end: 24,
        text: Bytes::new(Vec::new(alloc)),
    })?;
    Ok(Fix {
        file: place.file,
        edits: Row::new(edits),
    })
}

/// The fix from the place of a word; none where it is `-`.
fn fix_of(alloc: Global, word: &str) -> Result<Option<Fix>, NoMemory> {
    match place_of(word) {
        None => Ok(None),
        Some(place) => {
            let fix = removal(alloc, place)?;
            Ok(Some(fix))
        }
    }
}

/// `PACKAGE PLACE ANALYZER FIX TEXT`
fn found_of(alloc: Global, text: &str) -> Result<FoundLine, NoMemory> {
    let (package, rest) = text.split_once(" ").unwrap_or((text, ""));
    let (place, rest) = rest.split_once(" ").unwrap_or((rest, ""));
    let (analyzer, rest) = rest.split_once(" ").unwrap_or((rest, ""));
    let (fix, says) = rest.split_once(" ").unwrap_or((rest, ""));
    let place = place_of(place).unwrap_or(Place { file: 0, offset: 0 });
    let diagnostic = Diagnostic {
        place,
        end: place.offset,
        analyzer: (number(analyzer) % 256) as u8,
        text: Bytes::new(bytes_of(alloc, says)?),
        fix: fix_of(alloc, fix)?,
    };
    Ok(FoundLine {
        package: Text::of(alloc, package)?,
        diagnostic,
    })
}

/// `PACKAGE ANALYZER TEXT`
fn fact_of(alloc: Global, text: &str) -> Result<FactLine, NoMemory> {
    let (package, rest) = text.split_once(" ").unwrap_or((text, ""));
    let (analyzer, says) = rest.split_once(" ").unwrap_or((rest, ""));
    Ok(FactLine {
        package: Text::of(alloc, package)?,
        analyzer: (number(analyzer) % 256) as u8,
        text: Bytes::of(alloc, says.as_bytes())?,
    })
}

fn changed_of(alloc: Global, path: &str) -> Result<ChangedFile, NoMemory> {
    Ok(ChangedFile {
        path: Text::of(alloc, path)?,
        bytes: Bytes::new(Vec::new(alloc)),
    })
}

/// The limit of this name.
fn limit_of(name: &str) -> Option<TreeLimit> {
    let limits = [
        TreeLimit::Files,
        TreeLimit::FileBytes,
        TreeLimit::TreeBytes,
        TreeLimit::Packages,
    ];
    for limit in limits {
        if limit.text() == name {
            return Some(limit);
        }
    }
    None
}

/// Adds what an item says, whose first word tells its sort.
fn add_item(alloc: Global, items: &mut Items, sort: &str, text: &str) -> Result<(), NoMemory> {
    match sort {
        "packages" => items.packages = number(text),
        "limit" => items.limit = limit_of(text),
        "error" => items.errors.push(error_of(alloc, text)?)?,
        "found" => items.found.push(found_of(alloc, text)?)?,
        "fact" => items.facts.push(fact_of(alloc, text)?)?,
        "applied" => items.choices.push(Choice::Applied)?,
        "overlaps" => items.choices.push(Choice::Overlaps(number(text) as u64))?,
        "changed" => items.changed.push(changed_of(alloc, text)?)?,
        _ => {}
    }
    Ok(())
}

/// The items of a line, with ` | ` between them.
pub fn items_of(alloc: Global, line: &str) -> Result<Items, NoMemory> {
    let mut items = Items {
        packages: 0,
        limit: None,
        errors: Vec::new(alloc),
        found: Vec::new(alloc),
        facts: Vec::new(alloc),
        choices: Vec::new(alloc),
        changed: Vec::new(alloc),
    };
    for item in line.split(" | ") {
        let (sort, text) = item.split_once(" ").unwrap_or((item, ""));
        add_item(alloc, &mut items, sort, text)?;
    }
    Ok(items)
}

/// The reply that says these.
pub fn reply_of(alloc: Global, items: Items) -> Reply {
    let counts = Counts {
        nodes: 0,
        missing: 0,
        loads: 0,
        runs: 0,
    };
    let mut reply = Reply::of_check(alloc, items.packages, Row::new(items.errors), counts);
    reply.limit = items.limit;
    reply.diagnostics = Row::new(items.found);
    reply.facts = Row::new(items.facts);
    reply.choices = Row::new(items.choices);
    reply.changed = Row::new(items.changed);
    reply
}
