//! What comments at the end of lines expect, and what was found, by line.
use gv_base::NoMemory;
use std::alloc::Global;

/// What is expected of a line, or found there: that a function begins there that never returns, and a statement that
/// can't be reached.
#[derive(Clone, Copy, Drop)]
pub struct Line {
    pub never: bool,
    pub unreached: bool,
}

impl Line {
    pub const NOTHING: Line = Line {
        never: false,
        unreached: false,
    };
}

const NEVER: &[u8] = b"// ERROR never returns";

const UNREACHED: &[u8] = b"// ERROR unreachable code";

fn line_of(line: &[u8]) -> Line {
    Line {
        never: line.ends_with(NEVER),
        unreached: line.ends_with(UNREACHED),
    }
}

/// What each line of a text expects. What stands behind the last line break is no line.
pub fn expected(alloc: Global, text: &[u8]) -> Result<Vec<Line>, NoMemory> {
    let mut lines = Vec::new(alloc);
    let mut from = 0;
    for at in 0..text.len() {
        if text[at] == b'\n' {
            if from <= at {
                lines.push(line_of(&text[from..at]))?;
            }
            from = at + 1;
        }
    }
    Ok(lines)
}

/// For each byte whether something begins there.
fn begins(alloc: Global, count: usize, places: &[u32]) -> Result<Vec<bool>, NoMemory> {
    let mut marks = vec![in alloc; false; count]?;
    for place in places {
        let at = *place as usize;
        if at < marks.as_slice().len() {
            marks[at] = true;
        }
    }
    Ok(marks)
}

/// Whether the flag of a number is set.
pub fn is_set(flags: &[bool], at: usize) -> bool {
    match flags.get(at) {
        Some(flag) => *flag,
        None => false,
    }
}

/// What was found of each line: functions that never return begin at these places, and statements that can't be reached
/// at those.
pub fn found(
    alloc: Global,
    text: &[u8],
    never: &[u32],
    unreached: &[u32],
) -> Result<Vec<Line>, NoMemory> {
    let never_marks = begins(alloc, text.len(), never)?;
    let unreached_marks = begins(alloc, text.len(), unreached)?;
    let mut lines = Vec::new(alloc);
    let mut line = Line::NOTHING;
    for at in 0..text.len() {
        line.never = line.never || is_set(&never_marks, at);
        line.unreached = line.unreached || is_set(&unreached_marks, at);
        if text[at] == b'\n' {
            lines.push(line)?;
            line = Line::NOTHING;
        }
    }
    Ok(lines)
}
