//! The JSON of a reply, read by another reader.
use crate::rows::Said;
use analysis_core::key_text;
use gv_base::NoMemory;
use serde_json::Value;
use std::alloc::Global;

/// How many of these have the package and the key of this one.
fn count_alike(rows: &[Said<'_>], of: Said<'_>) -> usize {
    let mut count: usize = 0;
    for said in rows {
        if said.0 == of.0 && said.1 == of.1 {
            count = count.saturating_add(1);
        }
    }
    count
}

/// What is to be read of a text: itself, or nothing where it isn't UTF-8.
fn message(bytes: &[u8]) -> &str {
    match std::str::from_utf8(bytes) {
        Ok(text) => text,
        Err(_) => "",
    }
}

/// The entry of a package's key at a place of its list.
fn entry<'a>(value: &'a Value, package: &str, key: &str, at: usize) -> Option<&'a Value> {
    let keys = value.get(package)?;
    let list = keys.get(key)?;
    list.get(at)
}

/// Whether a member of an entry is this text.
fn is_text(entry: &Value, name: &str, text: &str) -> bool {
    match entry.get(name) {
        None => false,
        Some(member) => match member.as_str() {
            None => false,
            Some(read) => read == text,
        },
    }
}

/// Whether what is said stands at this place of its list.
fn is_read(value: &Value, said: Said<'_>, at: usize) -> bool {
    match entry(value, said.0, key_text(said.1), at) {
        None => false,
        Some(read) => { is_text(read, "message", message(said.4)) && is_text(read, "posn", said.3) }
    }
}

/// Whether each thing that is said is read.
fn are_read(value: &Value, rows: &[Said<'_>]) -> bool {
    for (n, said) in rows.iter().enumerate() {
        let earlier = match rows.get(..n) {
            None => 0,
            Some(front) => count_alike(front, *said),
        };
        if !is_read(value, *said, earlier) {
            return false;
        }
    }
    true
}

/// How many objects with a message stand in the line. A quote within a text is written behind a backslash, so that no
/// text counts.
fn count_objects(line: &[u8]) -> usize {
    let mut count: usize = 0;
    for part in line.windows(11) {
        if part == b"{\"message\":".as_slice() {
            count = count.saturating_add(1);
        }
    }
    count
}

/// Whether the value is written as this line.
fn is_written(alloc: Global, value: &Value, line: &str) -> Result<bool, NoMemory> {
    let mut again = value.to_string(alloc)?;
    again.push_str("\n")?;
    Ok(again.as_str() == line)
}

/// What differs where the line of JSON is read, nothing where it is as it should be: each thing that is said is read at its
/// place, nothing stands there besides, and what was read is written as the same line.
pub fn difference(alloc: Global, line: &str, rows: &[Said<'_>]) -> Result<&'static str, NoMemory> {
    let Ok(value) = Value::from_str(alloc, line) else {
        return Ok("it isn't read");
    };
    if !are_read(&value, rows) {
        return Ok("something isn't read as it is said");
    }
    if count_objects(line.as_bytes()) != rows.len() {
        return Ok("something stands there that isn't said");
    }
    if !is_written(alloc, &value, line)? {
        return Ok("it is written otherwise");
    }
    Ok("")
}
