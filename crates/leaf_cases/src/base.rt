//! Lines, kinds, copies, files in order, and a sink that takes less than it is given.
use crate::told::{add, add_number, number, said, unread};
use bundles::bytes_of;
use gv_base::{Bytes, ConstText, Files, Kind, Lines, MemSink, NoMemory, Sink, Text};
use std::alloc::Global;

/// The most bytes of a text.
const LIMIT: usize = 65536;

/// `TEXT`: the line and the column of each offset.
fn lines(alloc: Global, bytes: &[u8]) -> Result<Vec<u8>, NoMemory> {
    let mut out = Vec::new(alloc);
    if bytes.len() > LIMIT {
        return Ok(out);
    }
    let lines = Lines::new(alloc, bytes)?;
    for offset in 0..=bytes.len() {
        let (line, column) = lines.line_col(offset as u32);
        let text = format!(in alloc; "{line}:{column} ")?;
        add(&mut out, text.as_str())?;
    }
    Ok(out)
}

/// `NUMBER`: the kind of this number, and what it is.
fn kinds(alloc: Global, input: &str) -> Result<Vec<u8>, NoMemory> {
    let number = input.parse::<u8>().unwrap_or(u8::MAX);
    if number > 17 {
        return unread(alloc);
    }
    let kind = Kind::of_number(number);
    let text = format!(in alloc;
        "{} {kind:?} boolean {} integer {} string {} nil {} untyped {}",
        kind.number(),
        kind.is_boolean(),
        kind.is_integer(),
        kind.is_string(),
        kind.is_nil(),
        kind.is_untyped()
    )?;
    said(alloc, text.as_str())
}

/// The second holder of these bytes, after the first has gone.
fn shared(alloc: Global, bytes: &[u8]) -> Result<Bytes, NoMemory> {
    let first = Bytes::counted(alloc, bytes)?;
    let second = first.copy(alloc)?;
    Ok(second)
}

/// `TEXT`: a copy of it as a text, as bytes, as counted bytes whose first holder is gone, and as a constant's text.
fn copies(alloc: Global, input: &str) -> Result<Vec<u8>, NoMemory> {
    let mut out = Vec::new(alloc);
    let text = Text::of(alloc, input)?.copy(alloc)?;
    let bytes = Bytes::of(alloc, input.as_bytes())?.copy(alloc)?;
    add(&mut out, text.as_str())?;
    out.extend_from_slice(bytes.as_slice())?;
    let more = shared(alloc, input.as_bytes())?;
    out.extend_from_slice(more.as_slice())?;
    if bytes.as_slice().len() <= LIMIT {
        let own = bytes.as_slice().to_vec(alloc)?;
        let constant = ConstText::new(own).copy(alloc)?;
        out.extend_from_slice(constant.bytes())?;
    }
    Ok(out)
}

/// Does what a word asks: `main` and `abel` put a file, `-main` and `-abel` delete one; adds whether one was deleted.
fn change(files: &mut Files, out: &mut Vec<u8>, word: &str) -> Result<(), NoMemory> {
    match word {
        "main" => files.put("main.go", b"b"),
        "main=" => files.put("main.go", b"again"),
        "abel" => files.put("abel.go", b"a"),
        "-main" => Ok(out.push(if files.del("main.go") { b'y' } else { b'n' })?),
        _ => Ok(()),
    }
}

/// `WORD ..`: what is deleted, and then the files in their order with their bytes.
fn files(alloc: Global, input: &str) -> Result<Vec<u8>, NoMemory> {
    let mut out = Vec::new(alloc);
    let mut files = Files::new(alloc);
    for word in input.split(' ') {
        change(&mut files, &mut out, word)?;
    }
    for file in 0..files.count() {
        let (path, bytes) = files.at(file);
        let text = format!(in alloc; " {path}=")?;
        add(&mut out, text.as_str())?;
        out.extend_from_slice(bytes)?;
    }
    for path in ["main.go", "main"] {
        add(
            &mut out,
            if files.get(path).is_some() {
                " held"
            } else {
                " not held"
            },
        )?;
    }
    Ok(out)
}

/// Adds how many bytes of a text are written.
fn write(alloc: Global, out: &mut Vec<u8>, sink: &mut MemSink, word: &str) -> Result<(), NoMemory> {
    match sink.write(word.as_bytes()) {
        Ok(count) => add_number(alloc, out, count as u64),
        Err(_) => add(out, "failed "),
    }
}

/// `STALL:STALL:TEXT:TEXT`: a sink stalls at the writes of the two numbers; how many bytes of each text are written, and what it holds.
fn sinks(alloc: Global, input: &str) -> Result<Vec<u8>, NoMemory> {
    let mut out = Vec::new(alloc);
    let mut words = input.split(':');
    let mut stalling = Vec::new(alloc);
    stalling.push(number(words.next().unwrap_or("")) as u64)?;
    stalling.push(number(words.next().unwrap_or("")) as u64)?;
    let mut sink = MemSink::new(Vec::new(alloc), Vec::new(alloc), stalling);
    for word in words {
        write(alloc, &mut out, &mut sink, word)?;
    }
    out.extend_from_slice(sink.bytes())?;
    Ok(out)
}

/// The answer to the input of a case of this file.
pub fn answer(alloc: Global, name: &str, input: &str) -> Result<Vec<u8>, NoMemory> {
    match name {
        "copies" => copies(alloc, input),
        "files" => files(alloc, input),
        "kinds" => kinds(alloc, input),
        "lines" => {
            let bytes = bytes_of(alloc, input)?;
            lines(alloc, &bytes)
        }
        "sinks" => sinks(alloc, input),
        _ => unread(alloc),
    }
}
