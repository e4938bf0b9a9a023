//! What a load reads, and what comes of it.
use crate::told::{add, said, unread};
use action_graph::{Kit, Load, LoadInput, Unloaded, texts_of_load};
use bundles::bytes_of;
use go_kit::{GoKit, Loaded};
use gv_base::{Bytes, NoMemory, Row, Text};
use std::alloc::Global;

/// Adds a name and its bytes, of `NAME TEXT`.
fn push_named(
    alloc: Global,
    list: &mut Vec<(Text, Bytes)>,
    name: &str,
    text: &str,
) -> Result<(), NoMemory> {
    let name = Text::of(alloc, name)?;
    let bytes = Bytes::new(bytes_of(alloc, text)?);
    list.push((name, bytes))?;
    Ok(())
}

/// The input of a path and of parts `NAME TEXT`: those whose names end in `.go` are files, the others exports.
fn input_of(alloc: Global, input: &str) -> Result<LoadInput, NoMemory> {
    let mut parts = input.split(" | ");
    let path = Text::of(alloc, parts.next().unwrap_or(""))?;
    let mut files = Vec::new(alloc);
    let mut env = Vec::new(alloc);
    for part in parts {
        let (name, text) = part.split_once(" ").unwrap_or((part, ""));
        if name.ends_with(".go") {
            push_named(alloc, &mut files, name, text)?;
        } else {
            push_named(alloc, &mut env, name, text)?;
        }
    }
    Ok(LoadInput {
        path,
        files: Row::new(files),
        env: Row::new(env),
    })
}

/// The texts of what a load reads, each behind `|`.
fn texts(alloc: Global, input: &str) -> Result<Vec<u8>, NoMemory> {
    let input = input_of(alloc, input)?;
    let mut out = Vec::new(alloc);
    for text in &texts_of_load(alloc, &input)? {
        out.push(b'|')?;
        out.extend_from_slice(text.as_slice())?;
    }
    Ok(out)
}

/// The text of what comes of a load, behind `a` where the package is accepted, and `r` where it is refused.
fn shown(alloc: Global, load: &Load<Loaded>) -> Result<Vec<u8>, NoMemory> {
    let (letter, bytes) = match load {
        Load::Accepted { loaded: _, export } => ("a ", export.as_slice()),
        Load::Refused { marks } => ("r ", marks.as_slice()),
    };
    let mut out = said(alloc, letter)?;
    out.extend_from_slice(bytes)?;
    Ok(out)
}

/// What comes of a load; want of memory and a circle of rules come as they are.
fn loaded(alloc: Global, kit: &mut GoKit, input: &LoadInput) -> Result<Vec<u8>, NoMemory> {
    if kit.loads() >= 1000 {
        return unread(alloc);
    }
    kit.clear();
    match kit.load(input, None) {
        Ok(load) => shown(alloc, &load),
        Err(Unloaded::NoMemory) => Err(NoMemory),
        Err(Unloaded::Stuck) => said(alloc, "circle"),
    }
}

/// What comes of a load by a new kit.
fn packages(alloc: Global, input: &str) -> Result<Vec<u8>, NoMemory> {
    let input = input_of(alloc, input)?;
    let mut kit = GoKit::new(alloc);
    loaded(alloc, &mut kit, &input)
}

/// How many loads a kit counts, before a load, after it, and after another.
fn counted(alloc: Global, input: &str) -> Result<Vec<u8>, NoMemory> {
    let input = input_of(alloc, input)?;
    let mut kit = GoKit::new(alloc);
    let mut out = Vec::new(alloc);
    for _load in 0..3 {
        let text = format!(in alloc; "{} ", kit.loads())?;
        add(&mut out, text.as_str())?;
        let _text = loaded(alloc, &mut kit, &input)?;
    }
    Ok(out)
}

/// The answer to the input of a case of this file.
pub fn answer(alloc: Global, name: &str, input: &str) -> Result<Vec<u8>, NoMemory> {
    match name {
        "counted" => counted(alloc, input),
        "packages" => packages(alloc, input),
        "texts" => texts(alloc, input),
        _ => unread(alloc),
    }
}
