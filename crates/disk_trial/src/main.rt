//! A program for trials of the system's disk: what is listed below the current folder, how a file is
//! read and replaced, and what is kept.
#![tactic(auto)]

use disk::{DirTree, FileKeeper, SystemDisk};
use gv_base::{Denied, Keeper, Tree};
use std::alloc::{AllocError, Global};
use std::{env, io};

/// How many bytes of a file are read.
const MOST: usize = 4_194_304;

fn tree_of(rt: HostRuntime) -> Result<DirTree<SystemDisk<HostRuntime>>, AllocError> {
    let top = String::from_str(rt.alloc(), ".")?;
    Ok(DirTree::new(rt.alloc(), SystemDisk::new(rt, top)))
}

fn keeper_of(rt: HostRuntime) -> Result<FileKeeper<SystemDisk<HostRuntime>>, AllocError> {
    let top = String::from_str(rt.alloc(), ".")?;
    Ok(FileKeeper::new(rt.alloc(), SystemDisk::new(rt, top)))
}

/// What a call answers, in a word.
fn name_of<T>(answer: &Result<T, Denied>) -> &'static str {
    match answer {
        Ok(_) => "done",
        Err(Denied::Failed) => "failed",
        Err(Denied::NoMemory) => "no memory",
    }
}

/// So many bytes, each the low byte of its place's sum with a seed.
fn bytes_of(alloc: Global, count: usize, seed: u8) -> Result<Vec<u8>, AllocError> {
    let mut bytes = Vec::with_capacity(alloc, count)?;
    for place in 0..count {
        bytes.push((place % 251) as u8 ^ seed)?;
    }
    Ok(bytes)
}

/// The number of bytes, and of those that aren't what `bytes_of` makes.
fn print_bytes(rt: &HostRuntime, bytes: &[u8], seed: u8) -> io::Result<()> {
    let mut wrong = 0u64;
    for (place, byte) in bytes.iter().enumerate() {
        if *byte != (place % 251) as u8 ^ seed {
            wrong = wrong.saturating_add(1);
        }
    }
    println!(rt; "{} bytes, {wrong} others", bytes.len())
}

/// The paths, or their number alone.
fn print_list(rt: HostRuntime, all: bool) -> io::Result<()> {
    let mut tree = tree_of(rt)?;
    let list = tree.list();
    println!(rt; "list: {}, faults {}", name_of(&list), tree.faults())?;
    if let Ok(list) = list {
        if all {
            for path in &list {
                println!(rt; "{path}")?;
            }
        }
        println!(rt; "{} files", list.len())?;
    }
    Ok(())
}

/// Reads all that is listed.
fn print_sum(rt: HostRuntime) -> io::Result<()> {
    let mut tree = tree_of(rt)?;
    let mut files = 0u64;
    let mut bytes = 0u64;
    if let Ok(list) = tree.list() {
        for path in &list {
            if let Ok(file) = tree.read(path.as_str(), MOST) {
                files = files.saturating_add(1);
                bytes = bytes.saturating_add(file.len() as u64);
            }
        }
    }
    println!(rt;
        "read {files} files, {bytes} bytes, faults {}",
        tree.faults()
    )
}

fn print_file(rt: HostRuntime, path: &str, most: usize) -> io::Result<()> {
    let mut tree = tree_of(rt)?;
    let read = tree.read(path, most);
    println!(rt; "read {path}: {}, faults {}", name_of(&read), tree.faults())?;
    if let Ok(bytes) = read {
        println!(rt; "{} bytes", bytes.len())?;
    }
    Ok(())
}

/// Replaces the file `w.go`.
fn write(rt: HostRuntime, count: usize, seed: u8) -> io::Result<()> {
    let mut tree = tree_of(rt)?;
    let bytes = bytes_of(rt.alloc(), count, seed)?;
    let written = tree.write("w.go", &bytes);
    println!(rt;
        "write w.go: {}, faults {}",
        name_of(&written),
        tree.faults()
    )
}

fn store(rt: HostRuntime, count: usize, seed: u8) -> io::Result<()> {
    let mut keeper = keeper_of(rt)?;
    let bytes = bytes_of(rt.alloc(), count, seed)?;
    let stored = keeper.store(&bytes);
    println!(rt; "store: {}", name_of(&stored))
}

fn fetch(rt: HostRuntime, seed: u8) -> io::Result<()> {
    let mut keeper = keeper_of(rt)?;
    let fetched = keeper.fetch();
    println!(rt; "fetch: {}", name_of(&fetched))?;
    match fetched {
        Ok(Some(bytes)) => print_bytes(&rt, &bytes, seed),
        Ok(None) => println!(rt; "nothing was stored"),
        Err(_) => Ok(()),
    }
}

/// The number that a word is, or 0.
fn number_of(word: Option<&String>) -> usize {
    match word {
        Some(word) => word.parse::<usize>().unwrap_or(0),
        None => 0,
    }
}

/// A word, or nothing.
fn text_of(word: Option<&String>) -> &str {
    match word {
        Some(word) => word.as_str(),
        None => "",
    }
}

/// With no word: what a small folder gives, and a text kept.
fn all_in_turn(rt: HostRuntime) -> io::Result<()> {
    print_list(rt, true)?;
    print_sum(rt)?;
    print_file(rt, "a/b.go", 5)?;
    print_file(rt, "a/missing.go", 5)?;
    print_file(rt, "a", 5)?;
    write(rt, 70_000, 3)?;
    print_file(rt, "w.go", MOST)?;
    write(rt, 0, 3)?;
    print_file(rt, "w.go", MOST)?;
    fetch(rt, 1)?;
    store(rt, 100_000, 1)?;
    fetch(rt, 1)?;
    store(rt, 3, 2)?;
    fetch(rt, 2)
}

fn main(rt: HostRuntime) -> io::Result<()> {
    let words = env::args(&rt)?.skip(1).collect::<Vec<String>>(rt.alloc())?;
    match text_of(words.get(0)) {
        "list" => print_list(rt, true),
        "count" => print_list(rt, false),
        "sum" => print_sum(rt),
        "read" => print_file(rt, text_of(words.get(1)), number_of(words.get(2))),
        "write" => write(
            rt,
            number_of(words.get(1)),
            (number_of(words.get(2)) % 256) as u8,
        ),
        "store" => store(
            rt,
            number_of(words.get(1)),
            (number_of(words.get(2)) % 256) as u8,
        ),
        "fetch" => fetch(rt, (number_of(words.get(1)) % 256) as u8),
        _ => all_in_turn(rt),
    }
}
