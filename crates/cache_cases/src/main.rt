//! A program for tests: caches of many entries, and texts that are nearly those of caches. It prints a line for each case.
#![tactic(auto)]

mod alike;
mod changed;
mod shared;

use gv_base::NoMemory;
use std::process::ExitCode;

fn show(rt: &HostRuntime, name: &str, holds: bool) {
    let _printed = if holds {
        println!(rt; "{name}: so")
    } else {
        println!(rt; "{name}: NOT SO")
    };
}

fn show_all(rt: &HostRuntime) -> Result<(), NoMemory> {
    let alloc = rt.alloc();
    let shared = shared::is_read(alloc)?;
    show(
        rt,
        "65536 entries over one text of 1048576 bytes are read, the last is found, and the same is written",
        shared,
    );
    let alike = alike::are_found(alloc)?;
    show(
        rt,
        "of 100000 entries whose texts agree in length and in their first 16 bytes the last 65536 are found after trim",
        alike,
    );
    let changed = changed::all_return(alloc)?;
    show(
        rt,
        "a text with a byte changed to 9, or cut, is refused or read as it is spelled",
        changed,
    );
    Ok(())
}

fn main(rt: HostRuntime) -> ExitCode {
    match show_all(&rt) {
        Ok(()) => ExitCode::from(0),
        Err(_) => ExitCode::from(7),
    }
}
