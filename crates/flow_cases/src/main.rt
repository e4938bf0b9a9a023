//! Runs the cases of flow in the Go files that lie where it runs, and prints a line for each file, after what differs from
//! its comments. Files of other kinds are passed over.
#![tactic(auto)]

mod calls;
mod cases;
mod comments;
mod functions;

use anyhow::Result;
use bundles::names;
use std::fs;

fn main(rt: HostRuntime) -> Result<()> {
    for name in names(&rt, ".")?.as_slice() {
        if name.as_str().ends_with(".go") {
            let bytes = fs::read(&rt, name.as_str())?;
            cases::run_file(&rt, rt.alloc(), name.as_str(), bytes.as_slice())?;
        }
    }
    Ok(())
}
