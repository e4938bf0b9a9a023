//! Runs the cases in the folders that lie where it runs, and prints a line for each file: as expected, or what differs.
#![tactic(auto)]

mod cases;
mod family;
mod heads;
mod labels;
mod needs;
mod parsed;
mod pieces;
mod tokens;
mod types;
mod uses;

use anyhow::Result;
use bundles::names;
use cases::run_bundles;
use family::family_of;

fn main(rt: HostRuntime) -> Result<()> {
    for name in names(&rt, ".")?.as_slice() {
        match family_of(name.as_str()) {
            Some(family) => run_bundles(&rt, family, name.as_str())?,
            None => println!(rt; "{name}: no family of cases has this name")?,
        }
    }
    Ok(())
}
