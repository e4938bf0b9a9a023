//! Has the trees in the folders that lie where it runs checked, and prints a line for each: as expected, or each error that differs from those
//! that comments in the files expect. Of the trees in one of the folders it asks for a report.
#![tactic(auto)]

mod comparison;
mod expected;
mod found;
mod report;
mod reported;
mod session;
mod trees;

use anyhow::Result;
use bundles::names;
use trees::run_file;

fn main(rt: HostRuntime) -> Result<()> {
    for group in names(&rt, ".")?.as_slice() {
        for name in names(&rt, group.as_str())?.as_slice() {
            run_file(&rt, &rt, group.as_str(), name.as_str())?;
        }
    }
    Ok(())
}
