//! The names in a folder.
use anyhow::Result;
use std::fs;

/// The names of what lies in a folder, in the order of their bytes.
pub fn names(rt: &HostRuntime, folder: &str) -> Result<Vec<String>> {
    let mut names = Vec::new(rt.alloc());
    for entry in fs::read_dir(rt, folder)? {
        let entry = entry?;
        names.push(String::from_str(rt.alloc(), entry.file_name())?)?;
    }
    names.sort()?;
    Ok(names)
}
