//! Trees of files: a file alone, or those of a bundle.
use crate::report::run_tree;
use crate::reported::run_reported;
use anyhow::{Result, bail};
use bundles::{Section, sections};
use std::alloc::Global;
use std::fs;
use std::random::RandomSource;
use std::thread::Threads;

/// The folder of trees with what is reported of them.
const ANALYZERS: &str = "analyzers";

/// A file of a tree.
#[derive(Clone, Copy, Drop)]
pub struct SourceFile<'a> {
    /// Its path in the tree.
    pub path: &'a str,
    pub text: &'a str,
}

/// The files of a bundle, each under the name of its section.
fn files_of<'a>(alloc: Global, sections: &[Section<'a>]) -> Result<Vec<SourceFile<'a>>> {
    let mut files = Vec::new(alloc);
    for section in sections {
        files.push(SourceFile {
            path: std::str::from_utf8(section.name)?,
            text: std::str::from_utf8(section.text)?,
        })?;
    }
    Ok(files)
}

/// Runs a bundle of files, or a file alone, which stands in its tree under its path here.
pub fn run_file<R: Threads + Sync + RandomSource>(
    rt: &HostRuntime,
    threads: &R,
    group: &str,
    name: &str,
) -> Result<()> {
    let path = format!(in rt.alloc(); "{group}/{name}")?;
    let bytes = fs::read(rt, path.as_str())?;
    if name.ends_with(".txtar") {
        let sections = sections(rt.alloc(), bytes.as_slice())?;
        let files = files_of(rt.alloc(), sections.as_slice())?;
        if group == ANALYZERS {
            return run_reported(rt, threads, path.as_str(), files.as_slice());
        }
        return run_tree(rt, threads, path.as_str(), group, files.as_slice());
    }
    if !name.ends_with(".go") {
        bail!("neither a Go file nor a bundle");
    }
    let text = std::str::from_utf8(bytes.as_slice())?;
    run_tree(
        rt,
        threads,
        path.as_str(),
        group,
        &[SourceFile {
            path: path.as_str(),
            text,
        }],
    )
}
