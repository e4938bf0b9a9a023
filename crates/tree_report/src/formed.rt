//! The files and the packages of a tree, or the limit that it is over.
ghost use Rattle.std.specs.Prelude.{◌≡◌, None, IfOk};
ghost use Rattle.tree_report.specs.Formed.{Holds, IsKnown};
ghost use Rattle.tree_report.specs.Keeping.{IsHeard};
ghost use Rattle.tree_report.specs.Limits.{limited_sizes, size_limit};

use crate::heard::Heard;
use crate::limits::{limited_sizes, size_limit};
use crate::parsed::Parsed;
use crate::readers::told_all;
use analysis_core::TreeLimit;
use go_tree::Head;
use gv_base::{Bytes, Files, NoMemory, Text};
use import_graph::{Package, packages};
use parse_file::FileVerdict;
use std::alloc::Global;
use std::thread::Threads;

/// The most packages of a tree.
const MOST_PACKAGES: usize = 1024;

/// What is known of the files of a tree, and its packages: why files are refused, without the trees of the others.
#[derive(Drop)]
pub struct Formed {
    pub refusals: Vec<Option<FileVerdict>>,
    pub heads: Vec<Option<Head>>,
    pub packages: Vec<Package>,
}

/// What is known of a tree.
#[derive(Drop)]
pub enum Known {
    /// It is over this limit, and over none before it.
    Over(TreeLimit),
    /// It is within the limits.
    Of(Formed),
}

/// What was read for a report, of these files.
pub fn heard_of(files: Vec<(Text, Bytes)>, formed: Formed) -> Heard
    requires { Holds files.items formed }
    ensures { IsHeard result }
{
    let Formed {
        refusals,
        heads,
        packages: _,
    } = formed;
    Heard {
        files,
        heads,
        refusals,
    }
}

/// What is known of a tree whose files are within the limits.
fn packed<R: Threads + Sync>(
    rt: &R,
    alloc: Global,
    workers: usize,
    files: &Files,
    heard: &Heard,
    parsed: &mut Parsed,
) -> Result<Known, NoMemory>
    requires within { size_limit (limited_sizes files.now) ≡ None }
    requires kept { IsHeard heard.now }
    ensures { IfOk result (λ known. IsKnown files.now known) }
{
    let (heads, refusals) = told_all(rt, alloc, workers, files, heard, parsed)?;
    let packages = packages(alloc, files, &heads)?;
    if packages.len() > MOST_PACKAGES {
        return Ok(Known::Over(TreeLimit::Packages));
    }
    Ok(Known::Of(Formed {
        refusals,
        heads,
        packages,
    }))
}

/// What is known of a tree: the first limit that it is over, or its files and packages. The trees of its files that were parsed go behind the others.
pub fn known_of<R: Threads + Sync>(
    rt: &R,
    alloc: Global,
    workers: usize,
    files: &Files,
    heard: &Heard,
    parsed: &mut Parsed,
) -> Result<Known, NoMemory>
    requires { IsHeard heard.now }
    ensures { IfOk result (λ known. IsKnown files.now known) }
{
    let sizes = limited_sizes(alloc, files)?;
    match size_limit(&sizes) {
        Some(limit) => Ok(Known::Over(limit)),
        None => {
            let known = packed(rt, alloc, workers, files, heard, parsed)?;
            Ok(known)
        }
    }
}
