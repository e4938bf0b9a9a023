//! Whether fixes lie in the files of their diagnostics.
ghost use Rattle.std.specs.Prelude.{IsTrue, All, ◌↔◌};
ghost use Rattle.analysis_core.specs.Findings.{LiesInFile, IsOwn};

use crate::diagnostic::Diagnostic;
use fix_apply::Fix;

fn lies_in(file: u32, fix: &Option<Fix>) -> bool
    ensures { IsTrue result ↔ LiesInFile file fix.now }
{
    match fix {
        None => true,
        Some(fix) => fix.file == file,
    }
}

fn is_own(d: &Diagnostic) -> bool
    ensures { IsTrue result ↔ IsOwn d.now }
{
    lies_in(d.place.file, &d.fix)
}

/// Tells whether each fix lies in the file of its diagnostic.
pub fn all_own(d: &[Diagnostic]) -> bool
    ensures { IsTrue result ↔ All IsOwn d.now }
{
    for diagnostic in d {
        if !is_own(diagnostic) {
            return false;
        }
    }
    true
}
