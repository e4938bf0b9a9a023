//! What is handed on to single analyzers.
ghost use Rattle.std.specs.Prelude.{◌≡◌, codes, IfOk, map};
ghost use Rattle.unit_read.specs.Subjects.{flag};
ghost use Rattle.findings.specs.Passes.{unit_in, IsPass};
ghost use Rattle.vet_suite.specs.Free.{path_of, IsFree, AreGiven};

use bind::undeclared;
use findings::Pass;
use gv_base::{Bytes, NoMemory, Text};
use std::alloc::Global;

/// The flags of all nodes: where `rune` denotes the predeclared type.
pub fn free_rows(
    alloc: Global,
    pass: &Pass,
    files: &[(Text, Bytes)],
    named: &[(Text, Text)],
    given: &[(Text, Bytes)],
) -> Result<Vec<Vec<bool>>, NoMemory>
    requires pass { IsPass pass.now }
    requires given { AreGiven (unit_in pass.now) files.now named.now given.now }
    ensures { IfOk result (λ free. IsFree (map path_of files.now) (unit_in pass.now) (codes "rune") (flag free.items)) }
{
    let _ = given;
    let rows = undeclared(alloc, pass.subject.trees, files, named, b"rune")?;
    Ok(rows)
}

fn path_copy(alloc: Global, file: &(Text, Bytes)) -> Result<Text, NoMemory>
    ensures { IfOk result (λ path. path ≡ path_of file.now) }
{
    let path = file.0.copy(alloc)?;
    Ok(path)
}

/// The paths of files.
pub fn paths_of(alloc: Global, files: &[(Text, Bytes)]) -> Result<Vec<Text>, NoMemory>
    ensures { IfOk result (λ paths. paths.items ≡ map path_of files.now) }
{
    let mut paths = Vec::new(alloc);
    for file in files {
        let path = path_copy(alloc, file)?;
        paths.push(path)?;
    }
    Ok(paths)
}
