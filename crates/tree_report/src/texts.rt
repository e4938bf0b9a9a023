//! Packages with the texts of their files, as a run takes them.
ghost use Rattle.std.specs.Prelude.{◌≡◌, map, IfOk};
ghost use Rattle.analysis_core.specs.Replies.{file_numbered};
ghost use Rattle.import_graph.specs.Orders.{is_sound};
ghost use Rattle.tree_report.specs.Reports.{texts_of};

use gv_base::{Bytes, Files, NoMemory, Row, Text};
use gv_driver::PackageTexts;
use import_graph::{PackState, Package};
use std::alloc::Global;

fn is_sound(state: &PackState) -> bool
    ensures { result ≡ is_sound state.now }
{
    matches!(state, PackState::Sound)
}

/// A file again, with one holder more of its bytes.
fn shared(alloc: Global, file: &(Text, Bytes)) -> Result<(Text, Bytes), NoMemory>
    ensures { IfOk result (λ more. more ≡ file.now) }
{
    let path = file.0.copy(alloc)?;
    let bytes = file.1.copy(alloc)?;
    Ok((path, bytes))
}

/// All files again.
pub fn shared_files(alloc: Global, files: &Files) -> Result<Vec<(Text, Bytes)>, NoMemory>
    ensures { IfOk result (λ list. list.items ≡ files.now) }
{
    let mut list = Vec::new(alloc);
    for file in 0..files.count() {
        let more = shared(alloc, files.entry(file))?;
        list.push(more)?;
    }
    Ok(list)
}

fn shared_file(alloc: Global, files: &Files, file: u32) -> Result<(Text, Bytes), NoMemory>
    ensures { IfOk result (λ more. more ≡ file_numbered files.now file) }
{
    if file < files.count() {
        let more = shared(alloc, files.entry(file))?;
        return Ok(more);
    }
    let path = Text::new(String::new(alloc));
    let bytes = Bytes::new(Vec::new(alloc));
    Ok((path, bytes))
}

fn files_of(alloc: Global, files: &Files, numbers: &[u32]) -> Result<Vec<(Text, Bytes)>, NoMemory>
    ensures { IfOk result (λ list. list.items ≡ map (file_numbered files.now) numbers.now) }
{
    let mut list = Vec::new(alloc);
    for number in numbers {
        let file = shared_file(alloc, files, *number)?;
        list.push(file)?;
    }
    Ok(list)
}

fn texts_of(alloc: Global, files: &Files, pack: &Package) -> Result<PackageTexts, NoMemory>
    ensures { IfOk result (λ texts. texts ≡ texts_of files.now pack.now) }
{
    let path = pack.path.copy(alloc)?;
    let imports = pack.imports.as_slice().to_vec(alloc)?;
    let list = files_of(alloc, files, pack.files.as_slice())?;
    Ok(PackageTexts {
        path,
        stub: pack.stub,
        sound: is_sound(&pack.state),
        imports: Row::new(imports),
        files: Row::new(list),
    })
}

/// Each package with the texts of its files.
pub fn all_texts(
    alloc: Global,
    files: &Files,
    packages: &[Package],
) -> Result<Vec<PackageTexts>, NoMemory>
    ensures { IfOk result (λ texts. texts.items ≡ map (texts_of files.now) packages.now) }
{
    let mut list = Vec::new(alloc);
    for pack in packages {
        let texts = texts_of(alloc, files, pack)?;
        list.push(texts)?;
    }
    Ok(list)
}
