//! The head of a file again.
ghost use Rattle.std.specs.Prelude.{◌≡◌, IfOk};

use go_tree::{Head, ImportLine, LocalName};
use gv_base::{NoMemory, Row};
use std::alloc::Global;

fn local_again(alloc: Global, local: &LocalName) -> Result<LocalName, NoMemory>
    ensures { IfOk result (λ copy. copy ≡ local.now) }
{
    match local {
        LocalName::Default => Ok(LocalName::Default),
        LocalName::Named(name) => {
            let name = name.copy(alloc)?;
            Ok(LocalName::Named(name))
        }
        LocalName::Blank => Ok(LocalName::Blank),
        LocalName::Dot => Ok(LocalName::Dot),
    }
}

fn line_again(alloc: Global, line: &ImportLine) -> Result<ImportLine, NoMemory>
    ensures { IfOk result (λ copy. copy ≡ line.now) }
{
    let path = line.path.copy(alloc)?;
    let local = local_again(alloc, &line.local)?;
    Ok(ImportLine {
        path,
        at: line.at,
        local,
    })
}

fn lines_again(alloc: Global, lines: &[ImportLine]) -> Result<Vec<ImportLine>, NoMemory>
    ensures { IfOk result (λ copy. copy.items ≡ lines.now) }
{
    let mut copy = Vec::new(alloc);
    for line in lines {
        let one = line_again(alloc, line)?;
        copy.push(one)?;
    }
    Ok(copy)
}

fn head_again(alloc: Global, head: &Head) -> Result<Head, NoMemory>
    ensures { IfOk result (λ copy. copy ≡ head.now) }
{
    let name = head.name.copy(alloc)?;
    let imports = lines_again(alloc, head.imports.as_slice())?;
    Ok(Head {
        name,
        name_at: head.name_at,
        imports: Row::new(imports),
        constraint: head.constraint,
    })
}

/// The head again, where the file has one.
pub fn head_if(alloc: Global, head: &Option<Head>) -> Result<Option<Head>, NoMemory>
    ensures { IfOk result (λ copy. copy ≡ head.now) }
{
    match head {
        Some(head) => {
            let copy = head_again(alloc, head)?;
            Ok(Some(copy))
        }
        None => Ok(None),
    }
}
