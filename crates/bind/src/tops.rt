//! The names that the files of a package declare outside functions.
ghost use Rattle.std.specs.Prelude.{◌≡◌, ◌<◌, ◌++◌, ◌==◌, Some, None, IfOk, OnOk, length, option_map, bytes_eq, codes, cond};
ghost use Rattle.bind.specs.Tables.{pairs};
ghost use Rattle.bind.specs.Package.{narrow, unless_init, top_name, top_of, tops_of, tops_before};

use crate::file::File;
use crate::table::Declared;
use file_uses::name_at;
use go_tree::NodeRef;
use gv_base::NoMemory;
use scopes::Named;
use std::alloc::Global;

/// The number in 32 bits, 0 where it has more.
pub fn narrow(number: usize) -> u32
    ensures { result ≡ narrow number }
{
    if number < 4294967296 {
        number as u32
    } else {
        0
    }
}

fn is_init(name: &[u8]) -> bool
    ensures { result ≡ bytes_eq name.now (codes "init") }
{
    name == b"init".as_slice()
}

/// How many nodes a file has.
pub fn count_nodes(file: &File<'_>) -> usize
    ensures { result ≡ length file.now.tree.now.nodes }
{
    file.tree.nodes.as_slice().len()
}

/// The name, unless it is to be left out.
pub fn unless(left_out: bool, name: &[u8]) -> Option<&[u8]>
    ensures { option_map (λ o. o.now) result ≡ cond left_out None (Some name.now) }
{
    if left_out { None } else { Some(name) }
}

/// The name, where it is wanted.
pub fn only_if(wanted: bool, name: Option<&[u8]>) -> Option<&[u8]>
    ensures { option_map (λ o. o.now) result ≡ cond wanted (option_map (λ o. o.now) name.entry) None }
{
    if wanted { name } else { None }
}

fn unless_init(name: Option<&[u8]>) -> Option<&[u8]>
    ensures { option_map (λ o. o.now) result ≡ unless_init (option_map (λ o. o.now) name.entry) }
{
    match name {
        Some(name) => unless(is_init(name), name),
        None => None,
    }
}

/// Whether it is declared outside functions.
fn is_top(file: &File<'_>, named: Named) -> bool
    ensures { result ≡ (named.end == length file.now.tree.now.nodes) }
{
    named.end == file.tree.nodes.as_slice().len()
}

/// The name that is declared outside functions.
fn top_name<'a>(file: &File<'a>, named: Named) -> Option<&'a [u8]>
    ensures { option_map (λ o. o.now) result ≡ top_name file.now named }
{
    only_if(
        is_top(file, named),
        unless_init(name_at(file.bytes, file.tree, named.node)),
    )
}

/// Adds the name, if it is declared outside functions.
fn push_top<'a>(
    file: &File<'a>,
    number: u32,
    named: Named,
    out: &mut Vec<Declared<'a>>,
) -> Result<(), NoMemory>
    ensures { OnOk result (pairs out.new.items ≡ pairs out.old.items ++ top_of file.now number named) }
{
    match top_name(file, named) {
        Some(name) => {
            out.push(Declared {
                name,
                at: NodeRef {
                    file: number,
                    node: narrow(named.node),
                },
            })?;
            Ok(())
        }
        None => Ok(()),
    }
}

/// Adds the names that a file declares outside functions.
fn push_tops<'a>(file: &File<'a>, number: u32, out: &mut Vec<Declared<'a>>) -> Result<(), NoMemory>
    ensures { OnOk result (pairs out.new.items ≡ pairs out.old.items ++ tops_of file.now number file.now.locals.names.items) }
{
    let names = file.locals.names.as_slice();
    for named in names {
        push_top(file, number, *named, out)?;
    }
    Ok(())
}

/// The names that the files declare outside functions.
pub fn package_names<'a>(alloc: Global, files: &[File<'a>]) -> Result<Vec<Declared<'a>>, NoMemory>
    ensures { IfOk result (λ all. pairs all.items ≡ tops_before files.now (length files.now)) }
{
    let mut out = Vec::new(alloc);
    for at in 0..files.len() {
        let file = &files[at];
        push_tops(file, narrow(at), &mut out)?;
    }
    Ok(out)
}
