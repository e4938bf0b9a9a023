//! The names of the package block.
ghost use Rattle.std.specs.Prelude.{◌≡◌, IfOk, map};
ghost use Rattle.unit_read.specs.Index.{texts_of};
ghost use Rattle.unit_read.specs.Subjects.{unit_of};
ghost use Rattle.unit_read.specs.Units.{name_at};
ghost use Rattle.unit_rows.specs.Redeclared.{package_names};
ghost use Rattle.check_pkg.specs.Names.{IsBlock};

use go_tree::NodeRef;
use gv_base::NoMemory;
use std::alloc::Global;
use std::collections::HashMap;
use unit_read::{Subject, index};

/// The names that a package's files declare at package level, in order of file and node, and the first place of each.
#[derive(Drop)]
pub struct PackageBlock<'a> {
    pub names: Vec<NodeRef>,
    pub firsts: HashMap<&'a [u8], usize>,
}

/// How names are spelled.
fn spelled<'a>(alloc: Global, u: &Subject<'a>, names: &[NodeRef]) -> Result<Vec<&'a [u8]>, NoMemory>
    ensures { IfOk result (λ texts. texts_of texts.items ≡ map (name_at (unit_of u.now)) names.now) }
{
    let mut texts = Vec::new(alloc);
    for name in names {
        texts.push(u.name_at(*name))?;
    }
    Ok(texts)
}

/// The package block, by its names.
pub fn package_block<'a>(
    alloc: Global,
    u: &Subject<'a>,
    names: Vec<NodeRef>,
) -> Result<PackageBlock<'a>, NoMemory>
    requires { names.items ≡ package_names (unit_of u.now) }
    ensures { IfOk result (IsBlock (unit_of u.now)) }
{
    let texts = spelled(alloc, u, &names)?;
    let firsts = index(alloc, &texts)?;
    Ok(PackageBlock { names, firsts })
}
