//! What is kept of a package that was checked, and how it is read again.
ghost use Rattle.std.specs.Prelude.{◌≡◌, ◌≤◌, ◌^◌, IfOk, length, map};
ghost use Rattle.go_tree.specs.Bindings.{AreInOrder};
ghost use Rattle.package_objects.specs.Declares.{AreSmall};
ghost use Rattle.unit_read.specs.Environments.{IsEnvironment, faces_in};
ghost use Rattle.unit_read.specs.Index.{texts_of};
ghost use Rattle.unit_read.specs.Subjects.{full_of, IsRead};
ghost use Rattle.unit_read.specs.Texts.{AreTexts};
ghost use Rattle.check_pkg.specs.Typings.{AreFlagsOf, AreSameFlags, items_of, unit_by};

use go_tree::{Bindings, FileTree, NodeRef};
use gv_base::NoMemory;
use std::alloc::Global;
use typed_marks::State;
use unit_read::{Environment, Subject};
use unit_rows::read_unit;

/// What is said of the nodes of each file: which names are declared before in their block, which need themselves, which lead back to
/// themselves, and of which type a node declares a method.
#[derive(Drop)]
pub struct Flags {
    pub redeclared: Vec<Vec<bool>>,
    pub cyclic: Vec<Vec<bool>>,
    pub circular: Vec<Vec<bool>>,
    pub owners: Vec<Vec<Option<NodeRef>>>,
}

/// What is kept of a package that was checked, beside its files, their trees and the interfaces of its environment: what the uses in its
/// files denote, what is said of its nodes, and its marks, with the table of its types. So it is read again without a search.
#[derive(Drop)]
pub struct Typed {
    pub uses: Bindings,
    pub flags: Flags,
    pub state: State,
}

/// The flags of a package that has been read. Its other rows are dropped.
pub(crate) fn flags_of(s: Subject) -> Flags
    ensures { AreFlagsOf s.entry result }
{
    Flags {
        redeclared: s.redeclared,
        cyclic: s.cyclic,
        circular: s.circular,
        owners: s.owners,
    }
}

fn copied_row<T: Copy>(alloc: Global, row: &[T]) -> Result<Vec<T>, NoMemory>
    ensures { IfOk result (λ copy. copy.items ≡ row.now) }
{
    let mut copy = Vec::with_capacity(alloc, row.len())?;
    for cell in row {
        copy.push(*cell)?;
    }
    Ok(copy)
}

fn copied_rows<T: Copy>(alloc: Global, rows: &[Vec<T>]) -> Result<Vec<Vec<T>>, NoMemory>
    ensures { IfOk result (λ copy. map items_of copy.items ≡ map items_of rows.now) }
{
    let mut copy = Vec::with_capacity(alloc, rows.len())?;
    for row in rows {
        let one = copied_row(alloc, row)?;
        copy.push(one)?;
    }
    Ok(copy)
}

fn copied_flags(alloc: Global, flags: &Flags) -> Result<Flags, NoMemory>
    ensures { IfOk result (AreSameFlags flags.now) }
{
    let redeclared = copied_rows(alloc, &flags.redeclared)?;
    let cyclic = copied_rows(alloc, &flags.cyclic)?;
    let circular = copied_rows(alloc, &flags.circular)?;
    let owners = copied_rows(alloc, &flags.owners)?;
    Ok(Flags {
        redeclared,
        cyclic,
        circular,
        owners,
    })
}

impl Typed {
    /// The package, read again over its path, the bytes of its files, their trees and the interfaces of its environment.
    pub fn subject<'a>(
        &'a self,
        alloc: Global,
        path: &'a [u8],
        texts: &'a [&'a [u8]],
        trees: &'a [FileTree],
        env: &'a Environment<'a>,
    ) -> Result<Subject<'a>, NoMemory>
        requires small { AreSmall trees.now }
        requires few { length trees.now ≤ 2 ^ 32 }
        requires uses { AreInOrder self.now.uses }
        requires env { IsEnvironment env.now }
        requires texts { AreTexts path.now (texts_of texts.now) trees.now }
        ensures read { IfOk result (λ u. IsRead u) }
        ensures of { IfOk result (λ u. full_of u ≡ unit_by path.now (texts_of texts.now) trees.now (faces_in env.now) self.now) }
        ensures env { IfOk result (λ u. u.env.now ≡ env.now) }
    {
        let flags = copied_flags(alloc, &self.flags)?;
        let Flags {
            redeclared,
            cyclic,
            circular,
            owners,
        } = flags;
        let subject = read_unit(
            alloc, path, texts, trees, &self.uses, env, redeclared, cyclic, circular, owners,
        )?;
        Ok(subject)
    }
}
