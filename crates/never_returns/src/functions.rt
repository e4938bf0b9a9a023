//! The functions of a package that never return.
ghost use Rattle.std.specs.Prelude.{◌≡◌, ◌⊎◌, ◌<◌, ◌^◌, ◌↔◌, ℕ, true, IsTrue, IfOk, length, slice_get, Some};
ghost use Rattle.least.specs.Least.{IsLeast};
ghost use Rattle.least.specs.Work.{among, set_of};
ghost use Rattle.never_returns.specs.Bodies.{AreGraphs, AreReaders, AdmitsAt, AdmitsBy, BlockBy, BodyBy, row_of};
ghost use Rattle.never_returns.specs.Laws.{more_admitted, same_admitted};

use crate::files::{Block, FileFlow, Function};
use crate::looks::first_looks;
use crate::readers::{Readers, readers_of};
use flow::never_returns;
use gv_base::NoMemory;
use least::{Admission, least};
use std::alloc::Global;

/// The functions of a package, and for each those whose bodies mention it.
#[derive(Drop)]
pub(crate) struct Functions<'a> {
    alloc: Global,
    files: &'a [FileFlow<'a>],
    functions: &'a [Function],
    rows: Vec<Readers>,
    ghost readers_are: { AreReaders files.now functions.now rows.items },
    ghost few: { length functions.now < 2 ^ 32 },
}

/// Whether a block never returns.
fn block_never(
    alloc: Global,
    files: &[FileFlow],
    members: &[bool],
    block: Block,
) -> Result<bool, NoMemory>
    ensures { IfOk result (λ b. IsTrue b ↔ BlockBy files.now (set_of members.now) block) }
{
    if block.file as usize >= files.len() {
        return Ok(false);
    }
    let file = &files[block.file as usize];
    let never = never_returns(
        alloc, file.tree, file.graph, file.calls, members, block.node,
    )?;
    Ok(never)
}

fn body_never(
    alloc: Global,
    files: &[FileFlow],
    members: &[bool],
    body: Option<Block>,
) -> Result<bool, NoMemory>
    ensures { IfOk result (λ b. IsTrue b ↔ BodyBy files.now (set_of members.now) body) }
{
    match body {
        None => Ok(false),
        Some(block) => {
            let never = block_never(alloc, files, members, block)?;
            Ok(never)
        }
    }
}

/// Whether a function is listed, or has a body that never returns.
fn is_admitted(
    alloc: Global,
    files: &[FileFlow],
    members: &[bool],
    function: &Function,
) -> Result<bool, NoMemory>
    ensures { IfOk result (λ b. IsTrue b ↔ ((function.now.listed ≡ true) ⊎ BodyBy files.now (set_of members.now) function.now.body)) }
{
    if function.listed {
        return Ok(true);
    }
    let never = body_never(alloc, files, members, function.body)?;
    Ok(never)
}

fn function_at(functions: &[Function], at: u32) -> &Function
    requires { at < length functions.now }
    ensures { slice_get functions.now at ≡ Some result.now }
{
    &functions[at as usize]
}

impl<'a> Admission for Functions<'a> {
    ghost count = { λ s. length s.functions.now };

    ghost admits = { λ s. AdmitsBy s.files.now s.functions.now };

    ghost readers = { λ s. row_of s.rows.items };

    ghost monotone = { λ s. more_admitted s.files.now s.functions.now };

    ghost local = { λ s. same_admitted s.files.now s.functions.now s.rows.items s.readers_are };

    ghost within = { λ s. s.readers_are.within };

    fn count(&self) -> u32 {
        self.functions.len() as u32
    }

    fn judge(&self, members: &[bool], at: u32) -> Result<bool, NoMemory> {
        let function = function_at(self.functions, at);
        let admitted = is_admitted(self.alloc, self.files, members, function)?;
        Ok(admitted)
    }

    fn readers(&self, at: u32) -> &[u32] {
        self.rows[at as usize].as_slice()
    }
}

/// Which of the functions of a package never return: the least set, a flag for each. A call of a function
/// of another package is `Call::Stops` or `Call::Passes`, by what is known of that package. A body is
/// searched once, and again where functions that it mentions and that lead back to it joined since.
pub fn never_returning(
    alloc: Global,
    files: &[FileFlow],
    functions: &[Function],
) -> Result<Vec<bool>, NoMemory>
    requires graphs { AreGraphs files.now }
    requires few { length functions.now < 2 ^ 32 }
    ensures size { IfOk result (λ flags. length flags.items ≡ length functions.now) }
    ensures least { IfOk result (λ flags. IsLeast (among (length functions.now) (AdmitsAt files.now functions.now)) (set_of flags.items)) }
{
    let rows = readers_of(alloc, files, functions)?;
    let first = first_looks(alloc, &rows)?;
    let all = Functions {
        alloc,
        files,
        functions,
        rows,
    };
    let flags = least(alloc, &all, &first)?;
    Ok(flags)
}
