//! The least set of functions that print in one way, by numbers.
ghost use Rattle.std.specs.Prelude.{◌≡◌, ◌<◌, ◌^◌, [], length, IfOk};
ghost use Rattle.least.specs.Least.{IsLeast};
ghost use Rattle.least.specs.Work.{among, set_of};
ghost use Rattle.vet_printf.specs.InTable.{Admits, AreBelow, AreReaders};

use crate::failing::flags_of;
use crate::readers::{Readers, readers_of};
use crate::shapes::Shape;
use gv_base::NoMemory;
use std::alloc::Global;

/// No item is settled otherwise than by its shape.
fn no_fits<'a>() -> &'a [bool]
    ensures { result.now ≡ [] }
{
    &[]
}

fn item_readers(alloc: Global, items: &[Shape]) -> Result<Vec<Readers>, NoMemory>
    requires { length items.now < 2 ^ 32 }
    ensures { IfOk result (λ rows. AreReaders items.now rows.items) }
{
    let rows = readers_of(alloc, items)?;
    Ok(rows)
}

fn set_over(alloc: Global, items: &[Shape], rows: &[Readers]) -> Result<Vec<bool>, NoMemory>
    requires few { length items.now < 2 ^ 32 }
    requires below { AreBelow items.now }
    requires rows { AreReaders items.now rows.now }
    ensures { IfOk result (λ flags. IsLeast (among (length items.now) (Admits [] items.now)) (set_of flags.items)) }
{
    let flags = flags_of(alloc, no_fits(), items, rows)?;
    Ok(flags)
}

/// The functions that print, of those that these items are: an item is parted where its function is neither listed nor hands on to a
/// function of another package that prints, and its parts are the functions of the package to which it hands on.
pub(crate) fn printing(alloc: Global, items: &[Shape]) -> Result<Vec<bool>, NoMemory>
    requires few { length items.now < 2 ^ 32 }
    requires below { AreBelow items.now }
    ensures { IfOk result (λ flags. IsLeast (among (length items.now) (Admits [] items.now)) (set_of flags.items)) }
{
    let rows = item_readers(alloc, items)?;
    let flags = set_over(alloc, items, &rows)?;
    Ok(flags)
}
