//! What bytes are held in.
ghost use Rattle.std.specs.Prelude.{◌≡◌, IfOk};
ghost use Rattle.std.specs.Arc.{arc_slice_items};
ghost use Rattle.gv_base.specs.Held.{held_bytes};

use crate::fault::NoMemory;
use std::alloc::Global;
use std::sync::ArcSlice;

/// What bytes are held in.
pub(crate) enum Held {
    /// A list with one holder.
    Own(Vec<u8>),
    /// A list whose holders are counted.
    Counted(ArcSlice<u8>),
}

/// As a function of its own, so that a caller's proof has no branch where bytes go.
impl Drop for Held {
    fn drop(self) {
        match self {
            Held::Own(items) => drop(items),
            Held::Counted(items) => drop(items),
        }
    }
}

/// The bytes that are held.
pub(crate) fn bytes_in(held: &Held) -> &[u8]
    ensures { result.now ≡ held_bytes held.now }
{
    match held {
        Held::Own(items) => items.as_slice(),
        Held::Counted(items) => items.as_slice(),
    }
}

fn counted(alloc: Global, bytes: &[u8]) -> Result<ArcSlice<u8>, NoMemory>
    ensures { IfOk result (λ items. arc_slice_items items ≡ bytes.now) }
{
    let items = ArcSlice::from_slice(alloc, bytes)?;
    Ok(items)
}

/// One holder more of a list. A count that is full, at 2^63, has the list copied.
fn one_more(alloc: Global, items: &ArcSlice<u8>) -> Result<ArcSlice<u8>, NoMemory>
    ensures { IfOk result (λ more. arc_slice_items more ≡ arc_slice_items items.now) }
{
    match items.clone() {
        Ok(more) => Ok(more),
        Err(_) => {
            let copy = counted(alloc, items.as_slice())?;
            Ok(copy)
        }
    }
}

/// These bytes in a list whose holders are counted.
pub(crate) fn held_counted(alloc: Global, bytes: &[u8]) -> Result<Held, NoMemory>
    ensures { IfOk result (λ held. held_bytes held ≡ bytes.now) }
{
    let items = counted(alloc, bytes)?;
    Ok(Held::Counted(items))
}

/// The same bytes again: a list with one holder is copied, another has one holder more.
pub(crate) fn held_again(alloc: Global, held: &Held) -> Result<Held, NoMemory>
    ensures { IfOk result (λ again. held_bytes again ≡ held_bytes held.now) }
{
    match held {
        Held::Own(items) => {
            let copy = items.as_slice().to_vec(alloc)?;
            Ok(Held::Own(copy))
        }
        Held::Counted(items) => {
            let more = one_more(alloc, items)?;
            Ok(Held::Counted(more))
        }
    }
}
