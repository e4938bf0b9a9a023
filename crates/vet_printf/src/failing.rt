//! Items that are admitted by their shapes: the least set, since an item may have itself among its parts.
ghost use Rattle.std.specs.Prelude.{◌≡◌, ◌<◌, ◌^◌, ◌&&◌, ◌||◌, [], not, length, IsTrue, IfOk};
ghost use Rattle.least.specs.Least.{IsLeast};
ghost use Rattle.least.specs.Work.{among, set_of};
ghost use Rattle.vet_printf.specs.InTable.{flag_at, any_of, fails_shape, fails_by, Admits, AreBelow, AreReaders, row_of};
ghost use Rattle.vet_printf.specs.FailLaws.{more_fail, same_fail};

use crate::readers::{Readers, readers_of};
use crate::shapes::Shape;
use gv_base::NoMemory;
use least::{Admission, least};
use std::alloc::Global;

/// Items: whether they are settled otherwise, their parts, and whose parts they are.
#[derive(Drop)]
struct Failing<'a> {
    fits: &'a [bool],
    shapes: &'a [Shape],
    rows: &'a [Readers],
    ghost below: { AreBelow shapes.now },
    ghost readers_are: { AreReaders shapes.now rows.now },
    ghost few: { length shapes.now < 2 ^ 32 },
}

pub(crate) fn flag_at(flags: &[bool], n: u32) -> bool
    ensures { result ≡ flag_at flags.now n }
{
    match flags.get(n as usize) {
        Some(flag) => *flag,
        None => false,
    }
}

fn any_of(members: &[bool], ids: &[u32]) -> bool
    ensures { result ≡ any_of (set_of members.now) ids.now }
{
    for id in ids {
        if flag_at(members, *id) {
            return true;
        }
    }
    false
}

fn fails_parts(members: &[bool], shape: &Shape) -> bool
    ensures { result ≡ (not shape.now.parted || any_of (set_of members.now) shape.now.parts) }
{
    !shape.parted || any_of(members, shape.parts.as_slice())
}

fn fails_shape(members: &[bool], fit: bool, shape: &Shape) -> bool
    ensures { result ≡ fails_shape (set_of members.now) fit shape.now }
{
    !fit && fails_parts(members, shape)
}

fn fails_by(fits: &[bool], shapes: &[Shape], members: &[bool], n: u32) -> bool
    ensures { result ≡ fails_by fits.now shapes.now (set_of members.now) n }
{
    match shapes.get(n as usize) {
        Some(shape) => fails_shape(members, flag_at(fits, n), shape),
        None => false,
    }
}

impl<'a> Admission for Failing<'a> {
    ghost count = { λ s. length s.shapes.now };

    ghost admits = { λ s. Admits s.fits.now s.shapes.now };

    ghost readers = { λ s. row_of s.rows.now };

    ghost monotone = { λ s. more_fail s.fits.now s.shapes.now };

    ghost local = { λ s. same_fail s.fits.now s.shapes.now s.rows.now s.below s.readers_are };

    ghost within = { λ s. s.readers_are.within };

    fn count(&self) -> u32 {
        self.shapes.len() as u32
    }

    fn judge(&self, members: &[bool], at: u32) -> Result<bool, NoMemory> {
        Ok(fails_by(self.fits, self.shapes, members, at))
    }

    fn readers(&self, at: u32) -> &[u32] {
        self.rows[at as usize].as_slice()
    }
}

/// No items are looked at before the others.
fn none<'a>() -> &'a [u32]
    ensures { result.now ≡ [] }
{
    &[]
}

/// Which items are admitted.
pub(crate) fn flags_of(
    alloc: Global,
    fits: &[bool],
    shapes: &[Shape],
    rows: &[Readers],
) -> Result<Vec<bool>, NoMemory>
    requires few { length shapes.now < 2 ^ 32 }
    requires below { AreBelow shapes.now }
    requires rows { AreReaders shapes.now rows.now }
    ensures size { IfOk result (λ flags. length flags.items ≡ length shapes.now) }
    ensures least { IfOk result (λ flags. IsLeast (among (length shapes.now) (Admits fits.now shapes.now)) (set_of flags.items)) }
{
    let all = Failing { fits, shapes, rows };
    let flags = least(alloc, &all, none())?;
    Ok(flags)
}
