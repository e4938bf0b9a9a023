//! The functions of a package that print, in each way.
ghost use Rattle.std.specs.Prelude.{◌≡◌, IfOk};
ghost use Rattle.least.specs.Numbered.{is_marked};
ghost use Rattle.least.specs.Work.{set_of};
ghost use Rattle.findings.specs.Passes.{unit_in, marks_in, IsPass};
ghost use Rattle.vet_printf.specs.InTable.{flag_at};
ghost use Rattle.vet_printf.specs.Items.{is_flagged, kinds_named, ArePrintingSets};
ghost use Rattle.vet_printf.specs.Knowing.{IsKnown};

use crate::items::printing_flags;
use crate::kinds::kinds_number;
use crate::known::Known;
use fact_codec::WrapKind;
use findings::Pass;
use gv_base::NoMemory;
use std::alloc::Global;
use unit_read::find;

/// A flag for each function of a package: whether it prints as `fmt.Print`, as `fmt.Printf` or as `fmt.Errorf`.
#[derive(Drop)]
pub(crate) struct Printing {
    pub print: Vec<bool>,
    pub printf: Vec<bool>,
    pub errorf: Vec<bool>,
}

pub(crate) fn all_printing(
    alloc: Global,
    p: &Pass,
    known: &Known<'_, '_>,
) -> Result<Printing, NoMemory>
    requires pass { IsPass p.now }
    requires known { IsKnown (unit_in p.now) (marks_in p.now) known.now }
    ensures { IfOk result (ArePrintingSets known.now (unit_in p.now) (marks_in p.now)) }
{
    let print = printing_flags(alloc, p, known, WrapKind::Print)?;
    let printf = printing_flags(alloc, p, known, WrapKind::Printf)?;
    let errorf = printing_flags(alloc, p, known, WrapKind::Errorf)?;
    Ok(Printing {
        print,
        printf,
        errorf,
    })
}

fn flag_at(flags: &[bool], i: usize) -> bool
    ensures { result ≡ flag_at flags.now i }
{
    match flags.get(i) {
        Some(flag) => *flag,
        None => false,
    }
}

/// Whether a function is flagged, if there is one of this number.
pub(crate) fn is_marked(flags: &[bool], number: Option<usize>) -> bool
    ensures { result ≡ is_marked (set_of flags.now) number }
{
    match number {
        Some(i) => flag_at(flags, i),
        None => false,
    }
}

fn is_flagged(p: &Pass, known: &Known<'_, '_>, flags: &[bool], name: &[u8]) -> bool
    requires { IsKnown (unit_in p.now) (marks_in p.now) known.now }
    ensures { result ≡ is_flagged (unit_in p.now) flags.now name.now }
{
    let _ = p;
    is_marked(flags, find(known.numbers, name))
}

/// The kinds of the first function of a name.
pub(crate) fn kinds_named(p: &Pass, known: &Known<'_, '_>, x: &Printing, name: &[u8]) -> u8
    requires { IsKnown (unit_in p.now) (marks_in p.now) known.now }
    ensures { result ≡ kinds_named (unit_in p.now) x.now name.now }
{
    let print = is_flagged(p, known, &x.print, name);
    let printf = is_flagged(p, known, &x.printf, name);
    let errorf = is_flagged(p, known, &x.errorf, name);
    kinds_number(print, printf, errorf)
}
