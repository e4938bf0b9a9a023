//! `ctrlflow`: the functions of a package that never return.
ghost use Rattle.std.specs.Prelude.{◌≡◌, ◌⊎◌, ◌↔◌, true, false, ℕ, List, IfOk, OnOk, is_some, length, map, slice_index_or};
ghost use Rattle.std.specs.List.{Contains};
ghost use Rattle.fact_codec.specs.Tables.{fact_of};
ghost use Rattle.handed_facts.specs.Handed.{ArePathsApart, AreToldBy};
ghost use Rattle.findings.specs.Passes.{unit_in, marks_in, IsPass};
ghost use Rattle.vet_flow.specs.Unreachable.{AreTreesSpelled};
ghost use Rattle.least.specs.Numbered.{is_marked};
ghost use Rattle.least.specs.Work.{set_of};
ghost use Rattle.own_functions.specs.Functions.{functions, first_of};
ghost use Rattle.own_functions.specs.InCode.{named_in};
ghost use Rattle.vet_never.specs.Knowing.{IsKnown, AreFlaggedNames};
ghost use Rattle.vet_never.specs.Never.{spelling, fact_name, IsNeverText};

use crate::bodies::functions_by_number;
use crate::calls::Known;
use crate::files::{all_known, all_lent};
use fact_codec::{FactTable, Never};
use findings::Pass;
use gv_base::{Bytes, NoMemory, Text};
use handed_facts::read_handed;
use never_returns::{found_by_numbers, never_returning};
use own_functions::{Declared, functions_of, nth_text, numbers_of};
use std::alloc::Global;
use unit_read::find;

// ---- facts

fn has(table: &FactTable<Never>, name: &str) -> bool
    ensures { result ≡ is_some (fact_of table.now name.now) }
{
    table.get(name).is_some()
}

fn put_new(table: &mut FactTable<Never>, name: &str) -> Result<(), NoMemory>
    requires { is_some (fact_of table.old name.now) ≡ false }
    ensures { OnOk result ((q : List ℕ) → Contains (map fact_name table.new) q ↔ (Contains (map fact_name table.old) q ⊎ (q ≡ name.now))) }
{
    table.put(name, Never)?;
    Ok(())
}

fn put_text(table: &mut FactTable<Never>, name: &str) -> Result<(), NoMemory>
    ensures { OnOk result ((q : List ℕ) → Contains (map fact_name table.new) q ↔ (Contains (map fact_name table.old) q ⊎ (q ≡ name.now))) }
{
    if has(table, name) {
        return Ok(());
    }
    put_new(table, name)?;
    Ok(())
}

fn flag_at(flags: &[bool], i: usize) -> bool
    ensures { result ≡ slice_index_or flags.now i false }
{
    match flags.get(i) {
        Some(flag) => *flag,
        None => false,
    }
}

fn flag_of(flags: &[bool], number: Option<usize>) -> bool
    ensures { result ≡ is_marked (set_of flags.now) number }
{
    match number {
        Some(i) => flag_at(flags, i),
        None => false,
    }
}

/// Whether the first function of a name is flagged.
fn is_flagged(p: &Pass, known: &Known<'_, '_>, flags: &[bool], name: &str) -> bool
    requires { IsKnown (unit_in p.now) known.now }
    ensures { result ≡ is_marked (set_of flags.now) (first_of (unit_in p.now) name.now) }
{
    let _ = p;
    flag_of(flags, find(known.numbers, name.as_bytes()))
}

fn put_flagged(
    p: &Pass,
    known: &Known<'_, '_>,
    table: &mut FactTable<Never>,
    flags: &[bool],
    name: &str,
) -> Result<(), NoMemory>
    requires { IsKnown (unit_in p.now) known.now }
    ensures { OnOk result ((q : List ℕ) → Contains (map fact_name table.new) q ↔ (Contains (map fact_name table.old) q ⊎ ((is_marked (set_of flags.now) (first_of (unit_in p.now) name.now) ≡ true) × (q ≡ name.now)))) }
{
    if is_flagged(p, known, flags, name) {
        put_text(table, name)?;
        return Ok(());
    }
    Ok(())
}

/// The names of the functions that are flagged.
fn table_of(
    alloc: Global,
    p: &Pass,
    known: &Known<'_, '_>,
    list: &[Declared],
    flags: &[bool],
) -> Result<FactTable<Never>, NoMemory>
    requires known { IsKnown (unit_in p.now) known.now }
    requires list { map named_in list.now ≡ functions (unit_in p.now) }
    ensures { IfOk result (λ table. AreFlaggedNames (unit_in p.now) flags.now (length list.now) table) }
{
    let mut table = FactTable::new(alloc);
    for i in 0..list.len() {
        put_flagged(p, known, &mut table, flags, nth_text(p, list, i))?;
    }
    Ok(table)
}

// ---- all of it

/// The facts by what is known.
fn run_known(
    alloc: Global,
    p: &Pass,
    list: &[Declared],
    known: &Known<'_, '_>,
) -> Result<Vec<u8>, NoMemory>
    requires pass { IsPass p.now }
    requires spelled { AreTreesSpelled (unit_in p.now) }
    requires list { map named_in list.now ≡ functions (unit_in p.now) }
    requires known { IsKnown (unit_in p.now) known.now }
    requires apart { ArePathsApart known.now.handed.now.given.now }
    requires told { AreToldBy spelling known.now.handed.now.given.now known.now.handed.now.tables.items }
    ensures { IfOk result (λ text. IsNeverText (unit_in p.now) (marks_in p.now) known.now.handed.now.given.now text.items) }
{
    let files = all_known(alloc, p, known)?;
    let flows = all_lent(alloc, p.subject.trees, &files)?;
    let functions = functions_by_number(alloc, p, list, known.numbers)?;
    let flags = never_returning(alloc, &flows, &functions)?;
    found_by_numbers();
    let table = table_of(alloc, p, known, list, &flags)?;
    let text = table.write()?;
    Ok(text)
}

fn run_over(
    alloc: Global,
    p: &Pass,
    list: &[Declared],
    given: &[(Text, Bytes)],
) -> Result<Vec<u8>, NoMemory>
    requires pass { IsPass p.now }
    requires spelled { AreTreesSpelled (unit_in p.now) }
    requires list { map named_in list.now ≡ functions (unit_in p.now) }
    requires apart { ArePathsApart given.now }
    ensures { IfOk result (λ text. IsNeverText (unit_in p.now) (marks_in p.now) given.now text.items) }
{
    // So many functions have no room in any memory.
    if list.len() >= 4294967296 {
        return Err(NoMemory);
    }
    let numbers = numbers_of(alloc, list)?;
    let handed = read_handed::<Never>(alloc, given)?;
    let known = Known {
        handed: &handed,
        numbers: &numbers,
    };
    let text = run_known(alloc, p, list, &known)?;
    Ok(text)
}

/// The functions of a package that never return.
#[derive(Drop)]
pub struct CtrlFlow;

impl CtrlFlow {
    /// The text of the facts of a package. `given` has the path and the fact text of each package of its environment.
    pub fn run(
        &self,
        alloc: Global,
        pass: &Pass,
        given: &[(Text, Bytes)],
    ) -> Result<Vec<u8>, NoMemory>
        requires pass { IsPass pass.now }
        requires spelled { AreTreesSpelled (unit_in pass.now) }
        requires apart { ArePathsApart given.now }
        ensures { IfOk result (λ text. IsNeverText (unit_in pass.now) (marks_in pass.now) given.now text.items) }
    {
        let list = functions_of(alloc, pass)?;
        let text = run_over(alloc, pass, &list, given)?;
        Ok(text)
    }
}
