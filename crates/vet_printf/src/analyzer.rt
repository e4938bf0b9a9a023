//! `printf`: what it finds of a package, and its facts, over the facts of other packages.
ghost use Rattle.std.specs.Prelude.{◌≡◌, IfOk, map};
ghost use Rattle.fact_codec.specs.Kinds.{wraps_spelling};
ghost use Rattle.findings.specs.Passes.{unit_in, marks_in, IsPass};
ghost use Rattle.handed_facts.specs.Handed.{ArePathsApart, AreToldBy};
ghost use Rattle.own_functions.specs.Functions.{functions};
ghost use Rattle.own_functions.specs.InCode.{named_in};
ghost use Rattle.vet_printf.specs.Knowing.{IsKnown};
ghost use Rattle.vet_printf.specs.Wraps.{IsWrapsText, ArePrintfFindings};

use crate::calls::Printf;
use crate::fact_text::table_of;
use crate::kind_rows::kinds_rows;
use crate::known::Known;
use crate::printing::all_printing;
use crate::spreads::cell_rows;
use analysis_core::Diagnostic;
use fact_codec::Wraps;
use findings::Pass;
use gv_base::{Bytes, NoMemory, Text};
use handed_facts::read_handed;
use own_functions::{Declared, functions_of, numbers_of};
use std::alloc::Global;

/// What is found of a package, and the text of its facts.
#[derive(Drop)]
pub struct Printed {
    pub found: Vec<Diagnostic>,
    pub facts: Vec<u8>,
}

fn told_known(alloc: Global, p: &Pass, known: &Known<'_, '_>) -> Result<Printed, NoMemory>
    requires pass { IsPass p.now }
    requires known { IsKnown (unit_in p.now) (marks_in p.now) known.now }
    requires apart { ArePathsApart known.now.handed.now.given.now }
    requires told { AreToldBy wraps_spelling known.now.handed.now.given.now known.now.handed.now.tables.items }
    ensures found { IfOk result (λ x. ArePrintfFindings (unit_in p.now) (marks_in p.now) known.now.handed.now.given.now x.found.items) }
    ensures facts { IfOk result (λ x. IsWrapsText (unit_in p.now) (marks_in p.now) known.now.handed.now.given.now x.facts.items) }
{
    let printing = all_printing(alloc, p, known)?;
    let table = table_of(alloc, p, known, &printing)?;
    let facts = table.write()?;
    let kinds = kinds_rows(alloc, p, known, &printing)?;
    let found = Printf.run(alloc, p, &kinds)?;
    Ok(Printed { found, facts })
}

fn told_over<'a>(
    alloc: Global,
    p: &Pass,
    list: &'a [Declared],
    given: &'a [(Text, Bytes)],
) -> Result<Printed, NoMemory>
    requires pass { IsPass p.now }
    requires list { map named_in list.now ≡ functions (unit_in p.now) }
    requires apart { ArePathsApart given.now }
    ensures found { IfOk result (λ x. ArePrintfFindings (unit_in p.now) (marks_in p.now) given.now x.found.items) }
    ensures facts { IfOk result (λ x. IsWrapsText (unit_in p.now) (marks_in p.now) given.now x.facts.items) }
{
    // So many functions have no room in any memory.
    if list.len() >= 4294967296 {
        return Err(NoMemory);
    }
    let numbers = numbers_of(alloc, list)?;
    let handed = read_handed::<Wraps>(alloc, given)?;
    let cells = cell_rows(alloc, p)?;
    let known = Known {
        handed: &handed,
        list,
        numbers: &numbers,
        cells: &cells,
    };
    let told = told_known(alloc, p, &known)?;
    Ok(told)
}

impl Printf {
    /// All that is found of a package, and the text of its facts: its functions that print by handing their arguments on, each with its kinds. `given`
    /// has the path and the fact text of each package of its environment.
    pub fn tell(
        &self,
        alloc: Global,
        pass: &Pass,
        given: &[(Text, Bytes)],
    ) -> Result<Printed, NoMemory>
        requires pass { IsPass pass.now }
        requires apart { ArePathsApart given.now }
        ensures found { IfOk result (λ x. ArePrintfFindings (unit_in pass.now) (marks_in pass.now) given.now x.found.items) }
        ensures facts { IfOk result (λ x. IsWrapsText (unit_in pass.now) (marks_in pass.now) given.now x.facts.items) }
    {
        let list = functions_of(alloc, pass)?;
        let told = told_over(alloc, pass, &list, given)?;
        Ok(told)
    }
}
