//! The analyzers, by their numbers.
ghost use Rattle.std.specs.Prelude.{◌≡◌, ◌↔◌, [], IfOk, IsTrue, map};
ghost use Rattle.findings.specs.Passes.{unit_in, marks_in, IsPass};
ghost use Rattle.vet_suite.specs.Free.{path_of, AreGiven};
ghost use Rattle.vet_suite.specs.Suite.{AreFreeRuneTexts, FoundOf, FoundIf, FoundBy, no_facts, FactsOf, FactsIf, FactsBy};
ghost use Rattle.vet_simple.specs.StructTags.{AreTagFaults};
ghost use Rattle.vet_flow.specs.Unreachable.{AreUnreachable};
ghost use Rattle.vet_never.specs.Never.{IsNeverText};
ghost use Rattle.vet_printf.specs.Wraps.{IsWrapsText, ArePrintfFindings};

use crate::free::{free_rows, paths_of};
use analysis_core::{AnalyzerName, Diagnostic};
use findings::Pass;
use gv_base::{Bytes, NoMemory, Text};
use std::alloc::Global;
use vet_flow::Unreachable;
use vet_locks::CopyLocks;
use vet_never::CtrlFlow;
use vet_printf::Printf;
use vet_simple::{Assign, Bools, NilFunc, StringIntConv, StructTag, UnusedResult};

fn nothing(alloc: Global) -> Result<Vec<Diagnostic>, NoMemory>
    ensures { IfOk result (λ found. found.items ≡ []) }
{
    let found = Vec::new(alloc);
    Ok(found)
}

fn is_empty(found: &Vec<Diagnostic>) -> bool
    ensures { IsTrue result ↔ (found.now.items ≡ []) }
{
    found.is_empty()
}

/// What `rune` denotes is asked where some integer is converted to a string.
fn rune_texts(
    alloc: Global,
    pass: &Pass,
    files: &[(Text, Bytes)],
    named: &[(Text, Text)],
    given: &[(Text, Bytes)],
) -> Result<Vec<Diagnostic>, NoMemory>
    requires pass { IsPass pass.now }
    requires given { AreGiven (unit_in pass.now) files.now named.now given.now }
    ensures { IfOk result (λ found. AreFreeRuneTexts (map path_of files.now) (unit_in pass.now) (marks_in pass.now) found.items) }
{
    let none = Vec::new(alloc);
    let first = StringIntConv.run(alloc, pass, &none)?;
    if is_empty(&first) {
        return Ok(first);
    }
    let free = free_rows(alloc, pass, files, named, given)?;
    let found = StringIntConv.run(alloc, pass, &free)?;
    Ok(found)
}

fn tag_faults(
    alloc: Global,
    pass: &Pass,
    files: &[(Text, Bytes)],
    named: &[(Text, Text)],
    given: &[(Text, Bytes)],
) -> Result<Vec<Diagnostic>, NoMemory>
    requires pass { IsPass pass.now }
    requires given { AreGiven (unit_in pass.now) files.now named.now given.now }
    ensures { IfOk result (λ found. AreTagFaults (map path_of files.now) (unit_in pass.now) (marks_in pass.now) found.items) }
{
    let _ = named;
    let _ = given;
    let paths = paths_of(alloc, files)?;
    let found = StructTag.run(alloc, pass, &paths)?;
    Ok(found)
}

fn dead_code(
    alloc: Global,
    pass: &Pass,
    files: &[(Text, Bytes)],
    named: &[(Text, Text)],
    given: &[(Text, Bytes)],
) -> Result<Vec<Diagnostic>, NoMemory>
    requires pass { IsPass pass.now }
    requires given { AreGiven (unit_in pass.now) files.now named.now given.now }
    ensures { IfOk result (λ found. AreUnreachable (unit_in pass.now) (marks_in pass.now) found.items) }
{
    let _ = files;
    let _ = named;
    let _ = given;
    let found = Unreachable.run(alloc, pass)?;
    Ok(found)
}

// ---- facts

#[tactic(auto, using(crate::proofs::FactLemmas::no_facts_text))]
fn no_facts(alloc: Global) -> Result<Vec<u8>, NoMemory>
    ensures { IfOk result (λ text. text.items ≡ no_facts) }
{
    let text = b"0;".to_vec(alloc)?;
    Ok(text)
}

fn never_text(
    alloc: Global,
    pass: &Pass,
    files: &[(Text, Bytes)],
    named: &[(Text, Text)],
    given: &[(Text, Bytes)],
) -> Result<Vec<u8>, NoMemory>
    requires pass { IsPass pass.now }
    requires given { AreGiven (unit_in pass.now) files.now named.now given.now }
    ensures { IfOk result (λ text. IsNeverText (unit_in pass.now) (marks_in pass.now) given.now text.items) }
{
    let _ = files;
    let _ = named;
    let text = CtrlFlow.run(alloc, pass, given)?;
    Ok(text)
}

// ---- both

/// What an analyzer reports, and its facts as their text.
#[derive(Drop)]
pub struct Found {
    pub found: Vec<Diagnostic>,
    pub facts: Bytes,
}

/// What an analyzer without facts reports.
fn alone(alloc: Global, found: Vec<Diagnostic>) -> Result<Found, NoMemory>
    ensures found { IfOk result (λ f. f.found.items ≡ found.items) }
    ensures facts { IfOk result (λ f. f.facts ≡ no_facts) }
{
    let facts = no_facts(alloc)?;
    Ok(Found {
        found,
        facts: Bytes::new(facts),
    })
}

fn never(
    alloc: Global,
    pass: &Pass,
    files: &[(Text, Bytes)],
    named: &[(Text, Text)],
    given: &[(Text, Bytes)],
) -> Result<Found, NoMemory>
    requires pass { IsPass pass.now }
    requires given { AreGiven (unit_in pass.now) files.now named.now given.now }
    ensures found { IfOk result (λ f. f.found.items ≡ []) }
    ensures facts { IfOk result (λ f. IsNeverText (unit_in pass.now) (marks_in pass.now) given.now f.facts) }
{
    let found = nothing(alloc)?;
    let facts = never_text(alloc, pass, files, named, given)?;
    Ok(Found {
        found,
        facts: Bytes::new(facts),
    })
}

fn printed(
    alloc: Global,
    pass: &Pass,
    files: &[(Text, Bytes)],
    named: &[(Text, Text)],
    given: &[(Text, Bytes)],
) -> Result<Found, NoMemory>
    requires pass { IsPass pass.now }
    requires given { AreGiven (unit_in pass.now) files.now named.now given.now }
    ensures found { IfOk result (λ f. ArePrintfFindings (unit_in pass.now) (marks_in pass.now) given.now f.found.items) }
    ensures facts { IfOk result (λ f. IsWrapsText (unit_in pass.now) (marks_in pass.now) given.now f.facts) }
{
    let _ = files;
    let _ = named;
    let told = Printf.tell(alloc, pass, given)?;
    Ok(Found {
        found: told.found,
        facts: Bytes::new(told.facts),
    })
}

fn run_named(
    alloc: Global,
    name: AnalyzerName,
    pass: &Pass,
    files: &[(Text, Bytes)],
    named: &[(Text, Text)],
    given: &[(Text, Bytes)],
) -> Result<Found, NoMemory>
    requires pass { IsPass pass.now }
    requires given { AreGiven (unit_in pass.now) files.now named.now given.now }
    ensures found { IfOk result (λ f. FoundOf name (unit_in pass.now) (marks_in pass.now) (map path_of files.now) given.now f.found.items) }
    ensures facts { IfOk result (λ f. FactsOf name (unit_in pass.now) (marks_in pass.now) given.now f.facts) }
{
    match name {
        AnalyzerName::Assign => {
            let found = Assign.run(alloc, pass)?;
            let both = alone(alloc, found)?;
            Ok(both)
        }
        AnalyzerName::Bools => {
            let found = Bools.run(alloc, pass)?;
            let both = alone(alloc, found)?;
            Ok(both)
        }
        AnalyzerName::CopyLocks => {
            let found = CopyLocks.run(alloc, pass)?;
            let both = alone(alloc, found)?;
            Ok(both)
        }
        AnalyzerName::CtrlFlow => {
            let both = never(alloc, pass, files, named, given)?;
            Ok(both)
        }
        AnalyzerName::NilFunc => {
            let found = NilFunc.run(alloc, pass)?;
            let both = alone(alloc, found)?;
            Ok(both)
        }
        AnalyzerName::Printf => {
            let both = printed(alloc, pass, files, named, given)?;
            Ok(both)
        }
        AnalyzerName::StringIntConv => {
            let found = rune_texts(alloc, pass, files, named, given)?;
            let both = alone(alloc, found)?;
            Ok(both)
        }
        AnalyzerName::StructTag => {
            let found = tag_faults(alloc, pass, files, named, given)?;
            let both = alone(alloc, found)?;
            Ok(both)
        }
        AnalyzerName::Unreachable => {
            let found = dead_code(alloc, pass, files, named, given)?;
            let both = alone(alloc, found)?;
            Ok(both)
        }
        AnalyzerName::UnusedResult => {
            let found = UnusedResult.run(alloc, pass)?;
            let both = alone(alloc, found)?;
            Ok(both)
        }
    }
}

fn run_if(
    alloc: Global,
    name: Option<AnalyzerName>,
    pass: &Pass,
    files: &[(Text, Bytes)],
    named: &[(Text, Text)],
    given: &[(Text, Bytes)],
) -> Result<Found, NoMemory>
    requires pass { IsPass pass.now }
    requires given { AreGiven (unit_in pass.now) files.now named.now given.now }
    ensures found { IfOk result (λ f. FoundIf name (unit_in pass.now) (marks_in pass.now) (map path_of files.now) given.now f.found.items) }
    ensures facts { IfOk result (λ f. FactsIf name (unit_in pass.now) (marks_in pass.now) given.now f.facts) }
{
    match name {
        Some(name) => {
            let both = run_named(alloc, name, pass, files, named, given)?;
            Ok(both)
        }
        None => {
            let found = nothing(alloc)?;
            let both = alone(alloc, found)?;
            Ok(both)
        }
    }
}

/// What the analyzer of a number reports of a package, and its facts. `files` are the paths and the bytes of its files, `named` has the path and the
/// name of each package of its environment, and `given` the path and the facts of each package whose facts the analyzer reads. A number that no
/// analyzer has gives nothing.
#[tactic(auto, unfolding(crate::specs::Suite::FoundBy, crate::specs::Suite::FactsBy))]
pub fn run(
    alloc: Global,
    number: u8,
    pass: &Pass,
    files: &[(Text, Bytes)],
    named: &[(Text, Text)],
    given: &[(Text, Bytes)],
) -> Result<Found, NoMemory>
    requires pass { IsPass pass.now }
    requires given { AreGiven (unit_in pass.now) files.now named.now given.now }
    ensures found { IfOk result (λ f. FoundBy number (unit_in pass.now) (marks_in pass.now) (map path_of files.now) given.now f.found.items) }
    ensures facts { IfOk result (λ f. FactsBy number (unit_in pass.now) (marks_in pass.now) given.now f.facts) }
{
    let name = AnalyzerName::of_number(number);
    let both = run_if(alloc, name, pass, files, named, given)?;
    Ok(both)
}
