//! What comes of the runs of analyzers over a package that was loaded. It is read once for all of them.
ghost use Rattle.std.specs.Prelude.{◌≡◌, ℕ, Some, length, map, slice_get, IfOk};
ghost use Rattle.mark_walk.specs.Asks.{filled};
ghost use Rattle.type_model.specs.Tables.{terms_in};
ghost use Rattle.typed_marks.specs.Meanings.{Quiet};
ghost use Rattle.typed_marks.specs.States.{so_far};
ghost use Rattle.unit_read.specs.Environments.{IsEnvironment, faces_in};
ghost use Rattle.unit_read.specs.Index.{texts_of};
ghost use Rattle.unit_read.specs.Subjects.{full_of};
ghost use Rattle.check_pkg.specs.Packages.{known_of};
ghost use Rattle.check_pkg.specs.Typings.{marks_of};
ghost use Rattle.findings.specs.Passes.{IsPass};
ghost use Rattle.action_graph.specs.Free.{path_of, AreGiven};
ghost use Rattle.action_graph.specs.Suite.{FactsBy, FoundBy};
ghost use Rattle.action_graph.specs.declared.kit.RunOf.{RunOf as OneRun};
ghost use Rattle.action_graph.specs.Analyzing.{AreGivenOnce, AreRunOutcomes};
ghost use Rattle.action_graph.specs.Judging.{text_of};
ghost use Rattle.go_kit.specs.Loading.{AreOutcomesIn, IsLoadOf, IsOutcomeIn, faces_over, unit_loaded};

use crate::loaded::Loaded;
use action_graph::{Found, LoadInput, RunOf, RunOutcome, fixes_are_own, run_analyzer as run};
use analysis_core::write_findings;
use check_pkg::{known, texts};
use findings::Pass;
use gv_base::{Bytes, NoMemory, Text};
use std::alloc::Global;
use typed_marks::State;
use unit_read::{Environment, Subject};

/// What the analyzer of a run finds of a package that has been read, and its marks; and its facts.
fn found_in(
    alloc: Global,
    asked: &RunOf,
    subject: &Subject,
    state: &State,
    files: &[(Text, Bytes)],
    named: &[(Text, Text)],
) -> Result<Found, NoMemory>
    requires pass { IsPass (record { subject = subject; state = state }) }
    requires given { AreGiven (full_of subject.now) files.now named.now asked.now.facts }
    ensures found { IfOk result (λ f. FoundBy asked.now.analyzer (full_of subject.now) (filled Quiet (so_far state.now)) (map path_of files.now) asked.now.facts f.found.items) }
    ensures facts { IfOk result (λ f. FactsBy asked.now.analyzer (full_of subject.now) (filled Quiet (so_far state.now)) asked.now.facts f.facts) }
{
    let pass = Pass { subject, state };
    let facts = asked.facts.as_slice();
    let found = run(alloc, asked.analyzer, &pass, files, named, facts)?;
    Ok(found)
}

/// What comes of a run.
fn outcome_in(
    alloc: Global,
    asked: &RunOf,
    subject: &Subject,
    state: &State,
    files: &[(Text, Bytes)],
    named: &[(Text, Text)],
) -> Result<RunOutcome, NoMemory>
    requires pass { IsPass (record { subject = subject; state = state }) }
    requires given { AreGiven (full_of subject.now) files.now named.now asked.now.facts }
    ensures { IfOk result (IsOutcomeIn asked.now (full_of subject.now) (filled Quiet (so_far state.now)) (map path_of files.now)) }
{
    let told = found_in(alloc, asked, subject, state, files, named)?;
    let Found { found, facts } = told;
    fixes_are_own();
    let text = write_findings(alloc, &found)?;
    Ok(RunOutcome {
        findings: Bytes::new(text),
        facts,
    })
}

/// What comes of the runs that are asked for, in turn.
fn outcomes_in(
    alloc: Global,
    asked: &[RunOf],
    subject: &Subject,
    state: &State,
    files: &[(Text, Bytes)],
    named: &[(Text, Text)],
) -> Result<Vec<RunOutcome>, NoMemory>
    requires pass { IsPass (record { subject = subject; state = state }) }
    requires given { (k : ℕ) (r : OneRun) → slice_get asked.now k ≡ Some r → AreGiven (full_of subject.now) files.now named.now r.facts }
    ensures size { IfOk result (λ outcomes. length outcomes.items ≡ length asked.now) }
    ensures each { IfOk result (λ outcomes. AreOutcomesIn (full_of subject.now) (filled Quiet (so_far state.now)) (map path_of files.now) asked.now outcomes.items) }
{
    let mut outcomes = Vec::with_capacity(alloc, asked.len())?;
    for run in asked {
        let outcome = outcome_in(alloc, run, subject, state, files, named)?;
        outcomes.push(outcome)?;
    }
    Ok(outcomes)
}

/// What comes of runs over a package that was loaded, which is read again over the bytes of its files and the interfaces of its environment.
fn outcomes_over(
    alloc: Global,
    asked: &[RunOf],
    loaded: &Loaded,
    load: &LoadInput,
    texts: &[&[u8]],
    env: &Environment<'_>,
    named: &[(Text, Text)],
) -> Result<Vec<RunOutcome>, NoMemory>
    requires of { IsLoadOf loaded.now load.now }
    requires texts { texts_of texts.now ≡ map text_of load.now.files }
    requires env { IsEnvironment env.now }
    requires types { env.now.types.now ≡ terms_in loaded.now.typed.state.table }
    requires faces { faces_in env.now ≡ faces_over loaded.now }
    requires named { named.now ≡ known_of (faces_over loaded.now) }
    requires apart { AreGivenOnce asked.now }
    ensures size { IfOk result (λ outcomes. length outcomes.items ≡ length asked.now) }
    ensures each { IfOk result (λ outcomes. AreOutcomesIn (unit_loaded loaded.now load.now) (marks_of loaded.now.typed) (map path_of load.now.files) asked.now outcomes.items) }
{
    let path = load.path.as_str().as_bytes();
    let subject = loaded
        .typed
        .subject(alloc, path, texts, &loaded.trees, env)?;
    let files = load.files.as_slice();
    let outcomes = outcomes_in(alloc, asked, &subject, &loaded.typed.state, files, named)?;
    Ok(outcomes)
}

/// What comes of runs over a package that was loaded.
fn outcomes_of(
    alloc: Global,
    asked: &[RunOf],
    loaded: &Loaded,
    load: &LoadInput,
) -> Result<Vec<RunOutcome>, NoMemory>
    requires of { IsLoadOf loaded.now load.now }
    requires apart { AreGivenOnce asked.now }
    ensures size { IfOk result (λ outcomes. length outcomes.items ≡ length asked.now) }
    ensures each { IfOk result (λ outcomes. AreOutcomesIn (unit_loaded loaded.now load.now) (marks_of loaded.now.typed) (map path_of load.now.files) asked.now outcomes.items) }
{
    let types = loaded.typed.state.table.terms();
    let env = Environment::new(alloc, &loaded.env, types)?;
    let texts = texts(alloc, load.files.as_slice())?;
    let named = known(alloc, &loaded.env)?;
    let outcomes = outcomes_over(alloc, asked, loaded, load, &texts, &env, &named)?;
    Ok(outcomes)
}

/// What comes of the runs of analyzers over a package that was loaded, by their inputs.
pub(crate) fn analyzed(
    alloc: Global,
    loaded: &Loaded,
    load: &LoadInput,
    asked: &[RunOf],
) -> Result<Vec<RunOutcome>, NoMemory>
    requires of { IsLoadOf loaded.now load.now }
    requires apart { AreGivenOnce asked.now }
    ensures size { IfOk result (λ outcomes. length outcomes.items ≡ length asked.now) }
    ensures right { IfOk result (λ outcomes. AreRunOutcomes load.now asked.now outcomes.items) }
{
    let outcomes = outcomes_of(alloc, asked, loaded, load)?;
    Ok(outcomes)
}
