//! The outcome texts of runs.
ghost use Rattle.std.specs.Prelude.{◌≡◌, IfOk};
ghost use Rattle.gv_bytes.specs.Reading.{text_at};
ghost use Rattle.action_graph.specs.Outcomes.{facts_of, findings_of, parts_or, run_text};

use crate::kit::RunOutcome;
use gv_base::NoMemory;
use gv_bytes::{put_text, split_text};
use std::alloc::Global;

/// The outcome text of what a run answers.
pub fn write_outcome(alloc: Global, outcome: &RunOutcome) -> Result<Vec<u8>, NoMemory>
    ensures { IfOk result (λ v. v.items ≡ run_text outcome.now) }
{
    let mut out = Vec::new(alloc);
    put_text(&mut out, outcome.findings.as_slice())?;
    put_text(&mut out, outcome.facts.as_slice())?;
    Ok(out)
}

fn parts(bytes: &[u8]) -> (&[u8], &[u8])
    ensures { (result.0.now, result.1.now) ≡ parts_or (text_at bytes.now) }
{
    match split_text(bytes) {
        Some(found) => found,
        None => (b"", b""),
    }
}

/// The findings text in the outcome text of a run; empty where it has none.
#[tactic(auto, unfolding(crate::specs::Outcomes::findings_of))]
pub fn findings_in(bytes: &[u8]) -> &[u8]
    ensures { result.now ≡ findings_of bytes.now }
{
    let (front, _) = parts(bytes);
    front
}

/// The fact text in the outcome text of a run; empty where it has none.
#[tactic(auto, unfolding(crate::specs::Outcomes::facts_of))]
pub fn facts_in(bytes: &[u8]) -> &[u8]
    ensures { result.now ≡ facts_of bytes.now }
{
    let (_, rest) = parts(bytes);
    let (facts, _) = parts(rest);
    facts
}
