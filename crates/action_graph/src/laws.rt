//! Laws of the texts. Their bodies do nothing: the contracts are the laws.
ghost use Rattle.std.specs.Prelude.{◌≡◌, ◌<◌, ◌≤◌, ℕ, List, [], length, map, get_or, Contains};
ghost use Rattle.gv_bytes.specs.Spelling.{items, AreItems};
ghost use Rattle.action_graph.specs.Marks.{mark, IsMark};
ghost use Rattle.action_graph.specs.Nodes.{Named, AreNamed, load_texts};
ghost use Rattle.action_graph.specs.Closed.{Grows, IsClosed, Reserved};
ghost use Rattle.action_graph.specs.Judging.{Env, Judged, Judges, IsOutcomeOf, Tells, text_of};
ghost use Rattle.action_graph.specs.Judging.Judged.{Refuses};
ghost use Rattle.action_graph.specs.Analyzing.{Analyzes, IsRunOutcome, IsRunOutcomeOf};
ghost use Rattle.action_graph.specs.Nodes.{run_texts};
ghost use Rattle.action_graph.specs.Outcomes.{facts_of, findings_of, outcome_text};
ghost use Rattle.action_graph.specs.Standing.{AllFound};
ghost use Rattle.action_graph.specs.Work.{IsAnalyzer};
ghost use Rattle.analysis_core.specs.declared.diagnostic.Diagnostic.{Diagnostic};
ghost use Rattle.analysis_core.specs.Findings.{AreFindings};
ghost use Rattle.gv_bytes.specs.Spelling.{IsText};
ghost use Rattle.action_graph.specs.declared.kit.LoadInput.{LoadInput};
ghost use Rattle.action_graph.specs.declared.kit.RunInput.{RunInput};
ghost use Rattle.action_graph.specs.declared.marks.MarkLine.{MarkLine};

/// Distinct lists of marks have distinct spellings, and so bytes have one reading.
pub fn one_marks_text()
    ensures { (xs ys : List MarkLine) → AreItems IsMark xs → AreItems IsMark ys → items mark xs ≡ items mark ys → xs ≡ ys }
{}

/// Where each file has a path, the texts of a load's input tell all of it.
pub fn one_load_input()
    ensures { (a b : LoadInput) → AreNamed a.files → AreNamed b.files → load_texts a ≡ load_texts b → a ≡ b }
{}

/// Texts have one outcome.
pub fn one_outcome()
    ensures { (texts : List (List ℕ)) (a b : List ℕ) → IsOutcomeOf texts a → IsOutcomeOf texts b → a ≡ b }
{}

/// Each mark that refuses a package stands in one of its files, at its end at most.
pub fn marks_stand()
    ensures { (path : List ℕ) (files : List Named) (env : Env) (lines : List MarkLine) (m : MarkLine) → Judges path files env (Refuses lines) → Contains lines m → (m.at.file < length files) × (m.at.offset ≤ length (get_or (map text_of files) m.at.file [])) }
{}

/// What is found of a package over what is seen of some others, where nothing lacks, is found where more is seen of them.
pub fn findings_stay()
    ensures { (path : List ℕ) (files : List Named) (env world : Env) (judged : Judged) → IsClosed path files env → Grows env world → Reserved world → Judges path files env judged → Judges path files world judged }
{}

/// A package has one finding, which has one text; and a text tells one finding.
pub fn one_finding()
    ensures finding { (path : List ℕ) (files : List Named) (env : Env) (a b : Judged) → Judges path files env a → Judges path files env b → a ≡ b }
    ensures text { (judged : Judged) (a b : List ℕ) → Tells judged a → Tells judged b → a ≡ b }
    ensures told { (a b : Judged) (text : List ℕ) → Tells a text → Tells b text → a ≡ b }
{}

/// Where each file and each package of the environment has a path, the texts of a run's input tell all of it but the analyzer.
pub fn one_run_input()
    ensures { (a b : RunInput) → AreNamed a.load.files → AreNamed b.load.files → AreNamed a.load.env → AreNamed b.load.env → a.analyzer ≡ b.analyzer → run_texts a ≡ run_texts b → a ≡ b }
{}

/// An analyzer finds one thing of a package, and an input and its texts have one outcome of its run.
pub fn one_run_outcome()
    ensures finding { (analyzer : ℕ) (path : List ℕ) (files : List Named) (env : Env) (given : List Named) (a b f g : List ℕ) → Analyzes analyzer path files env given a f → Analyzes analyzer path files env given b g → (a ≡ b) × (f ≡ g) }
    ensures input { (run : RunInput) (a b : List ℕ) → IsRunOutcome run a → IsRunOutcome run b → a ≡ b }
    ensures outcome { (analyzer : ℕ) (texts : List (List ℕ)) (a b : List ℕ) → IsRunOutcomeOf analyzer texts a → IsRunOutcomeOf analyzer texts b → a ≡ b }
{}

/// An outcome text tells what was found and the facts.
pub fn outcome_is_read()
    ensures { (findings facts : List ℕ) → IsText (outcome_text findings facts) → (findings_of (outcome_text findings facts) ≡ findings) × (facts_of (outcome_text findings facts) ≡ facts) }
{}

/// What an analyzer finds of a package is of its number and stands in the package's files, with fixes that can be made there.
pub fn findings_stand()
    ensures { (a : ℕ) (path : List ℕ) (files : List Named) (env : Env) (given : List Named) (findings facts : List ℕ) (ds : List Diagnostic) → IsAnalyzer a → Analyzes a path files env given findings facts → AreFindings ds findings → AllFound files a ds }
{
    vet_suite::findings_stand();
}
