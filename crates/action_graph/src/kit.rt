//! What types packages, and runs analyzers over them.
ghost use Rattle.std.specs.Prelude.{◌≡◌, ◌+◌, ◌<◌, ◌^◌, ℕ, Err, IfOk, OnOk, OnErr, length};
ghost use Rattle.action_graph.specs.Judging.{IfAccepted, IsLawful, IsOutcome, IsStuck, load_text};
ghost use Rattle.action_graph.specs.Analyzing.{AreGivenOnce, AreRunOutcomes};

use crate::trees::Trees;
use gv_base::{Bytes, NoMemory, Row, Text};

/// All that the load of a package reads.
#[derive(Drop)]
pub struct LoadInput {
    /// The package's path.
    pub path: Text,
    /// The path and the bytes of each of its files, by path.
    pub files: Row<(Text, Bytes)>,
    /// The path and the export text of each package of its environment, by path.
    pub env: Row<(Text, Bytes)>,
}

/// All that the run of an analyzer reads.
#[derive(Drop)]
pub struct RunInput {
    /// The analyzer's number.
    pub analyzer: u8,
    /// What the load of its package reads.
    pub load: LoadInput,
    /// The path and the fact text of each package whose facts are read, by path.
    pub facts: Row<(Text, Bytes)>,
}

/// What the run of an analyzer reads beside the load of its package.
#[derive(Drop)]
pub struct RunOf {
    /// The analyzer's number.
    pub analyzer: u8,
    /// The path and the fact text of each package whose facts are read, by path.
    pub facts: Row<(Text, Bytes)>,
}

/// What comes of a run.
#[derive(Drop)]
pub struct RunOutcome {
    /// The text of what was found.
    pub findings: Bytes,
    /// The text of the facts.
    pub facts: Bytes,
}

/// What comes of a load.
#[derive(Drop)]
pub enum Load<L> {
    /// The package broke no rule.
    Accepted {
        /// The package as it was loaded.
        loaded: L,
        /// Its export text.
        export: Bytes,
    },
    /// A rule was broken, or a limit passed.
    Refused {
        /// The text of the marks.
        marks: Bytes,
    },
}

/// Why nothing comes of a load.
#[derive(Clone, Copy, Debug, PartialEq, Eq, Drop)]
pub enum Unloaded {
    /// Want of memory.
    NoMemory,
    /// The rule of an item of the package waits for that item's own mark; or nothing refuses the package, and what is seen of it can't be told.
    Stuck,
}

impl From<NoMemory> for Unloaded {
    ghost use Rattle.action_graph.specs.declared.kit.Unloaded.{Unloaded};

    ghost from_gives = { λ _ e. e ≡ Unloaded.NoMemory };

    fn from(_error: NoMemory) -> Self {
        Unloaded::NoMemory
    }
}

/// What loads packages and runs analyzers over them, and counts both.
pub trait Kit {
    ghost use Rattle.action_graph.specs.declared.kit.LoadInput.{LoadInput};

    /// A package as it is loaded.
    type Loaded: Drop;

    /// How many loads it has done.
    ghost loads: { Self → ℕ };

    /// How many runs of analyzers it has done.
    ghost runs: { Self → ℕ };

    /// What holds of that which it keeps from load to load.
    ghost holds: { Self → Type 0 };

    /// This is what a load of this input accepted.
    ghost is_of: { Self.Loaded → LoadInput → Type 0 };

    /// This is what some load accepted, and can be taken back.
    ghost keeps: { Self.Loaded → Type 0 };

    /// Forgets what it keeps from load to load.
    fn clear(&mut self)
        ensures holds { holds self.new }
        ensures loads { loads self.new ≡ loads self.old }
        ensures runs { runs self.new ≡ runs self.old };

    /// Loads a package. What comes of it is by the input alone, whatever the kit keeps and whichever of its files were parsed before.
    fn load(
        &mut self,
        input: &LoadInput,
        trees: Option<Trees>,
    ) -> Result<Load<Self::Loaded>, Unloaded>
        requires loads { loads self.old < 2 ^ 63 }
        requires holds { holds self.old }
        ensures holds { holds self.new }
        ensures right { IsLawful input.now → IfOk result (λ answer. IsOutcome input.now (load_text answer)) }
        ensures is_of { IfOk result (λ answer. IfAccepted answer (λ loaded. is_of loaded input.now)) }
        ensures keeps { IfOk result (λ answer. IfAccepted answer keeps) }
        ensures circle { result ≡ Err Unloaded.Stuck → IsStuck input.now }
        ensures counted { OnOk result (loads self.new ≡ loads self.old + 1) }
        ensures refused { OnErr result (loads self.new ≡ loads self.old) }
        ensures runs { runs self.new ≡ runs self.old };

    /// Runs analyzers over a package that was loaded, and answers what comes of each, in turn. That is by the inputs alone. It answers all of
    /// them or, for want of memory, none.
    fn analyze(
        &mut self,
        loaded: &Self::Loaded,
        load: &LoadInput,
        asked: &[RunOf],
    ) -> Result<Vec<RunOutcome>, NoMemory>
        requires runs { runs self.old + length asked.now < 2 ^ 63 }
        requires holds { holds self.old }
        requires is_of { is_of loaded.now load.now }
        requires keeps { keeps loaded.now }
        requires apart { AreGivenOnce asked.now }
        ensures holds { holds self.new }
        ensures size { IfOk result (λ outcomes. length outcomes.items ≡ length asked.now) }
        ensures right { IfOk result (λ outcomes. AreRunOutcomes load.now asked.now outcomes.items) }
        ensures counted { OnOk result (runs self.new ≡ runs self.old + length asked.now) }
        ensures refused { OnErr result (runs self.new ≡ runs self.old) }
        ensures loads { loads self.new ≡ loads self.old };

    /// Takes back what a load gave, when the runs over it are done.
    fn release(&mut self, loaded: Self::Loaded)
        requires holds { holds self.old }
        requires keeps { keeps loaded }
        ensures holds { holds self.new }
        ensures loads { loads self.new ≡ loads self.old }
        ensures runs { runs self.new ≡ runs self.old };
}
