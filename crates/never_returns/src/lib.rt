//! Functions that never return: those of a package, over those of the packages that it imports, and that
//! the sets found in turn over packages are the set of the tree. The bodies of the laws are empty: their
//! contracts are the laws.
#![tactic(auto)]

mod files;
mod functions;
mod looks;
mod numbers;
mod readers;

ghost use Rattle.std.specs.Prelude.{◌≡◌, ℕ, Bool, List, Option};
ghost use Rattle.least.specs.Least.{IsMonotone, IsLeast};
ghost use Rattle.least.specs.Staged.{IsLocal, IsOrder, AreStaged, IsLeastIn};
ghost use Rattle.least.specs.Tables.{Member, Table, home, AreFoundByTables};
ghost use Rattle.never_returns.specs.Admits.{Body, Admits, Has, SeeTheirCallees};

pub use files::{Block, FileFlow, Function};
pub use functions::never_returning;
pub use numbers::{found_by_numbers, found_by_numbers_in_turn};

/// More members never take an admitted function away.
pub fn admission_is_monotone()
    ensures { (listed : Member → Bool) (bodies : Member → Option Body) → IsMonotone (Admits listed bodies) }
{}

/// Where each body's callees are in its package or in the environment, an admission depends on the
/// members there alone.
pub fn admission_is_local()
    ensures { (env : List ℕ → List ℕ → Bool) (listed : Member → Bool) (bodies : Member → Option Body) → SeeTheirCallees (Has env) bodies → IsLocal home (Has env) (Admits listed bodies) }
{}

/// The functions that never return, found package by package in the order of imports, are those of the
/// tree.
pub fn found_package_by_package()
    ensures { (env : List ℕ → List ℕ → Bool) (rank : List ℕ → ℕ) (listed : Member → Bool) (bodies : Member → Option Body) (given found : List ℕ → Member → Bool) → SeeTheirCallees (Has env) bodies → IsOrder (Has env) rank → AreStaged home (Has env) (Admits listed bodies) given found → IsLeast (Admits listed bodies) (λ m. found (home m) m) }
{}

/// The same where the functions of other packages are handed in as tables of names.
pub fn found_by_tables()
    ensures { (env : List ℕ → List ℕ → Bool) (rank : List ℕ → ℕ) (listed : Member → Bool) (bodies : Member → Option Body) (tables : List ℕ → List Table) (given found : List ℕ → Member → Bool) → SeeTheirCallees (Has env) bodies → IsOrder (Has env) rank → AreFoundByTables (Has env) (IsLeastIn home (Admits listed bodies)) tables given found → IsLeast (Admits listed bodies) (λ m. found (home m) m) }
{}
