//! The least set of a tree, found package by package. The bodies are empty: the contracts are the laws.
ghost use Rattle.std.specs.Prelude.{◌≡◌, ◌↔◌, ℕ, List, Bool, true, Option};
ghost use Rattle.least.specs.Least.{IsLeast, IsMonotone, IsClosed, IsRound};
ghost use Rattle.least.specs.Staged.{IsLocal, IsOrder, AreStaged, IsLeastIn};
ghost use Rattle.least.specs.Tables.{Member, home, Table, AreFoundByTables};
ghost use Rattle.least.specs.Work.{among};
ghost use Rattle.least.specs.Numbered.{IsNumbering, admits_number, by_number};

/// An admission over the members of a tree of packages. Each kind of fact is an instance: it says
/// what admits, and proves the two laws of it.
pub trait Staged {
    /// Which ones a set of members admits.
    ghost admits: { (Member → Bool) → Member → Type 0 };

    /// Which packages a package's environment has.
    ghost env: { List ℕ → List ℕ → Type 0 };

    /// A package's place in the order of imports.
    ghost rank: { List ℕ → ℕ };

    /// More members never take an admitted one away.
    ghost monotone: { IsMonotone admits };

    /// An admission depends on the members in the package and in its environment alone.
    ghost local: { IsLocal home env admits };

    /// What is in a package's environment comes before it.
    ghost ordered: { IsOrder env rank };
}

/// The least sets found package by package are the least set of the tree.
pub fn found_package_by_package<T: Staged>()
    ensures { (given found : List ℕ → Member → Bool) → AreStaged home T.env T.admits given found → IsLeast T.admits (λ m. found (home m) m) }
{}

/// The same where the members of the environment are handed in as tables, one a package.
pub fn found_by_tables<T: Staged>()
    ensures { (tables : List ℕ → List Table) (given found : List ℕ → Member → Bool) → AreFoundByTables T.env (IsLeastIn home T.admits) tables given found → IsLeast T.admits (λ m. found (home m) m) }
{}

/// What was found of a package is what the tree's least set has of it.
pub fn the_tree_restricted<T: Staged>()
    ensures { (given found : List ℕ → Member → Bool) (whole : Member → Bool) → AreStaged home T.env T.admits given found → IsLeast T.admits whole → (p : List ℕ) (m : Member) → home m ≡ p → (whole m ≡ true) ↔ (found p m ≡ true) }
{}

/// Two least sets are one.
pub fn one_set_of_a_tree<T: Staged>()
    ensures { (M N : Member → Bool) → IsLeast T.admits M → IsLeast T.admits N → (m : Member) → (M m ≡ true) ↔ (N m ≡ true) }
{}

/// Over what was handed in, a package has one least set.
pub fn one_set_of_a_package<T: Staged>()
    ensures { (p : List ℕ) (given M N : Member → Bool) → IsLeastIn home T.admits p given M → IsLeastIn home T.admits p given N → (m : Member) → (M m ≡ true) ↔ (N m ≡ true) }
{}

/// The least set of a package's numbers is that of its members.
pub fn found_by_numbers<T: Staged>()
    ensures { (p : List ℕ) (given : Member → Bool) (count : ℕ) (number : Member → Option ℕ) (name : ℕ → Member) (marks : ℕ → Bool) → IsNumbering home T.admits p count number name → IsLeast (among count (admits_number T.admits given number name)) marks → IsLeastIn home T.admits p given (by_number number marks) }
{}

/// A round that adds nothing is the least set.
pub fn reached_by_rounds<T: Staged>()
    ensures { (n : ℕ) (N : Member → Bool) → IsRound T.admits n N → IsClosed T.admits N → IsLeast T.admits N }
{}
