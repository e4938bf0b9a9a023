//! Functions that print by handing their arguments on. The bodies are empty: the contracts are the laws.
ghost use Rattle.std.specs.Prelude.{◌≡◌, [], ℕ, Bool, List, Option, length};
ghost use Rattle.least.specs.Least.{IsMonotone, IsLeast};
ghost use Rattle.least.specs.Staged.{IsLocal, IsOrder, IsLeastIn};
ghost use Rattle.least.specs.Tables.{Member, Table, home, AreFoundByTables};
ghost use Rattle.least.specs.Numbered.{by_number};
ghost use Rattle.least.specs.Work.{among};
ghost use Rattle.vet_printf.specs.declared.shapes.Shape.{Shape as AShape};
ghost use Rattle.vet_printf.specs.InTable.{Admits as AdmitsNumber};
ghost use Rattle.vet_printf.specs.Wrappers.{Admits, HandsTo, Has, SeeTheirCallees, AreItems};

/// More members never take an admitted function away.
pub fn wrapping_is_monotone()
    ensures { (listed : Member → Bool) (forwards : Member → List Member) → IsMonotone (Admits listed (HandsTo forwards)) }
{}

/// Where each function hands on within its package or to the environment, an admission depends on the
/// members there alone.
pub fn wrapping_is_local()
    ensures { (env : List ℕ → List ℕ → Bool) (listed : Member → Bool) (forwards : Member → List Member) → SeeTheirCallees (Has env) (HandsTo forwards) → IsLocal home (Has env) (Admits listed (HandsTo forwards)) }
{}

/// The wrappers found package by package, with the members of other packages handed in as tables of names,
/// are those of the tree.
pub fn wrappers_by_tables()
    ensures { (env : List ℕ → List ℕ → Bool) (rank : List ℕ → ℕ) (listed : Member → Bool) (forwards : Member → List Member) (tables : List ℕ → List Table) (given found : List ℕ → Member → Bool) → SeeTheirCallees (Has env) (HandsTo forwards) → IsOrder (Has env) rank → AreFoundByTables (Has env) (IsLeastIn home (Admits listed (HandsTo forwards))) tables given found → IsLeast (Admits listed (HandsTo forwards)) (λ m. found (home m) m) }
{}

/// The least set of a package's numbers is that of its functions, over the members that were handed in.
pub fn wrappers_by_numbers()
    ensures { (listed : Member → Bool) (forwards : Member → List Member) (p : List ℕ) (given : Member → Bool) (number : Member → Option ℕ) (name : ℕ → Member) (items : List AShape) (marks : ℕ → Bool) → AreItems listed (HandsTo forwards) p given number name items → IsLeast (among (length items) (AdmitsNumber [] items)) marks → IsLeastIn home (Admits listed (HandsTo forwards)) p given (by_number number marks) }
{}
