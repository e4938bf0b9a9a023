//! What is found of a package's functions by number. The bodies are empty: the contracts are the laws.
ghost use Rattle.std.specs.Prelude.{◌≡◌, ℕ, Bool, List, Option, length};
ghost use Rattle.least.specs.Least.{IsLeast};
ghost use Rattle.least.specs.Numbered.{by_number};
ghost use Rattle.least.specs.Staged.{IsOrder, IsLeastIn, IsHandedIn};
ghost use Rattle.least.specs.Tables.{Member, home};
ghost use Rattle.least.specs.Work.{among};
ghost use Rattle.never_returns.specs.Admits.{Body, Admits, Has, SeeTheirCallees};
ghost use Rattle.never_returns.specs.Bodies.{AdmitsAt, AreFunctionsOf};
ghost use Rattle.never_returns.specs.declared.files.FileFlow.{FileFlow};
ghost use Rattle.never_returns.specs.declared.files.Function.{Function};

/// What `never_returning` finds of a package's functions is the package's least set over the members that
/// were handed in.
pub fn found_by_numbers()
    ensures { (listed : Member → Bool) (bodies : Member → Option Body) (p : List ℕ) (given : Member → Bool) (number : Member → Option ℕ) (name : ℕ → Member) (files : List FileFlow) (functions : List Function) (marks : ℕ → Bool) → AreFunctionsOf listed bodies p given number name files functions → IsLeast (among (length functions) (AdmitsAt files functions)) marks → IsLeastIn home (Admits listed bodies) p given (by_number number marks) }
{}

/// Found so in turn, package by package, with what was found of the packages of its environment handed in
/// to each, these are the functions of the tree that never return.
pub fn found_by_numbers_in_turn()
    ensures { (env : List ℕ → List ℕ → Bool) (rank : List ℕ → ℕ) (listed : Member → Bool) (bodies : Member → Option Body) (given : List ℕ → Member → Bool) (number : List ℕ → Member → Option ℕ) (name : List ℕ → ℕ → Member) (files : List ℕ → List FileFlow) (functions : List ℕ → List Function) (marks : List ℕ → ℕ → Bool) → SeeTheirCallees (Has env) bodies → IsOrder (Has env) rank → ((p : List ℕ) → AreFunctionsOf listed bodies p (given p) (number p) (name p) (files p) (functions p)) → ((p : List ℕ) → IsLeast (among (length (functions p)) (AdmitsAt (files p) (functions p))) (marks p)) → ((p : List ℕ) → IsHandedIn home (Has env) p (given p) (λ m. by_number (number (home m)) (marks (home m)) m)) → IsLeast (Admits listed bodies) (λ m. by_number (number (home m)) (marks (home m)) m) }
{}
