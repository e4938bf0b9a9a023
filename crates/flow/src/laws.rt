//! Laws of functions that never return. The bodies are empty: the contracts are the laws.
ghost use Rattle.std.specs.Prelude.{◌≡◌, ℕ, Bool, List, Option, true};
ghost use Rattle.flow.specs.Flow.{NeverReturns, Mentions, stops_of};
ghost use Rattle.flow.specs.declared.point.Call.{Call};
ghost use Rattle.go_tree.specs.declared.tree.FileTree.{FileTree};

/// More members never take an admitted function away.
pub fn admission_is_monotone()
    ensures { (tree : FileTree) (labels : List (Option ℕ)) (calls : List Call) (body : ℕ) (M N : ℕ → Bool) → ((f : ℕ) → M f ≡ true → N f ≡ true) → NeverReturns tree labels (stops_of calls M) body → NeverReturns tree labels (stops_of calls N) body }
{}

/// Whether a function is admitted depends on the functions that its body mentions.
pub fn admission_is_local()
    ensures { (tree : FileTree) (labels : List (Option ℕ)) (calls : List Call) (body : ℕ) (M N : ℕ → Bool) → ((f : ℕ) → Mentions tree labels calls body f → M f ≡ N f) → NeverReturns tree labels (stops_of calls M) body → NeverReturns tree labels (stops_of calls N) body }
{}
