//! What follows from the grammar alone.
ghost use Rattle.std.specs.Prelude.{◌≡◌, ℕ, List};
ghost use Rattle.words.specs.Grammar.{Asks};
ghost use Rattle.words.specs.declared.asked.Words.{Words};

/// Words have one reading at most.
pub fn one_reading()
    ensures { (words : List (List ℕ)) (call other : Words) → Asks words call → Asks words other → call ≡ other }
{}
