//! What follows from the definitions alone.
ghost use Rattle.std.specs.Prelude.{◌≤◌, ◌+◌, ℕ};
ghost use Rattle.go_tree.specs.Arena.{size};
ghost use Rattle.go_tree.specs.Forest.{Forest};
ghost use Rattle.scopes.specs.Regions.{Scope, declared};
ghost use Rattle.scopes.specs.Laid.{AreLaid};

/// The regions of the names that trees declare lie apart, or within one another.
pub fn regions_are_laid()
    ensures { (s : Scope) → (m : ℕ) → (f : Forest) → m + size f ≤ s.block → AreLaid (declared s m f) }
{}
