//! A law of loads. Its body is empty: the contract is the law.
ghost use Rattle.std.specs.Prelude.{◌≡◌};
ghost use Rattle.action_graph.specs.declared.kit.LoadInput.{LoadInput};
ghost use Rattle.check_pkg.specs.Typings.{marks_of};
ghost use Rattle.go_kit.specs.declared.loaded.Loaded.{Loaded};
ghost use Rattle.go_kit.specs.Loading.{IsLoadOf, unit_loaded};

/// However the package of an input was loaded, over whatever was kept: read again it is the same package with the same marks.
pub fn one_loaded()
    ensures unit { (l m : Loaded) (input : LoadInput) → IsLoadOf l input → IsLoadOf m input → unit_loaded l input ≡ unit_loaded m input }
    ensures marks { (l m : Loaded) (input : LoadInput) → IsLoadOf l input → IsLoadOf m input → marks_of l.typed ≡ marks_of m.typed }
{}
