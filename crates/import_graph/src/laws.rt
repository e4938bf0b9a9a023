//! What follows from the definitions alone.
ghost use Rattle.std.specs.Prelude.{◌≡◌, List, ℕ, Option};
ghost use Rattle.gv_base.specs.Files.{Entry};
ghost use Rattle.go_tree.specs.declared.head.Head.{Head};
ghost use Rattle.need_order.specs.Graphs.{Leads};
ghost use Rattle.import_graph.specs.Orders.{AreNumbered, SoundImports};
ghost use Rattle.import_graph.specs.Packages.{ArePackages};
ghost use Rattle.import_graph.specs.declared.pack.Package.{Package};

/// The packages of a tree have what `order` asks: each import is a package, and no sound package
/// reaches itself.
pub fn packages_can_be_ordered()
    ensures numbered { (tree : List Entry) (heads : List (Option Head)) (packages : List Package) → ArePackages tree heads packages → AreNumbered packages }
    ensures acyclic { (tree : List Entry) (heads : List (Option Head)) (packages : List Package) → ArePackages tree heads packages → (a : ℕ) → ¬ Leads (SoundImports packages) a a }
{}

/// Two answers for the same files and heads are one.
pub fn one_answer_of_packages()
    ensures { (tree : List Entry) (heads : List (Option Head)) (one two : List Package) → ArePackages tree heads one → ArePackages tree heads two → one ≡ two }
{}
