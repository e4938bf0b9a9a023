//! What follows from the definitions alone.
ghost use Rattle.std.specs.Prelude.{ℕ, List, Option};
ghost use Rattle.gv_base.specs.Files.{Entry};
ghost use Rattle.go_tree.specs.declared.head.Head.{Head};
ghost use Rattle.parse_file.specs.Verdict.{IsVerdict};
ghost use Rattle.parse_file.specs.declared.verdict.FileVerdict.{FileVerdict};
ghost use Rattle.import_graph.specs.Packages.{ArePackages};
ghost use Rattle.import_graph.specs.declared.pack.Package.{Package};

/// No text is without a verdict, whatever its bytes are and however many.
pub fn each_text_has_a_verdict()
    ensures { (text : List ℕ) → ((verdict : FileVerdict) → IsVerdict text verdict → ⊥) → ⊥ }
{}

/// No tree is without packages, whatever the heads of its files are.
pub fn each_tree_has_packages()
    ensures { (tree : List Entry) (heads : List (Option Head)) → ((packages : List Package) → ArePackages tree heads packages → ⊥) → ⊥ }
{}
