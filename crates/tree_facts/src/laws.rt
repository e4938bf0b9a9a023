//! Laws of facts over a tree. Their bodies are empty: the contracts are the laws.
ghost use Rattle.std.specs.Prelude.{◌≡◌, ℕ, Bool, Some, true, List, slice_get};
ghost use Rattle.gv_driver.specs.Judging.Judged.{Accepts};
ghost use Rattle.fact_codec.specs.declared.wraps.WrapKind.{WrapKind as AWrapKind};
ghost use Rattle.gv_driver.specs.declared.tree.PackageTexts.{PackageTexts};
ghost use Rattle.gv_driver.specs.Facts.{HasFacts};
ghost use Rattle.gv_driver.specs.Trees.{IsTree};
ghost use Rattle.gv_driver.specs.Whole.{Checked};
ghost use Rattle.handed_facts.specs.Handed.{Named};
ghost use Rattle.least.specs.Tables.{Member};
ghost use Rattle.package_faces.specs.Faces.{Face};
ghost use Rattle.tree_facts.specs.NoReturn.{AreFactTexts, AreNoReturn, NoReturn, Names};
ghost use Rattle.tree_facts.specs.Prints.{AreWrapTexts, ArePrinting, Prints, NamesKinds};

use known_callees::one_admission;
use never_returns::{admission_is_local, admission_is_monotone};

/// The facts of `ctrlflow` of an accepted package, found over those of the packages of its environment, name exactly those of its functions
/// that never return in the whole tree; and where the facts of all accepted packages are known, there is a set of those functions.
pub fn facts_are_those_of_the_tree()
    ensures each { (tree : List PackageTexts) (p : ℕ) (pack : PackageTexts) (face : Face) (text : List ℕ) → IsTree tree → slice_get tree p ≡ Some pack → Checked tree p (Accepts face) → HasFacts tree 4 p text → Names (NoReturn tree) pack.path text }
    ensures set { (tree : List PackageTexts) (N : Member → Bool) (p : ℕ) (pack : PackageTexts) (face : Face) (text : List ℕ) → IsTree tree → AreNoReturn tree N → slice_get tree p ≡ Some pack → Checked tree p (Accepts face) → HasFacts tree 4 p text → Names (λ m. N m ≡ true) pack.path text }
    ensures exists { (tree : List PackageTexts) (all : List Named) → IsTree tree → AreFactTexts tree all → (N : Member → Bool) × AreNoReturn tree N }
{
    one_admission();
    admission_is_monotone();
    admission_is_local();
}

/// The facts of `printf` of an accepted package, found over those of the packages of its environment, name exactly those of its functions that
/// print in the whole tree, each with its ways; and where the facts of all accepted packages are known, there are sets of those functions.
pub fn wrappers_are_those_of_the_tree()
    ensures each { (tree : List PackageTexts) (p : ℕ) (pack : PackageTexts) (face : Face) (text : List ℕ) → IsTree tree → slice_get tree p ≡ Some pack → Checked tree p (Accepts face) → HasFacts tree 6 p text → NamesKinds (Prints tree) pack.path text }
    ensures set { (tree : List PackageTexts) (sets : AWrapKind → Member → Bool) (p : ℕ) (pack : PackageTexts) (face : Face) (text : List ℕ) → IsTree tree → ArePrinting tree sets → slice_get tree p ≡ Some pack → Checked tree p (Accepts face) → HasFacts tree 6 p text → NamesKinds (λ kind m. sets kind m ≡ true) pack.path text }
    ensures exists { (tree : List PackageTexts) (all : List Named) → IsTree tree → AreWrapTexts tree all → (sets : AWrapKind → Member → Bool) × ArePrinting tree sets }
{}
