//! Laws of facts and of their texts, over every value. Their bodies are empty: the contracts are the laws.
ghost use Rattle.std.specs.Prelude.{◌≡◌, ◌++◌, ℕ, List, Some};
ghost use Rattle.fact_codec.specs.Texts.{AreFacts};

use crate::kind::FactKind;

/// What begins with a fact's spelling is read as this fact, nothing but spellings is read, and of two spellings
/// none begins the other. So distinct facts have distinct spellings.
pub fn facts_are_read<F: FactKind>()
    ensures again { (fact : F) (rest : List ℕ) → F.fact_at (F.spelling fact ++ rest) ≡ Some (fact, rest) }
    ensures only { (bytes : List ℕ) (fact : F) (rest : List ℕ) → F.fact_at bytes ≡ Some (fact, rest) → bytes ≡ F.spelling fact ++ rest }
    ensures ends { (f g : F) (a b : List ℕ) → F.spelling f ++ a ≡ F.spelling g ++ b → (f ≡ g) × (a ≡ b) }
{}

/// Bytes are the text of one table at most.
pub fn one_fact_text<F: FactKind>()
    ensures { (t u : List (List ℕ × F)) (bytes : List ℕ) → AreFacts F.spelling t bytes → AreFacts F.spelling u bytes → t ≡ u }
{}
