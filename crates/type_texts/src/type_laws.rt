//! Laws of the texts. Their bodies are empty: the contracts are the laws.
ghost use Rattle.std.specs.Prelude.{◌≡◌, ◌++◌, List, ℕ};
ghost use Rattle.gv_bytes.specs.Reading.{Reads};
ghost use Rattle.type_model.specs.GoTypes.{GoType};
ghost use Rattle.type_texts.specs.Texts.{IsType, type_text};
ghost use Rattle.type_texts.specs.Building.{type_at};

/// What is read as a type is spelled so, and what is spelled so is read.
pub fn types_are_read()
    ensures { Reads IsType type_text type_at }
{}

/// No type's text begins another's, and distinct types have distinct texts.
pub fn type_ends()
    ensures { (s t : GoType) (a b : List ℕ) → IsType s → IsType t → type_text s ++ a ≡ type_text t ++ b → (s ≡ t) × (a ≡ b) }
{}
