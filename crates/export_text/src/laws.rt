//! Laws of the texts of interfaces. Their bodies are empty: the contracts are the laws.
ghost use Rattle.std.specs.Prelude.{◌≡◌, List, ℕ, Some};
ghost use Rattle.type_model.specs.Declarations.{Declarations};
ghost use Rattle.package_faces.specs.Faces.{Face, ObjectOut};
ghost use Rattle.export_text.specs.Faces.{IsFace, IsFaceText, face_in};
ghost use Rattle.package_faces.specs.Reaching.{IsExportOf};
ghost use Rattle.export_text.specs.Reaching.{IsExportText};

/// Bytes spell an interface exactly where the reader reads it.
pub fn faces_are_read()
    ensures found { (bytes : List ℕ) (f : Face) → face_in bytes ≡ Some f → IsFaceText f bytes }
    ensures only { (bytes : List ℕ) (f : Face) → IsFaceText f bytes → face_in bytes ≡ Some f }
{}

/// An interface has one text, and a text one interface.
pub fn one_face_text()
    ensures one { (f g : Face) (bytes : List ℕ) → IsFaceText f bytes → IsFaceText g bytes → f ≡ g }
    ensures text { (f : Face) (a b : List ℕ) → IsFaceText f a → IsFaceText f b → a ≡ b }
{}

/// A package with these declarations and these exported objects has one interface that can be spelled, and so one export text.
pub fn one_export_of_a_package()
    ensures one { (ds : Declarations) (path name : List ℕ) (objects : List ObjectOut) (f g : Face) → IsExportOf ds path name objects f → IsExportOf ds path name objects g → IsFace f → IsFace g → f ≡ g }
    ensures text { (ds : Declarations) (path name : List ℕ) (objects : List ObjectOut) (a b : List ℕ) → IsExportText ds path name objects a → IsExportText ds path name objects b → a ≡ b }
{}
