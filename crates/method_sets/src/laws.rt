//! There is one answer.
ghost use Rattle.std.specs.Prelude.{◌≡◌, ℕ, List, [], codes};
ghost use Rattle.type_model.specs.declared.term.Method.{Method};
ghost use Rattle.type_model.specs.declared.table.TypeTable.{TypeTable};
ghost use Rattle.type_model.specs.GoTypes.{GoType};
ghost use Rattle.type_model.specs.Tables.{IsTable, declarations_in};
ghost use Rattle.type_model.specs.Declarations.{Declarations};
ghost use Rattle.method_sets.specs.Members.{Name, Member};
ghost use Rattle.method_sets.specs.Paths.{Begins, Selects, IsAmbiguous, NoPath};
ghost use Rattle.method_sets.specs.declared.selection.Selection.{Selection};
ghost use Rattle.method_sets.specs.Selections.{IsInSet, IsMethodSet, IsSelection};
ghost use Rattle.method_sets.specs.Levels.{EnoughToSelect, NeedsToSelect, SaysSelected, EnoughToList, NeedsToList, SaysMethods, chosen_in};
ghost use Rattle.method_sets.specs.Replies.{listed_in};
ghost use Rattle.type_growth.specs.Lasting.{Lasts};
ghost use Rattle.method_sets.specs.Examples.{defined, with_fields, with_methods, letter_f, text_field, method_m};

/// Whatever is declared: paths from a type begin at one type at most; at most one path is the only one
/// of least length, and leads to one member; where there is one, there aren't two of least length,
/// and not none; and what is ambiguous is so at one depth.
pub fn one_selection()
    ensures begins { (ds : Declarations) (of a b : GoType) → Begins ds of a → Begins ds of b → a ≡ b }
    ensures path { (ds : Declarations) (name : Name) (a : GoType) (p q : List ℕ) (m n : Member) → Selects ds name a p m → Selects ds name a q n → (p ≡ q) × (m ≡ n) }
    ensures apart { (ds : Declarations) (name : Name) (a : GoType) (p : List ℕ) (m : Member) (d : ℕ) → Selects ds name a p m → IsAmbiguous ds name a d → ⊥ }
    ensures depth { (ds : Declarations) (name : Name) (a : GoType) (d e : ℕ) → IsAmbiguous ds name a d → IsAmbiguous ds name a e → d ≡ e }
    ensures none { (ds : Declarations) (name : Name) (a : GoType) (p : List ℕ) (m : Member) → NoPath ds name a → Selects ds name a p m → ⊥ }
{}

/// A type of a table has one method set, whatever the table holds.
pub fn one_method_set()
    ensures { (t : TypeTable) (of : GoType) (xs ys : List Method) → IsTable t → IsMethodSet t of xs → IsMethodSet t of ys → xs ≡ ys }
{}

/// The Go specification's words on selection and method sets, by examples: of two embedded structs
/// that have a field `F`, neither `F` is selected, but a field `F` at a lesser depth is; a method with a
/// pointer receiver isn't in the set of its type, and is in that of a struct which embeds a pointer
/// to it.
pub fn examples_hold()
    ensures ambiguous { IsAmbiguous with_fields letter_f (defined (codes "R")) 1 }
    ensures its_own { Selects with_fields letter_f (defined (codes "S")) [] text_field }
    ensures value { IsInSet with_methods (defined (codes "T")) method_m → ⊥ }
    ensures promoted { IsInSet with_methods (defined (codes "U")) method_m }
{}

/// What a name selects from a type, and its method set, stay so while more is declared, once enough is. What
/// `choose` and `list` tell of a table is what is said of its declarations.
pub fn selection_lasts()
    ensures selected { Lasts EnoughToSelect NeedsToSelect SaysSelected }
    ensures listed { Lasts EnoughToList NeedsToList SaysMethods }
    ensures said { (t : TypeTable) (of : GoType) (name : Name) (sel : Selection) → IsSelection t of name sel → SaysSelected (declarations_in t) (record { of = of; name = name }) (chosen_in t sel) }
    ensures told { (t : TypeTable) (of : GoType) (methods : List Method) → IsMethodSet t of methods → SaysMethods (declarations_in t) of (listed_in t methods) }
{}
