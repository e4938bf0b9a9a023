//! Laws of questions about types. The bodies are empty: the contracts are the laws.
ghost use Rattle.std.specs.Prelude.{◌≡◌, List, Option, Some, None};
ghost use Rattle.type_model.specs.declared.term.TypeId.{TypeId};
ghost use Rattle.type_model.specs.declared.term.TypeName.{TypeName};
ghost use Rattle.type_model.specs.declared.term.Method.{Method};
ghost use Rattle.type_model.specs.declared.table.TypeTable.{TypeTable};
ghost use Rattle.type_model.specs.GoTypes.{GoType};
ghost use Rattle.type_model.specs.Declarations.{Declaration, Declarations};
ghost use Rattle.type_model.specs.Tables.{types_in, declarations_in, declaration_of, Grown, Declares};
ghost use Rattle.type_growth.specs.Growth.{Grows, IsDeclared};
ghost use Rattle.rel_growth.specs.Assign.{ToAssign, EnoughToAssign};
ghost use Rattle.rel_growth.specs.Compare.{EnoughToCompare};
ghost use Rattle.rel_growth.specs.Convert.{EnoughToConvert};
ghost use Rattle.rel_growth.specs.Implement.{ToImplement, EnoughToImplement};
ghost use Rattle.method_sets.specs.Levels.{ToSelect, EnoughToSelect, EnoughToList};
ghost use Rattle.mark_walk.specs.Asks.{Adds, Lasting, Stays};
ghost use Rattle.type_questions.specs.Questions.{says, pends};
ghost use Rattle.type_questions.specs.Judging.{DeclaresAll, IsInStep, IsItemOf};

use crate::seen::Seen;

/// Whatever the items and the marks are, and wherever names are declared: an answer to a question stays while
/// more is marked, there is one, and a question goes on waiting for an item until that is marked.
pub fn questions_last<S: Seen>()
    ensures { (base : Declarations) (under : TypeName → Option S.Item) (reads : S.Meaning → Option Declaration) → Lasting (says base under reads) (pends base under reads) }
{}

/// Adding a type to a table, and declaring a name that isn't declared, make declarations grow.
pub fn tables_grow()
    ensures grown { (t u : TypeTable) → Grown t u → Grows (declarations_in t) (declarations_in u) }
    ensures declared { (t u : TypeTable) (name : TypeName) (under : TypeId) (methods : List Method) → declarations_in t name ≡ None → Declares t u name under methods → Grows (declarations_in t) (declarations_in u) }
{}

/// A table that declares all that is declared is in step with the marks. It stays so while types are added, while items are marked
/// that declare nothing, and while a name is declared as its item is marked.
pub fn tables_stay_in_step<S: Seen>()
    ensures step { (base : Declarations) (under : TypeName → Option S.Item) (reads : S.Meaning → Option Declaration) (t : TypeTable) (so_far : S.Item → Option S.Meaning) → DeclaresAll t base under reads so_far → IsInStep t base under reads so_far }
    ensures types { (base : Declarations) (under : TypeName → Option S.Item) (reads : S.Meaning → Option Declaration) (t u : TypeTable) (so_far next : S.Item → Option S.Meaning) → DeclaresAll t base under reads so_far → ((name : TypeName) → declarations_in u name ≡ declarations_in t name) → Stays so_far next → DeclaresAll u base under reads next }
    ensures quiet { (base : Declarations) (under : TypeName → Option S.Item) (reads : S.Meaning → Option Declaration) (t : TypeTable) (so_far next : S.Item → Option S.Meaning) (item : S.Item) (m : S.Meaning) → DeclaresAll t base under reads so_far → Adds so_far next item m → reads m ≡ None → DeclaresAll t base under reads next }
    ensures declares { (base : Declarations) (under : TypeName → Option S.Item) (reads : S.Meaning → Option Declaration) (t u : TypeTable) (so_far next : S.Item → Option S.Meaning) (item : S.Item) (m : S.Meaning) (name : TypeName) (below : TypeId) (methods : List Method) → DeclaresAll t base under reads so_far → Adds so_far next item m → IsItemOf under name item → reads m ≡ Some (declaration_of (types_in t) (record { under = below; methods = methods })) → declarations_in t name ≡ None → Declares t u name below methods → DeclaresAll u base under reads next }
{}

/// Where every name is declared, there is enough for every question, so that no call waits.
pub fn nothing_waits()
    ensures assign { (ds : Declarations) → ((name : TypeName) → IsDeclared ds name) → (q : ToAssign) → EnoughToAssign ds q }
    ensures convert { (ds : Declarations) → ((name : TypeName) → IsDeclared ds name) → (q : ToAssign) → EnoughToConvert ds q }
    ensures compare { (ds : Declarations) → ((name : TypeName) → IsDeclared ds name) → (of : GoType) → EnoughToCompare ds of }
    ensures implement { (ds : Declarations) → ((name : TypeName) → IsDeclared ds name) → (q : ToImplement) → EnoughToImplement ds q }
    ensures select { (ds : Declarations) → ((name : TypeName) → IsDeclared ds name) → (q : ToSelect) → EnoughToSelect ds q }
    ensures list { (ds : Declarations) → ((name : TypeName) → IsDeclared ds name) → (of : GoType) → EnoughToList ds of }
{}
