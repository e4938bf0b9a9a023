//! Laws of what functions call. Their bodies are empty: the contracts are the laws.
ghost use Rattle.std.specs.Prelude.{ℕ, Bool, List};
ghost use Rattle.known_callees.specs.Seen.{IsSeen, env_of};
ghost use Rattle.least.specs.Tables.{Member};
ghost use Rattle.member_names.specs.Named.{IsNamed};
ghost use Rattle.never_returns.specs.Admits.{Admits, Has, SeeTheirCallees};
ghost use Rattle.own_functions.specs.Functions.{declared_at};
ghost use Rattle.typed_marks.specs.declared.item.Item.{Item};
ghost use Rattle.typed_marks.specs.Meanings.{Meaning};
ghost use Rattle.unit_read.specs.Units.{Unit};
ghost use Rattle.vet_never.specs.Listed.{listed_in};
ghost use Rattle.vet_never.specs.Never.{Around, bodies_in, IsAround};
ghost use Rattle.vet_printf.specs.Forwards.{Forwards};
ghost use Rattle.vet_printf.specs.Wrappers.{SeeTheirCallees as SeeWhomTheyHandOn};

/// The function or method that a node names is one of the package itself or of a package of its environment.
pub fn named_are_seen()
    ensures { (u : Unit) (marks : Item → Meaning) (f n : ℕ) (m : List ℕ × List ℕ) → IsNamed u marks f n m → IsSeen u m.0 }
{}

/// So are those that bodies call.
pub fn callees_are_seen()
    ensures { (u : Unit) (marks : Item → Meaning) (a : Around) → IsAround u marks a → SeeTheirCallees (Has (env_of u)) (bodies_in u a) }
{}

/// So are those to whom functions hand on what they print.
pub fn handed_on_are_seen()
    ensures { (u : Unit) (marks : Item → Meaning) → SeeWhomTheyHandOn (Has (env_of u)) (Forwards (declared_at u) u marks) }
{}

/// Whether a function is admitted doesn't depend on how labels are listed.
pub fn one_admission()
    ensures { (u : Unit) (marks : Item → Meaning) (a b : Around) → IsAround u marks a → IsAround u marks b → (N : Member → Bool) (m : Member) → Admits (listed_in u) (bodies_in u a) N m → Admits (listed_in u) (bodies_in u b) N m }
{}
