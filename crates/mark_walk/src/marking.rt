//! What marks items.
ghost use Rattle.std.specs.Prelude.{◌≡◌, ◌↔◌, ℕ, Option, None, OnOk, IfOk, IsTrue};
ghost use Rattle.mark_walk.specs.Asks.{Ask, IsMarked, Lasting};
ghost use Rattle.mark_walk.specs.Marking.{AreNumbers, Steps};

use gv_base::NoMemory;

/// Marks items, each by its rule, from the marks so far.
pub trait Marking {
    type Item: Copy + Drop;

    /// What a mark says.
    ghost Meaning: { Type 0 };

    /// What a rule asks about the marks so far, beside marks.
    ghost Question: { Type 0 };

    /// What is answered.
    ghost Answer: { Type 0 };

    /// On what the items, their rules and the answers rest. No mark changes it.
    ghost Subject: { Type 0 };

    ghost subject: { Self → Subject };

    /// The answers to questions over marks.
    ghost says: { Subject → (Self.Item → Option Meaning) → Question → Answer → Type 0 };

    /// The items for whose marks a question waits.
    ghost pends: { Subject → (Self.Item → Option Meaning) → Question → Self.Item → Type 0 };

    /// Which items there are.
    ghost IsItem: { Subject → Self.Item → Type 0 };

    /// How many there are at most, and the number of each.
    ghost count: { Subject → ℕ };

    ghost number: { Subject → Self.Item → ℕ };

    /// The rule of each item.
    ghost rule: { Subject → Self.Item → Ask Self.Item Meaning Question Answer Meaning };

    /// What holds of it throughout.
    ghost IsState: { Self → Type 0 };

    /// The marks so far.
    ghost so_far: { Self → Self.Item → Option Meaning };

    /// An answer stays while more is marked, and there is one.
    ghost lasts: { (s : Subject) → Lasting (says s) (pends s) };

    /// Each item has a number of its own.
    ghost numbers: { (s : Subject) → AreNumbers (IsItem s) (number s) (count s) };

    /// How many items there are at most.
    fn count(&self) -> usize
        requires { IsState self.now }
        ensures { result ≡ count (subject self.now) };

    /// The number of an item.
    fn number(&self, item: Self::Item) -> usize
        requires state { IsState self.now }
        requires item { IsItem (subject self.now) item }
        ensures { result ≡ number (subject self.now) item };

    /// Whether an item is marked.
    fn is_marked(&self, item: Self::Item) -> bool
        requires state { IsState self.now }
        requires item { IsItem (subject self.now) item }
        ensures { IsTrue result ↔ IsMarked (so_far self.now) item };

    /// Marks an item by its rule, or answers an unmarked one for whose mark the rule waits.
    fn judge(&mut self, item: Self::Item) -> Result<Option<Self::Item>, NoMemory>
        requires state { IsState self.old }
        requires item { IsItem (subject self.old) item }
        requires unmarked { so_far self.old item ≡ None }
        ensures state { OnOk result (IsState self.new) }
        ensures subject { OnOk result (subject self.new ≡ subject self.old) }
        ensures steps { IfOk result (λ waits. Steps (says (subject self.old)) (pends (subject self.old)) (IsItem (subject self.old)) (rule (subject self.old)) (so_far self.old) (so_far self.new) item waits) };
}
