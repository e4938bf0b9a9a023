//! The rules by which items are marked.
ghost use Rattle.std.specs.Prelude.{◌≡◌, ℕ, Bool, true, false, List, IfOk};
ghost use Rattle.mark_walk.specs.Asks.{done};
ghost use Rattle.mark_walk.specs.Telling.{tell};
ghost use Rattle.typed_marks.specs.declared.item.Item.{Item as AnItem};
ghost use Rattle.typed_marks.specs.Items.{IsItem};
ghost use Rattle.typed_marks.specs.Meanings.{Quiet};
ghost use Rattle.unit_read.specs.Units.{Unit};
ghost use Rattle.unit_read.specs.Subjects.{unit_of, IsRead};
ghost use Rattle.rule_words.specs.Asking.{Rule};
ghost use Rattle.rule_words.specs.Scenes.{sight, IsScene};
ghost use Rattle.rule_words.specs.Declaring.{declaring_in, IsDeclaringAt};
ghost use Rattle.elaborate.specs.Briefs.{ComesBriefly, IsBriefOf};
ghost use Rattle.elaborate.specs.Types.{AreQuietTypes};
ghost use Rattle.elaborate.specs.Walks.{is_declaring};

use crate::briefly::Brief;
use gv_base::NoMemory;
use rule_words::Declaring;
use std::alloc::Global;
use typed_marks::{Item, State};
use unit_read::Subject;

/// Rules, and the code that follows them.
pub trait Rules {
    /// Room that the code keeps from item to item. What it answers doesn't rest on it.
    type Room: Drop;

    /// The rule of each item of a package.
    ghost rule: { Unit → AnItem → Rule };

    /// Of which items of a package it is seen at once that nothing is said. The rules of others may say nothing too.
    ghost quiet: { Unit → AnItem → Bool };

    /// For each node of a block whether it is seen so that it declares no type, or none of them.
    ghost unnamed: { Unit → ℕ → List Bool };

    /// Room to begin with.
    fn room(&self, alloc: Global) -> Self::Room;

    /// Whether it is seen at once that nothing is said of an item.
    fn is_quiet(&self, u: &Subject, item: Item) -> bool
        requires { IsRead u.now }
        ensures is { result ≡ quiet (unit_of u.now) item }
        ensures none { result ≡ true → rule (unit_of u.now) item ≡ done Quiet };

    /// The nodes of a block of which it is seen at once, of all of them together, that they declare no type: their flags are set.
    fn quiet_types(&self, alloc: Global, u: &Subject, block: usize) -> Result<Vec<bool>, NoMemory>
        requires { IsRead u.now }
        ensures is { IfOk result (λ flags. flags.items ≡ unnamed (unit_of u.now) block) }
        ensures none { IfOk result (λ flags. AreQuietTypes rule (unit_of u.now) block flags.items) };

    /// What the rule of an item comes to over the marks so far, of one that declares no type.
    fn judge(
        &self,
        alloc: Global,
        room: &mut Self::Room,
        u: &Subject,
        s: &State,
        item: Item,
    ) -> Result<Brief, NoMemory>
        requires scene { IsScene u.now s.now }
        requires item { IsItem s.now.blocks.items item }
        requires stage { is_declaring item.stage ≡ false }
        ensures comes { IfOk result (ComesBriefly u.now s.now (rule (unit_of u.now) item)) }
        ensures over { IfOk result (IsBriefOf s.now) };

    /// How far the rule goes that says what a type is declared with.
    fn declare(
        &self,
        alloc: Global,
        u: &Subject,
        s: &State,
        item: Item,
    ) -> Result<Declaring, NoMemory>
        requires scene { IsScene u.now s.now }
        requires item { IsItem s.now.blocks.items item }
        requires stage { is_declaring item.stage ≡ true }
        ensures is { IfOk result (λ declaring. declaring_in s.now declaring ≡ tell (sight s.now) (rule (unit_of u.now) item)) }
        ensures over { IfOk result (IsDeclaringAt (unit_of u.now) s.now item) };
}
