//! The marks so far, as questions about types need them.
ghost use Rattle.std.specs.Prelude.{◌<◌, Option, MatchOption};
ghost use Rattle.type_model.specs.declared.term.TypeName.{TypeName};
ghost use Rattle.type_model.specs.Declarations.{Declaration, Declarations};
ghost use Rattle.type_model.specs.Tables.{count, IsTable};
ghost use Rattle.type_questions.specs.Judging.{RestsOn, RestsOnNothing};

use type_model::{TypeId, TypeTable};

/// Marks of items that declare names.
pub trait Seen {
    type Item: Copy + Drop;

    /// What a mark says.
    ghost Meaning: { Type 0 };

    /// On what the items and their rules rest. No mark changes it.
    ghost Subject: { Type 0 };

    ghost subject: { Self → Subject };

    /// What holds of it throughout.
    ghost IsSeen: { Self → Type 0 };

    /// What is declared from the start: by packages that are imported, and by the universe block.
    ghost base: { Subject → Declarations };

    /// The item that declares a name, its underlying type and its methods; None where no item does.
    ghost under: { Subject → TypeName → Option Self.Item };

    /// What such an item's mark says that the name is declared with; None where its declaration gives nothing.
    ghost reads: { Meaning → Option Declaration };

    /// The marks so far.
    ghost so_far: { Self → Self.Item → Option Meaning };

    /// The item that declares the name of a type, where it has no mark yet; asked of a name that isn't
    /// declared. None where it has one, so that its declaration gives nothing, and where no item declares
    /// the name.
    fn pending(&self, t: &TypeTable, id: TypeId) -> Option<Self::Item>
        requires seen { IsSeen self.now }
        requires table { IsTable t.now }
        requires within { id.0 < count t.now }
        ensures { MatchOption result (RestsOnNothing t.now (base (subject self.now)) (under (subject self.now)) reads (so_far self.now) id) (λ item. RestsOn t.now (base (subject self.now)) (under (subject self.now)) reads (so_far self.now) id item) };
}
