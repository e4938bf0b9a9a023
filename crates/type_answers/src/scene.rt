//! The marks so far, as questions about types need them.
ghost use Rattle.typed_marks.specs.Meanings.{Meaning};
ghost use Rattle.typed_marks.specs.States.{so_far};
ghost use Rattle.unit_read.specs.Units.{base_of};
ghost use Rattle.unit_read.specs.Subjects.{full_of, unit_of};
ghost use Rattle.unit_read.specs.declared.subject.Subject.{Subject as Read};
ghost use Rattle.rule_words.specs.Asking.{declarer, declaration_told};
ghost use Rattle.rule_words.specs.Scenes.{IsScene};

use rule_words::pending;
use type_model::{TypeId, TypeTable};
use type_questions::Seen;
use typed_marks::{Item, State};
use unit_read::Subject;

/// A package and its marks so far.
#[derive(Drop)]
pub struct Scene<'a> {
    pub subject: &'a Subject<'a>,
    pub state: &'a State,
}

impl<'a> Seen for Scene<'a> {
    type Item = Item;

    ghost Meaning = { Meaning };

    ghost Subject = { Read };

    ghost subject = { λ scene. scene.subject.now };

    ghost IsSeen = { λ scene. IsScene scene.subject.now scene.state.now };

    ghost base = { λ u. base_of (full_of u) };

    ghost under = { λ u. declarer (unit_of u) };

    ghost reads = { declaration_told };

    ghost so_far = { λ scene. so_far scene.state.now };

    fn pending(&self, t: &TypeTable, of: TypeId) -> Option<Item> {
        pending(self.subject, self.state, t, of)
    }
}
