//! Marks that rules give from other marks: what rules are, and the walk that marks an item and what its rule waits for.
#![tactic(auto)]

mod laws;
mod marking;
mod walk;

pub use laws::{
    first_marks_are_sound, ranked_rules_meet_no_circle, sound_marks_are_the_annotation,
};
pub use marking::Marking;
pub use walk::{Walk, Walked, mark, walk_over};
