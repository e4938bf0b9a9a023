//! What holds of rules that ask, whatever they are. The bodies are empty: the contracts are the laws.
ghost use Rattle.std.specs.Prelude.{ℕ, Option};
ghost use Rattle.mark_walk.specs.Asks.{Awaits, IsFirst, AreAllMarked, AreRanked, IsTheAnnotation, Sound, WaitsFor, filled};

use crate::marking::Marking;

/// Before anything is marked, but what rules give at once, the marks are sound.
pub fn first_marks_are_sound<K: Marking>()
    ensures { (s : K.Subject) (so_far : K.Item → Option K.Meaning) → IsFirst (K.rule s) so_far → Sound (K.says s) (K.rule s) so_far }
{}

/// Where each item is marked, sound marks are the annotation, and there is no other.
pub fn sound_marks_are_the_annotation<K: Marking>()
    ensures { (s : K.Subject) (blank : K.Meaning) (so_far : K.Item → Option K.Meaning) → Sound (K.says s) (K.rule s) so_far → AreAllMarked blank (K.rule s) so_far → IsTheAnnotation (K.says s) (K.rule s) (filled blank so_far) }
{}

/// No item waits for itself where rules wait for items of a lesser rank alone.
pub fn ranked_rules_meet_no_circle<K: Marking>()
    ensures { (s : K.Subject) (so_far : K.Item → Option K.Meaning) (rank : K.Item → ℕ) → AreRanked (K.says s) (K.pends s) (K.rule s) so_far rank → (i : K.Item) → WaitsFor (λ x. Awaits (K.says s) (K.pends s) so_far (K.rule s x)) i i → ⊥ }
{}
