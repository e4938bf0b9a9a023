//! The walk over items that wait for one another.
ghost use Rattle.std.specs.Prelude.{◌≡◌, ◌++◌, ◌∷◌, ◌<◌, ◌≤◌, [], ℕ, Some, None, false, true, length, option_to_list, slice_get, replicate, set, OnOk, IfOk};
ghost use Rattle.mark_walk.specs.Asks.{Awaits};
ghost use Rattle.mark_walk.specs.Marking.{Goes};
ghost use Rattle.mark_walk.specs.Waiting.{Rests, Waits, Ends, NotesStay, IsCircle, IsFirst, left_to_do};

use crate::marking::Marking;
use gv_base::NoMemory;
use std::alloc::Global;

/// What a walk came to.
#[derive(Clone, Copy, Debug, PartialEq, Eq, Drop)]
pub enum Walked<I> {
    /// The item is marked.
    Marked,
    /// This item waits for itself, at once or through others, and what was to be marked waits for it: none of them can be marked.
    Circle(I),
}

/// The items that wait, each for the one behind it, and the numbers of all that ever did.
#[derive(Drop)]
pub struct Walk<I> {
    waiting: Vec<I>,
    met: Vec<bool>,
}

fn no_notes(alloc: Global, count: usize) -> Result<Vec<bool>, NoMemory>
    ensures { IfOk result (λ notes. notes.items ≡ replicate count false) }
{
    let mut notes = Vec::with_capacity(alloc, count)?;
    for n in 0..count {
        let _ = n;
        notes.push(false)?;
    }
    Ok(notes)
}

/// A walk over the items of one marking, at rest.
pub fn walk_over<K: Marking>(alloc: Global, kit: &K) -> Result<Walk<K::Item>, NoMemory>
    requires { K.IsState kit.now }
    ensures { IfOk result (λ walk. Rests (K.IsItem (K.subject kit.now)) (K.number (K.subject kit.now)) (K.count (K.subject kit.now)) (K.so_far kit.now) walk) }
{
    let met = no_notes(alloc, kit.count())?;
    Ok(Walk {
        waiting: Vec::new(alloc),
        met,
    })
}

fn wait<I: Copy + Drop>(waiting: &mut Vec<I>, item: I) -> Result<(), NoMemory>
    ensures { OnOk result (waiting.new.items ≡ waiting.old.items ++ item ∷ []) }
{
    waiting.push(item)?;
    Ok(())
}

fn is_noted(met: &Vec<bool>, number: usize) -> bool
    requires { number < length met.now.items }
    ensures { slice_get met.now.items number ≡ Some result }
{
    met[number]
}

fn note(met: &mut Vec<bool>, number: usize)
    requires { number < length met.old.items }
    ensures { met.new.items ≡ set met.old.items number true }
{
    met[number] = true;
}

/// Has an item wait for another, unless that waits already: then it is answered.
fn wait_for<I: Copy + Drop>(
    waiting: &mut Vec<I>,
    met: &mut Vec<bool>,
    item: I,
    other: I,
    number: usize,
) -> Result<Option<I>, NoMemory>
    requires { number < length met.old.items }
    ensures again { IfOk result (λ circle. slice_get met.old.items number ≡ Some true → circle ≡ Some other) }
    ensures first { IfOk result (λ circle. slice_get met.old.items number ≡ Some false → circle ≡ None) }
    ensures waiting { OnOk result (slice_get met.old.items number ≡ Some false → waiting.new.items ≡ (waiting.old.items ++ item ∷ []) ++ other ∷ []) }
    ensures met { OnOk result (slice_get met.old.items number ≡ Some false → met.new.items ≡ set met.old.items number true) }
{
    if is_noted(met, number) {
        return Ok(Some(other));
    }
    note(met, number);
    wait(waiting, item)?;
    wait(waiting, other)?;
    Ok(None)
}

/// Has an item judged that was the last to wait. It is marked; or it waits again, and that for which it waits behind it; or that
/// waits already, and so for itself.
fn step<K: Marking>(
    kit: &mut K,
    waiting: &mut Vec<K::Item>,
    met: &mut Vec<bool>,
    top: K::Item,
) -> Result<Option<K::Item>, NoMemory>
    requires state { K.IsState kit.old }
    requires waits { Waits (K.IsItem (K.subject kit.old)) (K.number (K.subject kit.old)) (K.count (K.subject kit.old)) (λ x. Awaits (K.says (K.subject kit.old)) (K.pends (K.subject kit.old)) (K.so_far kit.old) (K.rule (K.subject kit.old) x)) (K.so_far kit.old) (waiting.old.items ++ top ∷ []) met.old.items }
    ensures state { OnOk result (K.IsState kit.new) }
    ensures subject { OnOk result (K.subject kit.new ≡ K.subject kit.old) }
    ensures goes { OnOk result (Goes (K.says (K.subject kit.old)) (K.rule (K.subject kit.old)) (K.so_far kit.old) (K.so_far kit.new)) }
    ensures notes { IfOk result (λ circle. circle ≡ None → NotesStay met.old.items met.new.items) }
    ensures waits { IfOk result (λ circle. circle ≡ None → Waits (K.IsItem (K.subject kit.old)) (K.number (K.subject kit.old)) (K.count (K.subject kit.old)) (λ x. Awaits (K.says (K.subject kit.old)) (K.pends (K.subject kit.old)) (K.so_far kit.new) (K.rule (K.subject kit.old) x)) (K.so_far kit.new) waiting.new.items met.new.items) }
    ensures less { IfOk result (λ circle. circle ≡ None → left_to_do waiting.new.items met.new.items ≤ left_to_do waiting.old.items met.old.items) }
    ensures first { IfOk result (λ circle. circle ≡ None → (x : K.Item) → IsFirst waiting.new.items x → IsFirst (waiting.old.items ++ top ∷ []) x) }
    ensures circle { IfOk result (IsCircle (λ x. Awaits (K.says (K.subject kit.old)) (K.pends (K.subject kit.old)) (K.so_far kit.new) (K.rule (K.subject kit.old) x)) (IsFirst (waiting.old.items ++ top ∷ []))) }
{
    let waits = kit.judge(top)?;
    match waits {
        None => Ok(None),
        Some(other) => {
            let number = kit.number(other);
            let circle = wait_for(waiting, met, top, other, number)?;
            Ok(circle)
        }
    }
}

/// The last one that waits, which waits no more.
fn last<I: Copy + Drop>(waiting: &mut Vec<I>) -> Option<I>
    ensures items { waiting.old.items ≡ waiting.new.items ++ option_to_list result }
    ensures idle { result ≡ None → waiting.new.items ≡ [] }
{
    waiting.pop()
}

/// Marks an item, unless it is marked, and what its rule waits for. Each item waits once at most in all that a walk marks.
pub fn mark<K: Marking>(
    walk: &mut Walk<K::Item>,
    kit: &mut K,
    item: K::Item,
) -> Result<Walked<K::Item>, NoMemory>
    requires state { K.IsState kit.old }
    requires item { K.IsItem (K.subject kit.old) item }
    requires rests { Rests (K.IsItem (K.subject kit.old)) (K.number (K.subject kit.old)) (K.count (K.subject kit.old)) (K.so_far kit.old) walk.old }
    ensures state { OnOk result (K.IsState kit.new) }
    ensures subject { OnOk result (K.subject kit.new ≡ K.subject kit.old) }
    ensures goes { OnOk result (Goes (K.says (K.subject kit.old)) (K.rule (K.subject kit.old)) (K.so_far kit.old) (K.so_far kit.new)) }
    ensures ends { IfOk result (Ends (λ x. Awaits (K.says (K.subject kit.old)) (K.pends (K.subject kit.old)) (K.so_far kit.new) (K.rule (K.subject kit.old) x)) (K.so_far kit.new) item) }
    ensures rests { IfOk result (λ walked. walked ≡ Walked.Marked → Rests (K.IsItem (K.subject kit.old)) (K.number (K.subject kit.old)) (K.count (K.subject kit.old)) (K.so_far kit.new) walk.new) }
{
    if kit.is_marked(item) {
        return Ok(Walked::Marked);
    }
    note(&mut walk.met, kit.number(item));
    let mut next = Some(item);
    while let Some(top) = next {
        let circle = step(kit, &mut walk.waiting, &mut walk.met, top)?;
        if let Some(other) = circle {
            return Ok(Walked::Circle(other));
        }
        next = last(&mut walk.waiting);
    }
    Ok(Walked::Marked)
}
