//! The least set of numbered items, by a list of those that wait.
ghost use Rattle.std.specs.Prelude.{◌≡◌, ◌+◌, ◌<◌, ◌≤◌, ◌↔◌, ◌∷◌, ◌^◌, ℕ, List, Bool, IsTrue, IfOk, OnOk, length};
ghost use Rattle.std.specs.List.{Contains};
ghost use Rattle.least.specs.Least.{IsLeast, IsMonotone};
ghost use Rattle.least.specs.Work.{set_of, among, IsSoFar, left_to_do};

use crate::queue::{flags_of, is_set, set, wait_all, wait_too};
use gv_base::NoMemory;
use std::alloc::Global;
use std::collections::VecDeque;

/// What admits items, numbered from 0, by the members so far.
pub trait Admission {
    /// How many items there are.
    ghost count: { Self → ℕ };

    /// What a set of members admits.
    ghost admits: { Self → (ℕ → Bool) → ℕ → Type 0 };

    /// Whom an item's membership may have admitted.
    ghost readers: { Self → ℕ → List ℕ };

    /// How many items there are.
    fn count(&self) -> u32
        ensures { result ≡ count self.now };

    /// Whether the members admit the item.
    fn judge(&self, members: &[bool], at: u32) -> Result<bool, NoMemory>
        requires members { length members.now ≡ count self.now }
        requires at { at < count self.now }
        ensures { IfOk result (λ b. IsTrue b ↔ admits self.now (set_of members.now) at) };

    /// Whom to look at again once the item is a member.
    fn readers(&self, at: u32) -> &[u32]
        requires at { at < count self.now }
        ensures { result.now ≡ readers self.now at };

    /// More members never take an admitted item away.
    ghost monotone: { (s : Self) → IsMonotone (admits s) };

    /// Whether an item is admitted depends on those of which it is a reader.
    ghost local: { (s : Self) (M N : ℕ → Bool) (i : ℕ) → ((j : ℕ) → Contains (readers s j) i → M j ≡ N j) → admits s M i → admits s N i };

    /// Readers are items.
    ghost within: { (s : Self) (i j : ℕ) → Contains (readers s i) j → j < count s };
}

/// Looks at an item that waited first.
fn look<A: Admission>(
    admission: &A,
    flags: &mut Vec<bool>,
    marks: &mut Vec<bool>,
    queue: &mut VecDeque<u32>,
    at: u32,
) -> Result<(), NoMemory>
    requires so_far { IsSoFar (A.count admission.now) (A.admits admission.now) flags.old.items marks.old.items (at ∷ queue.old.items) }
    ensures so_far { OnOk result (IsSoFar (A.count admission.now) (A.admits admission.now) flags.new.items marks.new.items queue.new.items) }
    ensures less { OnOk result (left_to_do (A.readers admission.now) flags.new.items queue.new.items ≤ left_to_do (A.readers admission.now) flags.old.items queue.old.items) }
{
    set(marks, at, false);
    if is_set(flags, at) {
        return Ok(());
    }
    let admitted = admission.judge(flags.as_slice(), at)?;
    if !admitted {
        return Ok(());
    }
    set(flags, at, true);
    wait_too(marks, queue, admission.readers(at))?;
    Ok(())
}

/// The least set of the items, a flag for each. `first` are looked at first, in their order, and then the
/// others. An item is looked at once, and again only where members that it reads have joined since: all
/// that joined meanwhile count as one. So where `first` has items behind those that they read, none of
/// them is looked at twice.
pub fn least<A: Admission>(
    alloc: Global,
    admission: &A,
    first: &[u32],
) -> Result<Vec<bool>, NoMemory>
    requires { (i : ℕ) → Contains first.now i → i < A.count admission.now }
    ensures size { IfOk result (λ flags. length flags.items ≡ A.count admission.now) }
    ensures least { IfOk result (λ flags. IsLeast (among (A.count admission.now) (A.admits admission.now)) (set_of flags.items)) }
{
    let count = admission.count();
    let mut flags = flags_of(alloc, count)?;
    let mut marks = flags_of(alloc, count)?;
    let mut queue = VecDeque::with_capacity(alloc, count as usize)?;
    wait_all(alloc, count, first, &mut marks, &mut queue)?;
    while let Some(at) = queue.pop_front() {
        look(admission, &mut flags, &mut marks, &mut queue, at)?;
    }
    Ok(flags)
}
