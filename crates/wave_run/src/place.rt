//! Answers, put into the order of their numbers.
ghost use Rattle.std.specs.Prelude.{◌≡◌, ℕ, IfOk, IsOk, Some, None, map, replicate};
ghost use Rattle.wave_run.specs.Numbers.{total, below};
ghost use Rattle.wave_run.specs.Turns.{weight_of};
ghost use Rattle.wave_run.specs.Places.{AreByNumber, AreFull, ArePlaced};

use gv_base::NoMemory;
use std::alloc::Global;

/// Empty places for so many answers.
fn places<D: Drop>(alloc: Global, count: usize) -> Result<Vec<Option<D>>, NoMemory>
    ensures { IfOk result (λ v. v.items ≡ replicate count None) }
{
    let mut slots = Vec::new(alloc);
    for place in 0..count {
        let _ = place;
        slots.push(None)?;
    }
    Ok(slots)
}

/// Each answer at its number. Each number below the count has one, and no other number.
fn placed<D: Drop>(
    alloc: Global,
    count: usize,
    mut found: Vec<(u32, D)>,
) -> Result<Vec<Option<D>>, NoMemory>
    requires { (f : ℕ → ℕ) → total (weight_of f) found.items ≡ below f count }
    ensures { IfOk result (λ v. ArePlaced found.items count v.items) }
{
    let mut slots = places(alloc, count)?;
    while let Some((number, answer)) = found.pop() {
        slots[number as usize] = Some(answer);
    }
    Ok(slots)
}

/// What is in places that are all full, in their order.
fn taken_out<D: Drop>(alloc: Global, slots: Vec<Option<D>>) -> Result<Vec<D>, NoMemory>
    requires { AreFull slots.items }
    ensures { IfOk result (λ v. map Some v.items ≡ slots.items) }
{
    let mut answers = Vec::new(alloc);
    for slot in slots {
        match slot {
            Some(answer) => answers.push(answer)?,
            None => unreachable!(),
        }
    }
    Ok(answers)
}

/// The answers by number, where each number below the count has one. Only memory can be wanting.
pub(crate) fn ordered<D: Drop>(
    alloc: Global,
    count: usize,
    found: Result<Vec<(u32, D)>, NoMemory>,
) -> Result<Vec<D>, NoMemory>
    requires { IfOk found (λ v. (f : ℕ → ℕ) → total (weight_of f) v.items ≡ below f count) }
    ensures { IfOk result (λ v. IsOk found × IfOk found (λ w. AreByNumber w.items count v.items)) }
{
    let found = found?;
    let slots = placed(alloc, count, found)?;
    let answers = taken_out(alloc, slots)?;
    Ok(answers)
}
