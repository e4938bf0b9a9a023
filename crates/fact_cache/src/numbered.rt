//! An entry as the numbers of its texts.
ghost use Rattle.std.specs.Prelude.{◌≡◌, ◌≤◌, ◌++◌, ◌∷◌, [], ℕ, IfOk, OnOk, OnErr, length};
ghost use Rattle.std.specs.Str.{bytes_eq};
ghost use Rattle.fact_cache.specs.Inputs.{same_texts, same_input};
ghost use Rattle.fact_cache.specs.declared.spread.Key.{Key as Spread};
ghost use Rattle.fact_cache.specs.Kept.{uses_at, text_at, AreMixed, IsHeld};
ghost use Rattle.fact_cache.specs.Numbered.{input_in, entry_in, numbers_of, times, IsLike, AreTaken, AreFreed};
ghost use Rattle.std.specs.Prelude.{map};

use crate::kept::Kept;
use crate::spread::Key;
use crate::texts::Input;
use gv_base::{Bytes, NoMemory, Row};
use std::alloc::Global;

#[derive(Drop)]
pub(crate) struct Numbered {
    pub(crate) node: u8,
    pub(crate) texts: Row<usize>,
    pub(crate) outcome: usize,
}

fn is_same_text(kept: &Kept, n: usize, text: &Bytes) -> bool
    ensures { result ≡ bytes_eq (text_at kept.now n) text.now }
{
    kept.text(n) == text.as_slice()
}

fn are_same_texts(kept: &Kept, numbers: &[usize], texts: &[Bytes]) -> bool
    ensures { result ≡ same_texts (map (text_at kept.now) numbers.now) texts.now }
{
    if numbers.len() != texts.len() {
        return false;
    }
    for i in 0..numbers.len() {
        if !is_same_text(kept, numbers[i], &texts[i]) {
            return false;
        }
    }
    true
}

/// Whether a row has this input, by its bytes.
pub(crate) fn is_row_of(kept: &Kept, row: &Numbered, input: &Input) -> bool
    ensures { result ≡ same_input (input_in kept.now row.now) input.now }
{
    if row.node != input.node {
        return false;
    }
    are_same_texts(kept, row.texts.as_slice(), input.texts.as_slice())
}

/// Holds one text more.
fn hold_one(
    key: Key,
    kept: &mut Kept,
    numbers: &mut Vec<usize>,
    text: &Bytes,
    likely: usize,
) -> Result<usize, NoMemory>
    requires { AreMixed key kept.old }
    ensures mixed { AreMixed key kept.new }
    ensures held { IfOk result (λ n. IsHeld kept.old kept.new text.now n × (numbers.new.items ≡ numbers.old.items ++ n ∷ [])) }
    ensures like { OnErr result (IsLike kept.old kept.new) }
    ensures same { OnErr result (numbers.new.items ≡ numbers.old.items) }
{
    let n = kept.hold_likely(key, text, likely)?;
    match numbers.push(n) {
        Ok(()) => Ok(n),
        Err(_) => {
            kept.free(n);
            Err(NoMemory)
        }
    }
}

/// Lets texts go. It takes no memory.
pub(crate) fn free_all(kept: &mut Kept, numbers: &[usize])
    requires { (m : ℕ) → times m numbers.now ≤ uses_at kept.old m }
    ensures freed { AreFreed kept.old kept.new numbers.now }
    ensures mixed { (key : Spread) → AreMixed key kept.old → AreMixed key kept.new }
{
    for n in numbers {
        kept.free(*n);
    }
}

/// Where the next text is likely to be kept.
fn place_at(likely: &[usize], numbers: &Vec<usize>) -> usize {
    match likely.get(numbers.len()) {
        None => 0,
        Some(place) => *place,
    }
}

/// Holds texts, which are likely to be kept at these places; where memory is wanting, none of them.
fn hold_all(
    key: Key,
    kept: &mut Kept,
    numbers: &mut Vec<usize>,
    texts: &[Bytes],
    likely: &[usize],
) -> Result<(), NoMemory>
    requires mixed { AreMixed key kept.old }
    requires none { numbers.old.items ≡ [] }
    ensures mixed { AreMixed key kept.new }
    ensures taken { OnOk result (AreTaken kept.old kept.new texts.now numbers.new.items) }
    ensures like { OnErr result (IsLike kept.old kept.new) }
{
    for text in texts {
        let place = place_at(likely, numbers);
        match hold_one(key, kept, numbers, text, place) {
            Ok(_n) => {}
            Err(error) => {
                free_all(kept, numbers);
                return Err(error);
            }
        }
    }
    Ok(())
}

/// Lets an entry's texts go.
pub(crate) fn free_row(kept: &mut Kept, row: &Numbered)
    requires { (m : ℕ) → times m (numbers_of row.now) ≤ uses_at kept.old m }
    ensures freed { AreFreed kept.old kept.new (numbers_of row.now) }
    ensures mixed { (key : Spread) → AreMixed key kept.old → AreMixed key kept.new }
{
    free_all(kept, row.texts.as_slice());
    kept.free(row.outcome);
}

/// Holds an entry's texts; where memory is wanting, none of them. Those of its input are likely to be kept at these places.
pub(crate) fn hold_row(
    alloc: Global,
    key: Key,
    kept: &mut Kept,
    input: &Input,
    outcome: &Bytes,
    likely: &[usize],
) -> Result<Numbered, NoMemory>
    requires { AreMixed key kept.old }
    ensures mixed { AreMixed key kept.new }
    ensures taken { IfOk result (λ r. AreTaken kept.old kept.new (input.now.texts ++ outcome.now ∷ []) (numbers_of r)) }
    ensures entry { IfOk result (λ r. entry_in kept.new r ≡ record { input = input.now; outcome = outcome.now }) }
    ensures like { OnErr result (IsLike kept.old kept.new) }
{
    let mut numbers = Vec::new(alloc);
    hold_all(key, kept, &mut numbers, input.texts.as_slice(), likely)?;
    match kept.hold(key, outcome) {
        Ok(outcome) => Ok(Numbered {
            node: input.node,
            texts: Row::new(numbers),
            outcome,
        }),
        Err(error) => {
            free_all(kept, &numbers);
            Err(error)
        }
    }
}
