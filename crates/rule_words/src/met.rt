//! What stands twice in a list, by what is noted of each: spellings, and those that were met.
ghost use Rattle.std.specs.Prelude.{◌≡◌, ◌||◌, ◌++◌, ◌∷◌, [], ℕ, List, Some, pos, negsuc, ◌<ℤ◌, false, if◌then◌else◌, IfOk, OnOk};
ghost use Rattle.std.specs.Option.{option_map_or};
ghost use Rattle.std.specs.Global.{Vec};
ghost use Rattle.std.specs.Str.{bytes_eq};
ghost use Rattle.rule_words.specs.Met.{kept, holds, spelled_int};

use gv_base::NoMemory;
use std::collections::HashMap;

// ---- spellings

/// Adds a number.
pub fn push(out: &mut Vec<u128>, n: u128) -> Result<(), NoMemory>
    ensures { OnOk result (out.new.items ≡ out.old.items ++ n ∷ []) }
{
    out.push(n)?;
    Ok(())
}

/// Adds two numbers.
pub fn push_two(out: &mut Vec<u128>, a: u128, b: u128) -> Result<(), NoMemory>
    ensures { OnOk result (out.new.items ≡ out.old.items ++ a ∷ b ∷ []) }
{
    push(out, a)?;
    push(out, b)?;
    Ok(())
}

/// What a negative number is below zero, but for one.
fn below_zero(n: i128) -> u128
    requires { n <ℤ pos 0 }
    ensures { n ≡ negsuc result }
{
    (-(n + 1)) as u128
}

/// Adds an integer, spelled.
pub fn push_int(out: &mut Vec<u128>, n: i128) -> Result<(), NoMemory>
    ensures { OnOk result (out.new.items ≡ out.old.items ++ spelled_int n) }
{
    if n < 0 {
        push_two(out, 1, below_zero(n))?;
    } else {
        push_two(out, 0, n as u128)?;
    }
    Ok(())
}

/// Adds the bytes of a text.
pub fn push_bytes(out: &mut Vec<u128>, text: &[u8]) -> Result<(), NoMemory>
    ensures { OnOk result (out.new.items ≡ out.old.items ++ text.now) }
{
    for b in text {
        out.push(*b as u128)?;
    }
    Ok(())
}

// ---- those that were met

fn holds(met: &HashMap<Vec<u128>, u8>, key: &[u128]) -> bool
    ensures { result ≡ holds met.now key.now }
{
    met.contains_key(key)
}

fn keep(met: &mut HashMap<Vec<u128>, u8>, key: Vec<u128>) -> Result<(), NoMemory>
    ensures { OnOk result ((k : List ℕ) → kept met.new k ≡ (if bytes_eq key.items k then Some 0 else kept met.old k)) }
{
    met.insert(key, 0)?;
    Ok(())
}

fn meet_spelled(met: &mut HashMap<Vec<u128>, u8>, key: Vec<u128>) -> Result<bool, NoMemory>
    ensures again { IfOk result (λ again. again ≡ holds met.old key.items) }
    ensures notes { OnOk result ((k : List ℕ) → holds met.new k ≡ (holds met.old k || bytes_eq key.items k)) }
{
    let again = holds(met, &key);
    keep(met, key)?;
    Ok(again)
}

/// Notes a spelling, and answers whether it was noted.
pub fn meet(met: &mut HashMap<Vec<u128>, u8>, key: Option<Vec<u128>>) -> Result<bool, NoMemory>
    ensures again { IfOk result (λ again. again ≡ option_map_or (λ (v : Vec ℕ). holds met.old v.items) key false) }
    ensures notes { OnOk result ((k : List ℕ) → holds met.new k ≡ (holds met.old k || option_map_or (λ (v : Vec ℕ). bytes_eq v.items k) key false)) }
{
    match key {
        Some(key) => {
            let again = meet_spelled(met, key)?;
            Ok(again)
        }
        None => Ok(false),
    }
}
