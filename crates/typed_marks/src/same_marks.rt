//! Whether two marks are the same, and a number by which most that differ are told apart.
ghost use Rattle.std.specs.Prelude.{◌≡◌, IsTrue};

use crate::mark::{Facts, Mark, Want};
use typed_tree::Want as Demand;

fn same_facts(a: Facts, b: Facts) -> bool
    ensures { IsTrue result → a ≡ b }
{
    a == b
}

fn same_want(a: Want, b: Want) -> bool
    ensures { IsTrue result → a ≡ b }
{
    a == b
}

fn same_wish(a: Demand, of: Want, b: Demand, other: Want) -> bool
    ensures { IsTrue result → (a ≡ b) × (of ≡ other) }
{
    a == b && same_want(of, other)
}

/// Whether two marks are the same, of those that many items have; of others false may be answered all the same.
#[inline(always)]
pub fn is_same(a: Mark, b: Mark) -> bool
    ensures { IsTrue result → a ≡ b }
{
    match (a, b) {
        (Mark::Good(a), Mark::Good(b)) => same_facts(a, b),
        (Mark::Silent, Mark::Silent) => true,
        (Mark::Wants(a, of), Mark::Wants(b, other)) => same_wish(a, of, b, other),
        _ => false,
    }
}

fn of_facts(facts: Facts) -> u32 {
    let value = match facts.value {
        Some(id) => id.0,
        None => 0,
    };
    let types = facts.of.0.wrapping_add(facts.last.0.wrapping_mul(31));
    types
        .wrapping_add(value.wrapping_mul(7))
        .wrapping_mul(16)
        .wrapping_add(facts.mode as u32)
}

fn of_want(want: Want) -> u32 {
    match want {
        Want::Free => 0,
        Want::Takes(of) => of.0.wrapping_mul(4).wrapping_add(1),
        Want::Fits(of) => of.0.wrapping_mul(4).wrapping_add(2),
        Want::Assigned(of) => of.0.wrapping_mul(4).wrapping_add(3),
    }
}

/// A number by which most marks that differ are told apart. Nothing but time and memory rests on it.
#[inline(always)]
pub fn spread(mark: Mark) -> u32 {
    match mark {
        Mark::Good(facts) => of_facts(facts),
        Mark::Bad(rule) => rule.0 as u32,
        Mark::Outside(limit) => limit as u32,
        Mark::Silent => 11,
        Mark::Wants(demand, want) => of_want(want).wrapping_mul(8).wrapping_add(demand as u32),
        Mark::Declared(of) => of.0.wrapping_mul(16).wrapping_add(15),
    }
}
