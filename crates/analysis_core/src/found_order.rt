//! The order of the diagnostics of a reply.
ghost use Rattle.std.specs.Prelude.{◌≡◌, Bool, true, List, Contains};
ghost use Rattle.std.specs.List.{dedup};
ghost use Rattle.std.specs.List.Sorted.{IsStrictlySortedBy, IsPermutation, IsSorted};
ghost use Rattle.std.specs.Ordering.{eq_by_cmp};
ghost use Rattle.analysis_core.specs.FoundOrder.{found_order, AreInOrder};
ghost use Rattle.analysis_core.specs.declared.reply.FoundLine.{FoundLine};

use crate::order::compare_diagnostics;
use crate::reply::FoundLine;
use std::cmp::Ordering;

/// Which of two comes first.
fn compare(a: &FoundLine, b: &FoundLine) -> Ordering
    ensures { result ≡ found_order a.now b.now }
{
    a.package
        .as_str()
        .as_bytes()
        .cmp(b.package.as_str().as_bytes())
        .then(compare_diagnostics(&a.diagnostic, &b.diagnostic))
}

fn sort(found: &mut Vec<FoundLine>)
    ensures moved { IsPermutation found.old.items found.new.items }
    ensures sorted { IsSorted found_order found.new.items }
{
    found.sort_unstable_by(|a, b| compare(a, b));
}

fn is_same(a: &FoundLine, b: &FoundLine) -> bool
    ensures { result ≡ eq_by_cmp found_order a.now b.now }
{
    compare(a, b).is_eq()
}

fn drop_repeats(found: &mut Vec<FoundLine>)
    ensures { found.new.items ≡ dedup (eq_by_cmp found_order) found.old.items }
{
    found.dedup_by(|a, b| is_same(a, b));
}

/// Puts the diagnostics of a reply in order, each once.
pub fn settle_found(found: &mut Vec<FoundLine>)
    ensures keeps { (l : FoundLine) → Contains found.old.items l → Contains found.new.items l }
    ensures adds_none { (l : FoundLine) → Contains found.new.items l → Contains found.old.items l }
    ensures rises { IsStrictlySortedBy found_order found.new.items }
{
    sort(found);
    drop_repeats(found);
}

/// What is found has one list in order.
pub fn one_order()
    ensures { (IsFound : FoundLine → Bool) (xs ys : List FoundLine) → AreInOrder found_order (λ l. IsFound l ≡ true) xs → AreInOrder found_order (λ l. IsFound l ≡ true) ys → xs ≡ ys }
{}
