//! The order of diagnostics.
ghost use Rattle.std.specs.Prelude.{◌≡◌, [], Contains};
ghost use Rattle.std.specs.List.{dedup};
ghost use Rattle.std.specs.List.Sorted.{IsStrictlySortedBy, IsPermutation, IsSorted};
ghost use Rattle.std.specs.Ordering.{nat_cmp, eq_by_cmp, on, then_cmp};
ghost use Rattle.std.specs.Cmp.Lexicographic.{slice_cmp};
ghost use Rattle.analysis_core.specs.FoundOrder.{edit_order, fix_count, fix_file, fix_edits, fix_order, order};
ghost use Rattle.analysis_core.specs.declared.diagnostic.Diagnostic.{Diagnostic};

use crate::diagnostic::Diagnostic;
use fix_apply::{Edit, Fix};
use std::cmp::Ordering;

fn compare_edits(a: &Edit, b: &Edit) -> Ordering
    ensures { result ≡ edit_order a.now b.now }
{
    a.start.cmp(&b.start).then(
        a.end
            .cmp(&b.end)
            .then(a.text.as_slice().cmp(b.text.as_slice())),
    )
}

fn compare_to_none(left: &[Edit]) -> Ordering
    ensures { result ≡ slice_cmp edit_order left.now [] }
{
    match left {
        [] => Ordering::Equal,
        [_, ..] => Ordering::Greater,
    }
}

/// Edit by edit, and a list before every longer one that it begins.
fn compare_edit_lists(a: &[Edit], b: &[Edit]) -> Ordering
    ensures { result ≡ slice_cmp edit_order a.now b.now }
{
    let mut left = a;
    let mut right = b;
    while let [y, more @ ..] = right {
        let Some((x, less)) = left.split_first() else {
            return Ordering::Less;
        };
        let first = compare_edits(x, y);
        match first {
            Ordering::Less => return Ordering::Less,
            Ordering::Greater => return Ordering::Greater,
            Ordering::Equal => {}
        }
        left = less;
        right = more;
    }
    compare_to_none(left)
}

fn fix_count(fix: &Option<Fix>) -> u8
    ensures { result ≡ fix_count fix.now }
{
    match fix {
        None => 0,
        Some(_) => 1,
    }
}

fn fix_file(fix: &Option<Fix>) -> u32
    ensures { result ≡ fix_file fix.now }
{
    match fix {
        None => 0,
        Some(fix) => fix.file,
    }
}

fn fix_edits(fix: &Option<Fix>) -> &[Edit]
    ensures { result.now ≡ fix_edits fix.now }
{
    match fix {
        None => &[],
        Some(fix) => fix.edits.as_slice(),
    }
}

fn compare_fixes(a: &Option<Fix>, b: &Option<Fix>) -> Ordering
    ensures { result ≡ fix_order a.now b.now }
{
    fix_count(a).cmp(&fix_count(b)).then(
        fix_file(a)
            .cmp(&fix_file(b))
            .then(compare_edit_lists(fix_edits(a), fix_edits(b))),
    )
}

fn compare_rest(a: &Diagnostic, b: &Diagnostic) -> Ordering
    ensures { result ≡ then_cmp (on (λ d. d.text) (slice_cmp nat_cmp)) (then_cmp (on (λ d. d.end) nat_cmp) (on (λ d. d.fix) fix_order)) a.now b.now }
{
    a.text
        .as_slice()
        .cmp(b.text.as_slice())
        .then(a.end.cmp(&b.end).then(compare_fixes(&a.fix, &b.fix)))
}

/// Which of two diagnostics comes first.
pub fn compare_diagnostics(a: &Diagnostic, b: &Diagnostic) -> Ordering
    ensures { result ≡ order a.now b.now }
{
    a.place.file.cmp(&b.place.file).then(
        a.place
            .offset
            .cmp(&b.place.offset)
            .then(a.analyzer.cmp(&b.analyzer).then(compare_rest(a, b))),
    )
}

fn sort(found: &mut Vec<Diagnostic>)
    ensures moved { IsPermutation found.old.items found.new.items }
    ensures sorted { IsSorted order found.new.items }
{
    found.sort_unstable_by(|a, b| compare_diagnostics(a, b));
}

fn is_same(a: &Diagnostic, b: &Diagnostic) -> bool
    ensures { result ≡ eq_by_cmp order a.now b.now }
{
    compare_diagnostics(a, b).is_eq()
}

fn drop_repeats(found: &mut Vec<Diagnostic>)
    ensures { found.new.items ≡ dedup (eq_by_cmp order) found.old.items }
{
    found.dedup_by(|a, b| is_same(a, b));
}

/// Puts the diagnostics of a package in order, each once.
pub fn settle_findings(found: &mut Vec<Diagnostic>)
    ensures keeps { (d : Diagnostic) → Contains found.old.items d → Contains found.new.items d }
    ensures adds_none { (d : Diagnostic) → Contains found.new.items d → Contains found.old.items d }
    ensures rises { IsStrictlySortedBy order found.new.items }
{
    sort(found);
    drop_repeats(found);
}
