//! Whether the numbers of rows are those of first mentions.
ghost use Rattle.std.specs.Prelude.{◌≡◌, ◌↔◌, Some, IsTrue};
ghost use Rattle.std.specs.List.{flat_map};
ghost use Rattle.gv_bytes.specs.Reading.{Answers};
ghost use Rattle.fact_cache.specs.Coded.{climb, climbs, climbs_rows, rises};
ghost use Rattle.fact_cache.specs.Numbered.{numbers_of};

use crate::numbered::Numbered;

/// The next number after this one was mentioned; none where it is above the next, or no text has it.
fn climb(count: usize, next: usize, n: usize) -> Option<usize>
    ensures { Answers (λ k. k) result (climb count next n) }
{
    if n < next {
        return Some(next);
    }
    if n > next {
        return None;
    }
    if n >= count {
        return None;
    }
    Some(next + 1)
}

fn climb_all(count: usize, first: usize, numbers: &[usize]) -> Option<usize>
    ensures { Answers (λ k. k) result (climbs count first numbers.now) }
{
    let mut next = first;
    for n in numbers {
        next = climb(count, next, *n)?;
    }
    Some(next)
}

fn climb_rows(count: usize, rows: &[Numbered]) -> Option<usize>
    ensures { Answers (λ k. k) result (climbs_rows count 0 rows.now) }
{
    let mut next = 0;
    for row in rows {
        next = climb_all(count, next, row.texts.as_slice())?;
        next = climb(count, next, row.outcome)?;
    }
    Some(next)
}

/// Whether each number is below the next or the next, which then rises, and `count` is the last.
pub(crate) fn is_in_order(count: usize, rows: &[Numbered]) -> bool
    ensures { IsTrue result ↔ (rises 0 (flat_map numbers_of rows.now) ≡ Some count) }
{
    match climb_rows(count, rows) {
        None => false,
        Some(last) => last == count,
    }
}
