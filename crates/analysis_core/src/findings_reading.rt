//! Reading the findings of a run.
ghost use Rattle.std.specs.Prelude.{◌≡◌, ◌-◌, ◌^◌, List, IfOk, IfSome, IsSomeAnd};
ghost use Rattle.gv_bytes.specs.Reading.{Gives, natural_at, text_at, each_at, items_at};
ghost use Rattle.fact_codec.specs.Texts.{seq_at};
ghost use Rattle.analysis_core.specs.declared.diagnostic.Diagnostic.{Diagnostic};
ghost use Rattle.analysis_core.specs.Findings.{offset_at, edit_at, edits_at, fix_in, diagnostic_at, findings_in, AreFindings};

use crate::diagnostic::Diagnostic;
use fix_apply::{Edit, Fix};
use gv_base::{Bytes, NoMemory, Place, Row};
use gv_bytes::{Unread, read_natural, split_text};
use std::alloc::Global;

fn offset_of(bytes: &[u8]) -> Result<(u32, &[u8]), Unread>
    ensures { Gives (λ x. (x.0, x.1.now)) result (offset_at bytes.now) }
{
    let (n, rest) = read_natural(bytes, u32::MAX as u64)?;
    Ok((n as u32, rest))
}

/// A text, copied.
fn text_of(alloc: Global, bytes: &[u8]) -> Result<(Bytes, &[u8]), Unread>
    ensures { Gives (λ x. (x.0, x.1.now)) result (text_at bytes.now) }
{
    match split_text(bytes) {
        None => Err(Unread::Unspelled),
        Some((text, rest)) => {
            let copy = Bytes::of(alloc, text)?;
            Ok((copy, rest))
        }
    }
}

#[tactic(auto, unfolding(crate::specs::Findings::edit_at))]
fn edit_of(alloc: Global, bytes: &[u8]) -> Result<(Edit, &[u8]), Unread>
    ensures { Gives (λ x. (x.0, x.1.now)) result (edit_at bytes.now) }
{
    let (start, rest) = offset_of(bytes)?;
    let (end, rest) = offset_of(rest)?;
    let (text, rest) = text_of(alloc, rest)?;
    Ok((Edit { start, end, text }, rest))
}

/// That many edits, one after the other. Room is made for what is there, whatever the count says.
fn edits_from(alloc: Global, count: u64, bytes: &[u8]) -> Result<(Vec<Edit>, &[u8]), Unread>
    ensures { Gives (λ x. (x.0.items, x.1.now)) result (each_at edit_at count bytes.now) }
{
    let mut list = Vec::new(alloc);
    let mut rest = bytes;
    for _ in 0..count {
        let (edit, after) = edit_of(alloc, rest)?;
        list.push(edit)?;
        rest = after;
    }
    Ok((list, rest))
}

#[tactic(auto, unfolding(gv_bytes::specs::Reading::items_at))]
fn edit_list(alloc: Global, bytes: &[u8]) -> Result<(Row<Edit>, &[u8]), Unread>
    ensures { Gives (λ x. (x.0, x.1.now)) result (items_at edit_at bytes.now) }
{
    let (count, rest) = read_natural(bytes, u64::MAX)?;
    let (list, rest) = edits_from(alloc, count, rest)?;
    Ok((Row::new(list), rest))
}

#[tactic(auto, unfolding(crate::specs::Findings::edits_at))]
fn edits_of(alloc: Global, bytes: &[u8]) -> Result<(Option<Row<Edit>>, &[u8]), Unread>
    ensures { Gives (λ x. (x.0, x.1.now)) result (edits_at bytes.now) }
{
    let (some, rest) = read_natural(bytes, 1)?;
    if some == 0 {
        return Ok((None, rest));
    }
    let (list, rest) = edit_list(alloc, rest)?;
    Ok((Some(list), rest))
}

/// The fix of these edits.
fn fix_of(file: u32, edits: Option<Row<Edit>>) -> Option<Fix>
    ensures { result ≡ fix_in file edits }
{
    match edits {
        None => None,
        Some(edits) => Some(Fix { file, edits }),
    }
}

#[tactic(auto, unfolding(crate::specs::Findings::diagnostic_at))]
fn diagnostic_of(alloc: Global, bytes: &[u8]) -> Result<(Diagnostic, &[u8]), Unread>
    ensures { Gives (λ x. (x.0, x.1.now)) result (diagnostic_at bytes.now) }
{
    let (file, rest) = offset_of(bytes)?;
    let (offset, rest) = offset_of(rest)?;
    let (end, rest) = offset_of(rest)?;
    let (analyzer, rest) = read_natural(rest, 255)?;
    let (text, rest) = text_of(alloc, rest)?;
    let (edits, rest) = edits_of(alloc, rest)?;
    let fix = fix_of(file, edits);
    let place = Place { file, offset };
    let analyzer = analyzer as u8;
    let found = Diagnostic {
        place,
        end,
        analyzer,
        text,
        fix,
    };
    Ok((found, rest))
}

/// That many diagnostics, one after the other.
fn diagnostics_from(
    alloc: Global,
    count: u64,
    bytes: &[u8],
) -> Result<(Vec<Diagnostic>, &[u8]), Unread>
    ensures { Gives (λ x. (x.0.items, x.1.now)) result (each_at diagnostic_at count bytes.now) }
{
    let mut list = Vec::new(alloc);
    let mut rest = bytes;
    for _ in 0..count {
        let (diagnostic, after) = diagnostic_of(alloc, rest)?;
        list.push(diagnostic)?;
        rest = after;
    }
    Ok((list, rest))
}

#[tactic(auto, unfolding(gv_bytes::specs::Reading::items_at))]
fn list_of(alloc: Global, bytes: &[u8]) -> Result<(Vec<Diagnostic>, &[u8]), Unread>
    ensures { Gives (λ x. (x.0.items, x.1.now)) result (items_at diagnostic_at bytes.now) }
{
    let (count, rest) = read_natural(bytes, u64::MAX)?;
    let (list, rest) = diagnostics_from(alloc, count, rest)?;
    Ok((list, rest))
}

#[tactic(auto, unfolding(crate::specs::Findings::findings_in))]
fn whole(alloc: Global, bytes: &[u8]) -> Result<Vec<Diagnostic>, Unread>
    ensures { Gives (λ v. v.items) result (findings_in bytes.now) }
{
    let (list, rest) = list_of(alloc, bytes)?;
    if !rest.is_empty() {
        return Err(Unread::Unspelled);
    }
    Ok(list)
}

/// The diagnostics that the bytes spell, all of the bytes. `None` exactly where they spell no list of diagnostics: a
/// field that is no number or text or is out of its range, a wrong count, or bytes behind the end.
pub fn read_findings(alloc: Global, bytes: &[u8]) -> Result<Option<Vec<Diagnostic>>, NoMemory>
    // What is read is spelled so.
    ensures found { IfOk result (λ o. IfSome o (λ v. AreFindings v.items bytes.now)) }
    // What is spelled so is read.
    ensures only { (ds : List Diagnostic) → AreFindings ds bytes.now → IfOk result (λ o. IsSomeAnd o (λ v. v.items ≡ ds)) }
{
    match whole(alloc, bytes) {
        Ok(list) => Ok(Some(list)),
        Err(Unread::Unspelled) => Ok(None),
        Err(Unread::Memory) => Err(NoMemory),
    }
}
