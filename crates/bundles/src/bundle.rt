//! Bundles: texts in one file, each behind a line `-- NAME --`.
ghost use Rattle.std.specs.Prelude.{◌≡◌, ◌<◌, ◌↔◌, length, IsTrue, IfSome, None};
ghost use Rattle.bundles.specs.Cuts.{StandsAt, IsCut, IsNowhere};

use anyhow::{Result, bail};
use std::alloc::Global;

/// What stands before the name of a section.
const HEADER: &[u8] = b"\n-- ";

/// What stands behind it.
const HEADER_END: &[u8] = b" --\n";

/// A text of a bundle, with its name, and how many bytes of the bundle stand behind it.
#[derive(Clone, Copy, Drop)]
pub struct Section<'a> {
    pub name: &'a [u8],
    pub text: &'a [u8],
    pub behind: usize,
}

/// The bytes begin with the mark.
fn begins_with(bytes: &[u8], mark: &[u8]) -> bool
    ensures { IsTrue result ↔ StandsAt bytes.now mark.now 0 }
{
    if bytes.len() < mark.len() {
        return false;
    }
    &bytes[..mark.len()] == mark
}

/// The text before the first mark, and what stands behind that mark. None where there is no mark.
pub fn cut<'a>(bytes: &'a [u8], mark: &[u8]) -> Option<(&'a [u8], &'a [u8])>
    requires { 0 < length mark.now }
    ensures cut { IfSome result (λ parts. IsCut bytes.now mark.now parts.0.now parts.1.now) }
    ensures shorter { IfSome result (λ parts. length parts.1.now < length bytes.now) }
    ensures nowhere { result ≡ None → IsNowhere bytes.now mark.now }
{
    for at in 0..bytes.len() {
        let here = &bytes[at..];
        if begins_with(here, mark) {
            return Some((&bytes[..at], &here[mark.len()..]));
        }
    }
    None
}

/// The section whose header begins here, behind its `-- `, and which ends before `behind` bytes.
fn read_section(bytes: &[u8], behind: usize) -> Result<Section<'_>> {
    match cut(bytes, HEADER_END) {
        Some((name, text)) => Ok(Section { name, text, behind }),
        None => bail!("a header that doesn't end"),
    }
}

/// The sections of a bundle. What stands before the first header is a note. The line break before a header
/// and the one at the end aren't part of a text.
pub fn sections(alloc: Global, bundle: &[u8]) -> Result<Vec<Section<'_>>> {
    let mut found = Vec::new(alloc);
    let Some((_note, behind)) = cut(bundle, HEADER) else {
        bail!("no sections");
    };
    let mut rest = behind;
    while let Some((text, more)) = cut(rest, HEADER) {
        found.push(read_section(text, more.len())?)?;
        rest = more;
    }
    found.push(read_section(rest.strip_suffix(b"\n").unwrap_or(rest), 0)?)?;
    Ok(found)
}
