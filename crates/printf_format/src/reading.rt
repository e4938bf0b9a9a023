//! The directives of a whole format.
ghost use Rattle.std.specs.Prelude.{◌≡◌, ◌≤◌, IfOk, length};
ghost use Rattle.printf_format.specs.declared.format.Format.{Format};
ghost use Rattle.printf_format.specs.Formats.{IsFormat};

use crate::argument::{directive_of, next_of};
use crate::format::Format;
use crate::parts::Turn;
use crate::turn::turn_at;
use gv_base::{NoMemory, Row};
use std::alloc::Global;

/// The directives of a format of at most 65,536 bytes, or its first fault. Where a verb is missing,
/// `&text[..at]` lists the directives before it. Where an index is bad, `&text[..at]` ends within the
/// directive that has it, and so tells by `NoVerb` where that one starts.
pub fn directives(alloc: Global, text: &[u8]) -> Result<Format, NoMemory>
    requires { length text.now ≤ 65536 }
    ensures format { IfOk result (λ format. IsFormat text.now format) }
    ensures only { IfOk result (λ format. (other : Format) → IsFormat text.now other → other ≡ format) }
{
    let mut list = Vec::new(alloc);
    let mut at = 0;
    let mut next = 1;
    loop {
        match turn_at(text, at) {
            Turn::End => return Ok(Format::List(Row::new(list))),
            Turn::NoVerb { at } => return Ok(Format::NoVerb { at: at as u32 }),
            Turn::BadIndex { at } => return Ok(Format::BadIndex { at: at as u32 }),
            Turn::Whole { start, parts } => {
                let directive = directive_of(alloc, next, start, &parts)?;
                list.push(directive)?;
                next = next_of(next, &parts);
                at = parts.end;
            }
        }
    }
}
