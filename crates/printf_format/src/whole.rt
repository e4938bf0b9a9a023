//! All directives of a text before its end or its first fault.
ghost use Rattle.std.specs.Prelude.{◌≤◌, IfOk, length};
ghost use Rattle.printf_format.specs.Whole.{IsRead};

use crate::argument::{directive_of, next_of};
use crate::format::Directive;
use crate::parts::Turn;
use crate::turn::turn_at;
use gv_base::{NoMemory, Row};
use std::alloc::Global;

/// What ends the directives of a text.
#[derive(Clone, Copy, Drop)]
pub enum Ending {
    /// The text does.
    Over,
    /// The verb of the directive that starts at `at` is due where the text ends.
    NoVerb { at: u32 },
    /// The `[` at `at` stands where an index may stand, and begins none.
    BadIndex { at: u32 },
}

/// The directives of a text in their order, and what ends them.
#[derive(Drop)]
pub struct FormatRead {
    pub directives: Row<Directive>,
    pub ending: Ending,
}

/// The directives of a text of at most 65,536 bytes, up to its end or its first fault. A text has one such answer.
pub fn read_format(alloc: Global, text: &[u8]) -> Result<FormatRead, NoMemory>
    requires { length text.now ≤ 65536 }
    ensures { IfOk result (IsRead text.now) }
{
    let mut list = Vec::new(alloc);
    let mut at = 0;
    let mut next = 1;
    loop {
        match turn_at(text, at) {
            Turn::End => {
                return Ok(FormatRead {
                    directives: Row::new(list),
                    ending: Ending::Over,
                });
            }
            Turn::NoVerb { at } => {
                return Ok(FormatRead {
                    directives: Row::new(list),
                    ending: Ending::NoVerb { at: at as u32 },
                });
            }
            Turn::BadIndex { at } => {
                return Ok(FormatRead {
                    directives: Row::new(list),
                    ending: Ending::BadIndex { at: at as u32 },
                });
            }
            Turn::Whole { start, parts } => {
                let directive = directive_of(alloc, next, start, &parts)?;
                list.push(directive)?;
                next = next_of(next, &parts);
                at = parts.end;
            }
        }
    }
}
