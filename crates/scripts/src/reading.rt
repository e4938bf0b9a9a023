//! A script is read in one way, to its end.
ghost use Rattle.std.specs.Prelude.{◌≡◌, ◌≤◌, ℕ, [], List, Some, length, take};
ghost use Rattle.scripts.specs.Reading.{HasReading, IsHalt, IsReadTo, Read, ReadsOn, SameReading, limit, spell};
ghost use Rattle.scripts.specs.Script.{Command as Commands};
ghost use Rattle.scripts.specs.declared.halt.Halt.{Halt as Halts};

use crate::fieldset::rest_from;
use crate::script::{Next, next_command};

/// The most bytes of a script.
pub const LIMIT: usize = 1 << 28;

/// The first bytes, at most so many.
fn first_bytes(bytes: &[u8], most: usize) -> &[u8]
    ensures { result.now ≡ take most bytes.now }
{
    if most < bytes.len() {
        &bytes[..most]
    } else {
        bytes
    }
}

/// Reads one more command of a script.
fn read_on(script: &[u8], at: usize) -> Option<usize>
    requires { IsReadTo script.now at }
    ensures { ReadsOn script.now at result }
{
    let rest = rest_from(script, at);
    let room = LIMIT - at;
    let first = first_bytes(rest, room);
    match next_command(first) {
        Next::Whole(command, len) => {
            if command.is_end() {
                None
            } else {
                Some(at + len)
            }
        }
        Next::NeedMore => None,
        Next::Refused => None,
    }
}

/// Each script is read to its end: commands that are answered stand at its front, and there is a reason why reading
/// stops behind them. The reading takes no memory, and so always comes to its end.
pub fn each_script_is_read_to_its_end(script: &[u8])
    ensures { HasReading script.now }
{
    let mut at = 0;
    'script: loop {
        match read_on(script, at) {
            Some(next) => at = next,
            None => return,
        }
    }
}

/// A script has one reading, and reading stops for one reason.
pub fn one_reading_of_a_script()
    ensures { (script : List ℕ) (cs ds : List Commands) (x y : List ℕ) (h k : Halts) → Read script cs x → IsHalt h (length (spell cs)) x (Some []) → Read script ds y → IsHalt k (length (spell ds)) y (Some []) → SameReading cs ds x y h k }
{}
