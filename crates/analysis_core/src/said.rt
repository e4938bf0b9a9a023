//! What a reply says, as JSON has it.
ghost use Rattle.std.specs.Prelude.{◌≡◌};
ghost use Rattle.analysis_core.specs.JsonReplies.{key_text};

use crate::reply::analyzer_text;
use gv_base::{Bytes, Place, Text};

/// Something that is said of a package: an error line, or a diagnostic.
#[derive(Drop)]
pub struct Said {
    /// The package's path.
    pub package: Text,
    /// 0 for an error line, else the analyzer's number.
    pub key: u8,
    /// Its place in the order of the reply.
    pub number: usize,
    /// Where it points, if it points somewhere.
    pub place: Option<Place>,
    /// What it says.
    pub text: Bytes,
}

/// The key under which it stands.
pub fn key_text(key: u8) -> &'static str
    ensures { result.now ≡ key_text key }
{
    if key == 0 {
        return "types";
    }
    analyzer_text(key)
}
