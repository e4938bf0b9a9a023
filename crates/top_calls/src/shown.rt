//! What `show` tells.
ghost use Rattle.std.specs.Prelude.{◌≡◌, IfOk};
ghost use Rattle.top_calls.specs.Deeds.{held_text, no_file_text, show_text};

use gv_base::{Bytes, Files, NoMemory};
use std::alloc::Global;

/// A file that is held: its path, how many bytes it has, and the bytes.
fn held_text(alloc: Global, path: &[u8], bytes: &[u8]) -> Result<Bytes, NoMemory>
    ensures { IfOk result (λ reply. reply ≡ held_text path.now bytes.now) }
{
    let count = bytes.len();
    let digits = format!(in alloc; "{count}")?;
    let mut out = Vec::new(alloc);
    out.extend_from_slice(b"file ")?;
    out.extend_from_slice(path)?;
    out.push(b' ')?;
    out.extend_from_slice(digits.as_bytes())?;
    out.push(b'\n')?;
    out.extend_from_slice(bytes)?;
    out.push(b'\n')?;
    Ok(Bytes::new(out))
}

/// That no file of this path is held.
fn no_file_text(alloc: Global, path: &[u8]) -> Result<Bytes, NoMemory>
    ensures { IfOk result (λ reply. reply ≡ no_file_text path.now) }
{
    let mut out = Vec::new(alloc);
    out.extend_from_slice(b"no file ")?;
    out.extend_from_slice(path)?;
    out.push(b'\n')?;
    Ok(Bytes::new(out))
}

/// The file of a path, or that there is none.
pub(crate) fn show(alloc: Global, files: &Files, path: &str) -> Result<Bytes, NoMemory>
    ensures { IfOk result (λ reply. reply ≡ show_text files.now path.now) }
{
    match files.get(path) {
        Some(bytes) => {
            let reply = held_text(alloc, path.as_bytes(), bytes)?;
            Ok(reply)
        }
        None => {
            let reply = no_file_text(alloc, path.as_bytes())?;
            Ok(reply)
        }
    }
}
