//! Bytes of a format, and runs of them.
ghost use Rattle.std.specs.Prelude.{◌≡◌, ◌≤◌, length, slice_index};
ghost use Rattle.printf_format.specs.Bytes.{is_flag, is_digit, is_other, run_end};

/// The byte at the offset, 0 past the end.
pub(crate) fn byte_at(text: &[u8], at: usize) -> u8
    ensures { result ≡ slice_index text.now at }
{
    if at < text.len() { text[at] } else { 0 }
}

fn is_flag(byte: u8) -> bool
    ensures { result ≡ is_flag byte }
{
    byte == b'+' || byte == b'-' || byte == b'#' || byte == b'0' || byte == b' '
}

fn is_digit(byte: u8) -> bool
    ensures { result ≡ is_digit byte }
{
    b'0' <= byte && byte <= b'9'
}

/// Where the flags from the offset on end.
pub(crate) fn flags_end(text: &[u8], at: usize) -> usize
    requires { at ≤ length text.now }
    ensures end { result ≡ run_end is_flag text.now at }
    ensures after { at ≤ result }
    ensures within { result ≤ length text.now }
{
    let mut end = at;
    while end < text.len() && is_flag(text[end]) {
        end += 1;
    }
    end
}

/// Where the digits from the offset on end.
pub(crate) fn digits_end(text: &[u8], at: usize) -> usize
    requires { at ≤ length text.now }
    ensures end { result ≡ run_end is_digit text.now at }
    ensures after { at ≤ result }
    ensures within { result ≤ length text.now }
{
    let mut end = at;
    while end < text.len() && is_digit(text[end]) {
        end += 1;
    }
    end
}

/// Where the first `%` from the offset on stands, or the end.
pub(crate) fn percent_from(text: &[u8], at: usize) -> usize
    requires { at ≤ length text.now }
    ensures end { result ≡ run_end is_other text.now at }
    ensures after { at ≤ result }
    ensures within { result ≤ length text.now }
{
    let mut end = at;
    while end < text.len() && text[end] != b'%' {
        end += 1;
    }
    end
}
