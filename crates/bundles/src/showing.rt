//! Bytes as a line shows them.

/// The bytes as text, or `?` where they aren't UTF-8.
pub fn shown(bytes: &[u8]) -> &str {
    match std::str::from_utf8(bytes) {
        Ok(text) => text,
        Err(_) => "?",
    }
}
