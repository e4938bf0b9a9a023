//! Numbers in words: decimal, without a sign or a zero in front.
ghost use Rattle.std.specs.Prelude.{◌≡◌, ◌≢◌, ◌≤◌, ◌↔◌, ◌⊎◌, false, [], IsTrue, slice_index};
ghost use Rattle.words.specs.Numbers.{numeral, IsNumeralOf};

/// Whether a text begins as no number from 1 on does.
fn is_odd(text: &str) -> bool
    ensures plain { result ≡ false → (slice_index text.now 0 ≢ 43) × (slice_index text.now 0 ≢ 48) }
    ensures odd { IsTrue result → (slice_index text.now 0 ≡ 43) ⊎ (slice_index text.now 0 ≡ 48) ⊎ (text.now ≡ []) }
{
    let bytes = text.as_bytes();
    bytes.is_empty() || bytes[0] == b'+' || bytes[0] == b'0'
}

fn is_within(number: u32, most: u32) -> bool
    ensures { IsTrue result ↔ ((1 ≤ number) × (number ≤ most)) }
{
    number >= 1 && number <= most
}

/// The number from 1 to `most` that a text is.
fn number_in(text: &str, most: u32) -> Option<u32>
    ensures { IsNumeralOf most text.now result }
{
    if is_odd(text) {
        return None;
    }
    match text.parse::<u32>() {
        Ok(number) => {
            if is_within(number, most) {
                Some(number)
            } else {
                None
            }
        }
        Err(_) => None,
    }
}

/// The number from 1 to `most` that a text is.
pub(crate) fn numeral(text: &str, most: u32) -> Option<u32>
    ensures { result ≡ numeral most text.now }
{
    number_in(text, most)
}
