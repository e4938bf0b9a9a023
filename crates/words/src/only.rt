//! Lists of analyzers in words: names with commas between them.
ghost use Rattle.std.specs.Prelude.{◌≡◌, ◌≢◌, ◌≤◌, ◌+◌, ◌<◌, ℕ, length, take, drop, Some, None, MatchOption, slice_index, false};
ghost use Rattle.analysis_core.specs.declared.analyzer_name.AnalyzerName.{AnalyzerName};
ghost use Rattle.analysis_core.specs.AnalyzerNames.{number_of, name_of, analyzer_named};
ghost use Rattle.std.specs.List.{list_any};
ghost use Rattle.words.specs.Lists.{is_comma, set_with, set_named, with_piece};

use analysis_core::AnalyzerName;

/// The analyzer of this number, if it has this name.
fn numbered_so(number: u8, name: &[u8]) -> Option<AnalyzerName>
    ensures { MatchOption result ((a : AnalyzerName) → number_of a ≡ number → name_of a ≢ name.now) (λ a. name_of a ≡ name.now) }
{
    match AnalyzerName::of_number(number) {
        Some(analyzer) => {
            if analyzer.text().as_bytes() == name {
                return Some(analyzer);
            }
            None
        }
        None => None,
    }
}

/// The analyzer of this name.
fn analyzer_of(name: &[u8]) -> Option<AnalyzerName>
    ensures { result ≡ analyzer_named name.now }
{
    for number in 1..11 {
        if let Some(analyzer) = numbered_so(number, name) {
            return Some(analyzer);
        }
    }
    None
}

/// How many bytes stand before the first comma.
fn before_comma(text: &[u8]) -> usize
    ensures within { result ≤ length text.now }
    ensures plain { list_any is_comma (take result text.now) ≡ false }
    ensures stops { result < length text.now → slice_index text.now result ≡ 44 }
{
    let mut count = 0;
    while count < text.len() && text[count] != b',' {
        count += 1;
    }
    count
}

/// A set with the analyzer of a name.
fn with_piece(set: u16, name: &[u8]) -> Option<u16>
    ensures { result ≡ with_piece set name.now }
{
    match analyzer_of(name) {
        Some(analyzer) => Some(set | analyzer.bit()),
        None => None,
    }
}

fn front_of(text: &[u8], count: usize) -> &[u8]
    requires { count ≤ length text.now }
    ensures { result.now ≡ take count text.now }
{
    &text[..count]
}

/// What stands behind the comma at this place.
fn behind_comma(text: &[u8], count: usize) -> &[u8]
    requires { count < length text.now }
    ensures { result.now ≡ drop (count + 1) text.now }
{
    let _len = text.len();
    &text[count + 1..]
}

/// The set that a list of names chooses; None where one of them is no analyzer's.
pub(crate) fn set_named(text: &[u8]) -> Option<u16>
    ensures { result ≡ set_named text.now }
{
    let mut set = 0;
    let mut rest = text;
    'names: loop {
        let count = before_comma(rest);
        match with_piece(set, front_of(rest, count)) {
            Some(more) => set = more,
            None => return None,
        }
        if count == rest.len() {
            return Some(set);
        }
        rest = behind_comma(rest, count);
    }
}
