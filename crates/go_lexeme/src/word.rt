//! Words, of ASCII and other letters.
ghost use Rattle.std.specs.Prelude.{◌≡◌, ◌<◌, ◌≤◌, ℕ, length, take};
ghost use Rattle.std.specs.Str.{chars};
ghost use Rattle.ucd_category.specs.GeneralCategory.{general_category};
ghost use Rattle.go_lexeme.specs.Run.{IsLooseText};
ghost use Rattle.go_tree.specs.Word.{is_letter_category, is_digit_category, is_letter_char, is_word_char, is_word, word_bytes, begins_with_letter, IsWordSize};

use crate::byte::{byte_at, is_letter, is_word_byte};
use crate::class::{loose_run, word_run};
use unicode::properties::GeneralCategory;

fn is_letter_category(category: GeneralCategory) -> bool
    ensures { result ≡ is_letter_category category }
{
    match category {
        GeneralCategory::UppercaseLetter
        | GeneralCategory::LowercaseLetter
        | GeneralCategory::TitlecaseLetter
        | GeneralCategory::ModifierLetter
        | GeneralCategory::OtherLetter => true,
        _ => false,
    }
}

fn is_digit_category(category: GeneralCategory) -> bool
    ensures { result ≡ is_digit_category category }
{
    match category {
        GeneralCategory::DecimalNumber => true,
        _ => false,
    }
}

pub(crate) fn is_letter_char(c: char) -> bool
    ensures { result ≡ is_letter_char c }
{
    c == '_' || is_letter_category(GeneralCategory::for_char(c))
}

pub(crate) fn is_word_char(c: char) -> bool
    ensures { result ≡ is_word_char c }
{
    let code = c as u32;
    if code < 128 {
        is_word_byte(code as u8)
    } else {
        is_other_word_char(c)
    }
}

fn is_other_word_char(c: char) -> bool
    ensures { result ≡ is_word_char c }
{
    is_letter_char(c) || is_digit_category(GeneralCategory::for_char(c))
}

/// How many bytes of letters and digits stand at the front.
fn word_bytes(text: &str) -> usize
    ensures { result ≡ word_bytes (chars text.now) }
{
    let mut size = 0;
    for c in text.chars() {
        if !is_word_char(c) {
            return size;
        }
        size += c.len_utf8();
    }
    size
}

/// Whether the text begins with a letter.
fn begins_with_letter(text: &str) -> bool
    ensures { result ≡ begins_with_letter (chars text.now) }
{
    match text.chars().next() {
        Some(c) => is_letter_char(c),
        None => false,
    }
}

/// The text at the front that a word can't go beyond.
fn loose_text(rest: &[u8]) -> &str
    ensures { IsLooseText rest.now result.now }
{
    let front = &rest[..loose_run(rest)];
    match str::from_utf8(front) {
        Ok(text) => text,
        Err(error) => unsafe { str::from_utf8_unchecked(&front[..error.valid_up_to()]) },
    }
}

/// The size of the longest word that begins the bytes, or 0. Where an ASCII byte ends it, no character is decoded.
pub(crate) fn word_size(rest: &[u8]) -> usize
    ensures { IsWordSize rest.now result }
{
    let size = word_run(rest);
    if byte_at(rest, size) >= 128 {
        text_word_size(loose_text(rest))
    } else if is_letter(byte_at(rest, 0)) {
        size
    } else {
        0
    }
}

/// The size of the longest word that begins the text, or 0.
fn text_word_size(text: &str) -> usize
    ensures { IsWordSize text.now result }
{
    if begins_with_letter(text) {
        word_bytes(text)
    } else {
        0
    }
}
