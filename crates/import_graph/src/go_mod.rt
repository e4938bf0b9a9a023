//! The module path of a tree.
ghost use Rattle.std.specs.Prelude.{◌≡◌, ◌≤◌, ◌<◌, ◌&&◌, ◌||◌, length, take, drop, codes, nat_eq, bytes_eq, IfOk, option_map, get_or, nat_le, ◌-◌, ◌==◌};
ghost use Rattle.std.specs.List.{starts_with};
ghost use Rattle.std.specs.Str.{is_utf8};
ghost use Rattle.import_graph.specs.Modules.{leads, lines_of, stops, until, first_word, second_word, unquoted, is_path, is_module_line, module_line, path_in, path_named, module_in, module_path};

use go_tree::{are_segments, behind_blanks};
use gv_base::{Files, NoMemory};
use std::alloc::Global;

/// What a piece of a text ends at.
#[derive(Clone, Copy, Debug, PartialEq, Eq, Drop)]
pub enum Stop {
    /// A newline.
    Line,
    /// A space or a tab.
    Word,
    /// `//`.
    Comment,
}

fn leads(byte: u8, rest: &[u8]) -> bool
    ensures { result ≡ leads byte rest.now }
{
    match rest {
        [first, ..] => *first == byte,
        [] => false,
    }
}

fn ends_word(rest: &[u8]) -> bool
    ensures { result ≡ (leads 32 rest.now || leads 9 rest.now) }
{
    leads(b' ', rest) || leads(b'\t', rest)
}

fn begins_comment(rest: &[u8]) -> bool
    ensures { result ≡ starts_with nat_eq rest.now (codes "//") }
{
    rest.starts_with(b"//")
}

/// Whether the piece ends here.
fn stops(stop: Stop, rest: &[u8]) -> bool
    ensures { result ≡ stops stop rest.now }
{
    match stop {
        Stop::Line => leads(b'\n', rest),
        Stop::Word => ends_word(rest),
        Stop::Comment => begins_comment(rest),
    }
}

/// The bytes up to where the piece ends.
fn until(stop: Stop, bytes: &[u8]) -> &[u8]
    ensures { result.now ≡ until stop bytes.now }
{
    let mut at = 0;
    while at < bytes.len() {
        if stops(stop, behind(bytes, at)) {
            return &bytes[..at];
        }
        at += 1;
    }
    bytes
}

fn first_word(text: &[u8]) -> &[u8]
    ensures { result.now ≡ first_word text.now }
{
    until(Stop::Word, behind_blanks(text))
}

fn behind(bytes: &[u8], at: usize) -> &[u8]
    ensures { result.now ≡ drop at bytes.now }
{
    if at < bytes.len() {
        &bytes[at..]
    } else {
        &bytes[..0]
    }
}

fn second_word(text: &[u8]) -> &[u8]
    ensures { result.now ≡ second_word text.now }
{
    let len = first_word(text).len();
    first_word(behind(behind_blanks(text), len))
}

fn is_quoted(word: &[u8]) -> bool
    ensures { result ≡ (nat_le 2 (length word.now) && (get_or word.now 0 0 == 34 && get_or word.now (length word.now - 1) 0 == 34)) }
{
    if word.len() < 2 {
        return false;
    }
    word[0] == b'"' && word[word.len() - 1] == b'"'
}

fn unquoted(word: &[u8]) -> &[u8]
    ensures { result.now ≡ unquoted word.now }
{
    if is_quoted(word) {
        let end = word.len() - 1;
        &word[1..end]
    } else {
        word
    }
}

/// Whether the bytes are a path.
fn is_path(word: &[u8]) -> bool
    ensures { result ≡ is_path word.now }
{
    are_segments(word) && word.len() <= 1024
}

fn is_utf8(bytes: &[u8]) -> bool
    ensures { result ≡ is_utf8 bytes.now }
{
    match str::from_utf8(bytes) {
        Ok(_) => true,
        Err(_) => false,
    }
}

fn is_module_line(line: &[u8]) -> bool
    ensures { result ≡ is_module_line line.now }
{
    first_word(until(Stop::Comment, line)) == b"module".as_slice()
}

/// The first line whose first word is `module`.
fn module_line(bytes: &[u8]) -> Option<&[u8]>
    ensures { option_map (λ line. line.now) result ≡ module_line (lines_of bytes.now) }
{
    let mut rest = bytes;
    'lines: loop {
        let line = until(Stop::Line, rest);
        if is_module_line(line) {
            return Some(line);
        }
        if line.len() == rest.len() {
            return None;
        }
        rest = behind(rest, line.len() + 1);
    }
}

fn is_named(line: &[u8], path: &[u8]) -> bool
    ensures { result ≡ (is_utf8 line.now && is_path path.now) }
{
    is_utf8(line) && is_path(path)
}

/// The path that a line names.
fn path_in(line: &[u8]) -> &str
    ensures { result.now ≡ path_in line.now }
{
    let path = unquoted(second_word(until(Stop::Comment, line)));
    if !is_named(line, path) {
        return "m";
    }
    match str::from_utf8(path) {
        Ok(path) => path,
        Err(_) => unreachable!(),
    }
}

fn path_named(line: Option<&[u8]>) -> &str
    ensures { result.now ≡ path_named (option_map (λ line. line.now) line.entry) }
{
    match line {
        Some(line) => path_in(line),
        None => "m",
    }
}

/// The module path of a tree.
pub fn module_path<'a>(files: &'a Files) -> &'a str
    ensures { result.now ≡ module_path files.now }
{
    match files.get("go.mod") {
        Some(bytes) => path_named(module_line(bytes)),
        None => "m",
    }
}
