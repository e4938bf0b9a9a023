//! The classes of items, and how their bytes go on.
ghost use Rattle.std.specs.Prelude.{◌≡◌, length, ◌==◌, not, ℕ, false};
ghost use Rattle.go_tree.specs.Lexeme.{class_of, class_of_byte, decimal_state, hex_state, opener, start_of, number_step, quoted_step, block_step, raw_step, while_step, step_of, is_word_byte, newline};
ghost use Rattle.go_lexeme.specs.Run.{IsRun, IsLooseRun, IsWordRun};

use crate::byte::{
    is_blank, is_decimal_mark, is_hex_mark, is_letter, is_run_byte, is_sign, is_word_byte,
};
use go_tree::{Class, State};

fn class_of_byte(b: u8) -> Class
    ensures { result ≡ class_of_byte b }
{
    if is_letter(b) || b >= 128 {
        Class::Word
    } else if b.is_ascii_digit() {
        Class::Number
    } else if is_blank(b) {
        Class::Blank
    } else if b == b'\n' {
        Class::LineEnd
    } else if b == b'`' {
        Class::RawText
    } else if b == b'"' {
        Class::QuotedText
    } else if b == b'\'' {
        Class::QuotedRune
    } else {
        Class::Operator
    }
}

/// The class of the item whose first bytes these are.
#[tactic(auto, unfolding(go_tree::specs::Lexeme::class_of))]
pub(crate) fn class_of(first: u8, second: u8) -> Class
    ensures { result ≡ class_of first second }
{
    if first == b'.' {
        if second.is_ascii_digit() {
            Class::Fraction
        } else {
            Class::Operator
        }
    } else if first == b'/' {
        if second == b'/' {
            Class::LineComment
        } else if second == b'*' {
            Class::BlockComment
        } else {
            Class::Operator
        }
    } else {
        class_of_byte(first)
    }
}

/// How many bytes tell the class.
pub(crate) fn opener(class: Class) -> usize
    ensures { result ≡ opener class }
{
    match class {
        Class::Fraction | Class::LineComment | Class::BlockComment => 2,
        _ => 1,
    }
}

#[inline(always)]
fn start_of(class: Class, first: u8) -> State
    ensures { result ≡ start_of class first }
{
    match class {
        Class::Number => if first == b'0' {
            State::Zero
        } else {
            State::Open
        },
        _ => State::Open,
    }
}

fn decimal_state(b: u8) -> State
    ensures { result ≡ decimal_state b }
{
    if is_decimal_mark(b) {
        State::Sign
    } else {
        State::Open
    }
}

fn hex_state(b: u8) -> State
    ensures { result ≡ hex_state b }
{
    if is_hex_mark(b) {
        State::HexSign
    } else {
        State::Hex
    }
}

#[inline(always)]
fn number_step(state: State, b: u8) -> State
    ensures { result ≡ number_step state b }
{
    let goes_on = is_run_byte(b);
    let sign = is_sign(b);
    match state {
        State::Open => if goes_on {
            decimal_state(b)
        } else {
            State::Dead
        },
        State::Zero => if goes_on {
            if b == b'x' || b == b'X' {
                State::Hex
            } else {
                decimal_state(b)
            }
        } else {
            State::Dead
        },
        State::Sign => if goes_on {
            decimal_state(b)
        } else if sign {
            State::Open
        } else {
            State::Dead
        },
        State::Hex => if goes_on { hex_state(b) } else { State::Dead },
        State::HexSign => if goes_on {
            hex_state(b)
        } else if sign {
            State::Hex
        } else {
            State::Dead
        },
        _ => State::Dead,
    }
}

#[inline(always)]
fn quoted_step(quote: u8, state: State, b: u8) -> State
    ensures { result ≡ quoted_step quote state b }
{
    match state {
        State::Open => {
            if b == quote {
                State::Shut
            } else if b == b'\\' {
                State::Taken
            } else if b == b'\n' {
                State::Dead
            } else {
                State::Open
            }
        }
        State::Taken => if b == b'\n' { State::Dead } else { State::Open },
        _ => State::Dead,
    }
}

#[inline(always)]
fn block_step(state: State, b: u8) -> State
    ensures { result ≡ block_step state b }
{
    match state {
        State::Open => if b == b'*' { State::Taken } else { State::Open },
        State::Taken => {
            if b == b'/' {
                State::Shut
            } else if b == b'*' {
                State::Taken
            } else {
                State::Open
            }
        }
        _ => State::Dead,
    }
}

#[inline(always)]
fn raw_step(state: State, b: u8) -> State
    ensures { result ≡ raw_step state b }
{
    match state {
        State::Open => if b == b'`' { State::Shut } else { State::Open },
        _ => State::Dead,
    }
}

#[inline(always)]
fn line_step(state: State, b: u8) -> State
    ensures { result ≡ while_step (λ c. not (c == newline)) state b }
{
    match state {
        State::Open => if b != b'\n' { State::Open } else { State::Dead },
        _ => State::Dead,
    }
}

#[inline(always)]
fn word_step(state: State, b: u8) -> State
    ensures { result ≡ while_step is_word_byte state b }
{
    match state {
        State::Open => if is_word_byte(b) {
            State::Open
        } else {
            State::Dead
        },
        _ => State::Dead,
    }
}

#[inline(always)]
fn no_step(state: State) -> State
    ensures { (b : ℕ) → result ≡ while_step (λ c. false) state b }
{
    match state {
        _ => State::Dead,
    }
}

#[inline(always)]
#[tactic(auto, unfolding(go_tree::specs::Lexeme::step_of))]
fn step_of(class: Class, state: State, b: u8) -> State
    ensures { result ≡ step_of class state b }
{
    match class {
        Class::Word => word_step(state, b),
        Class::Number | Class::Fraction => number_step(state, b),
        Class::LineComment => line_step(state, b),
        Class::BlockComment => block_step(state, b),
        Class::RawText => raw_step(state, b),
        Class::QuotedText => quoted_step(b'"', state, b),
        Class::QuotedRune => quoted_step(b'\'', state, b),
        Class::Blank | Class::LineEnd | Class::Operator => no_step(state),
    }
}

/// How many of the bytes behind the opener go on, and the state behind them: a loop of its own for each class.
pub(crate) fn run(class: Class, first: u8, tail: &[u8]) -> (usize, State)
    ensures { IsRun class first tail.now result.0 result.1 }
{
    match class {
        Class::Word => run_class(Class::Word, first, tail),
        Class::Number => run_class(Class::Number, first, tail),
        Class::Fraction => run_class(Class::Fraction, first, tail),
        Class::LineComment => run_class(Class::LineComment, first, tail),
        Class::BlockComment => run_class(Class::BlockComment, first, tail),
        Class::Blank => run_class(Class::Blank, first, tail),
        Class::LineEnd => run_class(Class::LineEnd, first, tail),
        Class::RawText => run_class(Class::RawText, first, tail),
        Class::QuotedText => run_class(Class::QuotedText, first, tail),
        Class::QuotedRune => run_class(Class::QuotedRune, first, tail),
        Class::Operator => run_class(Class::Operator, first, tail),
    }
}

#[inline(always)]
fn run_class(class: Class, first: u8, tail: &[u8]) -> (usize, State)
    ensures { IsRun class first tail.now result.0 result.1 }
{
    let mut state = start_of(class, first);
    for (n, b) in tail.iter().enumerate() {
        let next = step_of(class, state, *b);
        if next == State::Dead {
            return (n, state);
        }
        state = next;
    }
    (tail.len(), state)
}

/// How many bytes of ASCII letters and digits stand at the front.
pub(crate) fn word_run(bytes: &[u8]) -> usize
    ensures { IsWordRun bytes.now result }
{
    for n in 0..bytes.len() {
        if !is_word_byte(bytes[n]) {
            return n;
        }
    }
    bytes.len()
}

/// How many bytes of ASCII letters, digits and other characters stand at the front.
pub(crate) fn loose_run(bytes: &[u8]) -> usize
    ensures { IsLooseRun bytes.now result }
{
    for (n, b) in bytes.iter().enumerate() {
        if *b < 128 && !is_word_byte(*b) {
            return n;
        }
    }
    bytes.len()
}
