//! The built-in functions, a line each (Go 1.17, "Built-in functions").
ghost use Rattle.std.specs.Prelude.{◌≡◌, slice_get, option_and_then};
ghost use Rattle.builtin_rules.specs.Builtins.{builtin_of, line_of, taken_at, may_spread, is_at_most, takes_as_many};

/// A built-in function of the profile.
#[derive(Clone, Copy, Drop)]
pub enum Builtin {
    Append,
    Cap,
    Close,
    Copy,
    Delete,
    Len,
    Make,
    New,
    Panic,
    Print,
    Println,
    Recover,
}

/// What the place of an argument wants.
#[derive(Clone, Copy, Drop)]
pub enum Taking {
    /// A single value, which takes its default type.
    Value,
    /// A single value of any type, also nil.
    Any,
    /// A type.
    Type,
    /// A size.
    Size,
    /// A value that is assigned to the element type of the slice that is the first argument.
    Element,
    /// A value that is assigned to the key type of the map that is the first argument.
    Key,
}

/// What the arguments must be.
#[derive(Clone, Copy, Drop)]
pub enum Must {
    /// Anything.
    Anything,
    /// The first is good.
    Good,
    /// The first is a slice.
    Slice,
    /// The first is a map.
    Map,
    /// The first is a channel that isn't receive-only.
    Sender,
    /// The first has a length.
    Measured,
    /// The first has a capacity.
    Capacious,
    /// The first is a slice, and the second one of identical elements, or a string where these are bytes.
    Pair,
    /// The first is a slice, a map or a channel, and the others are its sizes.
    Made,
}

/// What is given.
#[derive(Clone, Copy, Drop)]
pub enum Gives {
    /// No value.
    Nothing,
    /// A value of the type that the first argument has, or is.
    Same,
    /// A pointer to the type that the first argument is.
    Pointer,
    /// An `int`.
    Int,
    /// A length or a capacity.
    Count,
    /// A value of the empty interface.
    Any,
}

/// A built-in function: how many arguments it takes, at least and at most; whether the last may have `...` behind it; what the places of the first
/// argument and of the others want; what the arguments must be; and what it gives.
#[derive(Clone, Copy, Drop)]
pub struct Line {
    pub least: usize,
    pub most: Option<usize>,
    pub spread: bool,
    pub first: Taking,
    pub others: Taking,
    pub must: Must,
    pub gives: Gives,
}

/// The predeclared names that are built-in functions, in byte order of all.
const BUILTINS: [Option<Builtin>; 30] = [
    Some(Builtin::Append),
    None,
    None,
    Some(Builtin::Cap),
    Some(Builtin::Close),
    None,
    None,
    None,
    Some(Builtin::Copy),
    Some(Builtin::Delete),
    None,
    None,
    None,
    None,
    None,
    None,
    None,
    None,
    None,
    None,
    None,
    Some(Builtin::Len),
    Some(Builtin::Make),
    Some(Builtin::New),
    None,
    Some(Builtin::Panic),
    Some(Builtin::Print),
    Some(Builtin::Println),
    None,
    Some(Builtin::Recover),
];

fn cell_at(table: &[Option<Builtin>], i: usize) -> Option<Builtin>
    ensures { result ≡ option_and_then (λ o. o) (slice_get table.now i) }
{
    match table.get(i) {
        Some(cell) => *cell,
        None => None,
    }
}

/// The built-in function that the predeclared name of this number is.
#[tactic(auto, unfolding(crate::specs::Builtins::builtin_of))]
pub fn builtin_of(i: u8) -> Option<Builtin>
    ensures { result ≡ builtin_of i }
{
    cell_at(&BUILTINS, i as usize)
}

/// The line of a built-in function.
#[rattlefmt::skip]
#[tactic(auto, unfolding(crate::specs::Builtins::line_of))]
pub fn line_of(b: Builtin) -> Line
    ensures { result ≡ line_of b }
{
    match b {
        Builtin::Append => Line { least: 1, most: None, spread: true, first: Taking::Value, others: Taking::Element, must: Must::Slice, gives: Gives::Same },
        Builtin::Copy => Line { least: 2, most: Some(2), spread: false, first: Taking::Value, others: Taking::Value, must: Must::Pair, gives: Gives::Int },
        Builtin::Len => Line { least: 1, most: Some(1), spread: false, first: Taking::Value, others: Taking::Value, must: Must::Measured, gives: Gives::Count },
        Builtin::Cap => Line { least: 1, most: Some(1), spread: false, first: Taking::Value, others: Taking::Value, must: Must::Capacious, gives: Gives::Count },
        Builtin::Close => Line { least: 1, most: Some(1), spread: false, first: Taking::Value, others: Taking::Value, must: Must::Sender, gives: Gives::Nothing },
        Builtin::Delete => Line { least: 2, most: Some(2), spread: false, first: Taking::Value, others: Taking::Key, must: Must::Map, gives: Gives::Nothing },
        Builtin::Make => Line { least: 1, most: Some(3), spread: false, first: Taking::Type, others: Taking::Size, must: Must::Made, gives: Gives::Same },
        Builtin::New => Line { least: 1, most: Some(1), spread: false, first: Taking::Type, others: Taking::Value, must: Must::Good, gives: Gives::Pointer },
        Builtin::Panic => Line { least: 1, most: Some(1), spread: false, first: Taking::Any, others: Taking::Any, must: Must::Anything, gives: Gives::Nothing },
        Builtin::Recover => Line { least: 0, most: Some(0), spread: false, first: Taking::Value, others: Taking::Value, must: Must::Anything, gives: Gives::Any },
        Builtin::Print => Line { least: 0, most: None, spread: false, first: Taking::Value, others: Taking::Value, must: Must::Anything, gives: Gives::Nothing },
        Builtin::Println => Line { least: 0, most: None, spread: false, first: Taking::Value, others: Taking::Value, must: Must::Anything, gives: Gives::Nothing },
    }
}

/// What the place of an argument wants.
pub fn taken_at(l: Line, slot: usize) -> Taking
    ensures { result ≡ taken_at l slot }
{
    if slot == 1 { l.first } else { l.others }
}

/// Whether the last argument may be as it is, with `...` behind it or without.
pub fn may_spread(l: Line, spread: bool) -> bool
    ensures { result ≡ may_spread l spread }
{
    if spread { l.spread } else { true }
}

fn is_at_most(n: usize, most: Option<usize>) -> bool
    ensures { result ≡ is_at_most n most }
{
    match most {
        Some(most) => n <= most,
        None => true,
    }
}

/// Whether a built-in function takes as many arguments.
#[tactic(auto, unfolding(crate::specs::Builtins::takes_as_many))]
pub fn takes_as_many(l: Line, spread: bool, n: usize) -> bool
    ensures { result ≡ takes_as_many l spread n }
{
    if spread {
        n == 2
    } else {
        l.least <= n && is_at_most(n, l.most)
    }
}
