//! Rows of literals and names and what they give: a constant `KIND:VALUE`, a limit, `nil`, `builtin` or `silent`.

/// Integers as they are written.
#[rattlefmt::skip]
pub const INTEGERS: [(&[u8], &str); 6] = [
    (b"0x_1F", "untyped-int:31"), (b"0b101", "untyped-int:5"), (b"017", "untyped-int:15"), (b"1_000", "untyped-int:1000"),
    (b"170141183460469231731687303715884105727", "untyped-int:170141183460469231731687303715884105727"),
    (b"170141183460469231731687303715884105728", "wide"),
];

/// Texts as they are written.
#[rattlefmt::skip]
pub const TEXTS: [(&[u8], &str); 2] = [(b"\"a\\x62\"", "untyped-string:ab"), (b"`a\\x`", "untyped-string:a\\x")];

/// Predeclared names by their numbers, where `iota` is 5.
#[rattlefmt::skip]
pub const PREDECLARED: [(u8, &str); 8] = [
    (20, "untyped-int:5"), (32, "untyped-bool:true"), (11, "untyped-bool:false"), (24, "nil"), (0, "builtin"), (12, "float"),
    (6, "complex"), (39, "silent"),
];

/// Predeclared types by the numbers of their names.
#[rattlefmt::skip]
pub const TYPES: [(u8, &str); 5] = [(1, "bool"), (2, "uint8"), (30, "int32"), (31, "string"), (38, "uintptr")];

/// Rules and their texts; the last two numbers are no rule's.
#[rattlefmt::skip]
pub const RULES: [(u8, &[u8]); 5] = [
    (1, b"E1 redeclared"), (52, b"E52 bad ..."), (99, b"E99 wrong number of values"), (18, b""), (200, b""),
];
