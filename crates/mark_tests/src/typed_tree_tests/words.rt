//! What the words of a row mean.
use gv_base::{Const, Kind};
use std::process::Abort;
use type_model::TypeId;
use typed_tree::{Limit, Mark, Mode, basic};

#[rattlefmt::skip]
const KINDS: [(&str, Kind); 18] = [
    ("bool", Kind::Bool), ("int", Kind::Int), ("int8", Kind::Int8), ("int16", Kind::Int16),
    ("int32", Kind::Int32), ("int64", Kind::Int64), ("uint", Kind::Uint), ("uint8", Kind::Uint8),
    ("uint16", Kind::Uint16), ("uint32", Kind::Uint32), ("uint64", Kind::Uint64),
    ("uintptr", Kind::Uintptr), ("string", Kind::Text), ("untyped-bool", Kind::UntypedBool),
    ("untyped-int", Kind::UntypedInt), ("untyped-rune", Kind::UntypedRune),
    ("untyped-string", Kind::UntypedText), ("untyped-nil", Kind::UntypedNil),
];

pub fn kind(rt: &impl Abort, name: &str) -> Kind {
    for (of, kind) in KINDS.iter() {
        if *of == name {
            return *kind;
        }
    }
    panic!(rt; "no kind {name}")
}

fn is_value(c: &Const, wanted: &str) -> bool {
    match c {
        Const::Truth(true) => wanted == "true",
        Const::Truth(false) => wanted == "false",
        Const::Int(n) => match wanted.parse::<i128>() {
            Ok(m) => m == *n,
            Err(_) => false,
        },
        Const::Text(text) => text.bytes() == wanted.as_bytes(),
    }
}

fn is_constant(rt: &impl Abort, of: TypeId, value: &Option<Const>, wanted: &str) -> bool {
    match wanted.split_once(":") {
        Some((name, text)) => match value {
            Some(c) => basic(kind(rt, name)).0 == of.0 && is_value(c, text),
            None => false,
        },
        None => false,
    }
}

fn is_limit(limit: Limit, wanted: &str) -> bool {
    match limit {
        Limit::Float => wanted == "float",
        Limit::Complex => wanted == "complex",
        Limit::Wide => wanted == "wide",
        Limit::LongText => wanted == "long",
        _ => false,
    }
}

pub fn says(rt: &impl Abort, m: &Mark, wanted: &str) -> bool {
    match m {
        Mark::Bad(rule) => match wanted.strip_prefix("E") {
            Some(number) => match number.parse::<u8>() {
                Ok(n) => n == rule.0,
                Err(_) => false,
            },
            None => false,
        },
        Mark::Outside(limit) => is_limit(*limit, wanted),
        Mark::Silent => wanted == "silent",
        Mark::Good(facts) => match facts.mode {
            Mode::Constant => is_constant(rt, facts.of, &facts.value, wanted),
            Mode::Nil => wanted == "nil",
            Mode::Builtin => wanted == "builtin",
            _ => false,
        },
    }
}
