//! Literals, predeclared names and texts in rows, and each call on its happy path.
mod rows;
mod words;

use gv_base::Const;
use std::alloc::Global;
use std::test::Fail;
use type_model::{Term, TypeId};
use typed_tree::{
    Limit, Mark, Rule, Want, basic, judge_blank, judge_int, judge_predeclared, judge_rune,
    judge_text, universe_table,
};
use words::{kind, says};

#[test]
fn the_predeclared_types_stand_in_a_table(rt: HostRuntime) -> Result<(), Fail> {
    let t = universe_table(rt.alloc())?;
    match t.term(TypeId(18)) {
        Term::Defined(name) => assert_eq!(rt; name.local, 0),
        _ => panic!(rt; "error is no defined type"),
    }
    Ok(())
}

#[test]
fn integers_have_their_values(rt: HostRuntime) -> Result<(), Fail> {
    for (literal, wanted) in rows::INTEGERS {
        assert!(rt; says(&rt, &judge_int(literal), wanted), "{wanted}");
    }
    Ok(())
}

#[test]
fn runes_and_texts_have_their_values(rt: HostRuntime) -> Result<(), Fail> {
    assert!(rt; says(&rt, &judge_rune(b"'\\n'"), "untyped-rune:10"));
    assert!(rt; says(&rt, &judge_rune(b"'\\U0010ffff'"), "untyped-rune:1114111"));
    for (literal, wanted) in rows::TEXTS {
        let m = judge_text(rt.alloc(), literal)?;
        assert!(rt; says(&rt, &m, wanted), "{wanted}");
    }
    Ok(())
}

/// The mark of a raw text of so many bytes.
fn raw_text(alloc: Global, length: usize) -> Result<Mark, Fail> {
    let mut bytes = vec![in alloc; b'a'; length]?;
    bytes.push(b'`')?;
    let mut literal = vec![in alloc; b'`'; 1]?;
    literal.extend_from_slice(&bytes)?;
    let m = judge_text(alloc, &literal)?;
    Ok(m)
}

#[test]
fn a_text_has_at_most_65536_bytes(rt: HostRuntime) -> Result<(), Fail> {
    assert!(rt; says(&rt, &raw_text(rt.alloc(), 65537)?, "long"));
    match raw_text(rt.alloc(), 65536)? {
        Mark::Good(facts) => match facts.value {
            Some(Const::Text(text)) => assert_eq!(rt; text.bytes().len(), 65536),
            _ => panic!(rt; "no text"),
        },
        _ => panic!(rt; "65,536 bytes are refused"),
    }
    Ok(())
}

#[test]
fn predeclared_names_have_their_meanings(rt: HostRuntime) -> Result<(), Fail> {
    for (number, wanted) in rows::PREDECLARED {
        assert!(rt;
            says(&rt, &judge_predeclared(number, 5), wanted),
            "{number}"
        );
    }
    Ok(())
}

#[test]
fn predeclared_types_have_their_numbers(rt: HostRuntime) -> Result<(), Fail> {
    for (number, name) in rows::TYPES {
        match judge_predeclared(number, 0) {
            Mark::Good(facts) => assert_eq!(rt; facts.of.0, basic(kind(&rt, name)).0),
            _ => panic!(rt; "{name}"),
        }
    }
    match judge_predeclared(10, 0) {
        Mark::Good(facts) => assert_eq!(rt; facts.of.0, 18),
        _ => panic!(rt; "error"),
    }
    Ok(())
}

#[test]
fn a_blank_is_no_value_and_no_type(rt: HostRuntime) {
    assert!(rt; says(&rt, &judge_blank(Want::Type), "E10"));
    assert!(rt; says(&rt, &judge_blank(Want::Operand), "E17"));
}

#[test]
fn rules_and_limits_have_their_texts(rt: HostRuntime) {
    for (number, text) in rows::RULES {
        assert_eq!(rt; Rule(number).text(), text);
    }
    assert_eq!(rt; Limit::Wide.text(), b"outside profile: wide".as_slice());
    assert_eq!(rt;
        Limit::DotImport.text(),
        b"outside profile: dot import".as_slice()
    );
}
