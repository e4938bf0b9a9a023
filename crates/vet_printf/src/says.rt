//! What is said of a fault.
ghost use Rattle.std.specs.Prelude.{◌≡◌, ◌++◌, codes, encode_utf8, IfOk, OnOk};
ghost use Rattle.std.specs.Fmt.{decimal};
ghost use Rattle.vet_printf.specs.Texts.{unknown_text, verb_text, flag_rest, reads_text, star_text, type_rest, needs_text, possible_text, fault_text};

use crate::fault::Fault;
use gv_base::NoMemory;
use std::alloc::Global;

fn char_text(alloc: Global, c: char) -> Result<Vec<u8>, NoMemory>
    ensures { IfOk result (λ text. text.items ≡ encode_utf8 c) }
{
    let mut buffer = [0; 4];
    let bytes = c.encode_utf8(&mut buffer).as_bytes().to_vec(alloc)?;
    Ok(bytes)
}

fn push_number(alloc: Global, text: &mut Vec<u8>, n: u32) -> Result<(), NoMemory>
    ensures { OnOk result (text.new.items ≡ text.old.items ++ decimal n) }
{
    let digits = format!(in alloc; "{n}")?;
    text.extend_from_slice(digits.as_bytes())?;
    Ok(())
}

fn unknown_text(alloc: Global, verb: char) -> Result<Vec<u8>, NoMemory>
    ensures { IfOk result (λ text. text.items ≡ unknown_text verb) }
{
    let spelled = char_text(alloc, verb)?;
    let mut text = Vec::new(alloc);
    text.extend_from_slice(b"format has unknown verb %")?;
    text.extend_from_slice(&spelled)?;
    Ok(text)
}

fn verb_text(alloc: Global, verb: char, rest: &[u8]) -> Result<Vec<u8>, NoMemory>
    ensures { IfOk result (λ text. text.items ≡ verb_text verb rest.now) }
{
    let spelled = char_text(alloc, verb)?;
    let mut text = Vec::new(alloc);
    text.extend_from_slice(b"format %")?;
    text.extend_from_slice(&spelled)?;
    text.extend_from_slice(rest)?;
    Ok(text)
}

fn flag_rest(alloc: Global, flag: u8) -> Result<Vec<u8>, NoMemory>
    ensures { IfOk result (λ text. text.items ≡ flag_rest flag) }
{
    let mut rest = Vec::new(alloc);
    rest.extend_from_slice(b" does not take flag ")?;
    rest.push(flag)?;
    Ok(rest)
}

fn flag_text(alloc: Global, verb: char, flag: u8) -> Result<Vec<u8>, NoMemory>
    ensures { IfOk result (λ text. text.items ≡ verb_text verb (flag_rest flag)) }
{
    let rest = flag_rest(alloc, flag)?;
    let text = verb_text(alloc, verb, &rest)?;
    Ok(text)
}

fn reads_text(alloc: Global, n: u32, count: u32) -> Result<Vec<u8>, NoMemory>
    ensures { IfOk result (λ text. text.items ≡ reads_text n count) }
{
    let mut text = Vec::new(alloc);
    text.extend_from_slice(b"format reads argument #")?;
    push_number(alloc, &mut text, n)?;
    text.extend_from_slice(b", but call has ")?;
    push_number(alloc, &mut text, count)?;
    Ok(text)
}

fn star_text(alloc: Global, name: &[u8]) -> Result<Vec<u8>, NoMemory>
    ensures { IfOk result (λ text. text.items ≡ star_text name.now) }
{
    let mut text = Vec::new(alloc);
    text.extend_from_slice(b"format * has argument ")?;
    text.extend_from_slice(name)?;
    text.extend_from_slice(b" that is not int")?;
    Ok(text)
}

fn type_rest(alloc: Global, name: &[u8]) -> Result<Vec<u8>, NoMemory>
    ensures { IfOk result (λ text. text.items ≡ type_rest name.now) }
{
    let mut rest = Vec::new(alloc);
    rest.extend_from_slice(b" has argument ")?;
    rest.extend_from_slice(name)?;
    rest.extend_from_slice(b" of wrong type")?;
    Ok(rest)
}

fn type_text(alloc: Global, verb: char, name: &[u8]) -> Result<Vec<u8>, NoMemory>
    ensures { IfOk result (λ text. text.items ≡ verb_text verb (type_rest name.now)) }
{
    let rest = type_rest(alloc, name)?;
    let text = verb_text(alloc, verb, &rest)?;
    Ok(text)
}

fn needs_text(alloc: Global, n: u32, count: u32) -> Result<Vec<u8>, NoMemory>
    ensures { IfOk result (λ text. text.items ≡ needs_text n count) }
{
    let mut text = Vec::new(alloc);
    text.extend_from_slice(b"call needs ")?;
    push_number(alloc, &mut text, n)?;
    text.extend_from_slice(b" arguments but has ")?;
    push_number(alloc, &mut text, count)?;
    Ok(text)
}

fn possible_text(alloc: Global, name: &[u8]) -> Result<Vec<u8>, NoMemory>
    ensures { IfOk result (λ text. text.items ≡ possible_text name.now) }
{
    let mut text = Vec::new(alloc);
    text.extend_from_slice(b"possible formatting directive in ")?;
    text.extend_from_slice(name)?;
    text.extend_from_slice(b" call")?;
    Ok(text)
}

/// A text that says nothing of the call.
fn plain_text(alloc: Global, said: &[u8]) -> Result<Vec<u8>, NoMemory>
    ensures { IfOk result (λ text. text.items ≡ said.now) }
{
    let mut text = Vec::new(alloc);
    text.extend_from_slice(said)?;
    Ok(text)
}

/// The text of a fault. `name` is how the argument that has it, or what is called, is spelled.
pub fn fault_text(alloc: Global, name: &[u8], fault: Fault) -> Result<Vec<u8>, NoMemory>
    ensures { IfOk result (λ text. text.items ≡ fault_text name.now fault) }
{
    match fault {
        Fault::Unknown(verb) => {
            let text = unknown_text(alloc, verb)?;
            Ok(text)
        }
        Fault::Flag(verb, flag) => {
            let text = flag_text(alloc, verb, flag)?;
            Ok(text)
        }
        Fault::Errorf => {
            let text = plain_text(alloc, b"format %w is only for errorf")?;
            Ok(text)
        }
        Fault::NoVerb => {
            let text = plain_text(alloc, b"format is missing a verb at its end")?;
            Ok(text)
        }
        Fault::BadIndex => {
            let text = plain_text(alloc, b"format has a bad argument index")?;
            Ok(text)
        }
        Fault::Needs(n, count) => {
            let text = needs_text(alloc, n, count)?;
            Ok(text)
        }
        Fault::Possible => {
            let text = possible_text(alloc, name)?;
            Ok(text)
        }
        Fault::Reads(n, count) => {
            let text = reads_text(alloc, n, count)?;
            Ok(text)
        }
        Fault::Star(_) => {
            let text = star_text(alloc, name)?;
            Ok(text)
        }
        Fault::WrongType(verb, _) => {
            let text = type_text(alloc, verb, name)?;
            Ok(text)
        }
    }
}
