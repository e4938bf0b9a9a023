//! Names in tags of fields, for `json` and `xml`.
ghost use Rattle.std.specs.Prelude.{◌≡◌, ◌++◌, ◌∷◌, [], ℕ, IfOk, OnOk, option_map};
ghost use Rattle.std.specs.List.{fold};
ghost use Rattle.std.specs.Option.{option_copied};
ghost use Rattle.std.specs.Global.{Vec as OneVec};
ghost use Rattle.std.specs.Str.{bytes_eq, is_utf8};
ghost use Rattle.vet_simple.specs.TagNames.{pair_of, value_of, before_comma, is_name, if_name, name_in, is_attr, next_option, more_option, option_step, no_options, is_attribute, marked, attribute_mark, xml_marked, json_key, xml_key};

use crate::tags::Pair;
use go_tree::text_value;
use gv_base::NoMemory;
use std::alloc::Global;
use std::marker::Model;

// ---- keys

fn has_key(key: &[u8], p: &Pair) -> bool
    ensures { result ≡ bytes_eq p.now.key key.now }
{
    p.key.as_slice() == key
}

/// The first pair that has a key.
pub(crate) fn pair_of<'a>(key: &[u8], pairs: &'a [Pair]) -> Option<&'a Pair>
    ensures { option_copied result ≡ pair_of key.now pairs.now }
{
    for p in pairs {
        if has_key(key, p) {
            return Some(p);
        }
    }
    None
}

/// The value of a key.
pub(crate) fn value_of(
    alloc: Global,
    key: &[u8],
    pairs: &[Pair],
) -> Result<Option<Vec<u8>>, NoMemory>
    ensures { IfOk result (λ value. option_map (λ (v : OneVec ℕ). v.items) value ≡ value_of key.now pairs.now) }
{
    match pair_of(key, pairs) {
        Some(p) => {
            let value = text_value(alloc, p.value.as_slice())?;
            Ok(Some(value))
        }
        None => Ok(None),
    }
}

fn before_comma(alloc: Global, value: &[u8]) -> Result<Vec<u8>, NoMemory>
    ensures { IfOk result (λ name. name.items ≡ before_comma value.now) }
{
    let mut name = Vec::new(alloc);
    for b in value {
        if *b == 44 {
            return Ok(name);
        }
        name.push(*b)?;
    }
    Ok(name)
}

fn is_utf8(bytes: &[u8]) -> bool
    ensures { result ≡ is_utf8 bytes.now }
{
    match std::str::from_utf8(bytes) {
        Ok(_) => true,
        Err(_) => false,
    }
}

fn is_word(name: &[u8], word: &[u8]) -> bool
    ensures { result ≡ bytes_eq name.now word.now }
{
    name == word
}

fn is_name(name: &[u8]) -> bool
    ensures { result ≡ is_name name.now }
{
    is_utf8(name) && (!is_word(name, &[]) && !is_word(name, b"-"))
}

fn if_name(name: Vec<u8>) -> Option<Vec<u8>>
    ensures { option_map (λ (v : OneVec ℕ). v.items) result ≡ if_name name.items }
{
    if is_name(&name) { Some(name) } else { None }
}

/// The name that a value begins with.
fn name_in(alloc: Global, value: &[u8]) -> Result<Option<Vec<u8>>, NoMemory>
    ensures { IfOk result (λ name. option_map (λ (v : OneVec ℕ). v.items) name ≡ name_in value.now) }
{
    let name = before_comma(alloc, value)?;
    Ok(if_name(name))
}

// ---- options

/// How far options are read.
#[derive(Drop)]
pub(crate) struct Options {
    inside: bool,
    word: Vec<u8>,
    found: bool,
}

impl Model for Options {
    ghost use Rattle.vet_simple.specs.TagNames.{OptionsOf};

    ghost Value = { OptionsOf };

    ghost view = { λ o. record { inside = o.inside; word = o.word.items; found = o.found } };
}

fn is_attr(o: &Options) -> bool
    ensures { result ≡ is_attr o.now }
{
    o.found || (o.inside && is_word(&o.word, b"attr"))
}

fn next_option(alloc: Global, o: &mut Options)
    ensures { o.new ≡ next_option o.old }
{
    o.found = is_attr(o);
    o.inside = true;
    o.word = Vec::new(alloc);
}

fn more_option(o: &mut Options, b: u8) -> Result<(), NoMemory>
    ensures { OnOk result (o.new ≡ more_option o.old b) }
{
    o.word.push(b)?;
    Ok(())
}

fn option_step(alloc: Global, o: &mut Options, b: u8) -> Result<(), NoMemory>
    ensures { OnOk result (o.new ≡ option_step o.old b) }
{
    if b == 44 {
        next_option(alloc, o);
    } else {
        more_option(o, b)?;
    }
    Ok(())
}

fn no_options(alloc: Global) -> Options
    ensures { result ≡ no_options }
{
    Options {
        inside: false,
        word: Vec::new(alloc),
        found: false,
    }
}

fn read_options(alloc: Global, value: &[u8]) -> Result<Options, NoMemory>
    ensures { IfOk result (λ o. o ≡ fold option_step no_options value.now) }
{
    let mut o = no_options(alloc);
    for b in value {
        option_step(alloc, &mut o, *b)?;
    }
    Ok(o)
}

fn is_attribute(alloc: Global, value: &[u8]) -> Result<bool, NoMemory>
    ensures { IfOk result (λ b. b ≡ is_attribute value.now) }
{
    let o = read_options(alloc, value)?;
    Ok(is_attr(&o))
}

// ---- keys of names

fn mark_name(alloc: Global, mark: u8, name: &[u8]) -> Result<Vec<u8>, NoMemory>
    ensures { IfOk result (λ key. key.items ≡ mark ∷ name.now) }
{
    let mut key = Vec::new(alloc);
    key.push(mark)?;
    key.extend_from_slice(name)?;
    Ok(key)
}

fn marked(alloc: Global, mark: u8, value: &[u8]) -> Result<Option<Vec<u8>>, NoMemory>
    ensures { IfOk result (λ key. option_map (λ (v : OneVec ℕ). v.items) key ≡ marked mark value.now) }
{
    match name_in(alloc, value)? {
        Some(name) => {
            let key = mark_name(alloc, mark, &name)?;
            Ok(Some(key))
        }
        None => Ok(None),
    }
}

fn attribute_mark(alloc: Global, value: &[u8]) -> Result<u8, NoMemory>
    ensures { IfOk result (λ mark. mark ≡ attribute_mark value.now) }
{
    let attribute = is_attribute(alloc, value)?;
    if attribute { Ok(1) } else { Ok(2) }
}

fn xml_marked(alloc: Global, value: &[u8]) -> Result<Option<Vec<u8>>, NoMemory>
    ensures { IfOk result (λ key. option_map (λ (v : OneVec ℕ). v.items) key ≡ xml_marked value.now) }
{
    let mark = attribute_mark(alloc, value)?;
    let key = marked(alloc, mark, value)?;
    Ok(key)
}

/// What names of `json` tags are told by.
pub(crate) fn json_key(alloc: Global, pairs: &[Pair]) -> Result<Option<Vec<u8>>, NoMemory>
    ensures { IfOk result (λ key. option_map (λ (v : OneVec ℕ). v.items) key ≡ json_key pairs.now) }
{
    match value_of(alloc, b"json", pairs)? {
        Some(value) => {
            let key = marked(alloc, 0, &value)?;
            Ok(key)
        }
        None => Ok(None),
    }
}

/// What those of `xml` tags are told by.
pub(crate) fn xml_key(alloc: Global, pairs: &[Pair]) -> Result<Option<Vec<u8>>, NoMemory>
    ensures { IfOk result (λ key. option_map (λ (v : OneVec ℕ). v.items) key ≡ xml_key pairs.now) }
{
    match value_of(alloc, b"xml", pairs)? {
        Some(value) => {
            let key = xml_marked(alloc, &value)?;
            Ok(key)
        }
        None => Ok(None),
    }
}
