//! Tags of fields, read as pairs of keys and values.
ghost use Rattle.std.specs.Prelude.{◌≡◌, ◌++◌, ◌∷◌, [], IfOk, OnOk, option_map};
ghost use Rattle.std.specs.List.{fold};
ghost use Rattle.std.specs.Global.{Vec as OneVec};
ghost use Rattle.vet_simple.specs.Tags.{is_key_byte, at_stage, with_key, with_value, paired, closing, between, in_key, at_quote, in_value, behind_pair, step_at, step, nothing_read, ends, pairs_in, pairs_of};
ghost use Rattle.vet_simple.specs.declared.tags.Pair.{Pair as OnePair};

use go_tree::is_text;
use gv_base::{Bytes, NoMemory};
use std::alloc::Global;
use std::marker::Model;

/// What is read next: a space or a key; a key's bytes; a value's quote; a value's bytes, or the one behind a backslash; a space, behind a
/// value; nothing.
#[derive(Clone, Copy, Debug, PartialEq, Eq, Drop)]
pub enum Stage {
    Between,
    InKey,
    Quote,
    InValue,
    Escaped,
    Closed,
    Wrong,
}

/// A key, and a value as it is written: a string between double quotes.
#[derive(Drop)]
pub struct Pair {
    pub key: Bytes,
    pub value: Bytes,
}

/// How far a tag is read.
#[derive(Drop)]
pub(crate) struct Reading {
    stage: Stage,
    key: Vec<u8>,
    value: Vec<u8>,
    pairs: Vec<Pair>,
}

impl Model for Reading {
    ghost use Rattle.vet_simple.specs.Tags.{ReadingOf};

    ghost Value = { ReadingOf };

    ghost view = { λ r. record { stage = r.stage; key = r.key.items; value = r.value.items; pairs = r.pairs.items } };
}

fn is_key_byte(b: u8) -> bool
    ensures { result ≡ is_key_byte b }
{
    !(b <= 32) && (!(b == 34) && (!(b == 58) && !(b == 127)))
}

fn at_stage(r: &mut Reading, stage: Stage)
    ensures { r.new ≡ at_stage r.old stage }
{
    r.stage = stage;
}

fn begin_key(alloc: Global, r: &mut Reading, b: u8) -> Result<(), NoMemory>
    ensures { OnOk result (r.new ≡ with_key r.old (b ∷ [])) }
{
    let mut key = Vec::new(alloc);
    key.push(b)?;
    r.key = key;
    r.stage = Stage::InKey;
    Ok(())
}

fn more_key(r: &mut Reading, b: u8) -> Result<(), NoMemory>
    ensures { OnOk result (r.new ≡ with_key r.old (r.old.key ++ b ∷ [])) }
{
    r.key.push(b)?;
    r.stage = Stage::InKey;
    Ok(())
}

fn begin_value(alloc: Global, r: &mut Reading, b: u8) -> Result<(), NoMemory>
    ensures { OnOk result (r.new ≡ with_value r.old Stage.InValue (b ∷ [])) }
{
    let mut value = Vec::new(alloc);
    value.push(b)?;
    r.value = value;
    r.stage = Stage::InValue;
    Ok(())
}

fn more_value(r: &mut Reading, stage: Stage, b: u8) -> Result<(), NoMemory>
    ensures { OnOk result (r.new ≡ with_value r.old stage (r.old.value ++ b ∷ [])) }
{
    r.value.push(b)?;
    r.stage = stage;
    Ok(())
}

fn push_pair(alloc: Global, r: &mut Reading) -> Result<(), NoMemory>
    ensures { OnOk result (r.new ≡ paired r.old) }
{
    let key = Bytes::of(alloc, &r.key)?;
    let value = Bytes::of(alloc, &r.value)?;
    r.pairs.push(Pair { key, value })?;
    r.stage = Stage::Closed;
    Ok(())
}

/// A value is closed.
fn close(alloc: Global, r: &mut Reading, b: u8) -> Result<(), NoMemory>
    ensures { OnOk result (r.new ≡ closing r.old (r.old.value ++ b ∷ [])) }
{
    more_value(r, Stage::Wrong, b)?;
    if is_text(&r.value) {
        push_pair(alloc, r)?;
    }
    Ok(())
}

fn between(alloc: Global, r: &mut Reading, b: u8) -> Result<(), NoMemory>
    ensures { OnOk result (r.new ≡ between r.old b) }
{
    if b == 32 {
        return Ok(());
    }
    if is_key_byte(b) {
        begin_key(alloc, r, b)?;
        return Ok(());
    }
    at_stage(r, Stage::Wrong);
    Ok(())
}

fn in_key(r: &mut Reading, b: u8) -> Result<(), NoMemory>
    ensures { OnOk result (r.new ≡ in_key r.old b) }
{
    if b == 58 {
        at_stage(r, Stage::Quote);
        return Ok(());
    }
    if is_key_byte(b) {
        more_key(r, b)?;
        return Ok(());
    }
    at_stage(r, Stage::Wrong);
    Ok(())
}

fn at_quote(alloc: Global, r: &mut Reading, b: u8) -> Result<(), NoMemory>
    ensures { OnOk result (r.new ≡ at_quote r.old b) }
{
    if b == 34 {
        begin_value(alloc, r, b)?;
        return Ok(());
    }
    at_stage(r, Stage::Wrong);
    Ok(())
}

fn in_value(alloc: Global, r: &mut Reading, b: u8) -> Result<(), NoMemory>
    ensures { OnOk result (r.new ≡ in_value r.old b) }
{
    if b == 34 {
        close(alloc, r, b)?;
        return Ok(());
    }
    if b == 92 {
        more_value(r, Stage::Escaped, b)?;
        return Ok(());
    }
    if b == 10 {
        at_stage(r, Stage::Wrong);
        return Ok(());
    }
    more_value(r, Stage::InValue, b)?;
    Ok(())
}

fn behind_pair(r: &mut Reading, b: u8)
    ensures { r.new ≡ behind_pair r.old b }
{
    if b == 32 {
        at_stage(r, Stage::Between);
    } else {
        at_stage(r, Stage::Wrong);
    }
}

fn stage_of(r: &Reading) -> Stage
    ensures { result ≡ r.now.stage }
{
    r.stage
}

fn step(alloc: Global, r: &mut Reading, b: u8) -> Result<(), NoMemory>
    ensures { OnOk result (r.new ≡ step r.old b) }
{
    match stage_of(r) {
        Stage::Between => between(alloc, r, b)?,
        Stage::InKey => in_key(r, b)?,
        Stage::Quote => at_quote(alloc, r, b)?,
        Stage::InValue => in_value(alloc, r, b)?,
        Stage::Escaped => more_value(r, Stage::InValue, b)?,
        Stage::Closed => behind_pair(r, b),
        Stage::Wrong => {}
    }
    Ok(())
}

fn nothing_read(alloc: Global) -> Reading
    ensures { result ≡ nothing_read }
{
    Reading {
        stage: Stage::Between,
        key: Vec::new(alloc),
        value: Vec::new(alloc),
        pairs: Vec::new(alloc),
    }
}

fn read(alloc: Global, tag: &[u8]) -> Result<Reading, NoMemory>
    ensures { IfOk result (λ r. r ≡ fold step nothing_read tag.now) }
{
    let mut r = nothing_read(alloc);
    for b in tag {
        step(alloc, &mut r, *b)?;
    }
    Ok(r)
}

fn ends(stage: Stage) -> bool
    ensures { result ≡ ends stage }
{
    matches!(stage, Stage::Between | Stage::Closed)
}

fn pairs_in(r: Reading) -> Option<Vec<Pair>>
    ensures { option_map (λ (v : OneVec OnePair). v.items) result ≡ pairs_in r }
{
    if ends(r.stage) { Some(r.pairs) } else { None }
}

/// The pairs that a tag is, if it is pairs.
pub(crate) fn pairs_of(alloc: Global, tag: &[u8]) -> Result<Option<Vec<Pair>>, NoMemory>
    ensures { IfOk result (λ o. option_map (λ (v : OneVec OnePair). v.items) o ≡ pairs_of tag.now) }
{
    let r = read(alloc, tag)?;
    Ok(pairs_in(r))
}
