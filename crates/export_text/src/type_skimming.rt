//! Going through a type's text for the packages that it mentions, without recursion: no type is made of it.
ghost use Rattle.std.specs.Prelude.{◌≡◌, ◌∷◌, ◌++◌, [], IfOk, OnOk, MatchOption, bytes_eq};
ghost use Rattle.std.specs.List.{flat_map};
ghost use Rattle.gv_bytes.specs.Reading.{Gives};
ghost use Rattle.type_texts.specs.declared.pieces.Sort.TheVariants.{OneType};
ghost use Rattle.type_texts.specs.Pieces.{copies, wanted};
ghost use Rattle.export_text.specs.Skimming.{front_owner, front_wants, mention_of, type_skimmed};

use crate::fronts::{Front, front_of};
use gv_base::{NoMemory, Text};
use gv_bytes::Unread;
use std::alloc::Global;
use type_texts::{Run, Sort};

#[tactic(auto, using(type_texts::proofs::Wanted::wanted_last))]
fn push_run(wants: &mut Vec<Run>, sort: Sort, count: u64) -> Result<(), NoMemory>
    ensures { OnOk result (wanted wants.new.items ≡ copies count sort ++ wanted wants.old.items) }
{
    wants.push(Run { sort, count })?;
    Ok(())
}

/// What is wanted behind the front is wanted first now.
fn want_parts(wants: &mut Vec<Run>, front: &Front<'_>) -> Result<(), NoMemory>
    ensures { OnOk result (wanted wants.new.items ≡ front_wants front.now ++ wanted wants.old.items) }
{
    match front {
        Front::Leaf => Ok(()),
        Front::Named(_) => Ok(()),
        Front::Over => {
            push_run(wants, Sort::OneType, 1)?;
            Ok(())
        }
        Front::OverTwo => {
            push_run(wants, Sort::OneType, 2)?;
            Ok(())
        }
        Front::Lists => {
            push_run(wants, Sort::SomeTypes, 2)?;
            Ok(())
        }
        Front::Types(count) => {
            push_run(wants, Sort::OneType, *count)?;
            Ok(())
        }
        Front::Fields(count) => {
            push_run(wants, Sort::OneField, *count)?;
            Ok(())
        }
        Front::Field => {
            push_run(wants, Sort::OneTag, 1)?;
            push_run(wants, Sort::OneType, 1)?;
            Ok(())
        }
        Front::Methods(count) => {
            push_run(wants, Sort::OneMethod, *count)?;
            Ok(())
        }
        Front::Method => {
            push_run(wants, Sort::OneSignature, 1)?;
            Ok(())
        }
    }
}

/// What is wanted next; it is wanted no more.
fn next_wanted(wants: &mut Vec<Run>) -> Result<Option<Sort>, NoMemory>
    ensures { IfOk result (λ next. MatchOption next (wanted wants.old.items ≡ []) (λ s. wanted wants.old.items ≡ s ∷ wanted wants.new.items)) }
{
    while let Some(run) = wants.pop() {
        if run.count > 0 {
            push_run(wants, run.sort, run.count - 1)?;
            return Ok(Some(run.sort));
        }
    }
    Ok(None)
}

fn one_wanted(alloc: Global) -> Result<Vec<Run>, NoMemory>
    ensures { IfOk result (λ wants. wanted wants.items ≡ OneType ∷ []) }
{
    let mut wants = Vec::new(alloc);
    push_run(&mut wants, Sort::OneType, 1)?;
    Ok(wants)
}

fn is_same(one: &str, other: &str) -> bool
    ensures { result ≡ bytes_eq one.now other.now }
{
    one == other
}

/// Adds the package of a defined type, unless it is this one or none.
fn note_owner(alloc: Global, out: &mut Vec<Text>, path: &str, owner: &str) -> Result<(), NoMemory>
    ensures { OnOk result (out.new.items ≡ out.old.items ++ mention_of path.now owner.now) }
{
    if is_same(owner, path) {
        return Ok(());
    }
    if owner.is_empty() {
        return Ok(());
    }
    let copy = Text::of(alloc, owner)?;
    out.push(copy)?;
    Ok(())
}

/// Adds what the front mentions.
fn note(alloc: Global, out: &mut Vec<Text>, path: &str, front: &Front<'_>) -> Result<(), NoMemory>
    ensures { OnOk result (out.new.items ≡ out.old.items ++ flat_map (mention_of path.now) (front_owner front.now)) }
{
    match front {
        Front::Named(owner) => {
            note_owner(alloc, out, path, *owner)?;
            Ok(())
        }
        Front::Leaf => Ok(()),
        Front::Over => Ok(()),
        Front::OverTwo => Ok(()),
        Front::Lists => Ok(()),
        Front::Types(_) => Ok(()),
        Front::Fields(_) => Ok(()),
        Front::Field => Ok(()),
        Front::Methods(_) => Ok(()),
        Front::Method => Ok(()),
    }
}

/// Adds the packages that the type at the front mentions, and answers the bytes behind it. Each piece takes a byte at least.
#[tactic(auto, unfolding(crate::specs::Skimming::type_skimmed))]
pub(crate) fn skim_type<'a>(
    alloc: Global,
    path: &str,
    out: &mut Vec<Text>,
    bytes: &'a [u8],
) -> Result<&'a [u8], Unread>
    ensures { Gives (λ rest. (out.new.items, rest.now)) result (type_skimmed path.now out.old.items bytes.now) }
{
    let mut wants = one_wanted(alloc)?;
    let mut rest = bytes;
    for _ in 0..bytes.len() {
        let next = next_wanted(&mut wants)?;
        let Some(sort) = next else {
            return Ok(rest);
        };
        let (front, after) = front_of(sort, rest)?;
        want_parts(&mut wants, &front)?;
        note(alloc, out, path, &front)?;
        rest = after;
    }
    let next = next_wanted(&mut wants)?;
    match next {
        Some(_) => Err(Unread::Unspelled),
        None => Ok(rest),
    }
}
