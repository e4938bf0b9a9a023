//! Reading a type as a row of pieces, without recursion.
ghost use Rattle.std.specs.Prelude.{◌≡◌, ◌∷◌, ◌++◌, [], length, IfOk, OnOk, MatchOption};
ghost use Rattle.gv_bytes.specs.Reading.{Gives};
ghost use Rattle.type_texts.specs.declared.pieces.Sort.TheVariants.{OneType};
ghost use Rattle.type_texts.specs.Pieces.{defined_at, basic_at, array_at, chan_at, func_at, struct_at, interface_at, type_piece_at, list_at, field_at, tag_at, method_at, variadic_at, signature_at, piece_at, pieces_at, wants_of, copies, wanted};

use crate::fields::{read_bit, read_dir, read_kind, read_name};
use crate::pieces::{Piece, Run, Sort};
use gv_base::{Bytes, NoMemory};
use gv_bytes::{Unread, read_natural, split_text};
use std::alloc::Global;
use type_model::TypeName;

#[tactic(auto, unfolding(crate::specs::Pieces::defined_at))]
fn defined_of(alloc: Global, bytes: &[u8]) -> Result<(Piece, &[u8]), Unread>
    ensures { Gives (λ x. (x.0, x.1.now)) result (defined_at bytes.now) }
{
    let (package, rest) = read_name(alloc, bytes)?;
    let (name, rest) = read_name(alloc, rest)?;
    Ok((
        Piece::Defined(TypeName {
            package,
            name,
            local: 0,
        }),
        rest,
    ))
}

#[tactic(auto, unfolding(crate::specs::Pieces::basic_at))]
fn basic_of(bytes: &[u8]) -> Result<(Piece, &[u8]), Unread>
    ensures { Gives (λ x. (x.0, x.1.now)) result (basic_at bytes.now) }
{
    let (kind, rest) = read_kind(bytes)?;
    Ok((Piece::Basic(kind), rest))
}

#[tactic(auto, unfolding(crate::specs::Pieces::array_at))]
fn array_of(bytes: &[u8]) -> Result<(Piece, &[u8]), Unread>
    ensures { Gives (λ x. (x.0, x.1.now)) result (array_at bytes.now) }
{
    let (size, rest) = read_natural(bytes, u64::MAX)?;
    Ok((Piece::Array(size), rest))
}

#[tactic(auto, unfolding(crate::specs::Pieces::chan_at))]
fn chan_of(bytes: &[u8]) -> Result<(Piece, &[u8]), Unread>
    ensures { Gives (λ x. (x.0, x.1.now)) result (chan_at bytes.now) }
{
    let (direction, rest) = read_dir(bytes)?;
    Ok((Piece::Chan(direction), rest))
}

#[tactic(auto, unfolding(crate::specs::Pieces::func_at))]
fn func_of(bytes: &[u8]) -> Result<(Piece, &[u8]), Unread>
    ensures { Gives (λ x. (x.0, x.1.now)) result (func_at bytes.now) }
{
    let (variadic, rest) = read_bit(bytes)?;
    Ok((Piece::Func(variadic), rest))
}

#[tactic(auto, unfolding(crate::specs::Pieces::struct_at))]
fn struct_of(bytes: &[u8]) -> Result<(Piece, &[u8]), Unread>
    ensures { Gives (λ x. (x.0, x.1.now)) result (struct_at bytes.now) }
{
    let (count, rest) = read_natural(bytes, u64::MAX)?;
    Ok((Piece::Struct(count), rest))
}

#[tactic(auto, unfolding(crate::specs::Pieces::interface_at))]
fn interface_of(bytes: &[u8]) -> Result<(Piece, &[u8]), Unread>
    ensures { Gives (λ x. (x.0, x.1.now)) result (interface_at bytes.now) }
{
    let (count, rest) = read_natural(bytes, u64::MAX)?;
    Ok((Piece::Interface(count), rest))
}

#[tactic(auto, unfolding(crate::specs::Pieces::list_at))]
fn list_of(bytes: &[u8]) -> Result<(Piece, &[u8]), Unread>
    ensures { Gives (λ x. (x.0, x.1.now)) result (list_at bytes.now) }
{
    let (count, rest) = read_natural(bytes, u64::MAX)?;
    Ok((Piece::List(count), rest))
}

#[tactic(auto, unfolding(crate::specs::Pieces::field_at))]
fn field_of(alloc: Global, bytes: &[u8]) -> Result<(Piece, &[u8]), Unread>
    ensures { Gives (λ x. (x.0, x.1.now)) result (field_at bytes.now) }
{
    let (name, rest) = read_name(alloc, bytes)?;
    let (owner, rest) = read_name(alloc, rest)?;
    let (embedded, rest) = read_bit(rest)?;
    Ok((Piece::Field(name, owner, embedded), rest))
}

#[tactic(auto, unfolding(crate::specs::Pieces::tag_at))]
fn tag_of(alloc: Global, bytes: &[u8]) -> Result<(Piece, &[u8]), Unread>
    ensures { Gives (λ x. (x.0, x.1.now)) result (tag_at bytes.now) }
{
    let Some((text, rest)) = split_text(bytes) else {
        return Err(Unread::Unspelled);
    };
    let copy = Bytes::of(alloc, text)?;
    Ok((Piece::Tag(copy), rest))
}

#[tactic(auto, unfolding(crate::specs::Pieces::method_at))]
fn method_of(alloc: Global, bytes: &[u8]) -> Result<(Piece, &[u8]), Unread>
    ensures { Gives (λ x. (x.0, x.1.now)) result (method_at bytes.now) }
{
    let (name, rest) = read_name(alloc, bytes)?;
    let (owner, rest) = read_name(alloc, rest)?;
    Ok((Piece::Method(name, owner, false), rest))
}

#[tactic(auto, unfolding(crate::specs::Pieces::variadic_at))]
fn variadic_of(bytes: &[u8]) -> Result<(Piece, &[u8]), Unread>
    ensures { Gives (λ x. (x.0, x.1.now)) result (variadic_at bytes.now) }
{
    let (variadic, rest) = read_bit(bytes)?;
    Ok((Piece::Signature(variadic), rest))
}

#[tactic(auto, unfolding(crate::specs::Pieces::signature_at))]
fn signature_of(bytes: &[u8]) -> Result<(Piece, &[u8]), Unread>
    ensures { Gives (λ x. (x.0, x.1.now)) result (signature_at bytes.now) }
{
    match bytes {
        [b'f', rest @ ..] => {
            let x = variadic_of(rest)?;
            Ok(x)
        }
        _ => Err(Unread::Unspelled),
    }
}

#[tactic(auto, unfolding(crate::specs::Pieces::type_piece_at))]
fn type_piece_of(alloc: Global, bytes: &[u8]) -> Result<(Piece, &[u8]), Unread>
    ensures { Gives (λ x. (x.0, x.1.now)) result (type_piece_at bytes.now) }
{
    match bytes {
        [b'b', rest @ ..] => {
            let x = basic_of(rest)?;
            Ok(x)
        }
        [b'd', rest @ ..] => {
            let x = defined_of(alloc, rest)?;
            Ok(x)
        }
        [b'p', rest @ ..] => Ok((Piece::Pointer, rest)),
        [b's', rest @ ..] => Ok((Piece::Slice, rest)),
        [b'a', rest @ ..] => {
            let x = array_of(rest)?;
            Ok(x)
        }
        [b'm', rest @ ..] => Ok((Piece::Map, rest)),
        [b'c', rest @ ..] => {
            let x = chan_of(rest)?;
            Ok(x)
        }
        [b'f', rest @ ..] => {
            let x = func_of(rest)?;
            Ok(x)
        }
        [b't', rest @ ..] => {
            let x = struct_of(rest)?;
            Ok(x)
        }
        [b'i', rest @ ..] => {
            let x = interface_of(rest)?;
            Ok(x)
        }
        _ => Err(Unread::Unspelled),
    }
}

fn piece_of(alloc: Global, sort: Sort, bytes: &[u8]) -> Result<(Piece, &[u8]), Unread>
    ensures { Gives (λ x. (x.0, x.1.now)) result (piece_at sort bytes.now) }
{
    match sort {
        Sort::OneType => {
            let x = type_piece_of(alloc, bytes)?;
            Ok(x)
        }
        Sort::SomeTypes => {
            let x = list_of(bytes)?;
            Ok(x)
        }
        Sort::OneField => {
            let x = field_of(alloc, bytes)?;
            Ok(x)
        }
        Sort::OneTag => {
            let x = tag_of(alloc, bytes)?;
            Ok(x)
        }
        Sort::OneMethod => {
            let x = method_of(alloc, bytes)?;
            Ok(x)
        }
        Sort::OneSignature => {
            let x = signature_of(bytes)?;
            Ok(x)
        }
    }
}

#[tactic(auto, using(crate::proofs::Wanted::wanted_last))]
fn push_run(wants: &mut Vec<Run>, sort: Sort, count: u64) -> Result<(), NoMemory>
    ensures { OnOk result (wanted wants.new.items ≡ copies count sort ++ wanted wants.old.items) }
{
    wants.push(Run { sort, count })?;
    Ok(())
}

/// What a piece wants behind it is wanted first now.
fn want_parts(wants: &mut Vec<Run>, piece: &Piece) -> Result<(), NoMemory>
    ensures { OnOk result (wanted wants.new.items ≡ wants_of piece.now ++ wanted wants.old.items) }
{
    match piece {
        Piece::Basic(_) => Ok(()),
        Piece::Defined(_) => Ok(()),
        Piece::Pointer => {
            push_run(wants, Sort::OneType, 1)?;
            Ok(())
        }
        Piece::Slice => {
            push_run(wants, Sort::OneType, 1)?;
            Ok(())
        }
        Piece::Array(_) => {
            push_run(wants, Sort::OneType, 1)?;
            Ok(())
        }
        Piece::Map => {
            push_run(wants, Sort::OneType, 2)?;
            Ok(())
        }
        Piece::Chan(_) => {
            push_run(wants, Sort::OneType, 1)?;
            Ok(())
        }
        Piece::Func(_) => {
            push_run(wants, Sort::SomeTypes, 2)?;
            Ok(())
        }
        Piece::List(count) => {
            push_run(wants, Sort::OneType, *count)?;
            Ok(())
        }
        Piece::Struct(count) => {
            push_run(wants, Sort::OneField, *count)?;
            Ok(())
        }
        Piece::Field(_, _, _) => {
            push_run(wants, Sort::OneTag, 1)?;
            push_run(wants, Sort::OneType, 1)?;
            Ok(())
        }
        Piece::Tag(_) => Ok(()),
        Piece::Interface(count) => {
            push_run(wants, Sort::OneMethod, *count)?;
            Ok(())
        }
        Piece::Method(_, _, _) => {
            push_run(wants, Sort::OneSignature, 1)?;
            Ok(())
        }
        Piece::Signature(_) => {
            push_run(wants, Sort::SomeTypes, 2)?;
            Ok(())
        }
    }
}

/// What is wanted next; it is wanted no more.
fn next_wanted(wants: &mut Vec<Run>) -> Result<Option<Sort>, NoMemory>
    ensures { IfOk result (λ next. MatchOption next (wanted wants.old.items ≡ []) (λ s. wanted wants.old.items ≡ s ∷ wanted wants.new.items)) }
{
    while let Some(run) = wants.pop() {
        if run.count > 0 {
            push_run(wants, run.sort, run.count - 1)?;
            return Ok(Some(run.sort));
        }
    }
    Ok(None)
}

fn one_wanted(alloc: Global) -> Result<Vec<Run>, NoMemory>
    ensures { IfOk result (λ wants. wanted wants.items ≡ OneType ∷ []) }
{
    let mut wants = Vec::new(alloc);
    push_run(&mut wants, Sort::OneType, 1)?;
    Ok(wants)
}

/// Room for the pieces of most types.
const ROOM: usize = 16;

/// The pieces of the type at the front, and the bytes after it. Each takes a byte at least.
pub(crate) fn pieces_of(alloc: Global, bytes: &[u8]) -> Result<(Vec<Piece>, &[u8]), Unread>
    ensures { Gives (λ x. (x.0.items, x.1.now)) result (pieces_at (length bytes.now) (OneType ∷ []) bytes.now) }
{
    let mut wants = one_wanted(alloc)?;
    let mut row = Vec::with_capacity(alloc, ROOM)?;
    let mut rest = bytes;
    for _ in 0..bytes.len() {
        let next = next_wanted(&mut wants)?;
        let Some(sort) = next else {
            return Ok((row, rest));
        };
        let (piece, after) = piece_of(alloc, sort, rest)?;
        want_parts(&mut wants, &piece)?;
        row.push(piece)?;
        rest = after;
    }
    let next = next_wanted(&mut wants)?;
    match next {
        Some(_) => Err(Unread::Unspelled),
        None => Ok((row, rest)),
    }
}
