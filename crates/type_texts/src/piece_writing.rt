//! Writing a row of pieces.
ghost use Rattle.std.specs.Prelude.{◌≡◌, ◌++◌, ◌∷◌, OnOk, pos};
ghost use Rattle.std.specs.List.{AllByRecursion};
ghost use Rattle.type_texts.specs.Answers.{Tells};
ghost use Rattle.type_texts.specs.Fields.{truth_of, dir_number, IsName};
ghost use Rattle.type_texts.specs.declared.pieces.Piece.TheVariants as piece;
ghost use Rattle.gv_bytes.specs.Spelling.{natural, number as number_text, text};
ghost use Rattle.type_texts.specs.Pieces.{piece_text, pieces_text, IsPiece};

use crate::pieces::Piece;
use gv_base::{NoMemory, Text};
use gv_bytes::{Unread, put_num, put_text};
use type_model::{Dir, TypeName};

fn truth_number(truth: bool) -> i128
    ensures { result ≡ pos (truth_of truth) }
{
    if truth { 1 } else { 0 }
}

/// Adds 0 or 1.
pub fn put_truth(out: &mut Vec<u8>, truth: bool) -> Result<(), NoMemory>
    ensures { OnOk result (out.new.items ≡ out.old.items ++ natural (truth_of truth)) }
{
    put_num(out, truth_number(truth))?;
    Ok(())
}

fn number_of_dir(direction: Dir) -> i128
    ensures { result ≡ pos (dir_number direction) }
{
    match direction {
        Dir::Both => 0,
        Dir::Send => 1,
        Dir::Receive => 2,
    }
}

/// A mark, and a number.
fn put_marked(out: &mut Vec<u8>, mark: u8, number: i128) -> Result<(), NoMemory>
    ensures { OnOk result (out.new.items ≡ out.old.items ++ (mark ∷ number_text number)) }
{
    out.push(mark)?;
    put_num(out, number)?;
    Ok(())
}

/// Adds a name.
pub fn put_name(out: &mut Vec<u8>, name: &Text) -> Result<(), NoMemory>
    ensures written { OnOk result (out.new.items ≡ out.old.items ++ text name.now) }
    ensures name { OnOk result (IsName name.now) }
{
    put_text(out, name.as_str().as_bytes())?;
    Ok(())
}

/// A name, and the package that it has.
fn put_names(out: &mut Vec<u8>, name: &Text, package: &Text) -> Result<(), NoMemory>
    ensures written { OnOk result (out.new.items ≡ out.old.items ++ (text name.now ++ text «package».now)) }
    ensures names { OnOk result (IsName name.now × IsName «package».now) }
{
    put_name(out, name)?;
    put_name(out, package)?;
    Ok(())
}

#[tactic(auto, unfolding(crate::specs::Pieces::piece_text))]
fn put_defined(out: &mut Vec<u8>, name: &TypeName) -> Result<(), Unread>
    ensures written { OnOk result (out.new.items ≡ out.old.items ++ piece_text (piece.Defined name.now)) }
    ensures fits { Tells (IsPiece (piece.Defined name.now)) result }
{
    if name.local != 0 {
        return Err(Unread::Unspelled);
    }
    out.push(b'd')?;
    put_names(out, &name.package, &name.name)?;
    Ok(())
}

#[tactic(auto, unfolding(crate::specs::Pieces::piece_text))]
fn put_field(out: &mut Vec<u8>, name: &Text, package: &Text, embedded: bool) -> Result<(), Unread>
    ensures written { OnOk result (out.new.items ≡ out.old.items ++ piece_text (piece.Field name.now «package».now embedded)) }
    ensures fits { Tells (IsPiece (piece.Field name.now «package».now embedded)) result }
{
    put_names(out, name, package)?;
    put_truth(out, embedded)?;
    Ok(())
}

#[tactic(auto, unfolding(crate::specs::Pieces::piece_text))]
fn put_method(out: &mut Vec<u8>, name: &Text, package: &Text, pointer: bool) -> Result<(), Unread>
    ensures written { OnOk result (out.new.items ≡ out.old.items ++ piece_text (piece.Method name.now «package».now pointer)) }
    ensures fits { Tells (IsPiece (piece.Method name.now «package».now pointer)) result }
{
    if pointer {
        return Err(Unread::Unspelled);
    }
    put_names(out, name, package)?;
    Ok(())
}

/// Adds a piece. None that is a local type, or an interface's method with a receiver.
#[tactic(auto, unfolding(crate::specs::Pieces::piece_text))]
fn put_piece(out: &mut Vec<u8>, piece: &Piece) -> Result<(), Unread>
    ensures written { OnOk result (out.new.items ≡ out.old.items ++ piece_text piece.now) }
    ensures fits { Tells (IsPiece piece.now) result }
{
    match piece {
        Piece::Basic(kind) => {
            put_marked(out, b'b', kind.number() as i128)?;
            Ok(())
        }
        Piece::Defined(name) => {
            put_defined(out, name)?;
            Ok(())
        }
        Piece::Pointer => {
            out.push(b'p')?;
            Ok(())
        }
        Piece::Slice => {
            out.push(b's')?;
            Ok(())
        }
        Piece::Array(size) => {
            put_marked(out, b'a', *size as i128)?;
            Ok(())
        }
        Piece::Map => {
            out.push(b'm')?;
            Ok(())
        }
        Piece::Chan(direction) => {
            put_marked(out, b'c', number_of_dir(*direction))?;
            Ok(())
        }
        Piece::Func(variadic) => {
            put_marked(out, b'f', truth_number(*variadic))?;
            Ok(())
        }
        Piece::List(count) => {
            put_num(out, *count as i128)?;
            Ok(())
        }
        Piece::Struct(count) => {
            put_marked(out, b't', *count as i128)?;
            Ok(())
        }
        Piece::Field(name, package, embedded) => {
            put_field(out, name, package, *embedded)?;
            Ok(())
        }
        Piece::Tag(tag) => {
            put_text(out, tag.as_slice())?;
            Ok(())
        }
        Piece::Interface(count) => {
            put_marked(out, b'i', *count as i128)?;
            Ok(())
        }
        Piece::Method(name, package, pointer) => {
            put_method(out, name, package, *pointer)?;
            Ok(())
        }
        Piece::Signature(variadic) => {
            put_marked(out, b'f', truth_number(*variadic))?;
            Ok(())
        }
    }
}

/// Adds the pieces of a row.
pub fn put_row(out: &mut Vec<u8>, row: &[Piece]) -> Result<(), Unread>
    ensures written { OnOk result (out.new.items ≡ out.old.items ++ pieces_text row.now) }
    ensures fits { Tells (AllByRecursion IsPiece row.now) result }
{
    for piece in row {
        put_piece(out, piece)?;
    }
    Ok(())
}
