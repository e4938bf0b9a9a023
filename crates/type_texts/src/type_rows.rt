//! A numbered type as a row of pieces, without recursion.
ghost use Rattle.std.specs.Prelude.{◌≡◌, ◌<◌, ◌≤◌, ◌+◌, ◌++◌, ◌∷◌, [], IfOk, OnOk, List, ℕ};
ghost use Rattle.type_model.specs.GoTypes.{GoType, FuncOf, nodes, type_at, types_at, fields_of, methods_of, signature_of, type_of, IsOver, AreBelow, SignatureBelow, FieldsBelow, MethodsBelow};
ghost use Rattle.type_model.specs.Tables.{IsTable, types_in, count};
ghost use Rattle.type_texts.specs.declared.pieces.Piece.{Piece};
ghost use Rattle.type_texts.specs.declared.pieces.Piece.TheVariants as piece;
ghost use Rattle.type_texts.specs.Texts.{field_count, method_count};
ghost use Rattle.type_texts.specs.Answers.{Tells};
ghost use Rattle.type_texts.specs.Rows.{type_row, signature_row, types_row, fields_row, methods_row};
ghost use Rattle.type_texts.specs.Pending.{list_row, field_row, method_row, one_row, pending, IsIn, AreIn, one_piece, piece_count, steps_left, node_of, todo_nodes, nodes_in};

use crate::pieces::Piece;
use gv_base::NoMemory;
use gv_bytes::Unread;
use std::alloc::Global;
use type_model::{Field, Method, Signature, Term, TypeId, TypeName, TypeTable};

/// Room for the pieces of most types.
const ROOM: usize = 16;

/// What is still to be put into a row.
#[derive(Drop)]
pub enum Todo {
    Type(TypeId),
    Piece(Piece),
}

/// Comes before all that is still to come.
#[tactic(auto, using(crate::proofs::PendingLaws::pending_last, crate::proofs::PendingLaws::in_last, crate::proofs::PendingLaws::pieces_last))]
fn push_todo(todo: &mut Vec<Todo>, next: Todo) -> Result<(), NoMemory>
    ensures pending { OnOk result ((types : List GoType) (rest : List Piece) → pending types todo.new.items rest ≡ one_row types next (pending types todo.old.items rest)) }
    ensures within { OnOk result ((n : ℕ) → IsIn n next → AreIn n todo.old.items → AreIn n todo.new.items) }
    ensures pieces { OnOk result (piece_count todo.new.items ≡ piece_count todo.old.items + one_piece next) }
{
    todo.push(next)?;
    Ok(())
}

fn push_types(todo: &mut Vec<Todo>, ids: &[TypeId]) -> Result<(), NoMemory>
    ensures pending { OnOk result ((types : List GoType) (rest : List Piece) → pending types todo.new.items rest ≡ types_row (types_at types ids.now) (pending types todo.old.items rest)) }
    ensures within { OnOk result ((n : ℕ) → AreBelow n ids.now → AreIn n todo.old.items → AreIn n todo.new.items) }
    ensures pieces { OnOk result (piece_count todo.old.items ≤ piece_count todo.new.items) }
{
    for k in 0..ids.len() {
        push_todo(todo, Todo::Type(ids[ids.len() - 1 - k]))?;
    }
    Ok(())
}

/// A list of types, with its count in front.
#[tactic(auto, using(crate::proofs::PendingLaws::types_counted))]
fn push_list(todo: &mut Vec<Todo>, ids: &[TypeId]) -> Result<(), NoMemory>
    ensures pending { OnOk result ((types : List GoType) (rest : List Piece) → pending types todo.new.items rest ≡ list_row types ids.now (pending types todo.old.items rest)) }
    ensures within { OnOk result ((n : ℕ) → AreBelow n ids.now → AreIn n todo.old.items → AreIn n todo.new.items) }
    ensures pieces { OnOk result (piece_count todo.old.items < piece_count todo.new.items) }
{
    push_types(todo, ids)?;
    push_todo(todo, Todo::Piece(Piece::List(ids.len() as u64)))?;
    Ok(())
}

/// The parameters and the results.
fn push_signature(todo: &mut Vec<Todo>, of: &Signature) -> Result<(), NoMemory>
    ensures pending { OnOk result ((types : List GoType) (rest : List Piece) → pending types todo.new.items rest ≡ signature_row (signature_of types of.now) (pending types todo.old.items rest)) }
    ensures within { OnOk result ((n : ℕ) → SignatureBelow n of.now → AreIn n todo.old.items → AreIn n todo.new.items) }
    ensures pieces { OnOk result (piece_count todo.old.items ≤ piece_count todo.new.items) }
{
    push_list(todo, of.results.as_slice())?;
    push_list(todo, of.params.as_slice())?;
    Ok(())
}

/// A field's name, type and tag come before all that is still to come.
fn push_field(alloc: Global, todo: &mut Vec<Todo>, field: &Field) -> Result<(), NoMemory>
    ensures pending { OnOk result ((types : List GoType) (rest : List Piece) → pending types todo.new.items rest ≡ field_row types field.now (pending types todo.old.items rest)) }
    ensures within { OnOk result ((n : ℕ) → field.now.of.0 < n → AreIn n todo.old.items → AreIn n todo.new.items) }
    ensures pieces { OnOk result (piece_count todo.old.items < piece_count todo.new.items) }
{
    let tag = field.tag.copy(alloc)?;
    let name = field.name.copy(alloc)?;
    let package = field.package.copy(alloc)?;
    push_todo(todo, Todo::Piece(Piece::Tag(tag)))?;
    push_todo(todo, Todo::Type(field.of))?;
    push_todo(
        todo,
        Todo::Piece(Piece::Field(name, package, field.embedded)),
    )?;
    Ok(())
}

fn push_fields(alloc: Global, todo: &mut Vec<Todo>, fields: &[Field]) -> Result<(), NoMemory>
    ensures pending { OnOk result ((types : List GoType) (rest : List Piece) → pending types todo.new.items rest ≡ fields_row (fields_of types fields.now) (pending types todo.old.items rest)) }
    ensures within { OnOk result ((n : ℕ) → FieldsBelow n fields.now → AreIn n todo.old.items → AreIn n todo.new.items) }
    ensures pieces { OnOk result (piece_count todo.old.items ≤ piece_count todo.new.items) }
{
    for k in 0..fields.len() {
        push_field(alloc, todo, &fields[fields.len() - 1 - k])?;
    }
    Ok(())
}

/// A method's name and signature come before all that is still to come.
fn push_method(alloc: Global, todo: &mut Vec<Todo>, method: &Method) -> Result<(), NoMemory>
    ensures pending { OnOk result ((types : List GoType) (rest : List Piece) → pending types todo.new.items rest ≡ method_row types method.now (pending types todo.old.items rest)) }
    ensures within { OnOk result ((n : ℕ) → SignatureBelow n method.now.of → AreIn n todo.old.items → AreIn n todo.new.items) }
    ensures pieces { OnOk result (piece_count todo.old.items < piece_count todo.new.items) }
{
    let name = method.name.copy(alloc)?;
    let package = method.package.copy(alloc)?;
    push_signature(todo, &method.of)?;
    push_todo(todo, Todo::Piece(Piece::Signature(method.of.variadic)))?;
    push_todo(
        todo,
        Todo::Piece(Piece::Method(name, package, method.pointer)),
    )?;
    Ok(())
}

fn push_methods(alloc: Global, todo: &mut Vec<Todo>, methods: &[Method]) -> Result<(), NoMemory>
    ensures pending { OnOk result ((types : List GoType) (rest : List Piece) → pending types todo.new.items rest ≡ methods_row (methods_of types methods.now) (pending types todo.old.items rest)) }
    ensures within { OnOk result ((n : ℕ) → MethodsBelow n methods.now → AreIn n todo.old.items → AreIn n todo.new.items) }
    ensures pieces { OnOk result (piece_count todo.old.items ≤ piece_count todo.new.items) }
{
    for k in 0..methods.len() {
        push_method(alloc, todo, &methods[methods.len() - 1 - k])?;
    }
    Ok(())
}

/// A defined type, copied.
fn name_piece(alloc: Global, name: &TypeName) -> Result<Piece, NoMemory>
    ensures { IfOk result (λ p. p ≡ piece.Defined name.now) }
{
    let package = name.package.copy(alloc)?;
    let copy = name.name.copy(alloc)?;
    Ok(Piece::Defined(TypeName {
        package,
        name: copy,
        local: name.local,
    }))
}

/// One type behind a piece.
fn push_over(todo: &mut Vec<Todo>, front: Piece, of: TypeId) -> Result<(), NoMemory>
    ensures pending { OnOk result ((types : List GoType) (rest : List Piece) → pending types todo.new.items rest ≡ front ∷ type_row (type_at types of) (pending types todo.old.items rest)) }
    ensures within { OnOk result ((n : ℕ) → of.0 < n → AreIn n todo.old.items → AreIn n todo.new.items) }
    ensures pieces { OnOk result (piece_count todo.old.items < piece_count todo.new.items) }
{
    push_todo(todo, Todo::Type(of))?;
    push_todo(todo, Todo::Piece(front))?;
    Ok(())
}

fn push_map(todo: &mut Vec<Todo>, key: TypeId, of: TypeId) -> Result<(), NoMemory>
    ensures pending { OnOk result ((types : List GoType) (rest : List Piece) → pending types todo.new.items rest ≡ piece.Map ∷ type_row (type_at types key) (type_row (type_at types of) (pending types todo.old.items rest))) }
    ensures within { OnOk result ((n : ℕ) → key.0 < n → of.0 < n → AreIn n todo.old.items → AreIn n todo.new.items) }
    ensures pieces { OnOk result (piece_count todo.old.items < piece_count todo.new.items) }
{
    push_todo(todo, Todo::Type(of))?;
    push_over(todo, Piece::Map, key)?;
    Ok(())
}

fn push_func(todo: &mut Vec<Todo>, of: &Signature) -> Result<(), NoMemory>
    ensures pending { OnOk result ((types : List GoType) (rest : List Piece) → pending types todo.new.items rest ≡ piece.Func of.now.variadic ∷ signature_row (signature_of types of.now) (pending types todo.old.items rest)) }
    ensures within { OnOk result ((n : ℕ) → SignatureBelow n of.now → AreIn n todo.old.items → AreIn n todo.new.items) }
    ensures pieces { OnOk result (piece_count todo.old.items < piece_count todo.new.items) }
{
    push_signature(todo, of)?;
    push_todo(todo, Todo::Piece(Piece::Func(of.variadic)))?;
    Ok(())
}

#[tactic(auto, using(crate::proofs::PendingLaws::fields_counted))]
fn push_struct(alloc: Global, todo: &mut Vec<Todo>, fields: &[Field]) -> Result<(), NoMemory>
    ensures pending { OnOk result ((types : List GoType) (rest : List Piece) → pending types todo.new.items rest ≡ piece.Struct (field_count (fields_of types fields.now)) ∷ fields_row (fields_of types fields.now) (pending types todo.old.items rest)) }
    ensures within { OnOk result ((n : ℕ) → FieldsBelow n fields.now → AreIn n todo.old.items → AreIn n todo.new.items) }
    ensures pieces { OnOk result (piece_count todo.old.items < piece_count todo.new.items) }
{
    push_fields(alloc, todo, fields)?;
    push_todo(todo, Todo::Piece(Piece::Struct(fields.len() as u64)))?;
    Ok(())
}

#[tactic(auto, using(crate::proofs::PendingLaws::methods_counted))]
fn push_interface(alloc: Global, todo: &mut Vec<Todo>, methods: &[Method]) -> Result<(), NoMemory>
    ensures pending { OnOk result ((types : List GoType) (rest : List Piece) → pending types todo.new.items rest ≡ piece.Interface (method_count (methods_of types methods.now)) ∷ methods_row (methods_of types methods.now) (pending types todo.old.items rest)) }
    ensures within { OnOk result ((n : ℕ) → MethodsBelow n methods.now → AreIn n todo.old.items → AreIn n todo.new.items) }
    ensures pieces { OnOk result (piece_count todo.old.items < piece_count todo.new.items) }
{
    push_methods(alloc, todo, methods)?;
    push_todo(todo, Todo::Piece(Piece::Interface(methods.len() as u64)))?;
    Ok(())
}

/// The pieces of a term come before all that is still to come.
fn push_term(alloc: Global, todo: &mut Vec<Todo>, term: &Term) -> Result<(), NoMemory>
    ensures pending { OnOk result ((types : List GoType) (rest : List Piece) → pending types todo.new.items rest ≡ type_row (type_of types term.now) (pending types todo.old.items rest)) }
    ensures within { OnOk result ((n : ℕ) → IsOver n term.now → AreIn n todo.old.items → AreIn n todo.new.items) }
    ensures pieces { OnOk result (piece_count todo.old.items < piece_count todo.new.items) }
{
    match term {
        Term::Basic(kind) => {
            push_todo(todo, Todo::Piece(Piece::Basic(*kind)))?;
            Ok(())
        }
        Term::Defined(name) => {
            let piece = name_piece(alloc, name)?;
            push_todo(todo, Todo::Piece(piece))?;
            Ok(())
        }
        Term::Pointer(of) => {
            push_over(todo, Piece::Pointer, *of)?;
            Ok(())
        }
        Term::Slice(of) => {
            push_over(todo, Piece::Slice, *of)?;
            Ok(())
        }
        Term::Array(size, of) => {
            push_over(todo, Piece::Array(*size), *of)?;
            Ok(())
        }
        Term::Map(key, of) => {
            push_map(todo, *key, *of)?;
            Ok(())
        }
        Term::Chan(direction, of) => {
            push_over(todo, Piece::Chan(*direction), *of)?;
            Ok(())
        }
        Term::Func(of) => {
            push_func(todo, of)?;
            Ok(())
        }
        Term::Struct(fields) => {
            push_struct(alloc, todo, fields.as_slice())?;
            Ok(())
        }
        Term::Interface(methods) => {
            push_interface(alloc, todo, methods.as_slice())?;
            Ok(())
        }
    }
}

/// How many nodes of the type a piece counts as.
fn nodes_of(piece: &Piece) -> u64
    ensures { result ≡ node_of piece.now }
{
    match piece {
        Piece::Basic(_) => 1,
        Piece::Defined(_) => 1,
        Piece::Pointer => 1,
        Piece::Slice => 1,
        Piece::Array(_) => 1,
        Piece::Map => 1,
        Piece::Chan(_) => 1,
        Piece::Func(_) => 1,
        Piece::List(_) => 0,
        Piece::Struct(_) => 1,
        Piece::Field(_, _, _) => 0,
        Piece::Tag(_) => 0,
        Piece::Interface(_) => 1,
        Piece::Method(_, _, _) => 0,
        Piece::Signature(_) => 1,
    }
}

fn nodes_next(next: &Todo) -> u64
    ensures { result ≡ todo_nodes next.now }
{
    match next {
        Todo::Type(_) => 0,
        Todo::Piece(piece) => nodes_of(piece),
    }
}

/// How many more nodes a row may have, with what comes next. Unspelled where that is too much.
fn left_with(next: &Todo, left: u64) -> Result<u64, Unread>
    ensures is { IfOk result (λ less. less + todo_nodes next.now ≡ left) }
    ensures enough { Tells (todo_nodes next.now ≤ left) result }
{
    let nodes = nodes_next(next);
    if left < nodes {
        return Err(Unread::Unspelled);
    }
    Ok(left - nodes)
}

/// A piece goes to the row; a type is opened.
#[tactic(auto, using(crate::proofs::WriteLaws::nodes_push))]
fn step(
    alloc: Global,
    table: &TypeTable,
    next: Todo,
    todo: &mut Vec<Todo>,
    row: &mut Vec<Piece>,
) -> Result<(), NoMemory>
    requires table { IsTable table.now }
    requires within { IsIn (count table.now) next }
    ensures pending { OnOk result ((rest : List Piece) → row.new.items ++ pending (types_in table.now) todo.new.items rest ≡ row.old.items ++ one_row (types_in table.now) next (pending (types_in table.now) todo.old.items rest)) }
    ensures nodes { OnOk result (nodes_in row.new.items ≡ nodes_in row.old.items + todo_nodes next) }
    ensures within { OnOk result (AreIn (count table.now) todo.old.items → AreIn (count table.now) todo.new.items) }
    ensures fewer { OnOk result (steps_left (types_in table.now) todo.new.items < steps_left (types_in table.now) (todo.old.items ++ next ∷ [])) }
{
    match next {
        Todo::Piece(piece) => {
            row.push(piece)?;
            Ok(())
        }
        Todo::Type(of) => {
            push_term(alloc, todo, table.term(of))?;
            Ok(())
        }
    }
}

fn one_todo(alloc: Global, id: TypeId) -> Result<Vec<Todo>, NoMemory>
    ensures pending { IfOk result (λ todo. (types : List GoType) (rest : List Piece) → pending types todo.items rest ≡ type_row (type_at types id) rest) }
    ensures within { IfOk result (λ todo. (n : ℕ) → id.0 < n → AreIn n todo.items) }
{
    let mut todo = Vec::with_capacity(alloc, ROOM)?;
    push_todo(&mut todo, Todo::Type(id))?;
    Ok(todo)
}

/// What of a function type with this signature is to be put into a row: all of it.
fn function_todo(alloc: Global, of: &Signature) -> Result<Vec<Todo>, NoMemory>
    ensures pending { IfOk result (λ todo. (types : List GoType) (rest : List Piece) → pending types todo.items rest ≡ type_row (FuncOf (signature_of types of.now)) rest) }
    ensures within { IfOk result (λ todo. (n : ℕ) → SignatureBelow n of.now → AreIn n todo.items) }
{
    let mut todo = Vec::with_capacity(alloc, ROOM)?;
    push_func(&mut todo, of)?;
    Ok(todo)
}

/// All that is still to come, of at most 10,000 nodes.
fn rest_of(alloc: Global, table: &TypeTable, todo: Vec<Todo>) -> Result<Vec<Piece>, Unread>
    requires table { IsTable table.now }
    requires within { AreIn (count table.now) todo.items }
    ensures is { IfOk result (λ row. row.items ≡ pending (types_in table.now) todo.items []) }
    ensures small { Tells (nodes_in (pending (types_in table.now) todo.items []) ≤ 10000) result }
{
    let mut todo = todo;
    let mut row = Vec::with_capacity(alloc, ROOM)?;
    let mut left = 10_000;
    while let Some(next) = todo.pop() {
        let less = left_with(&next, left)?;
        left = less;
        step(alloc, table, next, &mut todo, &mut row)?;
    }
    Ok(row)
}

/// The pieces of a numbered type. It has at most 10,000 nodes.
#[tactic(auto, using(crate::proofs::WriteLaws::small_row))]
pub fn row_of(alloc: Global, table: &TypeTable, id: TypeId) -> Result<Vec<Piece>, Unread>
    requires table { IsTable table.now }
    requires within { id.0 < count table.now }
    ensures is { IfOk result (λ row. row.items ≡ type_row (type_at (types_in table.now) id) []) }
    ensures small { Tells (nodes (type_at (types_in table.now) id) ≤ 10000) result }
{
    let todo = one_todo(alloc, id)?;
    let row = rest_of(alloc, table, todo)?;
    Ok(row)
}

/// The pieces of the function type with this signature.
#[tactic(auto, using(crate::proofs::WriteLaws::small_row))]
pub fn function_row(alloc: Global, table: &TypeTable, of: &Signature) -> Result<Vec<Piece>, Unread>
    requires table { IsTable table.now }
    requires within { SignatureBelow (count table.now) of.now }
    ensures is { IfOk result (λ row. row.items ≡ type_row (FuncOf (signature_of (types_in table.now) of.now)) []) }
    ensures small { Tells (nodes (FuncOf (signature_of (types_in table.now) of.now)) ≤ 10000) result }
{
    let todo = function_todo(alloc, of)?;
    let row = rest_of(alloc, table, todo)?;
    Ok(row)
}
