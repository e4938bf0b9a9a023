//! What is looked for next: in a part, at an object that is mentioned, in a declaration.
ghost use Rattle.std.specs.Prelude.{◌≡◌, ◌++◌, ◌∷◌, [], ◌&&◌, if◌then◌else◌, OnOk};
ghost use Rattle.object_order.specs.Spots.{spots, is_block, is_array, is_interface, is_name, is_paren, is_plain, descends, below, crosses, joins, types, besides, restings, enters};
ghost use Rattle.object_order.specs.Trimmed.{is_inner, is_joined};

use crate::spot::{Form, Mode, Role, Spot};
use go_tree::{NodeKind, NodeRef};
use gv_base::NoMemory;

/// Whether a node is the body of a function, or another block.
pub fn is_body(kind: NodeKind) -> bool
    ensures { result ≡ is_block kind }
{
    match kind {
        NodeKind::Block => true,
        _ => false,
    }
}

/// Whether it is looked for in a node, and not at an object.
pub fn is_inner(mode: Mode) -> bool
    ensures { result ≡ is_inner mode }
{
    match mode {
        Mode::Needs => false,
        Mode::Reach => false,
        Mode::Steps => false,
        Mode::Follow => false,
        Mode::Kin => false,
        Mode::Direct => true,
        Mode::Lengths => true,
        Mode::Whole => true,
        Mode::Aliases => true,
        Mode::AliasSteps => true,
        Mode::Embeds => true,
        Mode::Alone => true,
    }
}

/// Whether the methods of a type matter.
pub fn is_joined(mode: Mode) -> bool
    ensures { result ≡ is_joined mode }
{
    match mode {
        Mode::Reach => true,
        Mode::Kin => true,
        _ => false,
    }
}

fn is_array_type(kind: NodeKind) -> bool
    ensures { result ≡ is_array kind }
{
    match kind {
        NodeKind::ArrayType => true,
        _ => false,
    }
}

fn is_interface_type(kind: NodeKind) -> bool
    ensures { result ≡ is_interface kind }
{
    match kind {
        NodeKind::InterfaceType => true,
        _ => false,
    }
}

fn is_name_node(kind: NodeKind) -> bool
    ensures { result ≡ is_name kind }
{
    match kind {
        NodeKind::Name => true,
        _ => false,
    }
}

fn is_parenthesized(kind: NodeKind) -> bool
    ensures { result ≡ is_paren kind }
{
    match kind {
        NodeKind::Paren => true,
        _ => false,
    }
}

/// Whether what a type has in the parts of such a node it still has directly.
fn keeps_direct(kind: NodeKind) -> bool
    ensures { result ≡ is_plain kind }
{
    match kind {
        NodeKind::Paren => true,
        NodeKind::Selector => true,
        NodeKind::ArrayType => true,
        NodeKind::StructType => true,
        NodeKind::Field => true,
        NodeKind::Embedded => true,
        NodeKind::InterfaceType => true,
        _ => false,
    }
}

/// Adds what is looked for at a node.
fn lay(row: &mut Vec<Spot>, modes: &[Mode], at: NodeRef) -> Result<(), NoMemory>
    ensures { OnOk result (row.new.items ≡ row.old.items ++ spots modes.now at) }
{
    for mode in modes {
        row.push(Spot { mode: *mode, at })?;
    }
    Ok(())
}

/// Adds this mode where the choice is so.
fn lay_if(row: &mut Vec<Spot>, choice: bool, mode: Mode, at: NodeRef) -> Result<(), NoMemory>
    ensures { OnOk result (row.new.items ≡ row.old.items ++ spots (if choice then mode ∷ [] else []) at) }
{
    if choice {
        row.push(Spot { mode, at })?;
    }
    Ok(())
}

/// Adds the one modes or the others.
fn lay_either(
    row: &mut Vec<Spot>,
    choice: bool,
    one: &[Mode],
    other: &[Mode],
    at: NodeRef,
) -> Result<(), NoMemory>
    ensures { OnOk result (row.new.items ≡ row.old.items ++ spots (if choice then one.now else other.now) at) }
{
    if choice {
        lay(row, one, at)
    } else {
        lay(row, other, at)
    }
}

fn both(a: bool, b: bool) -> bool
    ensures { result ≡ (a && b) }
{
    a && b
}

/// Adds what is looked for in a part that is no body.
fn lay_below(
    row: &mut Vec<Spot>,
    mode: Mode,
    kind: NodeKind,
    first: bool,
    part: NodeKind,
    at: NodeRef,
) -> Result<(), NoMemory>
    ensures { OnOk result (row.new.items ≡ row.old.items ++ spots (below mode kind first part) at) }
{
    match mode {
        Mode::Direct => lay_if(row, keeps_direct(kind), Mode::Direct, at),
        Mode::Lengths => {
            let counts = both(is_array_type(kind), first);
            lay_either(row, counts, &[Mode::Whole], &[Mode::Lengths], at)
        }
        Mode::Whole => lay(row, &[Mode::Whole], at),
        Mode::Aliases => lay(row, &[Mode::Aliases], at),
        Mode::AliasSteps => lay(row, &[Mode::AliasSteps], at),
        Mode::Embeds => {
            let embeds = both(is_interface_type(kind), is_name_node(part));
            lay_either(
                row,
                embeds,
                &[Mode::Alone, Mode::Embeds],
                &[Mode::Embeds],
                at,
            )
        }
        Mode::Alone => lay_if(row, is_parenthesized(kind), Mode::Alone, at),
        _ => Ok(()),
    }
}

/// Adds what is looked for in a part of a node, unless the part is a body.
pub fn lay_descent(
    row: &mut Vec<Spot>,
    mode: Mode,
    kind: NodeKind,
    first: bool,
    part: NodeKind,
    at: NodeRef,
) -> Result<(), NoMemory>
    ensures { OnOk result (row.new.items ≡ row.old.items ++ spots (descends mode kind first part) at) }
{
    if is_body(part) {
        return Ok(());
    }
    lay_below(row, mode, kind, first, part, at)
}

/// Adds what is looked for at an object that is mentioned.
pub fn lay_crossing(
    row: &mut Vec<Spot>,
    mode: Mode,
    form: Form,
    at: NodeRef,
) -> Result<(), NoMemory>
    ensures { OnOk result (row.new.items ≡ row.old.items ++ spots (crosses mode form) at) }
{
    match (mode, form) {
        (Mode::Direct, _) => lay(row, &[Mode::Needs], at),
        (Mode::Whole, _) => lay(row, &[Mode::Needs, Mode::Reach], at),
        (Mode::Aliases, Form::Alias) => lay(row, &[Mode::Needs], at),
        (Mode::AliasSteps, Form::Alias) => lay(row, &[Mode::Steps], at),
        (Mode::Alone, Form::Alias) => lay(row, &[Mode::Follow], at),
        (Mode::Alone, Form::Defined) => lay(row, &[Mode::Steps], at),
        _ => Ok(()),
    }
}

/// Adds what is looked for at a method of a type, or at another name for it.
pub fn lay_kin(row: &mut Vec<Spot>, mode: Mode, form: Form, at: NodeRef) -> Result<(), NoMemory>
    ensures { OnOk result (row.new.items ≡ row.old.items ++ spots (joins mode form) at) }
{
    match (mode, form) {
        (Mode::Reach, Form::Alias) => lay(row, &[Mode::Kin], at),
        (Mode::Reach, Form::Other) => lay(row, &[Mode::Reach], at),
        (Mode::Kin, Form::Alias) => lay(row, &[Mode::Kin], at),
        (Mode::Kin, Form::Other) => lay(row, &[Mode::Reach], at),
        _ => Ok(()),
    }
}

/// Adds what is looked for in the type of a declaration.
fn lay_type(row: &mut Vec<Spot>, mode: Mode, form: Form, at: NodeRef) -> Result<(), NoMemory>
    ensures { OnOk result (row.new.items ≡ row.old.items ++ spots (types mode form) at) }
{
    match (mode, form) {
        (Mode::Needs, Form::Alias) => {
            lay(row, &[Mode::Direct, Mode::Lengths, Mode::Aliases], at)
        }
        (Mode::Needs, _) => lay(row, &[Mode::Direct, Mode::Lengths], at),
        (Mode::Reach, _) => lay(row, &[Mode::Whole], at),
        (Mode::Steps, Form::Alias) => lay(row, &[Mode::AliasSteps, Mode::Embeds], at),
        (Mode::Steps, Form::Defined) => {
            lay(row, &[Mode::AliasSteps, Mode::Embeds, Mode::Alone], at)
        }
        (Mode::Follow, Form::Alias) => lay(row, &[Mode::Alone], at),
        _ => Ok(()),
    }
}

/// Adds what is looked for in an expression on which nothing rests.
fn lay_beside(row: &mut Vec<Spot>, mode: Mode, at: NodeRef) -> Result<(), NoMemory>
    ensures { OnOk result (row.new.items ≡ row.old.items ++ spots (besides mode) at) }
{
    match mode {
        Mode::Needs => lay(row, &[Mode::Lengths], at),
        Mode::Reach => lay(row, &[Mode::Whole], at),
        _ => Ok(()),
    }
}

/// Adds what is looked for in an expression on which a type or value rests.
fn lay_resting(row: &mut Vec<Spot>, mode: Mode, at: NodeRef) -> Result<(), NoMemory>
    ensures { OnOk result (row.new.items ≡ row.old.items ++ spots (restings mode) at) }
{
    match mode {
        Mode::Needs => lay(row, &[Mode::Whole], at),
        Mode::Reach => lay(row, &[Mode::Whole], at),
        _ => Ok(()),
    }
}

/// Adds what is looked for in a node of a declaration.
pub fn lay_entry(
    row: &mut Vec<Spot>,
    mode: Mode,
    form: Form,
    role: Role,
    at: NodeRef,
) -> Result<(), NoMemory>
    ensures { OnOk result (row.new.items ≡ row.old.items ++ spots (enters mode form role) at) }
{
    match role {
        Role::Typing => lay_type(row, mode, form, at),
        Role::Beside => lay_beside(row, mode, at),
        Role::Resting => lay_resting(row, mode, at),
    }
}
