//! Operands that questions are about.
ghost use Rattle.std.specs.Prelude.{◌≡◌, IfOk};
ghost use Rattle.std.specs.Option.{option_copied};
ghost use Rattle.typed_marks.specs.Meanings.{constant_at};

use gv_base::{Const, NoMemory};
use std::alloc::Global;
use type_model::TypeId;
use type_rel::Operand;
use typed_marks::{ConstId, State};

fn constant_at<'a>(s: &'a State, value: Option<ConstId>) -> Option<&'a Const>
    ensures { option_copied result ≡ constant_at s.now.constants.items value }
{
    match value {
        Some(id) => s.constants.get(id.0 as usize),
        None => None,
    }
}

fn copied_constant(alloc: Global, c: &Const) -> Result<Const, NoMemory>
    ensures { IfOk result (λ copy. copy ≡ c.now) }
{
    match c {
        Const::Truth(b) => Ok(Const::Truth(*b)),
        Const::Int(n) => Ok(Const::Int(*n)),
        Const::Text(text) => {
            let copy = text.copy(alloc)?;
            Ok(Const::Text(copy))
        }
    }
}

fn copied(alloc: Global, value: Option<&Const>) -> Result<Option<Const>, NoMemory>
    ensures { IfOk result (λ copy. copy ≡ option_copied value.entry) }
{
    match value {
        Some(c) => {
            let copy = copied_constant(alloc, c)?;
            Ok(Some(copy))
        }
        None => Ok(None),
    }
}

/// An operand of a type and, where it is a constant, of a value.
pub fn operand(
    alloc: Global,
    s: &State,
    of: TypeId,
    value: Option<ConstId>,
) -> Result<Operand, NoMemory>
    ensures of { IfOk result (λ x. x.of ≡ of) }
    ensures value { IfOk result (λ x. x.value ≡ constant_at s.now.constants.items value) }
{
    let value = copied(alloc, constant_at(s, value))?;
    Ok(Operand { of, value })
}
