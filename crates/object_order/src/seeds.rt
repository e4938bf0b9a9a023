//! From where the search goes out.
ghost use Rattle.std.specs.Prelude.{◌≡◌, ◌++◌, IfOk, OnOk};
ghost use Rattle.object_order.specs.Names.{has_steps, steps_of, seeds_of, seeds as seeds_in};

use crate::spot::{Entry, Form, Mode, Spot};
use gv_base::NoMemory;
use std::alloc::Global;

/// Whether steps lead on from such a name.
fn has_steps(form: Form) -> bool
    ensures { result ≡ has_steps form }
{
    match form {
        Form::Other => false,
        Form::Defined => true,
        Form::Alias => true,
    }
}

/// Adds the spot of the steps of a type.
fn add_steps(list: &mut Vec<Spot>, entry: &Entry) -> Result<(), NoMemory>
    ensures { OnOk result (list.new.items ≡ list.old.items ++ steps_of entry.now) }
{
    if has_steps(entry.form) {
        list.push(Spot {
            mode: Mode::Steps,
            at: entry.name,
        })?;
    }
    Ok(())
}

/// Adds the spots of one declaration.
fn add_seeds(list: &mut Vec<Spot>, entry: &Entry) -> Result<(), NoMemory>
    ensures { OnOk result (list.new.items ≡ list.old.items ++ seeds_of entry.now) }
{
    list.push(Spot {
        mode: Mode::Needs,
        at: entry.name,
    })?;
    add_steps(list, entry)?;
    Ok(())
}

/// The spots of all declarations.
pub fn seeds(alloc: Global, entries: &Vec<Entry>) -> Result<Vec<Spot>, NoMemory>
    ensures { IfOk result (λ list. list.items ≡ seeds_in entries.now.items) }
{
    let mut list = Vec::new(alloc);
    for entry in entries {
        add_seeds(&mut list, entry)?;
    }
    Ok(list)
}
