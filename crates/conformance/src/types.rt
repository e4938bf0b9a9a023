//! How types relate: lines that name types, and questions about them.
ghost use Rattle.std.specs.Prelude.{OnOk};
ghost use Rattle.type_model.specs.GoTypes.{AreBelow};
ghost use Rattle.type_model.specs.Tables.{IsTable, count};

mod answer;
mod declare;
mod form;
mod name;

use answer::write_answer;
use anyhow::{Result, bail};
use declare::enter;
use std::alloc::Global;
use type_model::{TypeId, TypeTable};

/// Enters the type of a line `NAME = FORM`, or writes the answer to a question.
#[tactic(auto, using(crate::proofs::GrowthLaws::below_push))]
fn read_line<'a>(
    out: &mut String,
    alloc: Global,
    line: &'a str,
    t: &mut TypeTable,
    names: &mut Vec<&'a str>,
    ids: &mut Vec<TypeId>,
) -> Result<()>
    requires table { IsTable t.old }
    requires below { AreBelow (count t.old) ids.old.items }
    ensures table { OnOk result (IsTable t.new) }
    ensures below { OnOk result (AreBelow (count t.new) ids.new.items) }
{
    match line.split_once(" = ") {
        Some((name, form)) => {
            let id = enter(alloc, t, names, ids, name, form)?;
            names.push(name)?;
            ids.push(id)?;
            Ok(())
        }
        None => {
            write_answer(out, alloc, t, names, ids, line)?;
            Ok(())
        }
    }
}

/// Reads the lines of a text.
fn read_lines<'a>(
    out: &mut String,
    alloc: Global,
    text: &'a str,
    t: &mut TypeTable,
    names: &mut Vec<&'a str>,
    ids: &mut Vec<TypeId>,
) -> Result<()>
    requires table { IsTable t.old }
    requires below { AreBelow (count t.old) ids.old.items }
    ensures table { OnOk result (IsTable t.new) }
    ensures below { OnOk result (AreBelow (count t.new) ids.new.items) }
{
    for line in text.lines() {
        read_line(out, alloc, line, t, names, ids)?;
    }
    Ok(())
}

/// The questions of the texts, each with its answer, about the types that the texts name.
pub fn answers(alloc: Global, texts: &[&[u8]]) -> Result<String> {
    let mut out = String::new(alloc);
    let Ok(mut t) = TypeTable::new(alloc) else {
        bail!("no memory");
    };
    let mut names = Vec::new(alloc);
    let mut ids = Vec::new(alloc);
    for bytes in texts {
        let text = std::str::from_utf8(bytes)?;
        read_lines(&mut out, alloc, text, &mut t, &mut names, &mut ids)?;
    }
    Ok(out)
}
