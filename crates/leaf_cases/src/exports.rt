//! Export texts over a table of types: what is read, which is written as the same bytes, what it mentions, and what is exported of its
//! objects.
use crate::spelled::Reading;
use crate::told::{add, add_value, said, unread};
use export_text::{export, mentions, text_mentions, write};
use gv_base::{NoMemory, Text};
use package_faces::{ExportForm, Exported, ExportedType, Interface};
use std::alloc::Global;
use type_model::TypeTable;

/// Adds what a name is exported as.
fn add_form(alloc: Global, out: &mut Vec<u8>, form: &ExportForm) -> Result<(), NoMemory> {
    match form {
        ExportForm::Constant(_, value) => add_value(alloc, out, value),
        ExportForm::Variable(_) => add(out, "variable"),
        ExportForm::Function(_) => add(out, "function"),
        ExportForm::Own(_) => add(out, "type"),
        ExportForm::Alias(_) => add(out, "alias"),
    }
}

/// Adds the objects, each with its name.
fn add_objects(alloc: Global, out: &mut Vec<u8>, objects: &[Exported]) -> Result<(), NoMemory> {
    for object in objects {
        let text = format!(in alloc; ", {} ", object.name.as_str())?;
        add(out, text.as_str())?;
        add_form(alloc, out, &object.form)?;
    }
    Ok(())
}

/// Adds the defined types, each with its name and those of its methods.
fn add_types(out: &mut Vec<u8>, types: &[ExportedType]) -> Result<(), NoMemory> {
    for defined in types {
        add(out, "; ")?;
        add(out, defined.name.as_str())?;
        for method in defined.methods.as_slice() {
            add(out, ".")?;
            add(out, method.name.as_str())?;
        }
    }
    Ok(())
}

/// An interface: its path and its name, its objects, its defined types, and the packages that it mentions.
fn told(alloc: Global, read: &Interface) -> Result<Vec<u8>, NoMemory> {
    let mut says = said(alloc, read.path.as_str())?;
    add(&mut says, " ")?;
    add(&mut says, read.name.as_str())?;
    add_objects(alloc, &mut says, read.objects.as_slice())?;
    add_types(&mut says, read.types.as_slice())?;
    Ok(says)
}

/// Adds the packages that an interface mentions.
fn add_mentions(out: &mut Vec<u8>, paths: &[Text]) -> Result<(), NoMemory> {
    for path in paths {
        add(out, " <- ")?;
        add(out, path.as_str())?;
    }
    Ok(())
}

/// Whether the same packages are told twice.
fn are_same(a: &[Text], b: &[Text]) -> bool {
    if a.len() != b.len() {
        return false;
    }
    for i in 0..a.len() {
        if a[i].as_str() != b[i].as_str() {
            return false;
        }
    }
    true
}

/// What is read of bytes that are to spell an interface.
pub fn read(alloc: Global, bytes: &[u8]) -> Result<Option<Reading>, NoMemory> {
    let mut table = TypeTable::new(alloc)?;
    let found = export_text::read(alloc, &mut table, bytes)?;
    let Some(read) = found else {
        return Ok(None);
    };
    let written = write(alloc, &table, &read)?;
    let again = written.unwrap_or(Vec::new(alloc));
    let mut says = told(alloc, &read)?;
    let paths = mentions(alloc, &table, &read)?;
    add_mentions(&mut says, &paths)?;
    let gathered = text_mentions(alloc, bytes)?;
    if !are_same(&paths, &gathered) {
        add(&mut says, " and other ones in its text")?;
    }
    Ok(Some(Reading { says, again }))
}

/// The export text of the objects that the bytes spell, over a table in which nothing is declared.
pub fn exported(alloc: Global, bytes: &[u8]) -> Result<Vec<u8>, NoMemory> {
    let mut table = TypeTable::new(alloc)?;
    let found = export_text::read(alloc, &mut table, bytes)?;
    let Some(read) = found else {
        return unread(alloc);
    };
    let text = export(alloc, &table, read.path, read.name, read.objects)?;
    match text {
        Some(text) => Ok(text),
        None => said(alloc, "none"),
    }
}
