//! What the use in the small file denotes, by its import, and where no declaration of a name is known.
use crate::sample::{SOURCE, sample};
use bind::{bind, undeclared};
use go_tree::{NodeRef, Object};
use gv_base::{Bytes, NoMemory, Text};
use std::alloc::Global;
use std::test::Fail;

fn text(alloc: Global, text: &str) -> Result<Text, NoMemory> {
    Ok(Text::new(String::from_str(alloc, text)?))
}

/// What the use denotes where the import leads to a package of this name.
fn used(alloc: Global, name: &str) -> Result<Option<Object>, NoMemory> {
    let files = vec![in alloc; sample(alloc)?]?;
    let bytes = Bytes::new(SOURCE.to_vec(alloc)?);
    let sources = vec![in alloc; (text(alloc, "p.go")?, bytes)]?;
    let named = vec![in alloc; (text(alloc, "x")?, text(alloc, name)?)]?;
    let bindings = bind(alloc, &files, &sources, &named)?;
    Ok(bindings.declaration(NodeRef { file: 0, node: 5 }))
}

/// Whether no declaration of the name is known at the use, where the import leads to a package of this name.
fn unknown(alloc: Global, package_name: &str, name: &[u8]) -> Result<Option<bool>, NoMemory> {
    let files = vec![in alloc; sample(alloc)?]?;
    let bytes = Bytes::new(SOURCE.to_vec(alloc)?);
    let sources = vec![in alloc; (text(alloc, "p.go")?, bytes)]?;
    let named = vec![in alloc; (text(alloc, "x")?, text(alloc, package_name)?)]?;
    let rows = undeclared(alloc, &files, &sources, &named, name)?;
    match rows.first() {
        Some(row) => Ok(row.get(5).copied()),
        None => Ok(None),
    }
}

#[test]
fn an_import_by_its_package(rt: HostRuntime) -> Result<(), Fail> {
    let spec = NodeRef { file: 0, node: 2 };
    assert_eq!(rt; used(rt.alloc(), "c")?, Some(Object::Import(spec)));
    assert_eq!(rt; used(rt.alloc(), "x")?, None);
    Ok(())
}

#[test]
fn names_that_are_declared(rt: HostRuntime) -> Result<(), Fail> {
    assert_eq!(rt; unknown(rt.alloc(), "x", b"c")?, Some(true));
    assert_eq!(rt; unknown(rt.alloc(), "c", b"c")?, Some(false));
    assert_eq!(rt; unknown(rt.alloc(), "x", b"T")?, Some(false));
    Ok(())
}
