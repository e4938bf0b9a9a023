//! A small tree whose heads differ from test to test, with its packages, their states and their order worked out by hand.
use go_tree::{Head, ImportLine, LocalName};
use gv_base::{Bytes, Files, NoMemory, Place, Row};
use import_graph::{PackState, Package, module_path, order, packages, packages_can_be_ordered};
use std::alloc::Global;
use std::test::Fail;

/// An import. A path behind a `.` is a dot import's.
fn import(alloc: Global, path: &[u8], at: u32) -> Result<ImportLine, NoMemory> {
    match path {
        [b'.', rest @ ..] => Ok(ImportLine {
            path: Bytes::new(rest.to_vec(alloc)?),
            at,
            local: LocalName::Dot,
        }),
        _ => Ok(ImportLine {
            path: Bytes::new(path.to_vec(alloc)?),
            at,
            local: LocalName::Default,
        }),
    }
}

/// A head whose name stands at 8, and whose imports stand at 0, 1, and so on. No name stands for no head.
fn head(alloc: Global, name: &[u8], imports: &[&[u8]]) -> Result<Option<Head>, NoMemory> {
    if name.is_empty() {
        return Ok(None);
    }
    let mut lines = Vec::new(alloc);
    let mut at = 0;
    for path in imports {
        lines.push(import(alloc, path, at)?)?;
        at = at.wrapping_add(1);
    }
    let name = Bytes::new(name.to_vec(alloc)?);
    let imports = Row::new(lines);
    Ok(Some(Head {
        name,
        name_at: 8,
        imports,
        constraint: None,
    }))
}

fn put_digit(out: &mut Vec<u8>, n: u32) -> Result<(), NoMemory> {
    let digits = b"0123456789".as_slice();
    if (n as usize) < digits.len() {
        out.push(digits[n as usize])?;
    }
    Ok(())
}

fn put_digits(out: &mut Vec<u8>, numbers: &[u32]) -> Result<(), NoMemory> {
    for n in numbers {
        put_digit(out, *n)?;
    }
    Ok(())
}

fn put_places(out: &mut Vec<u8>, places: &[Place]) -> Result<(), NoMemory> {
    for place in places {
        out.push(b' ')?;
        put_digit(out, place.file)?;
        out.push(b'@')?;
        put_digit(out, place.offset)?;
    }
    Ok(())
}

fn put_state(out: &mut Vec<u8>, state: &PackState) -> Result<(), NoMemory> {
    match state {
        PackState::Broken => out.extend_from_slice(b" broken")?,
        PackState::NameClash(places) => {
            out.extend_from_slice(b" clash")?;
            put_places(out, places.as_slice())?;
        }
        PackState::MissingImport(places) => {
            out.extend_from_slice(b" missing")?;
            put_places(out, places.as_slice())?;
        }
        PackState::ImportCycle => out.extend_from_slice(b" cycle")?,
        PackState::Sound => out.extend_from_slice(b" sound")?,
    }
    Ok(())
}

/// A package as a line: path, `*` of a stub, files, imports behind `>`, and state.
fn put_package(out: &mut Vec<u8>, package: &Package) -> Result<(), NoMemory> {
    out.extend_from_slice(package.path.as_str().as_bytes())?;
    if package.stub {
        out.push(b'*')?;
    }
    out.push(b' ')?;
    put_digits(out, package.files.as_slice())?;
    out.push(b'>')?;
    put_digits(out, package.imports.as_slice())?;
    put_state(out, &package.state)?;
    out.push(b'\n')?;
    Ok(())
}

/// The files of each test: 0 and 1 in `a`, 2 in `b`, 3 is `go.mod`, and 4 a stub.
fn tree(alloc: Global) -> Result<Files, NoMemory> {
    let mut files = Files::new(alloc);
    files.put("a/a.go", b"")?;
    files.put("a/c.go", b"")?;
    files.put("b/b.go", b"")?;
    files.put("go.mod", b"module ex\n")?;
    files.put("std/os/os.go", b"")?;
    Ok(files)
}

/// Their heads: the imports of 0, the name in 1, and the imports of 2 are the test's.
fn heads(
    alloc: Global,
    of_a: &[&[u8]],
    name: &[u8],
    of_b: &[&[u8]],
) -> Result<Vec<Option<Head>>, NoMemory> {
    let mut heads = Vec::new(alloc);
    heads.push(head(alloc, b"a", of_a)?)?;
    heads.push(head(alloc, name, &[])?)?;
    heads.push(head(alloc, b"b", of_b)?)?;
    heads.push(None)?;
    heads.push(head(alloc, b"os", &[])?)?;
    Ok(heads)
}

/// The packages of a tree, a line each, and the order of the sound ones.
fn lines(alloc: Global, files: &Files, heads: &[Option<Head>]) -> Result<Vec<u8>, NoMemory> {
    let mut out = Vec::new(alloc);
    if heads.len() != files.count() as usize {
        return Ok(out);
    }
    let packages = packages(alloc, files, heads)?;
    for package in &packages {
        put_package(&mut out, package)?;
    }
    packages_can_be_ordered();
    let order = order(alloc, &packages)?;
    put_digits(&mut out, &order)?;
    Ok(out)
}

fn shown(alloc: Global, of_a: &[&[u8]], name: &[u8], of_b: &[&[u8]]) -> Result<Vec<u8>, NoMemory> {
    let files = tree(alloc)?;
    let heads = heads(alloc, of_a, name, of_b)?;
    lines(alloc, &files, &heads)
}

#[test]
fn packages_import_one_another(rt: HostRuntime) -> Result<(), Fail> {
    let out = shown(
        rt.alloc(),
        &[b"unsafe", b"os", b"ex/b", b"os"],
        b"a",
        &[b"os"],
    )?;
    let want = b"ex/a 01>12 sound\nex/b 2>2 sound\nos* 4> sound\n210".as_slice();
    assert_eq!(rt; out.as_slice(), want);
    Ok(())
}

#[test]
fn imports_are_missing_where_they_stand(rt: HostRuntime) -> Result<(), Fail> {
    let out = shown(
        rt.alloc(),
        &[b"ex/none", b"ex/b", b"C", b".gone", b""],
        b"a",
        &[b"os"],
    )?;
    let want = b"ex/a 01>1 missing 0@0 0@4\nex/b 2>2 sound\nos* 4> sound\n21".as_slice();
    assert_eq!(rt; out.as_slice(), want);
    Ok(())
}

#[test]
fn a_cycle_is_of_those_that_reach_themselves(rt: HostRuntime) -> Result<(), Fail> {
    let both = shown(rt.alloc(), &[b"ex/b"], b"a", &[b"ex/a"])?;
    let want = b"ex/a 01>1 cycle\nex/b 2>0 cycle\nos* 4> sound\n2".as_slice();
    assert_eq!(rt; both.as_slice(), want);
    let one = shown(rt.alloc(), &[b"ex/b"], b"a", &[b"ex/b"])?;
    let want = b"ex/a 01>1 sound\nex/b 2>1 cycle\nos* 4> sound\n".as_slice();
    assert!(rt; one.as_slice().starts_with(want));
    Ok(())
}

#[test]
fn names_clash_with_the_first_by_path(rt: HostRuntime) -> Result<(), Fail> {
    let out = shown(rt.alloc(), &[], b"aa", &[b"os"])?;
    let want = b"ex/a 01> clash 1@8\nex/b 2>2 sound\nos* 4> sound\n21".as_slice();
    assert_eq!(rt; out.as_slice(), want);
    Ok(())
}

#[test]
fn a_broken_package_imports_nothing(rt: HostRuntime) -> Result<(), Fail> {
    let out = shown(rt.alloc(), &[b"ex/b"], b"", &[b"os"])?;
    let want = b"ex/a 01> broken\nex/b 2>2 sound\nos* 4> sound\n21".as_slice();
    assert_eq!(rt; out.as_slice(), want);
    Ok(())
}

/// The module path of a tree whose `go.mod` has this text.
fn module_of(alloc: Global, text: &[u8]) -> Result<Vec<u8>, NoMemory> {
    let mut files = Files::new(alloc);
    files.put("go.mod", text)?;
    let path = module_path(&files).as_bytes().to_vec(alloc)?;
    Ok(path)
}

#[test]
fn module_paths(rt: HostRuntime) -> Result<(), Fail> {
    assert_eq!(rt;
        module_path(&Files::new(rt.alloc())).as_bytes(),
        b"m".as_slice()
    );
    let rows: [(&[u8], &[u8]); 3] = [
        (b"module example.com/x\n\ngo 1.17\n", b"example.com/x"),
        (b"// module c\n\tmodule \t\"a/b\"// tail\n", b"a/b"),
        (b"module a/../b", b"m"),
    ];
    for (text, path) in rows {
        assert_eq!(rt; module_of(rt.alloc(), text)?.as_slice(), path);
    }
    Ok(())
}
