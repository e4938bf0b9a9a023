//! The files of a tree outside: what a run reads of them, and changes that are written; and the script of a chain.
ghost use Rattle.std.specs.Prelude.{◌≡◌, IfOk};

use analysis_core::ChangedFile;
use chain_script::chain_script;
use folder::{read_tree, write_files};
use gv_base::{Bytes, Denied, Fault, MemTree, Text};
use std::alloc::{AllocError, Global};
use std::process::Abort;
use std::test::Fail;

/// Files of which a run reads two, in a tree in which one call fails, if one is to.
fn four_files<R: Abort + AllocGlobal>(rt: &R, failing: Vec<Fault>) -> Result<MemTree, Fail> {
    let alloc = rt.alloc();
    let mut tree = MemTree::new(alloc, failing);
    tree.put("README.md", b"words").expect(rt, "put");
    tree.put("a.go", b"package a").expect(rt, "put");
    tree.put("a_test.go", b"package a").expect(rt, "put");
    tree.put("go.mod", b"module m").expect(rt, "put");
    Ok(tree)
}

#[test]
fn a_run_reads_the_first_bytes_of_go_mod_and_source_files(rt: HostRuntime) -> Result<(), Fail> {
    let alloc = rt.alloc();
    let mut tree = four_files(&rt, Vec::new(alloc))?;
    let files = read_tree(alloc, &mut tree, 8).expect(&rt, "read");
    assert_eq!(rt; files.count(), 2);
    assert!(rt; files.get("a.go") == Some(b"package ".as_slice()));
    assert!(rt; files.get("go.mod") == Some(b"module m".as_slice()));
    Ok(())
}

#[test]
fn a_listing_or_a_reading_that_fails_is_told(rt: HostRuntime) -> Result<(), Fail> {
    let alloc = rt.alloc();
    for call in 0..3 {
        let mut failing = Vec::new(alloc);
        failing.push(Fault {
            call,
            new_stay: false,
        })?;
        let mut tree = four_files(&rt, failing)?;
        assert!(rt; matches!(read_tree(alloc, &mut tree, 8), Err(Denied::Failed)));
    }
    Ok(())
}

fn change(alloc: Global, path: &str, bytes: &[u8]) -> Result<ChangedFile, AllocError>
    ensures { IfOk result (λ file. file.path ≡ path.now) }
{
    let path = String::from_str(alloc, path)?;
    let bytes = bytes.to_vec(alloc)?;
    Ok(ChangedFile {
        path: Text::new(path),
        bytes: Bytes::new(bytes),
    })
}

#[test]
fn changed_files_are_written_in_turn(rt: HostRuntime) -> Result<(), Fail> {
    let alloc = rt.alloc();
    let mut failing = Vec::new(alloc);
    failing.push(Fault {
        call: 1,
        new_stay: false,
    })?;
    let mut tree = four_files(&rt, failing)?;
    let first = change(alloc, "go.mod", b"module n")?;
    let second = change(alloc, "a.go", b"package b")?;
    let changed = [first, second];
    assert!(rt; matches!(write_files(&mut tree, &changed), Err(Denied::Failed)));
    assert!(rt; tree.get("go.mod") == Some(b"module n".as_slice()));
    assert!(rt; tree.get("a.go") == Some(b"package a".as_slice()));
    write_files(&mut tree, &changed).expect(&rt, "written");
    assert!(rt; tree.get("a.go") == Some(b"package b".as_slice()));
    Ok(())
}

#[test]
fn a_chain_of_two_packages(rt: HostRuntime) -> Result<(), Fail> {
    let script = chain_script(rt.alloc(), 2).expect(&rt, "written");
    let wanted =
        b"put p0/p.go 67\npackage p\n\nconst C = 0\n\nfunc F(x int) int {\n\tx = x\n\treturn x + C\n}\n\nput p1/p.go 90\npackage p\n\nimport q \"m/p0\"\n\nconst C = q.C + 1\n\nfunc F(x int) int {\n\tx = x\n\treturn x + C\n}\n\nreport\nstats\nreport\nstats\nend\n";
    assert!(rt; script.as_slice() == wanted.as_slice());
    Ok(())
}
