//! A disk in memory, and a reader that gives a byte at a time.
use disk::{DirTree, FileKeeper, Kind, MemDisk, Slot, list_below, read_most};
use gv_base::{Denied, Fault, Keeper, Tree};
use std::alloc::{AllocError, Global};
use std::io;
use std::io::{ErrorKind, Read};
use std::process::Abort;
use std::test::Fail;

fn slot(alloc: Global, folder: &str, name: &str, kind: Kind) -> Result<Slot, AllocError> {
    let folder = String::from_str(alloc, folder)?;
    let name = String::from_str(alloc, name)?;
    Ok(Slot { folder, name, kind })
}

/// A disk with files that are listed and others, in the order of no path, of which the second look
/// into a folder fails where that is asked for.
fn small_disk(alloc: Global, failing: Vec<Fault>) -> Result<MemDisk, Fail> {
    let mut slots = Vec::new(alloc);
    let table = [
        ("", "z.go", Kind::File),
        ("", "a", Kind::Folder),
        ("", "go.mod", Kind::File),
        ("", "README.md", Kind::File),
        ("", "z_test.go", Kind::File),
        ("", "testdata", Kind::Folder),
        ("testdata", "t.go", Kind::File),
        ("", "link.go", Kind::Other),
        ("", "two words.go", Kind::File),
        ("a", "b.go", Kind::File),
        ("a", "go.mod", Kind::File),
        ("a", ".x.go", Kind::File),
        ("a", "c", Kind::Folder),
        ("a/c", "d.go", Kind::File),
        ("a", "b", Kind::Folder),
        ("", "a.go", Kind::File),
        ("", "_v", Kind::Folder),
        ("_v", "v.go", Kind::File),
    ];
    for (folder, name, kind) in table {
        slots.push(slot(alloc, folder, name, kind)?)?;
    }
    Ok(MemDisk::new(alloc, slots, failing))
}

fn joined(alloc: Global, paths: &[String]) -> Result<String, AllocError> {
    let mut all = String::new(alloc);
    for path in paths {
        all.push_str(path.as_str())?;
        all.push_str(" ")?;
    }
    Ok(all)
}

#[test]
fn a_listing_has_go_mod_and_source_files_in_byte_order(rt: HostRuntime) -> Result<(), Fail> {
    let alloc = rt.alloc();
    let mut disk = small_disk(alloc, Vec::new(alloc))?;
    let list = list_below(alloc, &mut disk).expect(&rt, "listed");
    let all = joined(alloc, &list)?;
    assert_eq!(rt; all.as_str(), "a.go a/b.go a/c/d.go go.mod z.go ");
    Ok(())
}

/// What a call answers, told apart.
fn is_failed<T>(answer: &Result<T, Denied>) -> bool {
    match answer {
        Err(Denied::Failed) => true,
        Err(Denied::NoMemory) => false,
        Ok(_) => false,
    }
}

fn fault(call: u64, new_stay: bool) -> Fault {
    Fault { call, new_stay }
}

#[test]
fn a_folder_that_fails_is_a_fault_of_the_tree(rt: HostRuntime) -> Result<(), Fail> {
    let alloc = rt.alloc();
    for call in 0..3 {
        let mut failing = Vec::new(alloc);
        failing.push(fault(call, false))?;
        let mut tree = DirTree::new(alloc, small_disk(alloc, failing)?);
        assert!(rt; is_failed(&tree.list()));
        assert_eq!(rt; tree.faults(), 1);
        let again = tree.list().expect(&rt, "listed");
        assert_eq!(rt; again.len(), 5);
        assert_eq!(rt; tree.faults(), 1);
    }
    Ok(())
}

#[test]
fn what_was_stored_is_fetched(rt: HostRuntime) -> Result<(), Fail> {
    let alloc = rt.alloc();
    let mut keeper = FileKeeper::new(alloc, MemDisk::new(alloc, Vec::new(alloc), Vec::new(alloc)));
    assert!(rt; keeper.fetch().expect(&rt, "fetched").is_none());
    keeper.store(b"one").expect(&rt, "stored");
    keeper.store(b"two").expect(&rt, "stored");
    let kept = keeper.fetch().expect(&rt, "fetched").ok_or("nothing")?;
    assert!(rt; kept.as_slice() == b"two".as_slice());
    assert!(rt; keeper.disk().get(".gvet-cache") == Some(b"two".as_slice()));
    assert!(rt; keeper.disk().get(".gvet-new") == None);
    Ok(())
}

/// A store of which the writing or the moving fails, and what is kept then.
fn store_fails<R: Abort + AllocGlobal>(
    rt: &R,
    call: u64,
    new_stay: bool,
    wanted: &[u8],
) -> Result<(), Fail> {
    let alloc = rt.alloc();
    let mut failing = Vec::new(alloc);
    failing.push(fault(call, new_stay))?;
    let mut keeper = FileKeeper::new(alloc, MemDisk::new(alloc, Vec::new(alloc), failing));
    keeper.store(b"old").expect(rt, "stored");
    assert!(rt; is_failed(&keeper.store(b"new bytes")));
    let kept = keeper.fetch().expect(rt, "fetched").ok_or("nothing")?;
    assert!(rt; kept.as_slice() == wanted);
    assert!(rt; keeper.disk().get(".gvet-new") == None);
    Ok(())
}

#[test]
fn a_store_that_fails_leaves_the_old_or_the_new(rt: HostRuntime) -> Result<(), Fail> {
    store_fails(&rt, 2, false, b"old")?;
    store_fails(&rt, 2, true, b"old")?;
    store_fails(&rt, 3, false, b"old")?;
    store_fails(&rt, 3, true, b"new bytes")?;
    Ok(())
}

/// A tree with the file `a.go`, in which one call fails.
fn tree_with_file<R: Abort + AllocGlobal>(
    rt: &R,
    call: u64,
    new_stay: bool,
) -> Result<DirTree<MemDisk>, Fail> {
    let alloc = rt.alloc();
    let mut failing = Vec::new(alloc);
    failing.push(fault(call, new_stay))?;
    let mut disk = MemDisk::new(alloc, Vec::new(alloc), failing);
    disk.put("a.go", b"package a")?;
    Ok(DirTree::new(alloc, disk))
}

#[test]
fn a_file_is_read_and_replaced(rt: HostRuntime) -> Result<(), Fail> {
    let mut tree = tree_with_file(&rt, 9, false)?;
    let front = tree.read("a.go", 7).expect(&rt, "read");
    assert!(rt; front.as_slice() == b"package".as_slice());
    assert!(rt; is_failed(&tree.read("b.go", 7)));
    assert_eq!(rt; tree.faults(), 1);
    tree.write("a.go", b"package b").expect(&rt, "written");
    assert!(rt; tree.disk().get("a.go") == Some(b"package b".as_slice()));
    assert!(rt; tree.disk().get(".gvet-new") == None);
    assert_eq!(rt; tree.faults(), 1);
    Ok(())
}

/// A replacing of which one call fails, and what the file has then.
fn write_fails<R: Abort + AllocGlobal>(
    rt: &R,
    call: u64,
    new_stay: bool,
    wanted: &[u8],
) -> Result<(), Fail> {
    let mut tree = tree_with_file(rt, call, new_stay)?;
    assert!(rt; is_failed(&tree.write("a.go", b"new")));
    assert_eq!(rt; tree.faults(), 1);
    assert!(rt; tree.disk().get("a.go") == Some(wanted));
    assert!(rt; tree.disk().get(".gvet-new") == None);
    Ok(())
}

#[test]
fn a_write_that_fails_leaves_the_old_or_the_new(rt: HostRuntime) -> Result<(), Fail> {
    write_fails(&rt, 0, false, b"package a")?;
    write_fails(&rt, 0, true, b"package a")?;
    write_fails(&rt, 1, false, b"package a")?;
    write_fails(&rt, 1, true, b"new")?;
    Ok(())
}

/// A reader that gives so many bytes, one at a time, and fails at one call.
#[derive(Drop)]
struct Trickle {
    left: usize,
    calls: u64,
    failing: u64,
}

impl Read for Trickle {
    fn read(&mut self, buf: &mut [u8]) -> io::Result<usize> {
        let call = self.calls;
        self.calls = self.calls.saturating_add(1);
        if call == self.failing {
            return Err(io::Error::from(ErrorKind::InvalidData));
        }
        if self.left == 0 || buf.is_empty() {
            return Ok(0);
        }
        self.left -= 1;
        buf[0] = 7;
        Ok(1)
    }
}

fn read_trickle(alloc: Global, left: usize, failing: u64, most: usize) -> io::Result<usize> {
    let mut file = Trickle {
        left,
        calls: 0,
        failing,
    };
    let bytes = read_most(alloc, &mut file, most, 3)?;
    Ok(bytes.len())
}

#[test]
fn a_file_that_comes_byte_by_byte_is_read_up_to_the_most(rt: HostRuntime) -> Result<(), Fail> {
    let alloc = rt.alloc();
    assert_eq!(rt; read_trickle(alloc, 10, 99, 20)?, 10);
    assert_eq!(rt; read_trickle(alloc, 10, 99, 4)?, 4);
    assert_eq!(rt; read_trickle(alloc, 10, 99, 0)?, 0);
    assert!(rt; read_trickle(alloc, 10, 3, 20).is_err());
    assert!(rt; read_trickle(alloc, 10, 10, 20).is_err());
    assert_eq!(rt; read_trickle(alloc, 10, 10, 10)?, 10);
    Ok(())
}
