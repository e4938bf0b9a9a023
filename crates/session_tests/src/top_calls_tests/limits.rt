//! Trees at their limits, and over them: the line of the first, and the numbers of such a run.
use super::answer;
use std::alloc::Global;
use std::process::Abort;
use std::random::RandomSource;
use std::test::Fail;
use std::thread::Threads;

const NO_NUMBERS: &[u8] = b"nodes 0, missing 0, loads 0, runs 0\n";

/// Adds this many packages of a file each.
fn put_packages(alloc: Global, script: &mut Vec<u8>, count: u32) -> Result<(), Fail> {
    for n in 0..count {
        let line = format!(in alloc; "put p{n}/p.go 10\npackage p\n\n")?;
        script.extend_from_slice(line.as_bytes())?;
    }
    Ok(())
}

/// Adds a file of blanks.
fn put_blanks(alloc: Global, script: &mut Vec<u8>, path: &str, len: usize) -> Result<(), Fail> {
    let line = format!(in alloc; "put {path} {len}\n")?;
    script.extend_from_slice(line.as_bytes())?;
    for _n in 0..len {
        script.push(b' ')?;
    }
    script.push(b'\n')?;
    Ok(())
}

/// What a script and a check with its numbers behind it say, and the status.
fn told<R: Threads + Sync + RandomSource + Abort>(
    rt: &R,
    alloc: Global,
    script: &mut Vec<u8>,
    said: &[u8],
    numbers: &[u8],
    number: u8,
) -> Result<(), Fail> {
    script.extend_from_slice(b"check\nstats\n")?;
    let (status, out) = answer(rt, alloc, script, &[], &[], &[])?;
    let mut due = said.to_vec(alloc)?;
    due.extend_from_slice(numbers)?;
    assert_eq!(rt; out.as_slice(), due.as_slice());
    assert_eq!(rt; status, number);
    Ok(())
}

#[test]
fn tells_of_too_many_packages(rt: HostRuntime) -> Result<(), Fail> {
    let mut script = Vec::new(rt.alloc());
    put_packages(rt.alloc(), &mut script, 1024)?;
    let numbers = b"nodes 1024, missing 1024, loads 1024, runs 0\n";
    told(
        &rt,
        rt.alloc(),
        &mut script,
        b"packages 1024, errors 0\n",
        numbers,
        0,
    )?;
    // a stub more; the numbers of the run before aren't told again
    script.extend_from_slice(b"put std/d/d.go 10\npackage d\n\n")?;
    let said =
        b"packages 1024, errors 0\nnodes 1024, missing 1024, loads 1024, runs 0\nlimit: packages\n";
    told(&rt, rt.alloc(), &mut script, said, NO_NUMBERS, 1)
}

#[test]
fn tells_each_command_of_a_limit(rt: HostRuntime) -> Result<(), Fail> {
    let mut script = Vec::new(rt.alloc());
    put_packages(rt.alloc(), &mut script, 1025)?;
    script.extend_from_slice(b"report\nfacts\nfix\n")?;
    let said = b"limit: packages\nlimit: packages\nlimit: packages\nlimit: packages\n";
    told(&rt, rt.alloc(), &mut script, said, NO_NUMBERS, 1)
}

#[test]
fn tells_of_a_long_file(rt: HostRuntime) -> Result<(), Fail> {
    let mut script = Vec::new(rt.alloc());
    put_packages(rt.alloc(), &mut script, 1025)?;
    put_blanks(rt.alloc(), &mut script, "p0/a.go", 4_194_305)?;
    told(
        &rt,
        rt.alloc(),
        &mut script,
        b"limit: file bytes\n",
        NO_NUMBERS,
        1,
    )
}

#[test]
fn tells_of_a_long_go_mod(rt: HostRuntime) -> Result<(), Fail> {
    let mut script = Vec::new(rt.alloc());
    put_blanks(rt.alloc(), &mut script, "go.mod", 4_194_305)?;
    told(
        &rt,
        rt.alloc(),
        &mut script,
        b"limit: file bytes\n",
        NO_NUMBERS,
        1,
    )?;
    let mut script = Vec::new(rt.alloc());
    put_blanks(rt.alloc(), &mut script, "go.mod", 4_194_304)?;
    put_blanks(rt.alloc(), &mut script, "notes", 5_000_000)?;
    put_blanks(rt.alloc(), &mut script, "a_test.go", 5_000_000)?;
    told(
        &rt,
        rt.alloc(),
        &mut script,
        b"packages 0, errors 0\n",
        NO_NUMBERS,
        0,
    )
}

#[test]
fn tells_of_too_many_files(rt: HostRuntime) -> Result<(), Fail> {
    let mut script = Vec::new(rt.alloc());
    put_packages(rt.alloc(), &mut script, 10_000)?;
    put_blanks(rt.alloc(), &mut script, "go.mod", 4_194_305)?;
    told(
        &rt,
        rt.alloc(),
        &mut script,
        b"limit: files\n",
        NO_NUMBERS,
        1,
    )
}

#[test]
fn tells_of_too_many_bytes(rt: HostRuntime) -> Result<(), Fail> {
    let mut script = Vec::new(rt.alloc());
    for n in 0..16 {
        let path = format!(in rt.alloc(); "a{n}.go")?;
        put_blanks(rt.alloc(), &mut script, path.as_str(), 4_194_304)?;
    }
    put_blanks(rt.alloc(), &mut script, "go.mod", 1)?;
    put_packages(rt.alloc(), &mut script, 1025)?;
    told(
        &rt,
        rt.alloc(),
        &mut script,
        b"limit: tree bytes\n",
        NO_NUMBERS,
        1,
    )
}
