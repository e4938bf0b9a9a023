//! Short reads, short writes, and calls that fail or stall among them.
use gv_base::{MemSink, MemSource, Source, Unwritten, write_all};
use slow_devices::{SlowSink, SlowSource};
use std::alloc::{AllocError, Global};
use std::process::Abort;
use std::test::Fail;

/// The numbers up to here.
fn numbers(alloc: Global, calls: &[u64]) -> Result<Vec<u64>, AllocError> {
    let list = calls.to_vec(alloc)?;
    Ok(list)
}

/// A source of eight bytes, three a read, of which some reads fail.
fn source_of(alloc: Global, failing: &[u64]) -> Result<SlowSource<MemSource>, AllocError> {
    let bytes = b"abcdefgh".to_vec(alloc)?;
    let failing = numbers(alloc, failing)?;
    Ok(SlowSource::new(MemSource::new(bytes, failing), 3))
}

#[test]
fn reads_are_short_and_lose_nothing(rt: HostRuntime) -> Result<(), Fail> {
    let mut source = source_of(rt.alloc(), &[1])?;
    let mut into = [0u8; 5];
    assert!(rt; source.read(&mut into) == Ok(3));
    assert!(rt; &into[..3] == b"abc".as_slice());
    assert!(rt; source.read(&mut into).is_err());
    assert_eq!(rt; source.source().given(), 3);
    assert!(rt; source.read(&mut into[..2]) == Ok(2));
    assert!(rt; &into[..2] == b"de".as_slice());
    assert!(rt; source.read(&mut into) == Ok(3));
    assert!(rt; &into[..3] == b"fgh".as_slice());
    assert!(rt; source.read(&mut into) == Ok(0));
    assert_eq!(rt; source.source().given(), 8);
    Ok(())
}

/// What comes of writing eight bytes, three a write, where some writes fail and some take nothing.
fn written<R: Abort + AllocGlobal>(
    rt: &R,
    failing: &[u64],
    stalling: &[u64],
    wanted: Result<(), Unwritten>,
    held: &[u8],
) -> Result<(), Fail> {
    let alloc = rt.alloc();
    let below = MemSink::new(
        Vec::new(alloc),
        numbers(alloc, failing)?,
        numbers(alloc, stalling)?,
    );
    let mut sink = SlowSink::new(below, 3);
    assert!(rt; write_all(&mut sink, b"abcdefgh") == wanted);
    assert!(rt; sink.sink().bytes() == held);
    Ok(())
}

#[test]
fn writes_are_short_and_lose_nothing(rt: HostRuntime) -> Result<(), Fail> {
    written(&rt, &[], &[], Ok(()), b"abcdefgh")?;
    written(&rt, &[3], &[4], Ok(()), b"abcdefgh")?;
    Ok(())
}

#[test]
fn a_write_that_fails_or_stalls_ends_the_text_there(rt: HostRuntime) -> Result<(), Fail> {
    written(&rt, &[0], &[], Err(Unwritten::Failed), b"")?;
    written(&rt, &[1], &[], Err(Unwritten::Failed), b"abc")?;
    written(&rt, &[2], &[], Err(Unwritten::Failed), b"abcdef")?;
    written(&rt, &[], &[0], Err(Unwritten::Stuck), b"")?;
    written(&rt, &[], &[1], Err(Unwritten::Stuck), b"abc")?;
    written(&rt, &[2], &[1], Err(Unwritten::Stuck), b"abc")?;
    Ok(())
}
