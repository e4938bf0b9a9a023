//! What comes of a session is the same for each number of workers.
use super::Case;
use super::folders::words_of;
use go_kit::new_kits;
use gv_base::{MemSink, SureKeeper, SureSource, SureTree};
use std::alloc::Global;
use std::process::Abort;
use std::random::RandomSource;
use std::test::Fail;
use std::thread::Threads;
use top_calls::gvet::gvet;

/// What a session with so many workers says, and its status.
fn said_by<R: Threads + Sync + RandomSource>(
    rt: &R,
    alloc: Global,
    workers: &str,
    script: &[u8],
) -> Result<(u8, Vec<u8>), Fail> {
    let words = words_of(alloc, &["session", "--workers", workers])?;
    let mut tree = SureTree::new(alloc);
    let mut keeper = SureKeeper::new(alloc, None);
    let mut input = SureSource::new(script.to_vec(alloc)?);
    let mut output = MemSink::new(Vec::new(alloc), Vec::new(alloc), Vec::new(alloc));
    let mut kits = new_kits(alloc, 64)?;
    let status = gvet(
        rt,
        alloc,
        &words,
        &mut tree,
        &mut keeper,
        &mut input,
        &mut output,
        kits.as_mut_slice(),
    );
    Ok((status, output.bytes().to_vec(alloc)?))
}

/// Several workers answer a script as one does.
pub(super) fn several_answer<R: Threads + Sync + RandomSource + Abort>(
    rt: &R,
    alloc: Global,
    case: Case,
) -> Result<(), Fail> {
    for workers in ["2", "8", "64"] {
        let (status, out) = said_by(rt, alloc, workers, case.0)?;
        assert_eq!(rt; out.as_slice(), case.1);
        assert_eq!(rt; status, case.2);
    }
    Ok(())
}
